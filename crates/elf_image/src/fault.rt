//! The refusals of a file.

use lex_core::NoMemory;
use std::alloc::{AllocError, AllocFailed};

/// Why a file is no image of a program. A segment's number is that of its program header, from 0.
#[derive(Clone, Copy, Debug, PartialEq, Eq)]
pub enum ImageFault {
    /// The file ends inside the ELF header (the place is the file's length), inside a program header (the place is
    /// where that header begins) or inside a segment's bytes (the place is its `p_offset`).
    Truncated { at: u64 },
    /// Byte 4 of the ELF header, `EI_CLASS`, isn't 2: the file isn't ELF-64.
    Class,
    /// Byte 5 of the ELF header, `EI_DATA`, isn't 1: the file isn't little-endian.
    Order,
    /// The file isn't for RISC-V (`e_machine` 243), is neither an executable nor a shared object (`e_type` 2 or 3), or
    /// has program headers of another size than 56 bytes (`e_phentsize`).
    Kind,
    /// Segments `i` and `j`, with `i` below `j`, share an address. No pair that does is less than this one.
    Overlap { i: u32, j: u32 },
    /// Segment `i` has more bytes in the file than in memory, or passes the last address, 2^64 - 1.
    Range { i: u32 },
    /// The file, or its segments together in memory, have more bytes than the limit.
    TooLarge,
    /// Want of memory.
    NoMemory,
}

impl From<NoMemory> for ImageFault {
    ghost use Rattle.std.specs.Prelude.{◌≡◌};
    ghost use Rattle.elf_image.specs.declared.fault.ImageFault.TheVariants as fault;

    ghost from_gives = { λ _ e. e ≡ fault.NoMemory };

    fn from(_error: NoMemory) -> ImageFault {
        ImageFault::NoMemory
    }
}

impl From<AllocError> for ImageFault {
    ghost use Rattle.std.specs.Prelude.{◌≡◌};
    ghost use Rattle.elf_image.specs.declared.fault.ImageFault.TheVariants as fault;

    ghost from_gives = { λ _ e. e ≡ fault.NoMemory };

    fn from(_error: AllocError) -> ImageFault {
        ImageFault::NoMemory
    }
}

impl<T: Drop> From<AllocFailed<T>> for ImageFault {
    ghost use Rattle.std.specs.Prelude.{◌≡◌};
    ghost use Rattle.elf_image.specs.declared.fault.ImageFault.TheVariants as fault;

    ghost from_gives = { λ _ e. e ≡ fault.NoMemory };

    fn from(_error: AllocFailed<T>) -> ImageFault {
        ImageFault::NoMemory
    }
}
