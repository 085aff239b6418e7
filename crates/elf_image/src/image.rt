//! The image of a program.

use crate::bytes::read_number;
use crate::segment::Segment;
use crate::symbols::{Table, value_of};
use std::marker::Model;

/// The image of a program, which contracts see as a finite map from addresses to bytes and a list of pairs of a name
/// and a value. It keeps the file, and where its segments and its symbols stand.
#[derive(Debug, Drop)]
pub struct Image {
    file: Vec<u8>,
    segments: Vec<Segment>,
    tables: Vec<Table>,
}

impl Model for Image {
    ghost use Rattle.std.specs.List.{flat_map};
    ghost use Rattle.elf_image.specs.Segments.{memory_of};
    ghost use Rattle.elf_image.specs.Symbols.{symbols_in};
    ghost use Rattle.elf_image.specs.Image.{Image, image_code, IsLaidOut};

    ghost Value = { Image };

    ghost coded = { image_code };

    ghost view = { λ i. record {
      memory = memory_of i.file.items i.segments.items;
      symbols = flat_map (symbols_in i.file.items) i.tables.items;
    } };

    ghost invariant = { λ i. IsLaidOut i.file.items i.segments.items i.tables.items };
}

impl Image {
    ghost use Rattle.std.specs.Prelude.{◌≡◌, ◌*◌, ◌^◌, ◌<◌, ◌≤◌, IfSome};
    ghost use Rattle.std.specs.List.{flat_map};
    ghost use Rattle.state_core.specs.Memory.{read_number};
    ghost use Rattle.elf_image.specs.Segments.{memory_of};
    ghost use Rattle.elf_image.specs.Symbols.{symbols_in, value_of};
    ghost use Rattle.elf_image.specs.Image.{IsLaidOut};

    /// The image of segments of a file and its symbol tables.
    pub(crate) fn new(file: Vec<u8>, segments: Vec<Segment>, tables: Vec<Table>) -> Image
        requires { IsLaidOut file.items segments.items tables.items }
        ensures { result ≡ record { memory = memory_of file.items segments.items; symbols = flat_map (symbols_in file.items) tables.items } }
    {
        Image {
            file,
            segments,
            tables,
        }
    }

    /// The little-endian number that stands in so many bytes, at most 16, from an address on; none where they pass the
    /// last address, 2^64 - 1, or the image lacks one of them. It takes no memory.
    pub fn bytes_at(&self, addr: u64, bytes: u32) -> Option<u128>
        requires few { bytes ≤ 16 }
        ensures value { result ≡ read_number self.now.memory addr bytes }
        ensures fits { IfSome result (λ n. n < 2 ^ (8 * bytes)) }
    {
        read_number(&self.file, &self.segments, addr, bytes)
    }

    /// The value of the first symbol with that name; none where no symbol has it. It takes no memory.
    pub fn symbol(&self, name: &[u8]) -> Option<u64>
        ensures { result ≡ value_of name.now self.now.symbols }
    {
        value_of(&self.file, &self.tables, name)
    }
}
