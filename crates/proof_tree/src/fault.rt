//! Why a text is no proof file.

use device_spec::DevFault;
use lex_core::{LexFault, NoMemory};
use std::alloc::AllocError;
use term_tree::TermFault;

/// Why a text is no proof file. A place is the number of bytes before it in the text.
#[derive(Debug, Clone, Copy, PartialEq, Eq)]
pub enum ProofFault {
    /// The text can't be cut into tokens.
    Lex(LexFault),
    /// No proof file goes on with the token at this place, or with the end of the text, or a rule that has no fault of its
    /// own is broken there.
    Form { at: usize },
    /// The file has this version, which isn't one that was asked for.
    Version { n: u32 },
    /// The name or opcode at this place is declared already.
    NameTwice { at: usize },
    /// The name at this place isn't declared.
    NoLabel { at: usize },
    /// The term, value or name at this place has another width or sort than the place asks for.
    WidthDiffers { at: usize },
    /// The devices don't stand together.
    Device(DevFault),
    /// The 1,048,577th step; steps of certificates count.
    TooManySteps,
    /// The text has more than 16,777,216 bytes.
    TooLong,
    /// A term would be 1,025 high, or its brackets nest 1,025 deep.
    Term(TermFault),
    /// Want of memory.
    NoMemory,
}

impl From<NoMemory> for ProofFault {
    ghost use Rattle.std.specs.Prelude.{◌≡◌};
    ghost use Rattle.proof_tree.specs.declared.fault.ProofFault.TheVariants as fault;

    ghost from_gives = { λ _ e. e ≡ fault.NoMemory };

    fn from(_error: NoMemory) -> ProofFault {
        ProofFault::NoMemory
    }
}

impl From<AllocError> for ProofFault {
    ghost use Rattle.std.specs.Prelude.{◌≡◌};
    ghost use Rattle.proof_tree.specs.declared.fault.ProofFault.TheVariants as fault;

    ghost from_gives = { λ _ e. e ≡ fault.NoMemory };

    fn from(_error: AllocError) -> ProofFault {
        ProofFault::NoMemory
    }
}
