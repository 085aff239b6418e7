//! Why a text is no program.

ghost use Rattle.std.specs.Prelude.{◌≡◌};
ghost use Rattle.sail_reader.specs.Reading.{told_stop};

use lex_core::LexFault;
use sail_frames::Stop;
use sail_machine::{Fault, Flaw};

/// Why a Sail text can't be read. A place is in bytes of the text.
#[derive(Clone, Copy, Debug, PartialEq, Eq)]
pub enum SailFault {
    /// It can't be cut into tokens.
    Lex(LexFault),
    /// The first token at which no continuation is in the grammar, or the end of the text.
    Unexpected { at: usize },
    /// An infix operator that follows another one in the same chain.
    Mixed { at: usize },
    /// The token at which nesting becomes 129.
    TooDeep { at: usize },
    /// The 1,025th register, enum or function.
    TooMany { at: usize },
    /// The text has more than 1,048,576 bytes.
    TooLong,
    /// Want of memory.
    NoMemory,
}

impl SailFault {
    /// Why the text is no program, where the machine stops.
    pub fn of(stop: Stop) -> SailFault
        ensures { result ≡ told_stop stop }
    {
        match stop {
            Stop::NoMemory => SailFault::NoMemory,
            Stop::Fault(Fault { flaw, at }) => match flaw {
                Flaw::Unexpected => SailFault::Unexpected { at },
                Flaw::Mixed => SailFault::Mixed { at },
                Flaw::TooDeep => SailFault::TooDeep { at },
                Flaw::TooMany => SailFault::TooMany { at },
            },
        }
    }
}
