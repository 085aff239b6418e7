//! Why a text can't be read as a trace.

ghost use Rattle.std.specs.Prelude.{◌≡◌};
ghost use Rattle.trace_read.specs.Taking as spec;

use lex_core::{LexFault, NoMemory};
use std::alloc::AllocError;
use term_read::TermReadFault;
use term_tree::TermFault;

/// Why no trace can be read. A place is the number of bytes before it in the text.
#[derive(Debug, Clone, Copy, PartialEq, Eq)]
pub enum TraceFault {
    /// The text can't be cut into tokens.
    Lex(LexFault),
    /// No trace goes on with the token at this place, or with the end of the text, or the 65,537th event or end would begin there.
    TraceForm { at: usize },
    /// The register at this place isn't declared, or the variable isn't bound.
    Unbound { at: usize },
    /// The application whose `(` stands at this place has arguments that its operator doesn't take, or the term or literal that begins there has
    /// a width that doesn't fit its place.
    WidthDiffers { at: usize },
    /// A term would be 1,025 high, or its brackets nest 1,025 deep.
    Term(TermFault),
    /// Want of memory.
    NoMemory,
}

impl From<NoMemory> for TraceFault {
    ghost use Rattle.std.specs.Prelude.{◌≡◌};
    ghost use Rattle.trace_read.specs.declared.fault.TraceFault.TheVariants as fault;

    ghost from_gives = { λ _ e. e ≡ fault.NoMemory };

    fn from(_error: NoMemory) -> TraceFault {
        TraceFault::NoMemory
    }
}

impl From<AllocError> for TraceFault {
    ghost use Rattle.std.specs.Prelude.{◌≡◌};
    ghost use Rattle.trace_read.specs.declared.fault.TraceFault.TheVariants as fault;

    ghost from_gives = { λ _ e. e ≡ fault.NoMemory };

    fn from(_error: AllocError) -> TraceFault {
        TraceFault::NoMemory
    }
}

/// A fault of a term as one of a trace.
pub fn of_term(fault: TermReadFault) -> TraceFault
    ensures { result ≡ spec.of_term fault }
{
    match fault {
        TermReadFault::Form { at } => TraceFault::TraceForm { at },
        TermReadFault::Unbound { at } => TraceFault::Unbound { at },
        TermReadFault::WidthDiffers { at } => TraceFault::WidthDiffers { at },
        TermReadFault::Term(fault) => TraceFault::Term(fault),
    }
}
