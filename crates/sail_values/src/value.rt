//! Values, what local names stand for, and how an evaluation ends.

use bv_bits::Bits;
use lex_core::{Name, NoMemory};
use state_core::FaultKind;
use std::alloc::AllocError;

/// A value of the Sail profile.
#[derive(Clone, Copy, Debug, PartialEq, Eq)]
pub enum Value {
    /// `()`.
    Unit,
    /// `true` or `false`.
    Truth(bool),
    /// A bit vector.
    Bits(Bits),
    /// A member of an enum: the number of the enum among the text's enums and of the member in it, from 0.
    Member { of: usize, index: usize },
}

/// What a local name stands for.
#[derive(Clone, Copy, Debug, PartialEq, Eq)]
pub enum Local {
    /// A value.
    Is(Value),
    /// The number that a foreach variable is at, from 0 to 127.
    Counts(u32),
}

/// A local name and what it stands for.
#[derive(Debug, Drop)]
pub struct Slot {
    pub name: Name,
    pub local: Local,
}

/// How the evaluation of a call ends.
#[derive(Clone, Copy, Debug, PartialEq, Eq)]
pub enum Outcome {
    /// It gives a value.
    Value(Value),
    /// A fault of the machine, and the place in the Sail text of what it comes from.
    Fault { kind: FaultKind, at: usize },
    /// A device was read, and no answer is left.
    NoAnswer,
    /// Want of memory. The state, the answers and the log are those of some earlier moment.
    NoMemory,
}

/// Why an expression has no value.
#[derive(Clone, Copy, Debug, PartialEq, Eq)]
pub enum Stop {
    /// A fault of the machine, and the place in the Sail text of what it comes from.
    Fault { kind: FaultKind, at: usize },
    /// A device was read, and no answer is left.
    NoAnswer,
    /// Want of memory.
    NoMemory,
}

impl From<AllocError> for Stop {
    ghost use Rattle.std.specs.Prelude.{◌≡◌};
    ghost use Rattle.sail_values.specs.declared.value.Stop.TheVariants.{NoMemory};

    ghost from_gives = { λ _ stop. stop ≡ NoMemory };

    fn from(_error: AllocError) -> Stop {
        Stop::NoMemory
    }
}

impl From<NoMemory> for Stop {
    ghost use Rattle.std.specs.Prelude.{◌≡◌};
    ghost use Rattle.sail_values.specs.declared.value.Stop.TheVariants.{NoMemory};

    ghost from_gives = { λ _ stop. stop ≡ NoMemory };

    fn from(_error: NoMemory) -> Stop {
        Stop::NoMemory
    }
}
