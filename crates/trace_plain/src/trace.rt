//! Traces, their events and their ends.

use bv_bits::Bits;
use sqlite_items::Items;
use term_tree::Term;

/// Why a path of a trace fails.
#[derive(Clone, Copy, Debug, PartialEq, Eq)]
pub enum FailKind {
    /// No arm of a `match` fits.
    Match,
    /// The test of an `assert` is false.
    Assert,
    /// `exit()` was called.
    Exit,
    /// A division has an operand that isn't a literal.
    Unsupported,
    /// A register whose value is assumed was written.
    AssumedWritten,
}

/// An event of a trace. Registers go by their numbers, and `var` is the number of a variable of the path.
#[derive(Drop)]
pub enum PlainEvent {
    /// The value of a register becomes that of a variable.
    ReadReg { reg: usize, var: u32 },
    /// A register takes the value of a term.
    WriteReg { reg: usize, term: Term },
    /// So many bytes from an address on become the value of a variable.
    ReadMem { var: u32, addr: Term, bytes: u32 },
    /// So many bytes from an address on take the value of a term.
    WriteMem { addr: Term, term: Term, bytes: u32 },
    /// The path is one on which this bit is 1.
    Assume { term: Term },
    /// This bit has to be 1.
    Need { term: Term },
    /// The path is one on which the register has this value.
    AssumeReg { reg: usize, value: Bits },
}

/// How a trace ends.
#[cycle(trace)]
#[derive(Drop)]
pub enum PlainEnd {
    /// The instruction is done.
    Done,
    /// It fails.
    Fail(FailKind),
    /// It goes on as one of these.
    Cases(Items<PlainTrace>),
}

/// A trace: events in their order, and an end.
#[cycle(trace)]
#[derive(Drop)]
pub struct PlainTrace {
    /// From the first to the last.
    pub events: Items<PlainEvent>,
    /// What comes after the last.
    pub end: PlainEnd,
}
