// Traces, their events and their ends.

use bv_bits::Bits;
use term_arena::TermId;
use trace_plain::FailKind;

/// An event of a trace. Registers go by their numbers, `var` is the number of a variable of the path, and terms are those of
/// the `Terms` that the trace was made over.
#[derive(Clone, Copy)]
pub enum Event {
    /// The value of a register becomes that of a variable.
    ReadReg {
        reg: usize,
        var: u32,
    },
    /// A register takes the value of a term.
    WriteReg {
        reg: usize,
        term: TermId,
    },
    /// So many bytes from an address on become the value of a variable.
    ReadMem {
        var: u32,
        addr: TermId,
        bytes: u32,
    },
    /// So many bytes from an address on take the value of a term.
    WriteMem {
        addr: TermId,
        term: TermId,
        bytes: u32,
    },
    /// The path is one on which this bit is 1.
    Assume {
        term: TermId,
    },
    /// This bit has to be 1.
    Need {
        term: TermId,
    },
    /// The path is one on which the register has this value.
    AssumeReg {
        reg: usize,
        value: Bits,
    },
}

/// How a trace ends.
#[derive(Clone, Copy)]
#[cycle(trace)]
pub enum End<'a> {
    /// The instruction is done.
    Done,
    /// It fails.
    Fail(FailKind),
    /// It goes on as one of these, which stand in the arena.
    Cases(&'a [Trace<'a>]),
}

/// A trace: events in their order, which stand in an arena, and an end. It lives no longer than the arena.
#[derive(Clone, Copy)]
#[cycle(trace)]
pub struct Trace<'a> {
    /// From the first to the last.
    pub events: &'a [Event],
    /// What comes after the last.
    pub end: End<'a>,
}
