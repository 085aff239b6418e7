//! What can be wrong with a program's names and types.

use lex_core::Name;
use sail_syntax::Ty;

/// Why a program isn't typed. Each place is in bytes of the text.
#[derive(Debug, Drop)]
pub enum TypeFault {
    /// There is no such name here, or none of the kind that stands here. Number 10.
    Unknown { name: Name, at: usize },
    /// The name is taken. Number 11.
    Twice { name: Name, at: usize },
    /// The place asks for one type, and what stands there has another. Number 12.
    TypeDiffers { want: Ty, got: Ty, at: usize },
    /// There is no function `instr` that takes a word of 32 bits and gives unit. Number 13.
    NoInstr,
    /// There is no register PC of 64 bits. Number 14.
    NoPc,
    /// The function isn't complete above this place. Number 15.
    Later { name: Name, at: usize },
    /// The function calls too deep. A limit, number 52.
    CallHeight { name: Name, at: usize },
    /// The function `instr16` doesn't take a word of 16 bits or doesn't give unit. Number 59.
    BadInstr16 { at: usize },
    /// Want of memory.
    NoMemory,
}

/// A fault that has a place among the definitions: these are judged all at once, and the first one is told.
#[derive(Drop)]
pub struct Fault {
    /// Where it stands, in bytes of the text.
    pub at: usize,
    /// What is wrong there.
    pub why: Why,
}

/// What is wrong at a place.
#[derive(Drop)]
pub enum Why {
    /// There is no such name here, or none of the kind that stands here.
    Unknown(Name),
    /// The name is taken.
    Twice(Name),
    /// The place asks for one type, and what stands there has another.
    Differs { want: Ty, got: Ty },
    /// The function isn't complete above this place.
    Later(Name),
    /// The function calls too deep.
    TooHigh(Name),
}
