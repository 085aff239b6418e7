//! What is said of a text that can't be read.

ghost use Rattle.std.specs.Prelude.{◌≡◌, IfOk, Some};
ghost use Rattle.std.specs.Fmt.{decimal};
ghost use Rattle.report_text.specs.Outcome.{said_of};
ghost use Rattle.sail_fault_text.specs.FaultText as spec;

use crate::lines::{input, limit, place};
use crate::numbers::{
    BAD_BYTE, MIXED, OPEN_COMMENT, OPEN_TEXT, TOO_DEEP, TOO_MANY_OF_A_KIND, TOO_WIDE, UNEXPECTED,
};
use lex_core::{LexFault, NoMemory};
use report_text::Outcome;
use report_text::numbers::TEXT_TOO_LONG;
use sail_reader::SailFault;
use std::alloc::Global;

/// A fault at a place.
fn input_at(alloc: Global, file: &str, number: u32, at: usize) -> Result<Outcome, NoMemory>
    ensures { IfOk result (λ a. said_of a ≡ spec.input file.now number (decimal at)) }
{
    let at = place(alloc, at)?;
    input(alloc, file, number, &at)
}

/// A limit that is passed at a place.
fn limit_at(alloc: Global, file: &str, number: u32, at: usize) -> Result<Outcome, NoMemory>
    ensures { IfOk result (λ a. said_of a ≡ spec.limit file.now number (decimal at)) }
{
    let at = place(alloc, at)?;
    limit(alloc, file, number, &at)
}

/// What is said of a text that can't be cut into tokens.
fn lex_fault(alloc: Global, file: &str, fault: LexFault) -> Result<Outcome, NoMemory>
    ensures { IfOk result (λ a. spec.lex_said file.now fault ≡ Some (said_of a)) }
{
    match fault {
        LexFault::BadByte { at } => input_at(alloc, file, BAD_BYTE, at),
        LexFault::OpenComment { at } => input_at(alloc, file, OPEN_COMMENT, at),
        LexFault::OpenText { at } => input_at(alloc, file, OPEN_TEXT, at),
        LexFault::TooWide { at } => input_at(alloc, file, TOO_WIDE, at),
        LexFault::NoMemory => Err(NoMemory),
    }
}

/// What is said of a Sail text that can't be read: `input 5 FILE 12`, with the fault's number and its place, or `limit 7 FILE 12`. A text that is
/// too long has no place.
pub fn read_fault(alloc: Global, file: &str, fault: SailFault) -> Result<Outcome, NoMemory>
    ensures said { IfOk result (λ a. spec.read_said file.now fault ≡ Some (said_of a)) }
{
    match fault {
        SailFault::Lex(fault) => lex_fault(alloc, file, fault),
        SailFault::Unexpected { at } => input_at(alloc, file, UNEXPECTED, at),
        SailFault::Mixed { at } => input_at(alloc, file, MIXED, at),
        SailFault::TooDeep { at } => limit_at(alloc, file, TOO_DEEP, at),
        SailFault::TooMany { at } => limit_at(alloc, file, TOO_MANY_OF_A_KIND, at),
        SailFault::TooLong => limit(alloc, file, TEXT_TOO_LONG, b""),
        SailFault::NoMemory => Err(NoMemory),
    }
}
