//! The reading and the typing of a Sail text.

ghost use Rattle.std.specs.Prelude.{◌≡◌, IfOk};
ghost use Rattle.sail_verdict.specs.Verdict.{sail_verdict, told_by};

use lex_core::NoMemory;
use report_text::Outcome;
use sail_fault_text::{read_fault, type_fault};
use sail_reader::read;
use sail_typed::{Typed, check};
use std::alloc::Global;

/// What a text is.
#[derive(Drop)]
pub enum Judged {
    /// A program that types.
    Typed(Typed),
    /// A text with a fault, or one that passes a limit: what is said of it.
    Faulty(Outcome),
}

/// Reads a text of a file of that name, and types its program. Of a text with a fault the first one is said, as `input 12 FILE bits(8) bool 186`. `NoMemory`
/// comes for want of memory alone.
pub fn judge_sail(alloc: Global, file: &str, text: &[u8]) -> Result<Judged, NoMemory>
    ensures told { IfOk result (λ j. sail_verdict file.now text.now ≡ told_by j) }
{
    let program = match read(alloc, text) {
        Ok(program) => program,
        Err(fault) => return Ok(Judged::Faulty(read_fault(alloc, file, fault)?)),
    };
    match check(alloc, program) {
        Ok(typed) => Ok(Judged::Typed(typed)),
        Err(fault) => Ok(Judged::Faulty(type_fault(alloc, file, &fault)?)),
    }
}
