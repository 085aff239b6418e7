//! What is said of a text that isn't typed.

ghost use Rattle.std.specs.Prelude.{◌≡◌, IfOk, Some};
ghost use Rattle.std.specs.Fmt.{decimal};
ghost use Rattle.report_text.specs.Outcome.{said_of};
ghost use Rattle.sail_fault_text.specs.FaultText as spec;
ghost use Rattle.sail_fault_text.specs.declared.numbers.TheConstants.{CALL_HEIGHT, TYPE_DIFFERS, BAD_INSTR16};

use crate::lines::{input, limit, name_at, place, types_at};
use crate::numbers::{BAD_INSTR16, CALL_HEIGHT, LATER, NO_PC, TWICE, TYPE_DIFFERS, UNKNOWN};
use lex_core::{Name, NoMemory};
use report_text::Outcome;
use report_text::numbers::NO_FUNCTION;
use sail_syntax::Ty;
use std::alloc::Global;
use type_rules::TypeFault;

/// A fault of a name at a place.
fn on_name(
    alloc: Global,
    file: &str,
    number: u32,
    name: &Name,
    at: usize,
) -> Result<Outcome, NoMemory>
    ensures { IfOk result (λ a. said_of a ≡ spec.input file.now number (spec.name_at name.now at)) }
{
    let fields = name_at(alloc, name, at)?;
    input(alloc, file, number, &fields)
}

/// Calls that are stacked too high.
fn too_high(alloc: Global, file: &str, name: &Name, at: usize) -> Result<Outcome, NoMemory>
    ensures { IfOk result (λ a. said_of a ≡ spec.limit file.now CALL_HEIGHT (spec.name_at name.now at)) }
{
    let fields = name_at(alloc, name, at)?;
    limit(alloc, file, CALL_HEIGHT, &fields)
}

/// Another type than the one that is asked for.
fn differs(alloc: Global, file: &str, want: &Ty, got: &Ty, at: usize) -> Result<Outcome, NoMemory>
    ensures { IfOk result (λ a. said_of a ≡ spec.input file.now TYPE_DIFFERS (spec.types_at want.now got.now at)) }
{
    let fields = types_at(alloc, want, got, at)?;
    input(alloc, file, TYPE_DIFFERS, &fields)
}

/// A function `instr16` of another type.
fn bad_instr16(alloc: Global, file: &str, at: usize) -> Result<Outcome, NoMemory>
    ensures { IfOk result (λ a. said_of a ≡ spec.input file.now BAD_INSTR16 (decimal at)) }
{
    let fields = place(alloc, at)?;
    input(alloc, file, BAD_INSTR16, &fields)
}

/// What is said of a Sail text that isn't typed: `input 12 FILE bits(8) bool 12`, with the fault's number and its fields in the order in which its variant
/// has them, or `limit 52 FILE f 12`.
pub fn type_fault(alloc: Global, file: &str, fault: &TypeFault) -> Result<Outcome, NoMemory>
    ensures said { IfOk result (λ a. spec.type_said file.now fault.now ≡ Some (said_of a)) }
{
    match fault {
        TypeFault::Unknown { name, at } => on_name(alloc, file, UNKNOWN, name, *at),
        TypeFault::Twice { name, at } => on_name(alloc, file, TWICE, name, *at),
        TypeFault::TypeDiffers { want, got, at } => differs(alloc, file, want, got, *at),
        TypeFault::NoInstr => input(alloc, file, NO_FUNCTION, b""),
        TypeFault::NoPc => input(alloc, file, NO_PC, b""),
        TypeFault::Later { name, at } => on_name(alloc, file, LATER, name, *at),
        TypeFault::CallHeight { name, at } => too_high(alloc, file, name, *at),
        TypeFault::BadInstr16 { at } => bad_instr16(alloc, file, *at),
        TypeFault::NoMemory => Err(NoMemory),
    }
}
