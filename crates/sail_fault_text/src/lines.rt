//! Lines on a file, and their fields.

ghost use Rattle.std.specs.Prelude.{◌≡◌, IfOk};
ghost use Rattle.std.specs.Fmt.{decimal};
ghost use Rattle.report_text.specs.Outcome.{said_of};
ghost use Rattle.sail_fault_text.specs.FaultText as spec;
ghost use Rattle.sail_syntax.specs.declared.types.Ty.TheVariants as ty;

use constants_text::{decimal, join, on_file};
use lex_core::{Name, NoMemory};
use report_text::{Outcome, Status};
use sail_syntax::Ty;
use std::alloc::Global;

/// The line of an input with a fault, by its number and its fields, which may be none.
pub fn input(alloc: Global, file: &str, number: u32, fields: &[u8]) -> Result<Outcome, NoMemory>
    ensures { IfOk result (λ a. said_of a ≡ spec.input file.now number fields.now) }
{
    let text = on_file(alloc, b"input", number, file.as_bytes(), fields)?;
    Ok(Outcome {
        status: Status::Input,
        text,
    })
}

/// The line of an input that passes a limit.
pub fn limit(alloc: Global, file: &str, number: u32, fields: &[u8]) -> Result<Outcome, NoMemory>
    ensures { IfOk result (λ a. said_of a ≡ spec.limit file.now number fields.now) }
{
    let text = on_file(alloc, b"limit", number, file.as_bytes(), fields)?;
    Ok(Outcome {
        status: Status::Limit,
        text,
    })
}

/// A place in bytes of the text.
pub fn place(alloc: Global, at: usize) -> Result<Vec<u8>, NoMemory>
    ensures { IfOk result (λ text. text.items ≡ decimal at) }
{
    decimal(alloc, at as u64)
}

/// A name and a place.
pub fn name_at(alloc: Global, name: &Name, at: usize) -> Result<Vec<u8>, NoMemory>
    ensures { IfOk result (λ text. text.items ≡ spec.name_at name.now at) }
{
    let at = place(alloc, at)?;
    join(alloc, &[name.bytes(), b" ", &at])
}

/// Bits of a width, as `bits(8)`.
fn bits_text(alloc: Global, width: u32) -> Result<Vec<u8>, NoMemory>
    ensures { IfOk result (λ text. text.items ≡ spec.type_text (ty.Bits width)) }
{
    let width = decimal(alloc, width as u64)?;
    join(alloc, &[b"bits(", &width, b")"])
}

/// A type: `unit`, `bool`, `bits(8)`, or the name of an enum.
fn type_text(alloc: Global, ty: &Ty) -> Result<Vec<u8>, NoMemory>
    ensures { IfOk result (λ text. text.items ≡ spec.type_text ty.now) }
{
    match ty {
        Ty::Unit => join(alloc, &[b"unit"]),
        Ty::Bool => join(alloc, &[b"bool"]),
        Ty::Bits(width) => bits_text(alloc, *width),
        Ty::Enum(name) => join(alloc, &[name.bytes()]),
    }
}

/// The type that is asked for, the one that is there, and a place.
pub fn types_at(alloc: Global, want: &Ty, got: &Ty, at: usize) -> Result<Vec<u8>, NoMemory>
    ensures { IfOk result (λ text. text.items ≡ spec.types_at want.now got.now at) }
{
    let want = type_text(alloc, want)?;
    let got = type_text(alloc, got)?;
    let at = place(alloc, at)?;
    join(alloc, &[&want, b" ", &got, b" ", &at])
}
