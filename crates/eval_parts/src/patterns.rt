//! Whether a value fits a pattern, and the names that the pattern binds.

ghost use Rattle.std.specs.Prelude.{◌≡◌, OnOk};
ghost use Rattle.eval_rules.specs.Parts as spec;
ghost use Rattle.sail_names.specs.Things.{things_of};
ghost use Rattle.sail_syntax.specs.View.{program_of};

use crate::locals::Locals;
use crate::parts::{sliced, width_in};
use lex_core::NoMemory;
use sail_names::Thing;
use sail_syntax::{Part, Pattern};
use sail_typed::Typed;
use sail_values::{Local, Value, same};

/// How many bits a part of a pattern takes.
fn part_width(part: &Part) -> u32
    ensures { result ≡ spec.part_width part.now }
{
    match part {
        Part::Lit(bits) => bits.width,
        Part::Bind { width, .. } | Part::Skip { width } => *width,
    }
}

/// The highest `width` of the lowest `left` bits.
fn piece(value: Value, left: u32, width: u32) -> Value
    ensures { result ≡ spec.piece value left width }
{
    let hi = left.saturating_sub(1);
    let lo = left.saturating_sub(width);
    sliced(value, u64::from(hi), u64::from(lo))
}

/// Whether the bits of a part fit.
fn part_fits(part: &Part, left: u32, value: Value) -> bool
    ensures { result ≡ spec.part_fits part.now left value }
{
    match part {
        Part::Lit(bits) => same(Value::Bits(*bits), piece(value, left, bits.width)),
        Part::Bind { .. } | Part::Skip { .. } => true,
    }
}

/// Whether the lowest `left` bits fit the parts, that of the highest bits first.
fn parts_fit(parts: &[Part], left: u32, value: Value) -> bool
    ensures { result ≡ spec.parts_fit parts.now left value }
{
    let mut left = left;
    for part in parts {
        if !part_fits(part, left, value) {
            return false;
        }
        left = left.saturating_sub(part_width(part));
    }
    true
}

/// Whether a value fits a name: a member of an enum fits itself alone.
fn name_fits(thing: Option<Thing>, value: Value) -> bool
    ensures { result ≡ spec.name_fits thing value }
{
    match thing {
        Some(Thing::Member { of, index }) => same(Value::Member { of, index }, value),
        Some(Thing::Register(_) | Thing::Given(_) | Thing::Function(_)) | None => true,
    }
}

/// Whether a value fits a pattern.
pub fn fits(typed: &Typed, pattern: &Pattern, value: Value) -> bool
    ensures { result ≡ spec.fits (things_of (program_of typed.now)) pattern.now value }
{
    match pattern {
        Pattern::Any => true,
        Pattern::Name(name) => name_fits(typed.thing(name.bytes()), value),
        Pattern::Lit(bits) => same(Value::Bits(*bits), value),
        Pattern::Truth(truth) => same(Value::Truth(*truth), value),
        Pattern::Parts(parts) => parts_fit(parts.as_slice(), width_in(value), value),
    }
}

/// The name that a part binds.
fn bind_part<'a>(
    part: &'a Part,
    left: u32,
    value: Value,
    locals: &mut Locals<'a>,
) -> Result<(), NoMemory>
    ensures { OnOk result (locals.new ≡ spec.part_bound part.now left value locals.old) }
{
    match part {
        Part::Bind { name, width } => {
            locals.enter(name.bytes(), Local::Is(piece(value, left, *width)))
        }
        Part::Lit(_) | Part::Skip { .. } => Ok(()),
    }
}

/// The names that parts bind, in the lowest `left` bits.
fn bind_parts<'a>(
    parts: &'a [Part],
    left: u32,
    value: Value,
    locals: &mut Locals<'a>,
) -> Result<(), NoMemory>
    ensures { OnOk result (locals.new ≡ spec.parts_bound parts.now left value locals.old) }
{
    let mut left = left;
    for part in parts {
        bind_part(part, left, value, locals)?;
        left = left.saturating_sub(part_width(part));
    }
    Ok(())
}

/// A name that stands for nothing but a member of an enum binds the value.
fn bind_name<'a>(
    thing: Option<Thing>,
    name: &'a [u8],
    value: Value,
    locals: &mut Locals<'a>,
) -> Result<(), NoMemory>
    ensures { OnOk result (locals.new ≡ spec.name_bound thing name.now value locals.old) }
{
    match thing {
        Some(Thing::Member { .. }) => Ok(()),
        Some(Thing::Register(_) | Thing::Given(_) | Thing::Function(_)) | None => {
            locals.enter(name, Local::Is(value))
        }
    }
}

/// The names that a pattern binds.
pub fn enter<'a>(
    typed: &Typed,
    pattern: &'a Pattern,
    value: Value,
    locals: &mut Locals<'a>,
) -> Result<(), NoMemory>
    ensures { OnOk result (locals.new ≡ spec.pattern_bound (things_of (program_of typed.now)) pattern.now value locals.old) }
{
    match pattern {
        Pattern::Name(name) => bind_name(typed.thing(name.bytes()), name.bytes(), value, locals),
        Pattern::Parts(parts) => bind_parts(parts.as_slice(), width_in(value), value, locals),
        Pattern::Any | Pattern::Lit(_) | Pattern::Truth(_) => Ok(()),
    }
}
