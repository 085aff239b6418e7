//! Indices, slices and updates.

ghost use Rattle.std.specs.Prelude.{◌≡◌, ◌<◌, ◌^◌};
ghost use Rattle.eval_rules.specs.Parts as spec;

use crate::locals::Locals;
use bv_bits::Op;
use lex_core::Name;
use sail_syntax::{Index, Infix};
use sail_values::{Local, Value, applied, operate_one};

/// The number of a foreach variable; 0 of any other local.
fn number_in(local: Option<Local>) -> u32
    ensures { result ≡ spec.number_in local }
{
    match local {
        Some(Local::Counts(number)) => number,
        Some(Local::Is(_)) | None => 0,
    }
}

/// The number that an index adds to.
fn base_of(var: &Option<Name>, locals: &Locals<'_>) -> u32
    ensures { result ≡ spec.base_of var.now locals.now }
{
    match var {
        Some(name) => number_in(locals.look(name.bytes())),
        None => 0,
    }
}

/// The number of a bit.
pub fn index_at(index: &Index, locals: &Locals<'_>) -> u64
    ensures value { result ≡ spec.index_at index.now locals.now }
    ensures small { result < 2 ^ 33 }
{
    u64::from(base_of(&index.var, locals)) + u64::from(index.plus)
}

/// How many bits a value has; 0 where it is no vector.
pub fn width_in(value: Value) -> u32
    ensures { result ≡ spec.width_in value }
{
    match value {
        Value::Bits(bits) => bits.width,
        Value::Unit | Value::Truth(_) | Value::Member { .. } => 0,
    }
}

/// The bits from `hi` down to `lo`.
pub fn sliced(value: Value, hi: u64, lo: u64) -> Value
    ensures { result ≡ spec.sliced value hi lo }
{
    if hi < 128 && lo < 128 {
        let hi = hi as u32;
        let lo = lo as u32;
        operate_one(Op::Extract { hi, lo }, value)
    } else {
        Value::Unit
    }
}

/// The bits above one, if there are some, joined to what follows.
fn above(value: Value, hi: u64, by: Value) -> Value
    requires { hi < 2 ^ 33 }
    ensures { result ≡ spec.above value hi by }
{
    let width = u64::from(width_in(value));
    if hi + 1 < width {
        applied(Infix::Join, sliced(value, width - 1, hi + 1), by)
    } else {
        by
    }
}

/// The bits below one, if there are some, joined to what is in front of them.
fn below(value: Value, lo: u64, so_far: Value) -> Value
    ensures { result ≡ spec.below value lo so_far }
{
    if lo == 0 {
        so_far
    } else {
        applied(Infix::Join, so_far, sliced(value, lo - 1, 0))
    }
}

/// The bits of the first value, those from `hi` down to `lo` replaced by the second.
pub fn updated(value: Value, hi: u64, lo: u64, by: Value) -> Value
    requires { hi < 2 ^ 33 }
    ensures { result ≡ spec.updated value hi lo by }
{
    below(value, lo, above(value, hi, by))
}
