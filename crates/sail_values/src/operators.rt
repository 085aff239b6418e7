//! The operators of expressions on values.

ghost use Rattle.std.specs.Prelude.{◌≡◌, ◌≤◌, ◌^◌, nat_lt, true};
ghost use Rattle.bv_bits.specs.Bits.{IsBits};
ghost use Rattle.sail_values.specs.Values.{is_vector, nth, operate, operate_one, flipped, widened, is_true, same, applied, decides};

use crate::value::Value;
use bv_bits::{Bits, Op, apply};
use sail_syntax::Infix;

/// Whether a number is below 2^width; the width is at most 128.
#[tactic(auto, using(crate::proofs::Below::below))]
fn is_below(value: u128, width: u32) -> bool
    requires { width ≤ 128 }
    ensures { result ≡ nat_lt value (2 ^ width) }
{
    width == 128 || value >> width == 0
}

/// Whether a width and a number are a bit vector.
pub fn is_vector(bits: Bits) -> bool
    ensures value { result ≡ is_vector bits }
    ensures fits { result ≡ true → IsBits bits }
{
    0 < bits.width && bits.width <= 128 && is_below(bits.value, bits.width)
}

/// An operator on one value; unit outside its types.
pub fn operate_one(op: Op, value: Value) -> Value
    ensures { result ≡ operate_one op value }
{
    match value {
        Value::Bits(a) => {
            if is_vector(a) && op.row_width(&[a.width]).is_some() {
                Value::Bits(apply(op, &[a]))
            } else {
                Value::Unit
            }
        }
        _ => Value::Unit,
    }
}

/// An operator on two values; unit outside its types.
pub fn operate(op: Op, a: Value, b: Value) -> Value
    ensures { result ≡ operate op a b }
{
    match (a, b) {
        (Value::Bits(a), Value::Bits(b)) => {
            let vectors = is_vector(a) && is_vector(b);
            if vectors && op.row_width(&[a.width, b.width]).is_some() {
                Value::Bits(apply(op, &[a, b]))
            } else {
                Value::Unit
            }
        }
        _ => Value::Unit,
    }
}

/// The value of a number, from 0; unit where there is none.
pub fn nth(at: usize, values: &[Value]) -> Value
    ensures { result ≡ nth at values.now }
{
    match values.get(at) {
        Some(value) => *value,
        None => Value::Unit,
    }
}

/// Each bit turned round.
pub fn flipped(value: Value) -> Value
    ensures { result ≡ flipped value }
{
    operate_one(Op::Not, value)
}

/// Widened to so many bits, with copies of the sign bit or with zeros.
pub fn widened(signed: bool, to: u32, value: Value) -> Value
    ensures { result ≡ widened signed to value }
{
    if signed {
        operate_one(Op::SExt { to }, value)
    } else {
        operate_one(Op::ZExt { to }, value)
    }
}

/// The truth of a value; false for one that has none.
pub fn is_true(value: Value) -> bool
    ensures { result ≡ is_true value }
{
    match value {
        Value::Truth(b) => b,
        _ => false,
    }
}

/// Whether two values are the same.
pub fn same(a: Value, b: Value) -> bool
    ensures { result ≡ same a b }
{
    match (a, b) {
        (Value::Unit, Value::Unit) => true,
        (Value::Truth(a), Value::Truth(b)) => a == b,
        (Value::Bits(a), Value::Bits(b)) => a.width == b.width && a.value == b.value,
        (Value::Member { of: e, index: i }, Value::Member { of: f, index: j }) => e == f && i == j,
        _ => false,
    }
}

/// Whether the left side alone decides: false of `&` and true of `|`, on bool.
pub fn decides(op: Infix, value: Value) -> bool
    ensures { result ≡ decides op value }
{
    match (op, value) {
        (Infix::And, Value::Truth(a)) => !a,
        (Infix::Or, Value::Truth(a)) => a,
        _ => false,
    }
}

/// An infix operator on two values; on bool, `&` and `|` come here with the left side open alone.
pub fn applied(op: Infix, a: Value, b: Value) -> Value
    ensures { result ≡ applied op a b }
{
    match (op, a) {
        (Infix::And | Infix::Or, Value::Truth(_)) => b,
        (Infix::Add, _) => operate(Op::Add, a, b),
        (Infix::Sub, _) => operate(Op::Sub, a, b),
        (Infix::Mul, _) => operate(Op::Mul, a, b),
        (Infix::And, _) => operate(Op::And, a, b),
        (Infix::Or, _) => operate(Op::Or, a, b),
        (Infix::Xor, _) => operate(Op::Xor, a, b),
        (Infix::Join, _) => operate(Op::Concat, a, b),
        (Infix::Eq, _) => Value::Truth(same(a, b)),
        (Infix::Ne, _) => Value::Truth(!same(a, b)),
    }
}
