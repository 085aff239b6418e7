//! Widths and values of operators.

ghost use Rattle.std.specs.Prelude.{IfSome};
ghost use Rattle.bv_bits.specs.Bits.{IsBits};

use crate::operators::operator;
use bv_bits::{Bits, Op, apply};
use case_lines::{number, number_32};
use std::alloc::{AllocError, Global};

/// The width that the operator gives at these widths.
pub fn width(alloc: Global, name: &str, words: &[&str]) -> Result<String, AllocError> {
    let Some((op, rest)) = operator(name, words) else {
        return String::from_str(alloc, "no such operator");
    };
    let mut widths = Vec::new(alloc);
    for word in rest {
        widths.push(number_32(word).unwrap_or(0))?;
    }
    match op.result_width(widths.as_slice()) {
        Some(width) => format!(in alloc; "{width}"),
        None => String::from_str(alloc, "none"),
    }
}

/// The low bits of a number: as many as the width says.
fn low(width: u32, value: u128) -> Option<Bits>
    ensures { IfSome result IsBits }
{
    let whole = Bits { width: 128, value };
    if 0 < width && width <= 128 {
        Some(apply(
            Op::Extract {
                hi: width - 1,
                lo: 0,
            },
            &[whole],
        ))
    } else {
        None
    }
}

/// The bits that `WIDTH:VALUE` spells, where the value fits the width.
fn bits(word: &str) -> Option<Bits>
    ensures { IfSome result IsBits }
{
    let (width, value) = word.split_once(':')?;
    let value = number(value)?;
    let bits = low(number_32(width)?, value)?;
    if bits.value == value {
        Some(bits)
    } else {
        None
    }
}

/// What the operator gives, where it takes the argument.
fn given_one(op: Op, a: Bits) -> Option<Bits>
    requires { IsBits a }
{
    op.result_width(&[a.width])?;
    Some(apply(op, &[a]))
}

/// The same at two arguments.
fn given_two(op: Op, a: Bits, b: Bits) -> Option<Bits>
    requires a_fits { IsBits a }
    requires b_fits { IsBits b }
{
    op.result_width(&[a.width, b.width])?;
    Some(apply(op, &[a, b]))
}

/// The same at three.
fn given_three(op: Op, a: Bits, b: Bits, c: Bits) -> Option<Bits>
    requires a_fits { IsBits a }
    requires b_fits { IsBits b }
    requires c_fits { IsBits c }
{
    op.result_width(&[a.width, b.width, c.width])?;
    Some(apply(op, &[a, b, c]))
}

/// What the operator gives at the arguments that the words spell.
fn given(name: &str, words: &[&str]) -> Option<Bits> {
    let (op, rest) = operator(name, words)?;
    match rest {
        [a] => given_one(op, bits(a)?),
        [a, b] => given_two(op, bits(a)?, bits(b)?),
        [a, b, c] => given_three(op, bits(a)?, bits(b)?, bits(c)?),
        _ => None,
    }
}

/// The same as text.
pub fn applied(alloc: Global, name: &str, words: &[&str]) -> Result<String, AllocError> {
    match given(name, words) {
        Some(bits) => format!(in alloc; "{}:{:#x}", bits.width, bits.value),
        None => String::from_str(alloc, "none"),
    }
}
