//! Literals and numbers, appended to a text.

ghost use Rattle.std.specs.Prelude.{◌≡◌, ◌+◌, ◌*◌, ◌/◌, ◌%◌, ◌^◌, ◌≤◌, ◌<◌, ◌++◌, [], ◌∷◌, OnOk, codes};
ghost use Rattle.std.specs.Fmt as fmt;
ghost use Rattle.bit_text.specs.Texts as spec;
ghost use Rattle.bit_text.specs.Texts.{literal_text, last_digits};

use bv_bits::Bits;
use lex_core::NoMemory;
use std::alloc::Global;

/// A digit in lower case.
fn digit(value: u8) -> u8
    requires { value < 16 }
    ensures { result ≡ spec.digit value }
{
    if value < 10 {
        b'0' + value
    } else {
        b'a' - 10 + value
    }
}

/// The digit of so many bits whose lowest one is that of this number, counted from 0.
#[tactic(auto, using(crate::proofs::DigitLemmas::none_above))]
fn digit_at(value: u128, each: u32, low: u32) -> u8
    requires { each ≤ 4 }
    ensures { result ≡ spec.digit (value / 2 ^ low % 2 ^ each) }
{
    if low >= 128 {
        return digit(0);
    }
    digit(((value >> low) % (1 << each)) as u8)
}

/// Appends the last digits of a number, that of highest weight first, at so many bits a digit.
fn put_digits(out: &mut Vec<u8>, each: u32, count: u32, value: u128) -> Result<(), NoMemory>
    requires few { each ≤ 4 }
    requires fits { each * count < 2 ^ 32 }
    ensures { OnOk result (out.new.items ≡ out.old.items ++ last_digits each count value) }
{
    let mut left = count;
    while left > 0 {
        left -= 1;
        out.push(digit_at(value, each, each * left))?;
    }
    Ok(())
}

/// Appends a literal with all its digits: `0x` and hex digits in lower case where its width is a multiple of 4, else `0b` and binary digits.
#[tactic(auto, unfolding(crate::specs::Texts::literal_text))]
pub fn put_literal(out: &mut Vec<u8>, bits: Bits) -> Result<(), NoMemory>
    ensures { OnOk result (out.new.items ≡ out.old.items ++ literal_text bits) }
{
    if bits.width.is_multiple_of(4) {
        out.extend_from_slice(b"0x")?;
        put_digits(out, 4, bits.width / 4, bits.value)
    } else {
        out.extend_from_slice(b"0b")?;
        put_digits(out, 1, bits.width, bits.value)
    }
}

/// Appends a number in decimal digits, with a space before it.
pub fn put_number(alloc: Global, out: &mut Vec<u8>, number: u32) -> Result<(), NoMemory>
    ensures { OnOk result (out.new.items ≡ out.old.items ++ 32 ∷ fmt.decimal number) }
{
    let text = format!(in alloc; "{number}")?;
    out.push(b' ')?;
    out.extend_from_slice(&text.into_bytes())?;
    Ok(())
}
