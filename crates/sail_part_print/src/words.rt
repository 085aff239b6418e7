//! Names, literals, truths and operators, each one token with a space before it.

ghost use Rattle.std.specs.Prelude.{◌≡◌, ◌++◌, OnOk};
ghost use Rattle.sail_text.specs.Parts as spec;

use bit_text::put_literal;
use bv_bits::Bits;
use lex_core::{Name, NoMemory};
use sail_syntax::Infix;

/// Appends a space and a name.
pub fn put_name(out: &mut Vec<u8>, name: &Name) -> Result<(), NoMemory>
    ensures { OnOk result (out.new.items ≡ out.old.items ++ spec.name_text name.now) }
{
    out.push(b' ')?;
    out.extend_from_slice(name.bytes())?;
    Ok(())
}

/// Appends a space and a literal with all its digits.
pub fn put_bits(out: &mut Vec<u8>, bits: Bits) -> Result<(), NoMemory>
    ensures { OnOk result (out.new.items ≡ out.old.items ++ spec.bits_text bits) }
{
    out.push(b' ')?;
    put_literal(out, bits)
}

/// Appends ` true` or ` false`.
pub fn put_truth(out: &mut Vec<u8>, truth: bool) -> Result<(), NoMemory>
    ensures { OnOk result (out.new.items ≡ out.old.items ++ spec.truth_text truth) }
{
    if truth {
        out.extend_from_slice(b" true")?;
    } else {
        out.extend_from_slice(b" false")?;
    }
    Ok(())
}

/// An operator, with a space before it.
fn infix_text(op: Infix) -> &'static [u8]
    ensures { result.now ≡ spec.infix_text op }
{
    match op {
        Infix::Add => b" +",
        Infix::Sub => b" -",
        Infix::Mul => b" *",
        Infix::And => b" &",
        Infix::Or => b" |",
        Infix::Xor => b" ^",
        Infix::Join => b" @",
        Infix::Eq => b" ==",
        Infix::Ne => b" !=",
    }
}

/// Appends a space and an operator.
pub fn put_infix(out: &mut Vec<u8>, op: Infix) -> Result<(), NoMemory>
    ensures { OnOk result (out.new.items ≡ out.old.items ++ spec.infix_text op) }
{
    out.extend_from_slice(infix_text(op))?;
    Ok(())
}
