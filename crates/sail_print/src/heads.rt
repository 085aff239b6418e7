//! What stands in an expression in front of its parts, between them and behind them.

ghost use Rattle.std.specs.Prelude.{◌≡◌, ◌++◌, OnOk, codes};
ghost use Rattle.sail_text.specs.Expressions.{widen_text};
ghost use Rattle.sail_text.specs.Parts.{name_text, number_text, written_text, index_text};

use bit_text::put_number;
use lex_core::{Name, NoMemory};
use sail_part_print::{put_index, put_name, put_written};
use sail_syntax::{Index, Ty};
use std::alloc::Global;

/// Appends a token, or several, with their spaces.
pub fn put(out: &mut Vec<u8>, text: &[u8]) -> Result<(), NoMemory>
    ensures { OnOk result (out.new.items ≡ out.old.items ++ text.now) }
{
    out.extend_from_slice(text)?;
    Ok(())
}

/// Appends two indices, with `..` between them.
fn put_indices(alloc: Global, out: &mut Vec<u8>, hi: &Index, lo: &Index) -> Result<(), NoMemory>
    ensures { OnOk result (out.new.items ≡ out.old.items ++ (index_text hi.now ++ (codes " .." ++ index_text lo.now))) }
{
    put_index(alloc, out, hi)?;
    put(out, b" ..")?;
    put_index(alloc, out, lo)
}

/// Appends what stands in a slice behind the bits that are sliced.
pub fn put_slice(alloc: Global, out: &mut Vec<u8>, hi: &Index, lo: &Index) -> Result<(), NoMemory>
    ensures { OnOk result (out.new.items ≡ out.old.items ++ (codes " [" ++ (index_text hi.now ++ (codes " .." ++ (index_text lo.now ++ codes " ]"))))) }
{
    put(out, b" [")?;
    put_indices(alloc, out, hi, lo)?;
    put(out, b" ]")
}

/// Appends what stands in an update between the bits and those that replace some.
pub fn put_with(alloc: Global, out: &mut Vec<u8>, hi: &Index, lo: &Index) -> Result<(), NoMemory>
    ensures { OnOk result (out.new.items ≡ out.old.items ++ (codes " with" ++ (index_text hi.now ++ (codes " .." ++ (index_text lo.now ++ codes " ="))))) }
{
    put(out, b" with")?;
    put_indices(alloc, out, hi, lo)?;
    put(out, b" =")
}

/// Appends the first and the last number of a foreach.
fn put_bounds(alloc: Global, out: &mut Vec<u8>, from: u32, to: u32) -> Result<(), NoMemory>
    ensures { OnOk result (out.new.items ≡ out.old.items ++ (codes " from" ++ (number_text from ++ (codes " to" ++ number_text to)))) }
{
    put(out, b" from")?;
    put_number(alloc, out, from)?;
    put(out, b" to")?;
    put_number(alloc, out, to)
}

/// Appends what stands in front of the body of a foreach.
pub fn put_foreach(
    alloc: Global,
    out: &mut Vec<u8>,
    var: &Name,
    from: u32,
    to: u32,
) -> Result<(), NoMemory>
    ensures { OnOk result (out.new.items ≡ out.old.items
        ++ (codes " foreach (" ++ (name_text var.now ++ (codes " from" ++ (number_text from ++ (codes " to" ++ (number_text to ++ codes " )"))))))) }
{
    put(out, b" foreach (")?;
    put_name(out, var)?;
    put_bounds(alloc, out, from, to)?;
    put(out, b" )")
}

/// Appends the word of a widening, with its opening parenthesis.
fn put_extend(out: &mut Vec<u8>, signed: bool) -> Result<(), NoMemory>
    ensures { OnOk result (out.new.items ≡ out.old.items ++ widen_text signed) }
{
    if signed {
        put(out, b" sign_extend (")
    } else {
        put(out, b" zero_extend (")
    }
}

/// Appends what stands in front of what is widened.
pub fn put_widen(alloc: Global, out: &mut Vec<u8>, signed: bool, to: u32) -> Result<(), NoMemory>
    ensures { OnOk result (out.new.items ≡ out.old.items ++ (widen_text signed ++ (number_text to ++ codes " ,"))) }
{
    put_extend(out, signed)?;
    put_number(alloc, out, to)?;
    put(out, b" ,")
}

/// Appends what stands behind the test of an assert.
pub fn put_message(out: &mut Vec<u8>, text: &Name) -> Result<(), NoMemory>
    ensures { OnOk result (out.new.items ≡ out.old.items ++ (codes " , \"" ++ (text.now ++ codes "\" )"))) }
{
    put(out, b" , \"")?;
    put(out, text.bytes())?;
    put(out, b"\" )")
}

/// Appends the name of a new local, and the type that is written for it, in front of its value.
pub fn put_local(
    alloc: Global,
    out: &mut Vec<u8>,
    name: &Name,
    ty: &Option<Ty>,
) -> Result<(), NoMemory>
    ensures { OnOk result (out.new.items ≡ out.old.items ++ (name_text name.now ++ (written_text ty.now ++ codes " ="))) }
{
    put_name(out, name)?;
    put_written(alloc, out, ty)?;
    put(out, b" =")
}
