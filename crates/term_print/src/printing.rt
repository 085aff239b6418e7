//! Terms as text.

ghost use Rattle.std.specs.Prelude.{◌≡◌, ◌++◌, ◌∷◌, false, IfOk, OnOk, codes, string_bytes};
ghost use Rattle.std.specs.Str.{IsUtf8};
ghost use Rattle.std.specs.Str.Lossy.{utf8_lossy};
ghost use Rattle.term_tree.specs.Terms.{one, two, three, sel, upd, splice, IsTyped, IsTerm, IsTypedArray, IsArrayTerm};
ghost use Rattle.term_tree.specs.View.{tree, array_tree};
ghost use Rattle.term_print.specs.Printing as spec;
ghost use Rattle.term_tree.specs.Divisions.{is_division, HasNoDivision, ArrayHasNoDivision};
ghost use Rattle.term_print.specs.Printing.{term_text, array_text};

use bit_text::{put_literal, put_number};
use bv_bits::Op;
use lex_core::{Name, NoMemory};
use std::alloc::Global;
use term_tree::{ArrayForm, ArrayTerm, Form, Term, array_form_of, form_of};

/// The word of an operator that is no division.
fn op_word(op: Op) -> &'static [u8]
    requires { is_division op ≡ false }
    ensures { result.now ≡ spec.op_word op }
{
    match op {
        Op::Not => b"not",
        Op::Neg => b"neg",
        Op::And => b"and",
        Op::Or => b"or",
        Op::Xor => b"xor",
        Op::Imp => b"imp",
        Op::Add => b"add",
        Op::Sub => b"sub",
        Op::Mul => b"mul",
        Op::UDiv | Op::URem | Op::SDiv | Op::SRem => unreachable!(),
        Op::Shl => b"shl",
        Op::LShr => b"lshr",
        Op::AShr => b"ashr",
        Op::Eq => b"eq",
        Op::Ne => b"ne",
        Op::ULt => b"ult",
        Op::ULe => b"ule",
        Op::UGt => b"ugt",
        Op::UGe => b"uge",
        Op::SLt => b"slt",
        Op::SLe => b"sle",
        Op::SGt => b"sgt",
        Op::SGe => b"sge",
        Op::Concat => b"concat",
        Op::Extract { hi: _, lo: _ } => b"extract",
        Op::ZExt { to: _ } => b"zext",
        Op::SExt { to: _ } => b"sext",
        Op::Ite => b"ite",
    }
}

/// Appends an opening bracket, an operator that is no division, and its numbers.
fn put_operator(alloc: Global, out: &mut Vec<u8>, op: Op) -> Result<(), NoMemory>
    requires { is_division op ≡ false }
    ensures { OnOk result (out.new.items ≡ out.old.items ++ spec.op_head op) }
{
    out.push(b'(')?;
    out.extend_from_slice(op_word(op))?;
    match op {
        Op::Extract { hi, lo } => {
            put_number(alloc, out, hi)?;
            put_number(alloc, out, lo)
        }
        Op::ZExt { to } => put_number(alloc, out, to),
        Op::SExt { to } => put_number(alloc, out, to),
        _ => Ok(()),
    }
}

/// Appends a name.
fn put_name(out: &mut Vec<u8>, name: &Name) -> Result<(), NoMemory>
    ensures { OnOk result (out.new.items ≡ out.old.items ++ name.now) }
{
    out.extend_from_slice(name.bytes())?;
    Ok(())
}

/// Appends a space and a term.
#[cycle(put)]
fn put_part(alloc: Global, out: &mut Vec<u8>, term: &Term) -> Result<(), NoMemory>
    requires typed { IsTyped (tree term.now) }
    requires no_division { HasNoDivision (tree term.now) }
    ensures { OnOk result (out.new.items ≡ out.old.items ++ 32 ∷ term_text (tree term.now)) }
{
    out.push(b' ')?;
    put_term(alloc, out, term)
}

/// Appends an operator at one argument.
#[cycle(put)]
fn put_one(alloc: Global, out: &mut Vec<u8>, op: Op, a: &Term) -> Result<(), NoMemory>
    requires typed { IsTyped (one op (tree a.now)) }
    requires no_division { HasNoDivision (one op (tree a.now)) }
    ensures { OnOk result (out.new.items ≡ out.old.items ++ term_text (one op (tree a.now))) }
{
    put_operator(alloc, out, op)?;
    put_part(alloc, out, a)?;
    out.push(b')')?;
    Ok(())
}

/// Appends an operator at two arguments.
#[cycle(put)]
fn put_two(alloc: Global, out: &mut Vec<u8>, op: Op, a: &Term, b: &Term) -> Result<(), NoMemory>
    requires typed { IsTyped (two op (tree a.now) (tree b.now)) }
    requires no_division { HasNoDivision (two op (tree a.now) (tree b.now)) }
    ensures { OnOk result (out.new.items ≡ out.old.items ++ term_text (two op (tree a.now) (tree b.now))) }
{
    put_operator(alloc, out, op)?;
    put_part(alloc, out, a)?;
    put_part(alloc, out, b)?;
    out.push(b')')?;
    Ok(())
}

/// Appends an operator at three arguments.
#[cycle(put)]
fn put_three(
    alloc: Global,
    out: &mut Vec<u8>,
    op: Op,
    a: &Term,
    b: &Term,
    c: &Term,
) -> Result<(), NoMemory>
    requires typed { IsTyped (three op (tree a.now) (tree b.now) (tree c.now)) }
    requires no_division { HasNoDivision (three op (tree a.now) (tree b.now) (tree c.now)) }
    ensures { OnOk result (out.new.items ≡ out.old.items ++ term_text (three op (tree a.now) (tree b.now) (tree c.now))) }
{
    put_operator(alloc, out, op)?;
    put_part(alloc, out, a)?;
    put_part(alloc, out, b)?;
    put_part(alloc, out, c)?;
    out.push(b')')?;
    Ok(())
}

/// Appends the byte of an array variable at an index.
#[cycle(put)]
fn put_selected(alloc: Global, out: &mut Vec<u8>, of: &Name, at: &Term) -> Result<(), NoMemory>
    requires typed { IsTyped (sel of.now (tree at.now)) }
    requires no_division { HasNoDivision (sel of.now (tree at.now)) }
    ensures { OnOk result (out.new.items ≡ out.old.items ++ term_text (sel of.now (tree at.now))) }
{
    out.extend_from_slice(b"(sel ")?;
    put_name(out, of)?;
    put_part(alloc, out, at)?;
    out.push(b')')?;
    Ok(())
}

/// Appends the text of a term to a text that is begun, as `print_term` has it, byte for byte. The time is in proportion to
/// what is appended.
#[cycle(put)]
pub fn put_term(alloc: Global, out: &mut Vec<u8>, term: &Term) -> Result<(), NoMemory>
    requires typed { IsTyped (tree term.now) }
    requires no_division { HasNoDivision (tree term.now) }
    ensures { OnOk result (out.new.items ≡ out.old.items ++ term_text (tree term.now)) }
{
    match form_of(term) {
        Form::Lit(bits) => put_literal(out, bits),
        Form::Var { name, width: _ } => put_name(out, name),
        Form::One { op, a } => put_one(alloc, out, op, a),
        Form::Two { op, a, b } => put_two(alloc, out, op, a, b),
        Form::Three { op, a, b, c } => put_three(alloc, out, op, a, b, c),
        Form::Sel { of, at } => put_selected(alloc, out, of, at),
    }
}

/// Appends a space and an array term.
#[cycle(put_arrays)]
fn put_array_part(alloc: Global, out: &mut Vec<u8>, array: &ArrayTerm) -> Result<(), NoMemory>
    requires typed { IsTypedArray (array_tree array.now) }
    requires no_division { ArrayHasNoDivision (array_tree array.now) }
    ensures { OnOk result (out.new.items ≡ out.old.items ++ 32 ∷ array_text (array_tree array.now)) }
{
    out.push(b' ')?;
    put_array(alloc, out, array)
}

/// Appends an array term, but for the byte at an index.
#[cycle(put_arrays)]
fn put_update(
    alloc: Global,
    out: &mut Vec<u8>,
    of: &ArrayTerm,
    at: &Term,
    by: &Term,
) -> Result<(), NoMemory>
    requires typed { IsTypedArray (upd (array_tree of.now) (tree at.now) (tree by.now)) }
    requires no_division { ArrayHasNoDivision (upd (array_tree of.now) (tree at.now) (tree by.now)) }
    ensures { OnOk result (out.new.items ≡ out.old.items ++ array_text (upd (array_tree of.now) (tree at.now) (tree by.now))) }
{
    out.extend_from_slice(b"(upd")?;
    put_array_part(alloc, out, of)?;
    put_part(alloc, out, at)?;
    put_part(alloc, out, by)?;
    out.push(b')')?;
    Ok(())
}

/// Appends an array term below an index and another one from it on.
#[cycle(put_arrays)]
fn put_splice(
    alloc: Global,
    out: &mut Vec<u8>,
    of: &ArrayTerm,
    below: &ArrayTerm,
    at: &Term,
) -> Result<(), NoMemory>
    requires typed { IsTypedArray (splice (array_tree of.now) (array_tree below.now) (tree at.now)) }
    requires no_division { ArrayHasNoDivision (splice (array_tree of.now) (array_tree below.now) (tree at.now)) }
    ensures { OnOk result (out.new.items ≡ out.old.items ++ array_text (splice (array_tree of.now) (array_tree below.now) (tree at.now))) }
{
    out.extend_from_slice(b"(splice")?;
    put_array_part(alloc, out, of)?;
    put_array_part(alloc, out, below)?;
    put_part(alloc, out, at)?;
    out.push(b')')?;
    Ok(())
}

/// Appends an array term.
#[cycle(put_arrays)]
fn put_array(alloc: Global, out: &mut Vec<u8>, array: &ArrayTerm) -> Result<(), NoMemory>
    requires typed { IsTypedArray (array_tree array.now) }
    requires no_division { ArrayHasNoDivision (array_tree array.now) }
    ensures { OnOk result (out.new.items ≡ out.old.items ++ array_text (array_tree array.now)) }
{
    match array_form_of(array) {
        ArrayForm::Var { name } => put_name(out, name),
        ArrayForm::Upd { of, at, by } => put_update(alloc, out, of, at, by),
        ArrayForm::Splice { of, below, at } => put_splice(alloc, out, of, below, at),
    }
}

/// The text of a term: a literal as `0x` and hex digits in lower case where its width is a multiple of 4, else as `0b`,
/// always with all digits; a variable as its name; an application as `(op arg ..)`, where an operator's numbers stand
/// before its argument; a byte of an array variable as `(sel F t)`. One space stands between parts.
///
/// The text is the same bytes where the names are UTF-8, and has U+FFFD in place of what isn't. The time is in proportion
/// to the text.
pub fn print_term(alloc: Global, term: &Term) -> Result<String, NoMemory>
    requires term { IsTerm (tree term.now) }
    requires no_division { HasNoDivision (tree term.now) }
    ensures exact { IfOk result (λ s. IsUtf8 (term_text (tree term.now)) → string_bytes s ≡ term_text (tree term.now)) }
    ensures any_names { IfOk result (λ s. string_bytes s ≡ utf8_lossy (term_text (tree term.now))) }
{
    let mut out = Vec::new(alloc);
    put_term(alloc, &mut out, term)?;
    Ok(String::from_utf8_lossy(alloc, out.as_slice())?)
}

/// The text of an array term: an array variable as its name, `(upd f i b)` for `f` but for the byte `b` at the index `i`,
/// and `(splice f g i)` for the array that is `g` below the index `i` and `f` from there on. One space stands between
/// parts, and terms print as by `print_term`.
///
/// The text is the same bytes where the names are UTF-8, and has U+FFFD in place of what isn't. The time is in proportion
/// to the text.
pub fn print_array(alloc: Global, array: &ArrayTerm) -> Result<String, NoMemory>
    requires term { IsArrayTerm (array_tree array.now) }
    requires no_division { ArrayHasNoDivision (array_tree array.now) }
    ensures exact { IfOk result (λ s. IsUtf8 (array_text (array_tree array.now)) → string_bytes s ≡ array_text (array_tree array.now)) }
    ensures any_names { IfOk result (λ s. string_bytes s ≡ utf8_lossy (array_text (array_tree array.now))) }
{
    let mut out = Vec::new(alloc);
    put_array(alloc, &mut out, array)?;
    Ok(String::from_utf8_lossy(alloc, out.as_slice())?)
}
