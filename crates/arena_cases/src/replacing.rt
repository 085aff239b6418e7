// Variables that are replaced, all at once.

ghost use Rattle.std.specs.Prelude.{◌≡◌, All, IfOk};
ghost use Rattle.bv_bits.specs.declared.Op.TheVariants.{Sub};
ghost use Rattle.term_tree.specs.Terms.{var, two, sel, array, upd, splice, IsTyped, IsTerm, IsArrayTerm};
ghost use Rattle.term_tree.specs.View.{tree, array_tree};
ghost use Rattle.term_arena.specs.Nodes.{Keeps};
ghost use Rattle.term_arena.specs.Answers.{id_term, id_array};
ghost use Rattle.arena_replace.specs.Substituting.{ReplacesArray};
ghost use Rattle.arena_cases.specs.Widths.{IsWide, IsWideArray, IsWidePair};

use crate::terms::doubled;
use arena_replace::{substitute, substitute_array};
use arena_trees::{intern, intern_array};
use bv_bits::Op;
use lex_core::{Name, NoMemory};
use sqlite_items::Boxed;
use std::alloc::Global;
use term_arena::{ArrayId, TermId, Terms};
use term_tree::{ArrayTerm, Term, TermFault, list_of_two};

/// A variable of 64 bits.
fn variable(alloc: Global, name: &[u8]) -> Result<Term, NoMemory>
    ensures tree { IfOk result (λ t. tree t ≡ var name.now 64) }
{
    Ok(Term::Var {
        name: Name::of(alloc, name)?,
        width: 64,
    })
}

/// The difference of two variables.
fn difference(alloc: Global, one: &[u8], other: &[u8]) -> Result<Term, NoMemory>
    ensures tree { IfOk result (λ t. tree t ≡ two Sub (var one.now 64) (var other.now 64)) }
{
    let one = variable(alloc, one)?;
    let other = variable(alloc, other)?;
    Ok(Term::App {
        op: Op::Sub,
        args: list_of_two(alloc, one, other)?,
    })
}

/// The byte of an array variable at a variable.
fn byte(alloc: Global, of: &[u8], at: &[u8]) -> Result<Term, NoMemory>
    ensures tree { IfOk result (λ t. tree t ≡ sel of.now (var at.now 64)) }
{
    Ok(Term::Sel {
        of: Name::of(alloc, of)?,
        at: Boxed::new(alloc, variable(alloc, at)?)?,
    })
}

/// An array variable.
fn bytes(alloc: Global, name: &[u8]) -> Result<ArrayTerm, NoMemory>
    ensures tree { IfOk result (λ f. array_tree f ≡ array name.now) }
{
    Ok(ArrayTerm::Var(Name::of(alloc, name)?))
}

/// An array variable but for the byte at a variable, which is that of another array variable.
fn update(alloc: Global, of: &[u8], at: &[u8], from: &[u8]) -> Result<ArrayTerm, NoMemory>
    ensures tree { IfOk result (λ f. array_tree f ≡ upd (array of.now) (var at.now 64) (sel from.now (var at.now 64))) }
{
    Ok(ArrayTerm::Upd {
        of: Boxed::new(alloc, bytes(alloc, of)?)?,
        at: Boxed::new(alloc, variable(alloc, at)?)?,
        by: Boxed::new(alloc, byte(alloc, from, at)?)?,
    })
}

/// An array variable from a variable on, and another one below it.
fn splice(alloc: Global, of: &[u8], below: &[u8], at: &[u8]) -> Result<ArrayTerm, NoMemory>
    ensures tree { IfOk result (λ f. array_tree f ≡ splice (array of.now) (array below.now) (var at.now 64)) }
{
    Ok(ArrayTerm::Splice {
        of: Boxed::new(alloc, bytes(alloc, of)?)?,
        below: Boxed::new(alloc, bytes(alloc, below)?)?,
        at: Boxed::new(alloc, variable(alloc, at)?)?,
    })
}

/// The number of a variable.
fn interned(alloc: Global, terms: &mut Terms, name: &[u8]) -> Result<TermId, TermFault>
    ensures term { IfOk result (λ id. id_term terms.new id ≡ var name.now 64) }
    ensures kept { IfOk result (λ id. Keeps terms.old terms.new) }
{
    let term = variable(alloc, name)?;
    intern(terms, &term)
}

/// A variable, and another one that stands for it.
fn pair(
    alloc: Global,
    terms: &mut Terms,
    name: &[u8],
    by: &[u8],
) -> Result<(TermId, TermId), TermFault>
    ensures pair { IfOk result (λ p. IsWidePair terms.new p) }
    ensures kept { IfOk result (λ p. Keeps terms.old terms.new) }
{
    let of = interned(alloc, terms, name)?;
    let by = interned(alloc, terms, by)?;
    Ok((of, by))
}

/// An array variable, and the array term that stands for it.
fn array_pair(
    alloc: Global,
    terms: &mut Terms,
    name: &[u8],
    by: &ArrayTerm,
) -> Result<(ArrayId, ArrayId), TermFault>
    requires by { IsArrayTerm (array_tree by.now) }
    ensures pair { IfOk result (λ p. ReplacesArray terms.new p) }
    ensures kept { IfOk result (λ p. Keeps terms.old terms.new) }
{
    let variable = bytes(alloc, name)?;
    let of = intern_array(terms, &variable)?;
    let by = intern_array(terms, by)?;
    Ok((of, by))
}

/// A term that has a number, with its variables replaced.
fn replaced(
    terms: &mut Terms,
    term: TermId,
    bits: &[(TermId, TermId)],
    arrays: &[(ArrayId, ArrayId)],
) -> Result<TermId, TermFault>
    requires term { IsWide (id_term terms.old term) }
    requires bits { All (IsWidePair terms.old) bits.now }
    requires arrays { All (ReplacesArray terms.old) arrays.now }
{
    substitute(terms, term, bits, arrays)
}

/// A term with its variables replaced.
fn replaced_in(
    terms: &mut Terms,
    term: &Term,
    bits: &[(TermId, TermId)],
    arrays: &[(ArrayId, ArrayId)],
) -> Result<TermId, TermFault>
    requires term { IsWide (tree term.now) }
    requires bits { All (IsWidePair terms.old) bits.now }
    requires arrays { All (ReplacesArray terms.old) arrays.now }
{
    let id = intern(terms, term)?;
    replaced(terms, id, bits, arrays)
}

/// An array term with its variables replaced.
fn replaced_in_array(
    terms: &mut Terms,
    array: &ArrayTerm,
    bits: &[(TermId, TermId)],
    arrays: &[(ArrayId, ArrayId)],
) -> Result<ArrayId, TermFault>
    requires array { IsWideArray (array_tree array.now) }
    requires bits { All (IsWidePair terms.old) bits.now }
    requires arrays { All (ReplacesArray terms.old) arrays.now }
{
    let id = intern_array(terms, array)?;
    substitute_array(terms, id, bits, arrays)
}

/// A number, the number of the term that is wanted, and the next number.
fn beside(
    alloc: Global,
    terms: &mut Terms,
    number: u32,
    wanted: &Term,
) -> Result<[u32; 3], TermFault>
    requires wanted { IsTerm (tree wanted.now) }
{
    let wanted = intern(terms, wanted)?;
    let further = interned(alloc, terms, b"further")?;
    Ok([number, wanted.number, further.number])
}

/// The same of an array term.
fn beside_array(
    alloc: Global,
    terms: &mut Terms,
    number: u32,
    wanted: &ArrayTerm,
) -> Result<[u32; 3], TermFault>
    requires wanted { IsArrayTerm (array_tree wanted.now) }
{
    let wanted = intern_array(terms, wanted)?;
    let further = interned(alloc, terms, b"further")?;
    Ok([number, wanted.number, further.number])
}

/// The difference of `x` and `y`, with `y` for `x` and `x` for `y`: that of `y` and `x` is wanted.
pub fn swapped(alloc: Global, terms: &mut Terms) -> Result<[u32; 3], TermFault> {
    let first = pair(alloc, terms, b"x", b"y")?;
    let second = pair(alloc, terms, b"y", b"x")?;
    let term = difference(alloc, b"x", b"y")?;
    let swapped = replaced_in(terms, &term, &[first, second], &[])?;
    let wanted = difference(alloc, b"y", b"x")?;
    beside(alloc, terms, swapped.number, &wanted)
}

/// The difference of `x` and `y`, with `z` for `x`, and then `y` for `x`: that of `z` and `y` is wanted.
pub fn first_counts(alloc: Global, terms: &mut Terms) -> Result<[u32; 3], TermFault> {
    let first = pair(alloc, terms, b"x", b"z")?;
    let second = pair(alloc, terms, b"x", b"y")?;
    let term = difference(alloc, b"x", b"y")?;
    let replaced = replaced_in(terms, &term, &[first, second], &[])?;
    let wanted = difference(alloc, b"z", b"y")?;
    beside(alloc, terms, replaced.number, &wanted)
}

/// `x` doubled so many times, with `y` for `x`: `y` doubled so many times is wanted.
pub fn shared(alloc: Global, terms: &mut Terms, times: u32) -> Result<[u32; 3], TermFault> {
    let x = interned(alloc, terms, b"x")?;
    let sum = doubled(terms, x, times)?;
    let pair = pair(alloc, terms, b"x", b"y")?;
    let replaced = replaced(terms, sum, &[pair], &[])?;
    let y = interned(alloc, terms, b"y")?;
    let wanted = doubled(terms, y, times)?;
    let further = interned(alloc, terms, b"further")?;
    Ok([replaced.number, wanted.number, further.number])
}

/// The byte of `f` at `i`, with `j` for `i`, and for an array variable `g` but for the byte of `h` at `j`: the byte of
/// an array variable at `j` is wanted.
pub fn byte_replaced(
    alloc: Global,
    terms: &mut Terms,
    name: &[u8],
    wanted: &[u8],
) -> Result<[u32; 3], TermFault> {
    let index = pair(alloc, terms, b"i", b"j")?;
    let by = update(alloc, b"g", b"j", b"h")?;
    let array = array_pair(alloc, terms, name, &by)?;
    let term = byte(alloc, b"f", b"i")?;
    let replaced = replaced_in(terms, &term, &[index], &[array])?;
    let wanted = byte(alloc, wanted, b"j")?;
    beside(alloc, terms, replaced.number, &wanted)
}

/// The array `f` but for the byte of `h` at `i`, with `j` for `i` and `g` for `f`: `g` but for the byte of `h` at `j`
/// is wanted.
pub fn update_replaced(alloc: Global, terms: &mut Terms) -> Result<[u32; 3], TermFault> {
    let index = pair(alloc, terms, b"i", b"j")?;
    let by = bytes(alloc, b"g")?;
    let array = array_pair(alloc, terms, b"f", &by)?;
    let term = update(alloc, b"f", b"i", b"h")?;
    let replaced = replaced_in_array(terms, &term, &[index], &[array])?;
    let wanted = update(alloc, b"g", b"j", b"h")?;
    beside_array(alloc, terms, replaced.number, &wanted)
}

/// The array `k` below `i` and `f` from it on, with `j` for `i` and `g` for `f`: `k` below `j` and `g` from it on is
/// wanted.
pub fn splice_replaced(alloc: Global, terms: &mut Terms) -> Result<[u32; 3], TermFault> {
    let index = pair(alloc, terms, b"i", b"j")?;
    let by = bytes(alloc, b"g")?;
    let array = array_pair(alloc, terms, b"f", &by)?;
    let term = splice(alloc, b"f", b"k", b"i")?;
    let replaced = replaced_in_array(terms, &term, &[index], &[array])?;
    let wanted = splice(alloc, b"g", b"k", b"j")?;
    beside_array(alloc, terms, replaced.number, &wanted)
}
