//! Cases about bytes that are selected and variables that are replaced.

ghost use Rattle.std.specs.Prelude.{[]};
ghost use Rattle.term_tree.specs.Terms.{IsTerm, IsArrayTerm};
ghost use Rattle.term_tree.specs.View.{tree, array_tree};
ghost use Rattle.term_replace.specs.Replaced.{AreTerms, replacements};

use crate::places::{Pair, UNFIT, array_from, array_pair_from, pair_from, term_from};
use crate::texts::{array_text, text_of};
use lex_core::Name;
use std::alloc::Global;
use term_read::{ArrayAt, TermAt, TermReadFault};
use term_replace::{fits, fits_array, substitute, substitute_array};
use term_select::select;
use term_tree::{ArrayTerm, Term, width};

/// The byte of an array term at an index.
fn byte_at(alloc: Global, array: &ArrayTerm, at: &Term) -> Result<String, TermReadFault>
    requires array { IsArrayTerm (array_tree array.now) }
    requires at { IsTerm (tree at.now) }
{
    if width(at) != 64 {
        return Err(UNFIT);
    }
    match select(alloc, array, at) {
        Ok(byte) => text_of(alloc, &byte),
        Err(fault) => Err(TermReadFault::Term(fault)),
    }
}

/// The byte of an array term at the index that is read behind it.
fn selected_of(alloc: Global, text: &[u8], of: &ArrayAt) -> Result<String, TermReadFault>
    requires { IsArrayTerm (array_tree of.now.array) }
{
    let at = term_from(alloc, text, of.next)?;
    byte_at(alloc, &of.array, &at.term)
}

/// The byte that is selected of the first text at the second.
pub fn selected(alloc: Global, text: &[u8]) -> Result<String, TermReadFault> {
    let of = array_from(alloc, text, 0)?;
    selected_of(alloc, text, &of)
}

/// A term with replacements.
fn put(
    alloc: Global,
    term: &Term,
    bits: &[(Name, Term)],
    arrays: &[(Name, ArrayTerm)],
) -> Result<String, TermReadFault>
    requires term { IsTerm (tree term.now) }
    requires by { AreTerms (replacements bits.now arrays.now) }
{
    if !fits(term, bits, arrays) {
        return Err(UNFIT);
    }
    match substitute(alloc, term, bits, arrays) {
        Ok(made) => text_of(alloc, &made),
        Err(fault) => Err(TermReadFault::Term(fault)),
    }
}

/// A term with a variable replaced, and a second one by what is read behind.
fn put_two(alloc: Global, text: &[u8], term: &Term, one: Pair) -> Result<String, TermReadFault>
    requires term { IsTerm (tree term.now) }
    requires by { IsTerm (tree one.pair.1) }
{
    let two = pair_from(alloc, text, one.next)?;
    put(alloc, term, &[one.pair, two.pair], &[])
}

/// A term with the two variables replaced that are read behind it.
fn replaced_of(alloc: Global, text: &[u8], term: &TermAt) -> Result<String, TermReadFault>
    requires { IsTerm (tree term.now.term) }
{
    let one = pair_from(alloc, text, term.next)?;
    put_two(alloc, text, &term.term, one)
}

/// The first text with two variables replaced.
pub fn replaced(alloc: Global, text: &[u8]) -> Result<String, TermReadFault> {
    let term = term_from(alloc, text, 0)?;
    replaced_of(alloc, text, &term)
}

/// A term with a variable replaced, and an array variable by what is read behind.
fn put_both(alloc: Global, text: &[u8], term: &Term, one: Pair) -> Result<String, TermReadFault>
    requires term { IsTerm (tree term.now) }
    requires by { IsTerm (tree one.pair.1) }
{
    let array = array_pair_from(alloc, text, one.next)?;
    put(alloc, term, &[one.pair], &[array])
}

/// A term with the variable and the array variable replaced that are read behind it.
fn both_replaced_of(alloc: Global, text: &[u8], term: &TermAt) -> Result<String, TermReadFault>
    requires { IsTerm (tree term.now.term) }
{
    let one = pair_from(alloc, text, term.next)?;
    put_both(alloc, text, &term.term, one)
}

/// The first text with a variable and an array variable replaced.
pub fn replaced_array(alloc: Global, text: &[u8]) -> Result<String, TermReadFault> {
    let term = term_from(alloc, text, 0)?;
    both_replaced_of(alloc, text, &term)
}

/// An array term with variables replaced.
fn put_array(
    alloc: Global,
    array: &ArrayTerm,
    bits: &[(Name, Term)],
) -> Result<String, TermReadFault>
    requires array { IsArrayTerm (array_tree array.now) }
    requires by { AreTerms (replacements bits.now []) }
{
    if !fits_array(array, bits, &[]) {
        return Err(UNFIT);
    }
    match substitute_array(alloc, array, bits, &[]) {
        Ok(made) => array_text(alloc, &made),
        Err(fault) => Err(TermReadFault::Term(fault)),
    }
}

/// An array term with the variable replaced that is read behind it.
fn replaced_index_of(alloc: Global, text: &[u8], array: &ArrayAt) -> Result<String, TermReadFault>
    requires { IsArrayTerm (array_tree array.now.array) }
{
    let one = pair_from(alloc, text, array.next)?;
    put_array(alloc, &array.array, &[one.pair])
}

/// The array term that is the first text, with a variable replaced.
pub fn replaced_index(alloc: Global, text: &[u8]) -> Result<String, TermReadFault> {
    let array = array_from(alloc, text, 0)?;
    replaced_index_of(alloc, text, &array)
}
