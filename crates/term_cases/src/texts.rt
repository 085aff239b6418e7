//! Cases about one text or more: what is read of it and printed, its value, and its parts.

ghost use Rattle.std.specs.Prelude.{All};
ghost use Rattle.term_tree.specs.Terms.{IsTerm, IsArrayTerm};
ghost use Rattle.term_tree.specs.View.{tree, array_tree};

use crate::places::{array_from, term_from};
use bv_bits::Bits;
use std::alloc::{AllocError, Global};
use term_copy::subterms;
use term_print::{array_has_no_division, has_no_division, print_array, print_term};
use term_read::TermReadFault;
use term_tree::{ArrayTerm, Term, value_one};

/// The text of a term, if it has one.
pub fn text_of(alloc: Global, term: &Term) -> Result<String, TermReadFault>
    requires term { IsTerm (tree term.now) }
{
    if has_no_division(term) {
        Ok(print_term(alloc, term)?)
    } else {
        Err(TermReadFault::Form { at: 0 })
    }
}

/// The text of an array term, if it has one.
pub fn array_text(alloc: Global, array: &ArrayTerm) -> Result<String, TermReadFault>
    requires array { IsArrayTerm (array_tree array.now) }
{
    if array_has_no_division(array) {
        Ok(print_array(alloc, array)?)
    } else {
        Err(TermReadFault::Form { at: 0 })
    }
}

/// What the text is read as, a term printed again.
pub fn term_read(alloc: Global, text: &[u8]) -> Result<String, TermReadFault> {
    let read = term_from(alloc, text, 0)?;
    text_of(alloc, &read.term)
}

/// The same of an array term.
pub fn array_read(alloc: Global, text: &[u8]) -> Result<String, TermReadFault> {
    let read = array_from(alloc, text, 0)?;
    array_text(alloc, &read.array)
}

/// Bits as text.
fn bits_text(alloc: Global, bits: Bits) -> Result<String, AllocError> {
    format!(in alloc; "{} of {}", bits.value, bits.width)
}

/// The value of a term where `b` is 5 and every other variable 0.
pub fn valued(alloc: Global, text: &[u8]) -> Result<String, TermReadFault> {
    let read = term_from(alloc, text, 0)?;
    let bits = value_one(&read.term, b"b", Bits { width: 8, value: 5 });
    Ok(bits_text(alloc, bits)?)
}

/// Adds the text of a term, behind a `;` if it isn't the first.
fn add(alloc: Global, all: &mut String, term: &Term) -> Result<(), TermReadFault>
    requires term { IsTerm (tree term.now) }
{
    if !all.is_empty() {
        all.push_str("; ")?;
    }
    let text = text_of(alloc, term)?;
    Ok(all.push_str(text.as_str())?)
}

/// The texts of terms, each behind a `;` but the first.
fn listed(alloc: Global, terms: &[Term]) -> Result<String, TermReadFault>
    requires terms { All (λ t. IsTerm (tree t)) terms.now }
{
    let mut all = String::new(alloc);
    for term in terms {
        add(alloc, &mut all, term)?;
    }
    Ok(all)
}

/// The distinct subterms of terms, each behind its own parts.
fn parts_of(alloc: Global, terms: &[Term]) -> Result<String, TermReadFault>
    requires terms { All (λ t. IsTerm (tree t)) terms.now }
{
    let parts = subterms(alloc, terms)?;
    listed(alloc, parts.as_slice())
}

/// The distinct subterms of three terms.
pub fn parts(alloc: Global, text: &[u8]) -> Result<String, TermReadFault> {
    let one = term_from(alloc, text, 0)?;
    let two = term_from(alloc, text, one.next)?;
    let three = term_from(alloc, text, two.next)?;
    parts_of(alloc, &[one.term, two.term, three.term])
}

/// Adds a bracket that opens, with an operator.
fn add_open(text: &mut Vec<u8>, operator: &[u8]) -> Result<(), AllocError> {
    text.push(b'(')?;
    text.extend_from_slice(operator)?;
    Ok(text.push(b' ')?)
}

/// So many brackets with the operator round `b`.
fn brackets(alloc: Global, operator: &[u8], count: usize) -> Result<Vec<u8>, AllocError> {
    let mut text = Vec::new(alloc);
    for _ in 0..count {
        add_open(&mut text, operator)?;
    }
    text.push(b'b')?;
    for _ in 0..count {
        text.push(b')')?;
    }
    Ok(text)
}

/// How many bytes a text has.
fn size(alloc: Global, text: &str) -> Result<String, AllocError> {
    format!(in alloc; "{} bytes", text.len())
}

/// Whether so many brackets with the operator round `b` are read.
pub fn nested(alloc: Global, operator: &[u8], count: &str) -> Result<String, TermReadFault> {
    let count = count.parse::<usize>().unwrap_or(0);
    let text = brackets(alloc, operator, count)?;
    let read = term_read(alloc, text.as_slice())?;
    Ok(size(alloc, read.as_str())?)
}
