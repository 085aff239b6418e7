//! What stands in a case's text from a token on: a term, an array term, or a variable and what it is replaced by.

ghost use Rattle.std.specs.Prelude.{◌≡◌, ◌≤◌, length, IfOk, Ok};
ghost use Rattle.lex_core.specs.Lexing.{cut};
ghost use Rattle.term_tree.specs.Terms.{IsTerm, IsArrayTerm};
ghost use Rattle.term_tree.specs.View.{tree, array_tree};

use crate::scope::scope;
use lex_core::{Name, Token, tokens};
use std::alloc::Global;
use term_read::{ArrayAt, TermAt, TermReadFault, read_array, read_term};
use term_tree::{ArrayForm, ArrayTerm, Form, Term, array_form_of, form_of};

/// The fault of texts that don't fit together.
pub const UNFIT: TermReadFault = TermReadFault::WidthDiffers { at: 0 };

/// The fault of a text that isn't cut.
const UNCUT: TermReadFault = TermReadFault::Form { at: 0 };

/// The term among the tokens.
fn term_among(
    alloc: Global,
    text: &[u8],
    tokens: &[Token],
    from: usize,
) -> Result<TermAt, TermReadFault>
    requires tokens { cut text.now ≡ Ok tokens.now }
    requires within { from ≤ length tokens.now }
    ensures { IfOk result (λ t. IsTerm (tree t.term)) }
{
    let scope = scope(alloc)?;
    read_term(alloc, text, tokens, from, scope.as_slice())
}

/// The term that begins at the token of a number.
pub fn term_from(alloc: Global, text: &[u8], from: usize) -> Result<TermAt, TermReadFault>
    ensures { IfOk result (λ t. IsTerm (tree t.term)) }
{
    match tokens(alloc, text) {
        Ok(found) if from <= found.len() => term_among(alloc, text, found.as_slice(), from),
        _ => Err(UNCUT),
    }
}

/// The array term among the tokens.
fn array_among(
    alloc: Global,
    text: &[u8],
    tokens: &[Token],
    from: usize,
) -> Result<ArrayAt, TermReadFault>
    requires tokens { cut text.now ≡ Ok tokens.now }
    requires within { from ≤ length tokens.now }
    ensures { IfOk result (λ f. IsArrayTerm (array_tree f.array)) }
{
    let scope = scope(alloc)?;
    read_array(alloc, text, tokens, from, scope.as_slice())
}

/// The array term that begins at the token of a number.
pub fn array_from(alloc: Global, text: &[u8], from: usize) -> Result<ArrayAt, TermReadFault>
    ensures { IfOk result (λ f. IsArrayTerm (array_tree f.array)) }
{
    match tokens(alloc, text) {
        Ok(found) if from <= found.len() => array_among(alloc, text, found.as_slice(), from),
        _ => Err(UNCUT),
    }
}

/// A variable, the term for it, and the number of the token behind.
#[derive(Drop)]
pub struct Pair {
    pub pair: (Name, Term),
    pub next: usize,
}

/// The name of a variable.
fn name_of(alloc: Global, variable: &Term) -> Result<Name, TermReadFault>
    requires { IsTerm (tree variable.now) }
{
    match form_of(variable) {
        Form::Var { name, width: _ } => Ok(name.copy(alloc)?),
        _ => Err(UNFIT),
    }
}

/// The name with the term that begins at the token of a number.
fn named(alloc: Global, text: &[u8], from: usize, name: Name) -> Result<Pair, TermReadFault>
    ensures { IfOk result (λ p. IsTerm (tree p.pair.1)) }
{
    let by = term_from(alloc, text, from)?;
    Ok(Pair {
        pair: (name, by.term),
        next: by.next,
    })
}

/// The variable at the token of a number, and the term for it behind.
pub fn pair_from(alloc: Global, text: &[u8], from: usize) -> Result<Pair, TermReadFault>
    ensures { IfOk result (λ p. IsTerm (tree p.pair.1)) }
{
    let variable = term_from(alloc, text, from)?;
    let name = name_of(alloc, &variable.term)?;
    named(alloc, text, variable.next, name)
}

/// The name of an array variable.
fn array_name(alloc: Global, array: &ArrayTerm) -> Result<Name, TermReadFault> {
    match array_form_of(array) {
        ArrayForm::Var { name } => Ok(name.copy(alloc)?),
        _ => Err(UNFIT),
    }
}

/// The name with the array term that begins at the token of a number.
fn array_named(
    alloc: Global,
    text: &[u8],
    from: usize,
    name: Name,
) -> Result<(Name, ArrayTerm), TermReadFault>
    ensures { IfOk result (λ p. IsArrayTerm (array_tree p.1)) }
{
    let by = array_from(alloc, text, from)?;
    Ok((name, by.array))
}

/// The array variable at the token of a number, and the array term for it behind.
pub fn array_pair_from(
    alloc: Global,
    text: &[u8],
    from: usize,
) -> Result<(Name, ArrayTerm), TermReadFault>
    ensures { IfOk result (λ p. IsArrayTerm (array_tree p.1)) }
{
    let array = array_from(alloc, text, from)?;
    let name = array_name(alloc, &array.array)?;
    array_named(alloc, text, array.next, name)
}
