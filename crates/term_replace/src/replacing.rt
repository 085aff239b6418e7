//! Variables replaced by terms, all at once.

ghost use Rattle.std.specs.Prelude.{◌≡◌, ◌≤◌, ⊤, [], IfOk, MatchOption, All, ℕ, map, find, bytes_eq};
ghost use Rattle.std.specs.Option.{option_map};
ghost use Rattle.term_tree.specs.Terms.{var, sel, width_of, height, array_height, upd, splice, IsTyped, IsTypedArray, IsTerm, IsArrayTerm, IsIndex, HIGHEST};
ghost use Rattle.term_tree.specs.Values.{Values, IsValues, value, byte_at};
ghost use Rattle.term_make.specs.Making.{just};
ghost use Rattle.term_select.specs.Selecting.{select as selection};
ghost use Rattle.term_replace.specs.Replacing as spec;
ghost use Rattle.term_replace.specs.Replacing.{Fits, FitsArray, replaced_var, replaced_array, replaced_values};
ghost use Rattle.term_replace.specs.Replaced.{named_tree, named_array, replacements, AreTerms};
ghost use Rattle.term_make.specs.Answers.{Answers};
ghost use Rattle.term_tree.specs.View.{tree, array_tree};

use lex_core::{Name, NoMemory};
use sqlite_items::Boxed;
use std::alloc::Global;
use term_copy::{copy, copy_array};
use term_make::{made_of_one, made_of_three, made_of_two};
use term_select::{byte_of_variable, select};
use term_tree::{
    ArrayForm, ArrayTerm, Form, HIGHEST, Term, TermFault, array_form_of, array_height, form_of,
    height,
};

/// The term with each named variable replaced, all at once: each application and each select is made again. Of two
/// replacements of one name the first counts, and each is as wide as every variable of its name.
///
/// `TermTooHigh` comes exactly where a term of height 1,025 would be made, as the result or on the way; `TooManyTerms`
/// never comes.
pub fn substitute(
    alloc: Global,
    term: &Term,
    bits: &[(Name, Term)],
    arrays: &[(Name, ArrayTerm)],
) -> Result<Term, TermFault>
    requires term { IsTerm (tree term.now) }
    requires by { AreTerms (replacements bits.now arrays.now) }
    requires fits { Fits (replacements bits.now arrays.now) (tree term.now) }
    ensures answer { Answers tree (spec.substitute (replacements bits.now arrays.now) (tree term.now)) result }
    ensures term { IfOk result (λ t. IsTerm (tree t)) }
    ensures width { IfOk result (λ t. width_of (tree t) ≡ width_of (tree term.now)) }
    ensures value { IfOk result (λ t. (v : Values) → IsValues v → value v (tree t) ≡ value (replaced_values (replacements bits.now arrays.now) v) (tree term.now)) }
{
    replaced(alloc, term, bits, arrays)
}

/// What `substitute` gives.
fn replaced(
    alloc: Global,
    term: &Term,
    bits: &[(Name, Term)],
    arrays: &[(Name, ArrayTerm)],
) -> Result<Term, TermFault>
    requires typed { IsTyped (tree term.now) }
    requires low { height (tree term.now) ≤ HIGHEST }
    requires by { AreTerms (replacements bits.now arrays.now) }
    requires fits { Fits (replacements bits.now arrays.now) (tree term.now) }
    ensures answer { Answers tree (spec.substitute (replacements bits.now arrays.now) (tree term.now)) result }
    ensures term { IfOk result (λ t. IsTerm (tree t)) }
    ensures width { IfOk result (λ t. width_of (tree t) ≡ width_of (tree term.now)) }
{
    match form_of(term) {
        Form::Lit(b) => Ok(Term::Lit(b)),
        Form::Var { name, width } => Ok(term_for(alloc, name, width, bits)?),
        Form::One { op, a } => {
            let x = replaced(alloc, a, bits, arrays)?;
            made_of_one(alloc, op, x)
        }
        Form::Two { op, a, b } => {
            let x = replaced(alloc, a, bits, arrays)?;
            let y = replaced(alloc, b, bits, arrays)?;
            made_of_two(alloc, op, x, y)
        }
        Form::Three { op, a, b, c } => {
            let x = replaced(alloc, a, bits, arrays)?;
            let y = replaced(alloc, b, bits, arrays)?;
            let z = replaced(alloc, c, bits, arrays)?;
            made_of_three(alloc, op, x, y, z)
        }
        Form::Sel { of, at } => {
            let index = replaced(alloc, at, bits, arrays)?;
            byte_of(alloc, of, index, arrays)
        }
    }
}

/// What stands for a variable.
fn term_for(alloc: Global, name: &Name, width: u32, bits: &[(Name, Term)]) -> Result<Term, NoMemory>
    requires typed { All (λ p. IsTyped p.1) (map named_tree bits.now) }
    ensures term { IfOk result (λ t. tree t ≡ replaced_var (replacements bits.now []) name.now width) }
{
    for pair in bits {
        if pair.0.is(name.bytes()) {
            return copy(alloc, &pair.1);
        }
    }
    Ok(Term::Var {
        name: name.copy(alloc)?,
        width,
    })
}

/// The array term that stands for an array variable, if one does.
fn array_for<'t>(name: &Name, arrays: &'t [(Name, ArrayTerm)]) -> Option<&'t ArrayTerm>
    requires terms { All (λ p. IsArrayTerm p.1) (map named_array arrays.now) }
    ensures array { option_map (λ f. array_tree f.now) result ≡ option_map (λ p. p.1) (find (λ p. bytes_eq p.0 name.now) (map named_array arrays.now)) }
    ensures term { MatchOption result ⊤ (λ f. IsArrayTerm (array_tree f.now)) }
{
    for pair in arrays {
        if pair.0.is(name.bytes()) {
            return Some(&pair.1);
        }
    }
    None
}

/// The byte at an index of what stands for an array variable, made.
fn byte_of(
    alloc: Global,
    name: &Name,
    index: Term,
    arrays: &[(Name, ArrayTerm)],
) -> Result<Term, TermFault>
    requires terms { All (λ p. IsArrayTerm p.1) (map named_array arrays.now) }
    requires index { IsIndex (tree index) }
    requires low { height (tree index) ≤ HIGHEST }
    ensures answer { Answers tree (selection (replaced_array (replacements [] arrays.now) name.now) (tree index)) result }
    ensures term { IfOk result (λ t. IsTerm (tree t)) }
    ensures width { IfOk result (λ t. width_of (tree t) ≡ 8) }
{
    match array_for(name, arrays) {
        Some(array) => select(alloc, array, &index),
        None => byte_of_variable(alloc, name, index),
    }
}

/// The array term with each named variable replaced, all at once, as `substitute` does it.
///
/// `TermTooHigh` comes exactly where a term or an array term of height 1,025 would be made, as the result or on the way;
/// `TooManyTerms` never comes.
pub fn substitute_array(
    alloc: Global,
    array: &ArrayTerm,
    bits: &[(Name, Term)],
    arrays: &[(Name, ArrayTerm)],
) -> Result<ArrayTerm, TermFault>
    requires array { IsArrayTerm (array_tree array.now) }
    requires by { AreTerms (replacements bits.now arrays.now) }
    requires fits { FitsArray (replacements bits.now arrays.now) (array_tree array.now) }
    ensures answer { Answers array_tree (spec.substitute_array (replacements bits.now arrays.now) (array_tree array.now)) result }
    ensures array { IfOk result (λ f. IsArrayTerm (array_tree f)) }
    ensures bytes { IfOk result (λ f. (v : Values) (k : ℕ) → IsValues v → byte_at v (array_tree f) k ≡ byte_at (replaced_values (replacements bits.now arrays.now) v) (array_tree array.now) k) }
{
    replaced_in_array(alloc, array, bits, arrays)
}

/// What `substitute_array` gives.
#[cycle(replacing_arrays)]
fn replaced_in_array(
    alloc: Global,
    array: &ArrayTerm,
    bits: &[(Name, Term)],
    arrays: &[(Name, ArrayTerm)],
) -> Result<ArrayTerm, TermFault>
    requires typed { IsTypedArray (array_tree array.now) }
    requires low { array_height (array_tree array.now) ≤ HIGHEST }
    requires by { AreTerms (replacements bits.now arrays.now) }
    requires fits { FitsArray (replacements bits.now arrays.now) (array_tree array.now) }
    ensures answer { Answers array_tree (spec.substitute_array (replacements bits.now arrays.now) (array_tree array.now)) result }
    ensures array { IfOk result (λ f. IsArrayTerm (array_tree f)) }
{
    match array_form_of(array) {
        ArrayForm::Var { name } => Ok(array_term_for(alloc, name, arrays)?),
        ArrayForm::Upd { of, at, by } => replaced_in_update(alloc, of, at, by, bits, arrays),
        ArrayForm::Splice { of, below, at } => replaced_in_splice(
            alloc, of, below, at, bits, arrays,
        ),
    }
}

/// The same for an array term, but for the byte at an index.
#[cycle(replacing_arrays)]
fn replaced_in_update(
    alloc: Global,
    of: &ArrayTerm,
    at: &Term,
    byte: &Term,
    bits: &[(Name, Term)],
    arrays: &[(Name, ArrayTerm)],
) -> Result<ArrayTerm, TermFault>
    requires typed { IsTypedArray (upd (array_tree of.now) (tree at.now) (tree byte.now)) }
    requires low { array_height (upd (array_tree of.now) (tree at.now) (tree byte.now)) ≤ HIGHEST }
    requires by { AreTerms (replacements bits.now arrays.now) }
    requires fits { FitsArray (replacements bits.now arrays.now) (upd (array_tree of.now) (tree at.now) (tree byte.now)) }
    ensures answer { Answers array_tree (spec.substitute_array (replacements bits.now arrays.now) (upd (array_tree of.now) (tree at.now) (tree byte.now))) result }
    ensures array { IfOk result (λ f. IsArrayTerm (array_tree f)) }
{
    let below = replaced_in_array(alloc, of, bits, arrays)?;
    let index = replaced(alloc, at, bits, arrays)?;
    let value = replaced(alloc, byte, bits, arrays)?;
    updated(alloc, below, index, value)
}

/// The same for an array term below an index and another one from it on.
#[cycle(replacing_arrays)]
fn replaced_in_splice(
    alloc: Global,
    of: &ArrayTerm,
    below: &ArrayTerm,
    at: &Term,
    bits: &[(Name, Term)],
    arrays: &[(Name, ArrayTerm)],
) -> Result<ArrayTerm, TermFault>
    requires typed { IsTypedArray (splice (array_tree of.now) (array_tree below.now) (tree at.now)) }
    requires low { array_height (splice (array_tree of.now) (array_tree below.now) (tree at.now)) ≤ HIGHEST }
    requires by { AreTerms (replacements bits.now arrays.now) }
    requires fits { FitsArray (replacements bits.now arrays.now) (splice (array_tree of.now) (array_tree below.now) (tree at.now)) }
    ensures answer { Answers array_tree (spec.substitute_array (replacements bits.now arrays.now) (splice (array_tree of.now) (array_tree below.now) (tree at.now))) result }
    ensures array { IfOk result (λ f. IsArrayTerm (array_tree f)) }
{
    let from = replaced_in_array(alloc, of, bits, arrays)?;
    let low = replaced_in_array(alloc, below, bits, arrays)?;
    let index = replaced(alloc, at, bits, arrays)?;
    joined(alloc, from, low, index)
}

/// What stands for an array variable.
fn array_term_for(
    alloc: Global,
    name: &Name,
    arrays: &[(Name, ArrayTerm)],
) -> Result<ArrayTerm, NoMemory>
    requires terms { All (λ p. IsArrayTerm p.1) (map named_array arrays.now) }
    ensures array { IfOk result (λ f. array_tree f ≡ replaced_array (replacements [] arrays.now) name.now) }
    ensures term { IfOk result (λ f. IsArrayTerm (array_tree f)) }
{
    match array_for(name, arrays) {
        Some(array) => copy_array(alloc, array),
        None => Ok(ArrayTerm::Var(name.copy(alloc)?)),
    }
}

/// An array term, but for the byte at an index, if it isn't too high.
fn updated(alloc: Global, of: ArrayTerm, at: Term, by: Term) -> Result<ArrayTerm, TermFault>
    requires array { IsArrayTerm (array_tree of) }
    requires index { IsIndex (tree at) }
    requires index_low { height (tree at) ≤ HIGHEST }
    requires byte { IsTerm (tree by) }
    requires byte_width { width_of (tree by) ≡ 8 }
    ensures answer { Answers array_tree (spec.update (array_tree of) (tree at) (tree by)) result }
    ensures array { IfOk result (λ f. IsArrayTerm (array_tree f)) }
{
    if array_height(&of) < HIGHEST && (height(&at) < HIGHEST && height(&by) < HIGHEST) {
        Ok(update_of(alloc, of, at, by)?)
    } else {
        Err(TermFault::TermTooHigh)
    }
}

/// An array term below an index and another one from it on, if that isn't too high.
fn joined(alloc: Global, of: ArrayTerm, below: ArrayTerm, at: Term) -> Result<ArrayTerm, TermFault>
    requires array { IsArrayTerm (array_tree of) }
    requires low_array { IsArrayTerm (array_tree below) }
    requires index { IsIndex (tree at) }
    requires index_low { height (tree at) ≤ HIGHEST }
    ensures answer { Answers array_tree (spec.join_at (array_tree of) (array_tree below) (tree at)) result }
    ensures array { IfOk result (λ f. IsArrayTerm (array_tree f)) }
{
    if array_height(&of) < HIGHEST && (array_height(&below) < HIGHEST && height(&at) < HIGHEST) {
        Ok(splice_of(alloc, of, below, at)?)
    } else {
        Err(TermFault::TermTooHigh)
    }
}

/// An array term, but for the byte at an index.
fn update_of(alloc: Global, of: ArrayTerm, at: Term, by: Term) -> Result<ArrayTerm, NoMemory>
    ensures array { IfOk result (λ f. array_tree f ≡ upd (array_tree of) (tree at) (tree by)) }
{
    Ok(ArrayTerm::Upd {
        of: Boxed::new(alloc, of)?,
        at: Boxed::new(alloc, at)?,
        by: Boxed::new(alloc, by)?,
    })
}

/// The array term `below` at each index below `at`, and the array term `of` from there on.
fn splice_of(
    alloc: Global,
    of: ArrayTerm,
    below: ArrayTerm,
    at: Term,
) -> Result<ArrayTerm, NoMemory>
    ensures array { IfOk result (λ f. array_tree f ≡ splice (array_tree of) (array_tree below) (tree at)) }
{
    Ok(ArrayTerm::Splice {
        of: Boxed::new(alloc, of)?,
        below: Boxed::new(alloc, below)?,
        at: Boxed::new(alloc, at)?,
    })
}
