//! The byte of an array term at an index, made.

ghost use Rattle.std.specs.Prelude.{◌≡◌, ◌≤◌, ◌∷◌, [], Some, IfOk};
ghost use Rattle.bv_bits.specs.Bits.{result_width_of};
ghost use Rattle.bv_bits.specs.declared.Op.TheVariants.{Ite};
ghost use Rattle.term_tree.specs.Terms.{two, three, array, width_of, height, array_height, IsTypedArray, IsTerm, IsArrayTerm, IsIndex, HIGHEST};
ghost use Rattle.term_tree.specs.Values.{Values, IsValues, value, byte, byte_at};
ghost use Rattle.term_make.specs.Making as spec;
ghost use Rattle.term_select.specs.Selecting.{select as selection};
ghost use Rattle.term_make.specs.Answers.{Answers};
ghost use Rattle.term_tree.specs.View.{tree, array_tree};

use bv_bits::Op;
use lex_core::Name;
use sqlite_items::Boxed;
use std::alloc::Global;
use term_copy::copy;
use term_make::{made_of_three, made_of_two};
use term_tree::{ArrayForm, ArrayTerm, HIGHEST, Term, TermFault, array_form_of, height};

/// The term for the byte, of 8 bits, of an array term at an index of 64 bits.
///
/// At an array variable it is that byte. At an update it is made as a choice: the byte that was written where the indices
/// are equal, and else what is selected of the array below. At a splice it is made as a choice between what is selected of
/// its two arrays: of the one below where the index is below the splice's, and else of the other.
///
/// `TermTooHigh` comes exactly where a term of height 1,025 would be made, as the result or on the way; `TooManyTerms`
/// never comes.
pub fn select(alloc: Global, of: &ArrayTerm, at: &Term) -> Result<Term, TermFault>
    requires array { IsArrayTerm (array_tree of.now) }
    requires index { IsIndex (tree at.now) }
    requires low { height (tree at.now) ≤ HIGHEST }
    ensures answer { Answers tree (selection (array_tree of.now) (tree at.now)) result }
    ensures term { IfOk result (λ t. IsTerm (tree t)) }
    ensures width { IfOk result (λ t. width_of (tree t) ≡ 8) }
    ensures value { IfOk result (λ t. (v : Values) → IsValues v → value v (tree t) ≡ byte (byte_at v (array_tree of.now) (value v (tree at.now)).value)) }
{
    selected(alloc, of, at)
}

/// What `select` gives.
fn selected(alloc: Global, of: &ArrayTerm, at: &Term) -> Result<Term, TermFault>
    requires array { IsTypedArray (array_tree of.now) }
    requires array_low { array_height (array_tree of.now) ≤ HIGHEST }
    requires index { IsIndex (tree at.now) }
    requires low { height (tree at.now) ≤ HIGHEST }
    ensures answer { Answers tree (selection (array_tree of.now) (tree at.now)) result }
    ensures term { IfOk result (λ t. IsTerm (tree t)) }
    ensures width { IfOk result (λ t. width_of (tree t) ≡ 8) }
{
    match array_form_of(of) {
        ArrayForm::Var { name } => byte_of_variable(alloc, name, copy(alloc, at)?),
        ArrayForm::Upd { of, at: index, by } => {
            let same = related(alloc, Op::Eq, at, index)?;
            let other = selected(alloc, of, at)?;
            chosen(alloc, same, copy(alloc, by)?, other)
        }
        ArrayForm::Splice {
            of,
            below,
            at: index,
        } => {
            let low = related(alloc, Op::ULt, at, index)?;
            let one = selected(alloc, below, at)?;
            let other = selected(alloc, of, at)?;
            chosen(alloc, low, one, other)
        }
    }
}

/// The byte of an array variable at an index, as it is.
pub fn byte_of_variable(alloc: Global, name: &Name, at: Term) -> Result<Term, TermFault>
    requires index { IsIndex (tree at) }
    requires low { height (tree at) ≤ HIGHEST }
    ensures answer { Answers tree (selection (array name.now) (tree at)) result }
    ensures term { IfOk result (λ t. IsTerm (tree t)) }
    ensures width { IfOk result (λ t. width_of (tree t) ≡ 8) }
{
    if height(&at) < HIGHEST {
        Ok(Term::Sel {
            of: name.copy(alloc)?,
            at: Boxed::new(alloc, at)?,
        })
    } else {
        Err(TermFault::TermTooHigh)
    }
}

/// A relation of two indices, made.
fn related(alloc: Global, op: Op, left: &Term, right: &Term) -> Result<Term, TermFault>
    requires relation { result_width_of op (64 ∷ 64 ∷ []) ≡ Some 1 }
    requires left_index { IsIndex (tree left.now) }
    requires right_index { IsIndex (tree right.now) }
    requires left_low { height (tree left.now) ≤ HIGHEST }
    requires right_low { height (tree right.now) ≤ HIGHEST }
    ensures answer { Answers tree (spec.make (two op (tree left.now) (tree right.now))) result }
    ensures term { IfOk result (λ t. IsTerm (tree t)) }
    ensures width { IfOk result (λ t. width_of (tree t) ≡ 1) }
{
    made_of_two(alloc, op, copy(alloc, left)?, copy(alloc, right)?)
}

/// The choice between two bytes, made.
fn chosen(alloc: Global, test: Term, first: Term, second: Term) -> Result<Term, TermFault>
    requires test_term { IsTerm (tree test) }
    requires test_width { width_of (tree test) ≡ 1 }
    requires first_term { IsTerm (tree first) }
    requires first_width { width_of (tree first) ≡ 8 }
    requires second_term { IsTerm (tree second) }
    requires second_width { width_of (tree second) ≡ 8 }
    ensures answer { Answers tree (spec.make (three Ite (tree test) (tree first) (tree second))) result }
    ensures term { IfOk result (λ t. IsTerm (tree t)) }
    ensures width { IfOk result (λ t. width_of (tree t) ≡ 8) }
{
    made_of_three(alloc, Op::Ite, test, first, second)
}
