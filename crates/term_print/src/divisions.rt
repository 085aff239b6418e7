//! Whether a term holds a division, for which there is no text.

ghost use Rattle.std.specs.Prelude.{◌≡◌, ◌↔◌, true};
ghost use Rattle.term_tree.specs.Terms.{IsTyped, IsTypedArray};
ghost use Rattle.term_tree.specs.View.{tree, array_tree};
ghost use Rattle.term_tree.specs.Divisions as spec;
ghost use Rattle.term_tree.specs.Divisions.{HasNoDivision, ArrayHasNoDivision};

use bv_bits::Op;
use term_tree::{ArrayForm, ArrayTerm, Form, Term, array_form_of, form_of};

/// Whether an operator is a division.
fn is_division(op: Op) -> bool
    ensures value { result ≡ spec.is_division op }
{
    match op {
        Op::UDiv | Op::URem | Op::SDiv | Op::SRem => true,
        _ => false,
    }
}

/// Whether a term holds no division, so that it can be printed. It takes no memory.
pub fn has_no_division(term: &Term) -> bool
    requires term { IsTyped (tree term.now) }
    ensures exact { (result ≡ true) ↔ HasNoDivision (tree term.now) }
{
    match form_of(term) {
        Form::Lit(_) => true,
        Form::Var { name: _, width: _ } => true,
        Form::One { op, a } => !is_division(op) && has_no_division(a),
        Form::Two { op, a, b } => !is_division(op) && (has_no_division(a) && has_no_division(b)),
        Form::Three { op, a, b, c } => !is_division(op)
            && (has_no_division(a) && (has_no_division(b) && has_no_division(c))),
        Form::Sel { of: _, at } => has_no_division(at),
    }
}

/// Whether an array term holds no division, so that it can be printed. It takes no memory.
pub fn array_has_no_division(array: &ArrayTerm) -> bool
    requires array { IsTypedArray (array_tree array.now) }
    ensures exact { (result ≡ true) ↔ ArrayHasNoDivision (array_tree array.now) }
{
    match array_form_of(array) {
        ArrayForm::Var { name: _ } => true,
        ArrayForm::Upd { of, at, by } => array_has_no_division(of)
            && (has_no_division(at) && has_no_division(by)),
        ArrayForm::Splice { of, below, at } => array_has_no_division(of)
            && (array_has_no_division(below) && has_no_division(at)),
    }
}
