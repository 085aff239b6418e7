//! Operators at one, two or three terms, made.

ghost use Rattle.std.specs.Prelude.{◌≡◌, ◌≤◌, IfOk};
ghost use Rattle.term_tree.specs.Terms.{one, two, three, width_of, height, IsTyped, IsTerm, HIGHEST};
ghost use Rattle.term_tree.specs.View.{tree};
ghost use Rattle.term_make.specs.Making as spec;
ghost use Rattle.term_make.specs.Answers.{Answers};

use crate::making::make;
use bv_bits::Op;
use std::alloc::Global;
use term_tree::{Term, TermFault, list_of_one, list_of_three, list_of_two};

/// An operator at one term, made.
pub fn made_of_one(alloc: Global, op: Op, a: Term) -> Result<Term, TermFault>
    requires typed { IsTyped (one op (tree a)) }
    requires a_low { height (tree a) ≤ HIGHEST }
    ensures answer { Answers tree (spec.make (one op (tree a))) result }
    ensures term { IfOk result (λ t. IsTerm (tree t)) }
    ensures width { IfOk result (λ t. width_of (tree t) ≡ width_of (one op (tree a))) }
{
    make(alloc, op, list_of_one(alloc, a)?)
}

/// An operator at two terms, made.
pub fn made_of_two(alloc: Global, op: Op, a: Term, b: Term) -> Result<Term, TermFault>
    requires typed { IsTyped (two op (tree a) (tree b)) }
    requires a_low { height (tree a) ≤ HIGHEST }
    requires b_low { height (tree b) ≤ HIGHEST }
    ensures answer { Answers tree (spec.make (two op (tree a) (tree b))) result }
    ensures term { IfOk result (λ t. IsTerm (tree t)) }
    ensures width { IfOk result (λ t. width_of (tree t) ≡ width_of (two op (tree a) (tree b))) }
{
    make(alloc, op, list_of_two(alloc, a, b)?)
}

/// An operator at three terms, made.
pub fn made_of_three(alloc: Global, op: Op, a: Term, b: Term, c: Term) -> Result<Term, TermFault>
    requires typed { IsTyped (three op (tree a) (tree b) (tree c)) }
    requires a_low { height (tree a) ≤ HIGHEST }
    requires b_low { height (tree b) ≤ HIGHEST }
    requires c_low { height (tree c) ≤ HIGHEST }
    ensures answer { Answers tree (spec.make (three op (tree a) (tree b) (tree c))) result }
    ensures term { IfOk result (λ t. IsTerm (tree t)) }
    ensures width { IfOk result (λ t. width_of (tree t) ≡ width_of (three op (tree a) (tree b) (tree c))) }
{
    make(alloc, op, list_of_three(alloc, a, b, c)?)
}
