// The goal by which two arrays are equal below a length.

ghost use Rattle.std.specs.Prelude.{◌≡◌, IfOk};
ghost use Rattle.term_tree.specs.Terms.{IsTypedArray, IsIndex, IsTerm, width_of};
ghost use Rattle.term_arena.specs.Answers.{id_term, id_array};
ghost use Rattle.term_arena.specs.Makes.{Makes};
ghost use Rattle.array_terms.specs.SameArrays.{same_terms, said_same, fact_and_goal};

use arena_make::{make, select};
use bv_bits::Op;
use term_arena::{ArrayId, NewNode, TermId, Terms};
use term_tree::TermFault;

/// That two arrays are equal at an index, where the index is below a length.
#[derive(Clone, Copy, Drop)]
pub struct ArrayGoal {
    /// The index is below the length.
    pub fact: TermId,
    /// The bytes at the index are equal.
    pub goal: TermId,
}

/// The goal by which two arrays are equal below a length, at the index `_i`, a variable of 64 bits.
///
/// The length is 64 bits wide. Where neither the arrays nor the length have the variable `_i` of 64 bits, the goal and its fact say that
/// the arrays agree below the length: `laws::same_arrays`. `TermTooHigh` comes exactly where a term of height 1,025 would be
/// made, as one of the results or on the way.
pub fn same_array(
    one: ArrayId,
    two: ArrayId,
    len: TermId,
    terms: &mut Terms,
) -> Result<ArrayGoal, TermFault>
    requires one { IsTypedArray (id_array terms.old one) }
    requires two { IsTypedArray (id_array terms.old two) }
    requires length { IsIndex (id_term terms.old len) }
    ensures makes { Makes terms.old terms.new fact_and_goal result (λ last. said_same (id_array last one) (id_array last two) (id_term last len)) }
    ensures says { IfOk result (λ g. fact_and_goal terms.new g ≡ same_terms (id_array terms.new one) (id_array terms.new two) (id_term terms.new len)) }
    ensures fact { IfOk result (λ g. IsTerm (id_term terms.new g.fact)) }
    ensures goal { IfOk result (λ g. IsTerm (id_term terms.new g.goal)) }
{
    let index = match terms.add_term(NewNode::Var {
        name: b"_i",
        width: 64,
    }) {
        Ok(index) => index,
        Err(fault) => return Err(fault),
    };
    let fact = match make(terms, Op::ULt, &[index, len]) {
        Ok(fact) => fact,
        Err(fault) => return Err(fault),
    };
    let x = match select(terms, one, index) {
        Ok(x) => x,
        Err(fault) => return Err(fault),
    };
    let y = match select(terms, two, index) {
        Ok(y) => y,
        Err(fault) => return Err(fault),
    };
    match make(terms, Op::Eq, &[x, y]) {
        Ok(goal) => Ok(ArrayGoal { fact, goal }),
        Err(fault) => Err(fault),
    }
}
