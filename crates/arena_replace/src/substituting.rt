// Variables replaced by terms, all at once, on numbers.

ghost use Rattle.std.specs.Prelude.{◌≡◌, Err, All, IfOk, unwrap_or};
ghost use Rattle.term_tree.specs.Terms.{IsTyped, IsTypedArray, IsTerm, IsArrayTerm, width_of};
ghost use Rattle.term_replace.specs.Replacing as replace;
ghost use Rattle.term_replace.specs.Replacing.{Fits, FitsArray};
ghost use Rattle.term_arena.specs.Answers.{id_term, id_array};
ghost use Rattle.term_arena.specs.Said.{said_of};
ghost use Rattle.term_arena.specs.Makes.{Makes};
ghost use Rattle.arena_replace.specs.Renumbering.{number_for};
ghost use Rattle.arena_replace.specs.Substituting.{replacements, Replaces, ReplacesArray, Knows, IsTop};

use crate::renumbering::Renumbering;
use crate::replacing::replaced;
use crate::replacing_arrays::replaced_array;
use bv_bits::Op;
use lex_core::NoMemory;
use term_arena::{ArrayId, TermId, TermNode, Terms};
use term_tree::TermFault;

/// The top of a term, its arguments by their numbers.
#[derive(Clone, Copy, Drop)]
pub enum TermTop {
    /// A literal.
    Literal,
    /// A variable.
    Variable,
    /// An operator at one argument.
    One {
        op: Op,
        a: TermId,
    },
    /// An operator at two arguments.
    Two {
        op: Op,
        a: TermId,
        b: TermId,
    },
    /// An operator at three arguments.
    Three {
        op: Op,
        a: TermId,
        b: TermId,
        c: TermId,
    },
    /// The byte of an array variable at an index.
    Sel {
        at: TermId,
    },
}

/// What is known to stand for terms and array terms: first the replacements of variables, and then also what was made of
/// each term and array term that was visited.
#[derive(Drop)]
pub struct Known {
    pub terms: Renumbering,
    pub arrays: Renumbering,
}

impl Known {
    /// What stands for an array term, and the array term itself where nothing does.
    pub fn array_for(&self, array: ArrayId) -> ArrayId
        ensures { result.number ≡ unwrap_or (number_for self.now.arrays array.number) array.number }
    {
        match self.arrays.get(array.number) {
            Some(number) => ArrayId { number },
            None => array,
        }
    }
}

/// The term with variables replaced, all at once: each application and each byte of an array is made again.
///
/// `bits` are pairs of a variable and the term that stands for it, `arrays` pairs of an array variable and its array
/// term. Of two pairs with one name the first counts, and each term is as wide as its variable and as every variable of
/// that name in the term. `TermTooHigh` comes exactly where a term of height 1,025 would be made, as the result or on
/// the way. Each distinct subterm is visited once.
pub fn substitute(
    terms: &mut Terms,
    term: TermId,
    bits: &[(TermId, TermId)],
    arrays: &[(ArrayId, ArrayId)],
) -> Result<TermId, TermFault>
    requires term { IsTyped (id_term terms.old term) }
    requires bits { All (Replaces terms.old) bits.now }
    requires arrays { All (ReplacesArray terms.old) arrays.now }
    requires fits { Fits (replacements terms.old bits.now arrays.now) (id_term terms.old term) }
    ensures makes { Makes terms.old terms.new id_term result (λ last. said_of (replace.substitute (replacements last bits.now arrays.now) (id_term last term))) }
    ensures term { IfOk result (λ id. IsTerm (id_term terms.new id)) }
    ensures wide { IfOk result (λ id. width_of (id_term terms.new id) ≡ width_of (id_term terms.old term)) }
{
    terms.laws();
    let mut known = match replaced_by(terms, bits, arrays) {
        Ok(known) => known,
        Err(_) => return Err(TermFault::NoMemory),
    };
    replaced(terms, term, &mut known)
}

/// The array term with variables replaced, as `substitute` does it.
pub fn substitute_array(
    terms: &mut Terms,
    array: ArrayId,
    bits: &[(TermId, TermId)],
    arrays: &[(ArrayId, ArrayId)],
) -> Result<ArrayId, TermFault>
    requires array { IsTypedArray (id_array terms.old array) }
    requires bits { All (Replaces terms.old) bits.now }
    requires arrays { All (ReplacesArray terms.old) arrays.now }
    requires fits { FitsArray (replacements terms.old bits.now arrays.now) (id_array terms.old array) }
    ensures makes { Makes terms.old terms.new id_array result (λ last. said_of (replace.substitute_array (replacements last bits.now arrays.now) (id_array last array))) }
    ensures array { IfOk result (λ id. IsArrayTerm (id_array terms.new id)) }
{
    terms.laws();
    let mut known = match replaced_by(terms, bits, arrays) {
        Ok(known) => known,
        Err(_) => return Err(TermFault::NoMemory),
    };
    replaced_array(terms, array, &mut known)
}

/// What stands for variables, before any term is visited.
fn replaced_by(
    terms: &Terms,
    bits: &[(TermId, TermId)],
    arrays: &[(ArrayId, ArrayId)],
) -> Result<Known, NoMemory>
    requires bits { All (Replaces terms.now) bits.now }
    requires arrays { All (ReplacesArray terms.now) arrays.now }
    ensures { IfOk result (λ known. Knows terms.now (replacements terms.now bits.now arrays.now) known) }
{
    terms.laws();
    let numbers = Renumbering::of_terms(terms.alloc(), bits)?;
    let array_numbers = Renumbering::of_arrays(terms.alloc(), arrays)?;
    Ok(Known {
        terms: numbers,
        arrays: array_numbers,
    })
}

/// The top of a term.
pub fn top(terms: &Terms, term: TermId) -> TermTop
    requires term { IsTyped (id_term terms.now term) }
    ensures { IsTop terms.now term.number result }
{
    terms.laws();
    match terms.node(term) {
        TermNode::Lit(_) => TermTop::Literal,
        TermNode::Var { name: _, width: _ } => TermTop::Variable,
        TermNode::App { op, args } => match args {
            [a] => TermTop::One { op, a: *a },
            [a, b] => TermTop::Two { op, a: *a, b: *b },
            [a, b, c] => TermTop::Three {
                op,
                a: *a,
                b: *b,
                c: *c,
            },
            _ => unreachable!(),
        },
        TermNode::Sel { of: _, at } => TermTop::Sel { at },
    }
}
