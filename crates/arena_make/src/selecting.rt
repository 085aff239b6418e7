// Bytes of array terms, and array terms with one byte changed, on numbers.

ghost use Rattle.std.specs.Prelude.{◌≡◌, ◌≢◌, ◌≤◌, ◌<◌, ◌++◌, ◌⊎◌, [], ◌∷◌, length, Err, IfOk, OnErr};
ghost use Rattle.term_tree.specs.Terms.{upd, splice, IsTyped, IsTypedArray, IsTerm, IsArrayTerm, IsIndex, width_of};
ghost use Rattle.term_select.specs.Selecting as spec;
ghost use Rattle.term_replace.specs.Replacing as replace;
ghost use Rattle.term_arena.specs.Nodes.{as_array, meaning_by, meanings_of, Keeps};
ghost use Rattle.term_arena.specs.Arena.{asked_node};
ghost use Rattle.term_arena.specs.Keeping.{HasArray};
ghost use Rattle.term_arena.specs.Answers.{id_term, id_array};
ghost use Rattle.term_arena.specs.Said.{said_of, sole};
ghost use Rattle.term_arena.specs.Makes.{Makes};

use crate::making::make;
use bv_bits::Op;
use term_arena::{ArrayId, ArrayNode, NewNode, TermId, Terms};
use term_tree::TermFault;

/// The byte of an array term at an index, made: of an array variable it is the byte itself; of an array but for one
/// byte, the choice between that byte, where the indices are equal, and the byte of the rest; of two arrays that are
/// joined at an index, the choice between their bytes.
///
/// The index is 64 bits wide. `TermTooHigh` comes exactly where a term of height 1,025 would be made, as the result or
/// on the way.
#[cycle(selecting)]
pub fn select(terms: &mut Terms, of: ArrayId, at: TermId) -> Result<TermId, TermFault>
    requires array { IsTypedArray (id_array terms.old of) }
    requires index { IsIndex (id_term terms.old at) }
    ensures makes { Makes terms.old terms.new id_term result (λ last. said_of (spec.select (id_array last of) (id_term last at))) }
    ensures term { IfOk result (λ id. IsTerm (id_term terms.new id)) }
    ensures wide { IfOk result (λ id. width_of (id_term terms.new id) ≡ 8) }
{
    terms.laws();
    match terms.array_node(of) {
        ArrayNode::Var => terms.add_term(NewNode::SelOf { of, at }),
        ArrayNode::Upd {
            of: rest,
            at: place,
            by,
        } => select_updated(terms, rest, place, by, at),
        ArrayNode::Splice {
            of: rest,
            below,
            at: place,
        } => select_spliced(terms, rest, below, place, at),
    }
}

/// The byte of an array but for one byte.
#[cycle(selecting)]
fn select_updated(
    terms: &mut Terms,
    rest: ArrayId,
    place: TermId,
    by: TermId,
    at: TermId,
) -> Result<TermId, TermFault>
    requires array { IsTypedArray (upd (id_array terms.old rest) (id_term terms.old place) (id_term terms.old by)) }
    requires index { IsIndex (id_term terms.old at) }
    ensures makes { Makes terms.old terms.new id_term result (λ last. said_of (spec.select (upd (id_array last rest) (id_term last place) (id_term last by)) (id_term last at))) }
    ensures term { IfOk result (λ id. IsTerm (id_term terms.new id)) }
{
    let same = match make(terms, Op::Eq, &[at, place]) {
        Ok(same) => same,
        Err(fault) => return Err(fault),
    };
    let other = match select(terms, rest, at) {
        Ok(other) => other,
        Err(fault) => return Err(fault),
    };
    make(terms, Op::Ite, &[same, by, other])
}

/// The byte of two arrays that are joined at an index.
#[cycle(selecting)]
fn select_spliced(
    terms: &mut Terms,
    rest: ArrayId,
    below: ArrayId,
    place: TermId,
    at: TermId,
) -> Result<TermId, TermFault>
    requires array { IsTypedArray (splice (id_array terms.old rest) (id_array terms.old below) (id_term terms.old place)) }
    requires index { IsIndex (id_term terms.old at) }
    ensures makes { Makes terms.old terms.new id_term result (λ last. said_of (spec.select (splice (id_array last rest) (id_array last below) (id_term last place)) (id_term last at))) }
    ensures term { IfOk result (λ id. IsTerm (id_term terms.new id)) }
{
    let low = match make(terms, Op::ULt, &[at, place]) {
        Ok(low) => low,
        Err(fault) => return Err(fault),
    };
    let one = match select(terms, below, at) {
        Ok(one) => one,
        Err(fault) => return Err(fault),
    };
    let other = match select(terms, rest, at) {
        Ok(other) => other,
        Err(fault) => return Err(fault),
    };
    make(terms, Op::Ite, &[low, one, other])
}

/// The array term that is another one, but for the byte at an index.
///
/// The index is 64 bits wide, and the byte is 8 bits wide. `TermTooHigh` comes exactly where the array term would be
/// 1,025 high. After a refusal the list of nodes is as before.
pub fn update(terms: &mut Terms, of: ArrayId, at: TermId, by: TermId) -> Result<ArrayId, TermFault>
    requires array { IsTypedArray (id_array terms.old of) }
    requires index { IsIndex (id_term terms.old at) }
    requires byte { (width_of (id_term terms.old by) ≡ 8) × IsTyped (id_term terms.old by) }
    ensures makes { Makes terms.old terms.new id_array result (λ last. said_of (replace.update (id_array last of) (id_term last at) (id_term last by))) }
    ensures array { IfOk result (λ id. IsArrayTerm (id_array terms.new id)) }
    ensures err { OnErr result (terms.new ≡ terms.old) }
{
    terms.add_array(NewNode::Upd { of, at, by })
}

/// The first array term from an index on, and the second one below it.
///
/// The index is 64 bits wide. `TermTooHigh` comes exactly where the array term would be 1,025 high. After a refusal the
/// list of nodes is as before.
pub fn join(
    terms: &mut Terms,
    of: ArrayId,
    below: ArrayId,
    at: TermId,
) -> Result<ArrayId, TermFault>
    requires array { IsTypedArray (id_array terms.old of) }
    requires low_array { IsTypedArray (id_array terms.old below) }
    requires index { IsIndex (id_term terms.old at) }
    ensures makes { Makes terms.old terms.new id_array result (λ last. said_of (replace.join_at (id_array last of) (id_array last below) (id_term last at))) }
    ensures array { IfOk result (λ id. IsArrayTerm (id_array terms.new id)) }
    ensures err { OnErr result (terms.new ≡ terms.old) }
{
    terms.add_array(NewNode::Splice { of, below, at })
}
