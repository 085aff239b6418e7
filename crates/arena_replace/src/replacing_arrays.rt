// What is made of an array term when its variables are replaced.

ghost use Rattle.std.specs.Prelude.{◌≡◌, None, Err, IfOk, OnOk};
ghost use Rattle.term_tree.specs.Terms.{upd, splice, IsTypedArray, IsArrayTerm};
ghost use Rattle.term_replace.specs.Replacing as replace;
ghost use Rattle.term_replace.specs.Replacing.{Replacements, FitsArray};
ghost use Rattle.term_arena.specs.Answers.{id_term, id_array};
ghost use Rattle.term_arena.specs.Said.{said_of};
ghost use Rattle.term_arena.specs.Makes.{Makes};
ghost use Rattle.arena_replace.specs.Renumbering.{number_for};
ghost use Rattle.arena_replace.specs.Substituting.{Knows};

use crate::replacing::replaced;
use crate::substituting::Known;
use arena_make::{join, update};
use term_arena::{ArrayId, ArrayNode, TermId, Terms};
use term_tree::TermFault;

/// What stands for an array term, which is made where it isn't known yet.
#[cycle(replacing_arrays)]
pub fn replaced_array(
    terms: &mut Terms,
    array: ArrayId,
    known: &mut Known,
) -> Result<ArrayId, TermFault>
    requires array { IsTypedArray (id_array terms.old array) }
    requires known { (by : Replacements) × Knows terms.old by known.old × FitsArray by (id_array terms.old array) }
    ensures makes { (by : Replacements) → Knows terms.old by known.old → FitsArray by (id_array terms.old array) → Makes terms.old terms.new id_array result (λ last. said_of (replace.substitute_array by (id_array last array))) }
    ensures known { OnOk result ((by : Replacements) → Knows terms.old by known.old → Knows terms.new by known.new) }
    ensures array { IfOk result (λ id. IsArrayTerm (id_array terms.new id)) }
{
    if let Some(number) = known.arrays.get(array.number) {
        terms.laws();
        return Ok(ArrayId { number });
    }
    let id = match remade_array(terms, array, known) {
        Ok(id) => id,
        Err(fault) => return Err(fault),
    };
    match known.arrays.put(array.number, id.number) {
        Ok(()) => Ok(id),
        Err(_) => Err(TermFault::NoMemory),
    }
}

/// What is made of an array term that nothing is known to stand for.
#[cycle(replacing_arrays)]
fn remade_array(terms: &mut Terms, array: ArrayId, known: &mut Known) -> Result<ArrayId, TermFault>
    requires array { IsTypedArray (id_array terms.old array) }
    requires known { (by : Replacements) × Knows terms.old by known.old × FitsArray by (id_array terms.old array) }
    requires new { number_for known.old.arrays array.number ≡ None }
    ensures makes { (by : Replacements) → Knows terms.old by known.old → FitsArray by (id_array terms.old array) → Makes terms.old terms.new id_array result (λ last. said_of (replace.substitute_array by (id_array last array))) }
    ensures known { OnOk result ((by : Replacements) → Knows terms.old by known.old → Knows terms.new by known.new) }
    ensures array { IfOk result (λ id. IsArrayTerm (id_array terms.new id)) }
{
    terms.laws();
    match terms.array_node(array) {
        ArrayNode::Var => Ok(array),
        ArrayNode::Upd { of, at, by } => remade_updated(terms, of, at, by, known),
        ArrayNode::Splice { of, below, at } => remade_spliced(terms, of, below, at, known),
    }
}

/// What is made of an array but for one byte.
#[cycle(replacing_arrays)]
fn remade_updated(
    terms: &mut Terms,
    of: ArrayId,
    at: TermId,
    byte: TermId,
    known: &mut Known,
) -> Result<ArrayId, TermFault>
    requires array { IsTypedArray (upd (id_array terms.old of) (id_term terms.old at) (id_term terms.old byte)) }
    requires known { (by : Replacements) × Knows terms.old by known.old × FitsArray by (upd (id_array terms.old of) (id_term terms.old at) (id_term terms.old byte)) }
    ensures makes { (by : Replacements) → Knows terms.old by known.old → FitsArray by (upd (id_array terms.old of) (id_term terms.old at) (id_term terms.old byte)) → Makes terms.old terms.new id_array result (λ last. said_of (replace.substitute_array by (upd (id_array last of) (id_term last at) (id_term last byte)))) }
    ensures known { OnOk result ((by : Replacements) → Knows terms.old by known.old → Knows terms.new by known.new) }
    ensures array { IfOk result (λ id. IsArrayTerm (id_array terms.new id)) }
{
    let rest = match replaced_array(terms, of, known) {
        Ok(rest) => rest,
        Err(fault) => return Err(fault),
    };
    let index = match replaced(terms, at, known) {
        Ok(index) => index,
        Err(fault) => return Err(fault),
    };
    match replaced(terms, byte, known) {
        Ok(value) => update(terms, rest, index, value),
        Err(fault) => Err(fault),
    }
}

/// What is made of two arrays that are joined at an index.
#[cycle(replacing_arrays)]
fn remade_spliced(
    terms: &mut Terms,
    of: ArrayId,
    below: ArrayId,
    at: TermId,
    known: &mut Known,
) -> Result<ArrayId, TermFault>
    requires array { IsTypedArray (splice (id_array terms.old of) (id_array terms.old below) (id_term terms.old at)) }
    requires known { (by : Replacements) × Knows terms.old by known.old × FitsArray by (splice (id_array terms.old of) (id_array terms.old below) (id_term terms.old at)) }
    ensures makes { (by : Replacements) → Knows terms.old by known.old → FitsArray by (splice (id_array terms.old of) (id_array terms.old below) (id_term terms.old at)) → Makes terms.old terms.new id_array result (λ last. said_of (replace.substitute_array by (splice (id_array last of) (id_array last below) (id_term last at)))) }
    ensures known { OnOk result ((by : Replacements) → Knows terms.old by known.old → Knows terms.new by known.new) }
    ensures array { IfOk result (λ id. IsArrayTerm (id_array terms.new id)) }
{
    let rest = match replaced_array(terms, of, known) {
        Ok(rest) => rest,
        Err(fault) => return Err(fault),
    };
    let low = match replaced_array(terms, below, known) {
        Ok(low) => low,
        Err(fault) => return Err(fault),
    };
    match replaced(terms, at, known) {
        Ok(index) => join(terms, rest, low, index),
        Err(fault) => Err(fault),
    }
}
