// What is made of a term when its variables are replaced.

ghost use Rattle.std.specs.Prelude.{◌≡◌, None, Err, IfOk, OnOk};
ghost use Rattle.term_tree.specs.Terms.{Text, Tree, two, three, sel, IsTyped, IsTerm, IsIndex};
ghost use Rattle.term_select.specs.Selecting as spec;
ghost use Rattle.term_make.specs.Making.{asks, just};
ghost use Rattle.term_replace.specs.Replacing as replace;
ghost use Rattle.term_replace.specs.Replacing.{Replacements, Fits, replaced_array};
ghost use Rattle.term_arena.specs.Answers.{id_term};
ghost use Rattle.term_arena.specs.Said.{said_of};
ghost use Rattle.term_arena.specs.Makes.{Makes};
ghost use Rattle.arena_replace.specs.Renumbering.{number_for};
ghost use Rattle.arena_replace.specs.Substituting.{Knows};

use crate::substituting::{Known, TermTop, top};
use arena_make::{make, select};
use bv_bits::Op;
use term_arena::{NewNode, TermId, TermNode, Terms};
use term_tree::TermFault;

/// What stands for a term, which is made where it isn't known yet.
#[cycle(replacing)]
pub fn replaced(terms: &mut Terms, term: TermId, known: &mut Known) -> Result<TermId, TermFault>
    requires term { IsTyped (id_term terms.old term) }
    requires known { (by : Replacements) × Knows terms.old by known.old × Fits by (id_term terms.old term) }
    ensures makes { (by : Replacements) → Knows terms.old by known.old → Fits by (id_term terms.old term) → Makes terms.old terms.new id_term result (λ last. said_of (replace.substitute by (id_term last term))) }
    ensures known { OnOk result ((by : Replacements) → Knows terms.old by known.old → Knows terms.new by known.new) }
    ensures term { IfOk result (λ id. IsTerm (id_term terms.new id)) }
{
    if let Some(number) = known.terms.get(term.number) {
        terms.laws();
        return Ok(TermId { number });
    }
    let id = match remade(terms, term, known) {
        Ok(id) => id,
        Err(fault) => return Err(fault),
    };
    match known.terms.put(term.number, id.number) {
        Ok(()) => Ok(id),
        Err(_) => Err(TermFault::NoMemory),
    }
}

/// What is made of a term that nothing is known to stand for.
#[cycle(replacing)]
fn remade(terms: &mut Terms, term: TermId, known: &mut Known) -> Result<TermId, TermFault>
    requires term { IsTyped (id_term terms.old term) }
    requires known { (by : Replacements) × Knows terms.old by known.old × Fits by (id_term terms.old term) }
    requires new { number_for known.old.terms term.number ≡ None }
    ensures makes { (by : Replacements) → Knows terms.old by known.old → Fits by (id_term terms.old term) → Makes terms.old terms.new id_term result (λ last. said_of (replace.substitute by (id_term last term))) }
    ensures known { OnOk result ((by : Replacements) → Knows terms.old by known.old → Knows terms.new by known.new) }
    ensures term { IfOk result (λ id. IsTerm (id_term terms.new id)) }
{
    terms.laws();
    match top(terms, term) {
        TermTop::Literal => Ok(term),
        TermTop::Variable => Ok(term),
        TermTop::One { op, a } => match replaced(terms, a, known) {
            Ok(a) => make(terms, op, &[a]),
            Err(fault) => Err(fault),
        },
        TermTop::Two { op, a, b } => remade_two(terms, op, a, b, known),
        TermTop::Three { op, a, b, c } => remade_three(terms, op, a, b, c, known),
        TermTop::Sel { at } => match replaced(terms, at, known) {
            Ok(at) => byte_of(terms, term, at, known),
            Err(fault) => Err(fault),
        },
    }
}

/// What is made of an operator at two arguments.
#[cycle(replacing)]
fn remade_two(
    terms: &mut Terms,
    op: Op,
    a: TermId,
    b: TermId,
    known: &mut Known,
) -> Result<TermId, TermFault>
    requires typed { IsTyped (two op (id_term terms.old a) (id_term terms.old b)) }
    requires known { (by : Replacements) × Knows terms.old by known.old × Fits by (two op (id_term terms.old a) (id_term terms.old b)) }
    ensures makes { (by : Replacements) → Knows terms.old by known.old → Fits by (two op (id_term terms.old a) (id_term terms.old b)) → Makes terms.old terms.new id_term result (λ last. said_of (replace.substitute by (two op (id_term last a) (id_term last b)))) }
    ensures known { OnOk result ((by : Replacements) → Knows terms.old by known.old → Knows terms.new by known.new) }
    ensures term { IfOk result (λ id. IsTerm (id_term terms.new id)) }
{
    let x = match replaced(terms, a, known) {
        Ok(x) => x,
        Err(fault) => return Err(fault),
    };
    match replaced(terms, b, known) {
        Ok(y) => make(terms, op, &[x, y]),
        Err(fault) => Err(fault),
    }
}

/// What is made of an operator at three arguments.
#[cycle(replacing)]
fn remade_three(
    terms: &mut Terms,
    op: Op,
    a: TermId,
    b: TermId,
    c: TermId,
    known: &mut Known,
) -> Result<TermId, TermFault>
    requires typed { IsTyped (three op (id_term terms.old a) (id_term terms.old b) (id_term terms.old c)) }
    requires known { (by : Replacements) × Knows terms.old by known.old × Fits by (three op (id_term terms.old a) (id_term terms.old b) (id_term terms.old c)) }
    ensures makes { (by : Replacements) → Knows terms.old by known.old → Fits by (three op (id_term terms.old a) (id_term terms.old b) (id_term terms.old c)) → Makes terms.old terms.new id_term result (λ last. said_of (replace.substitute by (three op (id_term last a) (id_term last b) (id_term last c)))) }
    ensures known { OnOk result ((by : Replacements) → Knows terms.old by known.old → Knows terms.new by known.new) }
    ensures term { IfOk result (λ id. IsTerm (id_term terms.new id)) }
{
    let x = match replaced(terms, a, known) {
        Ok(x) => x,
        Err(fault) => return Err(fault),
    };
    let y = match replaced(terms, b, known) {
        Ok(y) => y,
        Err(fault) => return Err(fault),
    };
    match replaced(terms, c, known) {
        Ok(z) => make(terms, op, &[x, y, z]),
        Err(fault) => Err(fault),
    }
}

/// The byte at an index of what stands for the array variable of which a term is a byte.
fn byte_of(terms: &mut Terms, byte: TermId, at: TermId, known: &Known) -> Result<TermId, TermFault>
    requires byte { IsTyped (id_term terms.old byte) }
    requires is { (f : Text) × (i : Tree) × (id_term terms.old byte ≡ sel f i) }
    requires index { IsIndex (id_term terms.old at) }
    requires known { (by : Replacements) × Knows terms.old by known.now }
    ensures makes { (by : Replacements) (f : Text) (i : Tree) → Knows terms.old by known.now → id_term terms.old byte ≡ sel f i → Makes terms.old terms.new id_term result (λ last. said_of (spec.select (replaced_array by f) (id_term last at))) }
    ensures term { IfOk result (λ id. IsTerm (id_term terms.new id)) }
{
    terms.laws();
    match terms.array_of_byte(byte) {
        Some(array) => {
            let of = known.array_for(array);
            select(terms, of, at)
        }
        None => plain_byte(terms, byte, at),
    }
}

/// The byte at another index of the array variable of which a term is a byte.
fn plain_byte(terms: &mut Terms, byte: TermId, at: TermId) -> Result<TermId, TermFault>
    requires byte { IsTyped (id_term terms.old byte) }
    requires is { (f : Text) × (i : Tree) × (id_term terms.old byte ≡ sel f i) }
    requires index { IsIndex (id_term terms.old at) }
    ensures makes { (f : Text) (i : Tree) → id_term terms.old byte ≡ sel f i → Makes terms.old terms.new id_term result (λ last. said_of (asks (sel f (id_term last at)) (just (sel f (id_term last at))))) }
    ensures term { IfOk result (λ id. IsTerm (id_term terms.new id)) }
{
    terms.laws();
    let name = match terms.node(byte) {
        TermNode::Sel { of, at: _ } => of.copy(terms.alloc()),
        _ => unreachable!(),
    };
    match name {
        Ok(name) => terms.add_term(NewNode::Sel {
            of: name.bytes(),
            at,
        }),
        Err(_) => Err(TermFault::NoMemory),
    }
}
