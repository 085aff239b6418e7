// Trees as interned terms.

ghost use Rattle.std.specs.Prelude.{◌≡◌, ◌≢◌, ◌≤◌, ◌<◌, length, Err, IfOk, OnErr};
ghost use Rattle.term_tree.specs.Terms.{two, three, upd, splice, IsTyped, IsTypedArray, IsTerm, IsArrayTerm};
ghost use Rattle.term_tree.specs.View.{tree, array_tree};
ghost use Rattle.term_arena.specs.Answers.{id_term, id_array};
ghost use Rattle.term_arena.specs.Said.{whole_term, whole_array};
ghost use Rattle.term_arena.specs.Makes.{Makes};

use bv_bits::Op;
use term_arena::{ArrayId, NewNode, TermId, Terms};
use term_tree::{ArrayTerm, Form, Term, TermFault, form_of};

/// The number of a term; its subterms get numbers too. `TermTooHigh` never comes.
pub fn intern(terms: &mut Terms, term: &Term) -> Result<TermId, TermFault>
    requires term { IsTerm (tree term.now) }
    ensures makes { Makes terms.old terms.new id_term result (λ last. whole_term (tree term.now)) }
    ensures term { IfOk result (λ id. IsTerm (id_term terms.new id)) }
    ensures low { result ≢ Err TermFault.TermTooHigh }
{
    interned(terms, term)
}

/// The number of an array term; its subterms get numbers too. `TermTooHigh` never comes.
pub fn intern_array(terms: &mut Terms, term: &ArrayTerm) -> Result<ArrayId, TermFault>
    requires array { IsArrayTerm (array_tree term.now) }
    ensures makes { Makes terms.old terms.new id_array result (λ last. whole_array (array_tree term.now)) }
    ensures array { IfOk result (λ id. IsArrayTerm (id_array terms.new id)) }
    ensures low { result ≢ Err TermFault.TermTooHigh }
{
    interned_array(terms, term)
}

/// The number of a term, parts first.
#[cycle(interning)]
fn interned(terms: &mut Terms, term: &Term) -> Result<TermId, TermFault>
    requires term { IsTerm (tree term.now) }
    ensures makes { Makes terms.old terms.new id_term result (λ last. whole_term (tree term.now)) }
    ensures term { IfOk result (λ id. IsTerm (id_term terms.new id)) }
{
    match form_of(term) {
        Form::Lit(b) => terms.add_term(NewNode::Lit(b)),
        Form::Var { name, width } => terms.add_term(NewNode::Var {
            name: name.bytes(),
            width,
        }),
        Form::One { op, a } => match interned(terms, a) {
            Ok(a) => terms.add_term(NewNode::One { op, a }),
            Err(fault) => Err(fault),
        },
        Form::Two { op, a, b } => interned_two(terms, op, a, b),
        Form::Three { op, a, b, c } => interned_three(terms, op, a, b, c),
        Form::Sel { of, at } => match interned(terms, at) {
            Ok(at) => terms.add_term(NewNode::Sel { of: of.bytes(), at }),
            Err(fault) => Err(fault),
        },
    }
}

/// The number of an operator at two arguments.
#[cycle(interning)]
fn interned_two(terms: &mut Terms, op: Op, a: &Term, b: &Term) -> Result<TermId, TermFault>
    requires term { IsTerm (two op (tree a.now) (tree b.now)) }
    ensures makes { Makes terms.old terms.new id_term result (λ last. whole_term (two op (tree a.now) (tree b.now))) }
    ensures term { IfOk result (λ id. IsTerm (id_term terms.new id)) }
{
    let x = match interned(terms, a) {
        Ok(x) => x,
        Err(fault) => return Err(fault),
    };
    match interned(terms, b) {
        Ok(y) => terms.add_term(NewNode::Two { op, a: x, b: y }),
        Err(fault) => Err(fault),
    }
}

/// The number of an operator at three arguments.
#[cycle(interning)]
fn interned_three(
    terms: &mut Terms,
    op: Op,
    a: &Term,
    b: &Term,
    c: &Term,
) -> Result<TermId, TermFault>
    requires term { IsTerm (three op (tree a.now) (tree b.now) (tree c.now)) }
    ensures makes { Makes terms.old terms.new id_term result (λ last. whole_term (three op (tree a.now) (tree b.now) (tree c.now))) }
    ensures term { IfOk result (λ id. IsTerm (id_term terms.new id)) }
{
    let x = match interned(terms, a) {
        Ok(x) => x,
        Err(fault) => return Err(fault),
    };
    let y = match interned(terms, b) {
        Ok(y) => y,
        Err(fault) => return Err(fault),
    };
    match interned(terms, c) {
        Ok(z) => terms.add_term(NewNode::Three {
            op,
            a: x,
            b: y,
            c: z,
        }),
        Err(fault) => Err(fault),
    }
}

/// The number of an array term, parts first.
#[cycle(interning_arrays)]
fn interned_array(terms: &mut Terms, term: &ArrayTerm) -> Result<ArrayId, TermFault>
    requires array { IsArrayTerm (array_tree term.now) }
    ensures makes { Makes terms.old terms.new id_array result (λ last. whole_array (array_tree term.now)) }
    ensures array { IfOk result (λ id. IsArrayTerm (id_array terms.new id)) }
{
    match term {
        ArrayTerm::Var(name) => terms.add_array(NewNode::Array { name: name.bytes() }),
        ArrayTerm::Upd { of, at, by } => interned_updated(terms, of.get(), at.get(), by.get()),
        ArrayTerm::Splice { of, below, at } => {
            interned_spliced(terms, of.get(), below.get(), at.get())
        }
    }
}

/// The number of an array but for one byte.
#[cycle(interning_arrays)]
fn interned_updated(
    terms: &mut Terms,
    of: &ArrayTerm,
    at: &Term,
    by: &Term,
) -> Result<ArrayId, TermFault>
    requires array { IsArrayTerm (upd (array_tree of.now) (tree at.now) (tree by.now)) }
    ensures makes { Makes terms.old terms.new id_array result (λ last. whole_array (upd (array_tree of.now) (tree at.now) (tree by.now))) }
    ensures array { IfOk result (λ id. IsArrayTerm (id_array terms.new id)) }
{
    let rest = match interned_array(terms, of) {
        Ok(rest) => rest,
        Err(fault) => return Err(fault),
    };
    let index = match interned(terms, at) {
        Ok(index) => index,
        Err(fault) => return Err(fault),
    };
    match interned(terms, by) {
        Ok(byte) => terms.add_array(NewNode::Upd {
            of: rest,
            at: index,
            by: byte,
        }),
        Err(fault) => Err(fault),
    }
}

/// The number of two arrays that are joined at an index.
#[cycle(interning_arrays)]
fn interned_spliced(
    terms: &mut Terms,
    of: &ArrayTerm,
    below: &ArrayTerm,
    at: &Term,
) -> Result<ArrayId, TermFault>
    requires array { IsArrayTerm (splice (array_tree of.now) (array_tree below.now) (tree at.now)) }
    ensures makes { Makes terms.old terms.new id_array result (λ last. whole_array (splice (array_tree of.now) (array_tree below.now) (tree at.now))) }
    ensures array { IfOk result (λ id. IsArrayTerm (id_array terms.new id)) }
{
    let rest = match interned_array(terms, of) {
        Ok(rest) => rest,
        Err(fault) => return Err(fault),
    };
    let low = match interned_array(terms, below) {
        Ok(low) => low,
        Err(fault) => return Err(fault),
    };
    match interned(terms, at) {
        Ok(index) => terms.add_array(NewNode::Splice {
            of: rest,
            below: low,
            at: index,
        }),
        Err(fault) => Err(fault),
    }
}
