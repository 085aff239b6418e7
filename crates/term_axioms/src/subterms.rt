// The distinct subterms of terms, each behind its own parts.

ghost use Rattle.std.specs.Prelude.{◌≡◌, ◌++◌, ◌∷◌, [], map, All, OnOk, IfOk};
ghost use Rattle.term_tree.specs.Terms.{IsTyped};
ghost use Rattle.term_arena.specs.Answers.{id_term};
ghost use Rattle.term_copy.specs.Parts.{postorder, all_parts, first_ones};
ghost use Rattle.axiom_trees.specs.Listed.{IsListed};
ghost use Rattle.axiom_trees.specs.Numbered.{parts_of};
ghost use Rattle.term_axioms.specs.Listing.{trees};

use crate::places::Places;
use lex_core::NoMemory;
use term_arena::{TermId, TermNode, Terms};

/// Adds those parts of a term, and then the term itself, that aren't there. Each distinct subterm is gone through once.
fn add_parts(terms: &Terms, id: TermId, done: &mut Places) -> Result<(), NoMemory>
    requires term { IsTyped (id_term terms.now id) }
    requires listed { IsListed (trees terms.now done.old) }
    ensures added { OnOk result (trees terms.now done.new ≡ first_ones (trees terms.now done.old) (postorder (id_term terms.now id))) }
    ensures still_listed { OnOk result (IsListed (trees terms.now done.new)) }
{
    terms.laws();
    if done.contains(id) {
        return Ok(());
    }
    match terms.node(id) {
        TermNode::Lit(_) => done.add(id),
        TermNode::Var { name: _, width: _ } => done.add(id),
        TermNode::App { op: _, args } => {
            for arg in args {
                add_parts(terms, *arg, done)?;
            }
            done.add(id)
        }
        TermNode::Sel { of: _, at } => {
            add_parts(terms, at, done)?;
            done.add(id)
        }
    }
}

/// Adds the parts of terms, each with the term itself behind it, that aren't there.
fn add_all(terms: &Terms, ids: &[TermId], done: &mut Places) -> Result<(), NoMemory>
    requires terms { All (λ id. IsTyped (id_term terms.now id)) ids.now }
    requires listed { IsListed (trees terms.now done.old) }
    ensures added { OnOk result (trees terms.now done.new ≡ first_ones (trees terms.now done.old) (all_parts (map (id_term terms.now) ids.now))) }
    ensures still_listed { OnOk result (IsListed (trees terms.now done.new)) }
{
    for id in ids {
        add_parts(terms, *id, done)?;
    }
    Ok(())
}

/// The distinct subterms of facts in order and then of a goal, each behind its own parts.
pub fn subterms(terms: &Terms, facts: &[TermId], goal: TermId) -> Result<Places, NoMemory>
    requires facts { All (λ id. IsTyped (id_term terms.now id)) facts.now }
    requires goal { IsTyped (id_term terms.now goal) }
    ensures parts { IfOk result (λ p. trees terms.now p ≡ parts_of (map (id_term terms.now) facts.now) (id_term terms.now goal)) }
    ensures listed { IfOk result (λ p. IsListed (trees terms.now p)) }
{
    let mut done = Places::new(terms.alloc());
    add_all(terms, facts, &mut done)?;
    add_parts(terms, goal, &mut done)?;
    Ok(done)
}
