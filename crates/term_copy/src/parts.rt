//! The distinct parts of terms, in order.

ghost use Rattle.std.specs.Prelude.{◌≡◌, ◌∷◌, [], map, All, IfOk};
ghost use Rattle.term_tree.specs.Terms.{IsTerm};
ghost use Rattle.term_copy.specs.Parts.{postorder, is_among, first_ones, subterms_of};
ghost use Rattle.term_tree.specs.View.{tree};

use crate::copies::copy;
use lex_core::NoMemory;
use std::alloc::Global;
use term_tree::{Form, Term, form_of, same};

/// The distinct subterms of terms, each behind its own parts, and where it stands first.
///
/// Each term is typed and at most 1,024 high. The time is in proportion to the number of subterms, times the size of the
/// distinct ones.
pub fn subterms(alloc: Global, terms: &[Term]) -> Result<Vec<Term>, NoMemory>
    requires terms { All (λ t. IsTerm (tree t)) terms.now }
    ensures exactly { IfOk result (λ list. map tree list.items ≡ subterms_of (map tree terms.now)) }
    ensures terms { IfOk result (λ list. All (λ t. IsTerm (tree t)) list.items) }
{
    let mut done = Vec::new(alloc);
    for term in terms {
        add_parts(alloc, term, &mut done)?;
    }
    Ok(done)
}

/// Adds those parts of a term, and then the term itself, that are not in the list.
fn add_parts(alloc: Global, term: &Term, done: &mut Vec<Term>) -> Result<(), NoMemory>
    requires term { IsTerm (tree term.now) }
    requires done_terms { All (λ t. IsTerm (tree t)) done.old.items }
    ensures added { IfOk result (λ _. map tree done.new.items ≡ first_ones (map tree done.old.items) (postorder (tree term.now))) }
    ensures still_terms { IfOk result (λ _. All (λ t. IsTerm (tree t)) done.new.items) }
{
    match form_of(term) {
        Form::Lit(_) => add(alloc, term, done),
        Form::Var { name: _, width: _ } => add(alloc, term, done),
        Form::One { op: _, a } => {
            add_parts(alloc, a, done)?;
            add(alloc, term, done)
        }
        Form::Two { op: _, a, b } => {
            add_parts(alloc, a, done)?;
            add_parts(alloc, b, done)?;
            add(alloc, term, done)
        }
        Form::Three { op: _, a, b, c } => {
            add_parts(alloc, a, done)?;
            add_parts(alloc, b, done)?;
            add_parts(alloc, c, done)?;
            add(alloc, term, done)
        }
        Form::Sel { of: _, at } => {
            add_parts(alloc, at, done)?;
            add(alloc, term, done)
        }
    }
}

/// Adds a term that is not in the list.
fn add(alloc: Global, term: &Term, done: &mut Vec<Term>) -> Result<(), NoMemory>
    requires term { IsTerm (tree term.now) }
    requires done_terms { All (λ t. IsTerm (tree t)) done.old.items }
    ensures added { IfOk result (λ _. map tree done.new.items ≡ first_ones (map tree done.old.items) (tree term.now ∷ [])) }
    ensures still_terms { IfOk result (λ _. All (λ t. IsTerm (tree t)) done.new.items) }
{
    if is_listed(term, done.as_slice()) {
        return Ok(());
    }
    done.push(copy(alloc, term)?)?;
    Ok(())
}

/// Whether a term is in a list.
fn is_listed(term: &Term, done: &[Term]) -> bool
    requires term { IsTerm (tree term.now) }
    requires done_terms { All (λ t. IsTerm (tree t)) done.now }
    ensures listed { result ≡ is_among (tree term.now) (map tree done.now) }
{
    for other in done {
        if same(term, other) {
            return true;
        }
    }
    false
}
