// Interned terms as trees.

ghost use Rattle.std.specs.Prelude.{◌≡◌, ◌≤◌, ◌<◌, length, IfOk};
ghost use Rattle.term_tree.specs.Terms.{IsTyped, IsTerm};
ghost use Rattle.term_tree.specs.View.{tree};
ghost use Rattle.term_arena.specs.Answers.{id_term};

use lex_core::NoMemory;
use sqlite_items::Boxed;
use term_arena::{TermId, TermNode, Terms};
use term_tree::{Term, list_of_one, list_of_three, list_of_two};

/// The term of a number, as a tree.
pub fn tree_of(terms: &Terms, id: TermId) -> Result<Term, NoMemory>
    requires id { IsTyped (id_term terms.now id) }
    ensures tree { IfOk result (λ t. tree t ≡ id_term terms.now id) }
    ensures term { IfOk result (λ t. IsTerm (tree t)) }
{
    terms.laws();
    let term = tree_at(terms, id)?;
    Ok(term)
}

/// The tree of a number.
fn tree_at(terms: &Terms, id: TermId) -> Result<Term, NoMemory>
    requires id { IsTyped (id_term terms.now id) }
    ensures tree { IfOk result (λ t. tree t ≡ id_term terms.now id) }
{
    terms.laws();
    let alloc = terms.alloc();
    match terms.node(id) {
        TermNode::Lit(b) => Ok(Term::Lit(b)),
        TermNode::Var { name, width } => Ok(Term::Var {
            name: name.copy(alloc)?,
            width,
        }),
        TermNode::App { op, args } => match args {
            [a] => {
                let a = tree_at(terms, *a)?;
                let args = list_of_one(alloc, a)?;
                Ok(Term::App { op, args })
            }
            [a, b] => {
                let a = tree_at(terms, *a)?;
                let b = tree_at(terms, *b)?;
                let args = list_of_two(alloc, a, b)?;
                Ok(Term::App { op, args })
            }
            [a, b, c] => {
                let a = tree_at(terms, *a)?;
                let b = tree_at(terms, *b)?;
                let c = tree_at(terms, *c)?;
                let args = list_of_three(alloc, a, b, c)?;
                Ok(Term::App { op, args })
            }
            _ => unreachable!(),
        },
        TermNode::Sel { of, at } => {
            let of = of.copy(alloc)?;
            let index = tree_at(terms, at)?;
            let at = Boxed::new(alloc, index)?;
            Ok(Term::Sel { of, at })
        }
    }
}
