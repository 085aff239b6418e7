// Whether a certificate shows that a goal follows from facts.

ghost use Rattle.std.specs.Prelude.{◌≡◌, map, All, IsOk};
ghost use Rattle.lex_core.specs.Want.{Gives};
ghost use Rattle.clause_core.specs.Derivation.{IsNumbered};
ghost use Rattle.term_tree.specs.Terms.{IsTyped, width_of};
ghost use Rattle.term_arena.specs.Answers.{id_term};
ghost use Rattle.axiom_trees.specs.Laws.{Follows};
ghost use Rattle.term_axioms.specs.Goals.{is_want, judged};

use crate::axioms::Axioms;
use clause_core::{Cert, CertFault, Marks, check_cert};
use lex_core::NoMemory;
use term_arena::{TermId, Terms};

/// Why it isn't shown that a goal follows.
#[derive(Clone, Copy, Debug, PartialEq, Eq)]
pub enum GoalFault {
    /// The certificate is refused.
    Refused(CertFault),
    /// There was no memory.
    NoMemory,
}

impl From<NoMemory> for GoalFault {
    ghost use Rattle.std.specs.Prelude.{◌≡◌};
    ghost use Rattle.term_axioms.specs.declared.goal.GoalFault.TheVariants as fault;

    ghost from_gives = { λ _ f. f ≡ fault.NoMemory };

    fn from(_: NoMemory) -> Self {
        GoalFault::NoMemory
    }
}

/// Whether a certificate shows that a goal follows from facts: where it does, the goal is 1 for all values of variables and array
/// variables that make each fact 1. Else the first fault of the certificate.
///
/// The certificate is one over the axioms of the facts and the goal, `Axioms::of`. It has fewer than 2^32 steps, and hints in each.
/// The goal is one bit wide.
pub fn check_goal(
    terms: &Terms,
    facts: &[TermId],
    goal: TermId,
    cert: &Cert,
) -> Result<(), GoalFault>
    requires facts { All (λ id. IsTyped (id_term terms.now id)) facts.now }
    requires goal { IsTyped (id_term terms.now goal) }
    requires lone { width_of (id_term terms.now goal) ≡ 1 }
    requires numbered { IsNumbered cert.now }
    ensures answer { Gives is_want (λ u. u) (judged (map (id_term terms.now) facts.now) (id_term terms.now goal) cert.now) result }
    ensures follows { IsOk result → Follows (map (id_term terms.now) facts.now) (id_term terms.now goal) }
{
    let axioms = Axioms::of(facts, goal, terms)?;
    let mut marks = Marks::for_cert(terms.alloc(), cert)?;
    match check_cert(&axioms, cert, &mut marks) {
        Ok(()) => Ok(()),
        Err(fault) => Err(GoalFault::Refused(fault)),
    }
}
