// The axioms of facts and a goal.

ghost use Rattle.std.specs.Prelude.{◌≡◌, map, All, IfOk};
ghost use Rattle.term_tree.specs.Terms.{IsTyped, width_of};
ghost use Rattle.term_arena.specs.Answers.{id_term};
ghost use Rattle.axiom_trees.specs.Numbered.{problem_of};

use crate::numbers::{number, numbers, subs};
use crate::subterms::subterms;
use axiom_clauses::Numbered;
use clause_core::{Clauses, Hint, Lit};
use lex_core::NoMemory;
use std::marker::Model;
use term_arena::{TermId, Terms};

/// The axioms of facts and a goal, which contracts see as their subterms with numbers, and the numbers of the facts and of the
/// goal.
///
/// As clauses: the truth is 1, the goal is 0, each fact is 1, and the axioms of the subterms. `length` and `literal` take no
/// memory, and find a clause by its name without a search.
#[derive(Drop)]
pub struct Axioms {
    numbered: Numbered,
}

impl Model for Axioms {
    ghost use Rattle.axiom_rules.specs.Axioms.{Problem};

    ghost Value = { Problem };

    ghost view = { λ a. a.numbered };
}

impl Axioms {
    /// The axioms of facts and a goal. The goal is one bit wide. Each distinct subterm is gone through once.
    pub fn of(facts: &[TermId], goal: TermId, terms: &Terms) -> Result<Axioms, NoMemory>
        requires facts { All (λ id. IsTyped (id_term terms.now id)) facts.now }
        requires goal { IsTyped (id_term terms.now goal) }
        requires lone { width_of (id_term terms.now goal) ≡ 1 }
        ensures { IfOk result (λ a. a ≡ problem_of (map (id_term terms.now) facts.now) (id_term terms.now goal)) }
    {
        let places = subterms(terms, facts, goal)?;
        let subs = subs(terms, &places)?;
        let facts = numbers(terms, &places, facts)?;
        let goal = number(terms, &places, goal);
        Ok(Axioms {
            numbered: Numbered::of(subs, facts, goal),
        })
    }
}

impl Clauses for Axioms {
    ghost use Rattle.std.specs.Prelude.{refl};
    ghost use Rattle.axiom_rules.specs.Axioms.{clause_in};

    ghost clause = { λ p name. clause_in p name };

    fn length(&self, name: Hint) -> Option<u32> {
        self.numbered.length(name)
    }

    fn literal(&self, name: Hint, index: u32) -> Option<Lit> {
        self.numbered.literal(name, index)
    }

    ghost no_steps = { λ p n. refl };
}
