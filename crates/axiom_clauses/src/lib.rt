//! The axioms of a list of subterms, of facts and of a goal, as clauses that have names.
#![tactic(auto)]

ghost use Rattle.std.specs.Prelude.{◌≡◌, ◌∷◌, [], slice_get};
ghost use Rattle.axiom_rules.specs.Axioms.{Problem};
ghost use Rattle.axiom_rules.specs.Laws.{IsProblem};

use axiom_parts::{bit_of, opposite, part_at, part_length, part_literal};
use axiom_rules::Sub;
use clause_core::{BitName, Clauses, Hint, Lit};
use std::marker::Model;

/// Subterms, and facts and a goal by the numbers of their subterms, which contracts see as a problem: each subterm is typed,
/// and the goal is one bit wide.
///
/// As clauses: the truth is 1, the goal is 0, each fact is 1, and the axioms of the subterms. A clause is found by its name in
/// constant time, but for the power of two in a shift, and no memory is taken.
#[derive(Drop)]
pub struct Numbered {
    subs: Vec<Sub>,
    facts: Vec<u32>,
    goal: u32,
}

impl Model for Numbered {
    ghost use Rattle.axiom_rules.specs.Axioms.{Problem};
    ghost use Rattle.axiom_rules.specs.Laws.{IsProblem};

    ghost Value = { Problem };

    ghost view = { λ n. record { subs = n.subs.items; facts = n.facts.items; goal = n.goal } };

    ghost invariant = { λ n. IsProblem (record { subs = n.subs.items; facts = n.facts.items; goal = n.goal }) };
}

impl Numbered {
    /// The problem of these subterms, facts and goal.
    pub fn of(subs: Vec<Sub>, facts: Vec<u32>, goal: u32) -> Numbered
        requires { IsProblem (record { subs = subs.items; facts = facts.items; goal = goal }) }
        ensures { result ≡ record { subs = subs.items; facts = facts.items; goal = goal } }
    {
        Numbered { subs, facts, goal }
    }

    /// The subterms.
    pub fn subs(&self) -> &[Sub]
        ensures subs { result.now ≡ self.now.subs }
    {
        self.subs.as_slice()
    }
}

impl Clauses for Numbered {
    ghost use Rattle.std.specs.Prelude.{refl};
    ghost use Rattle.axiom_rules.specs.Axioms.{clause_in};

    ghost clause = { λ p name. clause_in p name };

    fn length(&self, name: Hint) -> Option<u32> {
        match name {
            Hint::Truth => Some(1),
            Hint::Goal => Some(1),
            Hint::Fact(number) => match self.facts.get(number as usize) {
                Some(_) => Some(1),
                None => None,
            },
            Hint::Step(_) => None,
            Hint::Axiom {
                term,
                part,
                bit,
                row,
            } => {
                let part = part_at(self.subs.as_slice(), term, part, bit)?;
                part_length(part, row)
            }
        }
    }

    fn literal(&self, name: Hint, index: u32) -> Option<Lit> {
        match name {
            Hint::Truth => alone(
                Lit {
                    on: true,
                    of: BitName::Truth,
                },
                index,
            ),
            Hint::Goal => alone(opposite(bit_of(self.goal, 0, 0)), index),
            Hint::Fact(number) => {
                let fact = *self.facts.get(number as usize)?;
                alone(bit_of(fact, 0, 0), index)
            }
            Hint::Step(_) => None,
            Hint::Axiom {
                term,
                part,
                bit,
                row,
            } => {
                let part = part_at(self.subs.as_slice(), term, part, bit)?;
                part_literal(part, row, index)
            }
        }
    }

    ghost no_steps = { λ p n. refl };
}

/// A literal of the clause of one literal.
fn alone(p: Lit, index: u32) -> Option<Lit>
    ensures { result ≡ slice_get (p ∷ []) index }
{
    if index == 0 { Some(p) } else { None }
}
