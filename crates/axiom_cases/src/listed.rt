//! Subterms, facts and a goal, one a line.

ghost use Rattle.std.specs.Prelude.{◌≡◌, true, IfOk};
ghost use Rattle.axiom_rules.specs.Axioms.{Problem};
ghost use Rattle.axiom_rules.specs.Laws.{IsProblem};

use crate::nodes::sub;
use crate::typing::{are_fine, width_at};
use axiom_clauses::Numbered;
use axiom_rules::Sub;
use case_lines::{number_32, words};
use lex_core::NoMemory;
use std::alloc::Global;

/// The subterms, facts and goal so far.
#[derive(Drop)]
pub struct Listed {
    subs: Vec<Sub>,
    facts: Vec<u32>,
    goal: u32,
}

/// Whether these are typed, and the goal is one bit wide.
#[tactic(auto, using(crate::proofs::TypedLemmas::fine_problem))]
fn is_problem(subs: &[Sub], facts: &[u32], goal: u32) -> bool
    ensures { result ≡ true → IsProblem (record { subs = subs.now; facts = facts.now; goal = goal }) }
{
    let _ = facts;
    are_fine(subs) && width_at(subs, goal) == 1
}

impl Listed {
    /// Nothing.
    pub fn new(alloc: Global) -> Listed {
        Listed {
            subs: Vec::new(alloc),
            facts: Vec::new(alloc),
            goal: 0,
        }
    }

    /// Does what a line says, and tells whether it says one of these things.
    pub fn change(&mut self, alloc: Global, what: &str, rest: &str) -> Result<bool, NoMemory> {
        if what == "terms" {
            self.subs.clear();
            self.facts.clear();
            return Ok(true);
        }
        let words = words(alloc, rest)?;
        if what == "sub" {
            let Some(sub) = sub(words.as_slice()) else {
                return Ok(false);
            };
            self.subs.push(sub)?;
            return Ok(true);
        }
        let Some(number) = number_32(rest) else {
            return Ok(false);
        };
        if what == "fact" {
            self.facts.push(number)?;
        } else {
            self.goal = number;
        }
        Ok(true)
    }

    /// The clauses of these, where they are typed.
    pub fn numbered(&self, alloc: Global) -> Result<Option<Numbered>, NoMemory> {
        let mut subs = Vec::new(alloc);
        subs.extend_from_slice(self.subs.as_slice())?;
        let mut facts = Vec::new(alloc);
        facts.extend_from_slice(self.facts.as_slice())?;
        if is_problem(subs.as_slice(), facts.as_slice(), self.goal) {
            Ok(Some(Numbered::of(subs, facts, self.goal)))
        } else {
            Ok(None)
        }
    }
}
