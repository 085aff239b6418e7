//! Laws over the definitions alone, each the contract of a function that does nothing.

ghost use Rattle.axiom_rules.specs.Axioms.{Problem};
ghost use Rattle.axiom_rules.specs.Laws.{IsProblem, AxiomsAreTrue, NoModelTells};

/// Whatever values variables and arrays have, there are bits in which the own bits of each subterm are its value, and all
/// axioms are true.
#[tactic(auto, using(crate::proofs::Nodes::axioms_are_true))]
pub fn axioms_are_true()
    ensures { (p : Problem) → IsProblem p → AxiomsAreTrue p }
{}

/// Where no bits make the facts, the axioms and the opposite of the goal true, the goal is 1 wherever all facts are.
#[tactic(auto, using(crate::proofs::Nodes::goal_follows))]
pub fn goal_follows()
    ensures { (p : Problem) → IsProblem p → NoModelTells p }
{}
