//! Laws over the definitions alone, each the contract of a function that does nothing.

ghost use Rattle.std.specs.Prelude.{List};
ghost use Rattle.term_tree.specs.Terms.{Tree};
ghost use Rattle.axiom_trees.specs.Laws.{AreAsked, HasBits, GoalFollows};

/// For all values of variables and array variables there are bits in which T is true, the own bits of each subterm are its
/// value, and each axiom is true.
#[tactic(auto, using(crate::proofs::ValueLemmas::has_bits))]
pub fn each_valuation_has_bits()
    ensures { (facts : List Tree) (goal : Tree) → AreAsked facts goal → HasBits facts goal }
{}

/// Where no bits make the facts, the axioms and the opposite of the goal true, the goal is 1 for all values of variables and
/// array variables that make each fact 1.
pub fn goal_follows()
    ensures { (facts : List Tree) (goal : Tree) → AreAsked facts goal → GoalFollows facts goal }
{}
