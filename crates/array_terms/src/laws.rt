//! Laws over the definitions alone, each the contract of a function that does nothing.

ghost use Rattle.array_terms.specs.SameArrays.{SameArraysAgree};

/// Where the goal of two arrays and a length is 1 for all values that differ from given ones at the index at most and make its fact
/// 1, the arrays agree below the length for the given values.
#[tactic(auto, using(crate::proofs::AgreeLemmas::arrays_agree))]
pub fn same_arrays()
    ensures { SameArraysAgree }
{}
