//! The evaluator of the whole Sail profile: calls of a program's functions, and what an instruction's word does.
#![tactic(auto)]

mod run;

pub use run::{call, execute, outcome_of};
