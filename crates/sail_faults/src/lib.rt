//! Laws of the faults of Sail texts, in the grammar's words.
#![tactic(auto)]

pub mod laws;
