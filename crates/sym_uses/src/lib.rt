//! The registers that an evaluation uses are those that its trace has seen.
#![tactic(auto)]

pub mod laws;
