//! What safe specifications and safe procedures are, and why the walk of one state tells of every state.
#![tactic(auto)]

pub mod laws;
