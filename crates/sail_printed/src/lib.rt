//! What is printed of a program of the Sail profile spells that program, but for its places.
#![tactic(auto)]

pub mod laws;
