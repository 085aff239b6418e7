//! What is printed of a program of the Sail profile is read back as that program, but for its places: laws over the definitions of printing and of reading.
#![tactic(auto)]

pub mod laws;
