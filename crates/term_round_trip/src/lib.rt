//! What is printed of a term is read back as that term: laws over the definitions of printing and of reading.
#![tactic(auto)]

pub mod laws;
