//! What is printed of a trace is read back as that trace: laws over the definitions of printing and of reading.
#![tactic(auto)]

pub mod laws;
