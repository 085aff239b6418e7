//! What the traces of opcodes are made of, and that what follows a trace keeps states valid.
#![tactic(auto)]

pub mod laws;
