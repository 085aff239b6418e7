//! Evaluation keeps types: laws of the meaning of the Sail profile under its typing.
#![tactic(auto)]

pub mod laws;
