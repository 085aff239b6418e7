//! Evaluation follows the trace: the law that puts traces on the meaning of a text.
#![tactic(auto)]

pub mod laws;
