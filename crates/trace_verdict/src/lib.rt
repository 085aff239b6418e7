//! What is said of a Sail text where the words of a trace name it.
#![tactic(auto)]

mod judging;
pub mod laws;

pub use judging::judge_trace;
