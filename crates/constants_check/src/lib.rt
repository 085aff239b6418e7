//! What is said of three texts: the verdict, and its laws.
#![tactic(auto)]

mod judging;
pub mod laws;

pub use judging::judge;
