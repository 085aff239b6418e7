//! What a Sail text is: a program that types, or a text with a first fault.
#![tactic(auto)]

mod judging;
pub mod laws;

pub use judging::{Judged, judge_sail};
