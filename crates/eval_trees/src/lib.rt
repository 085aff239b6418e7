//! The evaluator over trees: what expressions and calls mean, as code.
#![tactic(auto)]

mod setting;
mod trees;

pub use setting::Setting;
pub use trees::{call_thing, eval};
