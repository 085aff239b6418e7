//! Terms that are made by the rewrite rules.
#![tactic(auto)]

pub mod laws;
mod making;
mod operators;

pub use making::make;
pub use operators::{made_of_one, made_of_three, made_of_two};
