//! Arrays that are interned terms, and when they are equal.
#![tactic(auto)]

pub mod laws;
mod same;

pub use same::{ArrayGoal, same_array};
