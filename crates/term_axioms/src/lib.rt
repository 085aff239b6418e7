//! The axioms of facts and a goal that are interned terms.
#![tactic(auto)]

mod arrays;
mod axioms;
mod goal;
mod numbers;
mod places;
mod subterms;

pub use axioms::Axioms;
pub use goal::{GoalFault, check_goal};
