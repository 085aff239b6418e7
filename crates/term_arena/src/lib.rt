//! Interned terms: each distinct term and array term is kept once, and has a number.
#![tactic(auto)]

mod adding;
mod keeping;
pub mod laws;
mod names;
mod node;
mod terms;

pub use node::{ArrayId, ArrayNode, NewNode, TermId, TermNode};
pub use terms::Terms;
