//! Variables of interned terms that are replaced, all at once.
#![tactic(auto)]

mod renumbering;
mod replacing;
mod replacing_arrays;
mod substituting;

pub use substituting::{substitute, substitute_array};
