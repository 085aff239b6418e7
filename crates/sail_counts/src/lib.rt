//! The definitions of a Sail text so far, and how many of each kind there are.
#![tactic(auto)]

mod definitions;

pub use definitions::{Counted, Definitions, MOST_OF_A_KIND};
