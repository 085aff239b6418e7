//! Copies of terms, and the distinct parts of terms.
#![tactic(auto)]

mod copies;
mod parts;

pub use copies::{copy, copy_array};
pub use parts::subterms;
