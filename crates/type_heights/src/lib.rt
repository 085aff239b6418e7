//! How high calls of functions are stacked.
#![tactic(auto)]

mod depths;
mod heights;

pub use depths::deepest;
pub use heights::Heights;
