//! Programs of the whole Sail profile that are typed.
#![tactic(auto)]

mod typed;

pub use typed::{Typed, check};
