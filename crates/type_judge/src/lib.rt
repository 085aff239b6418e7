//! The type of an expression of the Sail profile, and the first of its faults.
#![tactic(auto)]

mod typing;

pub use typing::judge;
