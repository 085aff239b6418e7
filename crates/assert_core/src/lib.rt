//! Assertions: what is said of the registers, the bytes and the devices, and of the variables in it.
#![tactic(auto)]

mod assertion;
pub mod laws;
mod sorts;

pub use assertion::{Assertion, Item, is_place};
pub use sorts::sorts_fit;
