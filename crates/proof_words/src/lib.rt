//! The tokens of a proof file that are left to read, and what is taken from their front.
#![tactic(auto)]

mod rest;

pub use rest::{Rest, Stop, is_word};
