//! Literals and numbers as text, as terms and Sail texts have them.
#![tactic(auto)]

pub mod laws;
mod printing;

pub use printing::{put_literal, put_number};
