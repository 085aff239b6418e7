//! Bytes that are selected of array terms.
#![tactic(auto)]

pub mod laws;
mod selecting;

pub use selecting::{byte_of_variable, select};
