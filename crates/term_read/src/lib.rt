//! Terms and array terms that are read from the tokens of a text.
#![tactic(auto)]

mod array_reading;
pub mod laws;
mod reading;
mod term_reading;

pub use reading::{ArrayAt, TermAt, TermReadFault, read_array, read_term};
