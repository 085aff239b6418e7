//! The texts of terms and of array terms.
#![tactic(auto)]

mod divisions;
pub mod laws;
mod printing;

pub use divisions::{array_has_no_division, has_no_division};
pub use printing::{print_array, print_term, put_term};
