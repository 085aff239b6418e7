//! Variables that are replaced by terms.
#![tactic(auto)]

mod fitting;
pub mod laws;
mod replacing;

pub use fitting::{fits, fits_array};
pub use replacing::{substitute, substitute_array};
