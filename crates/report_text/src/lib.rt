//! What the layers of a check say to one another: how a call ends, the numbers that are printed, and the names of the files.
#![tactic(auto)]

mod names;
pub mod numbers;
mod outcome;

pub use names::Names;
pub use outcome::{Outcome, Status};
