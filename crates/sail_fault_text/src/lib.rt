//! What is said of a Sail text that can't be read or isn't typed: one line, with the fault's number, the file and the fault's fields.
#![tactic(auto)]

mod lines;
pub mod numbers;
mod reading;
mod typing;

pub use reading::read_fault;
pub use typing::type_fault;
