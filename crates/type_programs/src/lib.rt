//! The faults of a program's types, and the first of them.
#![tactic(auto)]

mod definitions;
mod entries;
mod program;
mod vals;
mod written;

pub use program::type_fault;
