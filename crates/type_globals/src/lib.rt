//! The names of the whole text of a Sail program: those of the prelude, those that it declares, and the first that is taken.
#![tactic(auto)]

mod accesses;
mod declare;
mod define;
mod given;
mod operators;
mod program;

pub use program::globals;
