//! The words of the command line, parsed by `clap`.
#![tactic(auto)]

mod commands;
mod declared;
mod words;

pub use commands::{CommandGiven, command, row};
pub use words::spelled;
