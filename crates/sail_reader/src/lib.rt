//! Reads a Sail text.
//!
//! The text is cut into tokens, each token is a word of the grammar, and a machine takes the words one after the other: a stack
//! says what is open, a mode what comes next. No function calls itself, so depth costs no host stack.
#![tactic(auto)]

mod fault;
pub mod laws;
mod reader;
mod step;

pub use fault::SailFault;
pub use reader::read;
