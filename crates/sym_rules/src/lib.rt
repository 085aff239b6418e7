//! The trace of an opcode, as a definition: the tree of an evaluation of which only the opcode and some registers are known.
#![tactic(auto)]

pub mod laws;
mod limits;

pub use limits::EVENT_LIMIT;
