//! The words behind `trace`: an instruction word, and what is assumed of registers.
#![tactic(auto)]

mod givens;
mod opcodes;
mod traces;

pub use givens::{Given, read_given};
pub use opcodes::opcode;
pub use traces::{TraceGiven, trace};
