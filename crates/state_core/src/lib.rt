//! The state of the machine: registers, bytes by address, answers of devices, and what was done.
#![tactic(auto)]

mod bytes;
mod kinds;
pub mod laws;
pub mod memory;
mod state;
mod word;

pub use kinds::{Access, AccessKind, Answers, DevEvent, DevMap, FaultKind, Log, MemStop, Range};
pub use state::State;
pub use word::Word;
