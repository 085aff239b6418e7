//! Plain traces: trees of events that own their terms, as they are printed and read.
#![tactic(auto)]

pub mod laws;
mod trace;

pub use trace::{FailKind, PlainEnd, PlainEvent, PlainTrace};
