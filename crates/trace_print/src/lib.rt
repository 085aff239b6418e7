//! Traces as text: a line for each event and each end.
#![tactic(auto)]

mod events;
mod traces;
mod words;

pub use traces::print_trace;
