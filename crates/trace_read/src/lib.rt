//! Traces that are read from their text.
#![tactic(auto)]

mod fault;
pub mod laws;
mod lines;
mod reading;
mod rest;
mod scope;
mod stack;
mod word_tables;
mod words;

pub use fault::TraceFault;
pub use reading::read_trace;
