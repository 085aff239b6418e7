//! The typing of the Sail profile: the rules as definitions, all faults of a program and the first of them, and their laws.
#![tactic(auto)]

mod fault;
pub mod laws;
mod scope;

pub use fault::{Fault, TypeFault, Why};
pub use scope::{Ending, Entry, Item, Local, Slot, Sort, Span, Target};
