//! Devices as numbered automata: their ranges, states and transitions, and what they make of events.
#![tactic(auto)]

mod check;
mod device;
mod event;
pub mod laws;

pub use check::check_devices;
pub use device::{DevFault, DevSpec, Transition};
pub use event::next;
