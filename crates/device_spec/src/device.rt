//! Devices and their transitions.

use lex_core::Name;
use sqlite_items::Items;
use term_tree::Term;

/// What leads a device from one state to another: a read or a write of so many bytes at an address, whose value meets the
/// condition.
#[derive(Drop)]
pub struct Transition {
    /// The state that it leaves.
    pub from: u32,
    /// Whether the event is a write; else it is a read.
    pub write: bool,
    /// The address of the event's first byte.
    pub addr: u64,
    /// How many bytes are read or written: 1, 2, 4, 8 or 16.
    pub bytes: u32,
    /// The condition, 1 bit wide, on the variable `v` for the value that is read or written; none always holds.
    pub when: Option<Term>,
    /// The state that it leads to.
    pub to: u32,
}

/// A device: an automaton over the events in its range.
#[derive(Drop)]
pub struct DevSpec {
    pub name: Name,
    /// Its first address.
    pub lo: u64,
    /// The address behind its last one.
    pub hi: u64,
    /// The number of its states, which are numbered from 0.
    pub states: u32,
    /// Its transitions, in order.
    pub transitions: Items<Transition>,
}

/// Why devices are refused.
#[derive(Debug, Clone, Copy, PartialEq, Eq)]
pub enum DevFault {
    /// A state isn't below the number of the device's states.
    BadState { q: u32 },
    /// A range is empty or shares an address with an earlier one, or a transition isn't inside its device's range.
    BadRange,
}
