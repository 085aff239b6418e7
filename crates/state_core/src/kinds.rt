//! Faults, accesses, device events, and what a program does with them.

use sqlite_items::Items;

/// Why an instruction has no result.
#[derive(Clone, Copy, Debug, PartialEq, Eq)]
pub enum FaultKind {
    /// No arm of a `match` fits.
    MatchFail,
    /// The test of an `assert` is false.
    AssertFail,
    /// `exit()` was called.
    Exit,
    /// A range of addresses passes the last address, or one of its bytes isn't there.
    NoByte,
    /// A range of addresses touches a device range without lying in it.
    BadDevice,
}

/// What an access is for.
#[derive(Clone, Copy, Debug, PartialEq, Eq)]
pub enum AccessKind {
    /// The fetch of an instruction.
    Fetch,
    /// A read of memory or of a device.
    Read,
    /// A write to memory or to a device.
    Write,
}

/// An access: so many bytes from an address on.
#[derive(Clone, Copy, Debug, PartialEq, Eq)]
pub struct Access {
    pub kind: AccessKind,
    pub addr: u64,
    pub bytes: u32,
}

/// A device event: a read of a device or a write to one, with its value.
#[derive(Clone, Copy, Debug, PartialEq, Eq)]
pub struct DevEvent {
    pub write: bool,
    pub addr: u64,
    pub bytes: u32,
    /// What was read or written, below 2^(8 * bytes).
    pub value: u128,
}

/// Why an access has no result.
#[derive(Clone, Copy, Debug, PartialEq, Eq)]
pub enum MemStop {
    /// A fault of the machine.
    Fault(FaultKind),
    /// A device was read, and no answer is left.
    NoAnswer,
    /// Want of memory.
    NoMemory,
}

/// The answers of devices, each below 2^128, and the number of the next one.
#[derive(Debug, Drop)]
pub struct Answers {
    pub list: Items<u128>,
    pub next: usize,
}

/// What was done: accesses and device events, the first one first.
#[derive(Debug, Drop)]
pub struct Log {
    pub accesses: Items<Access>,
    pub events: Items<DevEvent>,
}

/// The addresses from `lo` up to below `hi`.
#[derive(Clone, Copy, Debug, PartialEq, Eq)]
pub struct Range {
    pub lo: u64,
    pub hi: u64,
}

/// The ranges of the devices; a device's number is its place in the list.
#[derive(Debug, Drop)]
pub struct DevMap {
    pub ranges: Items<Range>,
}
