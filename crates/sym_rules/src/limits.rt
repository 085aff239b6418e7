//! How large a trace may be.

/// How many events and ends a trace may have.
pub const EVENT_LIMIT: usize = 65_536;
