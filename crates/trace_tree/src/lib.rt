//! Traces whose events and children stand in an arena, and whose terms are numbers.
#![tactic(auto)]

mod copying;
mod counting;
pub mod laws;
mod making;
mod trace;
mod walking;

pub use copying::copy_out;
pub use counting::events_of;
pub use making::{with_children, with_end};
pub use trace::{End, Event, Trace};
pub use walking::walk;
