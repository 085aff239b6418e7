//! The names of a Sail program while it is typed: those of the whole text and locals, and the first fault so far.
#![tactic(auto)]

mod borrowed;
mod globals;
mod locals;
mod newest;
mod places;
mod told;

pub use borrowed::{FaultRef, LocalRef, SortRef, TyRef, WhyRef};
pub use globals::Globals;
pub use locals::Locals;
pub use newest::{newest_of, reset_newest, set_newest};
pub use told::say;
