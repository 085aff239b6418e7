//! What the names of a Sail program stand for where it is evaluated, found in logarithmic time.
#![tactic(auto)]

mod definitions;
mod map;
mod prelude;
mod things;

pub use definitions::names_of;
pub use map::thing_of;
pub use things::{Given, Named, Thing};
