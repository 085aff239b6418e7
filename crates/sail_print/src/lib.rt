//! Programs of the Sail profile as text, as `sail_text` defines it.
#![tactic(auto)]

mod definitions;
mod expressions;
mod heads;
mod shapes;

pub use definitions::print;
