//! Trees as interned terms, and back.
#![tactic(auto)]

mod interning;
mod trees;

pub use interning::{intern, intern_array};
pub use trees::tree_of;
