//! Fixed words of a Sail text: which one comes next, and what it leads to.
#![tactic(auto)]

mod fixed;

pub use fixed::{arms_with, binds_local, fixed_word};
