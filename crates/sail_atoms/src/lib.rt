//! Words with which an expression, a statement or a pattern of a Sail text begins, and what follows a name.
#![tactic(auto)]

mod atoms;
mod patterns;

pub use atoms::{inside, named, operand_word, statement, want};
pub use patterns::{arm_or_end, more_parts, part_named, part_word};
