//! What ends with an expression, and what follows an operand.
#![tactic(auto)]

mod chains;
mod ending;

pub use chains::after;
pub use ending::ends;
