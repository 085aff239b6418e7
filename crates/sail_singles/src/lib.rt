//! What ends with an expression that stands alone in what is open.
#![tactic(auto)]

mod singles;

pub use singles::ends_in;
