//! Interned terms that are made: by the rewrite rules, and as bytes of array terms.
#![tactic(auto)]

mod making;
mod selecting;

pub use making::make;
pub use selecting::{join, select, update};
