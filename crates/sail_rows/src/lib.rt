//! What ends with an expression that is one of several parts in a row: a body, an argument, an arm, a statement.
#![tactic(auto)]

mod rows;

pub use rows::{closed, ends_in_row, is_row, refused};
