//! The axioms of terms over bit vectors: clauses that say bit by bit what each subterm is, named by the subterm, a part, a
//! bit and a row; and why all of them are true.
#![tactic(auto)]

pub mod laws;
mod node;
mod part;

pub use node::{Node, Sub};
pub use part::Part;
