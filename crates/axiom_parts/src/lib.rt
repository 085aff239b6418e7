//! The parts of the axioms of terms, and their clauses, literal by literal. No call takes memory.
#![tactic(auto)]

mod clauses;
mod literals;
mod operators;
mod products;
mod rows;
mod shifts;
mod subterms;
mod sums;

pub use clauses::{part_length, part_literal};
pub use literals::{bit_of, opposite};
pub use subterms::part_at;
