//! The first form of proof files: one specification of a run over constants.
#![tactic(auto)]

mod form;
pub mod laws;
mod rules;

pub use form::{NamedProof, NamedValue, ReadProof, read_proof};
