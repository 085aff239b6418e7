//! The axioms of facts and a goal: their subterms by numbers, and what a certificate over them says of the terms.
#![tactic(auto)]

pub mod laws;
