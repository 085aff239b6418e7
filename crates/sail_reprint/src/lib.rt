//! Sail texts in the one form in which programs are printed: read and printed again.
#![tactic(auto)]

mod printing;

pub use printing::reprint;
