//! What an evaluation uses and what it leaves, by its moments: laws over the definitions of the meaning.
#![tactic(auto)]

pub mod laws;
