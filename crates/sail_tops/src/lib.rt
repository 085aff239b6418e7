//! What was opened last is closed by a word that closes it, and gives its parts.
#![tactic(auto)]

mod pops;

pub use pops::{
    pop_arms, pop_asserted, pop_block, pop_indexing, pop_program, pop_slicing, pop_widening,
};
