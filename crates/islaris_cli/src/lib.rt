//! The top call: the words, the files, the verdict, and the writing of its text.
#![tactic(auto)]

pub mod laws;
mod top;

pub use top::islaris;
