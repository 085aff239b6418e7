//! Whether the words of a trace fit the program that they are about.
#![tactic(auto)]

mod fitting;

pub use fitting::words_fit;
