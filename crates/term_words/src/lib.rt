//! The words of a term's text: tokens as words, operators by their words, and the sorts of declared names.
#![tactic(auto)]

mod words;

pub use words::{Word, arity, operator, sort_of, token_word};
