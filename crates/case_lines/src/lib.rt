//! What the programs that run cases share: a case is a line of words, some of which spell bytes or numbers.
#![tactic(auto)]

mod bytes;
mod numbers;
mod splitting;

pub use bytes::{bytes_of, hex_bytes, spelled};
pub use numbers::{digit, number, number_32, number_64};
pub use splitting::{cut_word, is_comment, words};
