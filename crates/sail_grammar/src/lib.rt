//! The words and the grammar of the Sail profile.
#![tactic(auto)]

mod keyword;
mod mark;
mod table;
mod word;

pub use keyword::Keyword;
pub use mark::Mark;
pub use word::{Sign, Word};
