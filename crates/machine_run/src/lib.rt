//! Steps and runs of the machine that a Sail program is, over words of two and four bytes.
#![tactic(auto)]

mod fetching;
mod machine;
mod states;

pub use fetching::fetch_word;
pub use machine::{Ran, Stop, pc_value, run, step};
pub use states::zeros;
