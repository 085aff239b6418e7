//! The values of the Sail profile, the operators on them, and what local names stand for.
#![tactic(auto)]

mod operators;
mod slots;
mod value;

pub use operators::{
    applied, decides, flipped, is_true, is_vector, nth, operate, operate_one, same, widened,
};
pub use slots::Slots;
pub use value::{Local, Outcome, Slot, Stop, Value};
