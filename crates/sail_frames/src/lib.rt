//! What is open while a Sail text is read, and what comes next.
//!
//! A stack says what is open, a mode what comes next. A word changes both, or it is a fault.
#![tactic(auto)]

mod frame;
mod mode;
mod next;
mod stack;
mod stop;
mod turn;

pub use frame::Frame;
pub use mode::Mode;
pub use next::{Next, is_keyword, is_mark, is_operator, is_sign, same_infix};
pub use stack::{MAX_NESTING, Stack};
pub use stop::Stop;
pub use turn::{definition, fails, opened, unexpected};
