//! The small steps of a symbolic evaluation over interned terms.
#![tactic(auto)]

mod comparing;
mod conditions;
mod faults;
mod infix;
mod making;
mod operators;
mod parts;
mod values;

pub use comparing::{differ, same};
pub use conditions::{equals_literal, equals_truth, known_bit, name_condition};
pub use faults::StepFault;
pub use infix::applied;
pub use making::{literal_term, make_term};
pub use operators::{flipped, known_truth, operate, operate_one, widened};
pub use parts::{sliced, updated, width_in};
pub use values::{SymLocal, SymValue};
