//! The constants of a proof file's run: where its values stand, its conditions, its code, the walk through it, and the run.
#![tactic(auto)]

mod code;
mod conditions;
mod entry;
mod failure;
mod register_places;
mod run_form;
mod walk;

pub use code::code_of;
pub use conditions::{ConstantsData, constants};
pub use entry::entry_state;
pub use failure::{Failure, failure_by};
pub use register_places::{PlacedValue, place_registers};
pub use run_form::{RunEnd, run_constants};
pub use walk::{Walk, walk_on};
