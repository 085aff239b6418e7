//! The rules of typing in small, over borrowed types: what one part is judged, given what its place asks for.
#![tactic(auto)]

mod calls;
mod chains;
mod fitting;
mod names;
mod patterns;
mod slices;
mod statements;

pub use calls::{asked_slot, call_type, finished, narrowed, slot_of, slots_after};
pub use chains::{
    chain_type, count, heads, is_chain_of, is_join, is_known, joined, least_width, widened,
};
pub use fitting::{
    bits_only, fits, is_value, no_type, or_else, or_type, place_of, where_holds, widens,
};
pub use names::{
    TargetRef, asked_of, assigned, known, maybe_written, read_name, taken, target_of, written,
};
pub use patterns::{enter, judge_pattern};
pub use slices::{between, indexed};
pub use statements::{EndingRef, ended, has_arm, is_last, local_type, step_want};
