//! Expressions of the Sail profile made from their parts.
#![tactic(auto)]

mod making;
mod spare;

pub use making::{
    assign, block, call, cases, chain, check, choose, exit, flip, foreach, literal, slice, truth,
    unit, update, variable, when, widen,
};
pub use spare::{no_expr, no_index, no_name};
