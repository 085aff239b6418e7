//! The texts that a check over constants prints.
#![tactic(auto)]

mod texts;

pub use texts::{
    Block, Exit, SpecReport, address, decimal, join, on_file, on_name, on_run, report, usage,
};
