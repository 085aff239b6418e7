//! What holds no expression, as text: names, numbers, types, indices, patterns and rows of them, appended as `sail_text` defines their texts.
#![tactic(auto)]

mod patterns;
mod types;
mod words;

pub use patterns::{put_index, put_pattern};
pub use types::{put_names, put_params, put_type, put_types, put_width, put_written};
pub use words::{put_bits, put_infix, put_name, put_truth};
