//! Heads of definitions, types, names and numbers of a Sail text.
#![tactic(auto)]

mod headers;

pub use headers::{
    index_word, member_or_end, more_members, more_params, more_types, name_word, number_word,
    param_or_end, sized, type_or_end, type_word,
};
