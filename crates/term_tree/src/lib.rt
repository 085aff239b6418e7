//! Terms over bit vectors and over arrays of bytes: their forms, widths, heights and values.
#![tactic(auto)]

pub mod laws;
mod term;
mod trees;
mod values;

pub use term::{ArrayTerm, Sort, Term, TermFault, Valuation, VarDecl};
pub use trees::{
    ArrayForm, Form, HIGHEST, array_form_of, array_height, form_of, height, list_of_one,
    list_of_three, list_of_two, same, same_op, width,
};
pub use values::{VariableValues, value, value_in, value_one};
