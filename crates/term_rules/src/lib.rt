//! The rewrite rules.
#![tactic(auto)]

pub mod laws;
mod rules;
mod sum_rules;
mod term_nodes;

pub use rules::{Nodes, Right, Shape, one_rule, three_rule, two_rule};
pub use term_nodes::Trees;
