//! The syntax tree of the Sail profile, a monomorphic part of the language of the Sail manual:
//! expressions, patterns, types, definitions and programs.
#![tactic(auto)]

mod definitions;
mod patterns;
mod tree;
mod types;

pub use definitions::{Def, Program, registers};
pub use patterns::{Part, Pattern};
pub use tree::{Arm, Expr, Index, Infix, Node, Stmt};
pub use types::{Param, Ty};
