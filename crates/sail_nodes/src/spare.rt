//! What stands in the place of a part that is taken out of its place.

use lex_core::Name;
use sail_syntax::{Expr, Index, Node};
use std::alloc::Global;

/// An expression.
pub fn no_expr() -> Expr {
    Expr {
        at: 0,
        node: Node::Unit,
    }
}

/// A name.
pub fn no_name(alloc: Global) -> Name {
    match Name::of(alloc, b"".as_slice()) {
        Ok(name) => name,
        Err(_) => unreachable!(),
    }
}

/// An index.
pub fn no_index() -> Index {
    Index { var: None, plus: 0 }
}
