//! What is known of a definition or a local before the rest of it is read.

use lex_core::Name;
use sail_syntax::{Param, Ty};
use sqlite_items::Items;

/// Which word declares a local.
#[derive(Clone, Copy, Debug, PartialEq, Eq)]
pub enum Binder {
    /// `let`.
    Let,
    /// `var`.
    Var,
}

/// An enum, its members so far, and its place.
#[derive(Drop)]
pub struct EnumHead {
    pub name: Name,
    pub members: Items<Name>,
    pub at: usize,
}

/// A `val`, its argument types so far, and its place.
#[derive(Drop)]
pub struct ValHead {
    pub name: Name,
    pub args: Items<Ty>,
    pub at: usize,
}

/// A function, its parameters so far, and its place.
#[derive(Drop)]
pub struct FunctionHead {
    pub name: Name,
    pub params: Items<Param>,
    pub at: usize,
}
