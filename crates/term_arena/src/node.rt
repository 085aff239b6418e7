// Nodes, and the numbers that stand for terms.

use bv_bits::{Bits, Op};
use lex_core::Name;

/// A term: its place in the list of nodes of the `Terms` that gave it.
#[derive(Clone, Copy, PartialEq, Eq, Hash)]
pub struct TermId {
    /// The place.
    pub number: u32,
}

/// An array term: its place in the list of nodes of the `Terms` that gave it.
#[derive(Clone, Copy, PartialEq, Eq, Hash)]
pub struct ArrayId {
    /// The place.
    pub number: u32,
}

/// The node of a term.
#[derive(Clone, Copy, Drop)]
pub enum TermNode<'t> {
    /// A literal.
    Lit(Bits),
    /// A variable, and its width in bits.
    Var { name: &'t Name, width: u32 },
    /// An operator at one to three arguments.
    App { op: Op, args: &'t [TermId] },
    /// The byte of an array variable at an index of 64 bits.
    Sel { of: &'t Name, at: TermId },
}

/// The node of an array term.
#[derive(Clone, Copy, Drop)]
pub enum ArrayNode {
    /// An array variable.
    Var,
    /// An array but for one byte.
    Upd {
        of: ArrayId,
        at: TermId,
        by: TermId,
    },
    /// An array below an index, and another one from it on.
    Splice {
        of: ArrayId,
        below: ArrayId,
        at: TermId,
    },
}

/// A node as it is kept: names by their numbers.
#[derive(Clone, Copy, PartialEq, Eq, Hash)]
pub enum Key {
    /// A literal.
    Lit(Bits),
    /// A variable.
    Var {
        name: usize,
        width: u32,
    },
    /// An operator at one argument.
    One {
        op: Op,
        a: TermId,
    },
    /// An operator at two arguments.
    Two {
        op: Op,
        a: TermId,
        b: TermId,
    },
    /// An operator at three arguments.
    Three {
        op: Op,
        a: TermId,
        b: TermId,
        c: TermId,
    },
    /// The byte of an array variable.
    Sel {
        of: usize,
        at: TermId,
    },
    /// An array variable.
    Array {
        name: usize,
    },
    /// An array but for one byte.
    Upd {
        of: ArrayId,
        at: TermId,
        by: TermId,
    },
    /// An array below an index, and another one from it on.
    Splice {
        of: ArrayId,
        below: ArrayId,
        at: TermId,
    },
}

/// A node that is asked for.
#[derive(Clone, Copy, Drop)]
pub enum NewNode<'n> {
    /// A literal.
    Lit(Bits),
    /// A variable.
    Var {
        name: &'n [u8],
        width: u32,
    },
    /// An operator at one argument.
    One {
        op: Op,
        a: TermId,
    },
    /// An operator at two arguments.
    Two {
        op: Op,
        a: TermId,
        b: TermId,
    },
    /// An operator at three arguments.
    Three {
        op: Op,
        a: TermId,
        b: TermId,
        c: TermId,
    },
    /// The byte of an array variable of this name.
    Sel {
        of: &'n [u8],
        at: TermId,
    },
    /// The byte of an array variable that has a node.
    SelOf {
        of: ArrayId,
        at: TermId,
    },
    /// An array variable.
    Array {
        name: &'n [u8],
    },
    /// An array but for one byte.
    Upd {
        of: ArrayId,
        at: TermId,
        by: TermId,
    },
    /// An array below an index, and another one from it on.
    Splice {
        of: ArrayId,
        below: ArrayId,
        at: TermId,
    },
}

/// What is known of a node: the width of a term (0 of an array term), the height, and the arguments of an operator,
/// filled up to three.
#[derive(Clone, Copy, Drop)]
pub struct Facts {
    pub width: u32,
    pub height: u32,
    pub args: [TermId; 3],
}
