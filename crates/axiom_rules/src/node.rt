// Subterms, by the numbers of their parts.

use bv_bits::Op;

/// The top of a subterm. Its parts are the subterms of these numbers.
#[derive(Clone, Copy, Drop)]
pub enum Node {
    /// A literal of this value.
    Literal(u128),
    /// A variable.
    Variable,
    /// An operator at one argument.
    One { op: Op, a: u32 },
    /// An operator at two arguments.
    Two { op: Op, a: u32, b: u32 },
    /// An operator at three arguments.
    Three { op: Op, a: u32, b: u32, c: u32 },
    /// The byte of an array variable at an index. The array's number is that of the first subterm that is a byte of it.
    Byte { array: u32, at: u32 },
}

/// A subterm and its width in bits.
#[derive(Clone, Copy, Drop)]
pub struct Sub {
    pub width: u32,
    pub node: Node,
}
