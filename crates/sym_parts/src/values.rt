//! The values of a symbolic evaluation, over the numbers of terms.

use term_arena::TermId;

/// A value: terms stand for bit vectors and for bools.
#[derive(Clone, Copy)]
pub enum SymValue {
    /// Nothing.
    Unit,
    /// A bool: a term of one bit.
    Truth(TermId),
    /// A bit vector.
    Bits(TermId),
    /// A member of an enum: the number of the enum, and the member's in it.
    Member { of: usize, index: usize },
}

/// What a local name stands for.
#[derive(Clone, Copy)]
pub enum SymLocal {
    /// A value.
    Is(SymValue),
    /// A foreach variable at a number.
    Counts(u32),
}
