//! Terms, array terms, valuations, declared variables, and why a term was not made.

use bv_bits::{Bits, Op};
use lex_core::{Name, NoMemory};
use sqlite_items::{Boxed, Items};
use std::alloc::AllocError;

/// A term over bit vectors. A truth value is one bit.
///
/// Every call that takes a term has the condition that it is typed and at most 1,024 high, and every call that gives one
/// promises that: each operator has arguments that it takes, each index is 64 bits wide, and widths are 1 to 128.
#[derive(Drop)]
pub enum Term {
    /// A literal.
    Lit(Bits),
    /// A variable, and its width in bits.
    Var { name: Name, width: u32 },
    /// An operator at its arguments.
    App { op: Op, args: Items<Term> },
    /// The byte, of 8 bits, of an array variable at an index of 64 bits.
    Sel { of: Name, at: Boxed<Term> },
}

/// A term over arrays: a byte for each index of 64 bits.
#[derive(Drop)]
pub enum ArrayTerm {
    /// An array variable.
    Var(Name),
    /// The array `of`, but for the byte `by` at the index `at`.
    Upd {
        of: Boxed<ArrayTerm>,
        at: Boxed<Term>,
        by: Boxed<Term>,
    },
    /// The array `below` at each index below `at`, and the array `of` from there on.
    Splice {
        of: Boxed<ArrayTerm>,
        below: Boxed<ArrayTerm>,
        at: Boxed<Term>,
    },
}

/// Values of variables. Of the pairs for one variable the first counts: of a name and the width of its bits, or of an
/// array's name, or of an index. A variable without a pair is 0, and so is the byte of an index without one.
#[derive(Drop)]
pub struct Valuation {
    /// The bits of variables.
    pub bits: Items<(Name, Bits)>,
    /// The bytes of array variables, by index.
    pub arrays: Items<(Name, Items<(u64, u8)>)>,
}

/// What a variable stands for.
#[derive(Debug, Clone, Copy, PartialEq, Eq)]
pub enum Sort {
    /// A bit vector of this width, 1 to 128.
    Bits(u32),
    /// An array of bytes, with indices of 64 bits.
    Array,
}

/// A variable and its sort.
#[derive(Drop)]
pub struct VarDecl {
    /// Its name.
    pub name: Name,
    /// What it stands for.
    pub sort: Sort,
}

/// Why a term was not made.
#[derive(Debug, Clone, Copy, PartialEq, Eq)]
pub enum TermFault {
    /// A further node would pass the 1,048,576 that interned terms may have.
    TooManyTerms,
    /// A term or array term of height 1,025 would be made, as the result or on the way.
    TermTooHigh,
    /// There was no memory.
    NoMemory,
}

impl From<NoMemory> for TermFault {
    ghost use Rattle.std.specs.Prelude.{◌≡◌};
    ghost use Rattle.term_tree.specs.declared.term.TermFault.TheVariants as fault;

    ghost from_gives = { λ _ f. f ≡ fault.NoMemory };

    fn from(_: NoMemory) -> Self {
        TermFault::NoMemory
    }
}

impl From<AllocError> for TermFault {
    ghost use Rattle.std.specs.Prelude.{◌≡◌};
    ghost use Rattle.term_tree.specs.declared.term.TermFault.TheVariants as fault;

    ghost from_gives = { λ _ f. f ≡ fault.NoMemory };

    fn from(_: AllocError) -> Self {
        TermFault::NoMemory
    }
}
