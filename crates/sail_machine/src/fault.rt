//! Faults of a list of words.

/// Why words spell no program.
#[derive(Clone, Copy, Debug, PartialEq, Eq)]
pub enum Flaw {
    /// No continuation is in the grammar.
    Unexpected,
    /// An infix operator behind another one in the same chain.
    Mixed,
    /// Nesting becomes 129.
    TooDeep,
    /// The 1,025th register, enum or function.
    TooMany,
}

/// A flaw, and where it stands, in bytes of the text.
#[derive(Clone, Copy, Debug, PartialEq, Eq)]
pub struct Fault {
    pub flaw: Flaw,
    pub at: usize,
}
