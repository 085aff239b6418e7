use bv_bits::Bits;
use lex_core::Name;
use sqlite_items::Items;

/// The pattern of an arm of a `match`.
#[derive(Debug, Drop)]
pub enum Pattern {
    /// `_`, which fits every value.
    Any,
    /// A name: an enum member fits that member alone, any other name fits and binds every value.
    Name(Name),
    /// A hex or binary literal, which fits that value.
    Lit(Bits),
    /// `true` or `false`.
    Truth(bool),
    /// Two parts or more, joined by `@`, the high one first.
    Parts(Items<Part>),
}

/// A part of a pattern that is joined by `@`.
#[derive(Debug, Drop)]
pub enum Part {
    /// A hex or binary literal, which these bits have to equal.
    Lit(Bits),
    /// `name : bits(width)`, which binds these bits, 1 to 128 of them.
    Bind { name: Name, width: u32 },
    /// `_ : bits(width)`, which passes over these bits, 1 to 128 of them.
    Skip { width: u32 },
}
