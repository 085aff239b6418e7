//! What names stand for, and the small choices of the rules.

use lex_core::Name;
use sail_syntax::Ty;
use sqlite_items::Items;

/// What a function asks of an argument.
#[derive(Drop)]
pub enum Slot {
    /// This type.
    Is(Ty),
    /// Bits of any width.
    AnyBits,
    /// The type of the first argument.
    Alike,
}

/// What a name of the whole text stands for.
#[derive(Drop)]
pub enum Item {
    /// A register, and its width in bits.
    Register {
        width: u32,
    },
    /// An enum.
    Enum,
    /// A member of the enum of this name.
    Member {
        of: Name,
    },
    /// A function of the prelude or of the text.
    Function {
        /// What it asks of its arguments.
        params: Items<Slot>,
        /// What it gives; if nothing is written, the type of its first argument.
        result: Option<Ty>,
        /// How many definitions of the text have passed when it is complete; 0 for the prelude.
        after: usize,
    },
}

/// A name of the whole text, and what it stands for.
#[derive(Drop)]
pub struct Entry {
    /// The name.
    pub name: Name,
    /// What it stands for.
    pub item: Item,
}

/// What a local name stands for.
#[derive(Drop)]
pub enum Sort {
    /// A value of this type, if the type is known; and whether it may be assigned.
    Holds { ty: Option<Ty>, assigned: bool },
    /// The number of a foreach, from the first one to the last one.
    Counts { from: u32, to: u32 },
}

/// A local name, and what it stands for.
#[derive(Drop)]
pub struct Local {
    /// The name.
    pub name: Name,
    /// What it stands for.
    pub sort: Sort,
}

/// What may be assigned to a name.
#[derive(Drop)]
pub enum Target {
    /// A value of this type, if the type is known.
    Takes(Option<Ty>),
    /// Nothing.
    Refuses,
    /// There is no such name.
    Missing,
}

/// Which numbers the name of an index stands for.
#[derive(Clone, Copy)]
pub enum Span {
    /// No name stands there: 0 alone.
    Fixed,
    /// Each number from the first one to the last one.
    Over { from: u32, to: u32 },
    /// It is no foreach variable.
    Missing,
}

/// How a block has ended so far.
#[derive(Drop)]
pub enum Ending {
    /// With a declaration, or with nothing.
    Open,
    /// With an expression of this type, if the type is known.
    Value(Option<Ty>),
}
