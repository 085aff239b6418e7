//! Assertions and their items.

ghost use Rattle.std.specs.Prelude.{◌≡◌};
ghost use Rattle.assert_core.specs.Assertions as spec;
ghost use Rattle.assert_core.specs.View.{item_of};

use lex_core::Name;
use sqlite_items::Items;
use term_tree::{ArrayTerm, Term, VarDecl};

/// What an assertion says of one thing.
///
/// A fact is 1 bit wide, addresses and lengths are 64 bits wide, and the value of bytes has 8 bits a byte.
#[derive(Drop)]
pub enum Item {
    /// The term is 1.
    Fact(Term),
    /// The register is owned, and has the value where one is written.
    Reg { name: Name, value: Option<Term> },
    /// The bytes from the address `at` on are those of the value, the lowest first.
    Mem { at: Term, bytes: u32, value: Term },
    /// The bytes from the address `at` on are those of the array from 0 on, as many as `len` says.
    Arr { at: Term, len: Term, of: ArrayTerm },
    /// The device is owned, and is at this state.
    Dev { name: Name, state: u32 },
}

/// Items, and the variables that are theirs alone: they hold for some values of these.
#[derive(Drop)]
pub struct Assertion {
    /// The variables that the assertion declares beside the fixed ones.
    pub vars: Items<VarDecl>,
    /// What it says, in order.
    pub items: Items<Item>,
}

/// Whether an item is a place: bytes, an array of bytes, or a device. It takes no memory.
pub fn is_place(item: &Item) -> bool
    ensures { result ≡ spec.is_place (item_of item.now) }
{
    match item {
        Item::Mem {
            at: _,
            bytes: _,
            value: _,
        }
        | Item::Arr {
            at: _,
            len: _,
            of: _,
        }
        | Item::Dev { name: _, state: _ } => true,
        Item::Fact(_) | Item::Reg { name: _, value: _ } => false,
    }
}
