//! One name that is declared, and the members of an enum.

ghost use Rattle.std.specs.Prelude.{◌≡◌, [], ◌∷◌, OnOk};
ghost use Rattle.type_rules.specs.Names.{members_of};
ghost use Rattle.type_names.specs.Borrowed.{maybe_fault};
ghost use Rattle.type_globals.specs.Declared.{declared, names_with, fault_with};

use lex_core::{Name, NoMemory};
use std::alloc::Global;
use type_names::{FaultRef, Globals, WhyRef, say};
use type_rules::Item;

/// Declares a name at a place.
pub fn declare<'a>(
    alloc: Global,
    names: &mut Globals,
    name: &'a Name,
    item: Item,
    at: usize,
    best: &mut Option<FaultRef<'a>>,
) -> Result<(), NoMemory>
    ensures names { OnOk result (names.new ≡ names_with names.old (declared name.now item at ∷ [])) }
    ensures first { OnOk result (maybe_fault best.new ≡ fault_with (maybe_fault best.old) names.old (declared name.now item at ∷ [])) }
{
    if names.find(name.bytes()).is_some() {
        say(at, WhyRef::Twice(name.bytes()), best);
    }
    names.add(name.copy(alloc)?, item)
}

/// Declares the members of an enum at a place.
pub fn members<'a>(
    alloc: Global,
    names: &mut Globals,
    of: &Name,
    members: &'a [Name],
    at: usize,
    best: &mut Option<FaultRef<'a>>,
) -> Result<(), NoMemory>
    ensures names { OnOk result (names.new ≡ names_with names.old (members_of of.now at members.now)) }
    ensures first { OnOk result (maybe_fault best.new ≡ fault_with (maybe_fault best.old) names.old (members_of of.now at members.now)) }
{
    for member in members {
        let of = of.copy(alloc)?;
        declare(alloc, names, member, Item::Member { of }, at, best)?;
    }
    Ok(())
}
