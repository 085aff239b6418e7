//! A function of the prelude, by how many arguments it takes.

ghost use Rattle.std.specs.Prelude.{◌≡◌, [], ◌∷◌, ◌++◌, OnOk};
ghost use Rattle.type_rules.specs.Names.{given};

use lex_core::{Name, NoMemory};
use sail_syntax::Ty;
use sqlite_items::Items;
use std::alloc::Global;
use type_names::Globals;
use type_rules::{Item, Slot};

fn give(
    alloc: Global,
    names: &mut Globals,
    name: &[u8],
    params: Items<Slot>,
    gives: Option<Ty>,
) -> Result<(), NoMemory>
    ensures { OnOk result (names.new ≡ names.old ++ given name.now params gives ∷ []) }
{
    let item = Item::Function {
        params,
        result: gives,
        after: 0,
    };
    names.add(Name::of(alloc, name)?, item)
}

/// A function of one argument. Where nothing is said of what it gives, it gives the type of its first argument.
pub fn give_one(
    alloc: Global,
    names: &mut Globals,
    name: &[u8],
    param: Slot,
    gives: Option<Ty>,
) -> Result<(), NoMemory>
    ensures { OnOk result (names.new ≡ names.old ++ given name.now (param ∷ []) gives ∷ []) }
{
    let mut params = Items::new(alloc);
    params.push(param)?;
    give(alloc, names, name, params, gives)
}

/// A function of two arguments. Where nothing is said of what it gives, it gives the type of its first argument.
pub fn give_two(
    alloc: Global,
    names: &mut Globals,
    name: &[u8],
    one: Slot,
    two: Slot,
    gives: Option<Ty>,
) -> Result<(), NoMemory>
    ensures { OnOk result (names.new ≡ names.old ++ given name.now (one ∷ two ∷ []) gives ∷ []) }
{
    let mut params = Items::new(alloc);
    params.push(one)?;
    params.push(two)?;
    give(alloc, names, name, params, gives)
}
