//! What a definition declares.

ghost use Rattle.std.specs.Prelude.{◌≡◌, ◌<◌, ◌^◌, IfOk, OnOk};
ghost use Rattle.sail_syntax.specs.View.{definition_of};
ghost use Rattle.type_rules.specs.Names.{declares, slots_of};
ghost use Rattle.type_names.specs.Borrowed.{maybe_fault};
ghost use Rattle.type_globals.specs.Declared.{names_with, fault_with};

use crate::declare::{declare, members as declare_members};
use lex_core::NoMemory;
use sail_syntax::{Def, Param};
use sqlite_items::Items;
use std::alloc::Global;
use type_names::{FaultRef, Globals};
use type_rules::{Item, Slot};

/// What a function asks of its arguments.
fn slots(alloc: Global, params: &[Param]) -> Result<Items<Slot>, NoMemory>
    ensures { IfOk result (λ slots. slots ≡ slots_of params.now) }
{
    let mut slots = Items::new(alloc);
    for param in params {
        slots.push(Slot::Is(param.ty.copy(alloc)?))?;
    }
    Ok(slots)
}

/// Declares what a definition declares, where so many stand in front of it.
pub fn define<'a>(
    alloc: Global,
    names: &mut Globals,
    def: &'a Def,
    before: usize,
    best: &mut Option<FaultRef<'a>>,
) -> Result<(), NoMemory>
    requires room { before < 2 ^ 63 }
    ensures names { OnOk result (names.new ≡ names_with names.old (declares (definition_of def.now) before)) }
    ensures first { OnOk result (maybe_fault best.new ≡ fault_with (maybe_fault best.old) names.old (declares (definition_of def.now) before)) }
{
    match def {
        Def::Order | Def::Val { .. } => Ok(()),
        Def::Register { name, width, at } => {
            declare(
                alloc,
                names,
                name,
                Item::Register { width: *width },
                *at,
                best,
            )
        }
        Def::Enum { name, members, at } => {
            declare(alloc, names, name, Item::Enum, *at, best)?;
            declare_members(alloc, names, name, members.as_slice(), *at, best)
        }
        Def::Function {
            name,
            params,
            result,
            at,
            ..
        } => {
            let item = Item::Function {
                params: slots(alloc, params.as_slice())?,
                result: Some(result.copy(alloc)?),
                after: before + 1,
            };
            declare(alloc, names, name, item, *at, best)
        }
    }
}
