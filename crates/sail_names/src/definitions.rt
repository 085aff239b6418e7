//! The names of a program: those of the prelude, and what its definitions declare.

ghost use Rattle.std.specs.Prelude.{◌≡◌, ◌≤◌, IfOk, OnOk, map};
ghost use Rattle.sail_syntax.specs.View.{definition_of, program_of};
ghost use Rattle.sail_names.specs.Things.{members_from, declares, registers_in, enums_in, things_from, things_of};
ghost use Rattle.sail_names.specs.Map.{Adds, IsMapOf};

use crate::map::keep_first;
use crate::prelude::put_prelude;
use crate::things::Thing;
use lex_core::{Name, NoMemory};
use sail_syntax::{Def, Program};
use std::alloc::Global;
use std::collections::BTreeMap;

/// The members of the enum of a number.
fn members(
    alloc: Global,
    things: &mut BTreeMap<Vec<u8>, Thing>,
    of: usize,
    members: &[Name],
) -> Result<(), NoMemory>
    ensures { OnOk result (Adds (members_from of 0 members.now) things.old things.new) }
{
    for (index, member) in members.iter().enumerate() {
        let thing = Thing::Member { of, index };
        keep_first(alloc, things, member.bytes(), thing)?;
    }
    Ok(())
}

/// What a definition declares, where so many registers, enums and definitions stand in front of it.
fn declare(
    alloc: Global,
    things: &mut BTreeMap<Vec<u8>, Thing>,
    def: &Def,
    registers: usize,
    enums: usize,
    place: usize,
) -> Result<(), NoMemory>
    ensures { OnOk result (Adds (declares (definition_of def.now) registers enums place) things.old things.new) }
{
    match def {
        Def::Order | Def::Val { .. } => Ok(()),
        Def::Register { name, .. } => {
            keep_first(alloc, things, name.bytes(), Thing::Register(registers))
        }
        Def::Enum { members: all, .. } => members(alloc, things, enums, all.as_slice()),
        Def::Function { name, .. } => {
            keep_first(alloc, things, name.bytes(), Thing::Function(place))
        }
    }
}

/// How many registers a definition declares.
fn registers_in(def: &Def) -> usize
    ensures value { result ≡ registers_in (definition_of def.now) }
    ensures few { result ≤ 1 }
{
    match def {
        Def::Register { .. } => 1,
        _ => 0,
    }
}

/// How many enums.
fn enums_in(def: &Def) -> usize
    ensures value { result ≡ enums_in (definition_of def.now) }
    ensures few { result ≤ 1 }
{
    match def {
        Def::Enum { .. } => 1,
        _ => 0,
    }
}

/// What definitions declare.
#[tactic(auto, using(crate::proofs::MapLemmas::things_next))]
fn declare_all(
    alloc: Global,
    things: &mut BTreeMap<Vec<u8>, Thing>,
    defs: &[Def],
) -> Result<(), NoMemory>
    ensures { OnOk result (Adds (things_from (map definition_of defs.now) 0 0 0) things.old things.new) }
{
    let mut registers = 0;
    let mut enums = 0;
    for (place, def) in defs.iter().enumerate() {
        declare(alloc, things, def, registers, enums, place)?;
        registers += registers_in(def);
        enums += enums_in(def);
    }
    Ok(())
}

/// What the names of a program stand for: those of the prelude, and those that it declares, where of two with one name the first counts.
pub fn names_of(alloc: Global, program: &Program) -> Result<BTreeMap<Vec<u8>, Thing>, NoMemory>
    ensures { IfOk result (IsMapOf (things_of (program_of program.now))) }
{
    let mut things = BTreeMap::new(alloc);
    put_prelude(alloc, &mut things)?;
    declare_all(alloc, &mut things, program.defs.as_slice())?;
    Ok(things)
}
