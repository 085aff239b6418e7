//! The functions of the prelude that read memory and write it.

ghost use Rattle.std.specs.Prelude.{◌≡◌, [], ◌∷◌, ◌++◌, OnOk};
ghost use Rattle.type_rules.specs.Names.{given_accesses};
ghost use Rattle.type_globals.specs.Given as spec;

use crate::given::{give_one, give_two};
use lex_core::NoMemory;
use sail_syntax::Ty;
use std::alloc::Global;
use type_names::Globals;
use type_rules::Slot;

fn read(alloc: Global, names: &mut Globals, name: &[u8], width: u32) -> Result<(), NoMemory>
    ensures { OnOk result (names.new ≡ names.old ++ spec.read name.now width ∷ []) }
{
    give_one(
        alloc,
        names,
        name,
        Slot::Is(Ty::Bits(64)),
        Some(Ty::Bits(width)),
    )
}

fn reads(alloc: Global, names: &mut Globals) -> Result<(), NoMemory>
    ensures { OnOk result (names.new ≡ names.old ++ spec.reads) }
{
    read(alloc, names, b"mem_read_1", 8)?;
    read(alloc, names, b"mem_read_2", 16)?;
    read(alloc, names, b"mem_read_4", 32)?;
    read(alloc, names, b"mem_read_8", 64)?;
    read(alloc, names, b"mem_read_16", 128)
}

fn write(alloc: Global, names: &mut Globals, name: &[u8], width: u32) -> Result<(), NoMemory>
    ensures { OnOk result (names.new ≡ names.old ++ spec.write name.now width ∷ []) }
{
    let address = Slot::Is(Ty::Bits(64));
    give_two(
        alloc,
        names,
        name,
        address,
        Slot::Is(Ty::Bits(width)),
        Some(Ty::Unit),
    )
}

fn writes(alloc: Global, names: &mut Globals) -> Result<(), NoMemory>
    ensures { OnOk result (names.new ≡ names.old ++ spec.writes) }
{
    write(alloc, names, b"mem_write_1", 8)?;
    write(alloc, names, b"mem_write_2", 16)?;
    write(alloc, names, b"mem_write_4", 32)?;
    write(alloc, names, b"mem_write_8", 64)?;
    write(alloc, names, b"mem_write_16", 128)
}

/// All of them.
pub fn accesses(alloc: Global, names: &mut Globals) -> Result<(), NoMemory>
    ensures { OnOk result (names.new ≡ names.old ++ given_accesses) }
{
    reads(alloc, names)?;
    writes(alloc, names)
}
