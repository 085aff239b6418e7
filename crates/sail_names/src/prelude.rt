//! The names of the prelude.

ghost use Rattle.std.specs.Prelude.{OnOk, [], ◌∷◌};
ghost use Rattle.sail_names.specs.Things.{given_name, given_tests, given_shifts, given_divisions, given_reads, given_writes, prelude_things};
ghost use Rattle.sail_names.specs.Map.{Adds};

use crate::map::keep_first;
use crate::things::{Given, Thing};
use lex_core::NoMemory;
use std::alloc::Global;
use std::collections::BTreeMap;

/// A function of the prelude.
fn give(
    alloc: Global,
    things: &mut BTreeMap<Vec<u8>, Thing>,
    name: &[u8],
    given: Given,
) -> Result<(), NoMemory>
    ensures { OnOk result (Adds (given_name name.now given ∷ []) things.old things.new) }
{
    keep_first(alloc, things, name, Thing::Given(given))
}

fn tests(alloc: Global, things: &mut BTreeMap<Vec<u8>, Thing>) -> Result<(), NoMemory>
    ensures { OnOk result (Adds given_tests things.old things.new) }
{
    give(alloc, things, b"not", Given::Not)?;
    give(alloc, things, b"lt_u", Given::LtU)?;
    give(alloc, things, b"lt_s", Given::LtS)
}

fn shifts(alloc: Global, things: &mut BTreeMap<Vec<u8>, Thing>) -> Result<(), NoMemory>
    ensures { OnOk result (Adds given_shifts things.old things.new) }
{
    give(alloc, things, b"shift_left", Given::ShiftLeft)?;
    give(alloc, things, b"shift_right", Given::ShiftRight)?;
    give(alloc, things, b"shift_right_arith", Given::ShiftRightArith)
}

fn divisions(alloc: Global, things: &mut BTreeMap<Vec<u8>, Thing>) -> Result<(), NoMemory>
    ensures { OnOk result (Adds given_divisions things.old things.new) }
{
    give(alloc, things, b"div_u", Given::DivU)?;
    give(alloc, things, b"rem_u", Given::RemU)?;
    give(alloc, things, b"div_s", Given::DivS)?;
    give(alloc, things, b"rem_s", Given::RemS)
}

fn reads(alloc: Global, things: &mut BTreeMap<Vec<u8>, Thing>) -> Result<(), NoMemory>
    ensures { OnOk result (Adds given_reads things.old things.new) }
{
    give(alloc, things, b"mem_read_1", Given::Read { bytes: 1 })?;
    give(alloc, things, b"mem_read_2", Given::Read { bytes: 2 })?;
    give(alloc, things, b"mem_read_4", Given::Read { bytes: 4 })?;
    give(alloc, things, b"mem_read_8", Given::Read { bytes: 8 })?;
    give(alloc, things, b"mem_read_16", Given::Read { bytes: 16 })
}

fn writes(alloc: Global, things: &mut BTreeMap<Vec<u8>, Thing>) -> Result<(), NoMemory>
    ensures { OnOk result (Adds given_writes things.old things.new) }
{
    give(alloc, things, b"mem_write_1", Given::Write { bytes: 1 })?;
    give(alloc, things, b"mem_write_2", Given::Write { bytes: 2 })?;
    give(alloc, things, b"mem_write_4", Given::Write { bytes: 4 })?;
    give(alloc, things, b"mem_write_8", Given::Write { bytes: 8 })?;
    give(alloc, things, b"mem_write_16", Given::Write { bytes: 16 })
}

/// All of them.
pub fn put_prelude(alloc: Global, things: &mut BTreeMap<Vec<u8>, Thing>) -> Result<(), NoMemory>
    ensures { OnOk result (Adds prelude_things things.old things.new) }
{
    tests(alloc, things)?;
    shifts(alloc, things)?;
    divisions(alloc, things)?;
    reads(alloc, things)?;
    writes(alloc, things)
}
