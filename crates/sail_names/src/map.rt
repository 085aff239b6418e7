//! A map from names to what they stand for.

ghost use Rattle.std.specs.Prelude.{◌≡◌, OnOk};
ghost use Rattle.sail_syntax.specs.Tree.{Text};
ghost use Rattle.sail_names.specs.Map.{thing_at, or_thing, thing_for};

use crate::things::Thing;
use lex_core::NoMemory;
use std::alloc::Global;
use std::collections::BTreeMap;

/// What a name stands for; none where it isn't there.
pub fn thing_of(things: &BTreeMap<Vec<u8>, Thing>, name: &[u8]) -> Option<Thing>
    ensures { result ≡ thing_at name.now things.now }
{
    things.get(name).copied()
}

/// Lets a name stand for something, where it doesn't stand for anything yet.
pub fn keep_first(
    alloc: Global,
    things: &mut BTreeMap<Vec<u8>, Thing>,
    name: &[u8],
    thing: Thing,
) -> Result<(), NoMemory>
    ensures { OnOk result ((x : Text) → thing_at x things.new ≡ or_thing (thing_at x things.old) (thing_for name.now thing x)) }
{
    if thing_of(things, name).is_some() {
        return Ok(());
    }
    let mut key = Vec::new(alloc);
    key.extend_from_slice(name)?;
    things.insert(key, thing)?;
    Ok(())
}
