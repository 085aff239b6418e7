//! The places of names, found in a map.

ghost use Rattle.std.specs.Prelude.{◌≡◌, OnOk, OnErr};
ghost use Rattle.sail_syntax.specs.Tree.{Text};
ghost use Rattle.type_names.specs.Places.{place_at, or_place, place_for};

use lex_core::NoMemory;
use std::alloc::Global;
use std::collections::BTreeMap;

/// The place of a name.
pub fn place_of(places: &BTreeMap<Vec<u8>, usize>, name: &[u8]) -> Option<usize>
    ensures { result ≡ place_at name.now places.now }
{
    places.get(name).copied()
}

/// Gives a name a place, where it has none yet.
pub fn keep_first(
    alloc: Global,
    places: &mut BTreeMap<Vec<u8>, usize>,
    name: &[u8],
    place: usize,
) -> Result<(), NoMemory>
    ensures kept { OnOk result ((x : Text) → place_at x places.new ≡ or_place (place_at x places.old) (place_for name.now place x)) }
    ensures same { OnErr result ((x : Text) → place_at x places.new ≡ place_at x places.old) }
{
    if place_of(places, name).is_some() {
        return Ok(());
    }
    let mut key = Vec::new(alloc);
    key.extend_from_slice(name)?;
    places.insert(key, place)?;
    Ok(())
}
