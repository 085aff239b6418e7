//! The places of the newest locals, found in a map.

ghost use Rattle.std.specs.Prelude.{◌≡◌, IsSome, OnOk, OnErr, if◌then◌else◌, bytes_eq};
ghost use Rattle.sail_syntax.specs.Tree.{Text};
ghost use Rattle.type_names.specs.Newest.{newest_at};

use lex_core::NoMemory;
use std::collections::BTreeMap;

/// The place of a name.
pub fn newest_of(newest: &BTreeMap<&[u8], usize>, name: &[u8]) -> Option<usize>
    ensures { result ≡ newest_at name.now newest.now }
{
    newest.get(name).copied()
}

/// Gives a name a place.
pub fn set_newest<'a>(
    newest: &mut BTreeMap<&'a [u8], usize>,
    name: &'a [u8],
    place: usize,
) -> Result<(), NoMemory>
    ensures set { OnOk result ((x : Text) → newest_at x newest.new ≡ (if bytes_eq name.now x then Some place else newest_at x newest.old)) }
    ensures same { OnErr result ((x : Text) → newest_at x newest.new ≡ newest_at x newest.old) }
{
    newest.insert(name, place)?;
    Ok(())
}

/// Gives a name another place, or none.
pub fn reset_newest<'a>(
    newest: &mut BTreeMap<&'a [u8], usize>,
    name: &'a [u8],
    place: Option<usize>,
)
    requires is_there { IsSome (newest_at name.now newest.old) }
    ensures { (x : Text) → newest_at x newest.new ≡ (if bytes_eq name.now x then place else newest_at x newest.old) }
{
    match place {
        Some(place) => {
            let _ = newest.insert(name, place);
        }
        None => {
            newest.remove(name);
        }
    }
}
