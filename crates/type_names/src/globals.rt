//! The names of a whole text.

ghost use Rattle.std.specs.Prelude.{◌≡◌, [], ◌∷◌, ◌++◌, OnOk};
ghost use Rattle.std.specs.Option.{option_copied};
ghost use Rattle.type_rules.specs.Names.{find};

use crate::places::{keep_first, place_of};
use lex_core::{Name, NoMemory};
use std::alloc::Global;
use std::collections::BTreeMap;
use std::marker::Model;
use type_rules::{Entry, Item};

/// The names of a whole text and of the prelude, which contracts see as a list; the first of a name counts. One is found in
/// logarithmic time.
#[derive(Drop)]
pub struct Globals {
    alloc: Global,
    entries: Vec<Entry>,
    // Where the first of each name stands.
    places: BTreeMap<Vec<u8>, usize>,
}

impl Model for Globals {
    ghost use Rattle.std.specs.Prelude.{◌≡◌, List};
    ghost use Rattle.sail_syntax.specs.Tree.{Text};
    ghost use Rattle.type_rules.specs.declared.scope.Entry.{Entry};
    ghost use Rattle.type_rules.specs.contracts.scope.Entry.{the_row};
    ghost use Rattle.std.specs.Coded.{coded_list};
    ghost use Rattle.type_names.specs.Places.{place_at, first_place};

    ghost Value = { List Entry };

    ghost coded = { coded_list the_row.coded };

    ghost view = { λ s. s.entries.items };

    ghost invariant = { λ s. (x : Text) → place_at x s.places ≡ first_place x s.entries.items };
}

impl Globals {
    /// No name.
    pub fn new(alloc: Global) -> Globals
        ensures { result ≡ [] }
    {
        Globals {
            alloc,
            entries: Vec::new(alloc),
            places: BTreeMap::new(alloc),
        }
    }

    /// A name behind the others.
    pub fn add(&mut self, name: Name, item: Item) -> Result<(), NoMemory>
        ensures { OnOk result (self.new ≡ self.old ++ record { name = name; item = item } ∷ []) }
    {
        let place = self.entries.len();
        self.entries.push(Entry { name, item })?;
        let name = self.entries[place].name.bytes();
        match keep_first(self.alloc, &mut self.places, name, place) {
            Ok(()) => Ok(()),
            Err(wanting) => {
                self.entries.pop();
                Err(wanting)
            }
        }
    }

    /// What a name stands for; none where it isn't there.
    pub fn find(&self, name: &[u8]) -> Option<&Item>
        ensures { option_copied result ≡ find name.now self.now }
    {
        match place_of(&self.places, name) {
            Some(place) => match self.entries.get(place) {
                Some(entry) => Some(&entry.item),
                None => None,
            },
            None => None,
        }
    }
}
