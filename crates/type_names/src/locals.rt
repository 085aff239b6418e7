//! Local names.

ghost use Rattle.std.specs.Prelude.{◌≡◌, [], ◌∷◌, ◌-◌, length, drop, OnOk};
ghost use Rattle.std.specs.Option.{option_map};
ghost use Rattle.type_rules.specs.Names.{look};
ghost use Rattle.type_names.specs.Borrowed.{sort_of};

use crate::borrowed::{LocalRef, SortRef};
use crate::newest::{newest_of, reset_newest, set_newest};
use lex_core::NoMemory;
use std::alloc::Global;
use std::collections::BTreeMap;
use std::marker::Model;

/// A local name, and the place of the newest older one of its name, which it hides.
#[derive(Clone, Copy)]
struct Kept<'a> {
    local: LocalRef<'a>,
    hides: Option<usize>,
}

/// Local names, which contracts see as a list with the newest first. One is found, entered and left in logarithmic time.
#[derive(Drop)]
pub struct Locals<'a> {
    // From the oldest to the newest.
    locals: Vec<Kept<'a>>,
    // Where the newest of each name stands.
    newest: BTreeMap<&'a [u8], usize>,
}

impl<'a> Model for Locals<'a> {
    ghost use Rattle.std.specs.Prelude.{◌≡◌, List, map, reverse};
    ghost use Rattle.sail_syntax.specs.Tree.{Text};
    ghost use Rattle.type_rules.specs.declared.scope.Local.{Local};
    ghost use Rattle.type_rules.specs.contracts.scope.Local.{the_row};
    ghost use Rattle.std.specs.Coded.{coded_list};
    ghost use Rattle.type_names.specs.Borrowed.{local_of};
    ghost use Rattle.type_names.specs.Newest.{newest_at, newest_place, AreChained};

    ghost Value = { List Local };

    ghost coded = { coded_list the_row.coded };

    ghost view = { λ s. map (λ k. local_of k.local) (reverse s.locals.items) };

    ghost invariant = { λ s. ((x : Text) → newest_at x s.newest ≡ newest_place x (reverse s.locals.items)) × AreChained (reverse s.locals.items) };
}

impl<'a> Locals<'a> {
    /// No local name.
    pub fn new(alloc: Global) -> Locals<'a>
        ensures { result ≡ [] }
    {
        Locals {
            locals: Vec::new(alloc),
            newest: BTreeMap::new(alloc),
        }
    }

    /// How many there are.
    pub fn depth(&self) -> usize
        ensures { result ≡ length self.now }
    {
        self.locals.len()
    }

    /// A new one, which hides older ones of its name.
    pub fn enter(&mut self, name: &'a [u8], sort: SortRef<'a>) -> Result<(), NoMemory>
        ensures { OnOk result (self.new ≡ record { name = name.now; sort = sort_of sort.entry } ∷ self.old) }
    {
        let place = self.locals.len();
        let hides = newest_of(&self.newest, name);
        let local = LocalRef { name, sort };
        self.locals.push(Kept { local, hides })?;
        match set_newest(&mut self.newest, name, place) {
            Ok(()) => Ok(()),
            Err(wanting) => {
                self.locals.pop();
                Err(wanting)
            }
        }
    }

    fn leave_newest(&mut self)
        ensures { self.new ≡ drop 1 self.old }
    {
        if let Some(kept) = self.locals.pop() {
            reset_newest(&mut self.newest, kept.local.name, kept.hides);
        }
    }

    /// Keeps so many, the oldest.
    #[tactic(auto, using(crate::proofs::NewestLemmas::one_left))]
    pub fn leave(&mut self, depth: usize)
        ensures { self.new ≡ drop (length self.old - depth) self.old }
    {
        while self.depth() > depth {
            self.leave_newest();
        }
    }

    /// What a name stands for: the newest counts.
    pub fn look(&self, name: &[u8]) -> Option<SortRef<'a>>
        ensures { option_map sort_of result ≡ look name.now self.now }
    {
        match newest_of(&self.newest, name) {
            Some(place) => match self.locals.get(place) {
                Some(kept) => Some(kept.local.sort),
                None => None,
            },
            None => None,
        }
    }
}
