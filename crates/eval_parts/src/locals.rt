//! Local names.

ghost use Rattle.std.specs.Prelude.{◌≡◌, [], ◌∷◌, ◌-◌, length, drop, OnOk};
ghost use Rattle.sail_values.specs.Slots.{look, put, has};
ghost use Rattle.sail_values.specs.declared.value.Local.TheVariants.{Is};

use lex_core::NoMemory;
use sail_values::{Local, Value};
use std::alloc::Global;
use std::collections::BTreeMap;
use std::marker::Model;
use type_names::{newest_of, reset_newest, set_newest};

/// A local name, what it stands for, and the place of the newest older one of its name, which it hides.
#[derive(Clone, Copy)]
struct Kept<'a> {
    name: &'a [u8],
    local: Local,
    hides: Option<usize>,
}

/// Local names and what they stand for, which contracts see as a list with the newest first. One is found, entered and left in logarithmic time; its
/// name is borrowed from the program.
#[derive(Drop)]
pub struct Locals<'a> {
    // From the oldest to the newest.
    locals: Vec<Kept<'a>>,
    // Where the newest of each name stands.
    newest: BTreeMap<&'a [u8], usize>,
}

impl<'a> Model for Locals<'a> {
    ghost use Rattle.std.specs.Prelude.{◌≡◌, List, map, reverse};
    ghost use Rattle.sail_syntax.specs.Tree.{Text};
    ghost use Rattle.sail_values.specs.declared.value.Slot.{Slot};
    ghost use Rattle.sail_values.specs.contracts.value.Slot.{the_row};
    ghost use Rattle.std.specs.Coded.{coded_list};
    ghost use Rattle.type_names.specs.Newest.{newest_at};
    ghost use Rattle.eval_parts.specs.Newest.{slot_of, newest_place, AreChained};

    ghost Value = { List Slot };

    ghost coded = { coded_list the_row.coded };

    ghost view = { λ s. map slot_of (reverse s.locals.items) };

    ghost invariant = { λ s. ((x : Text) → newest_at x s.newest ≡ newest_place x (reverse s.locals.items)) × AreChained (reverse s.locals.items) };
}

impl<'a> Locals<'a> {
    /// No local name.
    pub fn new(alloc: Global) -> Locals<'a>
        ensures { result ≡ [] }
    {
        Locals {
            locals: Vec::new(alloc),
            newest: BTreeMap::new(alloc),
        }
    }

    /// How many there are.
    pub fn depth(&self) -> usize
        ensures { result ≡ length self.now }
    {
        self.locals.len()
    }

    /// A new one, which hides older ones of its name.
    pub fn enter(&mut self, name: &'a [u8], local: Local) -> Result<(), NoMemory>
        ensures { OnOk result (self.new ≡ record { name = name.now; local = local } ∷ self.old) }
    {
        let place = self.locals.len();
        let hides = newest_of(&self.newest, name);
        self.locals.push(Kept { name, local, hides })?;
        match set_newest(&mut self.newest, name, place) {
            Ok(()) => Ok(()),
            Err(wanting) => {
                self.locals.pop();
                Err(wanting)
            }
        }
    }

    fn leave_newest(&mut self)
        ensures { self.new ≡ drop 1 self.old }
    {
        if let Some(kept) = self.locals.pop() {
            reset_newest(&mut self.newest, kept.name, kept.hides);
        }
    }

    /// Keeps so many, the oldest.
    #[tactic(auto, using(crate::proofs::NewestLemmas::one_left))]
    pub fn leave(&mut self, depth: usize)
        ensures { self.new ≡ drop (length self.old - depth) self.old }
    {
        while self.depth() > depth {
            self.leave_newest();
        }
    }

    /// What a name stands for: the newest counts.
    pub fn look(&self, name: &[u8]) -> Option<Local>
        ensures { result ≡ look name.now self.now }
    {
        match newest_of(&self.newest, name) {
            Some(place) => match self.locals.get(place) {
                Some(kept) => Some(kept.local),
                None => None,
            },
            None => None,
        }
    }

    /// Lets the newest of a name hold another value, and says whether there is one.
    pub fn assign(&mut self, name: &[u8], value: Value) -> bool
        ensures written { self.new ≡ put name.now (Is value) self.old }
        ensures found { result ≡ has name.now self.old }
    {
        match newest_of(&self.newest, name) {
            Some(place) => {
                self.locals[place].local = Local::Is(value);
                true
            }
            None => false,
        }
    }
}
