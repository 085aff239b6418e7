//! Local names and what they stand for, the newest in front.

ghost use Rattle.std.specs.Prelude.{◌≡◌, [], ◌∷◌, ◌-◌, length, drop, OnOk, OnErr};
ghost use Rattle.sail_values.specs.Slots.{look, put, has};

use crate::value::{Local, Slot};
use lex_core::Name;
use std::alloc::{AllocError, Global};
use std::marker::Model;

/// Local names and what they stand for, which contracts see as a list with the newest first.
#[derive(Drop)]
pub struct Slots {
    slots: Vec<Slot>,
}

impl Model for Slots {
    ghost use Rattle.std.specs.Prelude.{List, reverse};
    ghost use Rattle.sail_values.specs.declared.value.Slot.{Slot};
    ghost use Rattle.sail_values.specs.contracts.value.Slot.{the_row};
    ghost use Rattle.std.specs.Coded.{coded_list};

    ghost Value = { List Slot };

    ghost coded = { coded_list the_row.coded };

    ghost view = { λ s. reverse s.slots.items };
}

impl Slots {
    /// No local name.
    pub fn new(alloc: Global) -> Slots
        ensures { result ≡ [] }
    {
        Slots {
            slots: Vec::new(alloc),
        }
    }

    /// How many there are.
    pub fn len(&self) -> usize
        ensures { result ≡ length self.now }
    {
        self.slots.len()
    }

    /// A new one, which hides those of the same name.
    pub fn push(&mut self, name: Name, local: Local) -> Result<(), AllocError>
        ensures ok { OnOk result (self.new ≡ record { name = name; local = local } ∷ self.old) }
        ensures err { OnErr result (self.new ≡ self.old) }
    {
        self.slots.push(Slot { name, local })?;
        Ok(())
    }

    /// Keeps the oldest.
    pub fn keep(&mut self, count: usize)
        ensures { self.new ≡ drop (length self.old - count) self.old }
    {
        self.slots.truncate(count);
    }

    /// What the newest of the name stands for.
    pub fn get(&self, name: &[u8]) -> Option<Local>
        ensures { result ≡ look name.now self.now }
    {
        let mut at = self.slots.len();
        while at > 0 {
            at -= 1;
            let slot = &self.slots[at];
            if slot.name.is(name) {
                return Some(slot.local);
            }
        }
        None
    }

    /// Lets the newest of the name stand for something else, and says whether there is one.
    pub fn set(&mut self, name: &[u8], local: Local) -> bool
        ensures written { self.new ≡ put name.now local self.old }
        ensures found { result ≡ has name.now self.old }
    {
        let mut at = self.slots.len();
        while at > 0 {
            at -= 1;
            let slot = &mut self.slots[at];
            if slot.name.is(name) {
                slot.local = local;
                return true;
            }
        }
        false
    }
}
