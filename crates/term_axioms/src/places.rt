// Distinct terms by their numbers, and the place of each.

ghost use Rattle.std.specs.Prelude.{◌≡◌, ◌<◌, ◌≤◌, ◌^◌, [], true, false, length, nat_eq, OnOk, All};
ghost use Rattle.std.specs.List.{list_any, position_or_len};
ghost use Rattle.indexmap.specs.IndexSet.{insert_key};

use indexmap::IndexSet;
use lex_core::NoMemory;
use std::alloc::Global;
use std::marker::Model;
use term_arena::TermId;

/// Distinct terms, which contracts see as the list of their numbers.
#[derive(Drop)]
pub struct Places {
    ids: IndexSet<u32>,
}

impl Model for Places {
    ghost use Rattle.std.specs.Prelude.{List, ℕ, nat_eq};
    ghost use Rattle.indexmap.specs.IndexSet.{IsUnique};

    ghost Value = { List ℕ };

    ghost view = { λ p. p.ids.keys };

    ghost invariant = { λ p. IsUnique nat_eq p.ids };
}

impl Places {
    /// No terms.
    pub fn new(alloc: Global) -> Places
        ensures { result ≡ [] }
    {
        Places {
            ids: IndexSet::new(alloc),
        }
    }

    /// Whether a term is there.
    pub fn contains(&self, id: TermId) -> bool
        ensures { result ≡ list_any (nat_eq id.number) self.now }
    {
        self.ids.contains(&id.number)
    }

    /// Puts a term behind the others, where it isn't there yet.
    pub fn add(&mut self, id: TermId) -> Result<(), NoMemory>
        ensures { OnOk result (self.new ≡ insert_key nat_eq self.old id.number) }
    {
        self.ids.insert(id.number)?;
        Ok(())
    }

    /// The place of a term.
    #[tactic(auto, using(crate::proofs::PlaceLemmas::few_places))]
    pub fn place(&self, id: TermId) -> u32
        requires there { list_any (nat_eq id.number) self.now ≡ true }
        requires few { All (λ i. i < 2 ^ 32) self.now }
        ensures { result ≡ position_or_len (nat_eq id.number) self.now }
    {
        match self.ids.get_index_of(&id.number) {
            Some(place) => place as u32,
            None => unreachable!(),
        }
    }

    /// The numbers of the terms.
    #[tactic(auto, using(crate::proofs::PlaceLemmas::few_places))]
    pub fn as_slice(&self) -> &[u32]
        ensures numbers { result.now ≡ self.now }
        ensures few { All (λ i. i < 2 ^ 32) self.now → length self.now ≤ 2 ^ 32 }
    {
        self.ids.as_slice()
    }
}
