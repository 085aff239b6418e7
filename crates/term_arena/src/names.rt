// The names of variables, each kept once.

ghost use Rattle.std.specs.Prelude.{◌≡◌, ◌≢◌, ◌≤◌, ◌<◌, ◌++◌, [], ◌∷◌, length, slice_index_or, slice_get, Some, IfOk, OnErr, AllPairs};
ghost use Rattle.term_arena.specs.Arena.{name_at};
ghost use Rattle.term_arena.specs.Texts.{Grows};

use indexmap::IndexMap;
use lex_core::{Name, NoMemory};
use std::alloc::Global;
use std::marker::Model;

/// Distinct names, which contracts see as the list of their bytes. A name's number is its place in the list.
#[derive(Drop)]
pub struct Names {
    texts: IndexMap<Vec<u8>, Name>,
}

impl Model for Names {
    ghost use Rattle.std.specs.Prelude.{List, ℕ, map};
    ghost use Rattle.term_arena.specs.Texts.{AreTexts};

    ghost Value = { List (List ℕ) };

    ghost view = { λ n. map (λ e. e.1) n.texts.entries };

    ghost invariant = { λ n. AreTexts n.texts.entries };
}

impl Names {
    /// No names.
    pub fn new(alloc: Global) -> Names
        ensures { result ≡ [] }
    {
        Names {
            texts: IndexMap::new(alloc),
        }
    }

    /// The number of a name, which is put behind the others where it isn't there yet.
    pub fn number(&mut self, alloc: Global, text: &[u8]) -> Result<usize, NoMemory>
        ensures there { IfOk result (λ i. slice_get self.new i ≡ Some text.now) }
        ensures grows { Grows self.old self.new }
        ensures once { AllPairs (λ x y. x ≢ y) self.new }
    {
        if let Some(i) = self.texts.get_index_of(text) {
            return Ok(i);
        }
        let i = self.texts.len();
        let mut key = Vec::new(alloc);
        key.extend_from_slice(text)?;
        let name = Name::of(alloc, text)?;
        self.texts.insert(key, name)?;
        Ok(i)
    }

    /// The name of a number.
    pub fn get(&self, number: usize) -> &Name
        requires { number < length self.now }
        ensures { result.now ≡ name_at self.now number }
    {
        match self.texts.get_index(number) {
            Some((_, name)) => name,
            None => unreachable!(),
        }
    }
}
