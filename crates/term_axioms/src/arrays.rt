// Array variables, and the numbers that they get.

ghost use Rattle.std.specs.Prelude.{◌≡◌, ℕ, Some, None, OnOk, IfOk, cond, bytes_eq};
ghost use Rattle.term_tree.specs.Terms.{Text};
ghost use Rattle.term_axioms.specs.Arrays.{number_for};

use indexmap::IndexMap;
use lex_core::NoMemory;
use std::alloc::Global;

/// Numbers of array variables, by their names.
#[derive(Drop)]
pub struct Arrays {
    pub numbers: IndexMap<Vec<u8>, u32>,
}

impl Arrays {
    /// No array variable has a number.
    pub fn new(alloc: Global) -> Arrays
        ensures { (f : Text) → number_for result f ≡ None }
    {
        Arrays {
            numbers: IndexMap::new(alloc),
        }
    }

    /// The number of an array variable, if it has one.
    pub fn get(&self, name: &[u8]) -> Option<u32>
        ensures { result ≡ number_for self.now name.now }
    {
        self.numbers.get(name).copied()
    }

    /// Gives a number to an array variable that has none.
    pub fn put(&mut self, alloc: Global, name: &[u8], number: u32) -> Result<(), NoMemory>
        requires { number_for self.old name.now ≡ None }
        ensures { OnOk result ((f : Text) → number_for self.new f ≡ cond (bytes_eq name.now f) (Some number) (number_for self.old f)) }
    {
        let mut key = Vec::new(alloc);
        key.extend_from_slice(name)?;
        self.numbers.insert(key, number)?;
        Ok(())
    }
}
