// Numbers of nodes, and the numbers of the nodes that stand for them.

ghost use Rattle.std.specs.Prelude.{◌≡◌, ℕ, None, Some, OnOk, OnErr, IfOk, cond, nat_eq};
ghost use Rattle.std.specs.Option.{option_or};
ghost use Rattle.arena_replace.specs.Renumbering.{number_for, first_term, first_array};

use indexmap::IndexMap;
use lex_core::NoMemory;
use std::alloc::Global;
use term_arena::{ArrayId, TermId};

/// For numbers of nodes the numbers of the nodes that stand for them.
#[derive(Drop)]
pub struct Renumbering {
    pub numbers: IndexMap<u32, u32>,
}

impl Renumbering {
    /// One in which nothing stands for any number.
    fn new(alloc: Global) -> Renumbering
        ensures { (n : ℕ) → number_for result n ≡ None }
    {
        Renumbering {
            numbers: IndexMap::new(alloc),
        }
    }

    /// By pairs of terms the second for the first. Of two pairs with one first term the earlier counts.
    pub fn of_terms(alloc: Global, pairs: &[(TermId, TermId)]) -> Result<Renumbering, NoMemory>
        ensures { IfOk result (λ m. (n : ℕ) → number_for m n ≡ first_term pairs.now n) }
    {
        let mut renumbering = Renumbering::new(alloc);
        for pair in pairs {
            renumbering.put_first(pair.0.number, pair.1.number)?;
        }
        Ok(renumbering)
    }

    /// By pairs of array terms the second for the first. Of two pairs with one first array term the earlier counts.
    pub fn of_arrays(alloc: Global, pairs: &[(ArrayId, ArrayId)]) -> Result<Renumbering, NoMemory>
        ensures { IfOk result (λ m. (n : ℕ) → number_for m n ≡ first_array pairs.now n) }
    {
        let mut renumbering = Renumbering::new(alloc);
        for pair in pairs {
            renumbering.put_first(pair.0.number, pair.1.number)?;
        }
        Ok(renumbering)
    }

    /// The number that stands for this one, if one does.
    pub fn get(&self, number: u32) -> Option<u32>
        ensures { result ≡ number_for self.now number }
    {
        self.numbers.get(&number).copied()
    }

    /// Lets a number stand for another one.
    pub fn put(&mut self, number: u32, by: u32) -> Result<(), NoMemory>
        ensures put { OnOk result ((n : ℕ) → number_for self.new n ≡ cond (nat_eq number n) (Some by) (number_for self.old n)) }
        ensures err { OnErr result ((n : ℕ) → number_for self.new n ≡ number_for self.old n) }
    {
        self.numbers.insert(number, by)?;
        Ok(())
    }

    /// Lets a number stand for another one, unless one does already.
    fn put_first(&mut self, number: u32, by: u32) -> Result<(), NoMemory>
        ensures { OnOk result ((n : ℕ) → number_for self.new n ≡ option_or (number_for self.old n) (cond (nat_eq number n) (Some by) None)) }
    {
        if self.get(number).is_some() {
            return Ok(());
        }
        self.put(number, by)
    }
}
