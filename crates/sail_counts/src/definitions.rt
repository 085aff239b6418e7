//! The definitions that are read, and how many of each kind there are.

ghost use Rattle.std.specs.Prelude.{◌≡◌, ◌∷◌, [], ◌++◌, OnOk, length, map, nat_lt};
ghost use Rattle.std.specs.List.{filter};
ghost use Rattle.sail_grammar.specs.Definitions.{most_of_a_kind};
ghost use Rattle.sail_counts.specs.Counts.{counted_of, kind_of, one_more};
ghost use Rattle.sail_syntax.specs.View.{definition_of};

use sail_syntax::Def;
use sqlite_items::Items;
use std::alloc::{AllocError, Global};
use std::marker::Model;

/// How many registers, enums and functions each a text may have.
pub const MOST_OF_A_KIND: u32 = 1024;

/// Which definitions are counted.
#[derive(Clone, Copy, Debug, PartialEq, Eq)]
pub enum Counted {
    Register,
    Enum,
    Function,
}

/// The definitions so far. Each count stops at the limit.
#[derive(Drop)]
pub struct Definitions {
    defs: Items<Def>,
    registers: u32,
    enums: u32,
    functions: u32,
}

impl Model for Definitions {
    ghost use Rattle.std.specs.Prelude.{List};
    ghost use Rattle.std.specs.Coded.{coded_list};
    ghost use Rattle.sail_syntax.specs.contracts.definitions.Def.{the_row};
    ghost use Rattle.sail_syntax.specs.declared.definitions.Def.{Def};
    ghost use Rattle.sail_counts.specs.Counts.{HasCounts};

    ghost Value = { List Def };

    ghost coded = { coded_list the_row.coded };

    ghost view = { λ d. d.defs };

    ghost invariant = { λ d. HasCounts d.defs d.registers d.enums d.functions };
}

/// As which kind a definition is counted.
fn counted_as(def: &Def) -> Option<Counted>
    ensures { result ≡ counted_of (definition_of def.now) }
{
    match def {
        Def::Register { .. } => Some(Counted::Register),
        Def::Enum { .. } => Some(Counted::Enum),
        Def::Function { .. } => Some(Counted::Function),
        _ => None,
    }
}

/// One more, up to the limit.
fn one_more(so_far: u32) -> u32
    ensures { result ≡ one_more so_far }
{
    if so_far < MOST_OF_A_KIND {
        so_far + 1
    } else {
        so_far
    }
}

impl Definitions {
    /// None.
    pub fn new(alloc: Global) -> Definitions
        ensures { result ≡ [] }
    {
        Definitions {
            defs: Items::new(alloc),
            registers: 0,
            enums: 0,
            functions: 0,
        }
    }

    /// Adds one.
    #[tactic(auto, using(crate::proofs::CountLemmas::counts_none, crate::proofs::CountLemmas::counts_register, crate::proofs::CountLemmas::counts_enum, crate::proofs::CountLemmas::counts_function))]
    pub fn push(&mut self, def: Def) -> Result<(), AllocError>
        ensures { OnOk result (self.new ≡ self.old ++ def ∷ []) }
    {
        let kind = counted_as(&def);
        self.defs.push(def)?;
        match kind {
            Some(Counted::Register) => self.registers = one_more(self.registers),
            Some(Counted::Enum) => self.enums = one_more(self.enums),
            Some(Counted::Function) => self.functions = one_more(self.functions),
            None => {}
        }
        Ok(())
    }

    /// Whether there may be one more of this kind.
    pub fn may_have(&self, kind: Counted) -> bool
        ensures { result ≡ nat_lt (length (filter (kind_of kind) (map definition_of self.now))) most_of_a_kind }
    {
        let count = match kind {
            Counted::Register => self.registers,
            Counted::Enum => self.enums,
            Counted::Function => self.functions,
        };
        count < MOST_OF_A_KIND
    }

    /// All of them.
    pub fn into_items(self) -> Items<Def>
        ensures { result ≡ self }
    {
        self.defs
    }
}
