//! Certificates: lists of clauses, each of which follows from named clauses by unit propagation along given hints.
//!
//! A certificate whose last clause is empty shows that no assignment of the bits makes all named clauses true.
#![tactic(auto)]

ghost use Rattle.std.specs.Prelude.{◌≡◌, option_map, option_and_then, length, slice_get};

mod check;
mod congruence;
pub mod laws;
mod lits;
mod marks;
mod said;
mod trail;

pub use check::check_cert;
pub use congruence::congruence_literal;
pub use marks::Marks;
use sqlite_items::Items;

/// The name of a bit.
#[derive(Clone, Copy, PartialEq, Eq, Hash)]
pub enum BitName {
    /// The bit that is always true.
    Truth,
    /// A bit of a term: layer 0 has the term's own bits, the layers above have auxiliary ones. Bits count from 0, the
    /// lowest.
    Bit { term: u32, layer: u32, bit: u32 },
}

/// A literal: a bit is 1 where `on` is true, else it is 0.
#[derive(Clone, Copy, PartialEq, Eq, Hash)]
pub struct Lit {
    pub on: bool,
    pub of: BitName,
}

/// The name of a clause.
#[derive(Clone, Copy, PartialEq, Eq, Hash)]
pub enum Hint {
    /// The always true bit is 1.
    Truth,
    /// The goal's bit is 0.
    Goal,
    /// The bit of the fact with this number is 1.
    Fact(u32),
    /// The clause of the certificate's step with this number.
    Step(u32),
    /// A row of what makes a term's bits.
    Axiom {
        term: u32,
        part: u32,
        bit: u32,
        row: u32,
    },
}

/// A clause, which is the set of its literals, and the names of the clauses that it follows from, in order.
#[derive(Drop)]
pub struct CertStep {
    pub clause: Items<Lit>,
    pub hints: Items<Hint>,
}

/// A certificate: its steps, numbered from 0.
#[derive(Drop)]
pub struct Cert {
    pub steps: Items<CertStep>,
}

/// Clauses by their names.
pub trait Clauses {
    ghost use Rattle.std.specs.Prelude.{◌≡◌, ℕ, List, Option, None};
    ghost use Rattle.clause_core.specs.declared.Hint.{Hint};
    ghost use Rattle.clause_core.specs.declared.Hint.TheVariants.{Step};
    ghost use Rattle.clause_core.specs.declared.Lit.{Lit};

    ghost clause: { Self → Hint → Option (List Lit) };

    /// The number of literals of the clause with this name; none exactly where no clause has it.
    fn length(&self, name: Hint) -> Option<u32>
        ensures { result ≡ option_map length (clause self.now name) };

    /// The literal of that clause at an index, from 0; none exactly where the clause or the index isn't there.
    fn literal(&self, name: Hint, index: u32) -> Option<Lit>
        ensures { result ≡ option_and_then (λ c. slice_get c index) (clause self.now name) };

    ghost no_steps: { (s : Self) (n : ℕ) → clause s (Step n) ≡ None };
}

/// Why a certificate is refused; steps, and the hints of a step, count from 0.
#[derive(Clone, Copy, Debug, PartialEq, Eq)]
pub enum CertFault {
    /// The hinted clause has a true literal, or two literals that aren't false.
    NotUnit { step: u32, hint: u32 },
    /// The hints run out before a clause is false.
    NoConflict { step: u32 },
    /// The hint names no clause, its own step or a later one.
    NoSuch { step: u32, hint: u32 },
    /// There is no last clause, or it isn't empty.
    NotEmpty,
}
