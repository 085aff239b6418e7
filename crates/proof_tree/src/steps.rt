//! The steps of a block, an exit or a supplied trace.

use clause_core::Cert;
use lex_core::Name;
use sqlite_items::Items;
use term_tree::{ArrayTerm, Term};

/// What stands for a certificate.
#[derive(Drop)]
pub enum CertText {
    /// `?`: none is given yet.
    Open,
    /// A certificate.
    Given(Cert),
}

/// What is bound to a variable of a target.
#[derive(Drop)]
pub enum Bind {
    /// A term, to a variable of its width.
    Term(Term),
    /// An array term, to an array variable.
    Array(ArrayTerm),
    /// The present value of a register.
    Reg(Name),
    /// The present value of the place with this number.
    Mem(u32),
}

/// Where a step leads: the name of its target, what is bound to each of the target's variables in their order, and the
/// numbers of the places that the target's places are taken from, in their order.
#[derive(Drop)]
pub struct Move {
    pub to: Name,
    pub binds: Items<Bind>,
    pub places: Items<u32>,
}

/// A step.
#[derive(Drop)]
pub enum Step {
    /// `use`: an access of memory is one of the place with this number.
    Use(u32),
    /// `use code`: a read is one of the code.
    UseCode,
    /// `keep`: a branch is taken, and its condition becomes a fact.
    Keep,
    /// `prove`: the goal, by a certificate.
    Prove(CertText),
    /// `dead`: a branch that can't be taken, by a certificate of the opposite of its condition.
    Dead(CertText),
    /// `drop`: a case that a supplied trace leaves out, by a certificate of the opposite of its condition.
    Drop(CertText),
    /// `to`: the walk goes on as a block.
    To(Move),
    /// `exit`: the walk ends at an exit of a specification.
    Exit(Move),
    /// `call`: a procedure is entered, and the walk goes on behind its return.
    Call(Move),
    /// `return`: the walk ends at the return of a procedure.
    Return {
        binds: Items<Bind>,
        places: Items<u32>,
    },
}
