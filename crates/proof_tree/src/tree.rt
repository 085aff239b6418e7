//! Specifications, procedures and proof files.

use crate::steps::Step;
use assert_core::Assertion;
use bv_bits::Bits;
use device_spec::DevSpec;
use lex_core::Name;
use sqlite_items::Items;
use state_core::Word;
use term_tree::{Term, Valuation, VarDecl};

/// An address.
#[derive(Drop)]
pub enum Addr {
    /// The address itself.
    Number(u64),
    /// The value of a symbol of the image; `at` is the place of the symbol's text in the file.
    Symbol { name: Name, at: usize },
}

/// A block: its name, its address, what holds where it begins, and its steps.
#[derive(Drop)]
pub struct Block {
    pub name: Name,
    pub at: Addr,
    pub assertion: Assertion,
    pub steps: Items<Step>,
}

/// An exit: its name, its address over the fixed variables, 64 bits wide, what holds there, and the steps that show that it
/// lies outside the code.
#[derive(Drop)]
pub struct ExitSpec {
    pub name: Name,
    pub at: Term,
    pub assertion: Assertion,
    pub steps: Items<Step>,
}

/// A trace that stands in place of the one that is made of an opcode.
#[derive(Drop)]
pub struct Supplied {
    /// The opcode, of 2 or 4 bytes.
    pub opcode: Word,
    /// The bytes between the braces.
    pub text: Name,
    /// The place in the file of the first of them.
    pub text_at: usize,
    /// The steps that show that what follows the made trace follows this one.
    pub steps: Items<Step>,
}

/// A state to begin with: values of fixed variables and of the entry's own, and answers of devices.
#[derive(Drop)]
pub struct Sample {
    pub values: Valuation,
    pub answers: Items<u128>,
}

/// A specification. Its first block is the entry.
#[derive(Drop)]
pub struct Spec {
    pub name: Name,
    /// The fixed variables.
    pub fix: Items<VarDecl>,
    /// The registers that are assumed to hold a literal, and never to be written.
    pub assumes: Items<(Name, Bits)>,
    /// The facts over fixed variables that are given.
    pub given: Items<Term>,
    /// The ranges of the code, each from an address up to below another.
    pub code: Items<(Addr, Addr)>,
    pub exits: Items<ExitSpec>,
    pub blocks: Items<Block>,
    pub traces: Items<Supplied>,
    pub sample: Option<Sample>,
}

/// What a call needs to know of a procedure.
#[derive(Drop)]
pub struct Head {
    pub name: Name,
    /// The fixed variables.
    pub fix: Items<VarDecl>,
    /// The registers that are assumed to hold a literal.
    pub assumes: Items<(Name, Bits)>,
    /// The facts over fixed variables that are given.
    pub given: Items<Term>,
    /// The ranges of the code.
    pub code: Items<(Addr, Addr)>,
    /// The address of the entry, which is the first block.
    pub at: Addr,
    /// What holds at the entry.
    pub entry: Assertion,
    /// The address that it returns to, over the fixed variables, 64 bits wide.
    pub back: Term,
    /// What holds where it returns.
    pub post: Assertion,
}

/// A procedure. Its first block is the entry.
#[derive(Drop)]
pub struct Proc {
    pub head: Head,
    pub blocks: Items<Block>,
    pub traces: Items<Supplied>,
}

/// A specification or a procedure.
#[derive(Clone, Copy, Drop)]
pub enum Unit<'u> {
    Spec(&'u Spec),
    Proc(&'u Proc),
}

/// A proof file. Procedures stand in files of version 2 alone.
#[derive(Drop)]
pub struct Proof {
    pub version: u32,
    pub devices: Items<DevSpec>,
    pub procs: Items<Proc>,
    pub specs: Items<Spec>,
}
