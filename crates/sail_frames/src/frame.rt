//! What is open, and by how much it nests deeper what stands in it.

ghost use Rattle.std.specs.Prelude.{◌≡◌, ◌∷◌, OnOk};
ghost use Rattle.sail_machine.specs.Frames.{weight};
ghost use Rattle.sail_machine.specs.Turns.{defined};
ghost use Rattle.sail_syntax.specs.View.{definition_of};
ghost use Rattle.sail_frames.specs.View.{frame_of};

use lex_core::Name;
use sail_counts::Definitions;
use sail_machine::{Binder, FunctionHead};
use sail_syntax::{Arm, Def, Expr, Index, Infix, Pattern, Stmt, Ty};
use sqlite_items::Items;
use std::alloc::AllocError;

/// Something that is open, with the place where its first token begins.
#[derive(Drop)]
pub enum Frame {
    /// The text, and its definitions so far.
    Program(Definitions),
    /// A function, whose body is awaited.
    Body(FunctionHead, Ty),
    /// Parentheses.
    Paren(usize),
    /// A call, and its arguments so far.
    Args(Name, Items<Expr>, usize),
    /// An `if`, whose test is awaited.
    Testing(usize),
    /// An `if`, whose part behind `then` is awaited.
    Choosing(Expr, usize),
    /// An `if`, whose part behind `else` is awaited.
    Otherwise(Expr, Expr, usize),
    /// A `match`, what it is on is awaited.
    Subject(usize),
    /// A `match`, and its arms so far.
    Arms(Expr, Items<Arm>, usize),
    /// A `match`, and the arm whose body is awaited.
    Armed(Expr, Items<Arm>, Pattern, usize),
    /// A chain, and its operands so far.
    Chained(Infix, Items<Expr>, usize),
    /// An assignment.
    Assigning(Name, usize),
    /// `~`.
    Flipping(usize),
    /// Slices of an operand, so many of them whole.
    Slicing(Expr, u32, usize),
    /// An update, what it updates is awaited.
    Updating(usize),
    /// An update, whose indices are awaited.
    Indexing(Expr, usize),
    /// An update, what replaces the bits is awaited.
    Replacing(Expr, Index, Index, usize),
    /// A widening, whose width is awaited.
    Widening(bool, usize),
    /// A widening, what it widens is awaited.
    Widened(bool, u32, usize),
    /// An `assert`, whose test is awaited.
    Asserting(usize),
    /// An `assert`, whose text is awaited.
    Asserted(Expr, usize),
    /// A `foreach`, whose block is awaited.
    Looping(Name, u32, u32, usize),
    /// A block, and its statements so far.
    Statements(Items<Stmt>, usize),
    /// A block, and the local whose value is awaited.
    Binding(Items<Stmt>, Binder, Name, Option<Ty>, usize),
}

impl Frame {
    /// Adds a definition, if it is the text.
    pub fn add(&mut self, def: Def) -> Result<(), AllocError>
        ensures weight { weight (frame_of self.new) ≡ weight (frame_of self.old) }
        ensures added { OnOk result ((k : _) → defined (frame_of self.old ∷ k) (definition_of def) ≡ frame_of self.new ∷ k) }
    {
        match self {
            Frame::Program(defs) => defs.push(def),
            _ => Ok(()),
        }
    }

    /// By how much it nests deeper what stands in it.
    pub fn weight(&self) -> usize
        ensures { result ≡ weight (frame_of self.now) }
    {
        match self {
            Frame::Program(_) | Frame::Body(_, _) => 0,
            Frame::Chained(_, _, _) | Frame::Looping(_, _, _, _) => 0,
            Frame::Arms(_, _, _) | Frame::Armed(_, _, _, _) => 2,
            Frame::Slicing(_, whole, _) => *whole as usize + 1,
            _ => 1,
        }
    }
}
