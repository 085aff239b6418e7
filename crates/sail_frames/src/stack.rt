//! What is open while a text is read, innermost first.

ghost use Rattle.std.specs.Prelude.{◌≡◌, ◌≤◌, ◌∷◌, [], ◌<◌, true, false, length, OnOk, MatchOption, nat_lt};
ghost use Rattle.sail_grammar.specs.Definitions.{most_of_a_kind};
ghost use Rattle.sail_machine.specs.Frames.{weight};
ghost use Rattle.sail_machine.specs.Turns.{count, defined, has_room};
ghost use Rattle.sail_counts.specs.Counts.{kind_of};
ghost use Rattle.sail_frames.specs.Turning.{HasRoom, HasSpace, is_in_chain, is_in_foreach};
ghost use Rattle.sail_frames.specs.View.{frame_of, frames_of};
ghost use Rattle.sail_syntax.specs.View.{definition_of};

use crate::frame::Frame;
use sail_counts::Counted;
use sail_syntax::Def;
use sqlite_items::Items;
use std::alloc::{AllocError, Global};
use std::marker::Model;

/// How deep a text may nest.
pub const MAX_NESTING: usize = 128;

/// What is open, and the nesting of a token that stands in all of it.
#[derive(Drop)]
pub struct Stack {
    frames: Items<Frame>,
    depth: usize,
}

impl Model for Stack {
    ghost use Rattle.std.specs.Prelude.{List, reverse};
    ghost use Rattle.std.specs.Coded.{coded_list};
    ghost use Rattle.sail_frames.specs.contracts.frame.Frame.{the_row};
    ghost use Rattle.sail_frames.specs.declared.frame.Frame.{Frame};
    ghost use Rattle.sail_frames.specs.Turning.{IsShallow};

    ghost Value = { List Frame };

    ghost coded = { coded_list the_row.coded };

    ghost view = { λ s. reverse s.frames };

    ghost invariant = { λ s. IsShallow s.depth (reverse s.frames) };
}

impl Stack {
    /// Nothing is open.
    pub fn new(alloc: Global) -> Stack
        ensures { result ≡ [] }
    {
        Stack {
            frames: Items::new(alloc),
            depth: 0,
        }
    }

    /// Whether there is room for so many levels more.
    pub fn has_room(&self, levels: usize) -> bool
        ensures { result ≡ has_room (frames_of self.now) levels }
    {
        levels <= MAX_NESTING - self.depth
    }

    /// Opens something for which there is room.
    pub fn push(&mut self, frame: Frame) -> Result<(), AllocError>
        requires { HasRoom self.old frame }
        ensures { OnOk result (self.new ≡ frame ∷ self.old) }
    {
        let more = frame.weight();
        self.frames.push(frame)?;
        self.depth += more;
        Ok(())
    }

    /// Opens something that nests nothing deeper.
    pub fn push_flat(&mut self, frame: Frame) -> Result<(), AllocError>
        requires { weight (frame_of frame) ≡ 0 }
        ensures { OnOk result (self.new ≡ frame ∷ self.old) }
    {
        self.frames.push(frame)?;
        Ok(())
    }

    /// Closes what was opened last.
    pub fn pop(&mut self) -> Option<Frame>
        ensures shallow { HasSpace self.old 0 }
        ensures top { MatchOption result ((self.old ≡ []) × (self.new ≡ [])) (λ top. self.old ≡ top ∷ self.new) }
    {
        let top = self.frames.pop()?;
        self.depth -= top.weight();
        Some(top)
    }

    /// Whether an operand that ends now is one of a chain.
    pub fn is_in_chain(&self) -> bool
        ensures { result ≡ is_in_chain (frames_of self.now) }
    {
        matches!(self.frames.as_slice().last(), Some(Frame::Chained(_, _, _)))
    }

    /// Whether a block that ends now is that of a foreach.
    pub fn is_in_foreach(&self) -> bool
        ensures { result ≡ is_in_foreach (frames_of self.now) }
    {
        matches!(
            self.frames.as_slice().last(),
            Some(Frame::Looping(_, _, _, _))
        )
    }

    /// Adds a definition.
    pub fn define(&mut self, def: Def) -> Result<(), AllocError>
        ensures { OnOk result (frames_of self.new ≡ defined (frames_of self.old) (definition_of def)) }
    {
        match self.pop() {
            Some(top) => self.push_with(top, def),
            None => Ok(()),
        }
    }

    /// Opens something again, with one more definition if it is the text.
    fn push_with(&mut self, mut top: Frame, def: Def) -> Result<(), AllocError>
        requires { HasRoom self.old top }
        ensures { OnOk result (frames_of self.new ≡ defined (frame_of top ∷ frames_of self.old) (definition_of def)) }
    {
        let added = top.add(def);
        self.push(top)?;
        added
    }

    /// Whether nothing is open.
    pub fn is_empty(&self) -> bool
        ensures empty { result ≡ true → self.now ≡ [] }
        ensures open { result ≡ false → 0 < length self.now }
    {
        self.frames.is_empty()
    }

    /// Whether there may be one more definition of this kind.
    pub fn may_have(&self, kind: Counted) -> bool
        ensures { result ≡ nat_lt (count (kind_of kind) (frames_of self.now)) most_of_a_kind }
    {
        match self.frames.as_slice().last() {
            Some(Frame::Program(defs)) => defs.may_have(kind),
            _ => true,
        }
    }
}
