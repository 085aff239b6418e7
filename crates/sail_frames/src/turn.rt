//! What a word does, as all words share it: it changes what is open and what comes next, or it is a fault.

ghost use Rattle.std.specs.Prelude.{◌≡◌, length};
ghost use Rattle.sail_machine.specs.declared.awaited.Await.TheVariants as a;
ghost use Rattle.sail_machine.specs.Turns as spec;
ghost use Rattle.sail_counts.specs.Counts.{kind_of};
ghost use Rattle.sail_frames.specs.Turning.{Turns};
ghost use Rattle.sail_frames.specs.View.{frame_of, frames_of, mode_of, next_of};

use crate::frame::Frame;
use crate::mode::Mode;
use crate::next::{Next, is_keyword};
use crate::stack::Stack;
use crate::stop::Stop;
use sail_counts::Counted;
use sail_grammar::{Keyword, Sign};
use sail_machine::{Await, Fault, Flaw, Naming};

/// A flaw at a place.
pub fn fails(flaw: Flaw, at: usize) -> Result<Mode, Stop>
    ensures { (k : _) → Turns (spec.fails flaw at) result k }
{
    Err(Stop::Fault(Fault { flaw, at }))
}

/// No continuation is in the grammar.
pub fn unexpected(at: usize) -> Result<Mode, Stop>
    ensures { (k : _) → Turns (spec.unexpected at) result k }
{
    fails(Flaw::Unexpected, at)
}

/// Something more is open, from the word at the place on.
pub fn opened(stack: &mut Stack, frame: Frame, mode: Mode, at: usize) -> Result<Mode, Stop>
    ensures { Turns (spec.opened (frames_of stack.old) (frame_of frame) (mode_of mode) at) result stack.new }
{
    if stack.has_room(frame.weight()) {
        stack.push(frame)?;
        Ok(mode)
    } else {
        fails(Flaw::TooDeep, at)
    }
}

/// One more definition of a kind begins.
fn begins(stack: &Stack, kind: Counted, naming: Naming, at: usize) -> Result<Mode, Stop>
    ensures { Turns (spec.begins (kind_of kind) (frames_of stack.now) (a.Name naming) at) result stack.now }
{
    if stack.may_have(kind) {
        Ok(Mode::Awaits(Await::Name(naming)))
    } else {
        fails(Flaw::TooMany, at)
    }
}

/// The first word of a definition.
fn first_word(stack: &Stack, sign: &Sign, at: usize) -> Result<Mode, Stop>
    ensures { Turns (spec.first_word (frames_of stack.now) sign.now at) result stack.now }
{
    if is_keyword(Keyword::Register, sign) {
        begins(stack, Counted::Register, Naming::Register(at), at)
    } else if is_keyword(Keyword::Enum, sign) {
        begins(stack, Counted::Enum, Naming::Enum(at), at)
    } else if is_keyword(Keyword::Val, sign) {
        Ok(Mode::Awaits(Await::Name(Naming::Val(at))))
    } else if is_keyword(Keyword::Function, sign) {
        begins(stack, Counted::Function, Naming::Function(at), at)
    } else {
        unexpected(at)
    }
}

/// A definition, or the end.
pub fn definition(stack: &Stack, next: Next) -> Result<Mode, Stop>
    ensures { Turns (spec.definition (frames_of stack.now) (next_of next.entry)) result stack.now }
{
    match next.sign {
        Some(sign) => first_word(stack, sign, next.at),
        None => Ok(Mode::Awaits(Await::Definition)),
    }
}
