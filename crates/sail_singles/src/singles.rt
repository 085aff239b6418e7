//! What ends with an expression that stands alone in what is open.

ghost use Rattle.std.specs.Prelude.{◌≡◌, false};
ghost use Rattle.sail_syntax.specs.Tree.{flip, node, update, widen};
ghost use Rattle.sail_syntax.specs.View.{tree};
ghost use Rattle.sail_grammar.specs.declared.mark.Mark.TheVariants as mark;
ghost use Rattle.sail_machine.specs.Turns as spec;
ghost use Rattle.sail_frames.specs.Turning.{HasRoom, Turns};
ghost use Rattle.sail_frames.specs.View.{frame_of, frames_of, next_of};
ghost use Rattle.sail_rows.specs.Rows.{is_row};
ghost use Rattle.sail_singles.specs.Singles.{operand_if, subject_ends, turns_if};

use sail_frames::{Frame, Mode, Next, Stack, Stop, opened, unexpected};
use sail_grammar::{Keyword, Mark};
use sail_machine::{Await, IndexUse};
use sail_nodes::{flip, no_expr, no_index, update, widen};
use sail_rows::refused;
use sail_syntax::{Expr, Index};
use sqlite_items::Items;
use std::alloc::Global;
use std::mem::replace;

/// Something takes the place of what was closed, where this mark or quoted word comes next.
fn turns(
    stack: &mut Stack,
    comes: bool,
    frame: Frame,
    awaits: Await,
    at: usize,
) -> Result<Mode, Stop>
    requires { HasRoom stack.old frame }
    ensures { Turns (turns_if comes (frames_of stack.old) (frame_of frame) awaits at) result stack.new }
{
    if comes {
        stack.push(frame)?;
        Ok(Mode::Awaits(awaits))
    } else {
        unexpected(at)
    }
}

/// The subject of a match ends.
fn subject_ends(
    alloc: Global,
    stack: &mut Stack,
    on: Expr,
    at: usize,
    next: Next,
) -> Result<Mode, Stop>
    ensures { Turns (subject_ends (frames_of stack.old) (tree on) at (next_of next.entry)) result stack.new }
{
    if next.meets(Mark::OpenBrace) {
        let mode = Mode::Awaits(Await::Part(Items::new(alloc)));
        opened(stack, Frame::Arms(on, Items::new(alloc), at), mode, next.at)
    } else {
        unexpected(next.at)
    }
}

/// An expression ended in something else that does not end with it.
#[tactic(auto, unfolding(sail_machine::specs::Turns::ends_in))]
pub fn ends_in(
    alloc: Global,
    stack: &mut Stack,
    frame: &mut Frame,
    done: Expr,
    next: Next,
) -> Result<Mode, Stop>
    requires room { HasRoom stack.old frame.old }
    requires row { is_row (frame_of frame.old) ≡ false }
    ensures { Turns (spec.ends_in (frames_of stack.old) (frame_of frame.old) (tree done) (next_of next.entry)) result stack.new }
{
    match frame {
        Frame::Paren(at) => operand_where(Mark::Close, done, *at, next),
        Frame::Testing(at) => turns(
            stack,
            next.meets_keyword(Keyword::Then),
            Frame::Choosing(done, *at),
            Await::Want,
            next.at,
        ),
        Frame::Subject(at) => subject_ends(alloc, stack, done, *at, next),
        Frame::Updating(at) => turns(
            stack,
            next.meets_keyword(Keyword::With),
            Frame::Indexing(done, *at),
            Await::Index(IndexUse::WithHigh),
            next.at,
        ),
        Frame::Asserting(at) => turns(
            stack,
            next.meets(Mark::Comma),
            Frame::Asserted(done, *at),
            Await::Text,
            next.at,
        ),
        Frame::Flipping(at) => flip_ends(alloc, done, *at, next),
        Frame::Replacing(of, hi, lo, at) => {
            let of = replace(of, no_expr());
            let hi = replace(hi, no_index());
            let lo = replace(lo, no_index());
            update_ends(alloc, of, hi, lo, done, *at, next)
        }
        Frame::Widened(signed, to, at) => { widen_ends(alloc, *signed, *to, done, *at, next) }
        _ => refused(done, next.at),
    }
}

/// An operand ends where the mark comes next.
fn operand_where(which: Mark, done: Expr, at: usize, next: Next) -> Result<Mode, Stop>
    ensures { (k : _) → Turns (operand_if (frames_of k) (next_of next.entry) which at (tree done)) result k }
{
    if next.meets(which) {
        Ok(Mode::operand(done, at))
    } else {
        refused(done, next.at)
    }
}

/// `~` ends.
fn flip_ends(alloc: Global, done: Expr, at: usize, next: Next) -> Result<Mode, Stop>
    ensures { (k : _) → Turns (operand_if (frames_of k) (next_of next.entry) mark.Close at (node at (flip (tree done)))) result k }
{
    let whole = flip(alloc, done, at)?;
    operand_where(Mark::Close, whole, at, next)
}

/// An update ends.
fn update_ends(
    alloc: Global,
    of: Expr,
    hi: Index,
    lo: Index,
    done: Expr,
    at: usize,
    next: Next,
) -> Result<Mode, Stop>
    ensures { (k : _) → Turns (operand_if (frames_of k) (next_of next.entry) mark.CloseSquare at (node at (update (tree of) hi lo (tree done)))) result k }
{
    let whole = update(alloc, of, hi, lo, done, at)?;
    operand_where(Mark::CloseSquare, whole, at, next)
}

/// A widening ends.
fn widen_ends(
    alloc: Global,
    signed: bool,
    to: u32,
    done: Expr,
    at: usize,
    next: Next,
) -> Result<Mode, Stop>
    ensures { (k : _) → Turns (operand_if (frames_of k) (next_of next.entry) mark.Close at (node at (widen signed to (tree done)))) result k }
{
    let whole = widen(alloc, signed, to, done, at)?;
    operand_where(Mark::Close, whole, at, next)
}
