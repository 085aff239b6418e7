//! What ends with an expression, from the innermost to the outermost.

ghost use Rattle.std.specs.Prelude.{◌≡◌, ◌∷◌, true, false, IfOk};
ghost use Rattle.sail_syntax.specs.View.{tree};
ghost use Rattle.sail_machine.specs.Turns as spec;
ghost use Rattle.sail_frames.specs.Turning.{HasRoom, Turns};
ghost use Rattle.sail_frames.specs.View.{frame_of, frames_of, next_of};
ghost use Rattle.sail_ends.specs.Endings.{ends_with, is_choosing, outer};

use sail_frames::{Frame, Mode, Next, Stack, Stop, unexpected};
use sail_grammar::Keyword;
use sail_nodes::{assign, chain, choose, no_expr, no_name, when};
use sail_rows::{ends_in_row, is_row};
use sail_singles::ends_in;
use sail_syntax::Expr;
use sqlite_items::Items;
use std::alloc::{AllocError, Global};
use std::mem::replace;

/// Whether what is open ends with an expression that ends in front of this.
fn ends_with(frame: &Frame, next: Next) -> bool
    ensures { result ≡ ends_with (frame_of frame.now) (next_of next.entry) }
{
    match frame {
        Frame::Choosing(_, _) => !next.meets_keyword(Keyword::Else),
        Frame::Otherwise(_, _, _) | Frame::Chained(_, _, _) | Frame::Assigning(_, _) => true,
        _ => false,
    }
}

/// The expression that ended with its last part.
fn outer(alloc: Global, frame: &mut Frame, done: Expr) -> Result<Expr, AllocError>
    ensures { IfOk result (λ e. tree e ≡ outer (frame_of frame.old) (tree done)) }
{
    match frame {
        Frame::Choosing(test, at) => when(alloc, replace(test, no_expr()), done, *at),
        Frame::Otherwise(test, one, at) => {
            let test = replace(test, no_expr());
            let one = replace(one, no_expr());
            choose(alloc, test, one, done, *at)
        }
        Frame::Chained(op, parts, at) => {
            let parts = replace(parts, Items::new(alloc));
            chain(*op, parts, done, *at)
        }
        Frame::Assigning(to, at) => assign(alloc, replace(to, no_name(alloc)), done, *at),
        _ => Ok(done),
    }
}

/// Whether the part behind `then` of an if is awaited.
fn is_choosing(frame: &Frame) -> bool
    ensures { result ≡ is_choosing (frame_of frame.now) }
{
    matches!(frame, Frame::Choosing(_, _))
}

/// `else` comes.
#[tactic(auto, using(crate::proofs::EndLemmas::ends_else))]
fn else_comes(stack: &mut Stack, frame: &mut Frame, done: Expr, next: Next) -> Result<Mode, Stop>
    requires room { HasRoom stack.old frame.old }
    requires choosing { is_choosing (frame_of frame.old) ≡ true }
    requires comes { ends_with (frame_of frame.old) (next_of next) ≡ false }
    ensures { Turns (spec.ends (frame_of frame.old ∷ frames_of stack.old) (tree done) (next_of next.entry)) result stack.new }
{
    match frame {
        Frame::Choosing(test, at) => {
            let test = replace(test, no_expr());
            stack.push(Frame::Otherwise(test, done, *at))?;
            Ok(Mode::want())
        }
        _ => unexpected(next.at),
    }
}

/// An expression ended, and this comes next: what ends with it ends too.
#[tactic(auto, using(crate::proofs::EndLemmas::ends_outer, crate::proofs::EndLemmas::ends_inner, crate::proofs::EndLemmas::ends_none))]
pub fn ends(alloc: Global, stack: &mut Stack, done: Expr, next: Next) -> Result<Mode, Stop>
    ensures { Turns (spec.ends (frames_of stack.old) (tree done) (next_of next.entry)) result stack.new }
{
    let mut done = done;
    while let Some(mut frame) = stack.pop() {
        if ends_with(&frame, next) {
            done = outer(alloc, &mut frame, done)?;
        } else if is_choosing(&frame) {
            return else_comes(stack, &mut frame, done, next);
        } else if is_row(&frame) {
            return ends_in_row(alloc, stack, &mut frame, done, next);
        } else {
            return ends_in(alloc, stack, &mut frame, done, next);
        }
    }
    unexpected(next.at)
}
