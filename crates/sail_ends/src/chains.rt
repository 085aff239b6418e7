//! Chains of operands, and what follows an operand.

ghost use Rattle.std.specs.Prelude.{◌≡◌, ◌∷◌, [], ◌++◌, true, map};
ghost use Rattle.sail_syntax.specs.View.{tree};
ghost use Rattle.sail_grammar.specs.Expressions.{repeats};
ghost use Rattle.sail_machine.specs.Turns as spec;
ghost use Rattle.sail_frames.specs.Turning.{Turns, is_in_chain};
ghost use Rattle.sail_frames.specs.View.{frames_of, next_of};

use crate::ending::ends;
use sail_frames::{Frame, Mode, Next, Stack, Stop, fails, opened, same_infix, unexpected};
use sail_grammar::Mark;
use sail_machine::{Await, Flaw, IndexUse};
use sail_syntax::{Expr, Infix};
use sqlite_items::Items;
use std::alloc::Global;
use std::mem::replace;

/// Whether an operator may stand several times in a chain.
fn repeats(op: Infix) -> bool
    ensures { result ≡ repeats op }
{
    !matches!(op, Infix::Eq | Infix::Ne)
}

/// An operator in a chain.
fn chains(
    stack: &mut Stack,
    before: Infix,
    mut parts: Items<Expr>,
    last: Expr,
    from: usize,
    op: Infix,
    at: usize,
) -> Result<Mode, Stop>
    ensures { Turns (spec.chains (frames_of stack.old) before (map tree parts ++ tree last ∷ []) from op at) result stack.new }
{
    if !same_infix(before, op) {
        return fails(Flaw::Mixed, at);
    }
    if !repeats(op) {
        return unexpected(at);
    }
    parts.push(last)?;
    stack.push_flat(Frame::Chained(before, parts, from))?;
    Ok(Mode::Awaits(Await::Operand))
}

/// An operator behind a further operand of a chain.
fn chain_goes_on(
    alloc: Global,
    stack: &mut Stack,
    done: Expr,
    op: Infix,
    at: usize,
) -> Result<Mode, Stop>
    requires { is_in_chain (frames_of stack.old) ≡ true }
    ensures { (from : _) → Turns (spec.infix_after (frames_of stack.old) (tree done) from op at) result stack.new }
{
    let Some(mut top) = stack.pop() else {
        return unexpected(at);
    };
    match &mut top {
        Frame::Chained(before, parts, first) => {
            let parts = replace(parts, Items::new(alloc));
            chains(stack, *before, parts, done, *first, op, at)
        }
        _ => unexpected(at),
    }
}

/// An operator behind an operand that begins at the first place.
#[tactic(auto, using(crate::proofs::Tops::no_chain_goes))]
fn infix_after(
    alloc: Global,
    stack: &mut Stack,
    done: Expr,
    from: usize,
    op: Infix,
    at: usize,
) -> Result<Mode, Stop>
    ensures { Turns (spec.infix_after (frames_of stack.old) (tree done) from op at) result stack.new }
{
    if stack.is_in_chain() {
        return chain_goes_on(alloc, stack, done, op, at);
    }
    let mut parts = Items::new(alloc);
    parts.push(done)?;
    stack.push_flat(Frame::Chained(op, parts, from))?;
    Ok(Mode::Awaits(Await::Operand))
}

/// Behind an operand with so many slices that begins at the place.
pub fn after(
    alloc: Global,
    stack: &mut Stack,
    done: Expr,
    slices: u32,
    from: usize,
    next: Next,
) -> Result<Mode, Stop>
    ensures { Turns (spec.after (frames_of stack.old) (tree done) slices from (next_of next.entry)) result stack.new }
{
    if let Some(op) = next.operator() {
        infix_after(alloc, stack, done, from, op, next.at)
    } else if next.meets(Mark::OpenSquare) {
        let mode = Mode::Awaits(Await::Index(IndexUse::High));
        opened(stack, Frame::Slicing(done, slices, from), mode, next.at)
    } else {
        ends(alloc, stack, done, next)
    }
}
