//! What was opened last is closed, if it is of the kind that a word closes; its parts are taken out of it.

ghost use Rattle.std.specs.Prelude.{◌≡◌, ◌∷◌, [], Err, IfNone, IfSome};
ghost use Rattle.sail_machine.specs.Run.{given};
ghost use Rattle.sail_machine.specs.Headers as heads;
ghost use Rattle.sail_machine.specs.Machine as machine;
ghost use Rattle.sail_machine.specs.Turns.{unexpected};
ghost use Rattle.sail_frames.specs.Turning.{HasSpace};
ghost use Rattle.sail_frames.specs.View.{frames_of};
ghost use Rattle.sail_frames.specs.declared.frame.Frame.TheVariants as frame;

use sail_counts::Definitions;
use sail_frames::{Frame, Stack};
use sail_machine::Flaw;
use sail_nodes::no_expr;
use sail_syntax::{Arm, Expr, Stmt};
use sqlite_items::Items;
use std::alloc::Global;
use std::mem::replace;

/// The definitions, where nothing else is open.
pub fn pop_program(alloc: Global, stack: &mut Stack) -> Option<Definitions>
    ensures program { IfSome result (λ defs. stack.old ≡ frame.Program defs ∷ []) }
    ensures none { IfNone result ((at : _) → given (frames_of stack.old) at ≡ Err (record { flaw = Flaw.Unexpected; at = at })) }
{
    let mut top = stack.pop()?;
    match &mut top {
        Frame::Program(defs) if stack.is_empty() => Some(replace(defs, Definitions::new(alloc))),
        _ => None,
    }
}

/// A block whose next statement comes: its statements and its place.
pub fn pop_block(alloc: Global, stack: &mut Stack) -> Option<(Items<Stmt>, usize)>
    ensures block { IfSome result (λ p. stack.old ≡ frame.Statements p.0 p.1 ∷ stack.new) }
    ensures shallow { HasSpace stack.old 0 }
    ensures binds_none { IfNone result ((b x t at : _) → heads.binds_local (frames_of stack.old) b x t at ≡ unexpected at) }
    ensures closes_none { IfNone result ((before at : _) → machine.block_closes (frames_of stack.old) before at ≡ unexpected at) }
{
    let mut top = stack.pop()?;
    match &mut top {
        Frame::Statements(steps, at) => Some((replace(steps, Items::new(alloc)), *at)),
        _ => None,
    }
}

/// A widening whose width comes: whether it is signed, and its place.
pub fn pop_widening(stack: &mut Stack) -> Option<(bool, usize)>
    ensures widening { IfSome result (λ p. stack.old ≡ frame.Widening p.0 p.1 ∷ stack.new) }
    ensures shallow { HasSpace stack.old 0 }
    ensures none { IfNone result ((w at : _) → heads.widens (frames_of stack.old) w at ≡ unexpected at) }
{
    match &stack.pop()? {
        Frame::Widening(signed, at) => Some((*signed, *at)),
        _ => None,
    }
}

/// An assert whose text comes: its test and its place.
pub fn pop_asserted(stack: &mut Stack) -> Option<(Expr, usize)>
    ensures asserted { IfSome result (λ p. stack.old ≡ frame.Asserted p.0 p.1 ∷ stack.new) }
    ensures none { IfNone result ((z at : _) → heads.asserts (frames_of stack.old) z at ≡ unexpected at) }
{
    let mut top = stack.pop()?;
    match &mut top {
        Frame::Asserted(test, at) => Some((replace(test, no_expr()), *at)),
        _ => None,
    }
}

/// A match whose next arm comes: what it is on, its arms and its place.
pub fn pop_arms(alloc: Global, stack: &mut Stack) -> Option<(Expr, Items<Arm>, usize)>
    ensures arms { IfSome result (λ p. stack.old ≡ frame.Arms p.0 p.1 p.2 ∷ stack.new) }
    ensures shallow { HasSpace stack.old 0 }
    ensures none { IfNone result ((pattern at : _) → heads.arms_with (frames_of stack.old) pattern at ≡ unexpected at) }
    ensures closes_none { IfNone result ((at : _) → machine.arms_close (frames_of stack.old) at ≡ unexpected at) }
{
    let mut top = stack.pop()?;
    match &mut top {
        Frame::Arms(on, arms, at) => {
            Some((
                replace(on, no_expr()),
                replace(arms, Items::new(alloc)),
                *at,
            ))
        }
        _ => None,
    }
}

/// Slices of an operand: it, how many of them are whole, and its place.
pub fn pop_slicing(stack: &mut Stack) -> Option<(Expr, u32, usize)>
    ensures slicing { IfSome result (λ p. stack.old ≡ frame.Slicing p.0 p.1 p.2 ∷ stack.new) }
    ensures shallow { HasSpace stack.old 0 }
    ensures none { IfNone result ((hi lo at : _) → heads.slices (frames_of stack.old) hi lo at ≡ unexpected at) }
{
    let mut top = stack.pop()?;
    match &mut top {
        Frame::Slicing(of, whole, at) => Some((replace(of, no_expr()), *whole, *at)),
        _ => None,
    }
}

/// An update whose indices come: what it updates, and its place.
pub fn pop_indexing(stack: &mut Stack) -> Option<(Expr, usize)>
    ensures indexing { IfSome result (λ p. stack.old ≡ frame.Indexing p.0 p.1 ∷ stack.new) }
    ensures shallow { HasSpace stack.old 0 }
    ensures none { IfNone result ((hi lo at : _) → heads.replaces (frames_of stack.old) hi lo at ≡ unexpected at) }
{
    let mut top = stack.pop()?;
    match &mut top {
        Frame::Indexing(of, at) => Some((replace(of, no_expr()), *at)),
        _ => None,
    }
}
