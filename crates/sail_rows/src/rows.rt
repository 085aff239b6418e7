//! What ends with an expression that is one of several parts in a row: a body, an argument, an arm, a statement.

ghost use Rattle.std.specs.Prelude.{◌≡◌, ◌∷◌, [], ◌++◌, true, map, Ok};
ghost use Rattle.sail_syntax.specs.Tree.{cases, node};
ghost use Rattle.sail_syntax.specs.View.{cases_of, choice_of, step_of, tree};
ghost use Rattle.sail_machine.specs.Frames as m;
ghost use Rattle.sail_machine.specs.Frames.{awaits, whole};
ghost use Rattle.sail_machine.specs.declared.awaited.Await.TheVariants as a;
ghost use Rattle.sail_machine.specs.Turns as spec;
ghost use Rattle.sail_frames.specs.Turning.{HasRoom, HasSpace, Turns, is_in_foreach};
ghost use Rattle.sail_frames.specs.View.{frame_of, frames_of, next_of};
ghost use Rattle.sail_rows.specs.Rows.{is_row};

use lex_core::Name;
use sail_frames::{Frame, Mode, Next, Stack, Stop, definition, unexpected};
use sail_grammar::Mark;
use sail_machine::{Await, Binder, FunctionHead};
use sail_nodes::{block, call, cases, foreach, no_expr, no_name};
use sail_syntax::{Arm, Def, Expr, Pattern, Stmt, Ty};
use sqlite_items::Items;
use std::alloc::Global;
use std::mem::replace;

/// What stands in the place of a function's head that is taken out.
fn no_head(alloc: Global) -> FunctionHead {
    FunctionHead {
        name: no_name(alloc),
        params: Items::new(alloc),
        at: 0,
    }
}

/// A function ends, and the next definition begins.
fn body_ends(
    stack: &mut Stack,
    head: FunctionHead,
    ty: Ty,
    body: Expr,
    next: Next,
) -> Result<Mode, Stop>
    ensures { Turns (spec.definition (spec.defined (frames_of stack.old) (spec.function_of head ty (tree body))) (next_of next.entry)) result stack.new }
{
    let FunctionHead { name, params, at } = head;
    stack.define(Def::Function {
        name,
        params,
        result: ty,
        body,
        at,
    })?;
    definition(stack, next)
}

/// One argument more.
fn args_end(
    stack: &mut Stack,
    name: Name,
    mut args: Items<Expr>,
    last: Expr,
    at: usize,
    next: Next,
) -> Result<Mode, Stop>
    requires { HasSpace stack.old 1 }
    ensures { Turns (spec.args_end (frames_of stack.old) name (map tree args ++ tree last ∷ []) at (next_of next.entry)) result stack.new }
{
    args.push(last)?;
    if next.meets(Mark::Comma) {
        stack.push(Frame::Args(name, args, at))?;
        Ok(Mode::want())
    } else if next.meets(Mark::Close) {
        Ok(Mode::operand(call(name, args, at), at))
    } else {
        unexpected(next.at)
    }
}

/// One arm more, and the next one comes.
fn next_arm(
    stack: &mut Stack,
    on: Expr,
    mut arms: Items<Arm>,
    last: Arm,
    at: usize,
) -> Result<Mode, Stop>
    requires { HasSpace stack.old 2 }
    ensures { Turns (Ok (m.arms (tree on) (map choice_of arms ++ choice_of last ∷ []) at ∷ frames_of stack.old, awaits a.ArmOrEnd)) result stack.new }
{
    arms.push(last)?;
    stack.push(Frame::Arms(on, arms, at))?;
    Ok(Mode::Awaits(Await::ArmOrEnd))
}

/// A match ends with its last arm.
fn match_ends(
    alloc: Global,
    on: Expr,
    mut arms: Items<Arm>,
    last: Arm,
    at: usize,
) -> Result<Mode, Stop>
    ensures { (k : _) → Turns (Ok (frames_of k, whole (node at (cases (tree on) (cases_of (map choice_of arms ++ choice_of last ∷ [])))))) result k }
{
    arms.push(last)?;
    Ok(Mode::Whole(cases(alloc, on, arms, at)?))
}

/// One arm more.
fn arms_end(
    alloc: Global,
    stack: &mut Stack,
    on: Expr,
    arms: Items<Arm>,
    last: Arm,
    at: usize,
    next: Next,
) -> Result<Mode, Stop>
    requires { HasSpace stack.old 2 }
    ensures { Turns (spec.arms_end (frames_of stack.old) (tree on) (map choice_of arms ++ choice_of last ∷ []) at (next_of next.entry)) result stack.new }
{
    if next.meets(Mark::Comma) {
        next_arm(stack, on, arms, last, at)
    } else if next.meets(Mark::CloseBrace) {
        match_ends(alloc, on, arms, last, at)
    } else {
        unexpected(next.at)
    }
}

/// A foreach is closed with its block.
fn foreach_ends(
    alloc: Global,
    stack: &mut Stack,
    steps: Items<Stmt>,
    at: usize,
) -> Result<Mode, Stop>
    requires { is_in_foreach (frames_of stack.old) ≡ true }
    ensures { Turns (spec.closed (frames_of stack.old) (map step_of steps) at) result stack.new }
{
    let Some(mut top) = stack.pop() else {
        return unexpected(at);
    };
    match &mut top {
        Frame::Looping(var, from, to, place) => {
            let var = replace(var, no_name(alloc));
            let body = block(steps, at);
            Ok(Mode::Whole(foreach(alloc, var, *from, *to, body, *place)?))
        }
        _ => unexpected(at),
    }
}

/// A block is closed; that of a foreach ends the foreach.
#[tactic(auto, using(crate::proofs::Tops::no_foreach_closed))]
pub fn closed(alloc: Global, stack: &mut Stack, steps: Items<Stmt>, at: usize) -> Result<Mode, Stop>
    ensures { Turns (spec.closed (frames_of stack.old) (map step_of steps) at) result stack.new }
{
    if stack.is_in_foreach() {
        foreach_ends(alloc, stack, steps, at)
    } else {
        Ok(Mode::operand(block(steps, at), at))
    }
}

/// One statement more.
fn statements_end(
    alloc: Global,
    stack: &mut Stack,
    mut steps: Items<Stmt>,
    last: Stmt,
    at: usize,
    next: Next,
) -> Result<Mode, Stop>
    requires { HasSpace stack.old 1 }
    ensures { Turns (spec.statements_end (frames_of stack.old) (map step_of steps ++ step_of last ∷ []) at (next_of next.entry)) result stack.new }
{
    steps.push(last)?;
    if next.meets(Mark::Semicolon) {
        stack.push(Frame::Statements(steps, at))?;
        Ok(Mode::Awaits(Await::Statement(Some(next.at))))
    } else if next.meets(Mark::CloseBrace) {
        closed(alloc, stack, steps, at)
    } else {
        unexpected(next.at)
    }
}

/// The statement that declares a local.
fn bound(binder: Binder, name: Name, ty: Option<Ty>, by: Expr) -> Stmt
    ensures { step_of result ≡ spec.bound binder name ty (tree by) }
{
    match binder {
        Binder::Let => Stmt::Let { name, ty, by },
        Binder::Var => Stmt::Var { name, ty, by },
    }
}

/// Whether what is open holds parts in a row.
pub fn is_row(frame: &Frame) -> bool
    ensures { result ≡ is_row (frame_of frame.now) }
{
    match frame {
        Frame::Body(_, _) | Frame::Args(_, _, _) | Frame::Armed(_, _, _, _) => true,
        Frame::Statements(_, _) | Frame::Binding(_, _, _, _, _) => true,
        _ => false,
    }
}

/// An expression stands where it can't end.
pub fn refused(_: Expr, at: usize) -> Result<Mode, Stop>
    ensures { (k : _) → Turns (spec.unexpected at) result k }
{
    unexpected(at)
}

/// An expression ended in a row of parts.
#[tactic(auto, unfolding(sail_machine::specs::Turns::ends_in))]
pub fn ends_in_row(
    alloc: Global,
    stack: &mut Stack,
    frame: &mut Frame,
    done: Expr,
    next: Next,
) -> Result<Mode, Stop>
    requires room { HasRoom stack.old frame.old }
    requires row { is_row (frame_of frame.old) ≡ true }
    ensures { Turns (spec.ends_in (frames_of stack.old) (frame_of frame.old) (tree done) (next_of next.entry)) result stack.new }
{
    match frame {
        Frame::Body(head, result) => {
            let head = replace(head, no_head(alloc));
            let result = replace(result, Ty::Unit);
            body_ends(stack, head, result, done, next)
        }
        Frame::Args(name, args, at) => {
            let name = replace(name, no_name(alloc));
            let args = replace(args, Items::new(alloc));
            args_end(stack, name, args, done, *at, next)
        }
        Frame::Armed(on, arms, pattern, at) => {
            let on = replace(on, no_expr());
            let arms = replace(arms, Items::new(alloc));
            let last = Arm {
                pattern: replace(pattern, Pattern::Any),
                body: done,
            };
            arms_end(alloc, stack, on, arms, last, *at, next)
        }
        Frame::Statements(steps, at) => {
            let steps = replace(steps, Items::new(alloc));
            statements_end(alloc, stack, steps, Stmt::Do(done), *at, next)
        }
        Frame::Binding(steps, binder, name, ty, at) => {
            let steps = replace(steps, Items::new(alloc));
            let name = replace(name, no_name(alloc));
            let last = bound(*binder, name, ty.take(), done);
            statements_end(alloc, stack, steps, last, *at, next)
        }
        _ => refused(done, next.at),
    }
}
