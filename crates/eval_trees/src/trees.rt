//! What expressions mean: the evaluator, one cycle of functions over the tree.

ghost use Rattle.std.specs.Prelude.{◌≡◌, ◌+◌, ◌-◌, true, List, [], length, map};
ghost use Rattle.eval_rules.specs.Eval.{eval, eval_chain, eval_all, eval_arms, eval_step, eval_steps, turns, turn, called};
ghost use Rattle.eval_rules.specs.Moments.{moments, chain_moments, args_moments, arms_moments, step_moments, steps_moments, turns_moments, called_moments, Passing};
ghost use Rattle.eval_parts.specs.Worlds.{Agrees, LeavesPassed};
ghost use Rattle.eval_trees.specs.Inside.{here_now, calls_now, moments_now, turn_moments};
ghost use Rattle.eval_trees.specs.Kinds.{is_act, is_bits, is_choice};
ghost use Rattle.sail_values.specs.declared.value.Slot.{Slot};
ghost use Rattle.sail_values.specs.declared.value.Value.{Value};
ghost use Rattle.sail_values.specs.declared.value.Value.TheVariants as values;
ghost use Rattle.sail_syntax.specs.View.{tree, trees, choice_of, cases_of, step_of, steps_of};
ghost use Rattle.state_core.specs.State.{widths_of};

use crate::setting::Setting;
use eval_parts::{
    Locals, World, bound, enter, fits, given_call, index_at, read, sliced, updated, write,
};
use lex_core::Name;
use sail_names::Thing;
use sail_syntax::{Arm, Def, Expr, Infix, Node, Stmt};
use sail_values::{Local, Stop, Value, applied, decides, flipped, is_true, widened};
use sqlite_items::Items;
use state_core::FaultKind;
use std::alloc::Global;

/// What an expression means, of a text.
#[cycle(eval)]
pub fn eval<'a>(
    alloc: Global,
    text: &Setting<'a>,
    e: &'a Expr,
    locals: &mut Locals<'a>,
    world: &mut World,
) -> Result<Value, Stop>
    ensures value { Agrees result locals.new world.new (eval (here_now text.now) (calls_now text.now) (tree e.now) locals.old world.old) }
    ensures passed { LeavesPassed result world.new world.old (moments (here_now text.now) (calls_now text.now) (moments_now text.now) (tree e.now) locals.old world.old) }
    ensures widths { widths_of world.new.state ≡ widths_of world.old.state }
{
    match &e.node {
        Node::Unit => Ok(Value::Unit),
        Node::Lit(b) => Ok(Value::Bits(*b)),
        Node::Truth(b) => Ok(Value::Truth(*b)),
        Node::Var(name) => Ok(read(text.typed, name.bytes(), locals, world)),
        Node::Chain { op, parts } => eval_chain(alloc, text, parts.as_slice(), *op, locals, world),
        Node::Flip(_) | Node::Widen { .. } | Node::Slice { .. } | Node::With { .. } => {
            eval_bits(alloc, text, e, locals, world)
        }
        Node::Call { name, args } => {
            let values = eval_all(alloc, text, args.as_slice(), locals, world)?;
            let thing = text.typed.thing(name.bytes());
            call_thing(alloc, text, thing, e.at, values.as_slice(), world)
        }
        Node::If { .. } | Node::Match { .. } | Node::Foreach { .. } => {
            eval_choice(alloc, text, e, locals, world)
        }
        Node::Assert { .. } | Node::Exit | Node::Assign { .. } | Node::Block(_) => {
            eval_act(alloc, text, e, locals, world)
        }
    }
}

/// What an expression means that takes bits or makes other bits of them.
#[cycle(eval)]
fn eval_bits<'a>(
    alloc: Global,
    text: &Setting<'a>,
    e: &'a Expr,
    locals: &mut Locals<'a>,
    world: &mut World,
) -> Result<Value, Stop>
    requires { is_bits (tree e.now) ≡ true }
    ensures value { Agrees result locals.new world.new (eval (here_now text.now) (calls_now text.now) (tree e.now) locals.old world.old) }
    ensures passed { LeavesPassed result world.new world.old (moments (here_now text.now) (calls_now text.now) (moments_now text.now) (tree e.now) locals.old world.old) }
    ensures widths { widths_of world.new.state ≡ widths_of world.old.state }
{
    match &e.node {
        Node::Flip(of) => {
            let value = eval(alloc, text, of.get(), locals, world)?;
            Ok(flipped(value))
        }
        Node::Widen { signed, to, of } => {
            let value = eval(alloc, text, of.get(), locals, world)?;
            Ok(widened(*signed, *to, value))
        }
        Node::Slice { of, hi, lo } => {
            let value = eval(alloc, text, of.get(), locals, world)?;
            Ok(sliced(value, index_at(hi, locals), index_at(lo, locals)))
        }
        Node::With { of, hi, lo, by } => {
            let value = eval(alloc, text, of.get(), locals, world)?;
            let new = eval(alloc, text, by.get(), locals, world)?;
            Ok(updated(value, index_at(hi, locals), index_at(lo, locals), new))
        }
        _ => Ok(Value::Unit),
    }
}

/// What an expression means that chooses or repeats.
#[cycle(eval)]
fn eval_choice<'a>(
    alloc: Global,
    text: &Setting<'a>,
    e: &'a Expr,
    locals: &mut Locals<'a>,
    world: &mut World,
) -> Result<Value, Stop>
    requires { is_choice (tree e.now) ≡ true }
    ensures value { Agrees result locals.new world.new (eval (here_now text.now) (calls_now text.now) (tree e.now) locals.old world.old) }
    ensures passed { LeavesPassed result world.new world.old (moments (here_now text.now) (calls_now text.now) (moments_now text.now) (tree e.now) locals.old world.old) }
    ensures widths { widths_of world.new.state ≡ widths_of world.old.state }
{
    match &e.node {
        Node::If { test, yes, no } => {
            let holds = is_true(eval(alloc, text, test.get(), locals, world)?);
            if holds {
                eval(alloc, text, yes.get(), locals, world)
            } else {
                match no {
                    Some(no) => eval(alloc, text, no.get(), locals, world),
                    None => Ok(Value::Unit),
                }
            }
        }
        Node::Match { on, arms } => {
            let value = eval(alloc, text, on.get(), locals, world)?;
            eval_arms(alloc, text, arms.as_slice(), e.at, value, locals, world)
        }
        Node::Foreach {
            var,
            from,
            to,
            body,
        } => eval_turns(alloc, text, var, *from, *to, body.get(), locals, world),
        _ => Ok(Value::Unit),
    }
}

/// What an expression means that tests, ends, changes something or has statements.
#[cycle(eval)]
fn eval_act<'a>(
    alloc: Global,
    text: &Setting<'a>,
    e: &'a Expr,
    locals: &mut Locals<'a>,
    world: &mut World,
) -> Result<Value, Stop>
    requires { is_act (tree e.now) ≡ true }
    ensures value { Agrees result locals.new world.new (eval (here_now text.now) (calls_now text.now) (tree e.now) locals.old world.old) }
    ensures passed { LeavesPassed result world.new world.old (moments (here_now text.now) (calls_now text.now) (moments_now text.now) (tree e.now) locals.old world.old) }
    ensures widths { widths_of world.new.state ≡ widths_of world.old.state }
{
    match &e.node {
        Node::Assert { test, .. } => {
            let holds = is_true(eval(alloc, text, test.get(), locals, world)?);
            if holds {
                Ok(Value::Unit)
            } else {
                Err(Stop::Fault {
                    kind: FaultKind::AssertFail,
                    at: e.at,
                })
            }
        }
        Node::Exit => Err(Stop::Fault {
            kind: FaultKind::Exit,
            at: e.at,
        }),
        Node::Assign { to, by } => {
            let value = eval(alloc, text, by.get(), locals, world)?;
            write(text.typed, to.bytes(), value, locals, world);
            Ok(Value::Unit)
        }
        Node::Block(steps) => {
            let depth = locals.depth();
            let value = eval_steps(alloc, text, steps.as_slice(), locals, world)?;
            locals.leave(depth);
            Ok(value)
        }
        _ => Ok(Value::Unit),
    }
}

/// What a chain means, from the left.
#[cycle(eval)]
fn eval_chain<'a>(
    alloc: Global,
    text: &Setting<'a>,
    parts: &'a [Expr],
    op: Infix,
    locals: &mut Locals<'a>,
    world: &mut World,
) -> Result<Value, Stop>
    ensures value { Agrees result locals.new world.new (eval_chain (here_now text.now) (calls_now text.now) (trees (map tree parts.now)) op locals.old world.old) }
    ensures passed { LeavesPassed result world.new world.old (chain_moments (here_now text.now) (calls_now text.now) (moments_now text.now) (trees (map tree parts.now)) op locals.old world.old) }
    ensures widths { widths_of world.new.state ≡ widths_of world.old.state }
{
    match parts {
        [] => Ok(Value::Unit),
        [first, rest @ ..] => {
            let mut value = eval(alloc, text, first, locals, world)?;
            for part in rest {
                if decides(op, value) {
                    break;
                }
                let next = eval(alloc, text, part, locals, world)?;
                value = applied(op, value, next);
            }
            Ok(value)
        }
    }
}

/// The values of the arguments of a call.
#[cycle(eval)]
fn eval_all<'a>(
    alloc: Global,
    text: &Setting<'a>,
    args: &'a [Expr],
    locals: &mut Locals<'a>,
    world: &mut World,
) -> Result<Items<Value>, Stop>
    ensures value { Agrees result locals.new world.new (eval_all (here_now text.now) (calls_now text.now) (trees (map tree args.now)) [] locals.old world.old) }
    ensures passed { (call : List Value → Passing) → LeavesPassed result world.new world.old (args_moments (here_now text.now) (calls_now text.now) (moments_now text.now) (trees (map tree args.now)) [] call locals.old world.old) }
    ensures widths { widths_of world.new.state ≡ widths_of world.old.state }
{
    let mut values = Items::new(alloc);
    for arg in args {
        let value = eval(alloc, text, arg, locals, world)?;
        values.push(value)?;
    }
    Ok(values)
}

/// What the first arm that fits means, of a `match` at a place.
#[cycle(eval)]
fn eval_arms<'a>(
    alloc: Global,
    text: &Setting<'a>,
    arms: &'a [Arm],
    at: usize,
    value: Value,
    locals: &mut Locals<'a>,
    world: &mut World,
) -> Result<Value, Stop>
    ensures value { Agrees result locals.new world.new (eval_arms (here_now text.now) (calls_now text.now) (cases_of (map choice_of arms.now)) at value locals.old world.old) }
    ensures passed { LeavesPassed result world.new world.old (arms_moments (here_now text.now) (calls_now text.now) (moments_now text.now) (cases_of (map choice_of arms.now)) value locals.old world.old) }
    ensures widths { widths_of world.new.state ≡ widths_of world.old.state }
{
    for arm in arms {
        if fits(text.typed, &arm.pattern, value) {
            let depth = locals.depth();
            enter(text.typed, &arm.pattern, value, locals)?;
            let result = eval(alloc, text, &arm.body, locals, world)?;
            locals.leave(depth);
            return Ok(result);
        }
    }
    Err(Stop::Fault {
        kind: FaultKind::MatchFail,
        at,
    })
}

/// What statements mean: the last one's value.
#[cycle(eval)]
fn eval_steps<'a>(
    alloc: Global,
    text: &Setting<'a>,
    steps: &'a [Stmt],
    locals: &mut Locals<'a>,
    world: &mut World,
) -> Result<Value, Stop>
    ensures value { Agrees result locals.new world.new (eval_steps (here_now text.now) (calls_now text.now) (steps_of (map step_of steps.now)) values.Unit locals.old world.old) }
    ensures passed { LeavesPassed result world.new world.old (steps_moments (here_now text.now) (calls_now text.now) (moments_now text.now) (steps_of (map step_of steps.now)) locals.old world.old) }
    ensures widths { widths_of world.new.state ≡ widths_of world.old.state }
{
    let mut last = Value::Unit;
    for stmt in steps {
        last = eval_step(alloc, text, stmt, locals, world)?;
    }
    Ok(last)
}

/// What a statement means.
#[cycle(eval)]
fn eval_step<'a>(
    alloc: Global,
    text: &Setting<'a>,
    stmt: &'a Stmt,
    locals: &mut Locals<'a>,
    world: &mut World,
) -> Result<Value, Stop>
    ensures value { Agrees result locals.new world.new (eval_step (here_now text.now) (calls_now text.now) (step_of stmt.now) locals.old world.old) }
    ensures passed { LeavesPassed result world.new world.old (step_moments (here_now text.now) (calls_now text.now) (moments_now text.now) (step_of stmt.now) locals.old world.old) }
    ensures widths { widths_of world.new.state ≡ widths_of world.old.state }
{
    match stmt {
        Stmt::Let { name, by, .. } | Stmt::Var { name, by, .. } => {
            let value = eval(alloc, text, by, locals, world)?;
            locals.enter(name.bytes(), Local::Is(value))?;
            Ok(Value::Unit)
        }
        Stmt::Do(e) => eval(alloc, text, e, locals, world),
    }
}

/// What a `foreach` means: the body for each number from the first one to the last one.
#[cycle(eval)]
#[tactic(auto, using(crate::proofs::Turns::turns_more))]
fn eval_turns<'a>(
    alloc: Global,
    text: &Setting<'a>,
    var: &'a Name,
    from: u32,
    to: u32,
    body: &'a Expr,
    locals: &mut Locals<'a>,
    world: &mut World,
) -> Result<Value, Stop>
    ensures value { Agrees result locals.new world.new (turns (to + 1 - from) from (turn (here_now text.now) (calls_now text.now) var.now (tree body.now)) locals.old world.old) }
    ensures passed { LeavesPassed result world.new world.old (turns_moments (to + 1 - from) from (turn (here_now text.now) (calls_now text.now) var.now (tree body.now)) (turn_moments (here_now text.now) (calls_now text.now) (moments_now text.now) var.now (tree body.now)) locals.old world.old) }
    ensures widths { widths_of world.new.state ≡ widths_of world.old.state }
{
    for i in u64::from(from)..u64::from(to) + 1 {
        let depth = locals.depth();
        locals.enter(var.bytes(), Local::Counts(i as u32))?;
        let _ = eval(alloc, text, body, locals, world)?;
        locals.leave(depth);
    }
    Ok(Value::Unit)
}

/// What a call does of what a name stands for, at a place of the text.
#[cycle(eval)]
pub fn call_thing<'a>(
    alloc: Global,
    text: &Setting<'a>,
    thing: Option<Thing>,
    at: usize,
    args: &[Value],
    world: &mut World,
) -> Result<Value, Stop>
    ensures value { (locals : List Slot) → Agrees result locals world.new (called (here_now text.now) (calls_now text.now) thing at args.now locals world.old) }
    ensures passed { (locals : List Slot) → LeavesPassed result world.new world.old (called_moments (here_now text.now) (moments_now text.now) thing args.now locals world.old) }
    ensures widths { widths_of world.new.state ≡ widths_of world.old.state }
{
    match thing {
        Some(Thing::Function(place)) => call_function(alloc, text, place, args, world),
        Some(Thing::Given(given)) => given_call(text.devs, given, at, args, world),
        Some(Thing::Register(_) | Thing::Member { .. }) | None => Ok(Value::Unit),
    }
}

/// What a call does of the function that is the definition of this number, which may call those above it.
#[cycle(eval)]
#[tactic(auto, using(crate::proofs::CallLemmas::too_far, crate::proofs::CallLemmas::last_upto))]
fn call_function<'a>(
    alloc: Global,
    text: &Setting<'a>,
    place: usize,
    args: &[Value],
    world: &mut World,
) -> Result<Value, Stop>
    ensures value { (locals : List Slot) → Agrees result locals world.new (calls_now text.now place args.now locals world.old) }
    ensures passed { (locals : List Slot) → LeavesPassed result world.new world.old (moments_now text.now place args.now locals world.old) }
    ensures widths { widths_of world.new.state ≡ widths_of world.old.state }
{
    if place >= text.defs.len() {
        return Ok(Value::Unit);
    }
    let upto = &Setting {
        defs: &text.defs[..place + 1],
        ..*text
    };
    call_last(alloc, upto, args, world)
}

/// What a call does of the last definition.
#[cycle(eval)]
#[tactic(auto, using(crate::proofs::CallLemmas::last_call, crate::proofs::CallLemmas::last_other))]
fn call_last<'a>(
    alloc: Global,
    text: &Setting<'a>,
    args: &[Value],
    world: &mut World,
) -> Result<Value, Stop>
    ensures value { (locals : List Slot) → Agrees result locals world.new (calls_now text.now (length text.now.defs.now - 1) args.now locals world.old) }
    ensures passed { (locals : List Slot) → LeavesPassed result world.new world.old (moments_now text.now (length text.now.defs.now - 1) args.now locals world.old) }
    ensures widths { widths_of world.new.state ≡ widths_of world.old.state }
{
    let [earlier @ .., last] = text.defs else {
        return Ok(Value::Unit);
    };
    match last {
        Def::Function { params, body, .. } => {
            let above = &Setting {
                defs: earlier,
                ..*text
            };
            let mut locals = bound(alloc, params.as_slice(), args)?;
            eval(alloc, above, body, &mut locals, world)
        }
        Def::Order => Ok(Value::Unit),
        Def::Register { .. } => Ok(Value::Unit),
        Def::Enum { .. } => Ok(Value::Unit),
        Def::Val { .. } => Ok(Value::Unit),
    }
}
