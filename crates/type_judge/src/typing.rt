//! The type of an expression, by cases on it.

ghost use Rattle.std.specs.Prelude.{◌≡◌, map, true, IfOk, OnOk, None};
ghost use Rattle.sail_syntax.specs.View.{tree, trees, choice_of, cases_of, step_of, steps_of};
ghost use Rattle.type_rules.specs.Faults.{first_from};
ghost use Rattle.type_rules.specs.Judge as spec;
ghost use Rattle.type_rules.specs.Names.{find};
ghost use Rattle.type_rules.specs.Rules as rules;
ghost use Rattle.type_names.specs.Borrowed.{maybe_type, maybe_fault};
ghost use Rattle.type_steps.specs.Grown.{Grown, ending_at};
ghost use Rattle.type_judge.specs.Calls.{any_call};
ghost use Rattle.type_rules.specs.declared.scope.Ending.TheVariants as ending;

use lex_core::{Name, NoMemory};
use sail_syntax::{Arm, Expr, Infix, Node, Stmt, Ty};
use sqlite_items::Items;
use type_names::{FaultRef, Globals, Locals, SortRef, TyRef, WhyRef, say};
use type_rules::{Item, Slot};
use type_steps::{
    EndingRef, asked_of, asked_slot, assigned, between, bits_only, call_type, chain_type, count,
    ended, enter, finished, fits, has_arm, heads, indexed, is_chain_of, is_join, is_known, is_last,
    is_value, joined, judge_pattern, least_width, local_type, maybe_written, narrowed, no_type,
    or_else, or_type, place_of, read_name, slot_of, slots_after, step_want, taken, target_of,
    where_holds, widened, widens,
};

/// Bits of any width.
#[cycle(judge)]
fn judge_bits<'a>(
    globals: &'a Globals,
    here: usize,
    e: &'a Expr,
    locals: &mut Locals<'a>,
    best: &mut Option<FaultRef<'a>>,
) -> Result<Option<TyRef<'a>>, NoMemory>
    ensures answer { IfOk result (λ t. maybe_type t ≡ (rules.bind (spec.judge globals.now here (tree e.now) None locals.old) (rules.bits_only (rules.place_of (tree e.now)))).type) }
    ensures first { OnOk result (maybe_fault best.new ≡ first_from (maybe_fault best.old) (rules.bind (spec.judge globals.now here (tree e.now) None locals.old) (rules.bits_only (rules.place_of (tree e.now)))).faults) }
    ensures kept { OnOk result (locals.new ≡ locals.old) }
{
    let got = judge(globals, here, e, None, locals, best)?;
    Ok(bits_only(place_of(e), got, best))
}

/// A chain of an operator that doesn't join.
#[cycle(judge)]
fn judge_chain<'a>(
    globals: &'a Globals,
    here: usize,
    parts: &'a [Expr],
    op: Infix,
    at: usize,
    want: Option<TyRef<'a>>,
    locals: &mut Locals<'a>,
    best: &mut Option<FaultRef<'a>>,
) -> Result<Option<TyRef<'a>>, NoMemory>
    ensures answer { IfOk result (λ t. maybe_type t ≡ (spec.judge_chain globals.now here (trees (map tree parts.now)) op at (maybe_type want.entry) locals.old).type) }
    ensures first { OnOk result (maybe_fault best.new ≡ first_from (maybe_fault best.old) (spec.judge_chain globals.now here (trees (map tree parts.now)) op at (maybe_type want.entry) locals.old).faults) }
    ensures kept { OnOk result (locals.new ≡ locals.old) }
{
    match parts {
        [] => Ok(no_type(at, want, best)),
        [one, rest @ ..] => {
            let got = judge(globals, here, one, None, locals, best)?;
            let got = heads(op, place_of(one), got, best);
            for part in rest {
                judge(globals, here, part, got, locals, best)?;
            }
            Ok(fits(at, want, chain_type(op, got), best))
        }
    }
}

/// Bits that are joined.
#[cycle(judge)]
fn judge_joins<'a>(
    globals: &'a Globals,
    here: usize,
    parts: &'a [Expr],
    at: usize,
    want: Option<TyRef<'a>>,
    locals: &mut Locals<'a>,
    best: &mut Option<FaultRef<'a>>,
) -> Result<Option<TyRef<'a>>, NoMemory>
    ensures answer { IfOk result (λ t. maybe_type t ≡ (spec.judge_joins globals.now here (trees (map tree parts.now)) 0 true at (maybe_type want.entry) locals.old).type) }
    ensures first { OnOk result (maybe_fault best.new ≡ first_from (maybe_fault best.old) (spec.judge_joins globals.now here (trees (map tree parts.now)) 0 true at (maybe_type want.entry) locals.old).faults) }
    ensures kept { OnOk result (locals.new ≡ locals.old) }
{
    let mut total = 0;
    let mut all_known = true;
    for part in parts {
        let got = judge_bits(globals, here, part, locals, best)?;
        total = widened(total, least_width(got));
        all_known = all_known && is_known(got);
    }
    Ok(joined(at, want, total, all_known, best))
}

/// Arguments, and the type of the first one; of those that are too many nothing is asked.
#[cycle(judge)]
fn judge_args<'a>(
    globals: &'a Globals,
    here: usize,
    args: &'a [Expr],
    params: &'a [Slot],
    locals: &mut Locals<'a>,
    best: &mut Option<FaultRef<'a>>,
) -> Result<Option<TyRef<'a>>, NoMemory>
    ensures answer { IfOk result (λ t. maybe_type t ≡ (spec.judge_args globals.now here (trees (map tree args.now)) params.now locals.old).type) }
    ensures first { OnOk result (maybe_fault best.new ≡ first_from (maybe_fault best.old) (spec.judge_args globals.now here (trees (map tree args.now)) params.now locals.old).faults) }
    ensures kept { OnOk result (locals.new ≡ locals.old) }
{
    let [first, rest @ ..] = args else {
        return Ok(None);
    };
    let asked = asked_slot(globals, slot_of(params), None);
    let got = judge(globals, here, first, asked, locals, best)?;
    let one = narrowed(slot_of(params), place_of(first), got, best);
    let mut left = slots_after(params);
    for arg in rest {
        let asked = asked_slot(globals, slot_of(left), one);
        let got = judge(globals, here, arg, asked, locals, best)?;
        narrowed(slot_of(left), place_of(arg), got, best);
        left = slots_after(left);
    }
    Ok(one)
}

/// A call of a name, whose arguments are judged against what is asked of them.
#[cycle(judge)]
fn judge_call<'a>(
    globals: &'a Globals,
    here: usize,
    name: &'a Name,
    args: &'a Items<Expr>,
    at: usize,
    want: Option<TyRef<'a>>,
    locals: &mut Locals<'a>,
    best: &mut Option<FaultRef<'a>>,
) -> Result<Option<TyRef<'a>>, NoMemory>
    ensures answer { IfOk result (λ t. maybe_type t ≡ (any_call globals.now here name.now at (maybe_type want.entry) (trees (map tree args.now)) locals.old (find name.now globals.now)).type) }
    ensures first { OnOk result (maybe_fault best.new ≡ first_from (maybe_fault best.old)
        (any_call globals.now here name.now at (maybe_type want.entry) (trees (map tree args.now)) locals.old (find name.now globals.now)).faults) }
    ensures kept { OnOk result (locals.new ≡ locals.old) }
{
    let args = args.as_slice();
    match globals.find(name.bytes()) {
        Some(
            Item::Function {
                params,
                result: gives,
                after,
            },
        ) => {
            finished(*after <= here, name, at, best);
            let one = judge_args(globals, here, args, params.as_slice(), locals, best)?;
            let asked = params.len();
            let given = count(args);
            Ok(call_type(globals, gives, asked, given, at, want, one, best))
        }
        _ => {
            say(at, WhyRef::Unknown(name.bytes()), best);
            judge_args(globals, here, args, &[], locals, best)?;
            Ok(None)
        }
    }
}

/// Arms: the type that is asked for, or that of the first, is asked of each.
#[cycle(judge)]
#[tactic(auto, using(type_steps::proofs::Grow::kept_back))]
fn judge_arms<'a>(
    globals: &'a Globals,
    here: usize,
    arms: &'a [Arm],
    on: Option<TyRef<'a>>,
    want: Option<TyRef<'a>>,
    locals: &mut Locals<'a>,
    best: &mut Option<FaultRef<'a>>,
) -> Result<Option<TyRef<'a>>, NoMemory>
    ensures answer { IfOk result (λ t. maybe_type t ≡ (spec.judge_arms globals.now here (cases_of (map choice_of arms.now)) (maybe_type on.entry) (maybe_type want.entry) locals.old).type) }
    ensures first { OnOk result (maybe_fault best.new ≡ first_from (maybe_fault best.old) (spec.judge_arms globals.now here (cases_of (map choice_of arms.now)) (maybe_type on.entry) (maybe_type want.entry) locals.old).faults) }
    ensures kept { OnOk result (locals.new ≡ locals.old) }
{
    let mut fixed = want;
    for arm in arms {
        judge_pattern(globals, &arm.pattern, place_of(&arm.body), on, best);
        let depth = locals.depth();
        enter(globals, &arm.pattern, on, locals)?;
        let got = judge(globals, here, &arm.body, fixed, locals, best)?;
        locals.leave(depth);
        fixed = or_else(fixed, got);
    }
    Ok(fixed)
}

/// The statements of a block.
#[cycle(judge)]
#[tactic(auto, using(type_steps::proofs::Grow::grown_after, type_steps::proofs::Grow::grown_same))]
fn judge_steps<'a>(
    globals: &'a Globals,
    here: usize,
    steps: &'a [Stmt],
    at: usize,
    want: Option<TyRef<'a>>,
    locals: &mut Locals<'a>,
    best: &mut Option<FaultRef<'a>>,
) -> Result<Option<TyRef<'a>>, NoMemory>
    ensures answer { IfOk result (λ t. maybe_type t ≡ (spec.judge_steps globals.now here (steps_of (map step_of steps.now)) ending.Open at (maybe_type want.entry) locals.old).type) }
    ensures first { OnOk result (maybe_fault best.new ≡ first_from (maybe_fault best.old) (spec.judge_steps globals.now here (steps_of (map step_of steps.now)) ending.Open at (maybe_type want.entry) locals.old).faults) }
    ensures grown { OnOk result (Grown locals.old locals.new) }
{
    let mut ending = EndingRef::Open;
    for (i, stmt) in steps.iter().enumerate() {
        let last = is_last(steps, i);
        ending = judge_step(globals, here, stmt, last, want, locals, best)?;
    }
    Ok(ended(at, want, ending, best))
}

/// A statement, the last one or not.
#[cycle(judge)]
#[tactic(auto, using(type_steps::proofs::Grow::grown_more, type_steps::proofs::Grow::grown_same))]
fn judge_step<'a>(
    globals: &'a Globals,
    here: usize,
    stmt: &'a Stmt,
    last: bool,
    want: Option<TyRef<'a>>,
    locals: &mut Locals<'a>,
    best: &mut Option<FaultRef<'a>>,
) -> Result<EndingRef<'a>, NoMemory>
    ensures answer { IfOk result (λ t. ending_at t ≡ (spec.judge_step globals.now here (step_of stmt.now) last (maybe_type want.entry) locals.old).ending) }
    ensures first { OnOk result (maybe_fault best.new ≡ first_from (maybe_fault best.old) (spec.judge_step globals.now here (step_of stmt.now) last (maybe_type want.entry) locals.old).faults) }
    ensures scope { OnOk result (locals.new ≡ (spec.judge_step globals.now here (step_of stmt.now) last (maybe_type want.entry) locals.old).scope) }
    ensures grown { OnOk result (Grown locals.old locals.new) }
{
    match stmt {
        Stmt::Let { name, ty, by } => {
            let ty = judge_value(globals, here, name, ty, by, locals, best)?;
            let assigned = false;
            locals.enter(name.bytes(), SortRef::Holds { ty, assigned })?;
            Ok(EndingRef::Open)
        }
        Stmt::Var { name, ty, by } => {
            let ty = judge_value(globals, here, name, ty, by, locals, best)?;
            let assigned = true;
            locals.enter(name.bytes(), SortRef::Holds { ty, assigned })?;
            Ok(EndingRef::Open)
        }
        Stmt::Do(e) => {
            let asked = step_want(last, want);
            let got = judge(globals, here, e, asked, locals, best)?;
            Ok(EndingRef::Value(got))
        }
    }
}

/// The type of a new local, which may be written.
#[cycle(judge)]
fn judge_value<'a>(
    globals: &'a Globals,
    here: usize,
    name: &'a Name,
    ty: &'a Option<Ty>,
    by: &'a Expr,
    locals: &mut Locals<'a>,
    best: &mut Option<FaultRef<'a>>,
) -> Result<Option<TyRef<'a>>, NoMemory>
    ensures answer { IfOk result (λ t. maybe_type t ≡ (spec.local globals.now name.now ty.now (rules.place_of (tree by.now)) (λ asked. spec.judge globals.now here (tree by.now) asked locals.old)).type) }
    ensures first { OnOk result (maybe_fault best.new ≡ first_from (maybe_fault best.old) (spec.local globals.now name.now ty.now (rules.place_of (tree by.now)) (λ asked. spec.judge globals.now here (tree by.now) asked locals.old)).faults) }
    ensures kept { OnOk result (locals.new ≡ locals.old) }
{
    let at = place_of(by);
    let asked = maybe_written(globals, at, ty, best);
    taken(globals, name, at, best);
    let got = judge(globals, here, by, asked, locals, best)?;
    Ok(local_type(ty, asked, got))
}

/// The type of an expression, where its place asks for one or for none; the definition in which it stands has so many in front of it. The first fault so
/// far stays, or the expression's first one comes before it.
#[cycle(judge)]
#[tactic(auto, using(type_steps::proofs::Grow::kept_back, type_steps::proofs::Grow::kept_one))]
pub fn judge<'a>(
    globals: &'a Globals,
    here: usize,
    e: &'a Expr,
    want: Option<TyRef<'a>>,
    locals: &mut Locals<'a>,
    best: &mut Option<FaultRef<'a>>,
) -> Result<Option<TyRef<'a>>, NoMemory>
    ensures answer { IfOk result (λ t. maybe_type t ≡ (spec.judge globals.now here (tree e.now) (maybe_type want.entry) locals.old).type) }
    ensures first { OnOk result (maybe_fault best.new ≡ first_from (maybe_fault best.old) (spec.judge globals.now here (tree e.now) (maybe_type want.entry) locals.old).faults) }
    ensures kept { OnOk result (locals.new ≡ locals.old) }
{
    let at = e.at;
    match &e.node {
        Node::Unit => Ok(fits(at, want, Some(TyRef::Unit), best)),
        Node::Lit(bits) => {
            let own = Some(TyRef::Bits(bits.width));
            Ok(where_holds(is_value(*bits), at, want, own, best))
        }
        Node::Truth(_) => Ok(fits(at, want, Some(TyRef::Bool), best)),
        Node::Var(name) => {
            let got = read_name(globals, locals, name, at, best);
            Ok(fits(at, want, got, best))
        }
        Node::Chain { op, parts } => {
            let parts = parts.as_slice();
            if !is_chain_of(*op, count(parts)) {
                Ok(no_type(at, want, best))
            } else if is_join(*op) {
                judge_joins(globals, here, parts, at, want, locals, best)
            } else {
                judge_chain(globals, here, parts, *op, at, want, locals, best)
            }
        }
        Node::Flip(of) => {
            let got = judge_bits(globals, here, of.get(), locals, best)?;
            Ok(fits(at, want, got, best))
        }
        Node::Slice { of, hi, lo } => {
            let got = judge_bits(globals, here, of.get(), locals, best)?;
            let own = Some(TyRef::Bits(between(hi, lo)));
            Ok(indexed(at, want, hi, lo, locals, got, own, best))
        }
        Node::With { of, hi, lo, by } => {
            let got = judge_bits(globals, here, of.get(), locals, best)?;
            let own = indexed(at, want, hi, lo, locals, got, got, best);
            let asked = Some(TyRef::Bits(between(hi, lo)));
            judge(globals, here, by.get(), asked, locals, best)?;
            Ok(own)
        }
        Node::Call { name, args } => {
            judge_call(globals, here, name, args, at, want, locals, best)
        }
        Node::Widen { to, of, .. } => {
            let got = judge_bits(globals, here, of.get(), locals, best)?;
            let own = Some(TyRef::Bits(*to));
            Ok(where_holds(widens(*to, got), at, want, own, best))
        }
        Node::If { test, yes, no } => {
            judge(globals, here, test.get(), Some(TyRef::Bool), locals, best)?;
            match no {
                Some(no) => {
                    let one = judge(globals, here, yes.get(), want, locals, best)?;
                    let asked = or_else(want, one);
                    let other = judge(globals, here, no.get(), asked, locals, best)?;
                    Ok(or_else(asked, other))
                }
                None => {
                    judge(globals, here, yes.get(), Some(TyRef::Unit), locals, best)?;
                    Ok(fits(at, want, Some(TyRef::Unit), best))
                }
            }
        }
        Node::Match { on, arms } => {
            let on = judge(globals, here, on.get(), None, locals, best)?;
            let arms = arms.as_slice();
            if has_arm(arms) {
                judge_arms(globals, here, arms, on, want, locals, best)
            } else {
                Ok(no_type(at, want, best))
            }
        }
        Node::Foreach {
            var,
            from,
            to,
            body,
        } => {
            taken(globals, var, at, best);
            let depth = locals.depth();
            let (from, to) = (*from, *to);
            locals.enter(var.bytes(), SortRef::Counts { from, to })?;
            judge(globals, here, body.get(), Some(TyRef::Unit), locals, best)?;
            locals.leave(depth);
            Ok(fits(at, want, Some(TyRef::Unit), best))
        }
        Node::Assert { test, .. } => {
            judge(globals, here, test.get(), Some(TyRef::Bool), locals, best)?;
            Ok(fits(at, want, Some(TyRef::Unit), best))
        }
        Node::Exit => Ok(Some(or_type(want, TyRef::Unit))),
        Node::Assign { to, by } => {
            let target = target_of(globals, locals, to);
            judge(globals, here, by.get(), asked_of(target), locals, best)?;
            Ok(assigned(to, at, want, target, best))
        }
        Node::Block(steps) => {
            let depth = locals.depth();
            let got = judge_steps(globals, here, steps.as_slice(), at, want, locals, best)?;
            locals.leave(depth);
            Ok(got)
        }
    }
}
