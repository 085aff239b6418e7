//! Statements of a block, and arms.

ghost use Rattle.std.specs.Prelude.{◌≡◌, ◌+◌, ◌<◌, length, drop, map};
ghost use Rattle.sail_syntax.specs.View.{choice_of, cases_of, step_of, steps_of};
ghost use Rattle.type_rules.specs.Faults.{first_from};
ghost use Rattle.type_rules.specs.Rules as rules;
ghost use Rattle.type_names.specs.Borrowed.{maybe_type, maybe_fault};
ghost use Rattle.type_steps.specs.Grown.{ending_at};

use crate::fitting::fits;
use sail_syntax::{Arm, Stmt, Ty};
use type_names::{FaultRef, TyRef};

/// How a block has ended so far.
#[derive(Clone, Copy)]
pub enum EndingRef<'a> {
    /// With a declaration, or with nothing.
    Open,
    /// With an expression of this type, if the type is known.
    Value(Option<TyRef<'a>>),
}

/// The type of a local: the one that is written, or that of its value.
pub fn local_type<'a>(
    ty: &Option<Ty>,
    asked: Option<TyRef<'a>>,
    got: Option<TyRef<'a>>,
) -> Option<TyRef<'a>>
    ensures { maybe_type result ≡ rules.local_type ty.now (maybe_type asked.entry) (maybe_type got.entry) }
{
    match ty {
        None => got,
        Some(_) => asked,
    }
}

/// Whether there is an arm.
#[tactic(auto, using(crate::proofs::Counts::some_arm))]
pub fn has_arm(arms: &[Arm]) -> bool
    ensures { result ≡ rules.has_arm (cases_of (map choice_of arms.now)) }
{
    match arms {
        [] => false,
        [_, ..] => true,
    }
}

/// Whether nothing follows the statement.
#[tactic(auto, using(crate::proofs::Counts::done_drop))]
pub fn is_last(steps: &[Stmt], at: usize) -> bool
    requires { at < length steps.now }
    ensures { result ≡ rules.is_done (steps_of (map step_of (drop (at + 1) steps.now))) }
{
    at + 1 == steps.len()
}

/// What a statement is asked for: the last one what the block is asked for, others unit.
pub fn step_want<'a>(last: bool, want: Option<TyRef<'a>>) -> Option<TyRef<'a>>
    ensures { maybe_type result ≡ rules.step_want last (maybe_type want.entry) }
{
    if last { want } else { Some(TyRef::Unit) }
}

/// The end of a block.
pub fn ended<'a>(
    at: usize,
    want: Option<TyRef<'a>>,
    ending: EndingRef<'a>,
    best: &mut Option<FaultRef<'a>>,
) -> Option<TyRef<'a>>
    ensures answer { maybe_type result ≡ (rules.ended at (maybe_type want.entry) (ending_at ending.entry)).type }
    ensures first { maybe_fault best.new ≡ first_from (maybe_fault best.old) (rules.ended at (maybe_type want.entry) (ending_at ending.entry)).faults }
{
    match ending {
        EndingRef::Open => fits(at, want, Some(TyRef::Unit), best),
        EndingRef::Value(ty) => ty,
    }
}
