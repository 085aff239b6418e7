//! Chains of one operator.

ghost use Rattle.std.specs.Prelude.{◌≡◌, ◌<◌, ◌^◌, map};
ghost use Rattle.sail_syntax.specs.View.{tree, trees};
ghost use Rattle.type_rules.specs.Faults.{first_from};
ghost use Rattle.type_rules.specs.Rules as rules;
ghost use Rattle.type_names.specs.Borrowed.{type_of, maybe_type, maybe_fault};

use crate::fitting::{differs, fits, no_type};
use sail_syntax::{Expr, Infix};
use type_names::{FaultRef, TyRef};

/// Whether the operator joins bits.
pub fn is_join(op: Infix) -> bool
    ensures { result ≡ rules.is_join op }
{
    match op {
        Infix::Join => true,
        Infix::Add => false,
        Infix::Sub => false,
        Infix::Mul => false,
        Infix::And => false,
        Infix::Or => false,
        Infix::Xor => false,
        Infix::Eq => false,
        Infix::Ne => false,
    }
}

/// Whether the operator compares two values.
fn compares(op: Infix) -> bool
    ensures { result ≡ rules.compares op }
{
    match op {
        Infix::Eq => true,
        Infix::Ne => true,
        Infix::Add => false,
        Infix::Sub => false,
        Infix::Mul => false,
        Infix::And => false,
        Infix::Or => false,
        Infix::Xor => false,
        Infix::Join => false,
    }
}

/// Whether the operator takes bool too.
fn takes_bool(op: Infix) -> bool
    ensures { result ≡ rules.takes_bool op }
{
    match op {
        Infix::And => true,
        Infix::Or => true,
        Infix::Eq => true,
        Infix::Ne => true,
        Infix::Add => false,
        Infix::Sub => false,
        Infix::Mul => false,
        Infix::Xor => false,
        Infix::Join => false,
    }
}

/// Whether the operator takes values of the type.
fn takes(op: Infix, ty: TyRef<'_>) -> bool
    ensures { result ≡ rules.takes op (type_of ty.entry) }
{
    match ty {
        TyRef::Bits(_) => true,
        TyRef::Bool => takes_bool(op),
        TyRef::Enum(_) => compares(op),
        TyRef::Unit => false,
    }
}

/// The first part of a chain, which fixes what the others are asked for.
pub fn heads<'a>(
    op: Infix,
    at: usize,
    got: Option<TyRef<'a>>,
    best: &mut Option<FaultRef<'a>>,
) -> Option<TyRef<'a>>
    ensures answer { maybe_type result ≡ (rules.heads op at (maybe_type got.entry)).type }
    ensures first { maybe_fault best.new ≡ first_from (maybe_fault best.old) (rules.heads op at (maybe_type got.entry)).faults }
{
    match got {
        None => None,
        Some(ty) => {
            if takes(op, ty) {
                return Some(ty);
            }
            differs(ty, ty, at, best);
            None
        }
    }
}

/// The type of a chain whose parts have the type.
pub fn chain_type<'a>(op: Infix, part: Option<TyRef<'a>>) -> Option<TyRef<'a>>
    ensures { maybe_type result ≡ rules.chain_type op (maybe_type part.entry) }
{
    if compares(op) {
        Some(TyRef::Bool)
    } else {
        part
    }
}

/// Whether so many parts may stand in a chain: two where it compares, else two or more.
pub fn is_chain_of(op: Infix, count: usize) -> bool
    ensures { result ≡ rules.is_chain_of op count }
{
    if compares(op) { count == 2 } else { 2 <= count }
}

/// How many expressions.
#[tactic(auto, using(crate::proofs::Counts::count_trees))]
pub fn count(parts: &[Expr]) -> usize
    ensures { result ≡ rules.count (trees (map tree parts.now)) }
{
    parts.len()
}

/// A sum of widths, which stays where it is once it is past 128.
pub fn widened(total: u64, width: u32) -> u64
    ensures { result ≡ rules.widened total width }
{
    if 128 < total {
        total
    } else {
        total + width as u64
    }
}

/// The width of bits; what isn't known has at least one bit.
pub fn least_width(ty: Option<TyRef<'_>>) -> u32
    ensures { result ≡ rules.least_width (maybe_type ty.entry) }
{
    match ty {
        Some(TyRef::Bits(width)) => width,
        Some(TyRef::Unit) => 1,
        Some(TyRef::Bool) => 1,
        Some(TyRef::Enum(_)) => 1,
        None => 1,
    }
}

/// Whether the type is known.
pub fn is_known(ty: Option<TyRef<'_>>) -> bool
    ensures { result ≡ rules.is_known (maybe_type ty.entry) }
{
    match ty {
        Some(_) => true,
        None => false,
    }
}

/// Joined bits, of so many in all where each part's width is known; they have at most 128.
pub fn joined<'a>(
    at: usize,
    want: Option<TyRef<'a>>,
    total: u64,
    all_known: bool,
    best: &mut Option<FaultRef<'a>>,
) -> Option<TyRef<'a>>
    ensures answer { maybe_type result ≡ (rules.joined at (maybe_type want.entry) total all_known).type }
    ensures first { maybe_fault best.new ≡ first_from (maybe_fault best.old) (rules.joined at (maybe_type want.entry) total all_known).faults }
{
    if 128 < total {
        no_type(at, want, best)
    } else if all_known {
        fits(at, want, Some(TyRef::Bits(total as u32)), best)
    } else {
        None
    }
}
