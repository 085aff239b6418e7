//! The indices of slices and updates.

ghost use Rattle.std.specs.Prelude.{◌≡◌};
ghost use Rattle.type_rules.specs.Faults.{first_from};
ghost use Rattle.type_rules.specs.Rules as rules;
ghost use Rattle.type_names.specs.Borrowed.{maybe_type, sort_of, maybe_fault};

use crate::fitting::where_holds;
use lex_core::Name;
use sail_syntax::Index;
use type_names::{FaultRef, Locals, SortRef, TyRef, WhyRef, say};
use type_rules::Span;

/// Whether two indices have the same variable, or none.
fn is_same_var(one: &Option<Name>, other: &Option<Name>) -> bool
    ensures { result ≡ rules.is_same_var one.now other.now }
{
    match one {
        None => other.is_none(),
        Some(name) => match other {
            None => false,
            Some(also) => name.is(also.bytes()),
        },
    }
}

/// Which numbers the name of an index stands for.
fn span_of(var: &Option<Name>, locals: &Locals<'_>) -> Span
    ensures { result ≡ rules.span_of var.now locals.now }
{
    match var {
        None => Span::Fixed,
        Some(name) => match locals.look(name.bytes()) {
            Some(SortRef::Counts { from, to }) => Span::Over { from, to },
            Some(SortRef::Holds { .. }) => Span::Missing,
            None => Span::Missing,
        },
    }
}

/// Whether it is no foreach variable.
fn is_missing(span: Span) -> bool
    ensures { result ≡ rules.is_missing span }
{
    match span {
        Span::Missing => true,
        Span::Fixed => false,
        Span::Over { .. } => false,
    }
}

/// The name of an index that is no foreach variable.
fn missing<'a>(var: &'a Option<Name>, span: Span, at: usize, best: &mut Option<FaultRef<'a>>)
    ensures { maybe_fault best.new ≡ first_from (maybe_fault best.old) (rules.missing var.now span at) }
{
    match var {
        None => (),
        Some(name) => match span {
            Span::Missing => say(at, WhyRef::Unknown(name.bytes()), best),
            Span::Fixed => (),
            Span::Over { .. } => (),
        },
    }
}

/// Whether the index is below the width for each number that its name stands for.
fn is_below(span: Span, plus: u32, width: u32) -> bool
    ensures { result ≡ rules.is_below span plus width }
{
    match span {
        Span::Fixed => plus < width,
        Span::Over { from, to } => to < from || plus as u64 + (to as u64) < width as u64,
        Span::Missing => true,
    }
}

/// The same for the width of bits, where it is known.
fn is_inside(span: Span, plus: u32, of: Option<TyRef<'_>>) -> bool
    ensures { result ≡ rules.is_inside span plus (maybe_type of.entry) }
{
    match of {
        Some(TyRef::Bits(width)) => is_below(span, plus, width),
        Some(TyRef::Unit) => true,
        Some(TyRef::Bool) => true,
        Some(TyRef::Enum(_)) => true,
        None => true,
    }
}

/// Whether both indices have one variable or none, and the first isn't below the second one and is at most 127.
fn is_range(hi: &Index, lo: &Index) -> bool
    ensures { result ≡ rules.is_range hi.now lo.now }
{
    is_same_var(&hi.var, &lo.var) && lo.plus <= hi.plus && hi.plus <= 127
}

/// How many bits stand between two indices.
pub fn between(hi: &Index, lo: &Index) -> u32
    ensures { result ≡ rules.between hi.now lo.now }
{
    hi.plus.saturating_sub(lo.plus).min(127) + 1
}

/// The indices of a slice or an update of bits, which then has the type.
pub fn indexed<'a>(
    at: usize,
    want: Option<TyRef<'a>>,
    hi: &'a Index,
    lo: &'a Index,
    locals: &Locals<'a>,
    of: Option<TyRef<'a>>,
    ty: Option<TyRef<'a>>,
    best: &mut Option<FaultRef<'a>>,
) -> Option<TyRef<'a>>
    ensures answer { maybe_type result ≡ (rules.indexed at (maybe_type want.entry) hi.now lo.now locals.now (maybe_type of.entry) (maybe_type ty.entry)).type }
    ensures first { maybe_fault best.new ≡ first_from (maybe_fault best.old)
        (rules.indexed at (maybe_type want.entry) hi.now lo.now locals.now (maybe_type of.entry) (maybe_type ty.entry)).faults }
{
    let high = span_of(&hi.var, locals);
    let low = span_of(&lo.var, locals);
    missing(&hi.var, high, at, best);
    missing(&lo.var, low, at, best);
    if is_missing(high) || is_missing(low) {
        return None;
    }
    let holds = is_range(hi, lo) && is_inside(high, hi.plus, of);
    where_holds(holds, at, want, ty, best)
}
