//! A type, where its place asks for one or for none.

ghost use Rattle.std.specs.Prelude.{◌≡◌, Some};
ghost use Rattle.bv_bits.specs.Bits.{is_width};
ghost use Rattle.sail_syntax.specs.View.{tree};
ghost use Rattle.type_rules.specs.Faults.{first_from};
ghost use Rattle.type_rules.specs.Rules as rules;
ghost use Rattle.type_names.specs.Borrowed.{type_of, maybe_type, maybe_fault};

use bv_bits::Bits;
use sail_syntax::Expr;
use type_names::{FaultRef, TyRef, WhyRef, say};

/// Where the first token of an expression begins.
pub fn place_of(e: &Expr) -> usize
    ensures { result ≡ rules.place_of (tree e.now) }
{
    e.at
}

/// The first type, and the second one where that isn't known.
pub fn or_else<'a>(one: Option<TyRef<'a>>, other: Option<TyRef<'a>>) -> Option<TyRef<'a>>
    ensures { maybe_type result ≡ rules.or_else (maybe_type one.entry) (maybe_type other.entry) }
{
    match one {
        Some(ty) => Some(ty),
        None => other,
    }
}

/// The same where the second type is there.
pub fn or_type<'a>(one: Option<TyRef<'a>>, other: TyRef<'a>) -> TyRef<'a>
    ensures { type_of result ≡ rules.or_type (maybe_type one.entry) (type_of other.entry) }
{
    match one {
        Some(ty) => ty,
        None => other,
    }
}

/// Another type than the one that is asked for.
pub fn differs<'a>(want: TyRef<'a>, got: TyRef<'a>, at: usize, best: &mut Option<FaultRef<'a>>)
    ensures { maybe_fault best.new ≡ first_from (maybe_fault best.old) (rules.differs (type_of want.entry) (type_of got.entry) at).faults }
{
    say(at, WhyRef::Differs { want, got }, best);
}

/// A type that is known, where its place asks for this one.
fn is_asked<'a>(
    at: usize,
    want: TyRef<'a>,
    got: TyRef<'a>,
    best: &mut Option<FaultRef<'a>>,
) -> Option<TyRef<'a>>
    ensures answer { maybe_type result ≡ (rules.fits at (Some (type_of want.entry)) (Some (type_of got.entry))).type }
    ensures first { maybe_fault best.new ≡ first_from (maybe_fault best.old) (rules.fits at (Some (type_of want.entry)) (Some (type_of got.entry))).faults }
{
    if want.is(got) {
        return Some(got);
    }
    differs(want, got, at, best);
    None
}

/// A type, where its place asks for one or for none.
pub fn fits<'a>(
    at: usize,
    want: Option<TyRef<'a>>,
    got: Option<TyRef<'a>>,
    best: &mut Option<FaultRef<'a>>,
) -> Option<TyRef<'a>>
    ensures answer { maybe_type result ≡ (rules.fits at (maybe_type want.entry) (maybe_type got.entry)).type }
    ensures first { maybe_fault best.new ≡ first_from (maybe_fault best.old) (rules.fits at (maybe_type want.entry) (maybe_type got.entry)).faults }
{
    match got {
        None => None,
        Some(ty) => match want {
            None => Some(ty),
            Some(asked) => is_asked(at, asked, ty, best),
        },
    }
}

/// An expression that breaks a rule has no type, and is told to have unit.
pub fn no_type<'a>(
    at: usize,
    want: Option<TyRef<'a>>,
    best: &mut Option<FaultRef<'a>>,
) -> Option<TyRef<'a>>
    ensures answer { maybe_type result ≡ (rules.no_type at (maybe_type want.entry)).type }
    ensures first { maybe_fault best.new ≡ first_from (maybe_fault best.old) (rules.no_type at (maybe_type want.entry)).faults }
{
    let asked = or_type(want, TyRef::Unit);
    differs(asked, TyRef::Unit, at, best);
    None
}

/// A type where the rule holds.
pub fn where_holds<'a>(
    holds: bool,
    at: usize,
    want: Option<TyRef<'a>>,
    got: Option<TyRef<'a>>,
    best: &mut Option<FaultRef<'a>>,
) -> Option<TyRef<'a>>
    ensures answer { maybe_type result ≡ (rules.where_holds holds at (maybe_type want.entry) (maybe_type got.entry)).type }
    ensures first { maybe_fault best.new ≡ first_from (maybe_fault best.old) (rules.where_holds holds at (maybe_type want.entry) (maybe_type got.entry)).faults }
{
    if holds {
        fits(at, want, got, best)
    } else {
        no_type(at, want, best)
    }
}

/// Bits of any width.
pub fn bits_only<'a>(
    at: usize,
    got: Option<TyRef<'a>>,
    best: &mut Option<FaultRef<'a>>,
) -> Option<TyRef<'a>>
    ensures answer { maybe_type result ≡ (rules.bits_only at (maybe_type got.entry)).type }
    ensures first { maybe_fault best.new ≡ first_from (maybe_fault best.old) (rules.bits_only at (maybe_type got.entry)).faults }
{
    match got {
        None => None,
        Some(TyRef::Bits(width)) => Some(TyRef::Bits(width)),
        Some(TyRef::Unit) => {
            differs(TyRef::Unit, TyRef::Unit, at, best);
            None
        }
        Some(TyRef::Bool) => {
            differs(TyRef::Bool, TyRef::Bool, at, best);
            None
        }
        Some(TyRef::Enum(name)) => {
            differs(TyRef::Enum(name), TyRef::Enum(name), at, best);
            None
        }
    }
}

/// Whether it is a width: from 1 to 128 bits.
pub fn is_width(width: u32) -> bool
    ensures { result ≡ is_width width }
{
    0 < width && width <= 128
}

/// Whether a literal is a value: it has a width from 1 to 128, and its number has no more bits.
#[tactic(auto, using(crate::proofs::Values::all_of))]
pub fn is_value(bits: Bits) -> bool
    ensures { result ≡ rules.is_value bits }
{
    if !is_width(bits.width) {
        return false;
    }
    bits.width == 128 || bits.value < 1u128 << bits.width
}

/// Whether bits of the type, if it is known, may be widened to so many.
pub fn widens(to: u32, of: Option<TyRef<'_>>) -> bool
    ensures { result ≡ rules.widens to (maybe_type of.entry) }
{
    match of {
        Some(TyRef::Bits(width)) => is_width(to) && width <= to,
        Some(TyRef::Unit) => is_width(to),
        Some(TyRef::Bool) => is_width(to),
        Some(TyRef::Enum(_)) => is_width(to),
        None => is_width(to),
    }
}
