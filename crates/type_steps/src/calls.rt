//! Calls, and what they ask of arguments.

ghost use Rattle.std.specs.Prelude.{◌≡◌, nat_eq};
ghost use Rattle.std.specs.Option.{option_copied};
ghost use Rattle.type_rules.specs.Faults.{first_from};
ghost use Rattle.type_rules.specs.Rules as rules;
ghost use Rattle.type_names.specs.Borrowed.{maybe_type, maybe_fault};

use crate::fitting::{bits_only, differs, fits, or_type};
use crate::names::known;
use lex_core::Name;
use sail_syntax::Ty;
use type_names::{FaultRef, Globals, TyRef, WhyRef, say};
use type_rules::Slot;

/// What is asked of the first argument.
pub fn slot_of(slots: &[Slot]) -> Option<&Slot>
    ensures { option_copied result ≡ rules.slot_of slots.now }
{
    match slots {
        [] => None,
        [first, ..] => Some(first),
    }
}

/// What is asked of the others.
pub fn slots_after(slots: &[Slot]) -> &[Slot]
    ensures { result.now ≡ rules.slots_after slots.now }
{
    match slots {
        [] => slots,
        [_, rest @ ..] => rest,
    }
}

/// The type that is asked of an argument, where the first one has the other.
pub fn asked_slot<'a>(
    globals: &Globals,
    slot: Option<&'a Slot>,
    one: Option<TyRef<'a>>,
) -> Option<TyRef<'a>>
    ensures { maybe_type result ≡ rules.asked_slot globals.now (option_copied slot.entry) (maybe_type one.entry) }
{
    match slot {
        Some(Slot::Is(ty)) => known(globals, ty),
        Some(Slot::AnyBits) => None,
        Some(Slot::Alike) => one,
        None => None,
    }
}

/// An argument, of which bits may be asked.
pub fn narrowed<'a>(
    slot: Option<&Slot>,
    at: usize,
    got: Option<TyRef<'a>>,
    best: &mut Option<FaultRef<'a>>,
) -> Option<TyRef<'a>>
    ensures answer { maybe_type result ≡ (rules.narrowed (option_copied slot.entry) at (maybe_type got.entry)).type }
    ensures first { maybe_fault best.new ≡ first_from (maybe_fault best.old) (rules.narrowed (option_copied slot.entry) at (maybe_type got.entry)).faults }
{
    match slot {
        Some(Slot::AnyBits) => bits_only(at, got, best),
        Some(Slot::Is(_)) => got,
        Some(Slot::Alike) => got,
        None => got,
    }
}

/// A call of a function, which has to be complete.
pub fn finished<'a>(done: bool, name: &'a Name, at: usize, best: &mut Option<FaultRef<'a>>)
    ensures { maybe_fault best.new ≡ first_from (maybe_fault best.old) (rules.finished done name.now at).faults }
{
    if !done {
        say(at, WhyRef::Later(name.bytes()), best);
    }
}

/// A call whose function gives the type, with so many arguments as it has parameters or not.
fn counted<'a>(
    same: bool,
    at: usize,
    want: Option<TyRef<'a>>,
    gives: Option<TyRef<'a>>,
    best: &mut Option<FaultRef<'a>>,
) -> Option<TyRef<'a>>
    ensures answer { maybe_type result ≡ (rules.counted same at (maybe_type want.entry) (maybe_type gives.entry)).type }
    ensures first { maybe_fault best.new ≡ first_from (maybe_fault best.old) (rules.counted same at (maybe_type want.entry) (maybe_type gives.entry)).faults }
{
    if !same {
        let got = or_type(gives, TyRef::Unit);
        differs(or_type(want, got), got, at, best);
    }
    fits(at, want, gives, best)
}

/// The type that a function gives, where its first argument has the other one.
fn given_type<'a>(
    globals: &Globals,
    gives: &'a Option<Ty>,
    one: Option<TyRef<'a>>,
) -> Option<TyRef<'a>>
    ensures { maybe_type result ≡ rules.given_type globals.now gives.now (maybe_type one.entry) }
{
    match gives {
        Some(ty) => known(globals, ty),
        None => one,
    }
}

/// A call of a function that gives what is written for it, if that is, with so many parameters and so many arguments, the first of which has the type.
pub fn call_type<'a>(
    globals: &Globals,
    gives: &'a Option<Ty>,
    params: usize,
    args: usize,
    at: usize,
    want: Option<TyRef<'a>>,
    one: Option<TyRef<'a>>,
    best: &mut Option<FaultRef<'a>>,
) -> Option<TyRef<'a>>
    ensures answer { maybe_type result ≡ (rules.counted (nat_eq params args) at (maybe_type want.entry) (rules.given_type globals.now gives.now (maybe_type one.entry))).type }
    ensures first { maybe_fault best.new ≡ first_from (maybe_fault best.old)
        (rules.counted (nat_eq params args) at (maybe_type want.entry) (rules.given_type globals.now gives.now (maybe_type one.entry))).faults }
{
    counted(
        params == args,
        at,
        want,
        given_type(globals, gives, one),
        best,
    )
}
