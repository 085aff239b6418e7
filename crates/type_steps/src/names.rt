//! Names of expressions, of new locals and of what is assigned, and types that are written.

ghost use Rattle.std.specs.Prelude.{◌≡◌};
ghost use Rattle.std.specs.Option.{option_copied};
ghost use Rattle.type_rules.specs.Faults.{first_from};
ghost use Rattle.type_rules.specs.Names.{find, look, is_enum, is_type, known};
ghost use Rattle.type_rules.specs.Rules as rules;
ghost use Rattle.type_names.specs.Borrowed.{maybe_type, sort_of, maybe_fault};
ghost use Rattle.type_steps.specs.Grown.{target_at};

use crate::fitting::{differs, fits, is_width, no_type};
use lex_core::Name;
use sail_syntax::Ty;
use type_names::{FaultRef, Globals, Locals, SortRef, TyRef, WhyRef, say};
use type_rules::Item;

/// What may be assigned to a name.
#[derive(Clone, Copy)]
pub enum TargetRef<'a> {
    /// A value of this type, if the type is known.
    Takes(Option<TyRef<'a>>),
    /// Nothing.
    Refuses,
    /// There is no such name.
    Missing,
}

/// The type of a name of the whole text: registers and members have one.
fn item_type(item: Option<&Item>) -> Option<TyRef<'_>>
    ensures { maybe_type result ≡ rules.item_type (option_copied item.entry) }
{
    match item {
        Some(Item::Register { width }) => Some(TyRef::Bits(*width)),
        Some(Item::Member { of }) => Some(TyRef::Enum(of.bytes())),
        Some(Item::Enum) => None,
        Some(Item::Function { .. }) => None,
        None => None,
    }
}

/// The type of a name of the whole text, which has to have one.
fn read_global<'a>(
    globals: &'a Globals,
    name: &'a Name,
    at: usize,
    best: &mut Option<FaultRef<'a>>,
) -> Option<TyRef<'a>>
    ensures answer { maybe_type result ≡ (rules.named name.now at (rules.item_type (find name.now globals.now))).type }
    ensures first { maybe_fault best.new ≡ first_from (maybe_fault best.old) (rules.named name.now at (rules.item_type (find name.now globals.now))).faults }
{
    match item_type(globals.find(name.bytes())) {
        Some(ty) => Some(ty),
        None => {
            say(at, WhyRef::Unknown(name.bytes()), best);
            None
        }
    }
}

/// A name that is an expression.
pub fn read_name<'a>(
    globals: &'a Globals,
    locals: &Locals<'a>,
    name: &'a Name,
    at: usize,
    best: &mut Option<FaultRef<'a>>,
) -> Option<TyRef<'a>>
    ensures answer { maybe_type result ≡ (rules.read_name globals.now name.now at (look name.now locals.now)).type }
    ensures first { maybe_fault best.new ≡ first_from (maybe_fault best.old) (rules.read_name globals.now name.now at (look name.now locals.now)).faults }
{
    match locals.look(name.bytes()) {
        Some(SortRef::Holds { ty, .. }) => ty,
        Some(SortRef::Counts { .. }) => {
            say(at, WhyRef::Unknown(name.bytes()), best);
            None
        }
        None => read_global(globals, name, at, best),
    }
}

/// The name of a new local, which no name of the whole text may be.
pub fn taken<'a>(globals: &Globals, name: &'a Name, at: usize, best: &mut Option<FaultRef<'a>>)
    ensures { maybe_fault best.new ≡ first_from (maybe_fault best.old) (rules.taken globals.now name.now at).faults }
{
    if globals.find(name.bytes()).is_some() {
        say(at, WhyRef::Twice(name.bytes()), best);
    }
}

/// What a name of the whole text takes.
fn global_target<'a>(item: Option<&Item>) -> TargetRef<'a>
    ensures { target_at result ≡ rules.global_target (option_copied item.entry) }
{
    match item {
        Some(Item::Register { width }) => TargetRef::Takes(Some(TyRef::Bits(*width))),
        Some(Item::Member { .. }) => TargetRef::Refuses,
        Some(Item::Enum) => TargetRef::Refuses,
        Some(Item::Function { .. }) => TargetRef::Refuses,
        None => TargetRef::Missing,
    }
}

/// What may be assigned to a name.
pub fn target_of<'a>(globals: &Globals, locals: &Locals<'a>, name: &Name) -> TargetRef<'a>
    ensures { target_at result ≡ rules.target_of globals.now (look name.now locals.now) name.now }
{
    match locals.look(name.bytes()) {
        Some(SortRef::Holds { ty, assigned }) => {
            if assigned {
                TargetRef::Takes(ty)
            } else {
                TargetRef::Refuses
            }
        }
        Some(SortRef::Counts { .. }) => TargetRef::Refuses,
        None => global_target(globals.find(name.bytes())),
    }
}

/// What is asked of a value that is assigned.
pub fn asked_of<'a>(target: TargetRef<'a>) -> Option<TyRef<'a>>
    ensures { maybe_type result ≡ rules.asked_of (target_at target.entry) }
{
    match target {
        TargetRef::Takes(ty) => ty,
        TargetRef::Refuses => None,
        TargetRef::Missing => None,
    }
}

/// An assignment, which has unit.
pub fn assigned<'a>(
    name: &'a Name,
    at: usize,
    want: Option<TyRef<'a>>,
    target: TargetRef<'a>,
    best: &mut Option<FaultRef<'a>>,
) -> Option<TyRef<'a>>
    ensures answer { maybe_type result ≡ (rules.assigned name.now at (maybe_type want.entry) (target_at target.entry)).type }
    ensures first { maybe_fault best.new ≡ first_from (maybe_fault best.old) (rules.assigned name.now at (maybe_type want.entry) (target_at target.entry)).faults }
{
    match target {
        TargetRef::Takes(_) => fits(at, want, Some(TyRef::Unit), best),
        TargetRef::Refuses => no_type(at, want, best),
        TargetRef::Missing => {
            say(at, WhyRef::Unknown(name.bytes()), best);
            None
        }
    }
}

/// Whether it is the name of an enum.
fn is_enum(globals: &Globals, name: &[u8]) -> bool
    ensures { result ≡ is_enum (find name.now globals.now) }
{
    match globals.find(name) {
        Some(Item::Enum) => true,
        _ => false,
    }
}

/// Whether it is a type: of bits with a width from 1 to 128, or of an enum that is there.
fn is_type(globals: &Globals, ty: &Ty) -> bool
    ensures { result ≡ is_type globals.now ty.now }
{
    match ty {
        Ty::Unit => true,
        Ty::Bool => true,
        Ty::Bits(width) => is_width(*width),
        Ty::Enum(name) => is_enum(globals, name.bytes()),
    }
}

/// The type, where it is one.
pub fn known<'a>(globals: &Globals, ty: &'a Ty) -> Option<TyRef<'a>>
    ensures { maybe_type result ≡ known globals.now ty.now }
{
    if is_type(globals, ty) {
        Some(TyRef::of(ty))
    } else {
        None
    }
}

/// A type that isn't one.
fn no_such_type<'a>(at: usize, ty: &'a Ty, best: &mut Option<FaultRef<'a>>)
    ensures { maybe_fault best.new ≡ first_from (maybe_fault best.old) (rules.no_such_type at ty.now).faults }
{
    match ty {
        Ty::Enum(name) => say(at, WhyRef::Unknown(name.bytes()), best),
        Ty::Unit => differs(TyRef::Unit, TyRef::Unit, at, best),
        Ty::Bool => differs(TyRef::Bool, TyRef::Bool, at, best),
        Ty::Bits(width) => differs(TyRef::Bits(*width), TyRef::Bits(*width), at, best),
    }
}

/// A type that is written.
pub fn written<'a>(
    globals: &Globals,
    at: usize,
    ty: &'a Ty,
    best: &mut Option<FaultRef<'a>>,
) -> Option<TyRef<'a>>
    ensures answer { maybe_type result ≡ (rules.written globals.now at ty.now).type }
    ensures first { maybe_fault best.new ≡ first_from (maybe_fault best.old) (rules.written globals.now at ty.now).faults }
{
    match known(globals, ty) {
        Some(ty) => Some(ty),
        None => {
            no_such_type(at, ty, best);
            None
        }
    }
}

/// A type that may be written.
pub fn maybe_written<'a>(
    globals: &Globals,
    at: usize,
    ty: &'a Option<Ty>,
    best: &mut Option<FaultRef<'a>>,
) -> Option<TyRef<'a>>
    ensures answer { maybe_type result ≡ (rules.maybe_written globals.now at ty.now).type }
    ensures first { maybe_fault best.new ≡ first_from (maybe_fault best.old) (rules.maybe_written globals.now at ty.now).faults }
{
    match ty {
        None => None,
        Some(ty) => written(globals, at, ty, best),
    }
}
