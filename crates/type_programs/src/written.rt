//! Types that are written, and names of locals, against the names of the whole text.

ghost use Rattle.std.specs.Prelude.{◌≡◌};
ghost use Rattle.std.specs.Option.{option_copied};
ghost use Rattle.type_rules.specs.Faults.{first_from};
ghost use Rattle.type_rules.specs.Names.{find, is_enum, is_type, known};
ghost use Rattle.type_rules.specs.Rules.{taken, written};
ghost use Rattle.type_names.specs.Borrowed.{maybe_type, maybe_fault};

use lex_core::Name;
use sail_syntax::Ty;
use type_names::{FaultRef, Globals, TyRef, WhyRef, say};
use type_rules::Item;

/// Whether it is the name of an enum.
fn is_enum(globals: &Globals, name: &[u8]) -> bool
    ensures { result ≡ is_enum (find name.now globals.now) }
{
    match globals.find(name) {
        Some(Item::Enum) => true,
        _ => false,
    }
}

/// Whether it is a type: of bits with a width from 1 to 128, or of an enum that is there.
fn is_type(globals: &Globals, ty: &Ty) -> bool
    ensures { result ≡ is_type globals.now ty.now }
{
    match ty {
        Ty::Unit => true,
        Ty::Bool => true,
        Ty::Bits(width) => 0 < *width && *width <= 128,
        Ty::Enum(name) => is_enum(globals, name.bytes()),
    }
}

/// The type, where it is one.
pub fn known<'a>(globals: &Globals, ty: &'a Ty) -> Option<TyRef<'a>>
    ensures { maybe_type result ≡ known globals.now ty.now }
{
    if is_type(globals, ty) {
        Some(TyRef::of(ty))
    } else {
        None
    }
}

/// A type that is written.
pub fn written<'a>(globals: &Globals, at: usize, ty: &'a Ty, best: &mut Option<FaultRef<'a>>)
    ensures { maybe_fault best.new ≡ first_from (maybe_fault best.old) (written globals.now at ty.now).faults }
{
    if is_type(globals, ty) {
        return;
    }
    let own = TyRef::of(ty);
    match own {
        TyRef::Enum(name) => say(at, WhyRef::Unknown(name), best),
        TyRef::Unit | TyRef::Bool | TyRef::Bits(_) => {
            say(
                at,
                WhyRef::Differs {
                    want: own,
                    got: own,
                },
                best,
            )
        }
    }
}

/// The name of a new local, which no name of the whole text may be.
pub fn taken<'a>(globals: &Globals, name: &'a Name, at: usize, best: &mut Option<FaultRef<'a>>)
    ensures { maybe_fault best.new ≡ first_from (maybe_fault best.old) (taken globals.now name.now at).faults }
{
    if globals.find(name.bytes()).is_some() {
        say(at, WhyRef::Twice(name.bytes()), best);
    }
}
