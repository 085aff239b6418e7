//! The functions of the prelude over truths and bits.

ghost use Rattle.std.specs.Prelude.{◌≡◌, [], ◌∷◌, ◌++◌, OnOk, codes};
ghost use Rattle.type_rules.specs.Names.{given_operators};
ghost use Rattle.type_globals.specs.Given as spec;

use crate::given::{give_one, give_two};
use lex_core::NoMemory;
use sail_syntax::Ty;
use std::alloc::Global;
use type_names::Globals;
use type_rules::Slot;

fn comparison(alloc: Global, names: &mut Globals, name: &[u8]) -> Result<(), NoMemory>
    ensures { OnOk result (names.new ≡ names.old ++ spec.comparison name.now ∷ []) }
{
    give_two(
        alloc,
        names,
        name,
        Slot::AnyBits,
        Slot::Alike,
        Some(Ty::Bool),
    )
}

fn comparisons(alloc: Global, names: &mut Globals) -> Result<(), NoMemory>
    ensures { OnOk result (names.new ≡ names.old ++ spec.comparisons) }
{
    comparison(alloc, names, b"lt_u")?;
    comparison(alloc, names, b"lt_s")
}

fn shift(alloc: Global, names: &mut Globals, name: &[u8]) -> Result<(), NoMemory>
    ensures { OnOk result (names.new ≡ names.old ++ spec.shift name.now ∷ []) }
{
    give_two(alloc, names, name, Slot::AnyBits, Slot::AnyBits, None)
}

fn shifts(alloc: Global, names: &mut Globals) -> Result<(), NoMemory>
    ensures { OnOk result (names.new ≡ names.old ++ spec.shifts) }
{
    shift(alloc, names, b"shift_left")?;
    shift(alloc, names, b"shift_right")?;
    shift(alloc, names, b"shift_right_arith")
}

fn quotient(alloc: Global, names: &mut Globals, name: &[u8]) -> Result<(), NoMemory>
    ensures { OnOk result (names.new ≡ names.old ++ spec.quotient name.now ∷ []) }
{
    give_two(alloc, names, name, Slot::AnyBits, Slot::Alike, None)
}

fn quotients(alloc: Global, names: &mut Globals) -> Result<(), NoMemory>
    ensures { OnOk result (names.new ≡ names.old ++ spec.quotients) }
{
    quotient(alloc, names, b"div_u")?;
    quotient(alloc, names, b"rem_u")?;
    quotient(alloc, names, b"div_s")?;
    quotient(alloc, names, b"rem_s")
}

/// All of them.
pub fn operators(alloc: Global, names: &mut Globals) -> Result<(), NoMemory>
    ensures { OnOk result (names.new ≡ names.old ++ given_operators) }
{
    give_one(alloc, names, b"not", Slot::Is(Ty::Bool), Some(Ty::Bool))?;
    comparisons(alloc, names)?;
    shifts(alloc, names)?;
    quotients(alloc, names)
}
