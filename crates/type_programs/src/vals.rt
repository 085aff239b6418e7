//! Types that are announced, and those of the function below.

ghost use Rattle.std.specs.Prelude.{◌≡◌, map};
ghost use Rattle.std.specs.Option.{option_copied, option_map};
ghost use Rattle.sail_syntax.specs.Program.{function, is_function};
ghost use Rattle.sail_syntax.specs.View.{definition_of};
ghost use Rattle.type_rules.specs.Faults.{first_from};
ghost use Rattle.type_rules.specs.Program.{announced, compared, compared_each, val_faults};
ghost use Rattle.type_names.specs.Borrowed.{maybe_fault};
ghost use Rattle.type_programs.specs.Vals.{compared_all};

use lex_core::Name;
use sail_syntax::{Def, Param, Ty};
use type_names::{FaultRef, TyRef, WhyRef, say};

/// Whether the definition is the function of this name.
fn is_function(def: &Def, name: &[u8]) -> bool
    ensures { result ≡ is_function name.now (definition_of def.now) }
{
    match def {
        Def::Function { name: own, .. } => own.is(name),
        _ => false,
    }
}

/// The first function of the name.
#[tactic(auto, using(crate::proofs::Announced::goes_on, crate::proofs::Announced::is_found))]
fn announced<'a>(name: &[u8], defs: &'a [Def]) -> Option<&'a Def>
    ensures { option_map definition_of (option_copied result) ≡ option_map function (announced name.now (map definition_of defs.now)) }
{
    for def in defs {
        if is_function(def, name) {
            return Some(def);
        }
    }
    None
}

/// Two types that have to be the same.
fn compare<'a>(at: usize, want: &'a Ty, got: &'a Ty, best: &mut Option<FaultRef<'a>>)
    ensures { maybe_fault best.new ≡ first_from (maybe_fault best.old) (compared at want.now got.now) }
{
    let want = TyRef::of(want);
    let got = TyRef::of(got);
    if !want.is(got) {
        say(at, WhyRef::Differs { want, got }, best);
    }
}

/// Compares argument by argument, and then the results: the first that differs is told.
#[tactic(auto, using(crate::proofs::Compared::args_end, crate::proofs::Compared::params_end))]
fn compare_each<'a>(
    at: usize,
    args: &'a [Ty],
    params: &'a [Param],
    announced: &'a Ty,
    given: &'a Ty,
    best: &mut Option<FaultRef<'a>>,
)
    ensures { maybe_fault best.new ≡ first_from (maybe_fault best.old) (compared_each at args.now params.now announced.now given.now) }
{
    let mut i = 0;
    while i < args.len() && i < params.len() {
        let want = TyRef::of(&args[i]);
        let got = TyRef::of(&params[i].ty);
        if !want.is(got) {
            say(at, WhyRef::Differs { want, got }, best);
            return;
        }
        i += 1;
    }
    compare(at, announced, given, best);
}

/// The types that are announced and those of a function: with another number of arguments the results are told.
fn compare_all<'a>(
    at: usize,
    args: &'a [Ty],
    announced: &'a Ty,
    params: &'a [Param],
    given: &'a Ty,
    best: &mut Option<FaultRef<'a>>,
)
    ensures { maybe_fault best.new ≡ first_from (maybe_fault best.old) (compared_all at args.now announced.now params.now given.now) }
{
    if args.len() == params.len() {
        compare_each(at, args, params, announced, given, best);
    } else {
        let want = TyRef::of(announced);
        let got = TyRef::of(given);
        say(at, WhyRef::Differs { want, got }, best);
    }
}

/// The types of a function that is announced: it has to stand below, with these types.
pub fn judge_val<'a>(
    name: &'a Name,
    args: &'a [Ty],
    announces: &'a Ty,
    at: usize,
    below: &'a [Def],
    best: &mut Option<FaultRef<'a>>,
)
    ensures { maybe_fault best.new ≡ first_from (maybe_fault best.old) (val_faults name.now at args.now announces.now (announced name.now (map definition_of below.now))) }
{
    match announced(name.bytes(), below) {
        Some(
            Def::Function {
                params,
                result: given,
                ..
            },
        ) => compare_all(at, args, announces, params.as_slice(), given, best),
        _ => say(at, WhyRef::Later(name.bytes()), best),
    }
}
