//! Patterns, and the locals that they bind.

ghost use Rattle.std.specs.Prelude.{◌≡◌, true, OnOk};
ghost use Rattle.type_rules.specs.Faults.{first_from};
ghost use Rattle.type_rules.specs.Names.{find};
ghost use Rattle.type_rules.specs.Rules as rules;
ghost use Rattle.type_rules.specs.Judge as judge;
ghost use Rattle.type_names.specs.Borrowed.{type_of, maybe_type, maybe_fault};
ghost use Rattle.type_steps.specs.Grown.{Grown};

use crate::chains::widened;
use crate::fitting::{differs, is_value, is_width, or_type};
use crate::names::taken;
use bv_bits::Bits;
use lex_core::{Name, NoMemory};
use sail_syntax::{Part, Pattern};
use type_names::{FaultRef, Globals, Locals, SortRef, TyRef, WhyRef, say};
use type_rules::Item;

/// A pattern of a type, where a value of a type is matched.
fn pattern_fits<'a>(
    at: usize,
    on: Option<TyRef<'a>>,
    got: TyRef<'a>,
    best: &mut Option<FaultRef<'a>>,
)
    ensures { maybe_fault best.new ≡ first_from (maybe_fault best.old) (rules.pattern_fits at (maybe_type on.entry) (type_of got.entry)).faults }
{
    match on {
        None => (),
        Some(asked) => {
            if !asked.is(got) {
                differs(asked, got, at, best);
            }
        }
    }
}

/// A pattern that breaks a rule.
fn bad_pattern<'a>(at: usize, on: Option<TyRef<'a>>, best: &mut Option<FaultRef<'a>>)
    ensures { maybe_fault best.new ≡ first_from (maybe_fault best.old) (rules.bad_pattern at (maybe_type on.entry)).faults }
{
    let asked = or_type(on, TyRef::Unit);
    differs(asked, TyRef::Unit, at, best);
}

/// A literal.
fn literal_fits<'a>(at: usize, on: Option<TyRef<'a>>, bits: Bits, best: &mut Option<FaultRef<'a>>)
    ensures { maybe_fault best.new ≡ first_from (maybe_fault best.old) (rules.literal_fits at (maybe_type on.entry) bits).faults }
{
    if is_value(bits) {
        pattern_fits(at, on, TyRef::Bits(bits.width), best);
    } else {
        bad_pattern(at, on, best);
    }
}

/// How wide a part is.
fn part_width(part: &Part) -> u32
    ensures { result ≡ rules.part_width part.now }
{
    match part {
        Part::Lit(bits) => bits.width,
        Part::Bind { width, .. } => *width,
        Part::Skip { width } => *width,
    }
}

/// Whether a part is a value, or has a width from 1 to 128.
fn is_part(part: &Part) -> bool
    ensures { result ≡ rules.is_part part.now }
{
    match part {
        Part::Lit(bits) => is_value(*bits),
        Part::Bind { width, .. } => is_width(*width),
        Part::Skip { width } => is_width(*width),
    }
}

/// Parts of so many bits in all, where each is one; they have at most 128.
fn parts_fit<'a>(
    at: usize,
    on: Option<TyRef<'a>>,
    total: u64,
    are_parts: bool,
    best: &mut Option<FaultRef<'a>>,
)
    ensures { maybe_fault best.new ≡ first_from (maybe_fault best.old) (rules.parts_fit at (maybe_type on.entry) total are_parts).faults }
{
    if are_parts && total <= 128 {
        pattern_fits(at, on, TyRef::Bits(total as u32), best);
    } else {
        bad_pattern(at, on, best);
    }
}

/// The name of a part.
fn part_taken<'a>(globals: &Globals, at: usize, part: &'a Part, best: &mut Option<FaultRef<'a>>)
    ensures { maybe_fault best.new ≡ first_from (maybe_fault best.old) (judge.part_taken globals.now at part.now).faults }
{
    match part {
        Part::Lit(_) => (),
        Part::Bind { name, .. } => taken(globals, name, at, best),
        Part::Skip { .. } => (),
    }
}

/// The parts of a pattern.
fn judge_parts<'a>(
    globals: &Globals,
    parts: &'a [Part],
    at: usize,
    on: Option<TyRef<'a>>,
    best: &mut Option<FaultRef<'a>>,
)
    ensures { maybe_fault best.new ≡ first_from (maybe_fault best.old) (judge.judge_parts globals.now parts.now 0 true at (maybe_type on.entry)).faults }
{
    let mut total = 0;
    let mut are_parts = true;
    for part in parts {
        part_taken(globals, at, part, best);
        total = widened(total, part_width(part));
        are_parts = are_parts && is_part(part);
    }
    parts_fit(at, on, total, are_parts, best);
}

/// A name: a member fits values of its enum, any other name is a new local.
fn name_pattern<'a>(
    globals: &'a Globals,
    name: &'a Name,
    at: usize,
    on: Option<TyRef<'a>>,
    best: &mut Option<FaultRef<'a>>,
)
    ensures { maybe_fault best.new ≡ first_from (maybe_fault best.old) (judge.name_pattern name.now at (maybe_type on.entry) (find name.now globals.now)).faults }
{
    match globals.find(name.bytes()) {
        Some(Item::Member { of }) => pattern_fits(at, on, TyRef::Enum(of.bytes()), best),
        Some(_) => say(at, WhyRef::Twice(name.bytes()), best),
        None => (),
    }
}

/// A pattern, where a value of the type is matched; the place is that of the arm's body.
pub fn judge_pattern<'a>(
    globals: &'a Globals,
    pattern: &'a Pattern,
    at: usize,
    on: Option<TyRef<'a>>,
    best: &mut Option<FaultRef<'a>>,
)
    ensures { maybe_fault best.new ≡ first_from (maybe_fault best.old) (judge.judge_pattern globals.now pattern.now at (maybe_type on.entry)).faults }
{
    match pattern {
        Pattern::Any => (),
        Pattern::Name(name) => name_pattern(globals, name, at, on, best),
        Pattern::Lit(bits) => literal_fits(at, on, *bits, best),
        Pattern::Truth(_) => pattern_fits(at, on, TyRef::Bool, best),
        Pattern::Parts(parts) => judge_parts(globals, parts.as_slice(), at, on, best),
    }
}

/// A local that is never assigned.
#[tactic(auto, using(crate::proofs::Grow::grown_more, crate::proofs::Grow::grown_same))]
fn enter_part<'a>(part: &'a Part, locals: &mut Locals<'a>) -> Result<(), NoMemory>
    ensures entered { OnOk result (locals.new ≡ judge.entered_part part.now locals.old) }
    ensures grown { OnOk result (Grown locals.old locals.new) }
{
    match part {
        Part::Lit(_) => Ok(()),
        Part::Bind { name, width } => {
            let ty = Some(TyRef::Bits(*width));
            locals.enter(
                name.bytes(),
                SortRef::Holds {
                    ty,
                    assigned: false,
                },
            )
        }
        Part::Skip { .. } => Ok(()),
    }
}

/// The locals that parts bind.
#[tactic(auto, using(crate::proofs::Grow::grown_after, crate::proofs::Grow::grown_same))]
fn enter_parts<'a>(parts: &'a [Part], locals: &mut Locals<'a>) -> Result<(), NoMemory>
    ensures entered { OnOk result (locals.new ≡ judge.entered_parts parts.now locals.old) }
    ensures grown { OnOk result (Grown locals.old locals.new) }
{
    for part in parts {
        enter_part(part, locals)?;
    }
    Ok(())
}

/// The local that a name binds: a member none, any other name itself.
#[tactic(auto, using(crate::proofs::Grow::grown_more, crate::proofs::Grow::grown_same))]
fn enter_name<'a>(
    globals: &Globals,
    name: &'a Name,
    on: Option<TyRef<'a>>,
    locals: &mut Locals<'a>,
) -> Result<(), NoMemory>
    ensures entered { OnOk result (locals.new ≡ judge.entered_name (find name.now globals.now) name.now (maybe_type on.entry) locals.old) }
    ensures grown { OnOk result (Grown locals.old locals.new) }
{
    match globals.find(name.bytes()) {
        Some(Item::Member { .. }) => Ok(()),
        _ => locals.enter(
            name.bytes(),
            SortRef::Holds {
                ty: on,
                assigned: false,
            },
        ),
    }
}

/// The locals that a pattern binds, where the matched value has the type.
#[tactic(auto, using(crate::proofs::Grow::grown_same))]
pub fn enter<'a>(
    globals: &Globals,
    pattern: &'a Pattern,
    on: Option<TyRef<'a>>,
    locals: &mut Locals<'a>,
) -> Result<(), NoMemory>
    ensures entered { OnOk result (locals.new ≡ judge.entered globals.now pattern.now (maybe_type on.entry) locals.old) }
    ensures grown { OnOk result (Grown locals.old locals.new) }
{
    match pattern {
        Pattern::Any => Ok(()),
        Pattern::Name(name) => enter_name(globals, name, on, locals),
        Pattern::Lit(_) => Ok(()),
        Pattern::Truth(_) => Ok(()),
        Pattern::Parts(parts) => enter_parts(parts.as_slice(), locals),
    }
}
