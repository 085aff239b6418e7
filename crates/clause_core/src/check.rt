//! The check of a certificate.

ghost use Rattle.std.specs.Prelude.{◌≡◌, ◌+◌, ◌≤◌, ◌<◌, ◌^◌, [], ◌∷◌, ◌++◌, true, not, map, length, option_map, IsOk, All};
ghost use Rattle.clause_core.specs.Clauses.{opposite_of};
ghost use Rattle.clause_core.specs.Derivation.{said_of, clause_of, follow_of, has_both, step_of, and_then, steps_of, end_of, cert_of, room_of_step, room_of, IsNumbered};
ghost use Rattle.clause_core.specs.Heard.{SameLits};
ghost use Rattle.clause_core.specs.Meaning.{IsFirstFault, HaveNoModel, EachFollows, EachFollowsFromAxioms, derived_count};

use crate::lits::opposite;
use crate::marks::Marks;
use crate::said::{Said, heard, said_of};
use crate::trail::Trail;
use crate::{Cert, CertFault, CertStep, Clauses, Hint, Lit};

/// What an axiom says.
fn said_axiom<C: Clauses>(axioms: &C, trail: &Trail, name: Hint) -> Option<Said>
    ensures { result ≡ option_map (said_of trail.now.lits) (C.clause axioms.now name) }
{
    let length = axioms.length(name)?;
    let mut said = Said::AllFalse;
    for index in 0..length {
        let p = axioms.literal(name, index)?;
        said = heard(trail, said, p);
    }
    Some(said)
}

/// What a named clause says, at the step after these.
fn said_by_name<C: Clauses>(
    axioms: &C,
    earlier: &[CertStep],
    trail: &Trail,
    name: Hint,
) -> Option<Said>
    ensures { result
        ≡ option_map (said_of trail.now.lits) (clause_of (C.clause axioms.now) earlier.now name) }
{
    match name {
        Hint::Step(number) => {
            let step = earlier.get(number as usize)?;
            Some(said_of(trail, step.clause.as_slice()))
        }
        _ => said_axiom(axioms, trail, name),
    }
}

/// Makes a literal true that may be so already.
fn make_true(trail: &mut Trail, p: Lit)
    requires { length trail.old.lits < trail.old.room }
    ensures lits { SameLits trail.new.lits (trail.old.lits ++ p ∷ []) }
    ensures few { length trail.new.lits ≤ length trail.old.lits + 1 }
    ensures room { trail.new.room ≡ trail.old.room }
{
    if !trail.has(p) {
        trail.put(p);
    }
}

/// Makes each literal of a clause false, and no other; it answers false where a literal's opposite is one of them too.
fn assume(clause: &[Lit], trail: &mut Trail) -> bool
    requires { length clause.now ≤ trail.old.room }
    ensures answer { result ≡ not (has_both clause.now) }
    ensures lits { result ≡ true → SameLits trail.new.lits (map opposite_of clause.now) }
    ensures few { length trail.new.lits ≤ length clause.now }
    ensures room { trail.new.room ≡ trail.old.room }
{
    trail.clear();
    for p in clause {
        if trail.has(*p) {
            return false;
        }
        make_true(trail, opposite(*p));
    }
    true
}

/// Follows the hints of the step after these.
fn follow<C: Clauses>(
    axioms: &C,
    earlier: &[CertStep],
    hints: &[Hint],
    trail: &mut Trail,
) -> Result<(), CertFault>
    requires steps { length earlier.now < 2 ^ 32 }
    requires hints { length hints.now < 2 ^ 32 }
    requires room { length trail.old.lits + length hints.now ≤ trail.old.room }
    ensures result { let named = clause_of (C.clause axioms.now) earlier.now in
        result ≡ follow_of named (length earlier.now) 0 trail.old.lits hints.now }
    ensures room { trail.new.room ≡ trail.old.room }
{
    let step = earlier.len() as u32;
    for (index, name) in hints.iter().enumerate() {
        let hint = index as u32;
        match said_by_name(axioms, earlier, trail, *name) {
            None => return Err(CertFault::NoSuch { step, hint }),
            Some(Said::AllFalse) => return Ok(()),
            Some(Said::OneOpen(p)) => trail.put(p),
            Some(Said::Other) => return Err(CertFault::NotUnit { step, hint }),
        }
    }
    Err(CertFault::NoConflict { step })
}

/// Checks the step after these.
fn check_step<C: Clauses>(
    axioms: &C,
    earlier: &[CertStep],
    step: &CertStep,
    trail: &mut Trail,
) -> Result<(), CertFault>
    requires steps { length earlier.now < 2 ^ 32 }
    requires hints { length step.now.hints < 2 ^ 32 }
    requires room { room_of_step step.now ≤ trail.old.room }
    ensures result { result ≡ step_of (C.clause axioms.now) earlier.now step.now }
    ensures room { trail.new.room ≡ trail.old.room }
{
    if assume(step.clause.as_slice(), trail) {
        follow(axioms, earlier, step.hints.as_slice(), trail)
    } else {
        Ok(())
    }
}

/// Checks the steps in order.
fn check_steps<C: Clauses>(
    axioms: &C,
    steps: &[CertStep],
    trail: &mut Trail,
) -> Result<(), CertFault>
    requires steps { length steps.now < 2 ^ 32 }
    requires hints { All (λ s. length s.hints < 2 ^ 32) steps.now }
    requires room { room_of steps.now ≤ trail.old.room }
    ensures result { result ≡ steps_of (C.clause axioms.now) [] steps.now }
    ensures room { trail.new.room ≡ trail.old.room }
{
    for (index, step) in steps.iter().enumerate() {
        check_step(axioms, &steps[..index], step, trail)?;
    }
    Ok(())
}

/// Checks that there is a last clause and that it is empty.
fn check_end(steps: &[CertStep]) -> Result<(), CertFault>
    ensures { result ≡ end_of steps.now }
{
    let Some(step) = steps.last() else {
        return Err(CertFault::NotEmpty);
    };
    if step.clause.is_empty() {
        Ok(())
    } else {
        Err(CertFault::NotEmpty)
    }
}

/// Checks the steps in order and then the end.
fn check_all<C: Clauses>(axioms: &C, steps: &[CertStep], trail: &mut Trail) -> Result<(), CertFault>
    requires steps { length steps.now < 2 ^ 32 }
    requires hints { All (λ s. length s.hints < 2 ^ 32) steps.now }
    requires room { room_of steps.now ≤ trail.old.room }
    ensures result { result ≡ and_then (steps_of (C.clause axioms.now) [] steps.now) (end_of steps.now) }
    ensures room { trail.new.room ≡ trail.old.room }
{
    check_steps(axioms, steps, trail)?;
    check_end(steps)
}

/// Whether each step of a certificate follows by its hints and the last clause is empty, or the first fault.
///
/// A step assumes each literal of its clause false. A clause with a literal and its opposite is derived at once. Then the
/// hints are taken in order: a hinted clause whose literals are all false ends the step, one whose literals are all false
/// but one open literal makes that literal true. Hints after the end aren't looked at.
///
/// There are fewer than 2^32 steps, and hints in each, and the marks have room for the certificate, as those that were made
/// for it have. No memory is taken. A true literal is looked up by its name, so a hint takes as long as its clause is.
pub fn check_cert<C: Clauses>(axioms: &C, cert: &Cert, marks: &mut Marks) -> Result<(), CertFault>
    requires numbered { IsNumbered cert.now }
    requires room { room_of cert.now.steps ≤ marks.old }
    ensures result { result ≡ cert_of (C.clause axioms.now) cert.now }
    ensures first { IsFirstFault (C.clause axioms.now) cert.now.steps result }

    // What the answer means for the assignments of the bits.
    ensures sound { IsOk result → HaveNoModel (C.clause axioms.now) }
    ensures derived { let count = derived_count result cert.now.steps in
        EachFollows (C.clause axioms.now) cert.now.steps count }
    ensures derived_from_axioms { let count = derived_count result cert.now.steps in
        EachFollowsFromAxioms (C.clause axioms.now) cert.now.steps count }

    ensures room { marks.new ≡ marks.old }
{
    check_all(axioms, cert.steps.as_slice(), &mut marks.trail)
}
