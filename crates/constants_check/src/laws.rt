//! Laws of the verdict, over the definitions alone.

ghost use Rattle.std.specs.Prelude.{◌≡◌, ℕ, List, Some};
ghost use Rattle.sail_syntax.specs.Program.{Definition};
ghost use Rattle.eval_words.specs.Instr.{Ended};
ghost use Rattle.state_core.specs.State.{Memory};
ghost use Rattle.state_core.specs.World.{World};
ghost use Rattle.machine_run.specs.Program.{machine_of};
ghost use Rattle.machine_safe.specs.First.{Constants, fails, walk_from};
ghost use Rattle.proof_form.specs.declared.form.NamedProof.{NamedProof};
ghost use Rattle.constants_walk.specs.Failing.{IsFailure};
ghost use Rattle.constants_walk.specs.RunForm.{run_end_of};
ghost use Rattle.constants_walk.specs.declared.failure.Failure.{Failure};
ghost use Rattle.constants_walk.specs.declared.run_form.RunEnd.TheVariants as run_end;
ghost use Rattle.constants_check.specs.Accepted.{IsAccepted};
ghost use Rattle.constants_check.specs.Told.{IsTold, FailsAt, TouchesAt, first_world};
ghost use Rattle.lex_core.specs.Classes.{Text};
ghost use Rattle.constants_check.specs.Verdict.{constants_for, verdict};
ghost use Rattle.report_text.specs.Outcome.{accept};
ghost use Rattle.report_text.specs.Names.{Row};

/// Where the verdict on three texts is acceptance, the Sail text types, the specification that they give is safe, and the report tells of it.
pub fn acceptance_is_safe()
    ensures { (row : Row) (sail image proof report : Text) → verdict row sail image proof ≡ Some (accept report) → IsAccepted sail image proof report }
{}

/// Something is said of each three texts: acceptance, a refusal, bad input or a limit.
pub fn texts_are_judged()
    ensures { (row : Row) (sail image proof : Text) → IsTold (verdict row sail image proof) }
{}

/// A run fails for nothing but a failure of the Sail text, which is the one that `fail match`, `fail assert` or `fail exit` names: where the proof's conditions
/// hold, no other fault cuts an instruction short that accesses nothing, and each fetch gives a word.
pub fn failures_are_told()
    ensures text { (defs : List Definition) (memory : Memory) (p : NamedProof) (c : Constants) (room at : ℕ) (e : Ended) (w : World)
        → constants_for defs p memory ≡ Some c → walk_from (machine_of defs) c 0 c.entry_at room (first_world defs c) ≡ (fails e at, w)
        → (why : Failure) × IsFailure why e }
    ensures named { (defs : List Definition) (c : Constants) (why : Failure) (pc : ℕ) → run_end_of (machine_of defs) c ≡ Some (run_end.Fails why pc) → FailsAt defs c why pc }
{}

/// Where a run is refused as one that touches, the instruction that is named accesses memory or a device.
pub fn touches_are_accesses()
    ensures { (defs : List Definition) (c : Constants) (pc : ℕ) → run_end_of (machine_of defs) c ≡ Some (run_end.Touches pc) → TouchesAt defs c pc }
{}
