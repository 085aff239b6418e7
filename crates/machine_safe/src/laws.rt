//! Laws of walks and runs: facts over the definitions alone, each the contract of a function that does nothing.

ghost use Rattle.std.specs.Prelude.{◌≡◌, ◌≤◌, ◌^◌, ℕ, List, [], All};
ghost use Rattle.sail_syntax.specs.Program.{Definition};
ghost use Rattle.state_core.specs.Claims.{HasBytes};
ghost use Rattle.state_core.specs.State.{State, register_of};
ghost use Rattle.state_core.specs.World.{World, gets, start};
ghost use Rattle.state_core.specs.declared.word.Word.{Word};
ghost use Rattle.eval_uses.specs.Uses.{has_access};
ghost use Rattle.eval_words.specs.Instr.{Ended, moments_of_instr};
ghost use Rattle.machine_run.specs.Machine.{pc_of, step};
ghost use Rattle.machine_run.specs.Program.{machine_of};
ghost use Rattle.machine_run.specs.Words.{fetch_word};
ghost use Rattle.machine_safe.specs.Safe.{IsSafe};
ghost use Rattle.machine_safe.specs.First.{Constants, end_of, left, fails, has_touched, walk_from, FitsForm, IsPlainCut, IsPartial, no_transitions, no_variables, spec_of};

/// A specification over constants is safe where the walk from one state with the entry's registers and the code's bytes leaves
/// the code at the exit, with the exit's registers: no instruction on the way accessed memory or a device, so that the run of
/// that one state is the run of every state that meets the entry, whatever other bytes it has.
pub fn walked_is_safe()
    ensures { (defs : List Definition) (c : Constants) (p : State) (count last room : ℕ) (w : World)
        → FitsForm (machine_of defs) c → IsPartial (machine_of defs) c p
        → walk_from (machine_of defs) c 0 c.entry_at room (start p []) ≡ (left count last, w)
        → pc_of (machine_of defs) w.state ≡ c.exit_at → All (λ v. register_of w.state v.0 ≡ v.1) c.exit
        → IsSafe no_variables no_variables no_variables (machine_of defs) no_transitions [] (spec_of c) }
{}

/// A walk through code that is there fails for nothing but a fault that the text itself makes: no arm of a match fits, the
/// test of an assert is false, or the exit.
pub fn fails_by_the_text()
    ensures { (defs : List Definition) (c : Constants) (count last room at : ℕ) (w x : World) (e : Ended)
        → HasBytes w.state.memory c.lo c.code → end_of c ≤ 2 ^ 64
        → walk_from (machine_of defs) c count last room w ≡ (fails e at, x) → IsPlainCut e }
{}

/// What a step noted tells whether its word accesses memory or a device: it does just where an access was noted that is no fetch.
pub fn touches_by_the_accesses()
    ensures { (defs : List Definition) (w x : World) (word : Word)
        → fetch_word (machine_of defs).short [] (pc_of (machine_of defs) w.state) w ≡ gets word x
        → has_touched w (step (machine_of defs) [] w).1 ≡ has_access (moments_of_instr defs [] word x) }
{}
