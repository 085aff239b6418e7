//! Laws of accesses, over the definitions alone.

ghost use Rattle.std.specs.Prelude.{◌≡◌, ℕ, ◌+◌, List, ◌++◌, length, Some};
ghost use Rattle.state_core.specs.declared.kinds.DevEvent.{DevEvent};
ghost use Rattle.state_core.specs.declared.kinds.Range.{Range};
ghost use Rattle.state_core.specs.Devices.{Transitions, judge_from, behind};
ghost use Rattle.state_core.specs.State.{Memory};
ghost use Rattle.state_core.specs.World.{World};
ghost use Rattle.state_core.specs.Memory.{written, fetch, load, store};
ghost use Rattle.state_core.specs.Laws.{IsWrite, IsRead, IsStored};

/// What is written reads back, other bytes are left alone, and no byte is added or removed.
pub fn writes()
    ensures { (m after : Memory) (at n value : ℕ) → written m at n value ≡ Some after → IsWrite m at n value after }
{}

/// Fetches and reads leave the state as it is, what was done only grows, and in a state of values alone the value that
/// they give fits in its bytes.
pub fn reads()
    ensures fetches { (ranges : List Range) (at n : ℕ) (w : World) → IsRead n w (fetch ranges at n w) }
    ensures loads { (ranges : List Range) (at n : ℕ) (w : World) → IsRead n w (load ranges at n w) }
{}

/// A write keeps a state one of values alone, what was done only grows, and one that fails changes nothing but the
/// accesses that are noted.
pub fn stores()
    ensures { (ranges : List Range) (at n value : ℕ) (w : World) → IsStored w (store ranges at n value w) }
{}

/// Events behind others are judged from the states that those lead to. Where something is wrong with those, the same is
/// wrong with all.
pub fn judgements()
    ensures { (next : Transitions) (ranges : List Range) (i : ℕ) (states : ℕ → ℕ) (first later : List DevEvent)
        → judge_from next ranges i states (first ++ later)
        ≡ behind (judge_from next ranges i states first) (λ last. judge_from next ranges (i + length first) last later) }
{}
