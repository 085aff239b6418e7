//! Laws of counts, over the definitions alone.

ghost use Rattle.std.specs.Prelude.{◌≡◌, ◌-◌, ◌^◌, ◌<◌, ◌⊎◌, ℕ};
ghost use Rattle.files_core.specs.Counts.{IsCount, Rose};

/// Of counts that stop at 2^64 - 1, `Rose` says just this: the count is greater than before, or stands at 2^64 - 1.
pub fn rose_or_at_the_end()
    ensures says { (before now : ℕ) → IsCount now → Rose before now → (before < now) ⊎ (now ≡ 2 ^ 64 - 1) }
    ensures no_more { (before now : ℕ) → (before < now) ⊎ (now ≡ 2 ^ 64 - 1) → Rose before now }
{}
