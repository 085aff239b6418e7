//! A law of the top call, over its definitions alone.

ghost use Rattle.std.specs.Prelude.{◌≡◌, ◌≢◌, ℕ, Option};
ghost use Rattle.files_core.specs.Counts.{Rose};
ghost use Rattle.command_words.specs.Words.{CommandSaid};
ghost use Rattle.islaris_cli.specs.Top.{Reading, Writing, HasCause};

/// The statuses of faults come only where a count rose, so never where the counts of faults stay 0, as those of files
/// and of a sink that are held in memory and never fail.
pub fn faults_are_counted()
    ensures read { (n : ℕ) (command : Option CommandSaid) (r : Reading) (w : Writing) → HasCause n command r w → ¬ Rose r.faults r.faults' → n ≢ 5 }
    ensures write { (n : ℕ) (command : Option CommandSaid) (r : Reading) (w : Writing) → HasCause n command r w → ¬ Rose w.faults w.faults' → n ≢ 6 }
    ensures never { (n : ℕ) (command : Option CommandSaid) (r : Reading) (w : Writing) → HasCause n command r w
        → r.faults ≡ 0 → r.faults' ≡ 0 → w.faults ≡ 0 → w.faults' ≡ 0 → (n ≢ 5) × (n ≢ 6) }
{}
