//! Files that are read a piece at a time.

ghost use Rattle.std.specs.Prelude.{◌≡◌, ◌≤◌, ℕ, Option};
ghost use Rattle.files_core.specs.Counts.{IsCount};
ghost use Rattle.files_core.specs.Reads.{IsReadAnswer, ReadHasCause};
ghost use Rattle.files_core.specs.Store.{Store};

use crate::answers::ReadAnswer;

/// Files by their names. A caller reads a file from a place on, as many bytes as it has room for.
pub trait Files {
    /// The store: the bytes of the files by their names, where the implementation tells them.
    ghost store: { Self → Option Store };

    /// How often a read has failed. It never falls, and stops at 2^64 - 1.
    ghost faults: { Self → ℕ };

    /// How often a name wasn't there. It never falls, and stops at 2^64 - 1.
    ghost missing: { Self → ℕ };

    /// Reads bytes of the file of that name, from byte `at` on, to the front of the buffer.
    ///
    /// `Got(0)` with a buffer that isn't empty is the end of the file; of a told file it comes only at or past its
    /// end. With an empty buffer `Got(0)` says that the file is there, and no more: such a read is a read like any
    /// other, and may fail and be counted. `Missing` and `Failed` come only where their count rose, or stands at
    /// 2^64 - 1, and `Missing` only where a told store hasn't the name. A read leaves the store as it is.
    fn read_at(&mut self, name: &str, at: u64, buf: &mut [u8]) -> ReadAnswer
        ensures answer { IsReadAnswer (store self.old) name.now at result buf.new }
        ensures cause { ReadHasCause result (missing self.old) (missing self.new) (faults self.old) (faults self.new) }
        ensures store { store self.new ≡ store self.old }
        ensures faults { faults self.old ≤ faults self.new }
        ensures missing { missing self.old ≤ missing self.new }
        ensures ends { IsCount (faults self.new) × IsCount (missing self.new) };
}
