//! What takes bytes a piece at a time.

ghost use Rattle.std.specs.Prelude.{◌≡◌, ◌≤◌, ℕ, List, Option, length};
ghost use Rattle.files_core.specs.Counts.{IsCount};
ghost use Rattle.files_core.specs.Writes.{IsWriteAnswer, WriteHasCause, IsEmptyWrite};

use crate::answers::WriteAnswer;

/// Takes bytes in order.
pub trait Sink {
    /// The bytes so far, where the implementation tells them.
    ghost bytes: { Self → Option (List ℕ) };

    /// How often a write has failed. It never falls, and stops at 2^64 - 1.
    ghost faults: { Self → ℕ };

    /// Writes bytes from the front of the piece, at least one where there is one.
    ///
    /// An empty piece gives `Took(0)` and raises no count. `Failed` comes only where the count of faults rose, or
    /// stands at 2^64 - 1. `Failed` and `NoMemory` have written nothing.
    fn write(&mut self, piece: &[u8]) -> WriteAnswer
        ensures answer { IsWriteAnswer (bytes self.old) piece.now result (bytes self.new) }
        ensures empty { length piece.now ≡ 0 → IsEmptyWrite result (faults self.old) (faults self.new) }
        ensures cause { WriteHasCause result (faults self.old) (faults self.new) }
        ensures faults { faults self.old ≤ faults self.new }
        ensures ends { IsCount (faults self.new) };
}
