//! The whole law of traces, over the definitions alone.

ghost use Rattle.sym_uses.specs.Uses.{FunctionsFollow, Instr16Follows, InstrFollows};

use state_core::laws::{reads, stores};
use trace_plain::laws::following;

/// From a state of a typed program that meets the assumptions, just one outcome follows the trace of an opcode. It says what
/// the evaluation at that opcode comes to: a whole step, a fault or want of an answer in the same world. It has seen the
/// registers that the evaluation uses: each that is written is written, and each that is read is read, assumed or written.
/// Where the trace fails for a division that isn't supported, or for a write to an assumed register, the accesses and events
/// so far are the beginning of those of the evaluation. So it is of each function of the program at a word of its parameter's
/// type, of `instr` at words of 32 bits, and of `instr16` at words of 16 bits.
pub fn instructions_follow()
    ensures functions { FunctionsFollow }
    ensures instr { InstrFollows }
    ensures instr16 { Instr16Follows }
{
    following();
    reads();
    stores();
}
