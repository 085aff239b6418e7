//! The law of traces, over the definitions alone.

ghost use Rattle.sym_follows.specs.Follows.{EvaluationFollows};

use state_core::laws::{reads, stores};
use trace_plain::laws::following;

/// From a state of a typed program that meets the assumptions, just one outcome follows the trace of an opcode, and it says
/// what the evaluation at that opcode comes to.
pub fn evaluation_follows()
    ensures { EvaluationFollows }
{
    following();
    reads();
    stores();
}
