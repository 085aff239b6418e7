//! Why a step is refused.

use term_tree::TermFault;
use trace_plain::FailKind;

/// Why a step is refused.
#[derive(Clone, Copy, Debug, PartialEq, Eq)]
pub enum StepFault {
    /// The instruction fails here, so the path ends.
    Fails(FailKind),
    /// A term is too high, there are too many, or there is no memory.
    Terms(TermFault),
}
