//! The laws: facts over the definitions alone, each the contract of a function that does nothing.

ghost use Rattle.eval_types.specs.Keeps.{KeepsTypes, CallsKeepTypes, InstrKeepsTypes, Instr16KeepsTypes};

use state_core::laws::{reads, stores};

/// An expression of a typed program is evaluated to a value of its type, and locals that fit its scope; or the evaluation ends early. What
/// is left is a state that fits the program. So it is of calls of the program's functions, and of `instr` and `instr16` at words of their widths.
pub fn evaluation_keeps_types()
    ensures expressions { KeepsTypes }
    ensures calls { CallsKeepTypes }
    ensures instr { InstrKeepsTypes }
    ensures instr16 { Instr16KeepsTypes }
{
    reads();
    stores();
}
