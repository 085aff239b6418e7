//! The fault of a program that is told.

ghost use Rattle.std.specs.Prelude.{◌≡◌, IfOk};
ghost use Rattle.sail_syntax.specs.View.{program_of};
ghost use Rattle.type_rules.specs.Faults.{as_told};
ghost use Rattle.type_rules.specs.Program.{type_fault};
ghost use Rattle.type_names.specs.Borrowed.{why_of};

use crate::definitions::judge_definitions;
use crate::entries::entry_fault;
use lex_core::{Name, NoMemory};
use sail_syntax::Program;
use std::alloc::Global;
use type_globals::globals;
use type_names::{FaultRef, WhyRef};
use type_rules::TypeFault;

/// A fault as it is told, with a name and types of its own.
fn as_told(alloc: Global, fault: FaultRef<'_>) -> Result<TypeFault, NoMemory>
    ensures { IfOk result (λ told. told ≡ as_told fault.entry.at (why_of fault.entry.why)) }
{
    let at = fault.at;
    match fault.why {
        WhyRef::Unknown(name) => Ok(TypeFault::Unknown {
            name: Name::of(alloc, name)?,
            at,
        }),
        WhyRef::Twice(name) => Ok(TypeFault::Twice {
            name: Name::of(alloc, name)?,
            at,
        }),
        WhyRef::Differs { want, got } => Ok(TypeFault::TypeDiffers {
            want: want.owned(alloc)?,
            got: got.owned(alloc)?,
            at,
        }),
        WhyRef::Later(name) => Ok(TypeFault::Later {
            name: Name::of(alloc, name)?,
            at,
        }),
        WhyRef::TooHigh(name) => Ok(TypeFault::CallHeight {
            name: Name::of(alloc, name)?,
            at,
        }),
    }
}

/// The fault of a program that is told, or none where it is typed: of all faults that can be said, each as if the others weren't there, the first by its
/// place and then by its number; of a program without one, that `instr`, PC or a fitting `instr16` is missing.
#[tactic(auto, using(crate::proofs::Told::told))]
pub fn type_fault(alloc: Global, program: &Program) -> Result<Option<TypeFault>, NoMemory>
    ensures exact { IfOk result (λ o. o ≡ type_fault (program_of program.now)) }
{
    let mut best = None;
    let globals = globals(alloc, program, &mut best)?;
    judge_definitions(alloc, &globals, program.defs.as_slice(), &mut best)?;
    match best {
        Some(fault) => Ok(Some(as_told(alloc, fault)?)),
        None => entry_fault(alloc, program),
    }
}
