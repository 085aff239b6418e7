//! The names of a program.

ghost use Rattle.std.specs.Prelude.{◌≡◌, IfOk, OnOk};
ghost use Rattle.sail_syntax.specs.View.{program_of};
ghost use Rattle.type_rules.specs.Faults.{first_from};
ghost use Rattle.type_rules.specs.Names.{declared_from, globals_of, prelude};
ghost use Rattle.type_rules.specs.Program.{names_faults};
ghost use Rattle.type_names.specs.Borrowed.{maybe_fault};

use crate::accesses::accesses;
use crate::define::define;
use crate::operators::operators;
use lex_core::NoMemory;
use sail_syntax::Program;
use std::alloc::Global;
use type_names::{FaultRef, Globals};

/// The prelude.
fn prelude(alloc: Global) -> Result<Globals, NoMemory>
    ensures names { IfOk result (λ names. names ≡ prelude) }
{
    let mut names = Globals::new(alloc);
    operators(alloc, &mut names)?;
    accesses(alloc, &mut names)?;
    Ok(names)
}

/// The names of the prelude and of a program, in the order of the text. Where one is taken by those in front of it, that is said at
/// the definition that declares it: the first fault so far stays, or this one comes before it.
#[tactic(auto, using(crate::proofs::DeclaredLemmas::names_next, crate::proofs::DeclaredLemmas::fault_next))]
pub fn globals<'a>(
    alloc: Global,
    program: &'a Program,
    best: &mut Option<FaultRef<'a>>,
) -> Result<Globals, NoMemory>
    ensures names { IfOk result (λ names. names ≡ globals_of (program_of program.now)) }
    ensures first { OnOk result (maybe_fault best.new
        ≡ first_from (maybe_fault best.old) (names_faults prelude (declared_from (program_of program.now) 0))) }
{
    let mut names = prelude(alloc)?;
    for (place, def) in program.defs.as_slice().iter().enumerate() {
        define(alloc, &mut names, def, place, best)?;
    }
    Ok(names)
}
