//! What a program has to have to be run.

ghost use Rattle.std.specs.Prelude.{◌≡◌, IfOk, codes, is_some};
ghost use Rattle.std.specs.Option.{option_copied};
ghost use Rattle.std.specs.List.{position};
ghost use Rattle.sail_syntax.specs.Program.{function_of};
ghost use Rattle.sail_syntax.specs.View.{program_of};
ghost use Rattle.type_rules.specs.Program.{takes_word, has_word, may_have_word, is_pc, pc_number, entry_fault, instr_of, instr16_of, begins_at};
ghost use Rattle.type_programs.specs.Entries.{word_fault};

use lex_core::{NoMemory, RegDecl};
use sail_syntax::{Def, Param, Program, Ty, registers};
use std::alloc::Global;
use type_rules::TypeFault;

/// Whether there is one parameter, of so many bits.
fn takes_word(width: u32, params: &[Param]) -> bool
    ensures { result ≡ takes_word width params.now }
{
    match params {
        [param] => param.ty.is(&Ty::Bits(width)),
        _ => false,
    }
}

/// What is wrong with the function of this name: that it isn't there, or where it begins, if it doesn't take a word of so many bits or doesn't give unit.
fn word_fault(program: &Program, name: &[u8], width: u32) -> Option<Option<usize>>
    ensures { result ≡ word_fault width (function_of (program_of program.now) name.now) }
{
    match program.function(name) {
        Some(
            Def::Function {
                params,
                result,
                at,
                ..
            },
        ) => {
            if takes_word(width, params.as_slice()) && result.is(&Ty::Unit) {
                None
            } else {
                Some(Some(*at))
            }
        }
        _ => Some(None),
    }
}

/// The number of the first register PC of 64 bits.
fn pc_number(registers: &[RegDecl]) -> Option<usize>
    ensures { result ≡ position is_pc registers.now }
{
    registers
        .iter()
        .position(|register| register.name.is(b"PC") && register.width == 64)
}

/// What is missing of a program without other faults: `instr`, then PC, then a type of `instr16` that fits.
pub fn entry_fault(alloc: Global, program: &Program) -> Result<Option<TypeFault>, NoMemory>
    ensures { IfOk result (λ o. o ≡ entry_fault (program_of program.now)) }
{
    if word_fault(program, b"instr", 32).is_some() {
        return Ok(Some(TypeFault::NoInstr));
    }
    let registers = registers(alloc, program)?;
    if pc_number(registers.as_slice()).is_none() {
        return Ok(Some(TypeFault::NoPc));
    }
    match word_fault(program, b"instr16", 16) {
        Some(Some(at)) => Ok(Some(TypeFault::BadInstr16 { at })),
        _ => Ok(None),
    }
}
