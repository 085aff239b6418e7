//! The state in which all registers are zero.

ghost use Rattle.std.specs.Prelude.{◌≡◌, All, IfOk, map};
ghost use Rattle.bv_bits.specs.Bits.{IsWidth};
ghost use Rattle.sail_syntax.specs.View.{program_of};
ghost use Rattle.state_core.specs.State.{widths_of, zero_of};
ghost use Rattle.std.specs.FinMap.{empty};
ghost use Rattle.machine_run.specs.Program.{width_in, widths_in};

use lex_core::{NoMemory, RegDecl};
use sail_typed::Typed;
use sqlite_items::Items;
use state_core::State;
use std::alloc::Global;

/// The widths of the registers, in bits, in their order.
fn widths(alloc: Global, registers: &[RegDecl]) -> Result<Items<u32>, NoMemory>
    ensures { IfOk result (λ widths. widths ≡ map width_in registers.now) }
{
    let mut widths = Items::new(alloc);
    for register in registers {
        widths.push(register.width)?;
    }
    Ok(widths)
}

/// The state in which all registers of a program are zero, and no byte is there.
#[tactic(auto, using(crate::proofs::Widths::typed_widths, crate::proofs::Widths::zero_widths))]
pub fn zeros(alloc: Global, typed: &Typed) -> Result<State, NoMemory>
    ensures value { IfOk result (λ s. s ≡ record { registers = map zero_of (widths_in (program_of typed.now)); memory = empty }) }
    ensures widths { IfOk result (λ s. widths_of s ≡ widths_in (program_of typed.now)) }
{
    let _program = typed.program();
    let widths = widths(alloc, typed.registers())?;
    State::new(alloc, widths.as_slice())
}
