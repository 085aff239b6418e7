//! The one state that the entry and the code of a specification over constants give.

ghost use Rattle.std.specs.Prelude.{◌≡◌, ◌<◌, ◌^◌, ◌+◌, length, map, All, IfOk, OnOk};
ghost use Rattle.sail_syntax.specs.View.{program_of};
ghost use Rattle.state_core.specs.State.{widths_of};
ghost use Rattle.machine_run.specs.Program.{machine_of, widths_in};
ghost use Rattle.constants_walk.specs.Conditions.{constants_of};
ghost use Rattle.constants_walk.specs.RegisterPlaces.{ArePlaced, pair_of};
ghost use Rattle.constants_walk.specs.Entry as spec;

use crate::conditions::ConstantsData;
use crate::register_places::PlacedValue;
use bv_bits::Bits;
use lex_core::NoMemory;
use machine_run::zeros;
use sail_typed::Typed;
use state_core::State;
use std::alloc::Global;

/// Gives registers their values, one after the other.
fn set_values(state: &mut State, values: &[PlacedValue])
    requires fit { All (spec.Fits (widths_of state.old)) (map pair_of values.now) }
    ensures value { state.new ≡ record state.old { registers = spec.with_values (map pair_of values.now) state.old.registers } }
    ensures widths { widths_of state.new ≡ widths_of state.old }
{
    for value in values {
        state.set_reg(value.register, value.value);
    }
}

/// Puts bytes from an address on.
fn add_bytes(state: &mut State, at: u64, bytes: &[u8]) -> Result<(), NoMemory>
    requires room { at + length bytes.now < 2 ^ 64 }
    ensures value { OnOk result (state.new ≡ record state.old { memory = spec.with_bytes at bytes.now state.old.memory }) }
{
    let mut next = at;
    for byte in bytes {
        state.add_byte(next, *byte)?;
        next += 1;
    }
    Ok(())
}

/// The state with the entry's registers, all others zero, the PC at the entry, and the bytes of the code alone. `code` has the
/// bytes from `given.lo` up to below `given.hi`. `NoMemory` comes for want of memory alone.
pub fn entry_state(
    alloc: Global,
    typed: &Typed,
    given: &ConstantsData,
    code: &[u8],
) -> Result<State, NoMemory>
    requires size { given.now.lo + length code.now ≡ given.now.hi }
    requires entry { ArePlaced (widths_in (program_of typed.now)) (machine_of (program_of typed.now)).pc (map pair_of given.now.entry) }
    ensures value { IfOk result (λ s. s ≡ spec.entry_state (machine_of (program_of typed.now)) (constants_of given.now code.now)) }
    ensures widths { IfOk result (λ s. widths_of s ≡ widths_in (program_of typed.now)) }
{
    let mut state = zeros(alloc, typed)?;
    set_values(&mut state, given.entry.as_slice());
    let value = u128::from(given.entry_at);
    state.set_reg(typed.pc(), Bits { width: 64, value });
    prove!(given.lo <= given.hi);
    add_bytes(&mut state, given.lo, code)?;
    Ok(state)
}
