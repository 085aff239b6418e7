//! Registers of a new state.

use bv_bits::Bits;
use case_lines::number_64;
use state_core::State;
use std::alloc::{AllocError, Global};

/// What the registers hold, each with its width.
fn all(alloc: Global, state: &State) -> Result<String, AllocError> {
    let mut told = format!(in alloc; " = {} registers", state.count())?;
    for reg in 0..state.count() {
        let bits = state.get_reg(reg);
        let one = format!(in alloc; " {:#x}:{}", bits.value, bits.width)?;
        told.push_str(one.as_str())?;
    }
    Ok(told)
}

/// The state's registers, behind what was told before.
fn after(alloc: Global, mut told: String, state: &State) -> Result<String, AllocError> {
    let behind = all(alloc, state)?;
    told.push_str(behind.as_str())?;
    Ok(told)
}

/// What registers of 64, 1 and 128 bits hold at first, and when the first one has the number.
pub fn told(alloc: Global, number: &str) -> Result<String, AllocError> {
    let Ok(mut state) = State::new(alloc, &[64, 1, 128]) else {
        return Err(AllocError);
    };
    let told = all(alloc, &state)?;
    let value = u128::from(number_64(number).unwrap_or(0));
    state.set_reg(0, Bits { width: 64, value });
    after(alloc, told, &state)
}
