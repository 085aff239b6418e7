//! Puts the registers' numbers in the place of their names.

ghost use Rattle.std.specs.Prelude.{◌≡◌, ◌<◌, length, map, IfOk, IfSome};
ghost use Rattle.std.specs.List.{list_any, position_from};
ghost use Rattle.std.specs.Option.{option_map};
ghost use Rattle.proof_form.specs.ProofForm.{AreBits};
ghost use Rattle.machine_run.specs.Program.{width_in};
ghost use Rattle.constants_walk.specs.RegisterPlaces as spec;
ghost use Rattle.constants_walk.specs.RegisterPlaces.{ArePlaced, pair_of};

use bv_bits::Bits;
use lex_core::{NoMemory, RegDecl};
use proof_form::NamedValue;
use sqlite_items::Items;
use std::alloc::Global;

/// A register and its value, by the register's number in the order of the declarations, from 0.
#[derive(Clone, Copy)]
pub struct PlacedValue {
    pub register: usize,
    pub value: Bits,
}

/// The number of the first register of this name.
fn register_number(registers: &[RegDecl], name: &[u8]) -> Option<usize>
    ensures value { result ≡ position_from (spec.is_named name.now) 0 registers.now }
    ensures within { IfSome result (λ number. number < length registers.now) }
{
    for (number, register) in registers.iter().enumerate() {
        if register.name.is(name) {
            return Some(number);
        }
    }
    None
}

/// A value with its register's number; none if its name is no register's, or that of register `pc`, or if its width is
/// another than the register's.
#[tactic(auto, unfolding(crate::specs::RegisterPlaces::place))]
fn place(registers: &[RegDecl], pc: usize, given: &NamedValue) -> Option<PlacedValue>
    ensures { result ≡ spec.place registers.now pc given.now }
{
    match register_number(registers, given.register.bytes()) {
        Some(register) if register != pc && registers[register].width == given.value.width => {
            let value = given.value;
            Some(PlacedValue { register, value })
        }
        _ => None,
    }
}

/// Whether one of the values is that of this register.
pub fn has(values: &[PlacedValue], register: usize) -> bool
    ensures { result ≡ spec.has values.now register }
{
    values.iter().any(|value| value.register == register)
}

/// The values with their registers' numbers, in their order. None if a name is no register's or that of register `pc`,
/// if a register comes twice, or if a value's width is another than its register's. A name that several registers
/// have is that of the first of them. `NoMemory` comes for want of memory alone.
#[tactic(auto, unfolding(crate::specs::RegisterPlaces::places))]
pub fn place_registers(
    alloc: Global,
    registers: &[RegDecl],
    pc: usize,
    given: &[NamedValue],
) -> Result<Option<Items<PlacedValue>>, NoMemory>
    ensures exact { IfOk result (λ r. r ≡ spec.places registers.now pc given.now) }
    ensures placed { AreBits given.now → IfOk result (λ r. IfSome r (λ values. ArePlaced (map width_in registers.now) pc (map pair_of values))) }
{
    let mut values = Items::new(alloc);
    for named in given {
        match place(registers, pc, named) {
            Some(value) => {
                if has(values.as_slice(), value.register) {
                    return Ok(None);
                }
                values.push(value)?;
            }
            None => return Ok(None),
        }
    }
    Ok(Some(values))
}
