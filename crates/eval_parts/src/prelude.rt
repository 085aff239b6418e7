//! The functions of the prelude.

ghost use Rattle.std.specs.Prelude.{◌≡◌, ◌≤◌, List};
ghost use Rattle.eval_rules.specs.Prelude as spec;
ghost use Rattle.eval_rules.specs.Moments.{read_moments, vector_moments, write_moments, given_moments};
ghost use Rattle.eval_parts.specs.Worlds.{Agrees, LeavesPassed};
ghost use Rattle.sail_values.specs.Values as values;
ghost use Rattle.sail_values.specs.declared.value.Slot.{Slot};
ghost use Rattle.state_core.specs.State.{widths_of};

use crate::world::World;
use bv_bits::{Bits, Op};
use sail_names::Given;
use sail_values::{Stop, Value, is_true, is_vector, nth, operate};
use state_core::DevMap;

/// The truth of a value: a vector with the number 1.
fn is_one(value: Value) -> bool
    ensures { result ≡ spec.is_one value }
{
    match value {
        Value::Bits(bits) => bits.value == 1,
        Value::Unit | Value::Truth(_) | Value::Member { .. } => false,
    }
}

/// Whether two values compare.
fn compared(op: Op, a: Value, b: Value) -> Value
    ensures { result ≡ spec.compared op a b }
{
    Value::Truth(is_one(operate(op, a, b)))
}

/// Whether a vector is an address.
fn is_address(bits: Bits) -> bool
    ensures { result ≡ spec.is_address bits }
{
    is_vector(bits) && bits.width == 64
}

/// Whether a vector is what so many bytes, at most 16, hold.
fn is_of_bytes(bytes: u32, bits: Bits) -> bool
    requires { bytes ≤ 16 }
    ensures { result ≡ spec.is_of_bytes bytes bits }
{
    is_vector(bits) && bits.width == 8 * bytes
}

/// A read of so many bytes at an address, at a place of the text.
fn read_bytes(
    devs: &DevMap,
    bytes: u32,
    at: usize,
    address: Value,
    world: &mut World,
) -> Result<Value, Stop>
    ensures value { (locals : List Slot) → Agrees result locals world.new (spec.read_bytes devs.now.ranges bytes at address locals world.old) }
    ensures passed { LeavesPassed result world.new world.old (read_moments devs.now.ranges bytes address world.old) }
    ensures widths { widths_of world.new.state ≡ widths_of world.old.state }
{
    let Value::Bits(address) = address else {
        return Ok(Value::Unit);
    };
    if bytes > 16 || !is_address(address) {
        return Ok(Value::Unit);
    }
    let value = world.load(devs, address.value as u64, bytes, at)?;
    let width = 8 * bytes;
    Ok(Value::Bits(Bits { width, value }))
}

/// A write of a vector that so many bytes hold.
fn write_vector(
    devs: &DevMap,
    bytes: u32,
    at: usize,
    address: Bits,
    value: Value,
    world: &mut World,
) -> Result<Value, Stop>
    ensures value { (locals : List Slot) → Agrees result locals world.new (spec.write_vector devs.now.ranges bytes at address value locals world.old) }
    ensures passed { LeavesPassed result world.new world.old (vector_moments devs.now.ranges bytes address value world.old) }
    ensures widths { widths_of world.new.state ≡ widths_of world.old.state }
{
    let Value::Bits(value) = value else {
        return Ok(Value::Unit);
    };
    if bytes > 16 || !is_address(address) || !is_of_bytes(bytes, value) {
        return Ok(Value::Unit);
    }
    world.store(devs, address.value as u64, bytes, value.value, at)?;
    Ok(Value::Unit)
}

/// A write of so many bytes at an address, at a place of the text.
fn write_bytes(
    devs: &DevMap,
    bytes: u32,
    at: usize,
    address: Value,
    value: Value,
    world: &mut World,
) -> Result<Value, Stop>
    ensures value { (locals : List Slot) → Agrees result locals world.new (spec.write_bytes devs.now.ranges bytes at address value locals world.old) }
    ensures passed { LeavesPassed result world.new world.old (write_moments devs.now.ranges bytes address value world.old) }
    ensures widths { widths_of world.new.state ≡ widths_of world.old.state }
{
    match address {
        Value::Bits(address) => write_vector(devs, bytes, at, address, value, world),
        Value::Unit | Value::Truth(_) | Value::Member { .. } => Ok(Value::Unit),
    }
}

/// A call of a function of the prelude on two values, at a place of the text.
fn given_on(
    devs: &DevMap,
    given: Given,
    at: usize,
    a: Value,
    b: Value,
    world: &mut World,
) -> Result<Value, Stop>
    ensures value { (locals : List Slot) → Agrees result locals world.new (spec.given_on devs.now.ranges given at a b locals world.old) }
    ensures passed { LeavesPassed result world.new world.old (given_moments devs.now.ranges given a b world.old) }
    ensures widths { widths_of world.new.state ≡ widths_of world.old.state }
{
    match given {
        Given::Not => Ok(Value::Truth(!is_true(a))),
        Given::LtU => Ok(compared(Op::ULt, a, b)),
        Given::LtS => Ok(compared(Op::SLt, a, b)),
        Given::ShiftLeft => Ok(operate(Op::Shl, a, b)),
        Given::ShiftRight => Ok(operate(Op::LShr, a, b)),
        Given::ShiftRightArith => Ok(operate(Op::AShr, a, b)),
        Given::DivU => Ok(operate(Op::UDiv, a, b)),
        Given::RemU => Ok(operate(Op::URem, a, b)),
        Given::DivS => Ok(operate(Op::SDiv, a, b)),
        Given::RemS => Ok(operate(Op::SRem, a, b)),
        Given::Read { bytes } => read_bytes(devs, bytes, at, a, world),
        Given::Write { bytes } => write_bytes(devs, bytes, at, a, b, world),
    }
}

/// A call of a function of the prelude, at a place of the text: a function of one value looks at the first alone.
pub fn given_call(
    devs: &DevMap,
    given: Given,
    at: usize,
    args: &[Value],
    world: &mut World,
) -> Result<Value, Stop>
    ensures value { (locals : List Slot) → Agrees result locals world.new (spec.given_call devs.now.ranges given at args.now locals world.old) }
    ensures passed { LeavesPassed result world.new world.old (given_moments devs.now.ranges given (values.nth 0 args.now) (values.nth 1 args.now) world.old) }
    ensures widths { widths_of world.new.state ≡ widths_of world.old.state }
{
    given_on(devs, given, at, nth(0, args), nth(1, args), world)
}
