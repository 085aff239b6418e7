//! The walk through the code: one instruction after the other while the PC lies in the code.

ghost use Rattle.std.specs.Prelude.{◌≡◌, ◌≤◌, ◌<◌, ◌+◌, ◌-◌, [], true, nat_le, length, drop, IfOk};
ghost use Rattle.std.specs.List.{list_any};
ghost use Rattle.sail_syntax.specs.View.{program_of};
ghost use Rattle.state_core.specs.Claims.{HasBytes};
ghost use Rattle.state_core.specs.State.{widths_of};
ghost use Rattle.state_core.specs.World as worlds;
ghost use Rattle.eval_words.specs.Agrees.{Ends};
ghost use Rattle.eval_words.specs.Instr.{Ended};
ghost use Rattle.machine_run.specs.Machine as machine;
ghost use Rattle.machine_run.specs.Program.{machine_of, widths_in};
ghost use Rattle.machine_run.specs.Program as program;
ghost use Rattle.machine_run.specs.Words.{is_long};
ghost use Rattle.machine_safe.specs.First.{end_of, is_inside, byte_of, is_no_fetch, is_data, walk_from};
ghost use Rattle.machine_safe.specs.First as first;
ghost use Rattle.constants_walk.specs.Conditions.{constants_of};
ghost use Rattle.constants_walk.specs.Walk.{IsStepped, IsWalked};

use crate::conditions::ConstantsData;
use crate::failure::{Failure, failure_by};
use eval_parts::World;
use lex_core::NoMemory;
use machine_run::{pc_value, step};
use sail_names::Thing;
use sail_typed::Typed;
use sail_values::Outcome;
use sqlite_items::Items;
use state_core::{AccessKind, DevMap};
use std::alloc::Global;

/// How a walk through the code ends.
#[derive(Clone, Copy)]
pub enum Walk {
    /// The PC has left the code, after so many instructions, of which the last one was at this address.
    Left { count: u32, last: u64 },
    /// The bytes of the word at the PC don't lie in the code.
    Outside { pc: u64 },
    /// The instruction at the PC accesses memory or a device.
    Touches { pc: u64 },
    /// The instruction at the PC fails.
    Fails { failure: Failure, pc: u64 },
    /// One instruction too many stands at the PC.
    TooMany { pc: u64 },
}

/// What one instruction comes to.
#[derive(Clone, Copy)]
enum Stepped {
    /// It is whole, and accesses neither memory nor a device.
    Whole,
    /// It accesses memory or a device.
    Touched,
    /// It fails, and accesses neither memory nor a device.
    Failed { failure: Failure },
    /// A fault of memory or of a device, or want of an answer, cuts it short, and it accesses neither.
    Halted,
}

/// Whether the text has words of two bytes.
fn has_short(typed: &Typed) -> bool
    ensures { result ≡ program.has_short (program_of typed.now) }
{
    match typed.thing(b"instr16") {
        Some(Thing::Function(_)) => true,
        Some(Thing::Register(_) | Thing::Member { .. } | Thing::Given(_)) | None => false,
    }
}

/// Whether the address lies in the code.
fn is_in(given: &ConstantsData, code: &[u8], pc: u64) -> bool
    requires size { given.now.lo + length code.now ≡ given.now.hi }
    ensures { result ≡ is_inside (constants_of given.now code.now) pc }
{
    given.lo <= pc && pc < given.hi
}

/// How many bytes the word at an address of the code has.
fn size_at(short: bool, given: &ConstantsData, code: &[u8], pc: u64) -> u32
    requires inside { is_inside (constants_of given.now code.now) pc ≡ true }
    ensures value { result ≡ first.size_by short (is_long (byte_of (constants_of given.now code.now) pc)) }
    ensures few { result ≤ 4 }
{
    let first = code[(pc - given.lo) as usize];
    if short && first % 4 != 3 { 2 } else { 4 }
}

/// Whether the bytes of the word at an address of the code end in the code.
fn has_word(short: bool, given: &ConstantsData, code: &[u8], pc: u64) -> bool
    requires size { given.now.lo + length code.now ≡ given.now.hi }
    requires inside { is_inside (constants_of given.now code.now) pc ≡ true }
    ensures { result ≡ nat_le (pc + first.size_by short (is_long (byte_of (constants_of given.now code.now) pc))) (end_of (constants_of given.now code.now)) }
{
    let size = size_at(short, given, code, pc);
    u128::from(pc) + u128::from(size) <= u128::from(given.hi)
}

/// How many accesses were noted so far.
fn noted(world: &World) -> usize
    ensures { result ≡ length world.now.accesses }
{
    world.log().accesses.as_slice().len()
}

/// Whether an access of this kind reads or writes memory or a device.
fn is_no_fetch(kind: AccessKind) -> bool
    ensures { result ≡ is_no_fetch kind }
{
    match kind {
        AccessKind::Fetch => false,
        AccessKind::Read | AccessKind::Write => true,
    }
}

/// Whether memory or a device was accessed behind the first accesses, so many of them.
fn has_touched(world: &World, before: usize) -> bool
    ensures { result ≡ list_any is_data (drop before world.now.accesses) }
{
    let accesses = world.log().accesses.as_slice();
    accesses
        .iter()
        .skip(before)
        .any(|access| is_no_fetch(access.kind))
}

/// What an instruction comes to that touches memory or a device or doesn't, and ends like this. `NoMemory` comes for want
/// of memory alone.
fn comes_to(touched: bool, outcome: Outcome) -> Result<Stepped, NoMemory>
    ensures { (w x : worlds.World) (s : Ended × worlds.World) → touched ≡ first.has_touched w x → Ends outcome x s
        → IfOk result (λ k. IsStepped k w s x) }
{
    match outcome {
        Outcome::NoMemory => Err(NoMemory),
        Outcome::Value(_) if !touched => Ok(Stepped::Whole),
        Outcome::Fault { kind, .. } if !touched => match failure_by(kind) {
            Some(failure) => Ok(Stepped::Failed { failure }),
            None => Ok(Stepped::Halted),
        },
        Outcome::NoAnswer if !touched => Ok(Stepped::Halted),
        _ => Ok(Stepped::Touched),
    }
}

/// One instruction, where no device is. `NoMemory` comes for want of memory alone.
fn step_on(
    alloc: Global,
    typed: &Typed,
    devs: &DevMap,
    world: &mut World,
) -> Result<Stepped, NoMemory>
    requires widths { widths_of world.old.state ≡ widths_in (program_of typed.now) }
    requires none { devs.now.ranges ≡ [] }
    ensures value { IfOk result (λ k. IsStepped k world.old (machine.step (machine_of (program_of typed.now)) [] world.old) world.new) }
    ensures widths { widths_of world.new.state ≡ widths_of world.old.state }
{
    let before = noted(world);
    let outcome = step(alloc, typed, devs, world);
    comes_to(has_touched(world, before), outcome)
}

/// Walks through the code from its entry: steps while the PC lies in the code, at most so many. `code` has the bytes from
/// `given.lo` up to below `given.hi`. The world has the text's registers, and the code's bytes in its memory: so nothing but a failure
/// of the text ends an instruction early that accesses nothing. `NoMemory` comes for want of memory alone.
pub fn walk_on(
    alloc: Global,
    typed: &Typed,
    given: &ConstantsData,
    code: &[u8],
    most: u32,
    world: &mut World,
) -> Result<Walk, NoMemory>
    requires widths { widths_of world.old.state ≡ widths_in (program_of typed.now) }
    requires size { given.now.lo + length code.now ≡ given.now.hi }
    requires there { HasBytes world.old.state.memory given.now.lo code.now }
    ensures walked { IfOk result (λ walk. IsWalked walk world.new
        (walk_from (machine_of (program_of typed.now)) (constants_of given.now code.now) 0 given.now.entry_at most world.old)) }
    ensures widths { widths_of world.new.state ≡ widths_of world.old.state }
{
    let devs = DevMap {
        ranges: Items::new(alloc),
    };
    let short = has_short(typed);
    let mut count = 0;
    let mut last = given.entry_at;
    loop {
        let pc = pc_value(typed, world);
        if !is_in(given, code, pc) {
            return Ok(Walk::Left { count, last });
        }
        if !has_word(short, given, code, pc) {
            return Ok(Walk::Outside { pc });
        }
        if count == most {
            return Ok(Walk::TooMany { pc });
        }
        match step_on(alloc, typed, &devs, world)? {
            Stepped::Whole => {}
            Stepped::Touched => return Ok(Walk::Touches { pc }),
            Stepped::Failed { failure } => return Ok(Walk::Fails { failure, pc }),
            Stepped::Halted => unreachable!(),
        }
        last = pc;
        count += 1;
    }
}
