//! The run of a specification over constants from the one state that its entry and its code give.

ghost use Rattle.std.specs.Prelude.{◌≡◌, ◌<◌, ◌+◌, [], length, map, All, IfOk, Some};
ghost use Rattle.sail_syntax.specs.View.{program_of};
ghost use Rattle.state_core.specs.State.{widths_of};
ghost use Rattle.state_core.specs.World as worlds;
ghost use Rattle.machine_run.specs.Program.{machine_of, widths_in};
ghost use Rattle.machine_safe.specs.First.{Constants};
ghost use Rattle.machine_safe.specs.First as first;
ghost use Rattle.constants_walk.specs.Conditions.{constants_of};
ghost use Rattle.constants_walk.specs.RegisterPlaces.{ArePlaced, pair_of};
ghost use Rattle.constants_walk.specs.RunForm as spec;
ghost use Rattle.constants_walk.specs.RunForm.{run_end_of, most_instructions};
ghost use Rattle.constants_walk.specs.Walk.{IsWalked};

use crate::conditions::ConstantsData;
use crate::entry::entry_state;
use crate::failure::Failure;
use crate::register_places::PlacedValue;
use crate::walk::{Walk, walk_on};
use bv_bits::Bits;
use eval_parts::World;
use lex_core::NoMemory;
use machine_run::pc_value;
use sail_typed::Typed;
use sqlite_items::Items;
use state_core::{Answers, Log, State};
use std::alloc::Global;

/// How many instructions a run may make.
const MOST_INSTRUCTIONS: u32 = 4096;

/// How the run of a specification over constants ends.
#[derive(Clone, Copy)]
pub enum RunEnd {
    /// It leaves the code at the exit with the exit's values, after so many instructions.
    Accepted { count: u32 },
    /// It leaves the code elsewhere or with other values; the last instruction was at this address.
    Wrong { at: u64 },
    /// The bytes of the word at the PC don't lie in the code.
    Outside { pc: u64 },
    /// The instruction at the PC accesses memory or a device.
    Touches { pc: u64 },
    /// The instruction at the PC fails.
    Fails { why: Failure, pc: u64 },
    /// One instruction too many stands at the PC.
    TooMany { pc: u64 },
}

/// The world of a state, in which nothing was done yet, without answers of devices.
fn start(alloc: Global, state: State) -> World
    ensures { result ≡ worlds.start state [] }
{
    let answers = Answers {
        list: Items::new(alloc),
        next: 0,
    };
    let log = Log {
        accesses: Items::new(alloc),
        events: Items::new(alloc),
    };
    World::new(state, answers, log)
}

/// Whether two values are the same.
fn has_bits(one: Bits, other: Bits) -> bool
    ensures { result ≡ spec.has_bits one other }
{
    one.width == other.width && one.value == other.value
}

/// Whether the registers have these values.
fn has_values(state: &State, values: &[PlacedValue]) -> bool
    requires there { All (λ v. v.register < length state.now.registers) values.now }
    ensures value { result ≡ spec.has_values state.now (map pair_of values.now) }
{
    for value in values {
        if !has_bits(state.get_reg(value.register), value.value) {
            return false;
        }
    }
    true
}

/// What it comes to that the PC has left the code: the exit with its values, or not.
fn left_end(typed: &Typed, given: &ConstantsData, world: &World, count: u32, last: u64) -> RunEnd
    requires widths { widths_of world.now.state ≡ widths_in (program_of typed.now) }
    requires exit { ArePlaced (widths_in (program_of typed.now)) (machine_of (program_of typed.now)).pc (map pair_of given.now.exit) }
    ensures { (c : Constants) → c.exit_at ≡ given.now.exit_at → c.exit ≡ map pair_of given.now.exit
        → result ≡ spec.left_end (machine_of (program_of typed.now)) c world.now.state count last }
{
    let there = pc_value(typed, world) == given.exit_at;
    if there && has_values(world.state(), given.exit.as_slice()) {
        RunEnd::Accepted { count }
    } else {
        RunEnd::Wrong { at: last }
    }
}

/// What the end of the walk means.
fn end_of_walk(typed: &Typed, given: &ConstantsData, world: &World, walk: Walk) -> RunEnd
    requires widths { widths_of world.now.state ≡ widths_in (program_of typed.now) }
    requires exit { ArePlaced (widths_in (program_of typed.now)) (machine_of (program_of typed.now)).pc (map pair_of given.now.exit) }
    ensures { (c : Constants) (r : first.Walked × worlds.World) → c.exit_at ≡ given.now.exit_at → c.exit ≡ map pair_of given.now.exit
        → IsWalked walk world.now r → spec.ended_at (machine_of (program_of typed.now)) c r.0 r.1 ≡ Some result }
{
    match walk {
        Walk::Left { count, last } => left_end(typed, given, world, count, last),
        Walk::Outside { pc } => RunEnd::Outside { pc },
        Walk::Touches { pc } => RunEnd::Touches { pc },
        Walk::Fails { failure, pc } => RunEnd::Fails { why: failure, pc },
        Walk::TooMany { pc } => RunEnd::TooMany { pc },
    }
}

/// Runs a specification over constants from the one state that its entry and its code give, at most 4,096 instructions.
/// `code` has the bytes from `given.lo` up to below `given.hi`. `NoMemory` comes for want of memory alone.
pub fn run_constants(
    alloc: Global,
    typed: &Typed,
    given: &ConstantsData,
    code: &[u8],
) -> Result<RunEnd, NoMemory>
    requires size { given.now.lo + length code.now ≡ given.now.hi }
    requires entry { ArePlaced (widths_in (program_of typed.now)) (machine_of (program_of typed.now)).pc (map pair_of given.now.entry) }
    requires exit { ArePlaced (widths_in (program_of typed.now)) (machine_of (program_of typed.now)).pc (map pair_of given.now.exit) }
    ensures { IfOk result (λ end. run_end_of (machine_of (program_of typed.now)) (constants_of given.now code.now) ≡ Some end) }
{
    let state = entry_state(alloc, typed, given, code)?;
    let mut world = start(alloc, state);
    let walk = walk_on(alloc, typed, given, code, MOST_INSTRUCTIONS, &mut world)?;
    Ok(end_of_walk(typed, given, &world, walk))
}
