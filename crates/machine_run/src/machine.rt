//! Steps and runs.

ghost use Rattle.std.specs.Prelude.{◌≡◌, ◌==◌};
ghost use Rattle.std.specs.List.{position};
ghost use Rattle.state_core.specs.State.{widths_of};
ghost use Rattle.eval_words.specs.Agrees.{Ends, EndsPassed};
ghost use Rattle.sail_syntax.specs.View.{program_of};
ghost use Rattle.machine_run.specs.Answers.{IsRan};
ghost use Rattle.machine_run.specs.Machine as spec;
ghost use Rattle.machine_run.specs.Passed.{step_moments, IfNoMemory, IsLeft};
ghost use Rattle.machine_run.specs.Program.{machine_of, widths_in, has_short, instr_place};

use crate::fetching::fetch_word;
use eval_parts::World;
use eval_words::{execute, outcome_of};
use sail_names::Thing;
use sail_syntax::Def;
use sail_typed::Typed;
use sail_values::Outcome;
use state_core::{DevMap, FaultKind};
use std::alloc::Global;

/// Why a run stops.
#[derive(Clone, Copy, Debug, PartialEq, Eq)]
pub enum Stop {
    /// All steps were made.
    Count,
    /// After a whole step the PC is the address of this exit, counted from 0.
    Exit { index: usize },
    /// A step has a fault, which comes from this place of the Sail text.
    Fault { kind: FaultKind, at: usize },
    /// A step reads a device, and no answer is left.
    NoAnswer,
    /// Want of memory.
    NoMemory,
}

/// How a run ended.
#[derive(Clone, Copy, Debug, PartialEq, Eq)]
pub struct Ran {
    /// The number of whole steps.
    pub done: u32,
    /// Why it stopped.
    pub stop: Stop,
}

/// The address of the next instruction. The world has the text's registers.
#[tactic(auto, using(crate::proofs::Pc::pc_declared, crate::proofs::Pc::pc_fits))]
pub fn pc_value(typed: &Typed, world: &World) -> u64
    requires { widths_of world.now.state ≡ widths_in (program_of typed.now) }
    ensures { result ≡ spec.pc_of (machine_of (program_of typed.now)) world.now.state }
{
    world.get(typed.pc()).value as u64
}

/// Whether the text has words of two bytes.
fn has_short(typed: &Typed) -> bool
    ensures { result ≡ has_short (program_of typed.now) }
{
    match typed.thing(b"instr16") {
        Some(Thing::Function(_)) => true,
        Some(Thing::Register(_) | Thing::Member { .. } | Thing::Given(_)) | None => false,
    }
}

/// Where `instr` is defined, in bytes of the text.
fn instr_place(typed: &Typed) -> usize
    ensures { result ≡ instr_place (program_of typed.now) }
{
    match typed.program().function(b"instr") {
        Some(Def::Function { at, .. }) => *at,
        _ => 0,
    }
}

/// One step: fetches the word at the PC and calls `instr` on it, or `instr16` on one of two bytes.
///
/// A fetch that passes the last address is the fault `NoByte`, else one that touches a device range is `BadDevice`, else one with
/// a byte that isn't there is `NoByte`, each at the place of the definition of `instr`. After a fault, and where an answer
/// is missing, the world is the one that was reached; after want of memory it is one that the step passes. The world has the text's registers.
pub fn step(alloc: Global, typed: &Typed, devs: &DevMap, world: &mut World) -> Outcome
    requires { widths_of world.old.state ≡ widths_in (program_of typed.now) }
    ensures done { Ends result world.new (spec.step (machine_of (program_of typed.now)) devs.now.ranges world.old) }
    ensures passed { EndsPassed result world.new world.old (step_moments (program_of typed.now) devs.now.ranges world.old) }
    ensures widths { widths_of world.new.state ≡ widths_of world.old.state }
{
    let pc = pc_value(typed, world);
    match fetch_word(devs, has_short(typed), pc, instr_place(typed), world) {
        Ok(word) => execute(alloc, typed, word, devs, world),
        Err(stop) => outcome_of(Err(stop)),
    }
}

/// The first exit whose address is the PC.
fn exit_of(typed: &Typed, exits: &[u64], world: &World) -> Option<usize>
    requires { widths_of world.now.state ≡ widths_in (program_of typed.now) }
    ensures { result ≡ position (λ e. e == spec.pc_of (machine_of (program_of typed.now)) world.now.state) exits.now }
{
    let pc = pc_value(typed, world);
    exits.iter().position(|exit| *exit == pc)
}

/// At most `n` steps, and fewer up to the first stop.
///
/// After each whole step the exits are tested, in order; they aren't tested before the first step. After a fault, and where an
/// answer is missing, the world is the one that was reached. After want of memory too `done` steps of the run are whole, without an exit, and
/// the world is one that the next step passes. The world has the text's registers.
pub fn run(
    alloc: Global,
    typed: &Typed,
    devs: &DevMap,
    exits: &[u64],
    n: u32,
    world: &mut World,
) -> Ran
    requires { widths_of world.old.state ≡ widths_in (program_of typed.now) }
    ensures ran { IsRan result.done result.stop world.new
        (spec.run (machine_of (program_of typed.now)) devs.now.ranges exits.now n world.old) }
    ensures left { IfNoMemory result.stop (IsLeft (program_of typed.now) devs.now.ranges exits.now n result.done world.old world.new) }
    ensures widths { widths_of world.new.state ≡ widths_of world.old.state }
{
    for done in 0..n {
        match step(alloc, typed, devs, world) {
            Outcome::Value(_) => {}
            Outcome::Fault { kind, at } => return Ran {
                done,
                stop: Stop::Fault { kind, at },
            },
            Outcome::NoAnswer => return Ran {
                done,
                stop: Stop::NoAnswer,
            },
            Outcome::NoMemory => return Ran {
                done,
                stop: Stop::NoMemory,
            },
        }
        if let Some(index) = exit_of(typed, exits, world) {
            return Ran {
                done: done + 1,
                stop: Stop::Exit { index },
            };
        }
    }
    Ran {
        done: n,
        stop: Stop::Count,
    }
}
