//! The worlds in which the cases begin.

ghost use Rattle.std.specs.Prelude.{◌≡◌, IfOk};
ghost use Rattle.machine_run.specs.Program.{widths_in};
ghost use Rattle.sail_syntax.specs.View.{program_of};
ghost use Rattle.state_core.specs.State.{widths_of};

use bv_bits::Bits;
use case_lines::{hex_bytes, number, number_64, words};
use eval_parts::World;
use lex_core::{Name, NoMemory};
use machine_run::zeros;
use sail_typed::Typed;
use sail_values::Value;
use sqlite_items::Items;
use state_core::{Answers, DevMap, Log, Range, State};
use std::alloc::Global;

/// The number that a word spells below 2^64, and 0 for another word.
pub fn address(word: &str) -> u64 {
    number_64(word).unwrap_or(0)
}

/// The threes of a setup of one kind.
fn threes<'a>(alloc: Global, setup: &'a str, kind: &str) -> Result<Vec<[&'a str; 2]>, NoMemory> {
    let mut found = Vec::new(alloc);
    let words = words(alloc, setup)?;
    for at in 0..words.len() / 3 {
        if words[3 * at] == kind {
            found.push([words[3 * at + 1], words[3 * at + 2]])?;
        }
    }
    Ok(found)
}

/// The devices of a setup.
pub fn devices(alloc: Global, setup: &str) -> Result<DevMap, NoMemory> {
    let mut ranges = Items::new(alloc);
    for [lo, hi] in threes(alloc, setup, "dev")? {
        let lo = address(lo);
        let hi = address(hi);
        ranges.push(Range { lo, hi })?;
    }
    Ok(DevMap { ranges })
}

/// The answers of a setup.
fn answers(alloc: Global, setup: &str) -> Result<Answers, NoMemory> {
    let mut list = Items::new(alloc);
    for [answer, _] in threes(alloc, setup, "ans")? {
        list.push(number(answer).unwrap_or(0))?;
    }
    Ok(Answers { list, next: 0 })
}

/// Puts bytes from an address on, past the last address at 0.
fn put_bytes(state: &mut State, at: u64, bytes: &[u8]) -> Result<(), NoMemory>
    ensures { widths_of state.new ≡ widths_of state.old }
{
    let mut next = at;
    for byte in bytes {
        state.add_byte(next, *byte)?;
        next = next.wrapping_add(1);
    }
    Ok(())
}

/// Puts the bytes of a setup.
fn put_memory(alloc: Global, setup: &str, state: &mut State) -> Result<(), NoMemory>
    ensures { widths_of state.new ≡ widths_of state.old }
{
    for [at, bytes] in threes(alloc, setup, "mem")? {
        let bytes = hex_bytes(alloc, bytes)?;
        put_bytes(state, address(at), &bytes)?;
    }
    Ok(())
}

/// The number of a register, and its width.
fn register(alloc: Global, typed: &Typed, name: &str) -> Result<Option<(usize, u32)>, NoMemory> {
    let name = Name::of(alloc, name.as_bytes())?;
    match typed.register(&name) {
        Some(reg) => Ok(
            typed
                .registers()
                .get(reg)
                .map(|register| (reg, register.width)),
        ),
        None => Ok(None),
    }
}

/// Gives the registers of a setup their values.
fn put_registers(
    alloc: Global,
    typed: &Typed,
    setup: &str,
    world: &mut World,
) -> Result<(), NoMemory>
    ensures { widths_of world.new.state ≡ widths_of world.old.state }
{
    for [name, value] in threes(alloc, setup, "reg")? {
        if let Some((reg, width)) = register(alloc, typed, name)? {
            let value = number(value).unwrap_or(0);
            world.put(reg, Value::Bits(Bits { width, value }));
        }
    }
    Ok(())
}

/// The world of a setup.
pub fn started(alloc: Global, typed: &Typed, setup: &str) -> Result<World, NoMemory>
    ensures { IfOk result (λ w. widths_of w.state ≡ widths_in (program_of typed.now)) }
{
    let mut state = zeros(alloc, typed)?;
    put_memory(alloc, setup, &mut state)?;
    let log = Log {
        accesses: Items::new(alloc),
        events: Items::new(alloc),
    };
    let mut world = World::new(state, answers(alloc, setup)?, log);
    put_registers(alloc, typed, setup, &mut world)?;
    Ok(world)
}
