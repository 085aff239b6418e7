//! The actions of the cases.

ghost use Rattle.std.specs.Prelude.{◌≡◌, IfSome};
ghost use Rattle.machine_run.specs.Program.{widths_in};
ghost use Rattle.sail_syntax.specs.View.{program_of};
ghost use Rattle.state_core.specs.State.{widths_of};
ghost use Rattle.state_core.specs.Word.{IsWord};

use crate::telling::behind;
use crate::worlds::address;
use bv_bits::Bits;
use case_lines::{cut_word, number, number_32, words};
use eval_parts::World;
use eval_words::{call, execute};
use lex_core::{Name, NoMemory};
use machine_run::run;
use sail_typed::Typed;
use sail_values::Value;
use state_core::{DevMap, Word};
use std::alloc::Global;

/// The value that a word spells.
fn value(word: &str) -> Value {
    match word {
        "()" => Value::Unit,
        "true" => Value::Truth(true),
        "false" => Value::Truth(false),
        _ => {
            let digits = word.len().saturating_sub(2).min(32) as u32;
            Value::Bits(Bits {
                width: 4 * digits,
                value: number(word).unwrap_or(0),
            })
        }
    }
}

/// The values that words spell.
fn values(alloc: Global, words: &[&str]) -> Result<Vec<Value>, NoMemory> {
    let mut all = Vec::new(alloc);
    for word in words {
        all.push(value(word))?;
    }
    Ok(all)
}

/// Calls a function.
fn calls(
    alloc: Global,
    typed: &Typed,
    devs: &DevMap,
    world: &mut World,
    what: &str,
) -> Result<String, NoMemory> {
    let (name, args) = cut_word(what);
    let name = Name::of(alloc, name.as_bytes())?;
    let args = values(alloc, words(alloc, args)?.as_slice())?;
    let outcome = call(alloc, typed, &name, &args, devs, world);
    Ok(format!(in alloc; "{outcome:?}")?)
}

/// The word of an instruction that digits spell.
fn instruction(word: &str) -> Option<Word>
    ensures { IfSome result IsWord }
{
    let bits = number_32(word)?;
    if word.len() == 6 && bits < 65536 {
        Some(Word { bytes: 2, bits })
    } else {
        Some(Word { bytes: 4, bits })
    }
}

/// Executes words.
fn executes(
    alloc: Global,
    typed: &Typed,
    devs: &DevMap,
    world: &mut World,
    what: &str,
) -> Result<String, NoMemory> {
    let mut told = String::new(alloc);
    for word in words(alloc, what)?.as_slice() {
        if let Some(word) = instruction(word) {
            let outcome = execute(alloc, typed, word, devs, world);
            let one = format!(in alloc; "{outcome:?} ")?;
            told.push_str(one.as_str())?;
        }
    }
    Ok(told)
}

/// The addresses that words spell.
fn addresses(alloc: Global, words: &[&str]) -> Result<Vec<u64>, NoMemory> {
    let mut all = Vec::new(alloc);
    for word in words {
        all.push(address(word))?;
    }
    Ok(all)
}

/// Runs steps.
fn runs(
    alloc: Global,
    typed: &Typed,
    devs: &DevMap,
    world: &mut World,
    what: &str,
) -> Result<String, NoMemory>
    requires { widths_of world.old.state ≡ widths_in (program_of typed.now) }
{
    let (steps, exits) = cut_word(what);
    let steps = number_32(steps).unwrap_or(0);
    let exits = addresses(alloc, words(alloc, exits)?.as_slice())?;
    let ran = run(alloc, typed, devs, &exits, steps, world);
    Ok(format!(in alloc; "{} {:?}", ran.done, ran.stop)?)
}

/// What an action does, and the world behind it.
pub fn acted(
    alloc: Global,
    typed: &Typed,
    devs: &DevMap,
    world: &mut World,
    action: &str,
) -> Result<String, NoMemory>
    requires { widths_of world.old.state ≡ widths_in (program_of typed.now) }
{
    let (kind, what) = cut_word(action);
    let told = if kind == "run" {
        runs(alloc, typed, devs, world, what)?
    } else if kind == "word" {
        executes(alloc, typed, devs, world, what)?
    } else {
        calls(alloc, typed, devs, world, what)?
    };
    let behind = behind(alloc, typed, world)?;
    Ok(format!(in alloc; "{told}{behind}")?)
}
