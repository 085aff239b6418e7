//! Calls of a program: of a function by its name, and of `instr` or `instr16` on a word.

ghost use Rattle.std.specs.Prelude.{◌≡◌, ◌*◌, ◌<◌, ◌^◌};
ghost use Rattle.eval_rules.specs.Eval.{call_of};
ghost use Rattle.eval_rules.specs.Moments.{moments_of};
ghost use Rattle.eval_words.specs.Agrees.{Comes, Ends, EndsPassed, outcome_of};
ghost use Rattle.eval_words.specs.Instr.{instr_of, moments_of_instr, name_of_word, word_value};
ghost use Rattle.sail_syntax.specs.View.{program_of};
ghost use Rattle.state_core.specs.State.{widths_of};
ghost use Rattle.state_core.specs.Word.{IsWord};

use bv_bits::Bits;
use eval_parts::World;
use eval_trees::{Setting, call_thing};
use lex_core::Name;
use sail_typed::Typed;
use sail_values::{Outcome, Stop, Value};
use state_core::{DevMap, Word};
use std::alloc::Global;

/// How a call ends, by what it gives or why it gives nothing.
pub fn outcome_of(answer: Result<Value, Stop>) -> Outcome
    ensures { result ≡ outcome_of answer }
{
    match answer {
        Ok(value) => Outcome::Value(value),
        Err(Stop::Fault { kind, at }) => Outcome::Fault { kind, at },
        Err(Stop::NoAnswer) => Outcome::NoAnswer,
        Err(Stop::NoMemory) => Outcome::NoMemory,
    }
}

/// The call of what a name of the program stands for, with these arguments.
fn run(
    alloc: Global,
    typed: &Typed,
    name: &[u8],
    args: &[Value],
    devs: &DevMap,
    world: &mut World,
) -> Outcome
    ensures done { Comes result world.new (call_of (program_of typed.now) devs.now.ranges name.now 0 args.now world.old) }
    ensures passed { EndsPassed result world.new world.old (moments_of (program_of typed.now) devs.now.ranges name.now args.now world.old) }
    ensures widths { widths_of world.new.state ≡ widths_of world.old.state }
{
    let text = Setting {
        typed,
        devs,
        defs: typed.program().defs.as_slice(),
    };
    let thing = typed.thing(name);
    let answer = call_thing(alloc, &text, thing, 0, args, world);
    outcome_of(answer)
}

/// The call of a function of the program, by its name, with these arguments: what its body means where the parameters
/// have them. A fault comes from where the meaning has one, with its place in bytes of the text. After a fault, and where no answer of a device is
/// left, the world is the one that was reached. After want of memory it is one that the call passes.
pub fn call(
    alloc: Global,
    typed: &Typed,
    name: &Name,
    args: &[Value],
    devs: &DevMap,
    world: &mut World,
) -> Outcome
    ensures done { Comes result world.new (call_of (program_of typed.now) devs.now.ranges name.now 0 args.now world.old) }
    ensures passed { EndsPassed result world.new world.old (moments_of (program_of typed.now) devs.now.ranges name.now args.now world.old) }
    ensures widths { widths_of world.new.state ≡ widths_of world.old.state }
{
    run(alloc, typed, name.bytes(), args, devs, world)
}

/// The function that a word is given to.
fn name_of_word(word: Word) -> &'static [u8]
    ensures { result.now ≡ name_of_word word }
{
    if word.bytes == 2 {
        b"instr16"
    } else {
        b"instr"
    }
}

/// The argument that a word is.
fn word_value(word: Word) -> Value
    requires { IsWord word }
    ensures { result ≡ word_value word }
{
    Value::Bits(Bits {
        width: 8 * word.bytes,
        value: u128::from(word.bits),
    })
}

/// What an instruction's word does: the call of `instr` on a word of four bytes, and of `instr16` on one of two. After want of memory the world is
/// one that the instruction passes.
pub fn execute(
    alloc: Global,
    typed: &Typed,
    word: Word,
    devs: &DevMap,
    world: &mut World,
) -> Outcome
    requires { IsWord word }
    ensures done { Ends result world.new (instr_of (program_of typed.now) devs.now.ranges word world.old) }
    ensures passed { EndsPassed result world.new world.old (moments_of_instr (program_of typed.now) devs.now.ranges word world.old) }
    ensures widths { widths_of world.new.state ≡ widths_of world.old.state }
{
    let argument = word_value(word);
    run(alloc, typed, name_of_word(word), &[argument], devs, world)
}
