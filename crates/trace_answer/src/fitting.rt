//! Whether a word and what is assumed of registers fit a program.

ghost use Rattle.std.specs.Prelude.{◌≡◌, ◌↔◌, map, true, false, bytes_eq};
ghost use Rattle.std.specs.List.{list_any};
ghost use Rattle.std.specs.Option.{option_map_or};
ghost use Rattle.sail_syntax.specs.Program.{register_of, registers_of};
ghost use Rattle.sail_syntax.specs.View.{definition_of, program_of};
ghost use Rattle.trace_words.specs.Given.{given_said};
ghost use Rattle.trace_words.specs.Trace.{trace_said};
ghost use Rattle.trace_answer.specs.Fits.{Fits, given_fits as given_fits_of, givens_fit as givens_fit_of, is_declared as is_declared_of, is_fetched as is_fetched_of, same_register, words_fit as words_fit_of};

use sail_syntax::{Def, Program};
use state_core::Word;
use trace_words::{Given, TraceGiven};

/// Whether a fetch gives such a word: with words of two bytes or without.
fn is_fetched(short: bool, word: Word) -> bool
    ensures { result ≡ is_fetched_of short word }
{
    let is_long = word.bits % 4 == 3;
    match word.bytes {
        2 => short && !is_long,
        4 => !short || is_long,
        _ => false,
    }
}

/// Whether the definition declares the register, with the width of its literal.
fn declares(def: &Def, given: &Given<'_>) -> bool
    ensures { result ≡ option_map_or (same_register (given_said given.now)) (register_of (definition_of def.now)) false }
{
    match def {
        Def::Register { name, width, .. } => name.is(given.name) && *width == given.bits.width,
        _ => false,
    }
}

/// Whether the program declares the register, with the width of its literal.
#[tactic(auto, using(crate::proofs::FitsLemmas::from_place))]
fn is_declared(program: &Program, given: &Given<'_>) -> bool
    ensures { result ≡ is_declared_of (registers_of (program_of program.now)) (given_said given.now) }
{
    for def in program.defs.as_slice() {
        if declares(def, given) {
            return true;
        }
    }
    false
}

/// Whether one of these assumes something of the register.
fn is_named(name: &[u8], rest: &[Given<'_>]) -> bool
    ensures { result ≡ list_any (λ h. bytes_eq h.name name.now) (map given_said rest.now) }
{
    for other in rest {
        if other.name == name {
            return true;
        }
    }
    false
}

/// Whether what is assumed of one register fits the program, and what stands behind it.
fn given_fits(program: &Program, given: &Given<'_>, rest: &[Given<'_>]) -> bool
    ensures { result ≡ given_fits_of (registers_of (program_of program.now)) (given_said given.now) (map given_said rest.now) }
{
    given.name != b"PC".as_slice() && is_declared(program, given) && !is_named(given.name, rest)
}

/// Whether what is assumed of registers fits the program.
fn givens_fit(program: &Program, given: &[Given<'_>]) -> bool
    ensures { result ≡ givens_fit_of (registers_of (program_of program.now)) (map given_said given.now) }
{
    for (i, one) in given.iter().enumerate() {
        if !given_fits(program, one, &given[i + 1..]) {
            return false;
        }
    }
    true
}

/// Whether the words fit the program. A fetch of the program gives the word: one of four bytes; where the program has
/// words of two bytes, by a function `instr16`, one of two bytes whose lowest two bits aren't 11, or one of four whose
/// lowest two bits are. Each register that is named is declared with the width of its literal, isn't PC, and is named
/// once.
#[tactic(auto, using(crate::proofs::FitsLemmas::answer_fits))]
pub fn words_fit(program: &Program, words: &TraceGiven<'_>) -> bool
    ensures exact { result ≡ words_fit_of (program_of program.now) (trace_said words.now) }
    ensures fits { (result ≡ true) ↔ Fits (program_of program.now) (trace_said words.now) }
{
    let short = program.function(b"instr16").is_some();
    is_fetched(short, words.opcode) && givens_fit(program, &words.given)
}
