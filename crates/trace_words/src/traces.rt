//! The words behind `trace`.

ghost use Rattle.std.specs.Prelude.{◌≡◌, ◌∷◌, map, All, IfOk, IfSome, option_map};
ghost use Rattle.bv_bits.specs.Bits.{IsBits};
ghost use Rattle.trace_words.specs.Given.{given_said};
ghost use Rattle.state_core.specs.Word.{IsWord};
ghost use Rattle.trace_words.specs.Trace.{givens_of, trace_of, trace_said};

use crate::givens::{Given, read_given};
use crate::opcodes::opcode;
use lex_core::NoMemory;
use state_core::Word;
use std::alloc::Global;

/// What the words behind `trace` say.
#[derive(Debug, Drop)]
pub struct TraceGiven<'a> {
    /// The name of the Sail text's file.
    pub sail: &'a str,
    /// The instruction word that is traced.
    pub opcode: Word,
    /// What is assumed of registers, in the order of the words.
    pub given: Vec<Given<'a>>,
}

/// What the words assume of registers, if each of them assumes something of one.
fn givens<'a>(alloc: Global, words: &[&'a str]) -> Result<Option<Vec<Given<'a>>>, NoMemory>
    ensures value { IfOk result (λ o. option_map (λ v. map given_said v.items) o ≡ givens_of (map (λ s. s.now) words.now)) }
    ensures fits { IfOk result (λ o. IfSome o (λ v. All (λ g. IsBits g.bits) v.items)) }
{
    let mut all = Vec::new(alloc);
    for word in words {
        match read_given(alloc, word.as_bytes())? {
            Some(one) => all.push(one)?,
            None => return Ok(None),
        }
    }
    Ok(Some(all))
}

/// What the words behind `trace` say: the name of a file, an opcode, and what is assumed of registers. None where one of
/// them isn't spelled so.
pub fn trace<'a>(
    alloc: Global,
    sail: &'a str,
    word: &str,
    rest: &[&'a str],
) -> Result<Option<TraceGiven<'a>>, NoMemory>
    ensures value { IfOk result (λ o. option_map trace_said o ≡ trace_of (sail.now ∷ word.now ∷ map (λ s. s.now) rest.now)) }
    ensures fits { IfOk result (λ o. IfSome o (λ t. IsWord t.opcode)) }
    ensures bits { IfOk result (λ o. IfSome o (λ t. All (λ g. IsBits g.bits) t.given.items)) }
{
    let Some(opcode) = opcode(word.as_bytes()) else {
        return Ok(None);
    };
    match givens(alloc, rest)? {
        Some(given) => Ok(Some(TraceGiven {
            sail,
            opcode,
            given,
        })),
        None => Ok(None),
    }
}
