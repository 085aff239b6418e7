//! Reads a text from its first token to its last.

ghost use Rattle.std.specs.Prelude.{◌≡◌, All, length, map};
ghost use Rattle.lex_core.specs.Forms.{IsTokenOf};
ghost use Rattle.lex_core.specs.Want.{Gives};
ghost use Rattle.sail_grammar.specs.Words.{words_of};
ghost use Rattle.sail_machine.specs.Run as run;
ghost use Rattle.sail_reader.specs.Reading.{is_stop, is_want, read_text, stopped};
ghost use Rattle.sail_frames.specs.View.{frames_of};
ghost use Rattle.sail_syntax.specs.View.{definition_of, program_of};

use crate::fault::SailFault;
use crate::step::{last, step};
use lex_core::{LexFault, Token, tokens};
use sail_counts::Definitions;
use sail_frames::{Frame, Mode, Stack, Stop};
use sail_grammar::Word;
use sail_machine::{Await, Fault, Flaw};
use sail_syntax::{Def, Program};
use sail_tops::pop_program;
use sqlite_items::Items;
use std::alloc::Global;

/// How many bytes a Sail text may have.
const MOST_BYTES: usize = 1_048_576;

/// The definitions, where nothing else is open at the end of the text.
fn given(alloc: Global, stack: &mut Stack, at: usize) -> Result<Items<Def>, Stop>
    ensures { Gives is_stop (map definition_of) (stopped (run.given (frames_of stack.old) at)) result }
{
    match pop_program(alloc, stack) {
        Some(defs) => Ok(defs.into_items()),
        None => Err(Stop::Fault(Fault {
            flaw: Flaw::Unexpected,
            at,
        })),
    }
}

/// The definitions that the tokens of the text spell, or the first fault.
fn run(alloc: Global, text: &[u8], tokens: &[Token]) -> Result<Items<Def>, Stop>
    requires { All (IsTokenOf text.now) tokens.now }
    ensures { Gives is_stop (map definition_of) (stopped (run.read (length text.now) (words_of text.now tokens.now))) result }
{
    let mut stack = Stack::new(alloc);
    stack.push(Frame::Program(Definitions::new(alloc)))?;
    let mut mode = Mode::Awaits(Await::Begin);
    for token in tokens {
        let word = Word::of(alloc, token.lexeme(text))?;
        mode = step(alloc, &mut stack, mode, word)?;
    }
    last(alloc, &mut stack, &mut mode, text.len())?;
    given(alloc, &mut stack, text.len())
}

/// The program that the text spells.
///
/// A text of more than 1,048,576 bytes is `TooLong`, before all else. Then it is cut into tokens. Then the earliest place of
/// the other faults comes first.
pub fn read(alloc: Global, text: &[u8]) -> Result<Program, SailFault>
    ensures exact { Gives is_want program_of (read_text text.now) result }
{
    if text.len() > MOST_BYTES {
        return Err(SailFault::TooLong);
    }
    let tokens = match tokens(alloc, text) {
        Ok(tokens) => tokens,
        Err(LexFault::NoMemory) => return Err(SailFault::NoMemory),
        Err(fault) => return Err(SailFault::Lex(fault)),
    };
    match run(alloc, text, tokens.as_slice()) {
        Ok(defs) => Ok(Program { defs }),
        Err(stop) => Err(SailFault::of(stop)),
    }
}
