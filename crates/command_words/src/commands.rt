//! What the words of a command say.

ghost use Rattle.std.specs.Prelude.{◌≡◌, [], ◌∷◌, true, map, List, All, None, Some, IfOk, IfSome, MatchOption, is_some, option_map, codes};
ghost use Rattle.bv_bits.specs.Bits.{IsBits};
ghost use Rattle.clap.specs.Words.{takes, Text, found_of, HasMatchesOf};
ghost use Rattle.clap.specs.Faults.{fault_of};
ghost use Rattle.report_text.specs.Names.{Row, row_named};
ghost use Rattle.trace_words.specs.Trace.{trace_of, trace_said};
ghost use Rattle.command_words.specs.Apps.{app, HasNames, HasTrace};
ghost use Rattle.command_words.specs.Words.{check, trace as traced, command_of, command_said, row_of, row_said, spelled};

use crate::declared::program;
use clap::ArgMatches;
use clap::error::ErrorKind;
use lex_core::NoMemory;
use report_text::Names;
use std::alloc::{AllocError, Global};
use trace_words::{TraceGiven, trace};

/// A command.
#[derive(Drop)]
pub enum CommandGiven<'a> {
    /// `check SAIL IMAGE PROOF`.
    Check(Names<'a>),
    /// `trace SAIL OPCODE`, and then `REG=LIT` any number of times.
    Trace(TraceGiven<'a>),
}

/// What the words are parsed to; none where they are refused.
fn parse<'a>(alloc: Global, words: &'a [&'a str]) -> Result<Option<ArgMatches<'a>>, AllocError>
    ensures fault { IfOk result (λ o. IfSome o (λ m. fault_of app (map (λ s. s.now) words.now) ≡ [])) }
    ensures matches { IfOk result (λ o. IfSome o (HasMatchesOf app (map (λ s. s.now) words.now))) }
    ensures refused { IfOk result (λ o. takes app (map (λ s. s.now) words.now) ≡ true → is_some o ≡ true) }
{
    let program = program(alloc)?;
    match program.try_get_matches_from(words) {
        Ok(matches) => Ok(Some(matches)),
        Err(error) => match error.kind() {
            ErrorKind::OutOfMemory => Err(AllocError),
            _ => Ok(None),
        },
    }
}

/// The command that the values of `check` say.
fn check_given<'a>(given: &ArgMatches<'a>) -> Option<CommandGiven<'a>>
    ensures { (row : Row) → HasNames (found_of given.now) row → option_map command_said result ≡ Some (check row) }
{
    Some(CommandGiven::Check(Names {
        sail: given.get_str("SAIL")?,
        image: given.get_str("IMAGE")?,
        proof: given.get_str("PROOF")?,
    }))
}

/// What the values of `trace` say.
fn trace_words<'a>(
    alloc: Global,
    given: &ArgMatches<'a>,
) -> Result<Option<TraceGiven<'a>>, NoMemory>
    ensures { (sail opcode : Text) (rest : List Text) → HasTrace (found_of given.now) sail opcode rest
        → IfOk result (λ o. option_map trace_said o ≡ trace_of (sail ∷ opcode ∷ rest)) }
{
    let Some(sail) = given.get_str("SAIL") else {
        return Ok(None);
    };
    let Some(opcode) = given.get_str("OPCODE") else {
        return Ok(None);
    };
    match given.get_raw("REG=LIT") {
        Some(rest) => trace(alloc, sail, opcode, rest),
        None => trace(alloc, sail, opcode, &[]),
    }
}

/// The command that the values of `trace` say.
fn trace_given<'a>(
    alloc: Global,
    given: &ArgMatches<'a>,
) -> Result<Option<CommandGiven<'a>>, NoMemory>
    ensures { (sail opcode : Text) (rest : List Text) → HasTrace (found_of given.now) sail opcode rest
        → IfOk result (λ o. option_map command_said o ≡ option_map traced (trace_of (sail ∷ opcode ∷ rest))) }
{
    match trace_words(alloc, given)? {
        Some(words) => Ok(Some(CommandGiven::Trace(words))),
        None => Ok(None),
    }
}

/// What the words say, where they are those of a command; none of any other words. They are given as `spelled` makes
/// them.
pub fn command<'a>(
    alloc: Global,
    words: &'a [&'a str],
) -> Result<Option<CommandGiven<'a>>, NoMemory>
    ensures { (ws : List Text) → map (λ s. s.now) words.now ≡ spelled ws → IfOk result (λ o. option_map command_said o ≡ command_of ws) }
{
    let Some(matches) = parse(alloc, words)? else {
        return Ok(None);
    };
    if let Some(given) = matches.subcommand_matches("check") {
        return Ok(check_given(given));
    }
    match matches.subcommand_matches("trace") {
        Some(given) => trace_given(alloc, given),
        None => Ok(None),
    }
}

/// The names of the files of a check.
fn names<'a>(command: Option<CommandGiven<'a>>) -> Option<Names<'a>>
    ensures { option_map row_named result ≡ row_said (option_map command_said command.entry) }
{
    match command {
        Some(CommandGiven::Check(names)) => Some(names),
        Some(CommandGiven::Trace(_)) => None,
        None => None,
    }
}

/// The names of the three files, where the words are those of a check; none of any other words. They are given as `spelled`
/// makes them.
pub fn row<'a>(alloc: Global, words: &'a [&'a str]) -> Result<Option<Names<'a>>, NoMemory>
    ensures { (ws : List Text) → map (λ s. s.now) words.now ≡ spelled ws → IfOk result (λ o. MatchOption o (row_of ws ≡ None) (λ names. row_of ws ≡ Some (row_named names))) }
{
    match command(alloc, words) {
        Ok(command) => Ok(names(command)),
        Err(NoMemory) => Err(NoMemory),
    }
}
