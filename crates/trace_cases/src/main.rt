//! Runs cases of the words of commands: each line has the words of one, and is printed with what they say.
//!
//! `check SAIL IMAGE PROOF` are the three names, `trace SAIL BYTES WORD` and then `NAME WIDTH VALUE` any number of times the
//! Sail text's name, the instruction word with its number of bytes, and the registers with their values; `none` where the
//! words are no command. Words have escapes. A line that begins with `#` is only printed again.
#![tactic(auto)]

use case_lines::{bytes_of, is_comment, spelled as printable, words};
use command_words::{CommandGiven, command, spelled};
use lex_core::NoMemory;
use std::alloc::{AllocError, Global};
use std::io;
use trace_words::{Given, TraceGiven};

/// A register and its value.
fn assumed(alloc: Global, given: &Given<'_>) -> Result<String, AllocError> {
    let name = printable(alloc, given.name)?;
    format!(in alloc; " {name} {} {:#x}", given.bits.width, given.bits.value)
}

/// What the words of a trace say.
fn traced(alloc: Global, words: &TraceGiven<'_>) -> Result<String, AllocError> {
    let mut all = format!(in alloc;
        " trace {} {} {:#x}",
        words.sail, words.opcode.bytes, words.opcode.bits
    )?;
    for given in words.given.as_slice() {
        let one = assumed(alloc, given)?;
        all.push_str(one.as_str())?;
    }
    Ok(all)
}

/// What the command is.
fn told(alloc: Global, said: &Option<CommandGiven<'_>>) -> Result<String, AllocError> {
    match said {
        Some(CommandGiven::Check(names)) => {
            format!(in alloc; " check {} {} {}", names.sail, names.image, names.proof)
        }
        Some(CommandGiven::Trace(words)) => traced(alloc, words),
        None => String::from_str(alloc, " none"),
    }
}

/// The words of the line, with what their escapes stand for.
fn words_in(alloc: Global, line: &str) -> Result<Vec<String>, AllocError> {
    let mut all = Vec::new(alloc);
    for word in words(alloc, line)?.as_slice() {
        let bytes = bytes_of(alloc, word)?;
        if let Ok(text) = String::from_utf8(bytes) {
            all.push(text)?;
        }
    }
    Ok(all)
}

/// What the line's words say.
fn case(alloc: Global, line: &str) -> Result<String, NoMemory> {
    let given = words_in(alloc, line)?;
    let parsed = spelled(alloc, &given)?;
    let said = command(alloc, &parsed)?;
    Ok(told(alloc, &said)?)
}

fn main(rt: HostRuntime) -> io::Result<()> {
    let alloc = rt.alloc();
    for line in rt.lines(alloc) {
        let line = line?;
        if is_comment(line.as_str()) {
            println!(rt; "{line}")?;
            continue;
        }
        match case(alloc, line.as_str()) {
            Ok(told) => println!(rt; "{line} ={told}")?,
            Err(NoMemory) => println!(rt; "{line} = no memory")?,
        }
    }
    Ok(())
}
