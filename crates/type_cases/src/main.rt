//! Types the Sail text of each line, and prints what a trace says of it: its first fault, or `input 57 m.sail 0`.
//!
//! - `text TEXT` is the text.
//! - `more TEXT` is the text behind the declarations below and a blank.
//! - `calls COUNT` is a text with so many functions, each of which calls the one above it.
//!
//! In texts `\n`, `\r`, `\t`, `\\` and `\x` with two hexadecimal digits stand for one byte each. A line that begins with `#` is only
//! printed again.
#![tactic(auto)]

mod texts;

use case_lines::{is_comment, spelled};
use lex_core::NoMemory;
use state_core::Word;
use std::alloc::Global;
use std::io;
use texts::text_of;
use trace_verdict::judge_trace;
use trace_words::TraceGiven;

/// The words of a trace of a word that each program fetches, with words of two bytes or without.
fn words<'a>(alloc: Global) -> TraceGiven<'a> {
    TraceGiven {
        sail: "m.sail",
        opcode: Word {
            bytes: 4,
            bits: 0x13,
        },
        given: Vec::new(alloc),
    }
}

/// The status and the text that are told of the text.
fn told(alloc: Global, text: &[u8]) -> Result<String, NoMemory> {
    let words = words(alloc);
    let outcome = judge_trace(alloc, &words, text)?;
    let status = outcome.status.number();
    let text = spelled(alloc, &outcome.text)?;
    Ok(format!(in alloc; "{status} {text}")?)
}

/// What is told of a line.
fn case(alloc: Global, line: &str) -> Result<String, NoMemory> {
    let text = text_of(alloc, line)?;
    told(alloc, &text)
}

/// Prints a line and what is told of it.
fn tell(rt: &HostRuntime, line: &str) -> io::Result<()> {
    if is_comment(line) {
        return println!(rt; "{line}");
    }
    match case(rt.alloc(), line) {
        Ok(told) => println!(rt; "{line} = {told}"),
        Err(NoMemory) => println!(rt; "{line} = no memory"),
    }
}

fn main(rt: HostRuntime) -> io::Result<()> {
    let alloc = rt.alloc();
    for line in rt.lines(alloc) {
        let line = line?;
        tell(&rt, line.as_str())?;
    }
    Ok(())
}
