//! Runs Sail programs of the data on states: `FILE SETUP : ACTION`.
//!
//! The setup is in threes: `mem ADDRESS BYTES` puts bytes there, `reg NAME NUMBER` gives a register a value, `dev LO HI` adds a device, and `ans NUMBER -` is its
//! next answer. All else is zero. The action is one of these:
//!
//! - `call NAME VALUE ..` calls a function. A value is `()`, `true`, `false` or a hexadecimal literal of four bits a digit.
//! - `word HEX ..` executes words, each of two or four bytes by its digits.
//! - `run STEPS EXIT ..` runs at most so many steps from PC, up to an exit.
//!
//! What is told is how that ends, the registers that aren't zero, the accesses and the device events. A line that begins with `#` is only printed again.
#![tactic(auto)]

mod actions;
mod telling;
mod worlds;

use actions::acted;
use case_lines::{cut_word, is_comment};
use files_core::{Files, HostFiles, InFault, read_all};
use lex_core::NoMemory;
use sail_reader::read;
use sail_typed::{Typed, check};
use std::alloc::Global;
use std::io;
use worlds::{devices, started};

/// No file of the data is longer.
const LONGEST: u64 = 65536;

/// The text of a file of the data, empty where it can't be read.
fn file_text<F: Files>(alloc: Global, files: &mut F, name: &str) -> Result<Vec<u8>, NoMemory> {
    match read_all(alloc, files, name, LONGEST) {
        Ok(text) => Ok(text),
        Err(InFault::NoMemory) => Err(NoMemory),
        Err(_) => Ok(Vec::new(alloc)),
    }
}

/// The typed program of a text, if it is one.
fn program(alloc: Global, text: &[u8]) -> Option<Typed> {
    let program = read(alloc, text).ok()?;
    check(alloc, program).ok()
}

/// What an action does in a program.
fn told(alloc: Global, typed: &Typed, setup: &str, action: &str) -> Result<String, NoMemory> {
    let devs = devices(alloc, setup)?;
    let mut world = started(alloc, typed, setup)?;
    acted(alloc, typed, &devs, &mut world, action)
}

/// What is told of a line.
fn case<F: Files>(alloc: Global, files: &mut F, line: &str) -> Result<String, NoMemory> {
    let (file, rest) = cut_word(line);
    let (setup, action) = rest.split_once(": ").unwrap_or(("", rest));
    let text = file_text(alloc, files, file)?;
    match program(alloc, &text) {
        Some(typed) => told(alloc, &typed, setup, action),
        None => Ok(String::from_str(alloc, "no program")?),
    }
}

/// Prints a line and what is told of it.
fn tell<F: Files>(rt: &HostRuntime, files: &mut F, line: &str) -> io::Result<()> {
    if is_comment(line) {
        return println!(rt; "{line}");
    }
    match case(rt.alloc(), files, line) {
        Ok(told) => println!(rt; "{line} = {told}"),
        Err(NoMemory) => println!(rt; "{line} = no memory"),
    }
}

fn main(rt: HostRuntime) -> io::Result<()> {
    let alloc = rt.alloc();
    let mut files = HostFiles::new(alloc, &rt);
    for line in rt.lines(alloc) {
        let line = line?;
        tell(&rt, &mut files, line.as_str())?;
    }
    Ok(())
}
