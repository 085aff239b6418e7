//! Runs the cases of the form of proof files that standard input names, one a line, and prints each with its result.
//!
//! `proof TEXT` tells what a proof file says, or the place that shows that it is none; `change OLD|NEW` the same of the proof
//! file in the data with the first `OLD` changed to `NEW`. `constants COUNT OLD|NEW` tells the constants of that file over so
//! many registers. Texts have escapes. The other commands are told at `other`.
#![tactic(auto)]

mod others;
mod proofs;

use case_lines::{bytes_of, cut_word, is_comment};
use files_core::{HostFiles, InFault, read_all};
use lex_core::NoMemory;
use others::other;
use proofs::{changed, constants_of, proof};
use std::alloc::Global;
use std::io;

/// No file of the data is longer.
const LONGEST: u64 = 65536;

/// What the text with escapes says as a proof file.
fn proof_case(alloc: Global, rest: &str) -> Result<String, NoMemory> {
    let text = bytes_of(alloc, rest)?;
    proof(alloc, text.as_slice())
}

/// What the changed text says as a proof file.
fn change_case(alloc: Global, base: &str, rest: &str) -> Result<String, NoMemory> {
    let text = changed(alloc, base, rest)?;
    proof(alloc, text.as_slice())
}

/// What the case on this line comes to. `base` is the proof file in the data.
fn case(alloc: Global, base: &str, line: &str) -> Result<String, NoMemory> {
    let (what, rest) = cut_word(line);
    if what == "proof" {
        proof_case(alloc, rest)
    } else if what == "change" {
        change_case(alloc, base, rest)
    } else if what == "constants" {
        constants_of(alloc, base, rest)
    } else {
        other(alloc, what, rest)
    }
}

/// The text of a file of the data, empty where it can't be read.
fn data<F: files_core::Files>(
    alloc: Global,
    files: &mut F,
    name: &str,
) -> Result<String, NoMemory> {
    match read_all(alloc, files, name, LONGEST) {
        Ok(bytes) => Ok(String::from_utf8_lossy(alloc, bytes.as_slice())?),
        Err(InFault::NoMemory) => Err(NoMemory),
        Err(_) => Ok(String::new(alloc)),
    }
}

/// Prints a line and what its case comes to.
fn tell(rt: &HostRuntime, base: &str, line: &str) -> io::Result<()> {
    if is_comment(line) {
        return println!(rt; "{line}");
    }
    match case(rt.alloc(), base, line) {
        Ok(told) => println!(rt; "{line} = {told}"),
        Err(NoMemory) => println!(rt; "{line} = no memory"),
    }
}

fn main(rt: HostRuntime) -> io::Result<()> {
    let alloc = rt.alloc();
    let mut files = HostFiles::new(alloc, &rt);
    let Ok(base) = data(alloc, &mut files, "inc.ipf") else {
        return Ok(());
    };
    for line in rt.lines(alloc) {
        let line = line?;
        tell(&rt, base.as_str(), line.as_str())?;
    }
    Ok(())
}
