//! Runs the top call on each case that standard input names, and prints its status and what it writes.
//!
//! A case is a line: the number of the read that fails, or `-`; that of the write that fails, or `-`; and the words of the
//! command. The words behind the first name files of the data; a file that isn't there is missing. `N.blanks` is a file of
//! so many blanks, and `N.words` one of so many words of the increment. A write takes at most ten bytes.
#![tactic(auto)]

use case_lines::{is_comment, number_32, number_64, spelled, words};
use files_core::{File, Files, HostFiles, InFault, MemFiles, MemSink, read_all};
use islaris_cli::islaris;
use lex_core::{Name, NoMemory};
use std::alloc::Global;
use std::io;

/// No file of the data is longer.
const LONGEST: u64 = 65536;

/// `addi x10, x10, 1`.
const WORD: [u8; 4] = [0x13, 0x05, 0x15, 0x00];

/// So many blanks.
fn blanks(alloc: Global, count: &str) -> Result<Vec<u8>, NoMemory> {
    let count = usize::try_from(number_32(count).unwrap_or(0)).unwrap_or(0);
    Ok(vec![in alloc; b' '; count]?)
}

/// So many words of the increment.
fn increments(alloc: Global, count: &str) -> Result<Vec<u8>, NoMemory> {
    let mut bytes = Vec::new(alloc);
    for _ in 0..number_32(count).unwrap_or(0) {
        bytes.extend_from_slice(&WORD)?;
    }
    Ok(bytes)
}

/// The bytes of the file of that name; none where there is none.
fn bytes_of<F: Files>(
    alloc: Global,
    host: &mut F,
    name: &str,
) -> Result<Option<Vec<u8>>, NoMemory> {
    if let Some(count) = name.strip_suffix(".blanks") {
        return Ok(Some(blanks(alloc, count)?));
    }
    if let Some(count) = name.strip_suffix(".words") {
        return Ok(Some(increments(alloc, count)?));
    }
    match read_all(alloc, host, name, LONGEST) {
        Ok(bytes) => Ok(Some(bytes)),
        Err(InFault::NoMemory) => Err(NoMemory),
        Err(_) => Ok(None),
    }
}

/// The files that the words name.
fn files_of<F: Files>(alloc: Global, host: &mut F, names: &[&str]) -> Result<Vec<File>, NoMemory> {
    let mut files = Vec::new(alloc);
    for name in names {
        if let Some(bytes) = bytes_of(alloc, host, name)? {
            files.push(File::new(Name::of(alloc, name.as_bytes())?, bytes))?;
        }
    }
    Ok(files)
}

/// The number that a word spells, alone in a list, or no number.
fn numbers(alloc: Global, word: &str) -> Result<Vec<u64>, NoMemory> {
    let mut numbers = Vec::new(alloc);
    if let Some(number) = number_64(word) {
        numbers.push(number)?;
    }
    Ok(numbers)
}

/// The words as the top call takes them.
fn owned(alloc: Global, words: &[&str]) -> Result<Vec<String>, NoMemory> {
    let mut all = Vec::new(alloc);
    for word in words {
        all.push(String::from_str(alloc, word)?)?;
    }
    Ok(all)
}

/// What the case on this line comes to.
fn case<F: Files>(alloc: Global, host: &mut F, line: &str) -> Result<String, NoMemory> {
    let parts = words(alloc, line)?;
    let [read, write, command @ ..] = parts.as_slice() else {
        return Ok(String::from_str(alloc, "no such case")?);
    };
    let files = files_of(alloc, host, command)?;
    let command = owned(alloc, command)?;
    let mut held = MemFiles::new(files, numbers(alloc, read)?)?;
    let mut out = MemSink::new(alloc, 10, numbers(alloc, write)?)?;
    let status = islaris(alloc, &command, &mut held, &mut out);
    let text = spelled(alloc, out.bytes())?;
    Ok(format!(in alloc; "{status} {text}")?)
}

fn main(rt: HostRuntime) -> io::Result<()> {
    let alloc = rt.alloc();
    let mut host = HostFiles::new(alloc, &rt);
    for line in rt.lines(alloc) {
        let line = line?;
        if is_comment(line.as_str()) {
            println!(rt; "{line}")?;
            continue;
        }
        match case(alloc, &mut host, line.as_str()) {
            Ok(told) => println!(rt; "{line} = {told}")?,
            Err(NoMemory) => println!(rt; "{line} = no memory")?,
        }
    }
    Ok(())
}
