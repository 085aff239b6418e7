//! Reads of a case, in turn: `all/NAME/LIMIT` reads a whole file, `at/NAME/PLACE/ROOM` one piece into a buffer.

use crate::parsing::count_of;
use case_lines::{number_64, spelled};
use files_core::{Files, InFault, ReadAnswer, read_all};
use lex_core::NoMemory;
use std::alloc::Global;

/// The bytes, spelled where they are few, else how many there are, and whether they are all alike.
fn shown(alloc: Global, bytes: &[u8]) -> Result<String, NoMemory> {
    match bytes {
        [first, ..] if bytes.len() > 64 && bytes.iter().all(|byte| *byte == *first) => {
            Ok(format!(in alloc; "{}*{first}", bytes.len())?)
        }
        _ if bytes.len() > 64 => Ok(format!(in alloc; "{} bytes", bytes.len())?),
        _ => {
            let text = spelled(alloc, bytes)?;
            Ok(format!(in alloc; "[{text}]")?)
        }
    }
}

/// The whole file, or the fault.
fn whole<F: Files>(
    alloc: Global,
    files: &mut F,
    name: &str,
    limit: &str,
) -> Result<String, NoMemory> {
    match read_all(alloc, files, name, number_64(limit).unwrap_or(0)) {
        Ok(text) => shown(alloc, &text),
        Err(InFault::NoMemory) => Err(NoMemory),
        Err(fault) => Ok(format!(in alloc; "{fault:?}")?),
    }
}

/// The answer of one read into the buffer, or the front of it.
fn answered<F: Files>(
    files: &mut F,
    name: &str,
    at: u64,
    room: usize,
    buffer: &mut [u8; 4],
) -> ReadAnswer {
    files.read_at(name, at, &mut buffer[..room.min(4)])
}

/// An answer, and what the buffer holds.
fn with_buffer(alloc: Global, answer: ReadAnswer, buffer: &[u8]) -> Result<String, NoMemory> {
    let bytes = spelled(alloc, buffer)?;
    Ok(format!(in alloc; "{answer:?}[{bytes}]")?)
}

/// The answer of one read, and what the buffer of four nines holds behind it.
fn piece<F: Files>(
    alloc: Global,
    files: &mut F,
    name: &str,
    place: &str,
) -> Result<String, NoMemory> {
    let (at, room) = place.split_once('/').unwrap_or((place, "4"));
    let at = number_64(at).unwrap_or(0);
    let mut buffer = [9u8; 4];
    let answer = answered(files, name, at, count_of(room), &mut buffer);
    with_buffer(alloc, answer, &buffer)
}

/// What one read comes to.
fn read<F: Files>(alloc: Global, files: &mut F, asked: &str) -> Result<String, NoMemory> {
    let (what, rest) = asked.split_once('/').unwrap_or((asked, ""));
    let (name, number) = rest.split_once('/').unwrap_or((rest, ""));
    if what == "all" {
        whole(alloc, files, name, number)
    } else {
        piece(alloc, files, name, number)
    }
}

/// What the reads come to, in turn.
pub fn reads<F: Files>(alloc: Global, files: &mut F, asked: &str) -> Result<String, NoMemory> {
    let mut told = String::new(alloc);
    for word in asked.split_whitespace() {
        let one = read(alloc, files, word)?;
        told.push_str(one.as_str())?;
        told.push_str(" ")?;
    }
    Ok(told)
}
