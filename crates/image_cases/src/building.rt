//! Lines that build a file.

use crate::fields::{elf, program_header, section_header, symbol};
use case_lines::{bytes_of, hex_bytes, number_64};
use std::alloc::{AllocError, Global};

/// The number that a word spells, and 0 for another word.
fn number(word: &str) -> u64 {
    number_64(word).unwrap_or(0)
}

/// The byte that a number is, and 0 for a greater one.
fn byte(number: u64) -> u8 {
    u8::try_from(number).unwrap_or(0)
}

/// The place or the count that a number is, and 0 for one that is none.
fn count(number: u64) -> usize {
    usize::try_from(number).unwrap_or(0)
}

/// Takes a line whose first word is `bytes` or `text`, and says whether it is one.
pub fn text(
    alloc: Global,
    first: &str,
    rest: &str,
    file: &mut Vec<u8>,
) -> Result<bool, AllocError> {
    let more = match first {
        "bytes" => hex_bytes(alloc, rest)?,
        "text" => bytes_of(alloc, rest)?,
        _ => return Ok(false),
    };
    file.extend_from_slice(&more)?;
    Ok(true)
}

/// Changes a byte, if there is one at the place.
fn change(file: &mut Vec<u8>, at: usize, byte: u8) {
    if let Some(place) = file.get_mut(at) {
        *place = byte;
    }
}

/// Adds equal bytes.
fn fill(alloc: Global, file: &mut Vec<u8>, byte: u8, count: usize) -> Result<(), AllocError> {
    let more = vec![in alloc; byte; count]?;
    file.extend_from_slice(&more)
}

/// Adds program headers of loaded segments, each so far below the one before.
fn add_programs(file: &mut Vec<u8>, fields: [u64; 4]) -> Result<(), AllocError> {
    let [count, first, step, memsz] = fields;
    let mut vaddr = first;
    for _ in 0..count {
        program_header(file, [1, 0, vaddr, 0, memsz])?;
        vaddr = vaddr.wrapping_sub(step);
    }
    Ok(())
}

/// Adds equal section headers.
fn add_sections(file: &mut Vec<u8>, count: u64, fields: [u64; 5]) -> Result<(), AllocError> {
    for _ in 0..count {
        section_header(file, fields)?;
    }
    Ok(())
}

/// The number that the word with the index spells, and 0 where there is none.
fn number_at(words: &[&str], index: usize) -> u64 {
    match words.get(index) {
        Some(word) => number(word),
        None => 0,
    }
}

/// The first five numbers, and 0 for each that is not there.
fn five(words: &[&str]) -> [u64; 5] {
    [
        number_at(words, 0),
        number_at(words, 1),
        number_at(words, 2),
        number_at(words, 3),
        number_at(words, 4),
    ]
}

/// The first four numbers.
fn four(words: &[&str]) -> [u64; 4] {
    [
        number_at(words, 0),
        number_at(words, 1),
        number_at(words, 2),
        number_at(words, 3),
    ]
}

/// The numbers behind the first one.
fn behind_first(words: &[&str]) -> [u64; 5] {
    match words {
        [_, rest @ ..] => five(rest),
        [] => five(words),
    }
}

/// Adds what a line with so many numbers says, and says whether there is such a line.
fn added(first: &str, words: &[&str], file: &mut Vec<u8>) -> Result<bool, AllocError> {
    let done = match first {
        "program" => program_header(file, five(words)),
        "section" => section_header(file, five(words)),
        "symbol" => symbol(file, [number_at(words, 0), number_at(words, 1)]),
        "programs" => add_programs(file, four(words)),
        "sections" => add_sections(file, number_at(words, 0), behind_first(words)),
        _ => return Ok(false),
    };
    done.map(|_| true)
}

/// Takes a line that begins or changes a file, and says whether it is one.
pub fn built(
    alloc: Global,
    first: &str,
    words: &[&str],
    file: &mut Vec<u8>,
) -> Result<bool, AllocError> {
    let [one, other, _, _] = four(words);
    match first {
        "new" => file.clear(),
        "elf" => elf(file, four(words))?,
        "fill" => fill(alloc, file, byte(one), count(other))?,
        "byte" => change(file, count(one), byte(other)),
        "cut" => file.truncate(count(one)),
        _ => return added(first, words, file),
    }
    Ok(true)
}
