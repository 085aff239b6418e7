//! Files, bytes and numbers as words of a case.

ghost use Rattle.std.specs.Prelude.{◌≤◌};

use case_lines::{bytes_of, number_32, number_64};
use files_core::File;
use lex_core::{Name, NoMemory};
use std::alloc::{AllocError, Global};

/// The byte that a number spells.
fn byte_of(word: &str) -> u8 {
    u8::try_from(number_32(word).unwrap_or(0)).unwrap_or(0)
}

/// The bytes that a word spells: `N*BYTE` for N bytes of one value, any other word with escapes.
pub fn content(alloc: Global, word: &str) -> Result<Vec<u8>, AllocError> {
    match word.split_once('*') {
        Some((count, byte)) => vec![in alloc; byte_of(byte); count_of(count)],
        None => bytes_of(alloc, word),
    }
}

/// The files that the words `NAME=CONTENT` spell.
pub fn files_of(alloc: Global, words: &[&str]) -> Result<Vec<File>, NoMemory> {
    let mut files = Vec::new(alloc);
    for word in words {
        if let Some((name, bytes)) = word.split_once('=') {
            let name = Name::of(alloc, name.as_bytes())?;
            files.push(File::new(name, content(alloc, bytes)?))?;
        }
    }
    Ok(files)
}

/// The numbers between commas; `-` is none.
pub fn numbers_of(alloc: Global, word: &str) -> Result<Vec<u64>, NoMemory> {
    let mut numbers = Vec::new(alloc);
    for part in word.split(',') {
        if let Some(number) = number_64(part) {
            numbers.push(number)?;
        }
    }
    Ok(numbers)
}

/// How many bytes a write takes, at least one.
pub fn most_of(word: &str) -> usize
    ensures { 1 ≤ result }
{
    count_of(word).max(1)
}

/// A number of bytes.
pub fn count_of(word: &str) -> usize {
    usize::try_from(number_64(word).unwrap_or(0)).unwrap_or(0)
}
