//! The texts of the cases.

use case_lines::bytes_of;
use files_core::{Files, InFault, read_all};
use lex_core::NoMemory;
use std::alloc::Global;

/// No file of the data is longer.
const LONGEST: u64 = 65536;

/// What stands in front of a body, as it is printed.
const HEAD: &[u8] = b"function f ( ) -> unit = ";

/// The text with escapes.
pub fn line_text(alloc: Global, text: &str) -> Result<Vec<u8>, NoMemory> {
    Ok(bytes_of(alloc, text)?)
}

/// A function whose body is the text with escapes.
pub fn function_text(alloc: Global, body: &str) -> Result<Vec<u8>, NoMemory> {
    let body = bytes_of(alloc, body)?;
    let mut text = HEAD.to_vec(alloc)?;
    text.extend_from_slice(&body)?;
    Ok(text)
}

/// What stands behind the head of a function; another text as it is.
pub fn without_head(text: &[u8]) -> &[u8] {
    match text.strip_prefix(HEAD) {
        Some(body) => body,
        None => text,
    }
}

/// The text of a file of the data, empty where it can't be read.
pub fn file_text<F: Files>(alloc: Global, files: &mut F, name: &str) -> Result<Vec<u8>, NoMemory> {
    match read_all(alloc, files, name, LONGEST) {
        Ok(text) => Ok(text),
        Err(InFault::NoMemory) => Err(NoMemory),
        Err(_) => Ok(Vec::new(alloc)),
    }
}
