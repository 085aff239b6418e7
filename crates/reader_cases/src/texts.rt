//! The texts of the cases.

use case_lines::{bytes_of, cut_word, number_32};
use std::alloc::{AllocError, Global};

/// What stands in front of the body of the function of `nest`.
const HEAD: &str = "function f() -> unit = ";

/// Adds what the piece spells so many times.
fn add(alloc: Global, text: &mut Vec<u8>, count: u32, piece: &str) -> Result<(), AllocError> {
    let piece = bytes_of(alloc, piece)?;
    for _ in 0..count {
        text.extend_from_slice(piece.as_slice())?;
    }
    Ok(())
}

/// Adds a function whose body is so many times the first word, the second one, and so many times what stands behind them.
fn nest(alloc: Global, text: &mut Vec<u8>, count: u32, pieces: &str) -> Result<(), AllocError> {
    let (left, rest) = cut_word(pieces);
    let (middle, right) = cut_word(rest);
    add(alloc, text, 1, HEAD)?;
    add(alloc, text, count, left)?;
    add(alloc, text, 1, middle)?;
    add(alloc, text, count, right)
}

/// Adds so many times the first word, and what stands behind it.
fn many(alloc: Global, text: &mut Vec<u8>, count: u32, pieces: &str) -> Result<(), AllocError> {
    let (piece, rest) = cut_word(pieces);
    add(alloc, text, count, piece)?;
    add(alloc, text, 1, rest)
}

/// Adds the text of a case.
fn add_text(alloc: Global, text: &mut Vec<u8>, line: &str) -> Result<(), AllocError> {
    let (case, rest) = cut_word(line);
    if case == "read" {
        return add(alloc, text, 1, rest);
    }
    let (count, pieces) = cut_word(rest);
    let count = number_32(count).unwrap_or(0);
    if case == "nest" {
        nest(alloc, text, count, pieces)
    } else {
        many(alloc, text, count, pieces)
    }
}

/// The text of a case.
pub fn text_of(alloc: Global, line: &str) -> Result<Vec<u8>, AllocError> {
    let mut text = Vec::new(alloc);
    add_text(alloc, &mut text, line)?;
    Ok(text)
}
