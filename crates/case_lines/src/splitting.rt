//! The words of a line.

use std::alloc::{AllocError, Global};

/// Whether the line is a comment, which a driver prints back as it is.
pub fn is_comment(line: &str) -> bool {
    line.starts_with('#')
}

/// The words of the line, between blanks.
pub fn words<'a>(alloc: Global, line: &'a str) -> Result<Vec<&'a str>, AllocError> {
    let mut words = Vec::new(alloc);
    for word in line.split_whitespace() {
        words.push(word)?;
    }
    Ok(words)
}

/// What stands before the first space, and what stands behind it. Without a space that is the whole line, and nothing.
pub fn cut_word<'a>(line: &'a str) -> (&'a str, &'a str) {
    match line.split_once(' ') {
        Some(parts) => parts,
        None => (line, ""),
    }
}
