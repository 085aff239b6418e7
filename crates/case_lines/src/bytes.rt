//! Bytes as text of a line, with escapes, and back.

use crate::numbers::digit;
use std::alloc::{AllocError, Global};

/// What a byte of a text stands behind.
#[derive(Clone, Copy, Drop)]
enum Behind {
    Nothing,
    Slash,
    /// The `x` of an escape.
    Mark,
    /// The first digit of an escape.
    Digit(u8),
}

/// The byte that a letter stands for behind a `\`.
fn escape(letter: u8) -> u8 {
    match letter {
        b'n' => b'\n',
        b'r' => b'\r',
        b't' => b'\t',
        other => other,
    }
}

/// Where the byte leads, and the byte that ends with it, if one does.
fn step(behind: Behind, byte: u8) -> (Behind, Option<u8>) {
    match behind {
        Behind::Nothing if byte == b'\\' => (Behind::Slash, None),
        Behind::Nothing => (Behind::Nothing, Some(byte)),
        Behind::Slash if byte == b'x' => (Behind::Mark, None),
        Behind::Slash => (Behind::Nothing, Some(escape(byte))),
        Behind::Mark => (Behind::Digit(digit(byte).unwrap_or(0)), None),
        Behind::Digit(high) => (
            Behind::Nothing,
            Some((high << 4) | digit(byte).unwrap_or(0)),
        ),
    }
}

/// The bytes that a text spells: `\n`, `\r`, `\t`, `\\` and `\x` with two hexadecimal digits stand for one byte each, any
/// other byte for itself.
pub fn bytes_of(alloc: Global, text: &str) -> Result<Vec<u8>, AllocError> {
    let mut bytes = Vec::new(alloc);
    let mut behind = Behind::Nothing;
    for byte in text.as_bytes() {
        let (next, made) = step(behind, *byte);
        behind = next;
        if let Some(made) = made {
            bytes.push(made)?;
        }
    }
    Ok(bytes)
}

/// The bytes as `bytes_of` reads them, in printable ASCII alone.
pub fn spelled(alloc: Global, bytes: &[u8]) -> Result<String, AllocError> {
    let mut text = String::new(alloc);
    for byte in bytes {
        match *byte {
            b'\n' => text.push_str("\\n")?,
            b'\r' => text.push_str("\\r")?,
            b'\t' => text.push_str("\\t")?,
            b'\\' => text.push_str("\\\\")?,
            b' '..=b'~' => text.push(char::from(*byte))?,
            other => {
                let escape = format!(in alloc; "\\x{other:02x}")?;
                text.push_str(escape.as_str())?
            }
        }
    }
    Ok(text)
}

/// The bytes that pairs of hexadecimal digits spell. Any other byte between the digits is passed over.
pub fn hex_bytes(alloc: Global, digits: &str) -> Result<Vec<u8>, AllocError> {
    let mut bytes = Vec::new(alloc);
    let mut high = None;
    for byte in digits.as_bytes() {
        if let Some(value) = digit(*byte) {
            match high {
                None => high = Some(value),
                Some(first) => {
                    bytes.push((first << 4) | value)?;
                    high = None;
                }
            }
        }
    }
    Ok(bytes)
}
