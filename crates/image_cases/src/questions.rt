//! Lines that ask about a file.

ghost use Rattle.std.specs.Prelude.{◌≤◌};

use case_lines::{bytes_of, cut_word, number_32, number_64};
use elf_image::{Image, ImageFault, load};
use std::alloc::{AllocError, Global};

/// What is told of a line that asks about an image.
fn found(alloc: Global, first: &str, rest: &str, image: &Image) -> Result<String, AllocError> {
    match first {
        "load" => String::from_str(alloc, " = image"),
        "find" => {
            let name = bytes_of(alloc, rest)?;
            match image.symbol(&name) {
                Some(value) => format!(in alloc; " = {value}"),
                None => String::from_str(alloc, " = none"),
            }
        }
        "number" => {
            let (at, count) = cut_word(rest);
            let at = number_64(at).unwrap_or(0);
            let count = number_32(count).unwrap_or(0).min(16);
            match image.bytes_at(at, count) {
                Some(number) => format!(in alloc; " = {number:#x}"),
                None => String::from_str(alloc, " = none"),
            }
        }
        _ => String::from_str(alloc, " = no such case"),
    }
}

/// What is told of a line that asks about a file.
pub fn told(alloc: Global, first: &str, rest: &str, file: &[u8]) -> Result<String, AllocError> {
    match load(alloc, file) {
        Ok(image) => found(alloc, first, rest, &image),
        Err(ImageFault::NoMemory) => Err(AllocError),
        Err(fault) => format!(in alloc; " = {fault:?}"),
    }
}
