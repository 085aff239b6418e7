//! Loads images that are built line by line, and prints what is found in them.
//!
//! These lines build a file; numbers are decimal, or hexadecimal behind `0x`:
//!
//! - `new` begins an empty file. `elf PHOFF PHNUM SHOFF SHNUM` begins one with the ELF header of a RISC-V executable.
//! - `program TYPE OFFSET VADDR FILESZ MEMSZ`, `section TYPE OFFSET SIZE LINK ENTSIZE`, `symbol NAME VALUE` add a program
//!   header, a section header, a symbol; `programs COUNT VADDR STEP MEMSZ` so many program headers of loaded segments, each
//!   STEP below the one before; `sections COUNT TYPE OFFSET SIZE LINK ENTSIZE` so many equal section headers.
//! - `bytes HEX` and `text TEXT` add bytes, `fill BYTE COUNT` so many equal ones. `byte AT BYTE` changes one, `cut COUNT` leaves so many.
//!
//! These lines load the file as it is then, and say what is found:
//!
//! - `load`: whether it is an image, or its first refusal.
//! - `number ADDRESS COUNT`: the number in so many bytes. `find NAME`: the value of the first symbol of the name.
//!
//! A line that begins with `#` is only printed again.
#![tactic(auto)]

mod building;
mod fields;
mod questions;

use case_lines::{cut_word, is_comment, words};
use std::alloc::{AllocError, Global};
use std::io;

/// What is told of a line, which changes the file or asks about it.
fn case(alloc: Global, line: &str, file: &mut Vec<u8>) -> Result<String, AllocError> {
    if is_comment(line) {
        return Ok(String::new(alloc));
    }
    let (first, rest) = cut_word(line);
    if building::text(alloc, first, rest, file)? {
        return Ok(String::new(alloc));
    }
    let numbers = words(alloc, rest)?;
    if building::built(alloc, first, &numbers, file)? {
        return Ok(String::new(alloc));
    }
    questions::told(alloc, first, rest, file)
}

fn main(rt: HostRuntime) -> io::Result<()> {
    let alloc = rt.alloc();
    let mut file = Vec::new(alloc);
    for line in rt.lines(alloc) {
        let line = line?;
        match case(alloc, line.as_str(), &mut file) {
            Ok(told) => println!(rt; "{line}{told}")?,
            Err(_) => println!(rt; "{line} = no memory")?,
        }
    }
    Ok(())
}
