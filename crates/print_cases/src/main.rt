//! Reads the Sail text of each line, and prints its program again, or its fault.
//!
//! - `print TEXT` is the text.
//! - `body TEXT` is the body of a function, and what is told is its text and the newline behind it.
//! - `file NAME` is the text of a file of the data, and what is told stands on the lines behind it.
//!
//! What is printed is read and printed once more. Where that isn't the same, it is told behind `, then`. In texts `\n`, `\r`, `\t`,
//! `\\` and `\x` with two hexadecimal digits stand for one byte each. A line that begins with `#` is only printed again.
#![tactic(auto)]

mod telling;
mod texts;

use case_lines::{cut_word, is_comment, spelled};
use files_core::{Files, HostFiles};
use lex_core::NoMemory;
use std::alloc::Global;
use std::io;
use telling::told;
use texts::{file_text, function_text, line_text, without_head};

/// What is told, with escapes.
fn shown(alloc: Global, told: &[u8]) -> Result<String, NoMemory> {
    let told = spelled(alloc, told)?;
    Ok(format!(in alloc; " = {told}")?)
}

/// What is told behind a line.
fn case<F: Files>(alloc: Global, files: &mut F, line: &str) -> Result<String, NoMemory> {
    let (what, rest) = cut_word(line);
    if what == "file" {
        let text = file_text(alloc, files, rest)?;
        let told = told(alloc, &text)?;
        Ok(format!(in alloc; "\n{told}")?)
    } else if what == "body" {
        let text = function_text(alloc, rest)?;
        let told = told(alloc, &text)?;
        shown(alloc, without_head(told.as_bytes()))
    } else {
        let text = line_text(alloc, rest)?;
        let told = told(alloc, &text)?;
        shown(alloc, told.as_bytes())
    }
}

/// Prints a line and what is told of it.
fn tell<F: Files>(rt: &HostRuntime, files: &mut F, line: &str) -> io::Result<()> {
    if is_comment(line) {
        return println!(rt; "{line}");
    }
    match case(rt.alloc(), files, line) {
        Ok(told) => println!(rt; "{line}{told}"),
        Err(NoMemory) => println!(rt; "{line} = no memory"),
    }
}

fn main(rt: HostRuntime) -> io::Result<()> {
    let alloc = rt.alloc();
    let mut files = HostFiles::new(alloc, &rt);
    for line in rt.lines(alloc) {
        let line = line?;
        tell(&rt, &mut files, line.as_str())?;
    }
    Ok(())
}
