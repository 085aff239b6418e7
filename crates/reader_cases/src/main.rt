//! Reads the Sail text of each line, and prints the definitions of its program, or its fault.
//!
//! - `read TEXT` reads the text.
//! - `nest COUNT LEFT MIDDLE RIGHT` reads a function whose body is so many times the left text, the middle one, and so many times the
//!   right one.
//! - `many COUNT PIECE TEXT` reads so many times the piece, and the text.
//!
//! In texts `\n`, `\r`, `\t`, `\\` and `\x` with two hexadecimal digits stand for one byte each. A line that begins with `#` is only
//! printed again.
#![tactic(auto)]

mod definitions;
mod expressions;
mod texts;
mod words;

use case_lines::is_comment;
use definitions::told;
use std::alloc::{AllocError, Global};
use std::io;
use texts::text_of;

/// What is told of a line.
fn case(alloc: Global, line: &str) -> Result<String, AllocError> {
    let text = text_of(alloc, line)?;
    told(alloc, text.as_slice())
}

/// Prints a line and what is told of it.
fn tell(rt: &HostRuntime, line: &str) -> io::Result<()> {
    if is_comment(line) {
        println!(rt; "{line}")
    } else {
        let told = case(rt.alloc(), line)?;
        println!(rt; "{line} ={told}")
    }
}

fn main(rt: HostRuntime) -> io::Result<()> {
    let alloc = rt.alloc();
    for line in rt.lines(alloc) {
        let line = line?;
        tell(&rt, line.as_str())?;
    }
    Ok(())
}
