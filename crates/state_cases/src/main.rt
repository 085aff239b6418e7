//! Reads and writes registers and memory line by line, and prints the answers.
//!
//! Numbers are decimal, or hexadecimal behind `0x`. A line `new` begins a memory without bytes, without devices, with no
//! answer and an empty log. The other lines are of it:
//!
//! - `bytes ADDRESS HEX` adds bytes, `device LOW HIGH` a device from LOW up to below HIGH, `answer NUMBER` an answer.
//! - `read ADDRESS COUNT` and `write ADDRESS COUNT NUMBER` read and write the state itself; `fetch`, `load` and `store`, with the
//!   same words, are the accesses of a program; a store is of two bytes.
//! - `accesses`, `events` and `taken` print the log, and how many answers were taken.
//!
//! A line `registers NUMBER` is of a state of its own, with registers of 64, 1 and 128 bits: what they hold at first, and
//! when the number was written to the first one. A line that begins with `#` is only printed again.
#![tactic(auto)]

mod memory;
mod registers;

use case_lines::{is_comment, words};
use memory::Machine;
use std::alloc::{AllocError, Global};
use std::io;

/// What is told of a line.
fn case(alloc: Global, machine: &mut Machine, line: &str) -> Result<String, AllocError> {
    let words = words(alloc, line)?;
    match words.as_slice() {
        ["registers", number] => registers::told(alloc, number),
        words => machine.told(alloc, words),
    }
}

/// Prints a line and what is told of it.
fn tell(rt: &HostRuntime, machine: &mut Machine, line: &str) -> io::Result<()> {
    if is_comment(line) {
        println!(rt; "{line}")
    } else {
        let told = case(rt.alloc(), machine, line)?;
        println!(rt; "{line}{told}")
    }
}

fn main(rt: HostRuntime) -> io::Result<()> {
    let alloc = rt.alloc();
    let mut machine = Machine::new(alloc)?;
    for line in rt.lines(alloc) {
        let line = line?;
        tell(&rt, &mut machine, line.as_str())?;
    }
    Ok(())
}
