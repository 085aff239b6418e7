//! Runs the cases of `bv_bits` and `gate_tables` that standard input names, one a line, and prints each with its result.
//!
//! `width OP WIDTH..` tells the width of the result; `apply OP WIDTH:VALUE..` the result; `rows GATE` the signs of each row of
//! a gate; `holds GATE BITS` whether its rows hold at the places' values. `extract` has two numbers behind it, `zext` and
//! `sext` one. Nothing is told of arguments that the operator doesn't take.
#![tactic(auto)]

mod gates;
mod operators;
mod values;

use case_lines::{is_comment, words};
use std::alloc::{AllocError, Global};
use std::io;

/// What the case on this line comes to.
fn case(alloc: Global, line: &str) -> Result<String, AllocError> {
    let words = words(alloc, line)?;
    match words.as_slice() {
        [what, gate, rest @ ..] if *what == "rows" => gates::rows(alloc, gate, rest),
        [what, gate, rest @ ..] if *what == "holds" => gates::holds(alloc, gate, rest),
        [what, op, rest @ ..] if *what == "width" => values::width(alloc, op, rest),
        [what, op, rest @ ..] if *what == "apply" => values::applied(alloc, op, rest),
        _ => String::from_str(alloc, "no such case"),
    }
}

fn main(rt: HostRuntime) -> io::Result<()> {
    let alloc = rt.alloc();
    for line in rt.lines(alloc) {
        let line = line?;
        if is_comment(line.as_str()) {
            println!(rt; "{line}")?;
        } else {
            let told = case(alloc, line.as_str())?;
            println!(rt; "{line} = {told}")?;
        }
    }
    Ok(())
}
