//! Runs the cases of `term_axioms` that standard input names, one a line, and prints each with its result.
//!
//! `check FACT => FACT => .. => GOAL ; CERTIFICATE` tells what is said of a certificate over facts and a goal; `double N CERTIFICATE` does so
//! where the goal is that a variable of 64 bits, doubled N times, is equal to itself. The README says which variables there are.
#![tactic(auto)]

mod goals;
mod terms;

use case_lines::{cut_word, is_comment, number_32};
use cert_lines::said;
use goals::{checked, doubled};
use lex_core::NoMemory;
use std::alloc::Global;
use std::io;
use term_axioms::GoalFault;

/// What a check of a goal says.
fn told(alloc: Global, answer: Result<(), GoalFault>) -> Result<String, NoMemory> {
    match answer {
        Ok(()) => said(alloc, Ok(())),
        Err(GoalFault::Refused(fault)) => said(alloc, Err(fault)),
        Err(GoalFault::NoMemory) => Err(NoMemory),
    }
}

/// What the case comes to.
fn case(alloc: Global, line: &str) -> Result<String, NoMemory> {
    let (what, rest) = cut_word(line);
    let answer = if what == "check" {
        checked(alloc, rest)
    } else {
        let (times, text) = cut_word(rest);
        doubled(alloc, number_32(times).unwrap_or(0), text)
    };
    match answer {
        Some(answer) => told(alloc, answer),
        None => Ok(String::from_str(alloc, "no such case")?),
    }
}

fn main(rt: HostRuntime) -> io::Result<()> {
    let alloc = rt.alloc();
    for line in rt.lines(alloc) {
        let line = line?;
        if is_comment(line.as_str()) {
            println!(rt; "{line}")?;
            continue;
        }
        match case(alloc, line.as_str()) {
            Ok(told) => println!(rt; "{line} = {told}")?,
            Err(_) => println!(rt; "{line} = no memory")?,
        }
    }
    Ok(())
}
