//! Makes terms as each line of standard input asks, in a list of their own, and prints their numbers.
//!
//! A line is a command and its numbers; README.md says what each does. A line that begins with `#` is printed as it is.
#![tactic(auto)]

mod arrays;
mod replacing;
mod terms;

use crate::arrays::{joined, updated};
use crate::replacing::{
    byte_replaced, first_counts, shared, splice_replaced, swapped, update_replaced,
};
use crate::terms::{doubled_twice, literals, negated, stored};
use std::alloc::{AllocError, Global};
use std::io;
use term_arena::Terms;
use term_tree::TermFault;

/// The number that a word spells, and 0 where there is none.
fn number(word: Option<&str>) -> u32 {
    match word {
        Some(word) => word.parse::<u32>().unwrap_or(0),
        None => 0,
    }
}

/// What a command comes to.
fn told(alloc: Global, command: &str, a: u32, b: u32) -> Result<[u32; 3], TermFault> {
    let mut terms = Terms::new(alloc)?;
    match command {
        "double" => doubled_twice(alloc, &mut terms, a),
        "negate" => negated(alloc, &mut terms, a),
        "update" => updated(alloc, &mut terms, a, b),
        "splice" => joined(alloc, &mut terms, a, b),
        "sum" => stored(alloc, &mut terms),
        _ => told_replaced(alloc, &mut terms, command, a),
    }
}

/// What a command that replaces variables of a term comes to.
fn told_replaced(
    alloc: Global,
    terms: &mut Terms,
    command: &str,
    a: u32,
) -> Result<[u32; 3], TermFault> {
    match command {
        "swap" => swapped(alloc, terms),
        "first_counts" => first_counts(alloc, terms),
        "shared" => shared(alloc, terms, a),
        _ => told_array(alloc, terms, command, a),
    }
}

/// What a command that replaces array variables, or that interns literals, comes to.
fn told_array(
    alloc: Global,
    terms: &mut Terms,
    command: &str,
    a: u32,
) -> Result<[u32; 3], TermFault> {
    match command {
        "byte_of_update" => byte_replaced(alloc, terms, b"f", b"h"),
        "byte_of_variable" => byte_replaced(alloc, terms, b"k", b"f"),
        "in_update" => update_replaced(alloc, terms),
        "in_splice" => splice_replaced(alloc, terms),
        _ => literals(terms, a),
    }
}

/// What the case on this line comes to, as text.
fn case(alloc: Global, line: &str) -> Result<String, AllocError> {
    let mut words = line.split_whitespace();
    let command = words.next().unwrap_or("");
    let a = number(words.next());
    let b = number(words.next());
    match told(alloc, command, a, b) {
        Ok(numbers) => format!(in alloc; "{} {} {}", numbers[0], numbers[1], numbers[2]),
        Err(fault) => format!(in alloc; "{fault:?}"),
    }
}

fn main(rt: HostRuntime) -> io::Result<()> {
    let alloc = rt.alloc();
    for line in rt.lines(alloc) {
        let line = line?;
        if line.as_str().starts_with("#") {
            println!(rt; "{line}")?;
        } else {
            let told = case(alloc, line.as_str())?;
            println!(rt; "{line} = {told}")?;
        }
    }
    Ok(())
}
