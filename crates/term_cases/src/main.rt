//! Reads a case a line, a word and the texts of terms, and prints the line and what comes of it. A line that begins with
//! `#` is printed as it is.
#![tactic(auto)]

mod changes;
mod places;
mod scope;
mod texts;

use case_lines::{cut_word, is_comment};
use changes::{replaced, replaced_array, replaced_index, selected};
use scope::fault_text;
use std::alloc::{AllocError, Global};
use std::io;
use term_read::TermReadFault;
use texts::{array_read, nested, parts, term_read, valued};

/// What comes of a case about one text.
fn of_text(alloc: Global, kind: &str, text: &[u8]) -> Result<String, TermReadFault> {
    if kind == "term" {
        term_read(alloc, text)
    } else if kind == "array" {
        array_read(alloc, text)
    } else if kind == "value" {
        valued(alloc, text)
    } else {
        parts(alloc, text)
    }
}

/// What comes of a case about variables that are replaced, or one text.
fn of_texts(alloc: Global, kind: &str, text: &[u8]) -> Result<String, TermReadFault> {
    if kind == "select" {
        selected(alloc, text)
    } else if kind == "replace" {
        replaced(alloc, text)
    } else if kind == "replace_array" {
        replaced_array(alloc, text)
    } else if kind == "index" {
        replaced_index(alloc, text)
    } else {
        of_text(alloc, kind, text)
    }
}

/// What comes of a case.
fn of_case(alloc: Global, kind: &str, text: &str) -> Result<String, TermReadFault> {
    if kind == "not" || kind == "neg" {
        nested(alloc, kind.as_bytes(), text)
    } else {
        of_texts(alloc, kind, text.as_bytes())
    }
}

/// What comes of a line.
fn told(alloc: Global, line: &str) -> Result<String, AllocError> {
    let (kind, text) = cut_word(line);
    match of_case(alloc, kind, text) {
        Ok(text) => Ok(text),
        Err(fault) => fault_text(alloc, fault),
    }
}

/// Prints a line and what comes of it.
fn tell(rt: &HostRuntime, line: &str) -> io::Result<()> {
    if is_comment(line) {
        println!(rt; "{line}")
    } else {
        let told = told(rt.alloc(), line)?;
        println!(rt; "{line} = {told}")
    }
}

fn main(rt: HostRuntime) -> io::Result<()> {
    for line in rt.lines(rt.alloc()) {
        let line = line?;
        tell(&rt, line.as_str())?;
    }
    Ok(())
}
