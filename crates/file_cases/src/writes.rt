//! Writes of a case, in turn: `all/TEXT` writes a whole text, `one/TEXT` one piece.

use crate::parsing::content;
use files_core::{OutFault, Sink, write_all};
use lex_core::NoMemory;
use std::alloc::Global;

/// What the write of one piece comes to.
fn one<S: Sink>(alloc: Global, sink: &mut S, text: &[u8]) -> Result<String, NoMemory> {
    let answer = sink.write(text);
    Ok(format!(in alloc; "{answer:?}")?)
}

/// What the write of a whole text comes to.
fn all<S: Sink>(alloc: Global, sink: &mut S, text: &[u8]) -> Result<String, NoMemory> {
    match write_all(sink, text) {
        Ok(()) => Ok(String::from_str(alloc, "Ok")?),
        Err(OutFault::NoMemory) => Err(NoMemory),
        Err(fault) => Ok(format!(in alloc; "{fault:?}")?),
    }
}

/// What one write comes to.
fn write<S: Sink>(alloc: Global, sink: &mut S, asked: &str) -> Result<String, NoMemory> {
    let (what, text) = asked.split_once('/').unwrap_or((asked, ""));
    let text = content(alloc, text)?;
    if what == "one" {
        one(alloc, sink, &text)
    } else {
        all(alloc, sink, &text)
    }
}

/// What the writes come to, in turn.
pub fn writes<S: Sink>(alloc: Global, sink: &mut S, asked: &str) -> Result<String, NoMemory> {
    let mut told = String::new(alloc);
    for word in asked.split_whitespace() {
        let one = write(alloc, sink, word)?;
        told.push_str(one.as_str())?;
        told.push_str(" ")?;
    }
    Ok(told)
}
