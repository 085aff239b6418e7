//! The texts of the cases.

use case_lines::{bytes_of, cut_word, number_32};
use lex_core::NoMemory;
use std::alloc::Global;

/// Declarations that most cases stand behind.
const DECLARED: &str =
    "register PC : bits(64) register a : bits(8) register b : bits(8) register n : bits(4) register q : bits(1) enum e = { A, B } enum e2 = { C }";

/// The register and the function that a program needs to be run.
const RUN: &str = " function instr(op : bits(32)) -> unit = ()";

/// The declarations, a blank, and the text.
fn behind(alloc: Global, text: &str) -> Result<Vec<u8>, NoMemory> {
    let text = bytes_of(alloc, text)?;
    let mut all = DECLARED.as_bytes().to_vec(alloc)?;
    all.push(b' ')?;
    all.extend_from_slice(&text)?;
    Ok(all)
}

/// The function of this number, which calls the one in front of it.
fn caller(alloc: Global, number: u32) -> Result<String, NoMemory> {
    let called = number.saturating_sub(1);
    Ok(format!(in alloc; " function f{number}() -> unit = f{called}()")?)
}

/// So many functions, each of which calls the one in front of it.
fn calls(alloc: Global, count: u32) -> Result<Vec<u8>, NoMemory> {
    let mut text = b"register PC : bits(64) function f1() -> unit = ()".to_vec(alloc)?;
    for number in 2..count.saturating_add(1) {
        let function = caller(alloc, number)?;
        text.extend_from_slice(function.as_bytes())?;
    }
    text.extend_from_slice(RUN.as_bytes())?;
    Ok(text)
}

/// The text of a case.
pub fn text_of(alloc: Global, line: &str) -> Result<Vec<u8>, NoMemory> {
    let (case, rest) = cut_word(line);
    if case == "more" {
        return behind(alloc, rest);
    }
    if case == "calls" {
        return calls(alloc, number_32(rest).unwrap_or(0));
    }
    Ok(bytes_of(alloc, rest)?)
}
