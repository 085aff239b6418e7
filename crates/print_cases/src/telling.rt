//! What is told of a text.

use lex_core::NoMemory;
use sail_reader::SailFault;
use sail_reprint::reprint;
use std::alloc::Global;

/// A fault and its place.
fn fault_text(alloc: Global, fault: SailFault) -> Result<String, NoMemory> {
    match fault {
        SailFault::NoMemory => Err(NoMemory),
        fault => Ok(format!(in alloc; "{fault:?}")?),
    }
}

/// What is printed, and where that isn't printed again of itself, what is.
fn again(alloc: Global, once: String) -> Result<String, NoMemory> {
    let twice = match reprint(alloc, once.as_bytes()) {
        Ok(twice) => twice,
        Err(fault) => fault_text(alloc, fault)?,
    };
    if twice.as_str() == once.as_str() {
        Ok(once)
    } else {
        Ok(format!(in alloc; "{once}, then {twice}")?)
    }
}

/// What is printed of the text's program, or its fault.
pub fn told(alloc: Global, text: &[u8]) -> Result<String, NoMemory> {
    match reprint(alloc, text) {
        Ok(once) => again(alloc, once),
        Err(fault) => fault_text(alloc, fault),
    }
}
