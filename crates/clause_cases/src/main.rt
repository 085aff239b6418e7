//! Runs the cases of `clause_core` that standard input names, one a line, and prints each with its result.
//!
//! `name HINT LITERAL..` gives a clause its name, for the cases below it. `check CLAUSE | HINTS ; CLAUSE | HINTS ..` tells what
//! the check says of a certificate. `congruence P Q X Y PART BIT ROW INDEX` tells a literal of the clauses by which two bytes
//! at equal indices are equal. The README says how literals and hints are written.
#![tactic(auto)]

mod parsing;
mod table;

ghost use Rattle.std.specs.Prelude.{◌≡◌, ◌<◌, ◌^◌, true, All, length};
ghost use Rattle.clause_core.specs.Derivation.{IsNumbered};

use case_lines::{cut_word, is_comment};
use clause_core::{BitName, Cert, CertFault, Lit, Marks, check_cert, congruence_literal};
use lex_core::NoMemory;
use parsing::{certificate, numbers};
use std::alloc::Global;
use std::io;
use table::Table;

/// Whether the numbers of steps and hints fit.
fn is_numbered(cert: &Cert) -> bool
    ensures { result ≡ true → IsNumbered cert.now }
{
    let steps = cert.steps.as_slice();
    steps.len() < 100 && steps.iter().all(|step| step.hints.len() < 100)
}

/// What the check says.
fn said(alloc: Global, answer: Result<(), CertFault>) -> Result<String, NoMemory> {
    match answer {
        Ok(()) => Ok(String::from_str(alloc, "Ok")?),
        Err(fault) => Ok(format!(in alloc; "{fault:?}")?),
    }
}

/// What the check says of a certificate, twice with the same marks.
fn checked(alloc: Global, table: &Table, text: &str) -> Result<String, NoMemory> {
    let cert = certificate(alloc, text)?;
    if !is_numbered(&cert) {
        return Ok(String::from_str(alloc, "no such case")?);
    }
    let mut marks = Marks::for_cert(alloc, &cert)?;
    let first = said(alloc, check_cert(table, &cert, &mut marks))?;
    let second = said(alloc, check_cert(table, &cert, &mut marks))?;
    if first.as_str() == second.as_str() {
        Ok(first)
    } else {
        Ok(format!(in alloc; "{first}, then {second}")?)
    }
}

/// The literal as it is written.
fn written(alloc: Global, literal: Option<Lit>) -> Result<String, NoMemory> {
    let Some(lit) = literal else {
        return Ok(String::from_str(alloc, "none")?);
    };
    let sign = if lit.on { "+" } else { "-" };
    match lit.of {
        BitName::Truth => Ok(format!(in alloc; "{sign}t")?),
        BitName::Bit { term, layer, bit } => Ok(format!(in alloc; "{sign}{term}.{layer}.{bit}")?),
    }
}

/// A literal of a clause of congruence.
fn congruence(alloc: Global, text: &str) -> Result<String, NoMemory> {
    let numbers = numbers(alloc, text)?;
    match numbers.as_slice() {
        [p, q, x, y, part, bit, row, index] => {
            let found = congruence_literal(*p, *q, *x, *y, *part, *bit, *row, *index);
            written(alloc, found)
        }
        _ => Ok(String::from_str(alloc, "no such case")?),
    }
}

/// What the case comes to.
fn case(alloc: Global, table: &mut Table, line: &str) -> Result<String, NoMemory> {
    let (what, rest) = cut_word(line);
    if what == "name" {
        let known = table.name(rest);
        Ok(String::from_str(alloc, if known { "named" } else { "no such name" })?)
    } else if what == "check" {
        checked(alloc, table, rest)
    } else {
        congruence(alloc, rest)
    }
}

fn main(rt: HostRuntime) -> io::Result<()> {
    let alloc = rt.alloc();
    let mut table = Table::new();
    for line in rt.lines(alloc) {
        let line = line?;
        if is_comment(line.as_str()) {
            println!(rt; "{line}")?;
            continue;
        }
        match case(alloc, &mut table, line.as_str()) {
            Ok(told) => println!(rt; "{line} = {told}")?,
            Err(_) => println!(rt; "{line} = no memory")?,
        }
    }
    Ok(())
}
