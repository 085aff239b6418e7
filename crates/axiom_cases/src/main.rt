//! Runs the cases of `axiom_clauses` that standard input names, one a line, and prints each with its result.
//!
//! `terms` begins with no subterm, `sub WIDTH NODE` puts one behind the others, `fact TERM` and `goal TERM` name facts and the goal.
//! `part TERM PART` prints the clauses of a part, `check CERTIFICATE` what the check says of a certificate. The README says how
//! nodes are written.
#![tactic(auto)]

mod listed;
mod nodes;
mod typing;

ghost use Rattle.std.specs.Prelude.{◌≡◌, ◌<◌, ◌^◌, true, All, length};
ghost use Rattle.clause_core.specs.Derivation.{IsNumbered};

use axiom_clauses::Numbered;
use case_lines::{cut_word, is_comment, number_32};
use cert_lines::{certificate, said, written};
use clause_core::{Cert, Clauses, Hint, Marks, check_cert};
use lex_core::NoMemory;
use listed::Listed;
use std::alloc::Global;
use std::io;

/// The bits and the rows of a part that are asked for: more than there are.
const BITS: u32 = 66;

const ROWS: u32 = 9;

/// Whether the numbers of steps and hints fit.
fn is_numbered(cert: &Cert) -> bool
    ensures { result ≡ true → IsNumbered cert.now }
{
    let steps = cert.steps.as_slice();
    steps.len() < 1_000_000 && steps.iter().all(|step| step.hints.len() < 1_000_000)
}

/// What the check says of a certificate.
fn checked(alloc: Global, clauses: &Numbered, text: &str) -> Result<String, NoMemory> {
    let cert = certificate(alloc, text)?;
    if !is_numbered(&cert) {
        return Ok(String::from_str(alloc, "no such case")?);
    }
    let mut marks = Marks::for_cert(alloc, &cert)?;
    said(alloc, check_cert(clauses, &cert, &mut marks))
}

/// Puts the clause of a name behind a text, its literals behind the bit and the row, if there is one.
fn put_clause(
    alloc: Global,
    clauses: &Numbered,
    name: Hint,
    place: &str,
    text: &mut String,
) -> Result<(), NoMemory> {
    let Some(length) = clauses.length(name) else {
        return Ok(());
    };
    text.push_str(place)?;
    for index in 0..length {
        if let Some(lit) = clauses.literal(name, index) {
            text.push_str(" ")?;
            text.push_str(written(alloc, lit)?.as_str())?;
        }
    }
    if clauses.literal(name, length).is_some() {
        text.push_str(" and more")?;
    }
    Ok(())
}

/// The clauses of a part.
fn part(alloc: Global, clauses: &Numbered, term: u32, part: u32) -> Result<String, NoMemory> {
    let mut text = String::new(alloc);
    for bit in 0..BITS {
        for row in 0..ROWS {
            let name = Hint::Axiom {
                term,
                part,
                bit,
                row,
            };
            let place = format!(in alloc; " {bit}:{row}")?;
            put_clause(alloc, clauses, name, place.as_str(), &mut text)?;
        }
    }
    if text.is_empty() {
        text.push_str(" none")?;
    }
    Ok(text)
}

/// What a case about the clauses comes to.
fn asked(alloc: Global, listed: &Listed, what: &str, rest: &str) -> Result<String, NoMemory> {
    let Some(clauses) = listed.numbered(alloc)? else {
        return Ok(String::from_str(alloc, " not typed")?);
    };
    if what == "check" {
        let told = checked(alloc, &clauses, rest)?;
        return Ok(format!(in alloc; " {told}")?);
    }
    let (term, number) = cut_word(rest);
    match (number_32(term), number_32(number)) {
        (Some(term), Some(number)) => part(alloc, &clauses, term, number),
        _ => Ok(String::from_str(alloc, " no such case")?),
    }
}

/// What the case comes to.
fn case(alloc: Global, listed: &mut Listed, line: &str) -> Result<String, NoMemory> {
    let (what, rest) = cut_word(line);
    if what == "part" || what == "check" {
        return asked(alloc, listed, what, rest);
    }
    let known = listed.change(alloc, what, rest)?;
    Ok(String::from_str(alloc, if known { " listed" } else { " no such case" })?)
}

fn main(rt: HostRuntime) -> io::Result<()> {
    let alloc = rt.alloc();
    let mut listed = Listed::new(alloc);
    for line in rt.lines(alloc) {
        let line = line?;
        if is_comment(line.as_str()) {
            println!(rt; "{line}")?;
            continue;
        }
        match case(alloc, &mut listed, line.as_str()) {
            Ok(told) => println!(rt; "{line} ={told}")?,
            Err(_) => println!(rt; "{line} = no memory")?,
        }
    }
    Ok(())
}
