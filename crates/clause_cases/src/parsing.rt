//! Literals, hints and certificates as text.

use case_lines::number_32;
use clause_core::{BitName, Cert, CertStep, Hint, Lit};
use lex_core::NoMemory;
use sqlite_items::Items;
use std::alloc::Global;

/// The bit that `TERM.LAYER.BIT` or `t` names.
fn bit_name(text: &str) -> Option<BitName> {
    if text == "t" {
        return Some(BitName::Truth);
    }
    let (term, rest) = text.split_once('.')?;
    let (layer, bit) = rest.split_once('.')?;
    Some(BitName::Bit {
        term: number_32(term)?,
        layer: number_32(layer)?,
        bit: number_32(bit)?,
    })
}

/// The literal that `+` or `-` and a bit spell.
pub fn literal(word: &str) -> Option<Lit> {
    match word.strip_prefix('+') {
        Some(of) => Some(Lit {
            on: true,
            of: bit_name(of)?,
        }),
        None => Some(Lit {
            on: false,
            of: bit_name(word.strip_prefix('-')?)?,
        }),
    }
}

/// The row of a term that `TERM:PART:BIT:ROW` names.
fn axiom(word: &str) -> Option<Hint> {
    let (term, rest) = word.split_once(':')?;
    let (part, rest) = rest.split_once(':')?;
    let (bit, row) = rest.split_once(':')?;
    Some(Hint::Axiom {
        term: number_32(term)?,
        part: number_32(part)?,
        bit: number_32(bit)?,
        row: number_32(row)?,
    })
}

/// The clause's name that a word spells.
pub fn hint(word: &str) -> Option<Hint> {
    if word == "truth" {
        Some(Hint::Truth)
    } else if word == "goal" {
        Some(Hint::Goal)
    } else if let Some(number) = word.strip_prefix("fact/") {
        Some(Hint::Fact(number_32(number)?))
    } else if let Some(number) = word.strip_prefix("step/") {
        Some(Hint::Step(number_32(number)?))
    } else {
        axiom(word)
    }
}

/// A step: its literals, `|`, and its hints.
fn step(alloc: Global, text: &str) -> Result<CertStep, NoMemory> {
    let (clause, names) = text.split_once('|').unwrap_or((text, ""));
    let mut lits = Items::new(alloc);
    for word in clause.split_whitespace() {
        if let Some(lit) = literal(word) {
            lits.push(lit)?;
        }
    }
    let mut hints = Items::new(alloc);
    for word in names.split_whitespace() {
        if let Some(name) = hint(word) {
            hints.push(name)?;
        }
    }
    Ok(CertStep {
        clause: lits,
        hints,
    })
}

/// A certificate: its steps, with `;` between them. No text has no step.
pub fn certificate(alloc: Global, text: &str) -> Result<Cert, NoMemory> {
    let mut steps = Items::new(alloc);
    if !text.is_empty() {
        for part in text.split(';') {
            steps.push(step(alloc, part)?)?;
        }
    }
    Ok(Cert { steps })
}

/// The numbers between blanks.
pub fn numbers(alloc: Global, text: &str) -> Result<Vec<u32>, NoMemory> {
    let mut numbers = Vec::new(alloc);
    for word in text.split_whitespace() {
        if let Some(number) = number_32(word) {
            numbers.push(number)?;
        }
    }
    Ok(numbers)
}
