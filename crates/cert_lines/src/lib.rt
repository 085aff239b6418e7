//! Certificates as text, for the programs that run cases.
//!
//! A step is its literals, `:` and its hints; a certificate is its steps, each with a `;` behind it. A literal is `+` or `-` and
//! a bit: `TERM.LAYER.BIT`, or `T` for the bit that is always true. A hint is `t` for the truth, `g` for the goal, `f` and the
//! number of a fact, `s` and that of a step, or `TERM:PART:BIT:ROW`. A word that is none of these is passed over.
#![tactic(auto)]

use case_lines::number_32;
use clause_core::{BitName, Cert, CertFault, CertStep, Hint, Lit};
use lex_core::NoMemory;
use sqlite_items::Items;
use std::alloc::Global;

/// The bit that a word names.
fn bit_name(text: &str) -> Option<BitName> {
    if text == "T" {
        return Some(BitName::Truth);
    }
    let (term, rest) = text.split_once('.')?;
    let (layer, bit) = rest.split_once('.')?;
    Some(BitName::Bit {
        term: number_32(term)?,
        layer: number_32(layer)?,
        bit: number_32(bit)?,
    })
}

/// The literal that a word spells.
pub fn literal(word: &str) -> Option<Lit> {
    match word.strip_prefix('+') {
        Some(of) => Some(Lit {
            on: true,
            of: bit_name(of)?,
        }),
        None => Some(Lit {
            on: false,
            of: bit_name(word.strip_prefix('-')?)?,
        }),
    }
}

/// The row of a term that a word names.
fn axiom(word: &str) -> Option<Hint> {
    let (term, rest) = word.split_once(':')?;
    let (part, rest) = rest.split_once(':')?;
    let (bit, row) = rest.split_once(':')?;
    Some(Hint::Axiom {
        term: number_32(term)?,
        part: number_32(part)?,
        bit: number_32(bit)?,
        row: number_32(row)?,
    })
}

/// The clause's name that a word spells.
pub fn hint(word: &str) -> Option<Hint> {
    if word == "t" {
        Some(Hint::Truth)
    } else if word == "g" {
        Some(Hint::Goal)
    } else if let Some(number) = word.strip_prefix('f') {
        Some(Hint::Fact(number_32(number)?))
    } else if let Some(number) = word.strip_prefix('s') {
        Some(Hint::Step(number_32(number)?))
    } else {
        axiom(word)
    }
}

/// The step of these words, the `;` behind it left out.
fn step(alloc: Global, text: &str) -> Result<CertStep, NoMemory> {
    let mut clause = Items::new(alloc);
    let mut hints = Items::new(alloc);
    let mut behind = false;
    for word in text.split_whitespace() {
        if word == ":" {
            behind = true;
        } else if behind {
            if let Some(name) = hint(word) {
                hints.push(name)?;
            }
        } else if let Some(lit) = literal(word) {
            clause.push(lit)?;
        }
    }
    Ok(CertStep { clause, hints })
}

/// The certificate that a text spells.
pub fn certificate(alloc: Global, text: &str) -> Result<Cert, NoMemory> {
    let mut steps = Items::new(alloc);
    if let Some((front, _)) = text.rsplit_once(';') {
        for part in front.split(';') {
            steps.push(step(alloc, part)?)?;
        }
    }
    Ok(Cert { steps })
}

/// The literal as a word.
pub fn written(alloc: Global, lit: Lit) -> Result<String, NoMemory> {
    let sign = if lit.on { "+" } else { "-" };
    match lit.of {
        BitName::Truth => Ok(format!(in alloc; "{sign}T")?),
        BitName::Bit { term, layer, bit } => Ok(format!(in alloc; "{sign}{term}.{layer}.{bit}")?),
    }
}

/// What a check says.
pub fn said(alloc: Global, answer: Result<(), CertFault>) -> Result<String, NoMemory> {
    match answer {
        Ok(()) => Ok(String::from_str(alloc, "Ok")?),
        Err(CertFault::NotUnit { step, hint }) => {
            Ok(format!(in alloc; "NotUnit step {step} hint {hint}")?)
        }
        Err(CertFault::NoConflict { step }) => Ok(format!(in alloc; "NoConflict step {step}")?),
        Err(CertFault::NoSuch { step, hint }) => {
            Ok(format!(in alloc; "NoSuch step {step} hint {hint}")?)
        }
        Err(CertFault::NotEmpty) => Ok(String::from_str(alloc, "NotEmpty")?),
    }
}
