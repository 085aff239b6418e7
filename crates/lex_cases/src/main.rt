//! Runs the cases of `lex_core` that standard input names, one a line, and prints each with its result.
//!
//! `cut TEXT` tells the tokens of a text with their values, or its first fault; `first TEXT` the bytes of its first token and
//! those between its quotes; `is TEXT WORD` whether its first token is the word; `name BYTES OTHER` the bytes of a copied name,
//! and whether they are the others. Texts have escapes.
#![tactic(auto)]

ghost use Rattle.std.specs.Prelude.{IfOk, IfSome};
ghost use Rattle.lex_core.specs.Forms.{IsTokenOf};

use case_lines::{bytes_of, cut_word, is_comment, spelled, words};
use lex_core::{LexFault, Name, Token, tokens};
use std::alloc::Global;
use std::io;

/// The token, its place and its value.
fn told(alloc: Global, token: &Token, text: &[u8]) -> Result<String, LexFault>
    requires { IsTokenOf text.now token.now }
{
    if let Some(bits) = token.literal(text) {
        return Ok(format!(in alloc;
            "{:?} {}..{} = {} {:#x}",
            token.kind, token.from, token.to, bits.width, bits.value
        )?);
    }
    if let Some(number) = token.number(text) {
        return Ok(format!(in alloc; "{:?} {}..{} = {number}", token.kind, token.from, token.to)?);
    }
    Ok(format!(in alloc; "{:?} {}..{}", token.kind, token.from, token.to)?)
}

/// The tokens of the text.
fn cut(alloc: Global, text: &[u8]) -> Result<String, LexFault> {
    let found = tokens(alloc, text)?;
    let mut all = String::new(alloc);
    for token in found.as_slice() {
        let one = told(alloc, token, text)?;
        all.push_str(" ")?;
        all.push_str(one.as_str())?;
    }
    Ok(all)
}

/// The text's first token, if there is one.
fn first_token(alloc: Global, text: &[u8]) -> Result<Option<Token>, LexFault>
    ensures { IfOk result (λ t. IfSome t (IsTokenOf text.now)) }
{
    let found = tokens(alloc, text)?;
    Ok(found.as_slice().first().copied())
}

/// The bytes of the first token, and those between its quotes.
fn first(alloc: Global, text: &[u8]) -> Result<String, LexFault> {
    let Some(token) = first_token(alloc, text)? else {
        return Ok(String::from_str(alloc, " none")?);
    };
    let bytes = spelled(alloc, token.bytes(text))?;
    match token.inside(text) {
        Some(inside) => {
            let inside = spelled(alloc, inside)?;
            Ok(format!(in alloc; " {bytes} inside {inside}")?)
        }
        None => Ok(format!(in alloc; " {bytes}")?),
    }
}

/// Whether the first token of the text is the word.
fn is_first(alloc: Global, text: &[u8], word: &[u8]) -> Result<String, LexFault> {
    let is = match first_token(alloc, text)? {
        Some(token) => token.is(text, word),
        None => false,
    };
    Ok(format!(in alloc; " {is}")?)
}

/// The bytes of a copied name, and whether they are the others.
fn name(alloc: Global, bytes: &[u8], other: &[u8]) -> Result<String, LexFault> {
    let name = Name::of(alloc, bytes)?;
    let copy = name.copy(alloc)?;
    let bytes = spelled(alloc, copy.bytes())?;
    let is = copy.is(other);
    Ok(format!(in alloc; " {bytes} {is}")?)
}

/// What a case of two byte texts comes to.
fn pair(alloc: Global, what: &str, rest: &str) -> Result<String, LexFault> {
    let parts = words(alloc, rest)?;
    let [one, other] = parts.as_slice() else {
        return Ok(String::from_str(alloc, " no such case")?);
    };
    let one = bytes_of(alloc, one)?;
    let other = bytes_of(alloc, other)?;
    if what == "is" {
        is_first(alloc, one.as_slice(), other.as_slice())
    } else {
        name(alloc, one.as_slice(), other.as_slice())
    }
}

/// What the case on this line comes to.
fn case(alloc: Global, line: &str) -> Result<String, LexFault> {
    let (what, rest) = cut_word(line);
    if what == "cut" {
        let text = bytes_of(alloc, rest)?;
        cut(alloc, text.as_slice())
    } else if what == "first" {
        let text = bytes_of(alloc, rest)?;
        first(alloc, text.as_slice())
    } else {
        pair(alloc, what, rest)
    }
}

fn main(rt: HostRuntime) -> io::Result<()> {
    let alloc = rt.alloc();
    for line in rt.lines(alloc) {
        let line = line?;
        if is_comment(line.as_str()) {
            println!(rt; "{line}")?;
            continue;
        }
        match case(alloc, line.as_str()) {
            Ok(told) => println!(rt; "{line} ={told}")?,
            Err(fault) => println!(rt; "{line} = {fault:?}")?,
        }
    }
    Ok(())
}
