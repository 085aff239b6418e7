//! What is assumed of a register: its name, `=`, and a literal.

ghost use Rattle.std.specs.Prelude.{◌≡◌, ◌<◌, length, true, false, IfOk, IfSome, Some, None, option_map};
ghost use Rattle.std.specs.List.{position};
ghost use Rattle.bv_bits.specs.Bits.{IsBits};
ghost use Rattle.lex_core.specs.declared.token.Kind.{Kind};
ghost use Rattle.lex_core.specs.Forms.{has_form};
ghost use Rattle.lex_core.specs.Lexing.{is_want};
ghost use Rattle.trace_words.specs.Given.{given_of, given_said, is_equals, is_register_name as is_register_name_of, literal_alone, only as only_of};

use bv_bits::Bits;
use lex_core::{Kind, LexFault, Lexeme, NoMemory, Token, tokens};
use sail_grammar::{Sign, Word};
use std::alloc::Global;

/// What is assumed of a register.
#[derive(Clone, Copy, Debug)]
pub struct Given<'a> {
    /// The register's name.
    pub name: &'a [u8],
    /// Its value, with the width that is written.
    pub bits: Bits,
}

/// The kind of the only token, where it begins at 0 and ends at the place.
fn only(found: &[Token], to: usize) -> Option<Kind>
    ensures { result ≡ only_of found.now to }
{
    match found {
        [token] if token.from == 0 && token.to == to => Some(token.kind),
        _ => None,
    }
}

/// No token, where a text can't be cut for another reason than want of memory.
fn uncut(fault: LexFault) -> Result<Option<Kind>, NoMemory>
    ensures { IfOk result (λ o. (is_want fault ≡ false) × (o ≡ None)) }
{
    match fault {
        LexFault::NoMemory => Err(NoMemory),
        _ => Ok(None),
    }
}

/// The kind of the one token that the text is from its first byte to its last; none where it is none.
fn alone(alloc: Global, text: &[u8]) -> Result<Option<Kind>, NoMemory>
    ensures form { IfOk result (λ o. IfSome o (λ k. has_form k text.now ≡ true)) }
    ensures each { IfOk result (λ o. (k : Kind) → has_form k text.now ≡ true → o ≡ Some k) }
{
    match tokens(alloc, text) {
        Ok(found) => Ok(only(&found, text.len())),
        Err(fault) => uncut(fault),
    }
}

/// Whether the text is a name of the Sail language: a name token that is no quoted word.
fn is_register_name(alloc: Global, text: &[u8]) -> Result<bool, NoMemory>
    ensures { IfOk result (λ b. b ≡ is_register_name_of text.now) }
{
    let Some(Kind::Name) = alone(alloc, text)? else {
        return Ok(false);
    };
    let name = Lexeme {
        kind: Kind::Name,
        text,
        at: 0,
    };
    let word = Word::of(alloc, name)?;
    Ok(matches!(word.sign, Sign::Name(_)))
}

/// The bits of the one literal token that the text is, if it is one.
fn literal(alloc: Global, text: &[u8]) -> Result<Option<Bits>, NoMemory>
    ensures value { IfOk result (λ o. o ≡ literal_alone text.now) }
    ensures fits { IfOk result (λ o. IfSome o IsBits) }
{
    let Some(kind) = alone(alloc, text)? else {
        return Ok(None);
    };
    let token = Lexeme { kind, text, at: 0 };
    match token.literal() {
        Some(literal) => Ok(Some(Bits {
            width: literal.width,
            value: literal.value,
        })),
        None => Ok(None),
    }
}

/// The place of the first `=`.
fn equals_at(text: &[u8]) -> Option<usize>
    ensures value { result ≡ position is_equals text.now }
    ensures within { IfSome result (λ i. i < length text.now) }
{
    text.iter().position(|byte| *byte == b'=')
}

/// What the word assumes of a register: a name of the Sail language, `=`, and a literal of 1 to 128 bits, which is cut
/// at its first `=`. None for any other word, one with a quoted word of the language in place of the name too.
pub fn read_given<'a>(alloc: Global, text: &'a [u8]) -> Result<Option<Given<'a>>, NoMemory>
    ensures value { IfOk result (λ o. option_map given_said o ≡ given_of text.now) }
    ensures fits { IfOk result (λ o. IfSome o (λ g. IsBits g.bits)) }
{
    let Some(at) = equals_at(text) else {
        return Ok(None);
    };
    let name = &text[..at];
    if !is_register_name(alloc, name)? {
        return Ok(None);
    }
    match literal(alloc, &text[at + 1..])? {
        Some(bits) => Ok(Some(Given { name, bits })),
        None => Ok(None),
    }
}
