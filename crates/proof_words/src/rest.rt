//! The tokens of a text that are left to read, and what stands at their front.

ghost use Rattle.std.specs.Prelude.{◌≡◌, ◌<◌, All, IfSome, is_some, bytes_eq, length};
ghost use Rattle.std.specs.List.{list_any, position_from};
ghost use Rattle.bv_bits.specs.Bits.{IsBits};
ghost use Rattle.std.specs.Option.{option_copied, option_map};
ghost use Rattle.lex_core.specs.Forms.{IsTokenOf, bytes_of};
ghost use Rattle.proof_words.specs.ProofFormWords as words;
ghost use Rattle.proof_words.specs.ProofFormWords.{lexeme, lexemes, is_close};

use bv_bits::Bits;
use lex_core::{Kind, NoMemory, Token};
use std::alloc::AllocError;

/// Why reading ends early.
#[derive(Clone, Copy)]
pub enum Stop {
    /// The text isn't of the form.
    Outside,
    /// Want of memory.
    NoMemory,
}

impl From<NoMemory> for Stop {
    ghost use Rattle.std.specs.Prelude.{◌≡◌};
    ghost use Rattle.proof_words.specs.declared.rest.Stop.TheVariants as stop;

    ghost from_gives = { λ _ e. e ≡ stop.NoMemory };

    fn from(_error: NoMemory) -> Stop {
        Stop::NoMemory
    }
}

impl From<AllocError> for Stop {
    ghost use Rattle.std.specs.Prelude.{◌≡◌};
    ghost use Rattle.proof_words.specs.declared.rest.Stop.TheVariants as stop;

    ghost from_gives = { λ _ e. e ≡ stop.NoMemory };

    fn from(_error: AllocError) -> Stop {
        Stop::NoMemory
    }
}

/// A name's bytes.
fn name<'a>(text: &'a [u8], token: &Token) -> Option<&'a [u8]>
    requires { IsTokenOf text.now token.now }
    ensures { option_copied result ≡ words.name_of token.now.kind (bytes_of text.now token.now) }
{
    match token.kind {
        Kind::Name => Some(token.bytes(text)),
        _ => None,
    }
}

/// Whether it is the name of these bytes.
pub fn is_word(text: &[u8], token: &Token, word: &[u8]) -> bool
    requires { IsTokenOf text.now token.now }
    ensures { result ≡ is_some (words.the_name word.now token.now.kind (bytes_of text.now token.now)) }
{
    match name(text, token) {
        Some(name) => name == word,
        None => false,
    }
}

/// A mark's bytes.
fn mark<'a>(text: &'a [u8], token: &Token) -> Option<&'a [u8]>
    requires { IsTokenOf text.now token.now }
    ensures { option_copied result ≡ words.mark_of token.now.kind (bytes_of text.now token.now) }
{
    match token.kind {
        Kind::Mark => Some(token.bytes(text)),
        _ => None,
    }
}

/// A literal's bits.
fn literal(text: &[u8], token: &Token) -> Option<Bits>
    requires { IsTokenOf text.now token.now }
    ensures value { result ≡ words.literal_of token.now.kind (bytes_of text.now token.now) }
    ensures fits { IfSome result IsBits }
{
    match token.literal(text) {
        Some(literal) => Some(Bits {
            width: literal.width,
            value: literal.value,
        }),
        None => None,
    }
}

/// A hex literal's bits.
fn hex(text: &[u8], token: &Token) -> Option<Bits>
    requires { IsTokenOf text.now token.now }
    ensures value { result ≡ words.hex_of token.now.kind (bytes_of text.now token.now) }
    ensures fits { IfSome result IsBits }
{
    match token.kind {
        Kind::Hex => literal(text, token),
        _ => None,
    }
}

/// Whether it is `}`.
fn is_close(text: &[u8], token: &Token) -> bool
    requires { IsTokenOf text.now token.now }
    ensures { result ≡ words.is_close (lexeme text.now token.now) }
{
    match mark(text, token) {
        Some(mark) => mark == b"}".as_slice(),
        None => false,
    }
}

/// The names that the grammar of proof files keeps to itself.
const QUOTED: [&[u8]; 33] = [
    b"islaris_proof",
    b"device",
    b"range",
    b"states",
    b"read",
    b"write",
    b"when",
    b"to",
    b"spec",
    b"fix",
    b"assume",
    b"given",
    b"code",
    b"exit",
    b"block",
    b"exists",
    b"array",
    b"at",
    b"fact",
    b"reg",
    b"mem",
    b"arr",
    b"dev",
    b"steps",
    b"use",
    b"keep",
    b"prove",
    b"dead",
    b"drop",
    b"trace",
    b"sample",
    b"answers",
    b"T",
];

/// Whether the name is one of the words.
fn is_any(name: &[u8], words: &[&[u8]]) -> bool
    ensures { result ≡ list_any (λ word. bytes_eq name.now word.now) words.now }
{
    for word in words {
        if name == *word {
            return true;
        }
    }
    false
}

/// Whether a specification, an exit or a block may have this name.
#[tactic(auto, unfolding(crate::specs::ProofFormWords::is_free, crate::specs::ProofFormWords::quoted))]
fn is_free(name: &[u8]) -> bool
    ensures { result ≡ words.is_free name.now }
{
    match name {
        [b'_', ..] => false,
        _ => !is_any(name, &QUOTED),
    }
}

/// The place of the first `}`.
fn close_place(text: &[u8], tokens: &[Token]) -> Option<usize>
    requires { All (IsTokenOf text.now) tokens.now }
    ensures value { result ≡ position_from is_close 0 (lexemes text.now tokens.now) }
    ensures within { IfSome result (λ place. place < length tokens.now) }
{
    for (place, token) in tokens.iter().enumerate() {
        if is_close(text, token) {
            return Some(place);
        }
    }
    None
}

/// The tokens of a text that are left to read.
#[derive(Clone, Copy)]
pub struct Rest<'a> {
    pub text: &'a [u8],
    pub tokens: &'a [Token],
    ghost whole: { All (IsTokenOf text.now) tokens.now },
}

impl<'a> Rest<'a> {
    ghost use Rattle.std.specs.Prelude.{◌≡◌, All, IfOk};
    ghost use Rattle.bv_bits.specs.Bits.{IsBits};
    ghost use Rattle.lex_core.specs.Forms.{IsTokenOf};
    ghost use Rattle.proof_words.specs.ProofFormWords as words;
    ghost use Rattle.proof_words.specs.ProofFormTaking as spec;
    ghost use Rattle.proof_words.specs.ProofFormReaders.{Gives, left};

    /// All tokens of a text.
    pub fn new(text: &'a [u8], tokens: &'a [Token]) -> Rest<'a>
        requires { All (IsTokenOf text.now) tokens.now }
        ensures text { result.text.now ≡ text.now }
        ensures tokens { result.tokens.now ≡ tokens.now }
    {
        Rest { text, tokens }
    }

    /// The first token, and the others.
    #[tactic(auto, using(crate::proofs::ProofFormLemmas::behind_first))]
    fn first(self) -> Result<(Token, Rest<'a>), Stop>
        ensures token { IfOk result (λ x. IsTokenOf self.entry.text.now x.0) }
        ensures value { Gives (λ x. (lexeme self.entry.text.now x.0, left x.1)) result (spec.first (left self.entry)) }
    {
        match self.tokens {
            [token, tokens @ ..] => {
                let text = self.text;
                Ok((*token, Rest { text, tokens }))
            }
            [] => Err(Stop::Outside),
        }
    }

    /// A name.
    #[tactic(auto, unfolding(crate::specs::ProofFormTaking::one))]
    pub fn name(self) -> Result<(&'a [u8], Rest<'a>), Stop>
        ensures { Gives (λ x. (x.0.now, left x.1)) result (spec.one words.name_of (left self.entry)) }
    {
        let (token, rest) = self.first()?;
        match name(self.text, &token) {
            Some(name) => Ok((name, rest)),
            None => Err(Stop::Outside),
        }
    }

    /// A name that a specification, an exit or a block may have.
    #[tactic(auto, unfolding(crate::specs::ProofFormTaking::one))]
    pub fn free_name(self) -> Result<(&'a [u8], Rest<'a>), Stop>
        ensures { Gives (λ x. (x.0.now, left x.1)) result (spec.one words.free_name_of (left self.entry)) }
    {
        let (name, rest) = self.name()?;
        if is_free(name) {
            Ok((name, rest))
        } else {
            Err(Stop::Outside)
        }
    }

    /// Passes over the name of these bytes.
    #[tactic(auto, unfolding(crate::specs::ProofFormTaking::one, crate::specs::ProofFormTaking::over))]
    pub fn word(self, word: &[u8]) -> Result<Rest<'a>, Stop>
        ensures { Gives left result (spec.word word.now (left self.entry)) }
    {
        let (name, rest) = self.name()?;
        if name == word {
            Ok(rest)
        } else {
            Err(Stop::Outside)
        }
    }

    /// Passes over the mark of these bytes.
    #[tactic(auto, unfolding(crate::specs::ProofFormTaking::one, crate::specs::ProofFormTaking::over))]
    pub fn mark(self, own: &[u8]) -> Result<Rest<'a>, Stop>
        ensures { Gives left result (spec.mark own.now (left self.entry)) }
    {
        let (token, rest) = self.first()?;
        match mark(self.text, &token) {
            Some(mark) if mark == own => Ok(rest),
            _ => Err(Stop::Outside),
        }
    }

    /// Passes over the version, 1.
    #[tactic(auto, unfolding(crate::specs::ProofFormTaking::one, crate::specs::ProofFormTaking::over))]
    pub fn version(self) -> Result<Rest<'a>, Stop>
        ensures { Gives left result (spec.over words.the_version (left self.entry)) }
    {
        let (token, rest) = self.first()?;
        match token.number(self.text) {
            Some(1) => Ok(rest),
            _ => Err(Stop::Outside),
        }
    }

    /// A literal.
    #[tactic(auto, unfolding(crate::specs::ProofFormTaking::one))]
    pub fn literal(self) -> Result<(Bits, Rest<'a>), Stop>
        ensures exact { Gives (λ x. (x.0, left x.1)) result (spec.one words.literal_of (left self.entry)) }
        ensures fits { IfOk result (λ x. IsBits x.0) }
    {
        let (token, rest) = self.first()?;
        match literal(self.text, &token) {
            Some(bits) => Ok((bits, rest)),
            None => Err(Stop::Outside),
        }
    }

    /// An address.
    #[tactic(auto, using(crate::proofs::ProofFormLemmas::narrow), unfolding(crate::specs::ProofFormTaking::one))]
    pub fn address(self) -> Result<(u64, Rest<'a>), Stop>
        ensures { Gives (λ x. (x.0, left x.1)) result (spec.one words.address_of (left self.entry)) }
    {
        let (token, rest) = self.first()?;
        match hex(self.text, &token) {
            Some(bits) if bits.width <= 64 => Ok((bits.value as u64, rest)),
            _ => Err(Stop::Outside),
        }
    }

    /// An address in full.
    #[tactic(auto, using(crate::proofs::ProofFormLemmas::narrow), unfolding(crate::specs::ProofFormTaking::one))]
    pub fn full_address(self) -> Result<(u64, Rest<'a>), Stop>
        ensures { Gives (λ x. (x.0, left x.1)) result (spec.one words.full_address_of (left self.entry)) }
    {
        let (token, rest) = self.first()?;
        match hex(self.text, &token) {
            Some(bits) if bits.width == 64 => Ok((bits.value as u64, rest)),
            _ => Err(Stop::Outside),
        }
    }

    /// What stands before the first `}`, and what stands behind it.
    #[tactic(auto, unfolding(crate::specs::ProofFormTaking::up_to_close))]
    pub fn up_to_close(self) -> Result<(Rest<'a>, Rest<'a>), Stop>
        ensures { Gives (λ x. (left x.0, left x.1)) result (spec.up_to_close (left self.entry)) }
    {
        let text = self.text;
        match close_place(text, self.tokens) {
            Some(place) => {
                let (tokens, _) = self.tokens.split_at(place);
                let before = Rest { text, tokens };
                let (_, tokens) = self.tokens.split_at(place + 1);
                Ok((before, Rest { text, tokens }))
            }
            None => Err(Stop::Outside),
        }
    }
}
