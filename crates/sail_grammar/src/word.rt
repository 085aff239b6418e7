//! Words: what a token is to the grammar, and where it begins.

ghost use Rattle.std.specs.Prelude.{◌≡◌, true, IfOk};
ghost use Rattle.lex_core.specs.Forms.{has_form};
ghost use Rattle.lex_core.specs.Values.{inside_of, literal_of, number_of};
ghost use Rattle.sail_grammar.specs.Words as spec;
ghost use Rattle.sail_grammar.specs.Words.{no_sign, sign_of, sign_or, word_of};

use crate::keyword::{Keyword, keyword_of};
use crate::mark::{Mark, mark_of, operator_of};
use bv_bits::Bits;
use lex_core::{Kind, Lexeme, Literal, Name, NoMemory};
use sail_syntax::Infix;
use std::alloc::Global;

/// What a token is to the grammar.
#[derive(Debug, Drop)]
pub enum Sign {
    /// A quoted word.
    Keyword(Keyword),
    /// Any other name.
    Name(Name),
    /// A decimal number.
    Number(u32),
    /// A hex or binary literal.
    Literal(Bits),
    /// A text, without its quotes.
    Text(Name),
    /// An operator between operands.
    Operator(Infix),
    /// Any other mark.
    Mark(Mark),
}

/// A sign, and where its token begins, in bytes of the text.
#[derive(Debug, Drop)]
pub struct Word {
    pub sign: Sign,
    pub at: usize,
}

/// The sign of a name: a quoted word or another name.
fn of_name(alloc: Global, name: &[u8]) -> Result<Sign, NoMemory>
    ensures { IfOk result (λ s. s ≡ sign_of Kind.Name name.now) }
{
    match keyword_of(name) {
        Some(keyword) => Ok(Sign::Keyword(keyword)),
        None => Ok(Sign::Name(Name::of(alloc, name)?)),
    }
}

/// The sign of a mark.
fn of_mark(text: &[u8]) -> Sign
    ensures { result ≡ spec.mark_of text.now }
{
    match operator_of(text) {
        Some(operator) => Sign::Operator(operator),
        None => Sign::Mark(mark_of(text).unwrap_or(Mark::Other)),
    }
}

/// The sign of a number.
fn of_number(number: Option<u32>) -> Sign
    ensures { result ≡ sign_or Sign.Number no_sign number }
{
    match number {
        Some(number) => Sign::Number(number),
        None => Sign::Mark(Mark::Other),
    }
}

/// The sign of a literal.
fn of_literal(literal: Option<Literal>) -> Sign
    ensures { result ≡ sign_or (λ b. Sign.Literal (spec.as_bits b)) no_sign literal }
{
    match literal {
        Some(literal) => Sign::Literal(Bits {
            width: literal.width,
            value: literal.value,
        }),
        None => Sign::Mark(Mark::Other),
    }
}

/// The sign of a text in quotes.
#[tactic(auto, unfolding(lex_core::specs::Values::inside_of))]
fn of_text(alloc: Global, lexeme: Lexeme<'_>) -> Result<Sign, NoMemory>
    requires { has_form lexeme.kind lexeme.text.now ≡ true }
    ensures { IfOk result (λ s. s ≡ sign_or Sign.Text no_sign (inside_of lexeme.entry.kind lexeme.entry.text.now)) }
{
    match lexeme.inside() {
        Some(inside) => Ok(Sign::Text(Name::of(alloc, inside)?)),
        None => Ok(Sign::Mark(Mark::Other)),
    }
}

impl Word {
    /// The word that a token is.
    pub fn of(alloc: Global, lexeme: Lexeme<'_>) -> Result<Word, NoMemory>
        requires { has_form lexeme.kind lexeme.text.now ≡ true }
        ensures { IfOk result (λ w. w ≡ word_of lexeme.entry.kind lexeme.entry.text.now lexeme.entry.at) }
    {
        let sign = match lexeme.kind {
            Kind::Name => of_name(alloc, lexeme.text)?,
            Kind::Number => of_number(lexeme.number()),
            Kind::Hex | Kind::Binary => of_literal(lexeme.literal()),
            Kind::Text => of_text(alloc, lexeme)?,
            Kind::Mark => of_mark(lexeme.text),
        };
        Ok(Word {
            sign,
            at: lexeme.at,
        })
    }
}
