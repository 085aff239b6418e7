//! A token with its bytes and its place: the one word that every reader takes.

ghost use Rattle.std.specs.Prelude.{◌≡◌, ◌<◌, ◌^◌, IfSome, bytes_eq, true};
ghost use Rattle.std.specs.Option.{option_copied};
ghost use Rattle.lex_core.specs.Forms.{has_form};
ghost use Rattle.lex_core.specs.Values.{IsBits, literal_of, number_of, inside_of};

use crate::token::{Kind, Literal};
use crate::value::{bits, spelled};

/// A token of a text: its kind, its bytes, and how many bytes of the text stand before it.
#[derive(Clone, Copy, Debug)]
pub struct Lexeme<'a> {
    pub kind: Kind,
    pub text: &'a [u8],
    pub at: usize,
}

impl<'a> Lexeme<'a> {
    /// Whether it is this word or mark: its bytes are these.
    pub fn is(&self, word: &[u8]) -> bool
        ensures { result ≡ bytes_eq self.now.text.now word.now }
    {
        self.text == word
    }

    /// The bits of a hex or binary literal: four a hex digit, one a binary digit, the first of highest weight.
    /// `_` is passed over. None for a token of another kind.
    #[tactic(auto, unfolding(crate::specs::Values::literal_of))]
    pub fn literal(&self) -> Option<Literal>
        requires form { has_form self.now.kind self.now.text.now ≡ true }
        ensures value { result ≡ literal_of self.now.kind self.now.text.now }
        ensures fits { IfSome result IsBits }
    {
        match self.kind {
            Kind::Hex => Some(bits(16, 4, self.text)),
            Kind::Binary => Some(bits(2, 1, self.text)),
            _ => None,
        }
    }

    /// The number that a number's digits spell. None for a token of another kind.
    #[tactic(auto, unfolding(crate::specs::Values::number_of))]
    pub fn number(&self) -> Option<u32>
        requires form { has_form self.now.kind self.now.text.now ≡ true }
        ensures value { result ≡ number_of self.now.kind self.now.text.now }
        ensures small { IfSome result (λ n. n < 10 ^ 9) }
    {
        match self.kind {
            Kind::Number => Some(spelled(10, self.text) as u32),
            _ => None,
        }
    }

    /// The bytes between a text's quotes. None for a token of another kind.
    #[tactic(auto, using(crate::proofs::FormLemmas::quoted_long), unfolding(crate::specs::Values::inside_of))]
    pub fn inside(&self) -> Option<&'a [u8]>
        requires form { has_form self.now.kind self.now.text.now ≡ true }
        ensures { option_copied result ≡ inside_of self.now.kind self.now.text.now }
    {
        match self.kind {
            Kind::Text => Some(&self.text[1..self.text.len() - 1]),
            _ => None,
        }
    }
}
