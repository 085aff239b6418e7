//! What is left of a text to be read, and what is taken from its front.

ghost use Rattle.std.specs.Prelude.{◌≡◌, ◌≤◌, Ok, length};
ghost use Rattle.lex_core.specs.Lexing.{cut};

use crate::fault::{TraceFault, of_term};
use lex_core::Token;
use std::alloc::Global;
use term_read::read_term;
use term_tree::{Term, VarDecl, width};
use term_words::{Word, token_word};

/// A word, and how many bytes of the text stand before it.
#[derive(Clone, Copy)]
pub struct Placed<'a> {
    pub word: Word<'a>,
    pub at: usize,
}

/// What is left of a text to be read: its tokens from a number on.
#[derive(Clone, Copy)]
pub struct Rest<'a> {
    pub text: &'a [u8],
    pub tokens: &'a [Token],
    pub next: usize,
    ghost cutting: { cut text.now ≡ Ok tokens.now },
    ghost within: { next ≤ length tokens.now },
}

impl<'a> Rest<'a> {
    ghost use Rattle.std.specs.Prelude.{◌≡◌, ◌↔◌, [], IsTrue, IfOk};
    ghost use Rattle.term_tree.specs.View.{tree};
    ghost use Rattle.term_words.specs.WordView.{word_view, IsFineWord};
    ghost use Rattle.trace_plain.specs.Printable.{HasText};
    ghost use Rattle.trace_read.specs.Readers.{left, lexeme_of, Reads, IsPath};
    ghost use Rattle.trace_read.specs.Taking as spec;

    /// The next word, and what is left behind it.
    #[tactic(auto, unfolding(crate::specs::Taking::first))]
    pub fn first(self) -> Result<(Placed<'a>, Rest<'a>), TraceFault>
        ensures exact { Reads lexeme_of (spec.first (left self.entry)) result }
        ensures fine { IfOk result (λ x. IsFineWord (word_view x.0.word)) }
    {
        if self.next == self.tokens.len() {
            return Err(TraceFault::TraceForm {
                at: self.text.len(),
            });
        }
        let token = &self.tokens[self.next];
        let word = token_word(self.text, token);
        let behind = Rest {
            text: self.text,
            tokens: self.tokens,
            next: self.next + 1,
        };
        Ok((
            Placed {
                word,
                at: token.from,
            },
            behind,
        ))
    }

    /// The place of the next word, or the end of the text.
    pub fn place(self) -> usize
        ensures { result ≡ spec.place (left self.entry) }
    {
        if self.next == self.tokens.len() {
            self.text.len()
        } else {
            self.tokens[self.next].from
        }
    }

    /// Whether there is no next word.
    pub fn is_empty(self) -> bool
        ensures { IsTrue result ↔ ((left self.entry).words ≡ []) }
    {
        self.next == self.tokens.len()
    }

    /// A term over these variables.
    #[tactic(auto, using(crate::proofs::ScopeLemmas::path_distinct))]
    pub fn term(self, alloc: Global, scope: &[VarDecl]) -> Result<(Term, Rest<'a>), TraceFault>
        requires { IsPath scope.now }
        ensures exact { Reads tree (spec.term scope.now (left self.entry)) result }
        ensures text { IfOk result (λ x. HasText (tree x.0)) }
    {
        match read_term(alloc, self.text, self.tokens, self.next, scope) {
            Ok(found) => {
                let behind = Rest {
                    text: self.text,
                    tokens: self.tokens,
                    next: found.next,
                };
                Ok((found.term, behind))
            }
            Err(fault) => Err(of_term(fault)),
        }
    }

    /// A term of a width. Another width is a fault at its first word.
    #[tactic(auto, unfolding(crate::specs::Taking::term_of))]
    pub fn term_of(
        self,
        alloc: Global,
        scope: &[VarDecl],
        bits: u32,
    ) -> Result<(Term, Rest<'a>), TraceFault>
        requires { IsPath scope.now }
        ensures exact { Reads tree (spec.term_of scope.now bits (left self.entry)) result }
        ensures text { IfOk result (λ x. HasText (tree x.0)) }
    {
        let at = self.place();
        let (term, rest) = self.term(alloc, scope)?;
        if width(&term) != bits {
            return Err(TraceFault::WidthDiffers { at });
        }
        Ok((term, rest))
    }
}
