//! Tests of words, and of what comes next.

ghost use Rattle.std.specs.Prelude.{◌≡◌};
ghost use Rattle.sail_machine.specs.Headers.{is_sign};
ghost use Rattle.sail_machine.specs.Signs as spec;
ghost use Rattle.sail_machine.specs.Turns.{next_operator};
ghost use Rattle.sail_frames.specs.View.{next_of};

use sail_grammar::{Keyword, Mark, Sign, Word};
use sail_syntax::Infix;

/// Whether a sign is this quoted word.
pub fn is_keyword(word: Keyword, sign: &Sign) -> bool
    ensures { result ≡ spec.is_keyword word sign.now }
{
    match sign {
        Sign::Keyword(own) => word as u8 == *own as u8,
        _ => false,
    }
}

/// Whether a sign is this mark.
pub fn is_mark(mark: Mark, sign: &Sign) -> bool
    ensures { result ≡ spec.is_mark mark sign.now }
{
    match sign {
        Sign::Mark(own) => mark as u8 == *own as u8,
        _ => false,
    }
}

/// Whether two operators are the same.
pub fn same_infix(one: Infix, two: Infix) -> bool
    ensures { result ≡ spec.same_infix one two }
{
    one as u8 == two as u8
}

/// Whether a sign is this operator.
pub fn is_operator(operator: Infix, sign: &Sign) -> bool
    ensures { result ≡ spec.is_operator operator sign.now }
{
    match sign {
        Sign::Operator(own) => same_infix(operator, *own),
        _ => false,
    }
}

/// Whether a sign is the fixed one, a quoted word or a mark.
pub fn is_sign(fixed: &Sign, sign: &Sign) -> bool
    ensures { result ≡ is_sign fixed.now sign.now }
{
    match fixed {
        Sign::Keyword(word) => is_keyword(*word, sign),
        Sign::Mark(mark) => is_mark(*mark, sign),
        _ => false,
    }
}

/// What comes behind an expression: a word, or the end of the text; and its place.
#[derive(Clone, Copy, Drop)]
pub struct Next<'a> {
    pub sign: Option<&'a Sign>,
    pub at: usize,
}

impl<'a> Next<'a> {
    /// A word.
    pub fn word(word: &'a Word) -> Next<'a>
        ensures { next_of result ≡ spec.next_word word.now }
    {
        Next {
            sign: Some(&word.sign),
            at: word.at,
        }
    }

    /// The end of the text.
    pub fn end(at: usize) -> Next<'a>
        ensures { next_of result ≡ spec.at_end at }
    {
        Next { sign: None, at }
    }

    /// Whether this quoted word comes next.
    pub fn meets_keyword(&self, word: Keyword) -> bool
        ensures { result ≡ spec.meets_keyword word (next_of self.now) }
    {
        match self.sign {
            Some(sign) => is_keyword(word, sign),
            None => false,
        }
    }

    /// Whether this mark comes next.
    pub fn meets(&self, mark: Mark) -> bool
        ensures { result ≡ spec.meets mark (next_of self.now) }
    {
        match self.sign {
            Some(sign) => is_mark(mark, sign),
            None => false,
        }
    }

    /// The operator that comes next, if one does.
    pub fn operator(&self) -> Option<Infix>
        ensures { result ≡ next_operator (next_of self.now).sign }
    {
        match self.sign {
            Some(Sign::Operator(operator)) => Some(*operator),
            _ => None,
        }
    }
}
