//! Marks: operators between operands, and others.

ghost use Rattle.std.specs.Prelude.{◌≡◌};
ghost use Rattle.sail_grammar.specs.Words.{looked_up, marks, operators};

use crate::table::look_up;
use sail_syntax::Infix;

/// A mark that isn't an operator between operands.
#[derive(Clone, Copy, Debug, PartialEq, Eq)]
pub enum Mark {
    /// `->`
    Arrow,
    /// `=>`
    FatArrow,
    /// `..`
    Dots,
    /// `(`
    Open,
    /// `)`
    Close,
    /// `[`
    OpenSquare,
    /// `]`
    CloseSquare,
    /// `{`
    OpenBrace,
    /// `}`
    CloseBrace,
    /// `,`
    Comma,
    /// `;`
    Semicolon,
    /// `:`
    Colon,
    /// `=`
    Equals,
    /// `~`
    Tilde,
    /// `.` or `?`, of which the grammar has no use.
    Other,
}

/// The operators between operands, as they are written.
const OPERATORS: [(&[u8], Infix); 9] = [
    (b"+", Infix::Add),
    (b"-", Infix::Sub),
    (b"*", Infix::Mul),
    (b"&", Infix::And),
    (b"|", Infix::Or),
    (b"^", Infix::Xor),
    (b"@", Infix::Join),
    (b"==", Infix::Eq),
    (b"!=", Infix::Ne),
];

/// The other marks, as they are written.
const MARKS: [(&[u8], Mark); 14] = [
    (b"->", Mark::Arrow),
    (b"=>", Mark::FatArrow),
    (b"..", Mark::Dots),
    (b"(", Mark::Open),
    (b")", Mark::Close),
    (b"[", Mark::OpenSquare),
    (b"]", Mark::CloseSquare),
    (b"{", Mark::OpenBrace),
    (b"}", Mark::CloseBrace),
    (b",", Mark::Comma),
    (b";", Mark::Semicolon),
    (b":", Mark::Colon),
    (b"=", Mark::Equals),
    (b"~", Mark::Tilde),
];

/// The operator that the mark is, if it is one.
#[tactic(auto, unfolding(crate::specs::Words::operators))]
pub fn operator_of(text: &[u8]) -> Option<Infix>
    ensures { result ≡ looked_up operators text.now }
{
    look_up(&OPERATORS, text)
}

/// The other mark that it is, if the grammar has a use of it.
#[tactic(auto, unfolding(crate::specs::Words::marks))]
pub fn mark_of(text: &[u8]) -> Option<Mark>
    ensures { result ≡ looked_up marks text.now }
{
    look_up(&MARKS, text)
}
