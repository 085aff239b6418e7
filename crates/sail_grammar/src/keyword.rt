//! The words that the grammar quotes.

ghost use Rattle.std.specs.Prelude.{◌≡◌};
ghost use Rattle.sail_grammar.specs.Words.{keywords, looked_up};

use crate::table::look_up;

/// A word that the grammar quotes; none of them is a name.
#[derive(Clone, Copy, Debug, PartialEq, Eq)]
pub enum Keyword {
    Default,
    Order,
    Dec,
    Register,
    Enum,
    Val,
    Function,
    Bits,
    Bool,
    Unit,
    If,
    Then,
    Else,
    Match,
    Foreach,
    From,
    To,
    With,
    True,
    False,
    ZeroExtend,
    SignExtend,
    Assert,
    Exit,
    Let,
    Var,
    /// `_`
    Wildcard,
}

/// The quoted words, as they are written.
const KEYWORDS: [(&[u8], Keyword); 27] = [
    (b"default", Keyword::Default),
    (b"Order", Keyword::Order),
    (b"dec", Keyword::Dec),
    (b"register", Keyword::Register),
    (b"enum", Keyword::Enum),
    (b"val", Keyword::Val),
    (b"function", Keyword::Function),
    (b"bits", Keyword::Bits),
    (b"bool", Keyword::Bool),
    (b"unit", Keyword::Unit),
    (b"if", Keyword::If),
    (b"then", Keyword::Then),
    (b"else", Keyword::Else),
    (b"match", Keyword::Match),
    (b"foreach", Keyword::Foreach),
    (b"from", Keyword::From),
    (b"to", Keyword::To),
    (b"with", Keyword::With),
    (b"true", Keyword::True),
    (b"false", Keyword::False),
    (b"zero_extend", Keyword::ZeroExtend),
    (b"sign_extend", Keyword::SignExtend),
    (b"assert", Keyword::Assert),
    (b"exit", Keyword::Exit),
    (b"let", Keyword::Let),
    (b"var", Keyword::Var),
    (b"_", Keyword::Wildcard),
];

/// The quoted word that the name is, if it is one.
#[tactic(auto, unfolding(crate::specs::Words::keywords))]
pub fn keyword_of(name: &[u8]) -> Option<Keyword>
    ensures { result ≡ looked_up keywords name.now }
{
    look_up(&KEYWORDS, name)
}
