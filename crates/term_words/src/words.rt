//! The tokens of a text as words of terms, the words of operators, and scopes.

ghost use Rattle.std.specs.Prelude.{◌≡◌, true, map, IfSome};
ghost use Rattle.lex_core.specs.Forms.{has_form, IsTokenOf, bytes_of};
ghost use Rattle.lex_core.specs.Values.{IsBits as IsLiteralBits};
ghost use Rattle.term_print.specs.Words as spec;
ghost use Rattle.term_words.specs.WordView.{word_view, IsFineWord};
ghost use Rattle.term_print.specs.Words.{word_of};
ghost use Rattle.term_words.specs.Operators.{arity as arity_of, operator_in, operator_of};
ghost use Rattle.term_words.specs.Scopes.{sort_of as sort_in};

use bv_bits::{Bits, Op};
use lex_core::{Kind, Lexeme, Literal, Token};
use term_tree::{Sort, VarDecl};

/// What a token is in a term.
#[derive(Clone, Copy)]
pub enum Word<'a> {
    /// `(`
    Open,
    /// `)`
    Close,
    /// A name, as its bytes.
    Name(&'a [u8]),
    /// A number in decimal digits.
    Number(u32),
    /// A hex or binary literal.
    Literal(Bits),
    /// Anything else.
    Other,
}

/// A token of a text as a word.
pub fn token_word<'a>(text: &'a [u8], token: &Token) -> Word<'a>
    requires { IsTokenOf text.now token.now }
    ensures value { word_view result ≡ word_of token.now.kind (bytes_of text.now token.now) }
    ensures fine { IsFineWord (word_view result) }
{
    lexeme_word(token.lexeme(text))
}

/// A token with its bytes as a word.
fn lexeme_word<'a>(lexeme: Lexeme<'a>) -> Word<'a>
    requires { has_form lexeme.kind lexeme.text.now ≡ true }
    ensures value { word_view result ≡ word_of lexeme.entry.kind lexeme.entry.text.now }
    ensures fine { IsFineWord (word_view result) }
{
    match lexeme.kind {
        Kind::Name => Word::Name(lexeme.text),
        Kind::Number => of_number(lexeme.number()),
        Kind::Hex | Kind::Binary => of_literal(lexeme.literal()),
        Kind::Text => Word::Other,
        Kind::Mark => of_mark(lexeme.text),
    }
}

/// A mark as a word.
fn of_mark<'a>(bytes: &[u8]) -> Word<'a>
    ensures value { word_view result ≡ spec.mark_word bytes.now }
    ensures fine { IsFineWord (word_view result) }
{
    if bytes == b"(".as_slice() {
        Word::Open
    } else if bytes == b")".as_slice() {
        Word::Close
    } else {
        Word::Other
    }
}

/// A number as a word.
fn of_number<'a>(number: Option<u32>) -> Word<'a>
    ensures value { word_view result ≡ spec.number_word number }
    ensures fine { IsFineWord (word_view result) }
{
    match number {
        Some(number) => Word::Number(number),
        None => Word::Other,
    }
}

/// A literal as a word.
fn of_literal<'a>(literal: Option<Literal>) -> Word<'a>
    requires { IfSome literal IsLiteralBits }
    ensures value { word_view result ≡ spec.literal_word literal }
    ensures fine { IsFineWord (word_view result) }
{
    match literal {
        Some(literal) => Word::Literal(Bits {
            width: literal.width,
            value: literal.value,
        }),
        None => Word::Other,
    }
}

/// The words of the operators without numbers.
const OPERATORS: [(&[u8], Op); 24] = [
    (b"not", Op::Not),
    (b"neg", Op::Neg),
    (b"and", Op::And),
    (b"or", Op::Or),
    (b"xor", Op::Xor),
    (b"imp", Op::Imp),
    (b"add", Op::Add),
    (b"sub", Op::Sub),
    (b"mul", Op::Mul),
    (b"shl", Op::Shl),
    (b"lshr", Op::LShr),
    (b"ashr", Op::AShr),
    (b"eq", Op::Eq),
    (b"ne", Op::Ne),
    (b"ult", Op::ULt),
    (b"ule", Op::ULe),
    (b"ugt", Op::UGt),
    (b"uge", Op::UGe),
    (b"slt", Op::SLt),
    (b"sle", Op::SLe),
    (b"sgt", Op::SGt),
    (b"sge", Op::SGe),
    (b"concat", Op::Concat),
    (b"ite", Op::Ite),
];

/// The operator that a word stands for in a list.
fn operator_in(operators: &[(&[u8], Op)], word: &[u8]) -> Option<Op>
    ensures { result ≡ operator_in (map (λ p. (p.0.now, p.1)) operators.now) word.now }
{
    for (own, op) in operators {
        if word == *own {
            return Some(*op);
        }
    }
    None
}

/// The operator without numbers of a word.
#[tactic(auto, unfolding(crate::specs::Operators::operator_of))]
pub fn operator(word: &[u8]) -> Option<Op>
    ensures { result ≡ operator_of word.now }
{
    operator_in(&OPERATORS, word)
}

/// How many arguments an operator has.
pub fn arity(op: Op) -> usize
    ensures { result ≡ arity_of op }
{
    match op {
        Op::Not
        | Op::Neg
        | Op::Extract { hi: _, lo: _ }
        | Op::ZExt { to: _ }
        | Op::SExt { to: _ } => 1,
        Op::Ite => 3,
        _ => 2,
    }
}

/// The sort of the first variable of a name.
pub fn sort_of(scope: &[VarDecl], name: &[u8]) -> Option<Sort>
    ensures { result ≡ sort_in scope.now name.now }
{
    for decl in scope {
        if decl.name.is(name) {
            return Some(decl.sort);
        }
    }
    None
}
