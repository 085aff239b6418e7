//! The spelling of an instruction word.

ghost use Rattle.std.specs.Prelude.{◌≡◌, IfSome, drop};
ghost use Rattle.std.specs.Option.{option_copied};
ghost use Rattle.std.specs.Str.Parse.{digits_value};
ghost use Rattle.std.specs.Char.{is_ascii_hexdigit};
ghost use Rattle.std.specs.List.{list_all};
ghost use Rattle.state_core.specs.Word.{IsWord};
ghost use Rattle.trace_words.specs.Opcode.{behind_0x as behind_0x_of, opcode_of, word_bytes as bytes_of, IsHexWord};

use lex_core::{Kind, Lexeme};
use state_core::Word;

/// How many bytes a word of so many hexadecimal digits has: four of eight digits, two of four.
fn word_bytes(digits: usize) -> Option<u32>
    ensures { result ≡ bytes_of digits }
{
    match digits {
        8 => Some(4),
        4 => Some(2),
        _ => None,
    }
}

/// Whether all bytes are hexadecimal digits, of either case.
fn are_hex(digits: &[u8]) -> bool
    ensures { result ≡ list_all is_ascii_hexdigit digits.now }
{
    digits.iter().all(|digit| digit.is_ascii_hexdigit())
}

/// What stands behind `0x`, where the text begins with it.
fn behind_0x<'a>(text: &'a [u8]) -> Option<&'a [u8]>
    ensures { option_copied result ≡ behind_0x_of text.now }
{
    match text {
        [b'0', b'x', digits @ ..] => Some(digits),
        _ => None,
    }
}

/// The number that the digits of a hexadecimal literal spell.
fn number(text: &[u8]) -> u32
    requires { IsHexWord text.now }
    ensures { result ≡ digits_value 16 (drop 2 text.now) }
{
    let hex = Lexeme {
        kind: Kind::Hex,
        text,
        at: 0,
    };
    match hex.literal() {
        Some(literal) => literal.value as u32,
        None => unreachable!(),
    }
}

/// The instruction word that an opcode spells: `0x`, and eight hexadecimal digits for a word of four bytes or four
/// digits for one of two, the first digit of highest weight. Digits may be of either case, `0x` stands in lower case.
/// None for any other text.
#[tactic(auto, using(crate::proofs::OpcodeLemmas::word_is))]
pub fn opcode(text: &[u8]) -> Option<Word>
    ensures value { result ≡ opcode_of text.now }
    ensures fits { IfSome result IsWord }
{
    let digits = behind_0x(text)?;
    if !are_hex(digits) {
        return None;
    }
    let bytes = word_bytes(digits.len())?;
    Some(Word {
        bytes,
        bits: number(text),
    })
}
