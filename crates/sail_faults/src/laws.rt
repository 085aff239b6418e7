//! Laws of faults, over the definitions alone.

ghost use Rattle.std.specs.Prelude.{◌≡◌, ◌≤◌, ◌⊎◌, ℕ, List, length, Ok, Err};
ghost use Rattle.lex_core.specs.declared.token.Token.{Token};
ghost use Rattle.lex_core.specs.Lexing.{cut};
ghost use Rattle.sail_faults.specs.Places.{IsFirst, IsUnended};
ghost use Rattle.sail_grammar.specs.Spelling.{most_bytes};
ghost use Rattle.sail_grammar.specs.Words.{Words, words_of};
ghost use Rattle.sail_machine.specs.declared.fault.Fault.{Fault};
ghost use Rattle.sail_machine.specs.Run.{read};
ghost use Rattle.sail_reader.specs.Reading.{read_text, told_by};
ghost use Rattle.sail_syntax.specs.Tree.{Text};

use sail_machine::laws::{goes_on, stops};

/// The fault of words is the first one: up to its place they are the beginning of a program, as long as a level of nesting is left
/// there, and with the word at it they are none; or it stands at the end, and the words are a beginning, but no program.
pub fn first_fault()
    ensures first { (end : ℕ) (ws : Words) (f : Fault) → read end ws ≡ Err f → IsFirst ws f ⊎ IsUnended end ws f }
{
    stops();
    goes_on();
}

/// The fault that is read of a text which isn't too long and is cut into tokens is the first one of the tokens' words.
pub fn first_fault_of_a_text()
    ensures first { (text : Text) (ts : List Token) (f : Fault) → length text ≤ most_bytes → cut text ≡ Ok ts → read_text text ≡ Err (told_by f.flaw f.at)
        → IsFirst (words_of text ts) f ⊎ IsUnended (length text) (words_of text ts) f }
{
    first_fault();
}
