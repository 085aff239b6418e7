//! Laws of the texts of literals and numbers: facts over the definitions alone, each the contract of a function that does nothing.

ghost use Rattle.bit_text.specs.TextLaws.{LiteralHasForm, LiteralStands, LiteralIsAscii, NumberHasForm, NumberStands};

/// The text of a literal is a token of its kind, which stands for that literal, with its width. It is ASCII.
pub fn literal_texts()
    ensures form { LiteralHasForm }
    ensures stands { LiteralStands }
    ensures ascii { LiteralIsAscii }
{}

/// The decimal digits of a number below 10 ^ 9 are a token, which stands for that number.
pub fn number_texts()
    ensures form { NumberHasForm }
    ensures stands { NumberStands }
{}
