//! Laws of the texts of terms: facts over the definitions alone, each the contract of a function that does nothing.

ghost use Rattle.term_print.specs.PrintedLaws.{LiteralTextStands, LiteralIsCutAs, PrintedIsCut, PrintedIsCutAs, PrintedIsUtf8, PrintedArrayIsCut, PrintedArrayIsCutAs, PrintedArrayIsUtf8};

/// The text of a literal, as a token of its kind, stands for that literal, with its width, and is cut
/// as that token wherever it stands in front of what ends one.
pub fn literal_texts()
    ensures stands { LiteralTextStands }
    ensures anywhere { LiteralIsCutAs }
{}

/// What `print_term` prints of a term is cut into the words of that term, as a whole text and wherever it
/// stands in front of what ends a token, and is UTF-8, so that it is printed byte for
/// byte, if the term has no division and the name of each variable is a name to the lexer.
pub fn printed_is_cut()
    ensures cut { PrintedIsCut }
    ensures anywhere { PrintedIsCutAs }
    ensures utf8 { PrintedIsUtf8 }
{}

/// What `print_array` prints of an array term is cut into the words of that array term, as a whole text and
/// wherever it stands in front of what ends a token, and is UTF-8, so that it is
/// printed byte for byte, if it has no division and the name of each variable is a name to the lexer.
pub fn printed_array_is_cut()
    ensures cut { PrintedArrayIsCut }
    ensures anywhere { PrintedArrayIsCutAs }
    ensures utf8 { PrintedArrayIsUtf8 }
{}
