//! Laws of terms that are printed and read: facts over the definitions alone, each the contract of a function that does nothing.

ghost use Rattle.term_round_trip.specs.WordLaws.{WordsSpell, ArrayWordsSpell};
ghost use Rattle.term_round_trip.specs.ReadBackLaws.{PrintedIsRead, PrintedArrayIsRead, ReadIsDeclared, ReadArrayIsDeclared, ReadIsReadBack, ReadIsCutBack, ReadArrayIsReadBack, ReadArrayIsCutBack};

/// The words of a printed term spell it, wherever they stand, if no rule fits any application in it and the scope declares
/// its variables.
pub fn printed_words()
    ensures { WordsSpell }
{}

/// The words of a printed array term spell it, wherever they stand, if no rule fits any application in it and the scope
/// declares its variables.
pub fn printed_array_words()
    ensures { ArrayWordsSpell }
{}

/// What `print_term` prints of a term, `read_term` reads back as that term, up to the end of the text, if no rule fits any
/// application in it, it has no division, the name of each variable is a name to the lexer, and the scope declares the
/// variables. No rule fits in what is read, nor in what is made of terms in which none fits.
pub fn printed_is_read()
    ensures { PrintedIsRead }
{}

/// What `print_array` prints of an array term, `read_array` reads back as that array term, up to the end of the text, if no
/// rule fits any application in it, it has no division, the name of each variable is a name to the lexer, and the scope
/// declares the variables.
pub fn printed_array_is_read()
    ensures { PrintedArrayIsRead }
{}

/// What `read_term` and `read_array` read of a text has names that the lexer takes, and the scope declares each of its
/// variables with its sort.
pub fn read_is_declared()
    ensures term { ReadIsDeclared }
    ensures array { ReadArrayIsDeclared }
{}

/// What `read_term` reads of a text, in a scope of widths from 1 to 128, it reads back from what `print_term` prints of it,
/// as the same term and up to the end; and what is printed is cut into the words of the term, and is UTF-8, so that it is
/// printed byte for byte. The same holds of what `read_array` reads and `print_array` prints.
pub fn read_is_read_back()
    ensures term { ReadIsReadBack }
    ensures term_cut { ReadIsCutBack }
    ensures array { ReadArrayIsReadBack }
    ensures array_cut { ReadArrayIsCutBack }
{}
