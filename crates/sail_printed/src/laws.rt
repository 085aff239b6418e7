//! The law of printing: facts over the definitions alone, the contract of a function that does nothing.

ghost use Rattle.sail_printed.specs.PrintedLaws.{FormedIsUtf8, PrintedIsReadBack, SpelledHasForm, SpelledIsReadBack};

/// The text that `print` gives of a program that some text spells spells a program that differs from it in places alone,
/// where it is within the limits of length and of nesting. So it does for every program of the form that the grammar has a
/// spelling for, and what a text spells has that form. And the text of such a program is UTF-8, so that it is printed byte for byte.
pub fn printed_is_read_back()
    ensures spelled { SpelledIsReadBack }
    ensures formed { PrintedIsReadBack }
    ensures form { SpelledHasForm }
    ensures utf8 { FormedIsUtf8 }
{}
