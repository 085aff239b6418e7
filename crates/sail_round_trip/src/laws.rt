//! Laws of programs that are printed and read: facts over the definitions alone, the contract of a function that does nothing.

ghost use Rattle.sail_round_trip.specs.RoundTripLaws.{FormedIsReadBack, ReadIsPrinted, ReadIsReadBack};

/// What `read` reads of a text, it reads back from what `print` prints of it, but for places, where the printed text is within the
/// limits of length and of nesting. So it is too for every program of the form that the grammar has a spelling for. And what is
/// printed of a program that was read is UTF-8, so that it is printed byte for byte.
pub fn read_is_read_back()
    ensures spelled { ReadIsReadBack }
    ensures formed { FormedIsReadBack }
    ensures printed { ReadIsPrinted }
{}
