//! Laws of traces that are printed and read: facts over the definitions alone, each the contract of a function that does nothing.

ghost use Rattle.trace_round_trip.specs.TraceLaws.{PrintedIsCut, PrintedIsRead, ReadIsReadable};

/// What `print_trace` prints of a trace over registers that a text can declare, `read_trace` reads as that trace, if the trace keeps the rules of
/// registers, variables, widths, byte counts and children, no rule fits any application in its terms, they have no division, and there are at most
/// 65,536 events and ends. The text is UTF-8, so that it is printed byte for byte, and is cut into the words of the trace.
pub fn printed_is_read()
    ensures cut { PrintedIsCut }
    ensures read { PrintedIsRead }
{}

/// What `read_trace` reads is such a trace, so that it is read back from what `print_trace` prints of it.
pub fn read_is_readable()
    ensures { ReadIsReadable }
{}
