//! Laws of traces as text: facts over the definitions alone, each the contract of a function that does nothing.

ghost use Rattle.trace_read.specs.TextLaws.{ReadIsSpelled, SpelledIsRead, SpelledOnce, SpelledIsByTheRules};

/// What is read is spelled by the whole text, by the grammar, with at most 65,536 events and ends; what is spelled so, with no more of them, is read;
/// and a text spells at most one trace.
pub fn one_trace()
    ensures read { ReadIsSpelled }
    ensures spelled { SpelledIsRead }
    ensures once { SpelledOnce }
{}

/// A trace that a text spells, and so one that is read, keeps the rules of registers, variables, widths, byte counts and children, has a text, and
/// no rule fits any application in its terms.
pub fn spelled_is_by_the_rules()
    ensures { SpelledIsByTheRules }
{}
