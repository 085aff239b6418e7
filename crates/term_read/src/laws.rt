//! Laws of terms that are read: facts over the definitions alone, each the contract of a function that does nothing.

ghost use Rattle.term_read.specs.TextLaws.{ReadIsSpelled, SpelledIsRead, SpelledOnce, ReadArrayIsSpelled, SpelledArrayIsRead, SpelledArrayOnce, SpelledIsNormal};

/// What is read is spelled by the tokens from the first one up to the next, what is spelled is read, and so tokens spell
/// at most one term.
pub fn spelled_terms()
    ensures read { ReadIsSpelled }
    ensures spelled { SpelledIsRead }
    ensures once { SpelledOnce }
{}

/// An array term that is read is spelled by the tokens from the first one up to the next, what is spelled is read, and so
/// tokens spell at most one array term.
pub fn spelled_arrays()
    ensures read { ReadArrayIsSpelled }
    ensures spelled { SpelledArrayIsRead }
    ensures once { SpelledArrayOnce }
{}

/// No rule fits any application in a term that is spelled, and so in one that is read.
pub fn spelled_is_normal()
    ensures { SpelledIsNormal }
{}
