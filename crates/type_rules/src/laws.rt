//! The laws of typing: facts over the definitions alone, each the contract of a function that does nothing.

ghost use Rattle.type_rules.specs.Faults.{Faults};
ghost use Rattle.type_rules.specs.Laws.{FirstOf, TypingIsExact, ProgramsAreExact, TypesAreOne};
ghost use Rattle.type_rules.specs.ThereLaws.{FoundIsThere, CallsAreAbove, HeightsFall};

/// The fault that is told is the least by place and number of all that are said; of two with one place and number it is
/// the one of the inner part, or of the left one.
pub fn first_is_least()
    ensures { (fs : Faults) → FirstOf fs }
{}

/// An expression is judged without a fault exactly where the judgement gives it a type, which is then the one that is found.
pub fn typing_is_exact()
    ensures { TypingIsExact }
{}

/// A program has no fault exactly where the judgement accepts it.
pub fn programs_are_exact()
    ensures { ProgramsAreExact }
{}

/// An expression has one type.
pub fn types_are_one()
    ensures { TypesAreOne }
{}

/// What a name of the whole text stands for is of the prelude, or stands in the program: a register of that width, an enum,
/// an enum with that member, or a function that asks and gives these types and is complete behind its definition.
pub fn found_is_there()
    ensures { FoundIsThere }
{}

/// A function that a typed expression calls is complete above it.
pub fn calls_are_above()
    ensures { CallsAreAbove }
{}

/// A function that another one calls has a lower height, and no height of a typed program is above 32.
pub fn heights_fall()
    ensures { HeightsFall }
{}
