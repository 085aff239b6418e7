//! Laws of rewrite rules: facts over the definitions alone, each the contract of a function that does nothing.

ghost use Rattle.term_rules.specs.Laws.{RightIsTyped, RightKeepsValue};

/// The right side of each rule is typed, as wide as the application, and has its value.
pub fn right_sides()
    ensures typed { RightIsTyped }
    ensures value { RightKeepsValue }
{}
