//! Laws of what is said, over the definitions alone.

ghost use Rattle.lex_core.specs.Classes.{Text};
ghost use Rattle.sail_verdict.specs.Verdict.{sail_verdict, IsTold};

/// Each text is a program that types, or something is said of it: that it is an input with a fault or past a limit, and then it spells no program that types.
pub fn texts_are_told()
    ensures told { (file text : Text) → IsTold text (sail_verdict file text) }
{}
