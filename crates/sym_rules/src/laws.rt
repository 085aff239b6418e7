//! Laws of traces, over the definitions alone.

ghost use Rattle.sym_rules.specs.Laws.{AnswersTheTrace, RefusesTheRest};

/// A trace is answered exactly where it has no more events and ends than it may.
pub fn limits()
    ensures answers { AnswersTheTrace }
    ensures refuses { RefusesTheRest }
{}
