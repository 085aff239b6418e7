//! Laws of what is said, over the definitions alone.

ghost use Rattle.lex_core.specs.Classes.{Text};
ghost use Rattle.trace_words.specs.Trace.{TraceSaid};
ghost use Rattle.trace_verdict.specs.Verdict.{trace_verdict, IsTold};

/// Something is said of each text: that it is an input with a fault or past a limit, or that the words don't fit it, which is then so.
pub fn verdicts()
    ensures told { (t : TraceSaid) (text : Text) → IsTold t text (trace_verdict t text) }
{}
