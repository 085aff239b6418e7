//! Laws of the traces of opcodes, over the definitions alone.

ghost use Rattle.sym_shapes.specs.Keeps.{EventsKeepStates, OutcomesKeepStates, TracesKeepStates};
ghost use Rattle.sym_shapes.specs.Shapes.{TracesHaveMadeTerms, TracesHaveTexts, TracesKeepRules, VariablesDiffer};

use state_core::laws::{reads, stores};

/// The trace of a word in a typed program keeps the rules of traces: each variable is bound before it is used, by a read of
/// a register or of memory on that path, and has its width there; registers are those of the text, and what is written to
/// one, or assumed of one, is as wide as it; `assume` and `need` have bits, addresses 64 bits, and what is written to memory
/// as many bytes as it says. Its terms are typed, hold no division and no array; where none is too high, the trace has a text.
/// Variables of different numbers have different names.
pub fn traces_of_words()
    ensures rules { TracesKeepRules }
    ensures terms { TracesHaveMadeTerms }
    ensures texts { TracesHaveTexts }
    ensures names { VariablesDiffer }
{}

/// What follows a trace that keeps the rules, of typed terms, leaves a state of the program, where the state in front of it
/// was one and variables had values: event by event, from each path; of a whole trace; and of the trace of a word.
pub fn following_keeps_states()
    ensures events { EventsKeepStates }
    ensures outcomes { OutcomesKeepStates }
    ensures words { TracesKeepStates }
{
    reads();
    stores();
}
