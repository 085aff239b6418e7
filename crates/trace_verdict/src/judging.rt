//! What is said of a Sail text where the words of a trace name it.

ghost use Rattle.std.specs.Prelude.{◌≡◌, true, IfOk, Some};
ghost use Rattle.report_text.specs.Outcome.{said_of};
ghost use Rattle.sail_syntax.specs.View.{program_of};
ghost use Rattle.trace_words.specs.Trace.{trace_said};
ghost use Rattle.trace_answer.specs.Fits.{words_fit};
ghost use Rattle.trace_verdict.specs.Verdict as spec;
ghost use Rattle.trace_verdict.specs.Verdict.{trace_verdict};

use constants_text::{on_file, usage};
use lex_core::NoMemory;
use report_text::numbers::NOT_YET;
use report_text::{Outcome, Status};
use sail_typed::Typed;
use sail_verdict::{Judged, judge_sail};
use std::alloc::Global;
use trace_answer::words_fit;
use trace_words::TraceGiven;

/// The traces of the text aren't made yet.
fn not_yet(alloc: Global, file: &str) -> Result<Outcome, NoMemory>
    ensures { IfOk result (λ a. said_of a ≡ spec.on_typed file.now true) }
{
    let text = on_file(alloc, b"input", NOT_YET, file.as_bytes(), b"0")?;
    Ok(Outcome {
        status: Status::Input,
        text,
    })
}

/// The words don't fit the program.
fn misfit(alloc: Global) -> Result<Outcome, NoMemory>
    ensures { IfOk result (λ a. said_of a ≡ spec.misfit) }
{
    let text = usage(alloc)?;
    Ok(Outcome {
        status: Status::Words,
        text,
    })
}

/// What is said of a program that types: the words fit it, or they don't.
fn judge_typed(alloc: Global, words: &TraceGiven<'_>, typed: &Typed) -> Result<Outcome, NoMemory>
    ensures { IfOk result (λ a. said_of a ≡ spec.on_typed (trace_said words.now).sail (words_fit (program_of typed.now) (trace_said words.now))) }
{
    if words_fit(typed.program(), words) {
        not_yet(alloc, words.sail)
    } else {
        misfit(alloc)
    }
}

/// What is said of the text: its first fault, as `input 12 FILE bits(8) bool 12`, or where it has none, that the words don't fit it, which are then no
/// command, or that its traces aren't made yet: `input 57 FILE 0`.
pub fn judge_trace(alloc: Global, words: &TraceGiven<'_>, text: &[u8]) -> Result<Outcome, NoMemory>
    ensures said { IfOk result (λ a. trace_verdict (trace_said words.now) text.now ≡ Some (said_of a)) }
{
    match judge_sail(alloc, words.sail, text)? {
        Judged::Typed(typed) => judge_typed(alloc, words, &typed),
        Judged::Faulty(outcome) => Ok(outcome),
    }
}
