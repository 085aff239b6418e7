//! The top call: the words, the files that they name, the verdict, and the writing of its text.

ghost use Rattle.std.specs.Prelude.{◌≡◌, ◌≤◌, ◌⊎◌, [], ◌∷◌, IfOk, IfErr, Some, None};
ghost use Rattle.files_core.specs.Counts.{Rose};
ghost use Rattle.files_core.specs.Store.{Store};
ghost use Rattle.files_core.specs.Writes.{Grows};
ghost use Rattle.report_text.specs.Outcome.{bad_input, beyond, refuse, said_of};
ghost use Rattle.report_text.specs.Names.{row_named};
ghost use Rattle.islaris_cli.specs.Top.{reading, writing, row_sources, sail_source, IsRead, AreRead, IsJudged, IsTraced, HaltsAt, IsHalt, StopsAmong, Answers, IsFinished, HasCause, Tells, TellsOfCheck, TellsAccepted, TellsUsage, TellsLimit, TellsMissing, TellsReadFault, answer_over, IsExact};
ghost use Rattle.command_words.specs.Words.{words_of, CommandSaid, command_of};
ghost use Rattle.trace_words.specs.Trace.{trace_said};

use command_words::{CommandGiven, command, spelled};
use constants_check::judge;
use constants_text::{on_file, on_name, usage};
use files_core::{Files, InFault, OutFault, Sink, read_all, write_all};
use lex_core::NoMemory;
use report_text::numbers::{
    IMAGE_LIMIT, PROOF_LIMIT, SAIL_LIMIT, TEXT_TOO_LONG, TOO_LARGE, WANT_OF_MEMORY, WRITE_FAULT,
};
use report_text::{Names, Outcome, Status};
use std::alloc::Global;
use trace_verdict::judge_trace;
use trace_words::TraceGiven;

/// An outcome before its time, or want of memory.
#[derive(Drop)]
pub enum Halt {
    Early(Outcome),
    NoMemory,
}

impl From<NoMemory> for Halt {
    ghost use Rattle.islaris_cli.specs.declared.top.Halt.TheVariants as halt;

    ghost from_gives = { λ _ h. h ≡ halt.NoMemory };

    fn from(_: NoMemory) -> Self {
        Halt::NoMemory
    }
}

/// The texts of the three files.
#[derive(Drop)]
struct Texts {
    sail: Vec<u8>,
    image: Vec<u8>,
    proof: Vec<u8>,
}

/// The whole file, if it is there and has at most so many bytes.
fn read_named<F: Files>(
    alloc: Global,
    files: &mut F,
    name: &str,
    limit: u64,
    number: u32,
) -> Result<Vec<u8>, Halt>
    ensures read { IfOk result (λ text. IsRead (F.store files.old) (record { name = name.now; limit = limit; number = number }) text.items) }
    ensures halt { IfErr result (λ h. HaltsAt h (reading F.Files files.old files.new) (record { name = name.now; limit = limit; number = number })) }
    ensures store { F.store files.new ≡ F.store files.old }
    ensures faults { F.faults files.old ≤ F.faults files.new }
    ensures missing { F.missing files.old ≤ F.missing files.new }
{
    let (status, text) = match read_all(alloc, files, name, limit) {
        Ok(text) => return Ok(text),
        Err(InFault::NoMemory) => return Err(Halt::NoMemory),
        Err(InFault::Missing) => (
            Status::Missing,
            on_name(alloc, b"missing", name.as_bytes())?,
        ),
        Err(InFault::Failed) => (
            Status::ReadFault,
            on_name(alloc, b"read fault", name.as_bytes())?,
        ),
        Err(InFault::TooLong) => (
            Status::Limit,
            on_file(alloc, b"limit", number, name.as_bytes(), b"")?,
        ),
    };
    Err(Halt::Early(Outcome { status, text }))
}

/// The texts of the row's files, read in the order of the words. A halt is handed on as it is: the clause names it.
fn read_three<F: Files>(alloc: Global, files: &mut F, row: &Names<'_>) -> Result<Texts, Halt>
    ensures read { IfOk result (λ t. AreRead (F.store files.old) (row_named row.now) t.sail.items t.image.items t.proof.items) }
    ensures halt { IfErr result (λ h. IsHalt h (reading F.Files files.old files.new) (row_sources (row_named row.now))) }
{
    let sail = match read_named(alloc, files, row.sail, SAIL_LIMIT, TEXT_TOO_LONG) {
        Ok(sail) => sail,
        Err(halt) => return Err(halt),
    };
    let image = match read_named(alloc, files, row.image, IMAGE_LIMIT, TOO_LARGE) {
        Ok(image) => image,
        Err(halt) => return Err(halt),
    };
    let proof = match read_named(alloc, files, row.proof, PROOF_LIMIT, TEXT_TOO_LONG) {
        Ok(proof) => proof,
        Err(halt) => return Err(halt),
    };
    Ok(Texts { sail, image, proof })
}

/// What is said of the three texts of a check, or the outcome of the file that stops it.
fn work_check<F: Files>(alloc: Global, row: &Names<'_>, files: &mut F) -> Result<Outcome, NoMemory>
    ensures { IfOk result (λ a. IsJudged (F.store files.old) (row_named row.now) (said_of a)
        ⊎ StopsAmong (said_of a) (reading F.Files files.old files.new) (row_sources (row_named row.now))) }
{
    match read_three(alloc, files, row) {
        Ok(texts) => judge(alloc, row, &texts.sail, &texts.image, &texts.proof),
        Err(Halt::Early(outcome)) => Ok(outcome),
        Err(Halt::NoMemory) => Err(NoMemory),
    }
}

/// What is said of the Sail text of a trace, or the outcome of the file that stops it.
fn work_trace<F: Files>(
    alloc: Global,
    given: &TraceGiven<'_>,
    files: &mut F,
) -> Result<Outcome, NoMemory>
    ensures { IfOk result (λ a. IsTraced (F.store files.old) (trace_said given.now) (said_of a)
        ⊎ StopsAmong (said_of a) (reading F.Files files.old files.new) (sail_source (trace_said given.now).sail ∷ [])) }
{
    match read_named(alloc, files, given.sail, SAIL_LIMIT, TEXT_TOO_LONG) {
        Ok(text) => judge_trace(alloc, given, &text),
        Err(Halt::Early(outcome)) => Ok(outcome),
        Err(Halt::NoMemory) => Err(NoMemory),
    }
}

/// The status and the text that the words come to.
fn work<F: Files>(alloc: Global, words: &[String], files: &mut F) -> Result<Outcome, NoMemory>
    ensures { IfOk result (λ a. Answers (command_of (words_of words.now)) (said_of a) (reading F.Files files.old files.new)) }
{
    let spelled = spelled(alloc, words)?;
    match command(alloc, &spelled)? {
        None => {
            let text = usage(alloc)?;
            Ok(Outcome {
                status: Status::Words,
                text,
            })
        }
        Some(CommandGiven::Check(row)) => work_check(alloc, &row, files),
        Some(CommandGiven::Trace(given)) => work_trace(alloc, &given, files),
    }
}

/// Writes the outcome's text, and gives the number.
fn finish<S: Sink>(out: &mut S, outcome: &Outcome) -> u8
    ensures { IsFinished result (said_of outcome.now) (writing S.Sink out.old out.new) }
{
    match write_all(out, &outcome.text) {
        Ok(()) => outcome.status.number(),
        Err(OutFault::Failed) => WRITE_FAULT,
        Err(OutFault::NoMemory) => WANT_OF_MEMORY,
    }
}

/// Does all that the program does: takes the words, without the program's own name, reads the files that they name in
/// their order, makes the verdict, builds its text, writes it, and answers the status.
///
/// 0 and 1 say what is said of the three texts of a check, 3 and 7 what is said of the texts of either command; 7 also says that a
/// file is longer than its limit. 2: the words are no command, or don't fit the Sail text of a trace, which types. 4: a file isn't there, and
/// the count of missing answers rose. 5: a read failed, and the count of faults rose. 6: a write failed, and the sink's count rose; a prefix
/// of the text is written. 8: want of memory, and nothing or a prefix of the text is written.
pub fn islaris<F: Files, S: Sink>(alloc: Global, words: &[String], files: &mut F, out: &mut S) -> u8
    ensures cause { HasCause result (command_of (words_of words.now)) (reading F.Files files.old files.new) (writing S.Sink out.old out.new) }
    ensures exact { (held : Store) (command : CommandSaid) → F.store files.old ≡ Some held → command_of (words_of words.now) ≡ Some command
        → IsExact result (answer_over held command) (reading F.Files files.old files.new) (writing S.Sink out.old out.new) }
    ensures accepted { result ≡ 0 → TellsAccepted (words_of words.now) (F.store files.old) (S.bytes out.old) (S.bytes out.new) }
    ensures refused { result ≡ 1 → TellsOfCheck refuse (words_of words.now) (F.store files.old) (S.bytes out.old) (S.bytes out.new) }
    ensures words { result ≡ 2 → TellsUsage (words_of words.now) (F.store files.old) (S.bytes out.old) (S.bytes out.new) }
    ensures no_command { command_of (words_of words.now) ≡ None → (result ≡ 2) ⊎ (result ≡ 6) ⊎ (result ≡ 8) }
    ensures input { result ≡ 3 → Tells bad_input (words_of words.now) (F.store files.old) (S.bytes out.old) (S.bytes out.new) }
    ensures missing { result ≡ 4 → Rose (F.missing files.old) (F.missing files.new)
        × TellsMissing (words_of words.now) (F.store files.old) (S.bytes out.old) (S.bytes out.new) }
    ensures read_fault { result ≡ 5 → Rose (F.faults files.old) (F.faults files.new)
        × TellsReadFault (words_of words.now) (S.bytes out.old) (S.bytes out.new) }
    ensures write_fault { result ≡ 6 → Rose (S.faults out.old) (S.faults out.new) }
    ensures beyond { result ≡ 7 → Tells beyond (words_of words.now) (F.store files.old) (S.bytes out.old) (S.bytes out.new)
        ⊎ TellsLimit (words_of words.now) (F.store files.old) (S.bytes out.old) (S.bytes out.new) }
{
    match work(alloc, words, files) {
        Ok(outcome) => finish(out, &outcome),
        Err(NoMemory) => WANT_OF_MEMORY,
    }
}
