//! The words with which lines begin, and those of failures.

ghost use Rattle.std.specs.Prelude.{◌≡◌, map};
ghost use Rattle.trace_read.specs.WordTables as spec;

use trace_plain::FailKind;

/// The event or end that a line is, by its first word.
#[derive(Clone, Copy)]
pub enum Head {
    ReadReg,
    WriteReg,
    ReadMem,
    WriteMem,
    Assume,
    Need,
    AssumeReg,
    Done,
    Fail,
    Cases,
}

/// The words of events and ends.
const HEADS: [(&[u8], Head); 10] = [
    (b"read_reg", Head::ReadReg),
    (b"write_reg", Head::WriteReg),
    (b"read_mem", Head::ReadMem),
    (b"write_mem", Head::WriteMem),
    (b"assume", Head::Assume),
    (b"need", Head::Need),
    (b"assume_reg", Head::AssumeReg),
    (b"done", Head::Done),
    (b"fail", Head::Fail),
    (b"cases", Head::Cases),
];

/// The words of failures.
const FAILURES: [(&[u8], FailKind); 5] = [
    (b"match", FailKind::Match),
    (b"assert", FailKind::Assert),
    (b"exit", FailKind::Exit),
    (b"unsupported", FailKind::Unsupported),
    (b"assumed_written", FailKind::AssumedWritten),
];

/// What the first entry of a word stands for.
fn entry_in<T: Copy>(entries: &[(&[u8], T)], word: &[u8]) -> Option<T>
    ensures { result ≡ spec.entry_in (map (λ p. (p.0.now, p.1)) entries.now) word.now }
{
    for (own, it) in entries {
        if word == *own {
            return Some(*it);
        }
    }
    None
}

/// The event or end of a word.
#[tactic(auto, unfolding(crate::specs::WordTables::head_of))]
pub fn head_of(word: &[u8]) -> Option<Head>
    ensures { result ≡ spec.head_of word.now }
{
    entry_in(&HEADS, word)
}

/// The failure of a word.
#[tactic(auto, unfolding(crate::specs::WordTables::failure_of))]
pub fn failure_of(word: &[u8]) -> Option<FailKind>
    ensures { result ≡ spec.failure_of word.now }
{
    entry_in(&FAILURES, word)
}
