//! Bytes that are kept in memory.

ghost use Rattle.std.specs.Prelude.{◌≡◌, ◌≢◌, ◌≤◌, ◌<◌, ℕ, List, [], ◌++◌, Contains, IfOk, OnOk, OnErr, Some, min, length, take};
ghost use Rattle.files_core.specs.Counts.{IsCount};
ghost use Rattle.files_core.specs.Held.{after_write};
ghost use Rattle.files_core.specs.Writes.{IsWriteAnswer, IsEmptyWrite, WriteHasCause};

use crate::answers::WriteAnswer;
use crate::held_files::is_listed;
use crate::sink::Sink;
use lex_core::NoMemory;
use std::alloc::Global;
use std::marker::Model;

/// Keeps all bytes, which are told, and contracts see it as these bytes. The count of faults is always 0.
#[derive(Drop)]
pub struct WholeSink {
    text: Vec<u8>,
}

impl Model for WholeSink {
    ghost use Rattle.std.specs.Prelude.{List, ℕ};

    ghost Value = { List ℕ };

    ghost view = { λ s. s.text.items };
}

impl WholeSink {
    /// A sink that no byte was written to.
    pub fn new(alloc: Global) -> Result<WholeSink, NoMemory>
        ensures { IfOk result (λ s. s ≡ []) }
    {
        Ok(WholeSink {
            text: Vec::new(alloc),
        })
    }

    /// The bytes that were written.
    pub fn bytes(&self) -> &[u8]
        ensures { result.now ≡ self.now }
    {
        self.text.as_slice()
    }
}

impl Sink for WholeSink {
    ghost bytes = { λ s. Some s };

    ghost faults = { λ _. 0 };

    fn write(&mut self, piece: &[u8]) -> WriteAnswer
        ensures answer { IsWriteAnswer (Some self.old) piece.now result (Some self.new) }
        ensures whole { result ≢ WriteAnswer.NoMemory → result ≡ WriteAnswer.Took (length piece.now) }
        ensures empty { length piece.now ≡ 0 → IsEmptyWrite result 0 0 }
        ensures cause { WriteHasCause result 0 0 }
        ensures ends { IsCount 0 }
    {
        if piece.is_empty() {
            return WriteAnswer::Took(0);
        }
        match self.text.extend_from_slice(piece) {
            Ok(()) => WriteAnswer::Took(piece.len()),
            Err(_) => WriteAnswer::NoMemory,
        }
    }
}

/// Keeps bytes, which are told, takes a bounded number of them at a time, and fails at chosen writes.
///
/// A write of no bytes answers `Took(0)`, has no number and changes nothing. The number of the write and the count of
/// faults stop at 2^64 - 1.
#[derive(Drop)]
pub struct MemSink {
    text: Vec<u8>,
    most: usize,
    failing: Vec<u64>,
    asked: u64,
    faults: u64,
}

impl Model for MemSink {
    ghost use Rattle.std.specs.Prelude.{◌<◌};
    ghost use Rattle.files_core.specs.Counts.{IsCount};
    ghost use Rattle.files_core.specs.Held.{Narrow};

    ghost Value = { Narrow };

    ghost view = { λ s. record {
      bytes = s.text.items;
      most = s.most;
      failing = s.failing.items;
      asked = s.asked;
      faults = s.faults;
    } };

    ghost invariant = { λ s. (0 < s.most) × IsCount s.faults };
}

impl MemSink {
    /// A sink that no byte was written to. A write takes at most `most` bytes, which is at least 1. Write number k,
    /// from 0, fails where k is in `failing`; a write of no bytes has no number.
    pub fn new(alloc: Global, most: usize, failing: Vec<u64>) -> Result<MemSink, NoMemory>
        requires { 1 ≤ most }
        ensures { IfOk result (λ s. s ≡ record { bytes = []; most = most; failing = failing.items; asked = 0; faults = 0 }) }
    {
        Ok(MemSink {
            text: Vec::new(alloc),
            most,
            failing,
            asked: 0,
            faults: 0,
        })
    }

    /// The bytes that were written.
    pub fn bytes(&self) -> &[u8]
        ensures { result.now ≡ self.now.bytes }
    {
        self.text.as_slice()
    }
}

impl Sink for MemSink {
    ghost bytes = { λ s. Some s.bytes };

    ghost faults = { λ s. s.faults };

    fn write(&mut self, piece: &[u8]) -> WriteAnswer
        ensures answer { IsWriteAnswer (Some self.old.bytes) piece.now result (Some self.new.bytes) }
        ensures empty { length piece.now ≡ 0 → IsEmptyWrite result self.old.faults self.new.faults }
        ensures unnumbered { length piece.now ≡ 0 → self.new ≡ self.old }
        ensures failing { 0 < length piece.now → Contains self.old.failing self.old.asked → result ≡ WriteAnswer.Failed }
        ensures taking { 0 < length piece.now → ¬ Contains self.old.failing self.old.asked → result ≢ WriteAnswer.NoMemory
            → result ≡ WriteAnswer.Took (min (length piece.now) self.old.most) }
        ensures counted { 0 < length piece.now → self.new ≡ after_write result piece.now self.old }
        ensures cause { WriteHasCause result self.old.faults self.new.faults }
        ensures faults { self.old.faults ≤ self.new.faults }
        ensures ends { IsCount self.new.faults }
    {
        let number = self.asked;
        if piece.is_empty() {
            return WriteAnswer::Took(0);
        }
        self.asked = number.saturating_add(1);
        if is_listed(&self.failing, number) {
            self.faults = self.faults.saturating_add(1);
            return WriteAnswer::Failed;
        }
        let count = piece.len().min(self.most);
        match self.text.extend_from_slice(&piece[..count]) {
            Ok(()) => WriteAnswer::Took(count),
            Err(_) => WriteAnswer::NoMemory,
        }
    }
}
