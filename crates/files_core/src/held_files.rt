//! Files that are held in memory.

ghost use Rattle.std.specs.Prelude.{◌≡◌, ◌≤◌, ℕ, List, Contains, MatchBool, MatchOption, IfOk, Some, None, min, length, take, drop, bytes_eq};
ghost use Rattle.files_core.specs.Counts.{IsCount};
ghost use Rattle.files_core.specs.Held.{served, after_read};
ghost use Rattle.files_core.specs.Reads.{IsReadAnswer, ReadHasCause, missing_behind};
ghost use Rattle.files_core.specs.Store.{file_of, store_of};

use crate::answers::ReadAnswer;
use crate::files::Files;
use lex_core::{Name, NoMemory};
use std::alloc::Global;
use std::marker::Model;

/// A file in memory, which contracts see as its name and its bytes.
#[derive(Drop)]
pub struct File {
    name: Name,
    bytes: Vec<u8>,
}

impl Model for File {
    ghost use Rattle.std.specs.Prelude.{List, ℕ};

    ghost Value = { List ℕ × List ℕ };

    ghost view = { λ f. (f.name, f.bytes.items) };
}

impl File {
    /// The file of that name with these bytes.
    pub fn new(name: Name, bytes: Vec<u8>) -> File
        ensures { result ≡ (name, bytes.items) }
    {
        File { name, bytes }
    }

    fn has_name(&self, name: &[u8]) -> bool
        ensures { result ≡ bytes_eq name.now self.now.0 }
    {
        name == self.name.bytes()
    }

    fn bytes(&self) -> &[u8]
        ensures { result.now ≡ self.now.1 }
    {
        self.bytes.as_slice()
    }
}

// The bytes of the first file of that name.
fn bytes_of<'a>(files: &'a [File], name: &[u8]) -> Option<&'a [u8]>
    ensures { MatchOption result (file_of (store_of files.now) name.now ≡ None)
        (λ bytes. file_of (store_of files.now) name.now ≡ Some bytes.now) }
{
    for file in files {
        if file.has_name(name) {
            return Some(file.bytes());
        }
    }
    None
}

// Copies as many bytes from `at` on as there are and the buffer takes, and says how many.
fn copy_piece(file: &[u8], at: u64, buf: &mut [u8]) -> usize
    ensures count { result ≡ min (length buf.old) (length (drop at file.now)) }
    ensures bytes { take result buf.new ≡ take result (drop at file.now) }
{
    if at >= file.len() as u64 {
        return 0;
    }
    let rest = &file[at as usize..];
    let count = rest.len().min(buf.len());
    buf[..count].copy_from_slice(&rest[..count]);
    count
}

// What a read that doesn't fail gives.
fn serve(files: &[File], name: &[u8], at: u64, buf: &mut [u8]) -> ReadAnswer
    ensures exact { result ≡ served (file_of (store_of files.now) name.now) at (length buf.old) }
    ensures answer { IsReadAnswer (Some (store_of files.now)) name.now at result buf.new }
{
    match bytes_of(files, name) {
        Some(bytes) => ReadAnswer::Got(copy_piece(bytes, at, buf)),
        None => ReadAnswer::Missing,
    }
}

// Whether the number is one of these.
pub(crate) fn is_listed(numbers: &[u64], number: u64) -> bool
    ensures { MatchBool result (Contains numbers.now number) (¬ Contains numbers.now number) }
{
    numbers.contains(&number)
}

/// Files in memory whose reads don't fail. The store is told, and the count of faults is always 0.
///
/// A read gives as many bytes as there are and the buffer takes, and `Missing` where no file has the name.
#[derive(Drop)]
pub struct HonestFiles {
    files: Vec<File>,
    missing: u64,
}

impl Model for HonestFiles {
    ghost use Rattle.files_core.specs.Counts.{IsCount};
    ghost use Rattle.files_core.specs.Held.{Honest};

    ghost Value = { Honest };

    ghost view = { λ h. record { files = h.files.items; missing = h.missing } };

    ghost invariant = { λ h. IsCount h.missing };
}

impl HonestFiles {
    /// These files by their names, of which no read has been asked for. Of two files with one name the first counts.
    pub fn new(files: Vec<File>) -> Result<HonestFiles, NoMemory>
        ensures { IfOk result (λ h. h ≡ record { files = files.items; missing = 0 }) }
    {
        Ok(HonestFiles { files, missing: 0 })
    }
}

impl Files for HonestFiles {
    ghost store = { λ h. Some (store_of h.files) };

    ghost faults = { λ _. 0 };

    ghost missing = { λ h. h.missing };

    fn read_at(&mut self, name: &str, at: u64, buf: &mut [u8]) -> ReadAnswer
        ensures answer { IsReadAnswer (Some (store_of self.old.files)) name.now at result buf.new }
        ensures serving { result ≡ served (file_of (store_of self.old.files) name.now) at (length buf.old) }
        ensures counted { self.new ≡ record self.old { missing = missing_behind result self.old.missing } }
        ensures cause { ReadHasCause result self.old.missing self.new.missing 0 0 }
        ensures store { store_of self.new.files ≡ store_of self.old.files }
        ensures missing { self.old.missing ≤ self.new.missing }
        ensures ends { IsCount 0 × IsCount self.new.missing }
    {
        let answer = serve(&self.files, name.as_bytes(), at, buf);
        if answer == ReadAnswer::Missing {
            self.missing = self.missing.saturating_add(1);
        }
        answer
    }
}

/// Files in memory, of which chosen reads fail. The store is told.
///
/// A read whose number is chosen answers `Failed`, whether the name is there or not. Each other read gives as many
/// bytes as there are and the buffer takes, and `Missing` where no file has the name. A read with an empty buffer has
/// a number too. The number of the read and both counts stop at 2^64 - 1.
#[derive(Drop)]
pub struct MemFiles {
    files: Vec<File>,
    failing: Vec<u64>,
    asked: u64,
    faults: u64,
    missing: u64,
}

impl Model for MemFiles {
    ghost use Rattle.files_core.specs.Counts.{IsCount};
    ghost use Rattle.files_core.specs.Held.{Faulty};

    ghost Value = { Faulty };

    ghost view = { λ h. record {
      files = h.files.items;
      failing = h.failing.items;
      asked = h.asked;
      faults = h.faults;
      missing = h.missing;
    } };

    ghost invariant = { λ h. IsCount h.faults × IsCount h.missing };
}

impl MemFiles {
    /// These files by their names. Read number k, from 0 and over all names, fails where k is in `failing`.
    /// Of two files with one name the first counts.
    pub fn new(files: Vec<File>, failing: Vec<u64>) -> Result<MemFiles, NoMemory>
        ensures { IfOk result (λ h. h ≡ record { files = files.items; failing = failing.items; asked = 0; faults = 0; missing = 0 }) }
    {
        Ok(MemFiles {
            files,
            failing,
            asked: 0,
            faults: 0,
            missing: 0,
        })
    }
}

impl Files for MemFiles {
    ghost store = { λ h. Some (store_of h.files) };

    ghost faults = { λ h. h.faults };

    ghost missing = { λ h. h.missing };

    fn read_at(&mut self, name: &str, at: u64, buf: &mut [u8]) -> ReadAnswer
        ensures answer { IsReadAnswer (Some (store_of self.old.files)) name.now at result buf.new }
        ensures failing { Contains self.old.failing self.old.asked → result ≡ ReadAnswer.Failed }
        ensures serving { ¬ Contains self.old.failing self.old.asked
            → result ≡ served (file_of (store_of self.old.files) name.now) at (length buf.old) }
        ensures counted { self.new ≡ after_read result self.old }
        ensures cause { ReadHasCause result self.old.missing self.new.missing self.old.faults self.new.faults }
        ensures store { store_of self.new.files ≡ store_of self.old.files }
        ensures faults { self.old.faults ≤ self.new.faults }
        ensures missing { self.old.missing ≤ self.new.missing }
        ensures ends { IsCount self.new.faults × IsCount self.new.missing }
    {
        let number = self.asked;
        self.asked = number.saturating_add(1);
        if is_listed(&self.failing, number) {
            self.faults = self.faults.saturating_add(1);
            return ReadAnswer::Failed;
        }
        let answer = serve(&self.files, name.as_bytes(), at, buf);
        if answer == ReadAnswer::Missing {
            self.missing = self.missing.saturating_add(1);
        }
        answer
    }
}
