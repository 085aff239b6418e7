//! The files and the standard output of the system. They tell no content.

ghost use Rattle.std.specs.Prelude.{◌≡◌, ◌≤◌, None, length};
ghost use Rattle.std.specs.Io.{ReadsAtMost, WritesAtMost};
ghost use Rattle.files_core.specs.Counts.{IsCount, next};
ghost use Rattle.files_core.specs.Reads.{IsReadAnswer, ReadHasCause, faults_behind, missing_behind};
ghost use Rattle.files_core.specs.Writes.{IsWriteAnswer, IsEmptyWrite, WriteHasCause};
ghost use Rattle.files_core.specs.Writes as write;

use crate::answers::{ReadAnswer, WriteAnswer};
use crate::files::Files;
use crate::sink::Sink;
use lex_core::Name;
use std::alloc::Global;
use std::fs;
use std::io::{self, ErrorKind, Read, Seek, SeekFrom, Write};
use std::rt::Files as SystemFiles;

// A file that is open, with the name that it was opened by.
#[derive(Drop)]
struct OpenFile<H: Drop> {
    name: Name,
    file: H,
}

// Why a file was not opened.
#[derive(Drop)]
enum OpenFault {
    Missing,
    Failed,
    NoMemory,
}

fn open<R: SystemFiles>(rt: &R, alloc: Global, name: &str) -> Result<OpenFile<R::File>, OpenFault> {
    let Ok(own) = Name::of(alloc, name.as_bytes()) else {
        return Err(OpenFault::NoMemory);
    };
    match fs::open(rt, name) {
        Ok(file) => Ok(OpenFile { name: own, file }),
        Err(error) => match error.kind() {
            ErrorKind::NotFound => Err(OpenFault::Missing),
            _ => Err(OpenFault::Failed),
        },
    }
}

fn read_piece<H: Read + Seek>(file: &mut H, at: u64, buf: &mut [u8]) -> io::Result<usize>
    ensures { ReadsAtMost result buf.new }
{
    file.seek(SeekFrom::Start(at))?;
    file.read(buf)
}

/// Files of the system, by their paths. The file that was read last stays open, so that a file that is read in many
/// pieces is opened once.
///
/// `Missing` is the system's 'not found'. Every other error of the system is a fault; the read of a folder and a read
/// that was interrupted are among them.
#[derive(Drop)]
pub struct HostFiles<R: SystemFiles + Drop> {
    rt: R,
    alloc: Global,
    last: Option<OpenFile<R::File>>,
    faults: u64,
    missing: u64,
    ghost ends: { IsCount faults × IsCount missing },
}

impl<R: SystemFiles + Drop> HostFiles<R> {
    /// The files that this runtime reaches. None has been read, and nothing is counted.
    pub fn new(alloc: Global, rt: R) -> Self
        ensures faults { result.faults ≡ 0 }
        ensures missing { result.missing ≡ 0 }
    {
        HostFiles {
            rt,
            alloc,
            last: None,
            faults: 0,
            missing: 0,
        }
    }

    // The open file, if it is the one of that name. No other file stays open.
    fn take_open(&mut self, name: &str) -> Option<OpenFile<R::File>>
        ensures faults { self.new.faults ≡ self.old.faults }
        ensures missing { self.new.missing ≡ self.old.missing }
    {
        let open = self.last.take()?;
        if open.name.is(name.as_bytes()) {
            Some(open)
        } else {
            None
        }
    }

    fn count_fault(&mut self) -> ReadAnswer
        ensures answer { result ≡ ReadAnswer.Failed }
        ensures faults { self.new.faults ≡ next self.old.faults }
        ensures missing { self.new.missing ≡ self.old.missing }
    {
        self.faults = self.faults.saturating_add(1);
        ReadAnswer::Failed
    }

    fn count_missing(&mut self) -> ReadAnswer
        ensures answer { result ≡ ReadAnswer.Missing }
        ensures faults { self.new.faults ≡ self.old.faults }
        ensures missing { self.new.missing ≡ next self.old.missing }
    {
        self.missing = self.missing.saturating_add(1);
        ReadAnswer::Missing
    }
}

impl<R: SystemFiles + Drop> Files for HostFiles<R> {
    ghost store = { λ _. None };

    ghost faults = { λ h. h.faults };

    ghost missing = { λ h. h.missing };

    fn read_at(&mut self, name: &str, at: u64, buf: &mut [u8]) -> ReadAnswer
        ensures answer { IsReadAnswer None name.now at result buf.new }
        ensures counted_faults { self.new.faults ≡ faults_behind result self.old.faults }
        ensures counted_missing { self.new.missing ≡ missing_behind result self.old.missing }
        ensures cause { ReadHasCause result self.old.missing self.new.missing self.old.faults self.new.faults }
        ensures faults { self.old.faults ≤ self.new.faults }
        ensures missing { self.old.missing ≤ self.new.missing }
        ensures ends { IsCount self.new.faults × IsCount self.new.missing }
    {
        let mut file = match self.take_open(name) {
            Some(file) => file,
            None => match open(&self.rt, self.alloc, name) {
                Ok(file) => file,
                Err(OpenFault::Missing) => return self.count_missing(),
                Err(OpenFault::Failed) => return self.count_fault(),
                Err(OpenFault::NoMemory) => return ReadAnswer::NoMemory,
            },
        };
        match read_piece(&mut file.file, at, buf) {
            Ok(count) => {
                self.last = Some(file);
                ReadAnswer::Got(count)
            }
            Err(_) => self.count_fault(),
        }
    }
}

/// A writer of the system, as its standard output. Each write is flushed. An error of the system, of the flush too,
/// is a fault, and so is a write that takes no byte of a piece that has some.
#[derive(Drop)]
pub struct HostSink<W: Write + Drop> {
    out: W,
    faults: u64,
    ghost ends: { IsCount faults },
}

impl<W: Write + Drop> HostSink<W> {
    /// The sink that writes there. Nothing is counted.
    pub fn new(out: W) -> Self
        ensures faults { result.faults ≡ 0 }
    {
        HostSink { out, faults: 0 }
    }
}

// The count of bytes that were written and flushed.
fn write_piece<W: Write>(out: &mut W, piece: &[u8]) -> io::Result<usize>
    ensures { WritesAtMost result piece.now }
{
    let count = out.write(piece)?;
    out.flush()?;
    Ok(count)
}

impl<W: Write + Drop> Sink for HostSink<W> {
    ghost bytes = { λ _. None };

    ghost faults = { λ s. s.faults };

    fn write(&mut self, piece: &[u8]) -> WriteAnswer
        ensures answer { IsWriteAnswer None piece.now result None }
        ensures empty { length piece.now ≡ 0 → IsEmptyWrite result self.old.faults self.new.faults }
        ensures counted { self.new.faults ≡ write.faults_behind result self.old.faults }
        ensures cause { WriteHasCause result self.old.faults self.new.faults }
        ensures faults { self.old.faults ≤ self.new.faults }
        ensures ends { IsCount self.new.faults }
    {
        if piece.is_empty() {
            return WriteAnswer::Took(0);
        }
        match write_piece(&mut self.out, piece) {
            Ok(count) if count > 0 => WriteAnswer::Took(count),
            _ => {
                self.faults = self.faults.saturating_add(1);
                WriteAnswer::Failed
            }
        }
    }
}
