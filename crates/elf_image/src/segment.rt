//! Segments, and the program headers that they are read from.

ghost use Rattle.std.specs.Prelude.{◌≡◌, ◌+◌, ◌*◌, ◌^◌, ◌≤◌, ◌<◌, ◌||◌, length, nat_lt, IfOk, IfErr, OnOk};
ghost use Rattle.std.specs.List.{sum_by};
ghost use Rattle.elf_image.specs.Segments.{end, header_fault, header_at, segment_at, is_riscv_program, segments_of};
ghost use Rattle.elf_image.specs.Overlaps.{shares};
ghost use Rattle.elf_image.specs.Image.{IsRefusal, memory_size};

use crate::IMAGE_LIMIT;
use crate::fault::ImageFault;
use crate::fields::{
    e_machine, e_phentsize, e_phnum, e_phoff, e_type, is_within, p_filesz, p_memsz, p_offset,
    p_type, p_vaddr,
};
use std::alloc::Global;

/// The bytes of the ELF header of an ELF-64 file.
const ELF_HEADER: usize = 64;

/// The bytes of a program header of an ELF-64 file, `e_phentsize`.
const PROGRAM_HEADER: u64 = 56;

/// `e_machine` of RISC-V.
const EM_RISCV: u16 = 243;

/// `e_type` of an executable.
const ET_EXEC: u16 = 2;

/// `e_type` of a shared object, which an executable that may lie anywhere is too.
const ET_DYN: u16 = 3;

/// `p_type` of a segment that is loaded.
const PT_LOAD: u32 = 1;

/// How many addresses there are.
const ADDRESSES: u128 = 1 << 64;

/// A part of memory: `size` bytes from `addr` on, of which the first `file_size` stand in the file from `offset` on and
/// the others are zero.
#[derive(Clone, Copy, Debug, PartialEq, Eq)]
pub struct Segment {
    /// The number of its program header, from 0.
    pub number: u32,
    /// Where its bytes begin in the file, `p_offset`.
    pub offset: u64,
    /// Its first address, `p_vaddr`.
    pub addr: u64,
    /// How many of its bytes stand in the file, `p_filesz`.
    pub file_size: u64,
    /// How many bytes it has, `p_memsz`.
    pub size: u64,
}

impl Segment {
    /// What is behind its last address.
    pub fn end(&self) -> u128
        ensures { result ≡ end self.now }
    {
        u128::from(self.addr) + u128::from(self.size)
    }

    /// Whether both have an address: both begin before either ends.
    pub fn shares(&self, other: &Segment) -> bool
        ensures { result ≡ shares self.now other.now }
    {
        u128::from(self.addr.max(other.addr)) < self.end().min(other.end())
    }

    /// Whether more bytes stand in the file than it has, or it passes the last address.
    fn is_out_of_range(&self) -> bool
        ensures { result ≡ nat_lt self.now.size self.now.file_size || nat_lt (2 ^ 64) (end self.now) }
    {
        self.size < self.file_size || self.end() > ADDRESSES
    }
}

/// Whether the ELF header is that of an executable or a shared object for RISC-V, with program headers, if there are
/// any, of 56 bytes.
fn is_riscv_program(file: &[u8]) -> bool
    requires { 64 ≤ length file.now }
    ensures { result ≡ is_riscv_program file.now }
{
    e_machine(file) == EM_RISCV
        && (e_type(file) == ET_EXEC || e_type(file) == ET_DYN)
        && (u64::from(e_phentsize(file)) == PROGRAM_HEADER || e_phnum(file) == 0)
}

/// The first refusal of the ELF header, if there is one.
pub fn header_fault(file: &[u8]) -> Option<ImageFault>
    ensures { result ≡ header_fault file.now }
{
    if file.len() < ELF_HEADER {
        return Some(ImageFault::Truncated {
            at: file.len() as u64,
        });
    }
    if file[4] != 2 {
        return Some(ImageFault::Class);
    }
    if file[5] != 1 {
        return Some(ImageFault::Order);
    }
    if !is_riscv_program(file) {
        return Some(ImageFault::Kind);
    }
    None
}

/// The segment of a program header that is wholly in the file, whether it is loaded or not.
fn segment_at(file: &[u8], number: u32, at: usize) -> Segment
    requires { at + 56 ≤ length file.now }
    ensures { result ≡ segment_at file.now number at }
{
    Segment {
        number,
        offset: p_offset(file, at),
        addr: p_vaddr(file, at),
        file_size: p_filesz(file, at),
        size: p_memsz(file, at),
    }
}

/// What the program header of that number, at that place in the file, gives: a segment, or none where it loads no byte.
fn read_header(file: &[u8], number: u32, at: u64) -> Result<Option<Segment>, ImageFault>
    ensures value { result ≡ header_at file.now number at }
    ensures there { OnOk result (at + 56 ≤ length file.now) }
{
    if !is_within(file, at, PROGRAM_HEADER) {
        return Err(ImageFault::Truncated { at });
    }
    let segment = segment_at(file, number, at as usize);
    if p_type(file, at as usize) != PT_LOAD || segment.size == 0 {
        return Ok(None);
    }
    if segment.is_out_of_range() {
        return Err(ImageFault::Range { i: number });
    }
    if !is_within(file, segment.offset, segment.file_size) {
        return Err(ImageFault::Truncated { at: segment.offset });
    }
    Ok(Some(segment))
}

/// The segments of an ELF file, in the order of their program headers, or the first refusal.
pub fn read_segments(alloc: Global, file: &[u8]) -> Result<Vec<Segment>, ImageFault>
    requires { 64 ≤ length file.now }
    ensures ok { IfOk result (λ v. segments_of file.now ≡ Ok v.items) }
    ensures err { IfErr result (IsRefusal (segments_of file.now)) }
{
    let mut segments = Vec::new(alloc);
    let mut at = e_phoff(file);
    for number in 0..u32::from(e_phnum(file)) {
        let found = match read_header(file, number, at) {
            Err(fault) => return Err(fault),
            Ok(found) => found,
        };
        if let Some(segment) = found {
            segments.push(segment)?;
        }
        at += PROGRAM_HEADER;
    }
    Ok(segments)
}

/// Whether segments together have more bytes than the limit.
pub fn exceed_limit(segments: &[Segment]) -> bool
    ensures { result ≡ nat_lt IMAGE_LIMIT (memory_size segments.now) }
{
    let mut total: u64 = 0;
    for segment in segments {
        if segment.size > IMAGE_LIMIT - total {
            return true;
        }
        total += segment.size;
    }
    false
}
