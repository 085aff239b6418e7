//! The fields of an ELF-64 file, each by its name in the ELF-64 object file format. All numbers are little-endian.

ghost use Rattle.std.specs.Prelude.{◌≡◌, ◌+◌, ◌≤◌, length};
ghost use Rattle.elf_image.specs.Fields as field;

use byteorder::{ByteOrder, LittleEndian};

/// The first bytes of an ELF file.
const MAGIC: [u8; 4] = [0x7f, b'E', b'L', b'F'];

/// Whether the file begins with the bytes of an ELF file.
pub fn has_magic(file: &[u8]) -> bool
    ensures { result ≡ field.has_magic file.now }
{
    &file[..file.len().min(4)] == &MAGIC[..]
}

/// Whether so many bytes from a place on lie in the file.
pub fn is_within(file: &[u8], at: u64, size: u64) -> bool
    ensures { result ≡ field.is_within file.now at size }
{
    let length = file.len() as u64;
    at <= length && size <= length - at
}

/// The number in the two bytes from a place on.
#[tactic(auto, unfolding(crate::specs::Fields::number_in))]
fn u16_at(file: &[u8], at: usize) -> u16
    requires { at + 2 ≤ length file.now }
    ensures { result ≡ field.number_in file.now at 2 }
{
    LittleEndian::read_u16(&file[at..])
}

/// The number in the four bytes from a place on.
#[tactic(auto, unfolding(crate::specs::Fields::number_in))]
fn u32_at(file: &[u8], at: usize) -> u32
    requires { at + 4 ≤ length file.now }
    ensures { result ≡ field.number_in file.now at 4 }
{
    LittleEndian::read_u32(&file[at..])
}

/// The number in the eight bytes from a place on.
#[tactic(auto, unfolding(crate::specs::Fields::number_in))]
fn u64_at(file: &[u8], at: usize) -> u64
    requires { at + 8 ≤ length file.now }
    ensures { result ≡ field.number_in file.now at 8 }
{
    LittleEndian::read_u64(&file[at..])
}

// ---- the ELF header

/// What the file is for.
pub fn e_type(file: &[u8]) -> u16
    requires { 64 ≤ length file.now }
    ensures { result ≡ field.e_type file.now }
{
    u16_at(file, 16)
}

/// The processor that it is for.
pub fn e_machine(file: &[u8]) -> u16
    requires { 64 ≤ length file.now }
    ensures { result ≡ field.e_machine file.now }
{
    u16_at(file, 18)
}

/// Where the program headers begin.
pub fn e_phoff(file: &[u8]) -> u64
    requires { 64 ≤ length file.now }
    ensures { result ≡ field.e_phoff file.now }
{
    u64_at(file, 32)
}

/// Where the section headers begin.
pub fn e_shoff(file: &[u8]) -> u64
    requires { 64 ≤ length file.now }
    ensures { result ≡ field.e_shoff file.now }
{
    u64_at(file, 40)
}

/// The bytes of a program header.
pub fn e_phentsize(file: &[u8]) -> u16
    requires { 64 ≤ length file.now }
    ensures { result ≡ field.e_phentsize file.now }
{
    u16_at(file, 54)
}

/// How many program headers there are.
pub fn e_phnum(file: &[u8]) -> u16
    requires { 64 ≤ length file.now }
    ensures { result ≡ field.e_phnum file.now }
{
    u16_at(file, 56)
}

/// The bytes of a section header.
pub fn e_shentsize(file: &[u8]) -> u16
    requires { 64 ≤ length file.now }
    ensures { result ≡ field.e_shentsize file.now }
{
    u16_at(file, 58)
}

/// How many section headers there are.
pub fn e_shnum(file: &[u8]) -> u16
    requires { 64 ≤ length file.now }
    ensures { result ≡ field.e_shnum file.now }
{
    u16_at(file, 60)
}

// ---- the program header at a place

/// What the header describes.
pub fn p_type(file: &[u8], at: usize) -> u32
    requires { at + 56 ≤ length file.now }
    ensures { result ≡ field.p_type file.now at }
{
    u32_at(file, at)
}

/// Where the segment's bytes begin in the file.
pub fn p_offset(file: &[u8], at: usize) -> u64
    requires { at + 56 ≤ length file.now }
    ensures { result ≡ field.p_offset file.now at }
{
    u64_at(file, at + 8)
}

/// The segment's first address.
pub fn p_vaddr(file: &[u8], at: usize) -> u64
    requires { at + 56 ≤ length file.now }
    ensures { result ≡ field.p_vaddr file.now at }
{
    u64_at(file, at + 16)
}

/// How many bytes of the segment stand in the file.
pub fn p_filesz(file: &[u8], at: usize) -> u64
    requires { at + 56 ≤ length file.now }
    ensures { result ≡ field.p_filesz file.now at }
{
    u64_at(file, at + 32)
}

/// How many bytes the segment has in memory.
pub fn p_memsz(file: &[u8], at: usize) -> u64
    requires { at + 56 ≤ length file.now }
    ensures { result ≡ field.p_memsz file.now at }
{
    u64_at(file, at + 40)
}

// ---- the section header at a place

/// What the section holds.
pub fn sh_type(file: &[u8], at: usize) -> u32
    requires { at + 64 ≤ length file.now }
    ensures { result ≡ field.sh_type file.now at }
{
    u32_at(file, at + 4)
}

/// Where the section's bytes begin in the file.
pub fn sh_offset(file: &[u8], at: usize) -> u64
    requires { at + 64 ≤ length file.now }
    ensures { result ≡ field.sh_offset file.now at }
{
    u64_at(file, at + 24)
}

/// How many bytes the section has.
pub fn sh_size(file: &[u8], at: usize) -> u64
    requires { at + 64 ≤ length file.now }
    ensures { result ≡ field.sh_size file.now at }
{
    u64_at(file, at + 32)
}

/// Of a symbol table, the number of the section header of its names.
pub fn sh_link(file: &[u8], at: usize) -> u32
    requires { at + 64 ≤ length file.now }
    ensures { result ≡ field.sh_link file.now at }
{
    u32_at(file, at + 40)
}

/// Of a symbol table, the bytes of a symbol.
pub fn sh_entsize(file: &[u8], at: usize) -> u64
    requires { at + 64 ≤ length file.now }
    ensures { result ≡ field.sh_entsize file.now at }
{
    u64_at(file, at + 56)
}

// ---- the symbol at a place

/// Where its name begins in the section of the names.
pub fn st_name(file: &[u8], at: usize) -> u32
    requires { at + 24 ≤ length file.now }
    ensures { result ≡ field.st_name file.now at }
{
    u32_at(file, at)
}

/// Its value.
pub fn st_value(file: &[u8], at: usize) -> u64
    requires { at + 24 ≤ length file.now }
    ensures { result ≡ field.st_value file.now at }
{
    u64_at(file, at + 8)
}
