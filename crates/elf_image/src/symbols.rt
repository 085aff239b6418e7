//! Symbol tables, and the look-up of a name in them.

ghost use Rattle.std.specs.Prelude.{◌≡◌, ◌≢◌, ◌+◌, ◌*◌, ◌≤◌, ℕ, All, IfOk, IfErr, IfSome, MatchOption, Some, None, length, drop, bytes_eq, is_some};
ghost use Rattle.std.specs.List.{flat_map};
ghost use Rattle.elf_image.specs.declared.fault.ImageFault.TheVariants as fault;
ghost use Rattle.elf_image.specs.Symbols.{has_bytes, is_name, is_symbol_table, name_in, names_of, section_at, section_count, symbols_in, table_at, table_by, table_of, tables_of, value_of};
ghost use Rattle.elf_image.specs.Image.{HoldsTable};

use crate::fault::ImageFault;
use crate::fields::{
    e_shentsize, e_shnum, e_shoff, is_within, sh_entsize, sh_link, sh_offset, sh_size, sh_type,
    st_name, st_value,
};
use std::alloc::Global;

/// The bytes of a section header of an ELF-64 file, `e_shentsize`.
const SECTION_HEADER: u64 = 64;

/// The bytes of a symbol of an ELF-64 file, `sh_entsize` of a symbol table.
const SYMBOL: u64 = 24;

/// `sh_type` of a symbol table.
const SHT_SYMTAB: u32 = 2;

/// A symbol table: `count` symbols of 24 bytes from `at` on in the file, whose names stand in the `names_size` bytes
/// from `names_at` on.
#[derive(Clone, Copy, Debug, PartialEq, Eq)]
pub struct Table {
    pub at: u64,
    pub count: u64,
    pub names_at: u64,
    pub names_size: u64,
}

/// Where the section header of that number stands, if it is wholly in the file.
fn section_at(file: &[u8], number: u32) -> Option<usize>
    requires { 64 ≤ length file.now }
    ensures value { result ≡ section_at file.now number }
    ensures there { IfSome result (λ at. at + 64 ≤ length file.now) }
{
    let first = e_shoff(file);
    let offset = SECTION_HEADER * u64::from(number);
    if !is_within(file, first, offset + SECTION_HEADER) {
        return None;
    }
    Some((first + offset) as usize)
}

/// Whether the bytes of the section whose header stands there lie in the file.
fn has_bytes(file: &[u8], at: usize) -> bool
    requires { at + 64 ≤ length file.now }
    ensures { result ≡ has_bytes file.now at }
{
    is_within(file, sh_offset(file, at), sh_size(file, at))
}

/// The symbol table by the places of its section header and of that of the section of its names.
fn table_by(file: &[u8], at: usize, names: usize) -> Option<Table>
    requires table { at + 64 ≤ length file.now }
    requires names { names + 64 ≤ length file.now }
    ensures { result ≡ table_by file.now at names }
{
    if !has_bytes(file, at) || !has_bytes(file, names) {
        return None;
    }
    Some(Table {
        at: sh_offset(file, at),
        count: sh_size(file, at) / SYMBOL,
        names_at: sh_offset(file, names),
        names_size: sh_size(file, names),
    })
}

/// Whether the section header that stands there is that of a symbol table with symbols of 24 bytes, and its `sh_link`
/// is below `e_shnum`.
fn is_symbol_table(file: &[u8], at: usize) -> bool
    requires header { 64 ≤ length file.now }
    requires section { at + 64 ≤ length file.now }
    ensures { result ≡ is_symbol_table file.now at }
{
    sh_type(file, at) == SHT_SYMTAB
        && sh_entsize(file, at) == SYMBOL
        && sh_link(file, at) < u32::from(e_shnum(file))
}

/// The symbol table of the section header of that number, if it is one.
fn table_of(file: &[u8], number: u32) -> Option<Table>
    requires { 64 ≤ length file.now }
    ensures { result ≡ table_of file.now number }
{
    let at = section_at(file, number)?;
    if !is_symbol_table(file, at) {
        return None;
    }
    let names = section_at(file, sh_link(file, at))?;
    table_by(file, at, names)
}

/// How many section headers there are; none count where they haven't 64 bytes.
fn section_count(file: &[u8]) -> u32
    requires { 64 ≤ length file.now }
    ensures { result ≡ section_count file.now }
{
    if u64::from(e_shentsize(file)) != SECTION_HEADER {
        return 0;
    }
    u32::from(e_shnum(file))
}

/// The symbol tables of an ELF file, in the order of their section headers.
pub fn read_tables(alloc: Global, file: &[u8]) -> Result<Vec<Table>, ImageFault>
    requires { 64 ≤ length file.now }
    ensures ok { IfOk result (λ v. v.items ≡ tables_of file.now) }
    ensures err { IfErr result (λ f. f ≡ fault.NoMemory) }
{
    let mut tables = Vec::new(alloc);
    for number in 0..section_count(file) {
        if let Some(table) = table_of(file, number) {
            tables.push(table)?;
        }
    }
    Ok(tables)
}

/// Whether the bytes from a place on, up to the first zero, are a name, which has no zero.
fn has_name(names: &[u8], start: usize, name: &[u8]) -> bool
    requires { All (λ b. b ≢ 0) name.now }
    ensures { result ≡ is_name name.now (name_in (drop start names.now)) }
{
    if start >= names.len() || name.len() >= names.len() - start {
        return false;
    }
    let end = start + name.len();
    names[end] == 0 && name == &names[start..end]
}

/// The value of the first symbol of a table with a name, which has no zero.
fn value_in(file: &[u8], table: &Table, name: &[u8]) -> Option<u64>
    requires whole { All (λ b. b ≢ 0) name.now }
    requires holds { HoldsTable file.now table.now }
    ensures { result ≡ value_of name.now (symbols_in file.now table.now) }
{
    let from = table.names_at as usize;
    let names = &file[from..from + table.names_size as usize];
    for i in 0..table.count {
        let at = (table.at + SYMBOL * i) as usize;
        if has_name(names, st_name(file, at) as usize, name) {
            return Some(st_value(file, at));
        }
    }
    None
}

/// The value of the first symbol with a name, table by table.
pub fn value_of(file: &[u8], tables: &[Table], name: &[u8]) -> Option<u64>
    requires { All (HoldsTable file.now) tables.now }
    ensures { result ≡ value_of name.now (flat_map (symbols_in file.now) tables.now) }
{
    if name.contains(&0) {
        return None;
    }
    for table in tables {
        if let Some(value) = value_in(file, table, name) {
            return Some(value);
        }
    }
    None
}
