//! The parts of an ELF-64 file, field by field, the lowest byte first.

use std::alloc::AllocError;

/// A number of a file: in two bytes, in four, or in eight. What has no room in two or four is 0.
#[derive(Clone, Copy)]
enum Field {
    Half(u64),
    Word(u64),
    Long(u64),
}

fn half(file: &mut Vec<u8>, value: u64) -> Result<(), AllocError> {
    let value = u16::try_from(value).unwrap_or(0);
    file.extend_from_slice(&value.to_le_bytes())
}

fn word(file: &mut Vec<u8>, value: u64) -> Result<(), AllocError> {
    let value = u32::try_from(value).unwrap_or(0);
    file.extend_from_slice(&value.to_le_bytes())
}

fn long(file: &mut Vec<u8>, value: u64) -> Result<(), AllocError> {
    file.extend_from_slice(&value.to_le_bytes())
}

/// Adds a field.
fn add(file: &mut Vec<u8>, field: Field) -> Result<(), AllocError> {
    match field {
        Field::Half(value) => half(file, value),
        Field::Word(value) => word(file, value),
        Field::Long(value) => long(file, value),
    }
}

/// Adds fields.
fn add_all(file: &mut Vec<u8>, fields: &[Field]) -> Result<(), AllocError> {
    for field in fields {
        add(file, *field)?;
    }
    Ok(())
}

/// Begins a file with the 64 bytes of the ELF header of a RISC-V executable, by e_phoff, e_phnum, e_shoff and e_shnum.
pub fn elf(file: &mut Vec<u8>, fields: [u64; 4]) -> Result<(), AllocError> {
    let [phoff, phnum, shoff, shnum] = fields;
    file.clear();
    file.extend_from_slice(b"\x7fELF\x02\x01\x01\0\0\0\0\0\0\0\0\0")?;
    let fields = [
        Field::Half(2),
        Field::Half(243),
        Field::Word(1),
        Field::Long(0),
        Field::Long(phoff),
        Field::Long(shoff),
        Field::Word(0),
        Field::Half(64),
        Field::Half(56),
        Field::Half(phnum),
        Field::Half(64),
        Field::Half(shnum),
        Field::Half(0),
    ];
    add_all(file, &fields)
}

/// The 56 bytes of a program header, by p_type, p_offset, p_vaddr, p_filesz and p_memsz.
pub fn program_header(file: &mut Vec<u8>, fields: [u64; 5]) -> Result<(), AllocError> {
    let [kind, offset, vaddr, filesz, memsz] = fields;
    let fields = [
        Field::Word(kind),
        Field::Word(5),
        Field::Long(offset),
        Field::Long(vaddr),
        Field::Long(vaddr),
        Field::Long(filesz),
        Field::Long(memsz),
        Field::Long(1),
    ];
    add_all(file, &fields)
}

/// The 64 bytes of a section header, by sh_type, sh_offset, sh_size, sh_link and sh_entsize.
pub fn section_header(file: &mut Vec<u8>, fields: [u64; 5]) -> Result<(), AllocError> {
    let [kind, offset, size, link, entsize] = fields;
    let fields = [
        Field::Word(0),
        Field::Word(kind),
        Field::Long(0),
        Field::Long(0),
        Field::Long(offset),
        Field::Long(size),
        Field::Word(link),
        Field::Word(0),
        Field::Long(1),
        Field::Long(entsize),
    ];
    add_all(file, &fields)
}

/// The 24 bytes of a symbol, by st_name and st_value.
pub fn symbol(file: &mut Vec<u8>, fields: [u64; 2]) -> Result<(), AllocError> {
    let [name, value] = fields;
    let fields = [
        Field::Word(name),
        Field::Word(0x12),
        Field::Long(value),
        Field::Long(0),
    ];
    add_all(file, &fields)
}
