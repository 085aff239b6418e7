//! Places of registers, code in an image, and printed lines.

use bv_bits::Bits;
use case_lines::{bytes_of, hex_bytes, number_32, number_64, spelled, words};
use constants_text::{address, on_file, on_name, on_run};
use constants_walk::{PlacedValue, code_of, place_registers};
use elf_image::{Image, load};
use lex_core::{Name, NoMemory, RegDecl};
use proof_form::NamedValue;
use sqlite_items::Items;
use std::alloc::Global;

/// A name and a width, as `x1:64`.
fn sized<'a>(word: &'a str) -> (&'a str, u32) {
    let (name, width) = word.split_once(':').unwrap_or((word, ""));
    (name, number_32(width).unwrap_or(64))
}

/// The registers `PC`, `x1` and `x2` of 64 bits, and `x1` again of 1 bit.
fn registers(alloc: Global) -> Result<Items<RegDecl>, NoMemory> {
    let mut all = Items::new(alloc);
    for word in ["PC:64", "x1:64", "x2:64", "x1:1"] {
        let (name, width) = sized(word);
        let name = Name::of(alloc, name.as_bytes())?;
        all.push(RegDecl { name, width })?;
    }
    Ok(all)
}

/// Values of 1, each for a name with its width.
fn ones(alloc: Global, given: &[&str]) -> Result<Items<NamedValue>, NoMemory> {
    let mut values = Items::new(alloc);
    for word in given {
        let (name, width) = sized(word);
        let register = Name::of(alloc, name.as_bytes())?;
        let value = Bits { width, value: 1 };
        values.push(NamedValue { register, value })?;
    }
    Ok(values)
}

/// Values of registers.
fn shown(alloc: Global, placed: &[PlacedValue]) -> Result<String, NoMemory> {
    let mut all = String::from_str(alloc, "placed")?;
    for one in placed {
        let one = format!(in alloc;
            " {}={}'{:#x}",
            one.register, one.value.width, one.value.value
        )?;
        all.push_str(one.as_str())?;
    }
    Ok(all)
}

/// The numbers of the registers to which values of 1 are given, each a name with its width.
fn places(alloc: Global, given: &[&str]) -> Result<String, NoMemory> {
    let registers = registers(alloc)?;
    let values = ones(alloc, given)?;
    match place_registers(alloc, registers.as_slice(), 0, values.as_slice())? {
        Some(placed) => shown(alloc, placed.as_slice()),
        None => Ok(String::from_str(alloc, "none")?),
    }
}

/// The bytes of an image from one address up to below another.
fn code_bytes(alloc: Global, image: &Image, lo: u64, hi: u64) -> Result<String, NoMemory> {
    match code_of(alloc, image, lo, hi)? {
        Some(code) => Ok(spelled(alloc, code.as_slice())?),
        None => Ok(String::from_str(alloc, "none")?),
    }
}

/// The bytes of the image from one address up to below another.
fn code(alloc: Global, image: &str, lo: &str, hi: &str) -> Result<String, NoMemory> {
    let image = hex_bytes(alloc, image)?;
    let lo = number_64(lo).unwrap_or(0);
    let hi = number_64(hi).unwrap_or(0);
    match load(alloc, image.as_slice()) {
        Ok(image) => code_bytes(alloc, &image, lo, hi),
        Err(_) => Ok(String::from_str(alloc, "no image")?),
    }
}

/// The line of a run: what it is, its number, the specification, the block, the address or `-`, and the details.
fn run(alloc: Global, parts: &[&str; 5], more: &[u8]) -> Result<String, NoMemory> {
    let [what, number, spec, block, pc] = *parts;
    let number = number_32(number).unwrap_or(0);
    let spec = spec.as_bytes();
    let line = on_run(
        alloc,
        what.as_bytes(),
        number,
        spec,
        block.as_bytes(),
        number_64(pc),
        more,
    )?;
    Ok(spelled(alloc, line.as_slice())?)
}

/// An address as it is printed.
fn address_line(alloc: Global, at: &str) -> Result<String, NoMemory> {
    let line = address(alloc, number_64(at).unwrap_or(0))?;
    Ok(spelled(alloc, line.as_slice())?)
}

/// The line of a name.
fn name_line(alloc: Global, kind: &str, name: &str) -> Result<String, NoMemory> {
    let line = on_name(alloc, kind.as_bytes(), name.as_bytes())?;
    Ok(spelled(alloc, line.as_slice())?)
}

/// The line of a file.
fn file_line(alloc: Global, parts: [&str; 3], more: &[&str]) -> Result<String, NoMemory> {
    let [kind, number, name] = parts;
    let more = bytes_of(alloc, more.first().copied().unwrap_or(""))?;
    let number = number_32(number).unwrap_or(0);
    let line = on_file(alloc, kind.as_bytes(), number, name.as_bytes(), &more)?;
    Ok(spelled(alloc, line.as_slice())?)
}

/// The line of a run, with its details in escapes.
fn run_line(alloc: Global, parts: &[&str; 5], more: &[&str]) -> Result<String, NoMemory> {
    let more = bytes_of(alloc, more.first().copied().unwrap_or(""))?;
    run(alloc, parts, &more)
}

/// What one of the commands with words comes to.
fn of_words(alloc: Global, what: &str, parts: &[&str]) -> Result<String, NoMemory> {
    match parts {
        [image, lo, hi] if what == "code" => code(alloc, image, lo, hi),
        [at] if what == "address" => address_line(alloc, at),
        [kind, name] if what == "name" => name_line(alloc, kind, name),
        [kind, number, name, more @ ..] if what == "file" => {
            file_line(alloc, [*kind, *number, *name], more)
        }
        [kind, number, spec, block, pc, more @ ..] if what == "run" => {
            run_line(alloc, &[*kind, *number, *spec, *block, *pc], more)
        }
        _ => Ok(String::from_str(alloc, "no such case")?),
    }
}

/// What one of the other commands comes to: `places NAME:WIDTH ..`, `code IMAGE LO HI` with the image in hexadecimal digits,
/// `address AT`, `name WHAT NAME`, `file WHAT NUMBER NAME MORE`, `run WHAT NUMBER SPEC BLOCK PC MORE`. `MORE` has escapes.
pub fn other(alloc: Global, what: &str, rest: &str) -> Result<String, NoMemory> {
    let parts = words(alloc, rest)?;
    if what == "places" {
        places(alloc, parts.as_slice())
    } else {
        of_words(alloc, what, parts.as_slice())
    }
}
