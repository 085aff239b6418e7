//! What a proof file says, and the constants that it gives, as a line.

use bv_bits::Bits;
use case_lines::{bytes_of, cut_word, number_32, spelled};
use constants_walk::{ConstantsData, PlacedValue, constants};
use lex_core::{Name, NoMemory};
use proof_form::{NamedProof, NamedValue, ReadProof, read_proof};
use sqlite_items::Items;
use std::alloc::Global;

/// The registers' values.
fn values(alloc: Global, values: &[NamedValue]) -> Result<String, NoMemory> {
    let mut all = String::new(alloc);
    for one in values {
        let name = spelled(alloc, one.register.bytes())?;
        let told = format!(in alloc; " {name}={}'{:#x}", one.value.width, one.value.value)?;
        all.push_str(told.as_str())?;
    }
    Ok(all)
}

/// The specification's name and code.
fn code(alloc: Global, proof: &NamedProof) -> Result<String, NoMemory> {
    let spec = spelled(alloc, proof.spec.bytes())?;
    Ok(format!(in alloc; "{spec} code {:#x} {:#x}", proof.lo, proof.hi)?)
}

/// An exit or a block, as the word says: its name, its address, and its values.
fn point(
    alloc: Global,
    what: &str,
    name: &Name,
    at: u64,
    given: &[NamedValue],
) -> Result<String, NoMemory> {
    let name = spelled(alloc, name.bytes())?;
    let given = values(alloc, given)?;
    Ok(format!(in alloc; "{what} {name} {at:#x}{given}")?)
}

/// The exit and the block.
fn points(alloc: Global, proof: &NamedProof) -> Result<String, NoMemory> {
    let exit = point(
        alloc,
        "exit",
        &proof.exit,
        proof.exit_at,
        proof.wanted.as_slice(),
    )?;
    let block = point(
        alloc,
        "block",
        &proof.block,
        proof.entry_at,
        proof.entry.as_slice(),
    )?;
    Ok(format!(in alloc; "{exit}, {block}")?)
}

/// The parts of a proof.
fn parts(alloc: Global, proof: &NamedProof) -> Result<String, NoMemory> {
    let code = code(alloc, proof)?;
    let points = points(alloc, proof)?;
    Ok(format!(in alloc; "{code}, {points}")?)
}

/// What the text says as a proof file.
pub fn proof(alloc: Global, text: &[u8]) -> Result<String, NoMemory> {
    match read_proof(alloc, text)? {
        ReadProof::NoProof { at } => Ok(format!(in alloc; "no proof at {at}")?),
        ReadProof::Outside => Ok(String::from_str(alloc, "outside")?),
        ReadProof::Read(proof) => parts(alloc, &proof),
    }
}

/// One part behind the other.
fn joined(alloc: Global, parts: [&[u8]; 3]) -> Result<Vec<u8>, NoMemory> {
    let [before, new, behind] = parts;
    let mut text = Vec::new(alloc);
    text.extend_from_slice(before)?;
    text.extend_from_slice(new)?;
    text.extend_from_slice(behind)?;
    Ok(text)
}

/// The text with the first of the old bytes changed to the new ones; empty where they don't stand in it.
fn replaced(alloc: Global, base: &[u8], old: &[u8], new: &[u8]) -> Result<Vec<u8>, NoMemory> {
    for place in 0..base.len() {
        let (before, rest) = base.split_at(place);
        if let Some(behind) = rest.strip_prefix(old) {
            return joined(alloc, [before, new, behind]);
        }
    }
    Ok(Vec::new(alloc))
}

/// The text with its first `OLD` changed to `NEW`, as `OLD|NEW` says; empty where it has none.
pub fn changed(alloc: Global, base: &str, change: &str) -> Result<Vec<u8>, NoMemory> {
    let (old, new) = change.split_once('|').unwrap_or(("", ""));
    let old = bytes_of(alloc, old)?;
    let new = bytes_of(alloc, new)?;
    replaced(alloc, base.as_bytes(), old.as_slice(), new.as_slice())
}

/// The constants.
fn told(alloc: Global, data: &ConstantsData) -> Result<String, NoMemory> {
    let entry = data.entry.len();
    let exit = data.exit.len();
    Ok(format!(in alloc;
        "code {:#x} {:#x}, entry {:#x} with {entry}, exit {:#x} with {exit}",
        data.lo, data.hi, data.entry_at, data.exit_at
    )?)
}

/// The constants of the proof, over so many registers.
fn constants_in(alloc: Global, proof: &NamedProof, count: usize) -> Result<String, NoMemory> {
    let value = Bits {
        width: 64,
        value: 0x41,
    };
    let mut entry = Items::new(alloc);
    entry.push(PlacedValue { register: 1, value })?;
    match constants(proof, entry, Items::new(alloc), count, 0) {
        Some(data) => told(alloc, &data),
        None => Ok(String::from_str(alloc, "none")?),
    }
}

/// The constants of the changed proof file over as many registers as the first word says. The program counter is
/// register 0; register 1 is 0x41 at the entry.
pub fn constants_of(alloc: Global, base: &str, rest: &str) -> Result<String, NoMemory> {
    let (count, change) = cut_word(rest);
    let text = changed(alloc, base, change)?;
    let ReadProof::Read(proof) = read_proof(alloc, text.as_slice())? else {
        return Ok(String::from_str(alloc, "no proof")?);
    };
    match usize::try_from(number_32(count).unwrap_or(0)) {
        Ok(count) => constants_in(alloc, &proof, count),
        Err(_) => Ok(String::from_str(alloc, "no count")?),
    }
}
