//! The texts that the program prints. Each line ends with a newline.

ghost use Rattle.std.specs.Prelude.{◌≡◌, ◌++◌, List, IfOk, OnOk, option_map};
ghost use Rattle.std.specs.List.{flat_map};
ghost use Rattle.std.specs.Fmt as fmt;
ghost use Rattle.constants_text.specs.Texts.{address_text, exit_line, block_line, spec_lines, report_text, line_end, on_file_text, on_name_text, pc_text, on_run_text, usage_text};

use lex_core::{Name, NoMemory};
use sqlite_items::Items;
use std::alloc::Global;

/// An exit of a specification: its name, and the address where it stands.
#[derive(Drop)]
pub struct Exit {
    pub name: Name,
    pub address: u64,
}

/// A block that was checked: its name, the address where it starts, how many instructions were walked and how many
/// certificates were taken in it.
#[derive(Drop)]
pub struct Block {
    pub name: Name,
    pub address: u64,
    pub instructions: u32,
    pub certificates: u32,
}

/// What the report says of a specification: its name, its exits and its blocks, in the order of the proof file.
#[derive(Drop)]
pub struct SpecReport {
    pub name: Name,
    pub exits: Items<Exit>,
    pub blocks: Items<Block>,
}

/// Appends the pieces to the text.
fn append(text: &mut Vec<u8>, pieces: &[&[u8]]) -> Result<(), NoMemory>
    ensures { OnOk result (text.new.items ≡ text.old.items ++ flat_map (λ p. p.now) pieces.now) }
{
    for piece in pieces {
        text.extend_from_slice(piece)?;
    }
    Ok(())
}

/// The pieces in a row.
pub fn join(alloc: Global, pieces: &[&[u8]]) -> Result<Vec<u8>, NoMemory>
    ensures exact { IfOk result (λ text. text.items ≡ flat_map (λ p. p.now) pieces.now) }
{
    let mut text = Vec::new(alloc);
    append(&mut text, pieces)?;
    Ok(text)
}

/// A number in decimal digits, with no zero in front.
pub fn decimal(alloc: Global, number: u64) -> Result<Vec<u8>, NoMemory>
    ensures exact { IfOk result (λ text. text.items ≡ fmt.decimal number) }
{
    let text = format!(in alloc; "{number}")?;
    Ok(text.into_bytes())
}

/// An address: `0x` and sixteen hex digits in lower case.
pub fn address(alloc: Global, at: u64) -> Result<Vec<u8>, NoMemory>
    ensures exact { IfOk result (λ text. text.items ≡ address_text at) }
{
    let text = format!(in alloc; "0x{at:016x}")?;
    Ok(text.into_bytes())
}

/// Appends a line for each exit.
#[tactic(auto, using(crate::proofs::TextLemmas::one_more), unfolding(crate::specs::Texts::exit_line))]
fn append_exits(alloc: Global, text: &mut Vec<u8>, exits: &[Exit]) -> Result<(), NoMemory>
    ensures { OnOk result (text.new.items ≡ text.old.items ++ flat_map exit_line exits.now) }
{
    for exit in exits {
        let at = address(alloc, exit.address)?;
        append(text, &[b"exit ", exit.name.bytes(), b" ", &at, b"\n"])?;
    }
    Ok(())
}

/// Appends a line for each block.
fn append_blocks(alloc: Global, text: &mut Vec<u8>, blocks: &[Block]) -> Result<(), NoMemory>
    ensures { OnOk result (text.new.items ≡ text.old.items ++ flat_map block_line blocks.now) }
{
    for block in blocks {
        let at = address(alloc, block.address)?;
        let instructions = decimal(alloc, block.instructions as u64)?;
        let certificates = decimal(alloc, block.certificates as u64)?;
        let name = block.name.bytes();
        append(
            text,
            &[
                b"block ",
                name,
                b" ",
                &at,
                b" instructions ",
                &instructions,
                b" certificates ",
                &certificates,
                b"\n",
            ],
        )?;
    }
    Ok(())
}

/// Appends the lines of a specification.
fn append_spec(alloc: Global, text: &mut Vec<u8>, spec: &SpecReport) -> Result<(), NoMemory>
    ensures { OnOk result (text.new.items ≡ text.old.items ++ spec_lines spec.now) }
{
    append(text, &[b"spec ", spec.name.bytes(), b" no sample\n"])?;
    append_exits(alloc, text, spec.exits.as_slice())?;
    append_blocks(alloc, text, spec.blocks.as_slice())?;
    Ok(())
}

/// The report of a check that accepts: `accepted`, and the lines of each specification.
#[tactic(auto, using(crate::proofs::TextLemmas::one_more), unfolding(crate::specs::Texts::report_text))]
pub fn report(alloc: Global, specs: &[SpecReport]) -> Result<Vec<u8>, NoMemory>
    ensures exact { IfOk result (λ text. text.items ≡ report_text specs.now) }
{
    let mut text = b"accepted\n".to_vec(alloc)?;
    for spec in specs {
        append_spec(alloc, &mut text, spec)?;
    }
    Ok(text)
}

/// Ends a line with these words, which may be none.
fn end_line(text: &mut Vec<u8>, words: &[u8]) -> Result<(), NoMemory>
    ensures { OnOk result (text.new.items ≡ text.old.items ++ line_end words.now) }
{
    if words.is_empty() {
        append(text, &[b"\n"])
    } else {
        append(text, &[b" ", words, b"\n"])
    }
}

/// A fault or a limit of a file, as `input 57 mini.sail 0`: what it is, its number, the file's name, and its fields
/// with blanks between them, which may be none.
#[tactic(auto, unfolding(crate::specs::Texts::on_file_text))]
pub fn on_file(
    alloc: Global,
    what: &[u8],
    number: u32,
    name: &[u8],
    more: &[u8],
) -> Result<Vec<u8>, NoMemory>
    ensures exact { IfOk result (λ text. text.items ≡ on_file_text what.now number name.now more.now) }
{
    let number = decimal(alloc, number as u64)?;
    let mut text = join(alloc, &[what, b" ", &number, b" ", name])?;
    end_line(&mut text, more)?;
    Ok(text)
}

/// What is to be said of a name, as `missing inc.ipf`.
#[tactic(auto, unfolding(crate::specs::Texts::on_name_text))]
pub fn on_name(alloc: Global, what: &[u8], name: &[u8]) -> Result<Vec<u8>, NoMemory>
    ensures exact { IfOk result (λ text. text.items ≡ on_name_text what.now name.now) }
{
    join(alloc, &[what, b" ", name, b"\n"])
}

/// The address of an instruction, and `-` where there is none.
fn pc_or_dash(alloc: Global, pc: Option<u64>) -> Result<Vec<u8>, NoMemory>
    ensures { IfOk result (λ text. text.items ≡ pc_text pc) }
{
    match pc {
        Some(at) => address(alloc, at),
        None => Ok(b"-".to_vec(alloc)?),
    }
}

/// A refusal or a limit of checking, as `refused 44 inc entry 0x0000000080000000 condition 0 goal 0b0 why false`: what
/// it is, its number, the specification, the block, the address of the instruction, and its details with blanks
/// between them, which may be none. A specification or a block that there isn't is `-`.
#[tactic(auto, unfolding(crate::specs::Texts::on_run_text))]
pub fn on_run(
    alloc: Global,
    what: &[u8],
    number: u32,
    spec: &[u8],
    block: &[u8],
    pc: Option<u64>,
    more: &[u8],
) -> Result<Vec<u8>, NoMemory>
    ensures exact { IfOk result (λ text. text.items ≡ on_run_text what.now number spec.now block.now pc more.now) }
{
    let number = decimal(alloc, number as u64)?;
    let pc = pc_or_dash(alloc, pc)?;
    let mut text = join(alloc, &[what, b" ", &number, b" "])?;
    append(&mut text, &[spec, b" ", block, b" ", &pc])?;
    end_line(&mut text, more)?;
    Ok(text)
}

/// What is printed where the words are no command: `words`, and how the program is called.
pub fn usage(alloc: Global) -> Result<Vec<u8>, NoMemory>
    ensures exact { IfOk result (λ text. text.items ≡ usage_text) }
{
    Ok(
        b"words\nusage: islaris trace SAIL OPCODE [REG=LIT ..]\nusage: islaris check SAIL IMAGE PROOF\n".to_vec(
            alloc,
        )?,
    )
}
