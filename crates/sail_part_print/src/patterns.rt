//! Indices and patterns.

ghost use Rattle.std.specs.Prelude.{◌≡◌, ◌++◌, OnOk};
ghost use Rattle.sail_text.specs.Parts as spec;

use crate::types::put_width;
use crate::words::{put_bits, put_name, put_truth};
use bit_text::put_number;
use lex_core::NoMemory;
use sail_syntax::{Index, Part, Pattern};
use std::alloc::Global;

/// Appends a plus and a number, as what is added to the variable of an index; nothing where that is 0.
fn put_plus(alloc: Global, out: &mut Vec<u8>, plus: u32) -> Result<(), NoMemory>
    ensures { OnOk result (out.new.items ≡ out.old.items ++ spec.plus_text plus) }
{
    if plus > 0 {
        out.extend_from_slice(b" +")?;
        put_number(alloc, out, plus)?;
    }
    Ok(())
}

/// Appends an index: a variable and what is added to it, or a number alone.
pub fn put_index(alloc: Global, out: &mut Vec<u8>, index: &Index) -> Result<(), NoMemory>
    ensures { OnOk result (out.new.items ≡ out.old.items ++ spec.index_text index.now) }
{
    match &index.var {
        None => put_number(alloc, out, index.plus),
        Some(var) => {
            put_name(out, var)?;
            put_plus(alloc, out, index.plus)
        }
    }
}

/// Appends a part of a pattern.
fn put_part(alloc: Global, out: &mut Vec<u8>, part: &Part) -> Result<(), NoMemory>
    ensures { OnOk result (out.new.items ≡ out.old.items ++ spec.part_text part.now) }
{
    match part {
        Part::Lit(bits) => put_bits(out, *bits),
        Part::Bind { name, width } => {
            put_name(out, name)?;
            out.extend_from_slice(b" :")?;
            put_width(alloc, out, *width)
        }
        Part::Skip { width } => {
            out.extend_from_slice(b" _ :")?;
            put_width(alloc, out, *width)
        }
    }
}

/// Appends parts of a pattern, each with an `@` before it.
fn put_more_parts(alloc: Global, out: &mut Vec<u8>, parts: &[Part]) -> Result<(), NoMemory>
    ensures { OnOk result (out.new.items ≡ out.old.items ++ spec.more_parts_text parts.now) }
{
    for part in parts {
        out.extend_from_slice(b" @")?;
        put_part(alloc, out, part)?;
    }
    Ok(())
}

/// Appends the parts of a pattern.
fn put_parts(alloc: Global, out: &mut Vec<u8>, parts: &[Part]) -> Result<(), NoMemory>
    ensures { OnOk result (out.new.items ≡ out.old.items ++ spec.parts_text parts.now) }
{
    match parts {
        [] => Ok(()),
        [first, rest @ ..] => {
            put_part(alloc, out, first)?;
            put_more_parts(alloc, out, rest)
        }
    }
}

/// Appends a pattern.
pub fn put_pattern(alloc: Global, out: &mut Vec<u8>, pattern: &Pattern) -> Result<(), NoMemory>
    ensures { OnOk result (out.new.items ≡ out.old.items ++ spec.pattern_text pattern.now) }
{
    match pattern {
        Pattern::Any => out.extend_from_slice(b" _")?,
        Pattern::Name(name) => put_name(out, name)?,
        Pattern::Lit(bits) => put_bits(out, *bits)?,
        Pattern::Truth(truth) => put_truth(out, *truth)?,
        Pattern::Parts(parts) => put_parts(alloc, out, parts.as_slice())?,
    }
    Ok(())
}
