//! Names, types, parameters, indices and patterns as text, each added to a text behind a space.

use bv_bits::Bits;
use case_lines::spelled;
use lex_core::Name;
use sail_syntax::{Index, Param, Part, Pattern, Ty};
use std::alloc::{AllocError, Global};

/// Adds the bytes of a name, without a space.
pub fn bare(alloc: Global, out: &mut String, name: &Name) -> Result<(), AllocError> {
    let text = spelled(alloc, name.bytes())?;
    out.push_str(text.as_str())
}

/// Adds a name.
pub fn name(alloc: Global, out: &mut String, name: &Name) -> Result<(), AllocError> {
    out.push(' ')?;
    bare(alloc, out, name)
}

/// Adds a number.
pub fn number(out: &mut String, number: u32) -> Result<(), AllocError> {
    write!(out, " {number}")
}

/// Adds a place, without a space.
pub fn place(out: &mut String, at: usize) -> Result<(), AllocError> {
    write!(out, "@{at}")
}

/// Adds a word and its place, without a space.
pub fn placed(out: &mut String, word: &str, at: usize) -> Result<(), AllocError> {
    write!(out, "{word}@{at}")
}

/// Adds a literal: its width and its number.
pub fn literal(out: &mut String, bits: Bits) -> Result<(), AllocError> {
    let width = bits.width;
    let value = bits.value;
    write!(out, " {width}'{value}")
}

/// Adds `true` or `false`.
pub fn truth(out: &mut String, truth: bool) -> Result<(), AllocError> {
    out.push_str(if truth { " true" } else { " false" })
}

/// Adds a type, without a space.
fn bare_type(alloc: Global, out: &mut String, ty: &Ty) -> Result<(), AllocError> {
    match ty {
        Ty::Unit => out.push_str("unit"),
        Ty::Bool => out.push_str("bool"),
        Ty::Bits(width) => write!(out, "bits({width})"),
        Ty::Enum(name) => bare(alloc, out, name),
    }
}

/// Adds a type.
pub fn type_name(alloc: Global, out: &mut String, ty: &Ty) -> Result<(), AllocError> {
    out.push(' ')?;
    bare_type(alloc, out, ty)
}

/// Adds a name and its type.
fn typed(alloc: Global, out: &mut String, of: &Name, ty: &Ty) -> Result<(), AllocError> {
    name(alloc, out, of)?;
    out.push(':')?;
    bare_type(alloc, out, ty)
}

/// Adds the name of a local, and its type, if one is written.
pub fn local(
    alloc: Global,
    out: &mut String,
    of: &Name,
    ty: &Option<Ty>,
) -> Result<(), AllocError> {
    match ty {
        Some(ty) => typed(alloc, out, of, ty),
        None => name(alloc, out, of),
    }
}

/// Adds names.
pub fn names(alloc: Global, out: &mut String, all: &[Name]) -> Result<(), AllocError> {
    for one in all {
        name(alloc, out, one)?;
    }
    Ok(())
}

/// Adds types in brackets.
pub fn types(alloc: Global, out: &mut String, all: &[Ty]) -> Result<(), AllocError> {
    out.push_str(" (")?;
    for ty in all {
        type_name(alloc, out, ty)?;
    }
    out.push_str(" )")
}

/// Adds parameters in brackets.
pub fn parameters(alloc: Global, out: &mut String, all: &[Param]) -> Result<(), AllocError> {
    out.push_str(" (")?;
    for param in all {
        typed(alloc, out, &param.name, &param.ty)?;
    }
    out.push_str(" )")
}

/// Adds an index.
fn index(alloc: Global, out: &mut String, of: &Index) -> Result<(), AllocError> {
    match &of.var {
        Some(var) => {
            name(alloc, out, var)?;
            let plus = of.plus;
            write!(out, "+{plus}")
        }
        None => number(out, of.plus),
    }
}

/// Adds the two indices of a slice.
pub fn indices(alloc: Global, out: &mut String, hi: &Index, lo: &Index) -> Result<(), AllocError> {
    index(alloc, out, hi)?;
    index(alloc, out, lo)
}

/// Adds a part of a pattern.
fn part(alloc: Global, out: &mut String, of: &Part) -> Result<(), AllocError> {
    match of {
        Part::Lit(bits) => literal(out, *bits),
        Part::Bind { name: of, width } => {
            name(alloc, out, of)?;
            write!(out, ":{width}")
        }
        Part::Skip { width } => write!(out, " _:{width}"),
    }
}

/// Adds the parts of a pattern.
fn parts(alloc: Global, out: &mut String, all: &[Part]) -> Result<(), AllocError> {
    out.push_str(" [")?;
    for one in all {
        part(alloc, out, one)?;
    }
    out.push_str(" ]")
}

/// Adds a pattern.
pub fn pattern(alloc: Global, out: &mut String, of: &Pattern) -> Result<(), AllocError> {
    match of {
        Pattern::Any => out.push_str(" _"),
        Pattern::Name(of) => name(alloc, out, of),
        Pattern::Lit(bits) => literal(out, *bits),
        Pattern::Truth(of) => truth(out, *of),
        Pattern::Parts(all) => parts(alloc, out, all.as_slice()),
    }
}
