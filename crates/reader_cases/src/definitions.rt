//! Programs and faults as text.

use crate::expressions::expression;
use crate::words::{name, names, number, parameters, placed, type_name, types};
use lex_core::Name;
use sail_reader::{SailFault, read};
use sail_syntax::{Def, Expr, Param, Program, Ty};
use std::alloc::{AllocError, Global};

/// How deep an expression is told.
const DEPTH: u32 = 8;

/// How many definitions are told.
const FEW: usize = 8;

/// Adds the word of a definition, its place and its name.
fn head(
    alloc: Global,
    out: &mut String,
    word: &str,
    at: usize,
    of: &Name,
) -> Result<(), AllocError> {
    placed(out, word, at)?;
    name(alloc, out, of)
}

/// Adds what follows the name of a function.
fn function(
    alloc: Global,
    out: &mut String,
    params: &[Param],
    answer: &Ty,
    body: &Expr,
) -> Result<(), AllocError> {
    parameters(alloc, out, params)?;
    type_name(alloc, out, answer)?;
    expression(alloc, out, body, DEPTH)
}

/// Adds a definition.
fn definition(alloc: Global, out: &mut String, def: &Def) -> Result<(), AllocError> {
    match def {
        Def::Order => out.push_str(" order"),
        Def::Register { name, width, at } => {
            head(alloc, out, " register", *at, name)?;
            number(out, *width)
        }
        Def::Enum { name, members, at } => {
            head(alloc, out, " enum", *at, name)?;
            names(alloc, out, members.as_slice())
        }
        Def::Val {
            name,
            args,
            result: answer,
            at,
        } => {
            head(alloc, out, " val", *at, name)?;
            types(alloc, out, args.as_slice())?;
            type_name(alloc, out, answer)
        }
        Def::Function {
            name,
            params,
            result: answer,
            body,
            at,
        } => {
            head(alloc, out, " function", *at, name)?;
            function(alloc, out, params.as_slice(), answer, body)
        }
    }
}

/// Adds definitions.
fn definitions(alloc: Global, out: &mut String, defs: &[Def]) -> Result<(), AllocError> {
    for def in defs {
        definition(alloc, out, def)?;
    }
    Ok(())
}

/// The definitions of a program. Of more than eight definitions only their number.
fn program(alloc: Global, of: &Program) -> Result<String, AllocError> {
    let defs = of.defs.as_slice();
    let count = defs.len();
    if count > FEW {
        return format!(in alloc; " {count} definitions");
    }
    let mut out = String::new(alloc);
    definitions(alloc, &mut out, defs)?;
    Ok(out)
}

/// The definitions of the text's program, or its fault.
pub fn told(alloc: Global, text: &[u8]) -> Result<String, AllocError> {
    match read(alloc, text) {
        Ok(read) => program(alloc, &read),
        Err(SailFault::NoMemory) => Err(AllocError),
        Err(fault) => format!(in alloc; " {fault:?}"),
    }
}
