//! Functions, definitions and programs.

ghost use Rattle.std.specs.Prelude.{◌≡◌, ◌++◌, map, IfOk, OnOk, string_bytes};
ghost use Rattle.std.specs.Str.{IsUtf8};
ghost use Rattle.std.specs.Str.Lossy.{utf8_lossy};
ghost use Rattle.sail_syntax.specs.View.{tree, definition_of, program_of};
ghost use Rattle.sail_text.specs.Definitions.{function_text, definition_text, printed};

use crate::expressions::put_expr;
use crate::heads::put;
use lex_core::{Name, NoMemory};
use sail_part_print::{put_name, put_names, put_params, put_type, put_types, put_width};
use sail_syntax::{Def, Expr, Param, Program, Ty};
use std::alloc::Global;

/// Appends a function: its head, and its body.
fn put_function(
    alloc: Global,
    out: &mut Vec<u8>,
    name: &Name,
    params: &[Param],
    gives: &Ty,
    body: &Expr,
) -> Result<(), NoMemory>
    ensures { OnOk result (out.new.items ≡ out.old.items ++ function_text name.now params.now gives.now (tree body.now)) }
{
    put(out, b"function")?;
    put_name(out, name)?;
    put(out, b" (")?;
    put_params(alloc, out, params)?;
    put(out, b" ) ->")?;
    put_type(alloc, out, gives)?;
    put(out, b" =")?;
    put_expr(alloc, out, body)
}

/// Appends a definition.
fn put_definition(alloc: Global, out: &mut Vec<u8>, def: &Def) -> Result<(), NoMemory>
    ensures { OnOk result (out.new.items ≡ out.old.items ++ definition_text (definition_of def.now)) }
{
    match def {
        Def::Order => put(out, b"default Order dec"),
        Def::Register { name, width, .. } => {
            put(out, b"register")?;
            put_name(out, name)?;
            put(out, b" :")?;
            put_width(alloc, out, *width)
        }
        Def::Enum { name, members, .. } => {
            put(out, b"enum")?;
            put_name(out, name)?;
            put(out, b" = {")?;
            put_names(out, members.as_slice())?;
            put(out, b" }")
        }
        Def::Val {
            name,
            args,
            result: gives,
            ..
        } => {
            put(out, b"val")?;
            put_name(out, name)?;
            put(out, b" : (")?;
            put_types(alloc, out, args.as_slice())?;
            put(out, b" ) ->")?;
            put_type(alloc, out, gives)
        }
        Def::Function {
            name,
            params,
            result: gives,
            body,
            ..
        } => put_function(alloc, out, name, params.as_slice(), gives, body),
    }
}

/// Appends definitions, each as a line of its own.
fn put_definitions(alloc: Global, out: &mut Vec<u8>, defs: &[Def]) -> Result<(), NoMemory>
    ensures { OnOk result (out.new.items ≡ out.old.items ++ printed (map definition_of defs.now)) }
{
    for def in defs {
        put_definition(alloc, out, def)?;
        out.push(b'\n')?;
    }
    Ok(())
}

/// The text of a program: a line for each definition, which ends with a newline, with one space between the tokens of a line. Parentheses stand
/// only where they are needed.
///
/// The text is the same bytes where the names are UTF-8, as in each program that was read, and has U+FFFD in place of what isn't. The time is in
/// proportion to the text.
pub fn print(alloc: Global, program: &Program) -> Result<String, NoMemory>
    ensures exact { IfOk result (λ s. IsUtf8 (printed (program_of program.now)) → string_bytes s ≡ printed (program_of program.now)) }
    ensures any_names { IfOk result (λ s. string_bytes s ≡ utf8_lossy (printed (program_of program.now))) }
{
    let mut out = Vec::new(alloc);
    put_definitions(alloc, &mut out, program.defs.as_slice())?;
    Ok(String::from_utf8_lossy(alloc, out.as_slice())?)
}
