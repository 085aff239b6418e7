//! Types, alone and behind a name, and rows of names, types and parameters, with a comma between two of them.

ghost use Rattle.std.specs.Prelude.{◌≡◌, ◌++◌, OnOk};
ghost use Rattle.sail_text.specs.Parts as spec;

use crate::words::put_name;
use bit_text::put_number;
use lex_core::{Name, NoMemory};
use sail_syntax::{Param, Ty};
use std::alloc::Global;

/// Appends ` bits ( width )`.
pub fn put_width(alloc: Global, out: &mut Vec<u8>, width: u32) -> Result<(), NoMemory>
    ensures { OnOk result (out.new.items ≡ out.old.items ++ spec.width_text width) }
{
    out.extend_from_slice(b" bits (")?;
    put_number(alloc, out, width)?;
    out.extend_from_slice(b" )")?;
    Ok(())
}

/// Appends a space and a type.
pub fn put_type(alloc: Global, out: &mut Vec<u8>, ty: &Ty) -> Result<(), NoMemory>
    ensures { OnOk result (out.new.items ≡ out.old.items ++ spec.type_text ty.now) }
{
    match ty {
        Ty::Unit => out.extend_from_slice(b" unit")?,
        Ty::Bool => out.extend_from_slice(b" bool")?,
        Ty::Bits(width) => put_width(alloc, out, *width)?,
        Ty::Enum(name) => put_name(out, name)?,
    }
    Ok(())
}

/// Appends a colon and the type that is written behind a name; nothing where none is.
pub fn put_written(alloc: Global, out: &mut Vec<u8>, ty: &Option<Ty>) -> Result<(), NoMemory>
    ensures { OnOk result (out.new.items ≡ out.old.items ++ spec.written_text ty.now) }
{
    match ty {
        None => Ok(()),
        Some(ty) => {
            out.extend_from_slice(b" :")?;
            put_type(alloc, out, ty)
        }
    }
}

/// Appends names, each with a comma before it.
fn put_more_names(out: &mut Vec<u8>, names: &[Name]) -> Result<(), NoMemory>
    ensures { OnOk result (out.new.items ≡ out.old.items ++ spec.more_names_text names.now) }
{
    for name in names {
        out.extend_from_slice(b" ,")?;
        put_name(out, name)?;
    }
    Ok(())
}

/// Appends names in a row.
pub fn put_names(out: &mut Vec<u8>, names: &[Name]) -> Result<(), NoMemory>
    ensures { OnOk result (out.new.items ≡ out.old.items ++ spec.names_text names.now) }
{
    match names {
        [] => Ok(()),
        [first, rest @ ..] => {
            put_name(out, first)?;
            put_more_names(out, rest)
        }
    }
}

/// Appends types, each with a comma before it.
fn put_more_types(alloc: Global, out: &mut Vec<u8>, types: &[Ty]) -> Result<(), NoMemory>
    ensures { OnOk result (out.new.items ≡ out.old.items ++ spec.more_types_text types.now) }
{
    for ty in types {
        out.extend_from_slice(b" ,")?;
        put_type(alloc, out, ty)?;
    }
    Ok(())
}

/// Appends types in a row.
pub fn put_types(alloc: Global, out: &mut Vec<u8>, types: &[Ty]) -> Result<(), NoMemory>
    ensures { OnOk result (out.new.items ≡ out.old.items ++ spec.types_text types.now) }
{
    match types {
        [] => Ok(()),
        [first, rest @ ..] => {
            put_type(alloc, out, first)?;
            put_more_types(alloc, out, rest)
        }
    }
}

/// Appends a parameter: its name, a colon and its type.
fn put_param(alloc: Global, out: &mut Vec<u8>, param: &Param) -> Result<(), NoMemory>
    ensures { OnOk result (out.new.items ≡ out.old.items ++ spec.param_text param.now) }
{
    put_name(out, &param.name)?;
    out.extend_from_slice(b" :")?;
    put_type(alloc, out, &param.ty)
}

/// Appends parameters, each with a comma before it.
fn put_more_params(alloc: Global, out: &mut Vec<u8>, params: &[Param]) -> Result<(), NoMemory>
    ensures { OnOk result (out.new.items ≡ out.old.items ++ spec.more_params_text params.now) }
{
    for param in params {
        out.extend_from_slice(b" ,")?;
        put_param(alloc, out, param)?;
    }
    Ok(())
}

/// Appends parameters in a row.
pub fn put_params(alloc: Global, out: &mut Vec<u8>, params: &[Param]) -> Result<(), NoMemory>
    ensures { OnOk result (out.new.items ≡ out.old.items ++ spec.params_text params.now) }
{
    match params {
        [] => Ok(()),
        [first, rest @ ..] => {
            put_param(alloc, out, first)?;
            put_more_params(alloc, out, rest)
        }
    }
}
