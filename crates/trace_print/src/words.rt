//! The words of a line behind its first, each with a space before it.

ghost use Rattle.std.specs.Prelude.{◌≡◌, ◌++◌, ◌∷◌, ◌<◌, OnOk, length};
ghost use Rattle.term_tree.specs.View.{tree};
ghost use Rattle.trace_plain.specs.Printable.{HasText};
ghost use Rattle.trace_print.specs.Printing as spec;

use bit_text::put_literal;
use bv_bits::Bits;
use lex_core::{NoMemory, RegDecl};
use std::alloc::Global;
use term_print::put_term;
use term_tree::Term;
use trace_plain::FailKind;

/// Appends bytes.
pub fn put(out: &mut Vec<u8>, text: &[u8]) -> Result<(), NoMemory>
    ensures { OnOk result (out.new.items ≡ out.old.items ++ text.now) }
{
    out.extend_from_slice(text)?;
    Ok(())
}

/// Appends the name of a register.
pub fn put_register(out: &mut Vec<u8>, registers: &[RegDecl], reg: usize) -> Result<(), NoMemory>
    requires { reg < length registers.now }
    ensures { OnOk result (out.new.items ≡ out.old.items ++ spec.register_text registers.now reg) }
{
    out.push(b' ')?;
    out.extend_from_slice(registers[reg].name.bytes())?;
    Ok(())
}

/// Appends a variable: `v` and its number.
pub fn put_var(alloc: Global, out: &mut Vec<u8>, var: u32) -> Result<(), NoMemory>
    ensures { OnOk result (out.new.items ≡ out.old.items ++ spec.var_text var) }
{
    let number = format!(in alloc; "{var}")?;
    out.extend_from_slice(b" v")?;
    out.extend_from_slice(&number.into_bytes())?;
    Ok(())
}

/// Appends a count in decimal digits.
pub fn put_count(alloc: Global, out: &mut Vec<u8>, count: usize) -> Result<(), NoMemory>
    ensures { OnOk result (out.new.items ≡ out.old.items ++ spec.number_text count) }
{
    let number = format!(in alloc; "{count}")?;
    out.push(b' ')?;
    out.extend_from_slice(&number.into_bytes())?;
    Ok(())
}

/// Appends a literal with all its digits.
pub fn put_value(out: &mut Vec<u8>, value: Bits) -> Result<(), NoMemory>
    ensures { OnOk result (out.new.items ≡ out.old.items ++ spec.value_text value) }
{
    out.push(b' ')?;
    put_literal(out, value)
}

/// Appends a term.
pub fn put_spaced(alloc: Global, out: &mut Vec<u8>, term: &Term) -> Result<(), NoMemory>
    requires { HasText (tree term.now) }
    ensures { OnOk result (out.new.items ≡ out.old.items ++ spec.spaced (tree term.now)) }
{
    out.push(b' ')?;
    put_term(alloc, out, term)
}

/// Why a path fails.
pub fn failure_word(kind: FailKind) -> &'static [u8]
    ensures { result.now ≡ spec.failure_text kind }
{
    match kind {
        FailKind::Match => b" match",
        FailKind::Assert => b" assert",
        FailKind::Exit => b" exit",
        FailKind::Unsupported => b" unsupported",
        FailKind::AssumedWritten => b" assumed_written",
    }
}
