//! Traces, their ends and their children.

ghost use Rattle.std.specs.Prelude.{◌≡◌, ◌++◌, IfOk, OnOk, length, map, string_bytes};
ghost use Rattle.std.specs.Str.{IsUtf8};
ghost use Rattle.std.specs.Str.Lossy.{utf8_lossy};
ghost use Rattle.trace_plain.specs.Printable.{AreRegisters, IsPrintable, IsPrintableEnd, ArePrintable};
ghost use Rattle.trace_plain.specs.Trace.{count};
ghost use Rattle.trace_plain.specs.View.{end_of, trace_of, traces};
ghost use Rattle.trace_print.specs.Printing as spec;

use crate::events::put_events;
use crate::words::{failure_word, put, put_count};
use lex_core::{NoMemory, RegDecl};
use std::alloc::Global;
use trace_plain::{PlainEnd, PlainTrace};

/// How many children there are.
#[tactic(auto, using(crate::proofs::Counts::count_of))]
fn number_of(children: &[PlainTrace]) -> usize
    ensures { result ≡ count (traces (map trace_of children.now)) }
{
    children.len()
}

/// Appends the line in front of so many children.
fn put_cases(alloc: Global, out: &mut Vec<u8>, children: usize) -> Result<(), NoMemory>
    ensures { OnOk result (out.new.items ≡ out.old.items ++ spec.cases_text children) }
{
    put(out, b"cases")?;
    put_count(alloc, out, children)?;
    put(out, b"\n")
}

/// Appends a trace.
#[cycle(put)]
fn put_trace(
    alloc: Global,
    out: &mut Vec<u8>,
    registers: &[RegDecl],
    trace: &PlainTrace,
) -> Result<(), NoMemory>
    requires { IsPrintable (length registers.now) (trace_of trace.now) }
    ensures { OnOk result (out.new.items ≡ out.old.items ++ spec.trace_text registers.now (trace_of trace.now)) }
{
    put_events(alloc, out, registers, trace.events.as_slice())?;
    put_end(alloc, out, registers, &trace.end)
}

/// Appends an end, and the traces that it goes on as.
#[cycle(put)]
fn put_end(
    alloc: Global,
    out: &mut Vec<u8>,
    registers: &[RegDecl],
    end: &PlainEnd,
) -> Result<(), NoMemory>
    requires { IsPrintableEnd (length registers.now) (end_of end.now) }
    ensures { OnOk result (out.new.items ≡ out.old.items ++ spec.end_text registers.now (end_of end.now)) }
{
    match end {
        PlainEnd::Done => put(out, b"done\n"),
        PlainEnd::Fail(kind) => {
            put(out, b"fail")?;
            put(out, failure_word(*kind))?;
            put(out, b"\n")
        }
        PlainEnd::Cases(children) => {
            put_cases(alloc, out, number_of(children.as_slice()))?;
            put_children(alloc, out, registers, children.as_slice())
        }
    }
}

/// Appends traces, one after the other.
#[cycle(put)]
fn put_children(
    alloc: Global,
    out: &mut Vec<u8>,
    registers: &[RegDecl],
    children: &[PlainTrace],
) -> Result<(), NoMemory>
    requires { ArePrintable (length registers.now) (traces (map trace_of children.now)) }
    ensures { OnOk result (out.new.items ≡ out.old.items ++ spec.children_text registers.now (traces (map trace_of children.now))) }
{
    for child in children {
        put_trace(alloc, out, registers, child)?;
    }
    Ok(())
}

/// The text of a trace over these registers: a line for each event and each end, which ends with a newline, with one space between parts. Registers
/// print as their names, variables as `v` and their numbers, terms as by `print_term`, literals with all their digits. An end with children prints as
/// `cases` and how many there are, and the children follow it, one after the other.
///
/// The text is the same bytes where the names in terms are UTF-8, and has U+FFFD in place of what isn't. The time is in proportion to the text.
pub fn print_trace(
    alloc: Global,
    trace: &PlainTrace,
    registers: &[RegDecl],
) -> Result<String, NoMemory>
    requires registers { AreRegisters registers.now }
    requires printable { IsPrintable (length registers.now) (trace_of trace.now) }
    ensures exact { IfOk result (λ s. IsUtf8 (spec.trace_text registers.now (trace_of trace.now)) → string_bytes s ≡ spec.trace_text registers.now (trace_of trace.now)) }
    ensures any_names { IfOk result (λ s. string_bytes s ≡ utf8_lossy (spec.trace_text registers.now (trace_of trace.now))) }
{
    let mut out = Vec::new(alloc);
    put_trace(alloc, &mut out, registers, trace)?;
    Ok(String::from_utf8_lossy(alloc, out.as_slice())?)
}
