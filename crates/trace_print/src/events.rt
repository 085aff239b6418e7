//! Events as lines.

ghost use Rattle.std.specs.Prelude.{◌≡◌, ◌++◌, ◌<◌, OnOk, length, map};
ghost use Rattle.trace_plain.specs.Printable.{IsPrintableEvent, ArePrintableEvents};
ghost use Rattle.trace_plain.specs.View.{event_of};
ghost use Rattle.trace_print.specs.Printing as spec;

use crate::words::{put, put_register, put_spaced, put_value, put_var};
use bit_text::put_number;
use bv_bits::Bits;
use lex_core::{NoMemory, RegDecl};
use std::alloc::Global;
use trace_plain::PlainEvent;

/// Appends a register and the value that it has.
fn put_assumed(
    out: &mut Vec<u8>,
    registers: &[RegDecl],
    reg: usize,
    value: Bits,
) -> Result<(), NoMemory>
    requires { reg < length registers.now }
    ensures { OnOk result (out.new.items ≡ out.old.items ++ (spec.register_text registers.now reg ++ spec.value_text value)) }
{
    put_register(out, registers, reg)?;
    put_value(out, value)
}

/// Appends an event.
fn put_event(
    alloc: Global,
    out: &mut Vec<u8>,
    registers: &[RegDecl],
    event: &PlainEvent,
) -> Result<(), NoMemory>
    requires { IsPrintableEvent (length registers.now) (event_of event.now) }
    ensures { OnOk result (out.new.items ≡ out.old.items ++ spec.event_text registers.now (event_of event.now)) }
{
    match event {
        PlainEvent::ReadReg { reg, var } => {
            put(out, b"read_reg")?;
            put_register(out, registers, *reg)?;
            put_var(alloc, out, *var)
        }
        PlainEvent::WriteReg { reg, term } => {
            put(out, b"write_reg")?;
            put_register(out, registers, *reg)?;
            put_spaced(alloc, out, term)
        }
        PlainEvent::ReadMem { var, addr, bytes } => {
            put(out, b"read_mem")?;
            put_var(alloc, out, *var)?;
            put_spaced(alloc, out, addr)?;
            put_number(alloc, out, *bytes)
        }
        PlainEvent::WriteMem { addr, term, bytes } => {
            put(out, b"write_mem")?;
            put_spaced(alloc, out, addr)?;
            put_spaced(alloc, out, term)?;
            put_number(alloc, out, *bytes)
        }
        PlainEvent::Assume { term } => {
            put(out, b"assume")?;
            put_spaced(alloc, out, term)
        }
        PlainEvent::Need { term } => {
            put(out, b"need")?;
            put_spaced(alloc, out, term)
        }
        PlainEvent::AssumeReg { reg, value } => {
            put(out, b"assume_reg")?;
            put_assumed(out, registers, *reg, *value)
        }
    }
}

/// Appends events, each as a line of its own.
pub fn put_events(
    alloc: Global,
    out: &mut Vec<u8>,
    registers: &[RegDecl],
    events: &[PlainEvent],
) -> Result<(), NoMemory>
    requires { ArePrintableEvents (length registers.now) (map event_of events.now) }
    ensures { OnOk result (out.new.items ≡ out.old.items ++ spec.events_text registers.now (map event_of events.now)) }
{
    for event in events {
        put_event(alloc, out, registers, event)?;
        out.push(b'\n')?;
    }
    Ok(())
}
