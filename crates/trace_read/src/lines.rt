//! A line of a trace: an event or an end.

ghost use Rattle.std.specs.Prelude.{◌≡◌, ◌<◌, ◌*◌, IfOk, length};
ghost use Rattle.lex_core.specs.Want.{Gives};
ghost use Rattle.trace_plain.specs.Printable.{IsPrintableEvent};
ghost use Rattle.trace_plain.specs.View.{event_of};
ghost use Rattle.trace_read.specs.Lines as spec;
ghost use Rattle.trace_read.specs.Readers.{left, line_of, IsPath, IsFineLine, Reads};

use crate::fault::TraceFault;
use crate::rest::Rest;
use crate::scope::variable_name;
use crate::word_tables::Head;
use crate::words::{byte_count, child_count, failure, head, register, value, variable};
use lex_core::RegDecl;
use std::alloc::Global;
use term_tree::{VarDecl, width};
use trace_plain::{FailKind, PlainEvent};

/// A line of a trace.
#[derive(Drop)]
pub enum Line {
    /// An event.
    Event(PlainEvent),
    /// The instruction is done.
    Done,
    /// It fails.
    Fail(FailKind),
    /// It goes on as one of so many traces, at least one.
    Cases(u32),
}

/// The next variable of a path.
#[tactic(auto, unfolding(crate::specs::Lines::next_variable))]
fn next_variable<'a>(
    alloc: Global,
    scope: &[VarDecl],
    rest: Rest<'a>,
) -> Result<(u32, Rest<'a>), TraceFault>
    requires { IsPath scope.now }
    ensures { Reads (λ n. n) (spec.next_variable scope.now (left rest.entry)) result }
{
    let number = scope.len() as u32;
    let name = variable_name(alloc, number)?;
    variable(number, name.bytes(), rest)
}

/// `read_reg`: a register, and the next variable.
#[tactic(auto, unfolding(crate::specs::Lines::read_reg_line))]
fn read_reg_line<'a>(
    alloc: Global,
    registers: &[RegDecl],
    scope: &[VarDecl],
    rest: Rest<'a>,
) -> Result<(Line, Rest<'a>), TraceFault>
    requires { IsPath scope.now }
    ensures exact { Reads line_of (spec.read_reg_line registers.now scope.now (left rest.entry)) result }
    ensures fine { IfOk result (λ x. IsFineLine (length registers.now) (line_of x.0)) }
{
    let (reg, rest) = register(registers, rest)?;
    let (var, rest) = next_variable(alloc, scope, rest)?;
    Ok((Line::Event(PlainEvent::ReadReg { reg, var }), rest))
}

/// `write_reg`: a register, and a term as wide.
#[tactic(auto, unfolding(crate::specs::Lines::write_reg_line))]
fn write_reg_line<'a>(
    alloc: Global,
    registers: &[RegDecl],
    scope: &[VarDecl],
    rest: Rest<'a>,
) -> Result<(Line, Rest<'a>), TraceFault>
    requires { IsPath scope.now }
    ensures exact { Reads line_of (spec.write_reg_line registers.now scope.now (left rest.entry)) result }
    ensures fine { IfOk result (λ x. IsFineLine (length registers.now) (line_of x.0)) }
{
    let (reg, rest) = register(registers, rest)?;
    let (term, rest) = rest.term_of(alloc, scope, registers[reg].width)?;
    Ok((Line::Event(PlainEvent::WriteReg { reg, term }), rest))
}

/// `read_mem`: the next variable, an address, and how many bytes.
#[tactic(auto, unfolding(crate::specs::Lines::read_mem_line))]
fn read_mem_line<'a>(
    alloc: Global,
    scope: &[VarDecl],
    rest: Rest<'a>,
) -> Result<(Line, Rest<'a>), TraceFault>
    requires { IsPath scope.now }
    ensures exact { Reads line_of (spec.read_mem_line scope.now (left rest.entry)) result }
    ensures fine { (registers : _) → IfOk result (λ x. IsFineLine registers (line_of x.0)) }
{
    let (var, rest) = next_variable(alloc, scope, rest)?;
    let (addr, rest) = rest.term_of(alloc, scope, 64)?;
    let (bytes, rest) = byte_count(rest)?;
    Ok((Line::Event(PlainEvent::ReadMem { var, addr, bytes }), rest))
}

/// `write_mem`: an address, a term, and how many bytes, as wide as the term. Another width is a fault at the term's first word.
#[tactic(auto, unfolding(crate::specs::Lines::write_mem_line))]
fn write_mem_line<'a>(
    alloc: Global,
    scope: &[VarDecl],
    rest: Rest<'a>,
) -> Result<(Line, Rest<'a>), TraceFault>
    requires { IsPath scope.now }
    ensures exact { Reads line_of (spec.write_mem_line scope.now (left rest.entry)) result }
    ensures fine { (registers : _) → IfOk result (λ x. IsFineLine registers (line_of x.0)) }
{
    let (addr, rest) = rest.term_of(alloc, scope, 64)?;
    let at = rest.place();
    let (term, rest) = rest.term(alloc, scope)?;
    let (bytes, rest) = byte_count(rest)?;
    if width(&term) != 8 * bytes {
        return Err(TraceFault::WidthDiffers { at });
    }
    Ok((
        Line::Event(PlainEvent::WriteMem { addr, term, bytes }),
        rest,
    ))
}

/// `assume`: one bit.
#[tactic(auto, unfolding(crate::specs::Lines::assume_line))]
fn assume_line<'a>(
    alloc: Global,
    scope: &[VarDecl],
    rest: Rest<'a>,
) -> Result<(Line, Rest<'a>), TraceFault>
    requires { IsPath scope.now }
    ensures exact { Reads line_of (spec.assume_line scope.now (left rest.entry)) result }
    ensures fine { (registers : _) → IfOk result (λ x. IsFineLine registers (line_of x.0)) }
{
    let (term, rest) = rest.term_of(alloc, scope, 1)?;
    Ok((Line::Event(PlainEvent::Assume { term }), rest))
}

/// `need`: one bit.
#[tactic(auto, unfolding(crate::specs::Lines::need_line))]
fn need_line<'a>(
    alloc: Global,
    scope: &[VarDecl],
    rest: Rest<'a>,
) -> Result<(Line, Rest<'a>), TraceFault>
    requires { IsPath scope.now }
    ensures exact { Reads line_of (spec.need_line scope.now (left rest.entry)) result }
    ensures fine { (registers : _) → IfOk result (λ x. IsFineLine registers (line_of x.0)) }
{
    let (term, rest) = rest.term_of(alloc, scope, 1)?;
    Ok((Line::Event(PlainEvent::Need { term }), rest))
}

/// `assume_reg`: a register, and a literal as wide.
#[tactic(auto, unfolding(crate::specs::Lines::assume_reg_line))]
fn assume_reg_line<'a>(
    registers: &[RegDecl],
    rest: Rest<'a>,
) -> Result<(Line, Rest<'a>), TraceFault>
    ensures exact { Reads line_of (spec.assume_reg_line registers.now (left rest.entry)) result }
    ensures fine { IfOk result (λ x. IsFineLine (length registers.now) (line_of x.0)) }
{
    let (reg, rest) = register(registers, rest)?;
    let (value, rest) = value(rest, registers[reg].width)?;
    Ok((Line::Event(PlainEvent::AssumeReg { reg, value }), rest))
}

/// `fail`: why it fails.
#[tactic(auto, unfolding(crate::specs::Lines::fail_line))]
fn fail_line(rest: Rest<'_>) -> Result<(Line, Rest<'_>), TraceFault>
    ensures exact { Reads line_of (spec.fail_line (left rest.entry)) result }
    ensures fine { (registers : _) → IfOk result (λ x. IsFineLine registers (line_of x.0)) }
{
    let (kind, rest) = failure(rest)?;
    Ok((Line::Fail(kind), rest))
}

/// `cases`: how many children there are.
#[tactic(auto, unfolding(crate::specs::Lines::cases_line))]
fn cases_line(rest: Rest<'_>) -> Result<(Line, Rest<'_>), TraceFault>
    ensures exact { Reads line_of (spec.cases_line (left rest.entry)) result }
    ensures fine { (registers : _) → IfOk result (λ x. IsFineLine registers (line_of x.0)) }
{
    let (children, rest) = child_count(rest)?;
    Ok((Line::Cases(children), rest))
}

/// What stands behind the first word of a line.
fn line_behind<'a>(
    alloc: Global,
    registers: &[RegDecl],
    scope: &[VarDecl],
    head: Head,
    rest: Rest<'a>,
) -> Result<(Line, Rest<'a>), TraceFault>
    requires { IsPath scope.now }
    ensures exact { Reads line_of (spec.line_behind registers.now scope.now head (left rest.entry)) result }
    ensures fine { IfOk result (λ x. IsFineLine (length registers.now) (line_of x.0)) }
{
    match head {
        Head::ReadReg => read_reg_line(alloc, registers, scope, rest),
        Head::WriteReg => write_reg_line(alloc, registers, scope, rest),
        Head::ReadMem => read_mem_line(alloc, scope, rest),
        Head::WriteMem => write_mem_line(alloc, scope, rest),
        Head::Assume => assume_line(alloc, scope, rest),
        Head::Need => need_line(alloc, scope, rest),
        Head::AssumeReg => assume_reg_line(registers, rest),
        Head::Done => Ok((Line::Done, rest)),
        Head::Fail => fail_line(rest),
        Head::Cases => cases_line(rest),
    }
}

/// The next line.
#[tactic(auto, unfolding(crate::specs::Lines::line))]
pub fn next_line<'a>(
    alloc: Global,
    registers: &[RegDecl],
    scope: &[VarDecl],
    rest: Rest<'a>,
) -> Result<(Line, Rest<'a>), TraceFault>
    requires { IsPath scope.now }
    ensures exact { Reads line_of (spec.line registers.now scope.now (left rest.entry)) result }
    ensures fine { IfOk result (λ x. IsFineLine (length registers.now) (line_of x.0)) }
{
    let (head, rest) = head(rest)?;
    line_behind(alloc, registers, scope, head, rest)
}
