//! Reads traces.

ghost use Rattle.std.specs.Prelude.{◌≡◌, ◌≢◌, ◌≤◌, [], IfOk, MatchResult, length};
ghost use Rattle.lex_core.specs.Want.{Gives};
ghost use Rattle.trace_plain.specs.Printable.{AreRegisters, IsPrintable};
ghost use Rattle.trace_plain.specs.Rules.{IsByTheRules};
ghost use Rattle.trace_plain.specs.Trace.{size};
ghost use Rattle.trace_plain.specs.View.{trace_of};
ghost use Rattle.trace_read.specs.Gathering.{opens_of};
ghost use Rattle.trace_read.specs.Readers.{is_want, left};
ghost use Rattle.trace_read.specs.Reading as spec;
ghost use Rattle.trace_read.specs.Taking as taking;
ghost use Rattle.trace_read.specs.declared.fault.TraceFault.TheVariants as fault;

use crate::fault::TraceFault;
use crate::lines::next_line;
use crate::rest::Rest;
use crate::stack::{Open, Turn, take_line};
use lex_core::{LexFault, RegDecl, tokens};
use sqlite_items::Items;
use std::alloc::Global;
use term_tree::VarDecl;
use trace_plain::PlainTrace;

/// How many events and ends a text has at most.
pub const MOST: usize = 65_536;

/// The whole trace, behind which nothing may be left.
fn ended(trace: PlainTrace, rest: Rest<'_>) -> Result<PlainTrace, TraceFault>
    ensures { MatchResult result (λ t. ((left rest.entry).words ≡ []) × (trace_of t ≡ trace_of trace))
        (λ f. ((left rest.entry).words ≢ []) × (f ≡ fault.TraceForm (taking.place (left rest.entry)))) }
{
    if rest.is_empty() {
        Ok(trace)
    } else {
        Err(TraceFault::TraceForm { at: rest.place() })
    }
}

/// Reads a trace line by line, where nothing is bound or open at first.
fn among(
    alloc: Global,
    registers: &[RegDecl],
    scope: &mut Items<VarDecl>,
    stack: &mut Items<Open>,
    rest: Rest<'_>,
) -> Result<PlainTrace, TraceFault>
    requires registers { AreRegisters registers.now }
    requires none_bound { scope.old ≡ [] }
    requires none_open { opens_of stack.old ≡ [] }
    ensures { Gives is_want trace_of (spec.whole registers.now (left rest.entry)) result }
{
    let mut behind = rest;
    let mut events = Items::new(alloc);
    for _ in 0..MOST {
        let (line, next) = match next_line(alloc, registers, scope.as_slice(), behind) {
            Ok(found) => found,
            Err(fault) => return Err(fault),
        };
        behind = next;
        match take_line(alloc, registers, scope, stack, events, line) {
            Ok(Turn::Goes(more)) => events = more,
            Ok(Turn::Ends(trace)) => return ended(trace, behind),
            Err(_) => return Err(TraceFault::NoMemory),
        }
    }
    Err(TraceFault::TraceForm { at: behind.place() })
}

/// Reads all that is left as a trace.
fn whole(alloc: Global, registers: &[RegDecl], rest: Rest<'_>) -> Result<PlainTrace, TraceFault>
    requires { AreRegisters registers.now }
    ensures { Gives is_want trace_of (spec.whole registers.now (left rest.entry)) result }
{
    let mut scope = Items::new(alloc);
    let mut stack = Items::new(alloc);
    among(alloc, registers, &mut scope, &mut stack, rest)
}

/// Reads the text of a trace over these registers, whose names are names to the lexer and differ, and whose widths are from 1 to 128.
///
/// The text is cut into tokens as any text is, so that blanks, newlines and comments stand anywhere between them. A fault of the lexer comes before all
/// others, and of these the first in the order of the text is answered: `TraceForm` at the first token with which no trace goes on, or at the text's
/// length; at a variable that isn't `v` and the next number of its path, at a number of bytes that isn't 1, 2, 4, 8 or 16, at `cases 0`, and where the
/// 65,537th event or end would begin; `Unbound` at a register that isn't declared, and at a variable that isn't bound on the path; `WidthDiffers` at
/// the first token of a term or literal whose width isn't that of its place, and at the `(` of an application whose arguments don't fit;
/// `Term(TermTooHigh)` where a term of height 1,025 would be made, or at the 1,025th `(` that is open. `NoMemory` comes for want of memory alone.
pub fn read_trace(
    alloc: Global,
    text: &[u8],
    registers: &[RegDecl],
) -> Result<PlainTrace, TraceFault>
    requires { AreRegisters registers.now }
    ensures exact { Gives is_want trace_of (spec.trace_in registers.now text.now) result }
    ensures rules { IfOk result (λ t. IsByTheRules registers.now (trace_of t)) }
    ensures printable { IfOk result (λ t. IsPrintable (length registers.now) (trace_of t)) }
    ensures few { IfOk result (λ t. size (trace_of t) ≤ MOST) }
{
    match tokens(alloc, text) {
        Ok(found) => {
            let rest = Rest {
                text,
                tokens: found.as_slice(),
                next: 0,
            };
            whole(alloc, registers, rest)
        }
        Err(fault) => Err(TraceFault::Lex(fault)),
    }
}
