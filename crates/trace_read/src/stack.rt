//! The traces that are open while a text is read.

ghost use Rattle.std.specs.Prelude.{◌≡◌, ◌≤◌, ◌<◌, ◌+◌, [], ◌∷◌, ◌++◌, IfOk, OnOk, MatchOption, length, map};
ghost use Rattle.trace_plain.specs.Printable.{AreRegisters};
ghost use Rattle.trace_plain.specs.Trace.{trace, cases};
ghost use Rattle.trace_plain.specs.View.{event_of, trace_of, traces};
ghost use Rattle.trace_read.specs.Gathering.{open_view, opens_of, later_scopes, Nest, ClosesTo, LeadsTo};
ghost use Rattle.trace_read.specs.Lines as spec_line;
ghost use Rattle.trace_read.specs.Readers.{line_of, IsPath, IsFineEvent, IsFineLine};
ghost use Rattle.trace_read.specs.Paths as spec;
ghost use Rattle.trace_read.specs.declared.reading.TheConstants.{MOST};

use crate::lines::Line;
use crate::scope::{bind, cut_back};
use lex_core::{NoMemory, RegDecl};
use sqlite_items::Items;
use std::alloc::Global;
use term_tree::VarDecl;
use trace_plain::{PlainEnd, PlainEvent, PlainTrace};

/// An end with children that are being read.
#[derive(Drop)]
pub struct Open {
    /// The events in front of it.
    pub events: Items<PlainEvent>,
    /// The children that are read.
    pub children: Items<PlainTrace>,
    /// How many come behind the present one.
    pub later: usize,
    /// How many variables are bound in front of each.
    pub bound: usize,
}

/// What a line leads to.
#[derive(Drop)]
pub enum Turn {
    /// Reading goes on behind these events of a trace.
    Goes(Items<PlainEvent>),
    /// The whole trace ends.
    Ends(PlainTrace),
}

/// Opens an end with children.
#[tactic(auto, using(crate::proofs::StackLemmas::pushed))]
fn push(stack: &mut Items<Open>, outer: Open) -> Result<(), NoMemory>
    ensures { OnOk result (opens_of stack.new ≡ open_view outer ∷ opens_of stack.old) }
{
    stack.push(outer)?;
    Ok(())
}

/// Takes the innermost one.
fn pop(stack: &mut Items<Open>) -> Option<Open>
    ensures { MatchOption result ((opens_of stack.old ≡ []) × (opens_of stack.new ≡ [])) (λ o. opens_of stack.old ≡ open_view o ∷ opens_of stack.new) }
{
    stack.pop()
}

/// Goes on with the next child of an end behind this one, where there is one.
fn next_child(
    alloc: Global,
    scope: &mut Items<VarDecl>,
    stack: &mut Items<Open>,
    outer: Open,
    child: PlainTrace,
) -> Result<Turn, NoMemory>
    requires path { IsPath scope.old }
    requires nest { Nest (length scope.old) (open_view outer ∷ opens_of stack.old) }
    requires some { 0 < outer.later }
    ensures turn { IfOk result (λ t. ClosesTo scope.old (open_view outer ∷ opens_of stack.old) (trace_of child) t scope.new (opens_of stack.new)) }
    ensures path { OnOk result (IsPath scope.new × Nest (length scope.new) (opens_of stack.new) × (length scope.new ≤ length scope.old)) }
{
    let Open {
        events,
        mut children,
        later,
        bound,
    } = outer;
    children.push(child)?;
    cut_back(scope, bound);
    push(
        stack,
        Open {
            events,
            children,
            later: later - 1,
            bound,
        },
    )?;
    Ok(Turn::Goes(Items::new(alloc)))
}

/// The trace that ends with an end whose last child is this one.
fn last_child(outer: Open, child: PlainTrace) -> Result<PlainTrace, NoMemory>
    ensures { IfOk result (λ t. trace_of t ≡ trace (map event_of outer.events) (cases (traces (map trace_of outer.children ++ trace_of child ∷ [])))) }
{
    let Open {
        events,
        mut children,
        later: _,
        bound: _,
    } = outer;
    children.push(child)?;
    Ok(PlainTrace {
        events,
        end: PlainEnd::Cases(children),
    })
}

/// A trace is whole: it closes the ends whose last child it is, and goes on with the next child of the first other one.
fn close(
    alloc: Global,
    scope: &mut Items<VarDecl>,
    stack: &mut Items<Open>,
    trace: PlainTrace,
) -> Result<Turn, NoMemory>
    requires path { IsPath scope.old }
    requires nest { Nest (length scope.old) (opens_of stack.old) }
    ensures turn { IfOk result (λ t. ClosesTo scope.old (opens_of stack.old) (trace_of trace) t scope.new (opens_of stack.new)) }
    ensures path { OnOk result (IsPath scope.new × Nest (length scope.new) (opens_of stack.new) × (length scope.new ≤ length scope.old)) }
{
    let mut whole = trace;
    while let Some(outer) = pop(stack) {
        if outer.later > 0 {
            return next_child(alloc, scope, stack, outer, whole);
        }
        whole = last_child(outer, whole)?;
    }
    Ok(Turn::Ends(whole))
}

/// Binds what an event binds.
fn bind_event(
    alloc: Global,
    registers: &[RegDecl],
    scope: &mut Items<VarDecl>,
    event: &PlainEvent,
) -> Result<(), NoMemory>
    requires registers { AreRegisters registers.now }
    requires path { IsPath scope.old }
    requires room { length scope.old < MOST }
    requires event { IsFineEvent (length registers.now) (event_of event.now) }
    ensures bound { OnOk result (scope.new ≡ spec.scope_behind registers.now scope.old (event_of event.now)) }
    ensures path { OnOk result (IsPath scope.new) }
{
    match event {
        PlainEvent::ReadReg { reg, var: _ } => bind(alloc, scope, registers[*reg].width),
        PlainEvent::ReadMem {
            var: _,
            addr: _,
            bytes,
        } => bind(alloc, scope, 8 * *bytes),
        _ => Ok(()),
    }
}

/// An event of the present trace.
fn event(
    alloc: Global,
    registers: &[RegDecl],
    scope: &mut Items<VarDecl>,
    events: Items<PlainEvent>,
    event: PlainEvent,
) -> Result<Turn, NoMemory>
    requires registers { AreRegisters registers.now }
    requires path { IsPath scope.old }
    requires room { length scope.old < MOST }
    requires event { IsFineEvent (length registers.now) (event_of event) }
    ensures turn { (os : _) → Nest (length scope.old) os → IfOk result (λ t. LeadsTo registers.now scope.old os (map event_of events) (spec_line.event (event_of event)) t scope.new os) }
    ensures path { OnOk result (IsPath scope.new × (length scope.old ≤ length scope.new) × (length scope.new ≤ length scope.old + 1)) }
{
    let mut events = events;
    bind_event(alloc, registers, scope, &event)?;
    events.push(event)?;
    Ok(Turn::Goes(events))
}

/// An end with so many children.
fn split(
    alloc: Global,
    scope: &[VarDecl],
    stack: &mut Items<Open>,
    events: Items<PlainEvent>,
    children: u32,
) -> Result<Turn, NoMemory>
    requires nest { Nest (length scope.now) (opens_of stack.old) }
    requires some { 0 < children }
    ensures turn { (registers : _) → IfOk result (λ t. LeadsTo registers scope.now (opens_of stack.old) (map event_of events) (spec_line.cases children) t scope.now (opens_of stack.new)) }
    ensures nest { OnOk result (Nest (length scope.now) (opens_of stack.new)) }
{
    push(
        stack,
        Open {
            events,
            children: Items::new(alloc),
            later: children as usize - 1,
            bound: scope.len(),
        },
    )?;
    Ok(Turn::Goes(Items::new(alloc)))
}

/// What a line leads to behind these events of the present trace.
pub fn take_line(
    alloc: Global,
    registers: &[RegDecl],
    scope: &mut Items<VarDecl>,
    stack: &mut Items<Open>,
    events: Items<PlainEvent>,
    line: Line,
) -> Result<Turn, NoMemory>
    requires registers { AreRegisters registers.now }
    requires path { IsPath scope.old }
    requires room { length scope.old < MOST }
    requires nest { Nest (length scope.old) (opens_of stack.old) }
    requires line { IsFineLine (length registers.now) (line_of line) }
    ensures turn { IfOk result (λ t. LeadsTo registers.now scope.old (opens_of stack.old) (map event_of events) (line_of line) t scope.new (opens_of stack.new)) }
    ensures path { OnOk result (IsPath scope.new × Nest (length scope.new) (opens_of stack.new) × (length scope.new ≤ length scope.old + 1)) }
{
    match line {
        Line::Event(own) => event(alloc, registers, scope, events, own),
        Line::Done => close(
            alloc,
            scope,
            stack,
            PlainTrace {
                events,
                end: PlainEnd::Done,
            },
        ),
        Line::Fail(kind) => close(
            alloc,
            scope,
            stack,
            PlainTrace {
                events,
                end: PlainEnd::Fail(kind),
            },
        ),
        Line::Cases(children) => split(alloc, scope.as_slice(), stack, events, children),
    }
}
