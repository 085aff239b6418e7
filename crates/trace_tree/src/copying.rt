// Traces in an arena, copied as plain traces.

ghost use Rattle.std.specs.Prelude.{◌≡◌, ◌++◌, [], ◌∷◌, map, IfOk, OnOk};
ghost use Rattle.term_tree.specs.Terms.{IsTyped};
ghost use Rattle.trace_plain.specs.Terms.{OfEvent, OfEvents, OfTrace, OfEnd, OfTraces};
ghost use Rattle.trace_plain.specs.View as plain;
ghost use Rattle.trace_tree.specs.View.{event_in, end_in, plain_in};

use crate::trace::{End, Event, Trace};
use arena_trees::tree_of;
use lex_core::NoMemory;
use sqlite_items::Items;
use term_arena::Terms;
use trace_plain::{PlainEnd, PlainEvent, PlainTrace};

/// An event, its terms as trees.
fn copy_event(event: Event, terms: &Terms) -> Result<PlainEvent, NoMemory>
    requires terms { OfEvent IsTyped (event_in terms.now event) }
    ensures event { IfOk result (λ e. plain.event_of e ≡ event_in terms.now event) }
{
    match event {
        Event::ReadReg { reg, var } => Ok(PlainEvent::ReadReg { reg, var }),
        Event::WriteReg { reg, term } => {
            let term = tree_of(terms, term)?;
            Ok(PlainEvent::WriteReg { reg, term })
        }
        Event::ReadMem { var, addr, bytes } => {
            let addr = tree_of(terms, addr)?;
            Ok(PlainEvent::ReadMem { var, addr, bytes })
        }
        Event::WriteMem { addr, term, bytes } => {
            let addr = tree_of(terms, addr)?;
            let term = tree_of(terms, term)?;
            Ok(PlainEvent::WriteMem { addr, term, bytes })
        }
        Event::Assume { term } => {
            let term = tree_of(terms, term)?;
            Ok(PlainEvent::Assume { term })
        }
        Event::Need { term } => {
            let term = tree_of(terms, term)?;
            Ok(PlainEvent::Need { term })
        }
        Event::AssumeReg { reg, value } => Ok(PlainEvent::AssumeReg { reg, value }),
    }
}

/// Events, their terms as trees. It isn't inlined, so that what a level of a deep trace takes of the stack stays small.
#[inline(never)]
fn copy_events(events: &[Event], terms: &Terms) -> Result<Items<PlainEvent>, NoMemory>
    requires terms { OfEvents IsTyped (map (event_in terms.now) events.now) }
    ensures events { IfOk result (λ es. map plain.event_of es ≡ map (event_in terms.now) events.now) }
{
    let mut copy = Items::new(terms.alloc());
    for event in events {
        copy.push(copy_event(*event, terms)?)?;
    }
    Ok(copy)
}

/// The plain trace, its terms as trees. They are read out of the `Terms` whose numbers the trace has, and each has to be one of them.
pub fn copy_out(trace: &Trace<'_>, terms: &Terms) -> Result<PlainTrace, NoMemory>
    requires terms { OfTrace IsTyped (plain_in terms.now trace.now) }
    ensures trace { IfOk result (λ t. plain.trace_of t ≡ plain_in terms.now trace.now) }
{
    let mut copy = Items::new(terms.alloc());
    copy_onto(trace, terms, &mut copy)?;
    match copy.pop() {
        Some(whole) => Ok(whole),
        None => unreachable!(),
    }
}

/// Appends a trace, its terms as trees.
#[cycle(copy)]
fn copy_onto(
    trace: &Trace<'_>,
    terms: &Terms,
    copies: &mut Items<PlainTrace>,
) -> Result<(), NoMemory>
    requires terms { OfTrace IsTyped (plain_in terms.now trace.now) }
    ensures copies { OnOk result (map plain.trace_of copies.new ≡ map plain.trace_of copies.old ++ plain_in terms.now trace.now ∷ []) }
{
    let events = copy_events(trace.events, terms)?;
    let end = copy_end(trace.end, terms)?;
    copies.push(PlainTrace { events, end })?;
    Ok(())
}

/// An end, its terms as trees.
#[cycle(copy)]
fn copy_end(end: End<'_>, terms: &Terms) -> Result<PlainEnd, NoMemory>
    requires terms { OfEnd IsTyped (end_in terms.now end) }
    ensures end { IfOk result (λ e. plain.end_of e ≡ end_in terms.now end.entry) }
{
    match end {
        End::Done => Ok(PlainEnd::Done),
        End::Fail(kind) => Ok(PlainEnd::Fail(kind)),
        End::Cases(children) => {
            let children = copy_children(children, terms)?;
            Ok(PlainEnd::Cases(children))
        }
    }
}

/// Traces in their order, their terms as trees.
#[cycle(copy)]
fn copy_children(children: &[Trace<'_>], terms: &Terms) -> Result<Items<PlainTrace>, NoMemory>
    requires terms { OfTraces IsTyped (plain.traces (map (plain_in terms.now) children.now)) }
    ensures children { IfOk result (λ ts. map plain.trace_of ts ≡ map (plain_in terms.now) children.now) }
{
    let mut copy = Items::new(terms.alloc());
    for child in children {
        copy_onto(child, terms, &mut copy)?;
    }
    Ok(copy)
}
