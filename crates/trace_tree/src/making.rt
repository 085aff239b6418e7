// Traces that are made in an arena.

ghost use Rattle.std.specs.Prelude.{◌≡◌, List, map, IfOk};
ghost use Rattle.term_arena.specs.Nodes.{Node};
ghost use Rattle.trace_plain.specs.Trace.{trace, cases};
ghost use Rattle.trace_plain.specs.View.{traces};
ghost use Rattle.trace_tree.specs.View.{event_in, end_in, plain_in};

use crate::trace::{End, Event, Trace};
use bumpalo::Bump;
use lex_core::NoMemory;

/// A trace of these events, which are copied into the arena, and of this end.
pub fn with_end<'a>(arena: &'a Bump, events: &[Event], end: End<'a>) -> Result<Trace<'a>, NoMemory>
    ensures { IfOk result (λ t. (nodes : List Node) → plain_in nodes t ≡ trace (map (event_in nodes) events.now) (end_in nodes end.entry)) }
{
    let events: &'a [Event] = arena.try_alloc_slice_copy(events)?;
    Ok(Trace { events, end })
}

/// A trace of these events and these children, which are copied into the arena; what is below the children stays where it is.
pub fn with_children<'a>(
    arena: &'a Bump,
    events: &[Event],
    children: &[Trace<'a>],
) -> Result<Trace<'a>, NoMemory>
    ensures { IfOk result (λ t. (nodes : List Node) → plain_in nodes t ≡ trace (map (event_in nodes) events.now) (cases (traces (map (plain_in nodes) children.now)))) }
{
    let children: &'a [Trace<'a>] = arena.try_alloc_slice_copy(children)?;
    with_end(arena, events, End::Cases(children))
}
