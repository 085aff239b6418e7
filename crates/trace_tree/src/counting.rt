// How many events and ends a trace has.

ghost use Rattle.std.specs.Prelude.{◌≡◌, ◌<◌, ◌^◌, [], List};
ghost use Rattle.term_arena.specs.Nodes.{Node};
ghost use Rattle.trace_plain.specs.Trace.{size};
ghost use Rattle.trace_tree.specs.View.{plain_in};

use crate::trace::{End, Trace};

/// The number of all events and ends, which has to fit. It takes no memory.
pub fn events_of(trace: &Trace<'_>) -> u32
    requires fits { size (plain_in [] trace.now) < 2 ^ 32 }
    ensures { (nodes : List Node) → result ≡ size (plain_in nodes trace.now) }
{
    let own = trace.events.len() as u32 + 1;
    match trace.end {
        End::Done => own,
        End::Fail(_) => own,
        End::Cases(children) => {
            let mut total = own;
            for child in children {
                total += events_of(child);
            }
            total
        }
    }
}
