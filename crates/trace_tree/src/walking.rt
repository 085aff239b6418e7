// The traces inside a trace.

ghost use Rattle.std.specs.Prelude.{◌≡◌, List, option_map};
ghost use Rattle.term_arena.specs.Nodes.{Node};
ghost use Rattle.trace_tree.specs.Paths.{child_of, at_path};
ghost use Rattle.trace_tree.specs.View.{plain_in};

use crate::trace::{End, Trace};

/// The child of this number, from 0 on.
fn child<'a>(trace: Trace<'a>, at: usize) -> Option<Trace<'a>>
    ensures { (nodes : List Node) → option_map (plain_in nodes) result ≡ child_of (plain_in nodes trace.entry) at }
{
    match trace.end {
        End::Done => None,
        End::Fail(_) => None,
        End::Cases(children) => {
            if at < children.len() {
                Some(children[at])
            } else {
                None
            }
        }
    }
}

/// The trace at the end of a path, which is the numbers of the children that lead there, each from 0 on; none where one of them
/// isn't there. It takes no memory.
pub fn walk<'a>(trace: &Trace<'a>, path: &[usize]) -> Option<Trace<'a>>
    ensures { (nodes : List Node) → option_map (plain_in nodes) result ≡ at_path (plain_in nodes trace.now) path.now }
{
    let mut at = *trace;
    for step in path {
        let Some(next) = child(at, *step) else {
            return None;
        };
        at = next;
    }
    Some(at)
}
