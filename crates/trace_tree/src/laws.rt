//! Laws of traces whose terms are numbers, over the definitions alone.

ghost use Rattle.std.specs.Prelude.{◌≡◌, ℕ, List, Some};
ghost use Rattle.term_tree.specs.Terms.{IsTyped, IsTerm};
ghost use Rattle.term_arena.specs.Nodes.{Node, Keeps};
ghost use Rattle.term_arena.specs.Arena.{IsArena};
ghost use Rattle.trace_plain.specs.Terms.{OfTrace};
ghost use Rattle.trace_plain.specs.Trace as plain;
ghost use Rattle.trace_tree.specs.declared.trace.Trace.{Trace};
ghost use Rattle.trace_tree.specs.Paths.{at_path};
ghost use Rattle.trace_tree.specs.View.{plain_in};

/// A trace of typed terms stands for the same, as the list of nodes grows. None of its terms is too high, and each trace inside it
/// has typed terms too.
pub fn typed_traces()
    ensures kept { (old new : List Node) (t : Trace) → Keeps old new → OfTrace IsTyped (plain_in old t) → plain_in new t ≡ plain_in old t }
    ensures fine { (nodes : List Node) (t : Trace) → IsArena nodes → OfTrace IsTyped (plain_in nodes t) → OfTrace IsTerm (plain_in nodes t) }
    ensures inner { (t u : plain.Trace) (path : List ℕ) → OfTrace IsTyped t → at_path t path ≡ Some u → OfTrace IsTyped u }
{}
