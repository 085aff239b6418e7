//! Laws of the numbers of terms, over the definitions alone.

ghost use Rattle.std.specs.Prelude.{◌≡◌, ℕ, List};
ghost use Rattle.term_tree.specs.Terms.{IsTyped, IsTypedArray};
ghost use Rattle.term_arena.specs.Nodes.{Node, term_at, array_at, Keeps};
ghost use Rattle.term_arena.specs.Arena.{IsArena};
ghost use Rattle.term_arena.specs.Limits.{FullExceeds};
ghost use Rattle.term_arena.specs.Numbers.{Below, PartsStandBefore};

/// Each list keeps itself, and what is kept on and on is kept. What a number stands for stays, as the list grows.
pub fn kept_numbers()
    ensures itself { (nodes : List Node) → Keeps nodes nodes }
    ensures onward { (a b c : List Node) → Keeps a b → Keeps b c → Keeps a c }
    ensures below { (old new : List Node) (i : ℕ) → Keeps old new → Below old i → Below new i }
    ensures terms { (old new : List Node) (i : ℕ) → Keeps old new → Below old i → term_at new i ≡ term_at old i }
    ensures arrays { (old new : List Node) (i : ℕ) → Keeps old new → Below old i → array_at new i ≡ array_at old i }
{}

/// The number of a typed term or array term stands for something.
pub fn typed_numbers()
    ensures terms { (nodes : List Node) (i : ℕ) → IsTyped (term_at nodes i) → Below nodes i }
    ensures arrays { (nodes : List Node) (i : ℕ) → IsTypedArray (array_at nodes i) → Below nodes i }
{}

/// A call that has no room has, with the old nodes, more terms than there may be.
pub fn limits()
    ensures { FullExceeds }
{}

/// The parts of each node stand before it, of array terms too.
pub fn parts_before()
    ensures { (nodes : List Node) → IsArena nodes → PartsStandBefore nodes }
{}
