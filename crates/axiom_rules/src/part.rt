// The parts of axioms: gates, and what else has rows.

use clause_core::Lit;

/// A part of a subterm's axioms at one bit: a gate over literals, of which `o` is the output. Its rows are clauses.
#[derive(Clone, Copy, Drop)]
pub enum Part {
    /// The literal is true.
    Unit(Lit),
    /// o is x.
    Same {
        x: Lit,
        o: Lit,
    },
    /// o is x and y.
    And {
        x: Lit,
        y: Lit,
        o: Lit,
    },
    /// o is x or y.
    Or {
        x: Lit,
        y: Lit,
        o: Lit,
    },
    /// o is exactly one of x and y.
    Xor {
        x: Lit,
        y: Lit,
        o: Lit,
    },
    /// o is the parity of x, y and z.
    Sum {
        x: Lit,
        y: Lit,
        z: Lit,
        o: Lit,
    },
    /// o is the majority of x, y and z.
    Maj {
        x: Lit,
        y: Lit,
        z: Lit,
        o: Lit,
    },
    /// o is x where s holds, else y.
    Mux {
        s: Lit,
        x: Lit,
        y: Lit,
        o: Lit,
    },
    /// Where o is true, x and y are equal.
    Equal {
        x: Lit,
        y: Lit,
        o: Lit,
    },
    /// Where o is true, x and y differ.
    Apart {
        x: Lit,
        y: Lit,
        o: Lit,
    },
    /// o is true, or one of the first `width` bits of layer 1 of a subterm is.
    Any {
        o: Lit,
        term: u32,
        width: u8,
    },
    /// The bytes p and q of one array agree where their indices x and y do: this part of p, at this bit.
    Congruence {
        p: u32,
        q: u32,
        x: u32,
        y: u32,
        part: u32,
        bit: u32,
    },
}
