// Literals, and parts at some bits.

ghost use Rattle.std.specs.Prelude.{◌≡◌};
ghost use Rattle.clause_core.specs.Clauses.{opposite_of};
ghost use Rattle.axiom_rules.specs.Parts.{bit_of, own, never, signed_by, when, only};

use axiom_rules::Part;
use clause_core::{BitName, Lit};

/// A bit of a layer of a term is 1.
pub fn bit_of(term: u32, layer: u32, bit: u32) -> Lit
    ensures { result ≡ bit_of term layer bit }
{
    Lit {
        on: true,
        of: BitName::Bit { term, layer, bit },
    }
}

/// A bit of a term is 1.
pub fn own(term: u32, j: u32) -> Lit
    ensures { result ≡ own term j }
{
    bit_of(term, 0, j)
}

/// The literal that is always false.
pub fn never() -> Lit
    ensures { result ≡ never }
{
    Lit {
        on: false,
        of: BitName::Truth,
    }
}

/// The opposite of a literal.
pub fn opposite(p: Lit) -> Lit
    ensures { result ≡ opposite_of p }
{
    Lit {
        on: !p.on,
        of: p.of,
    }
}

/// The literal or its opposite.
pub fn signed_by(on: bool, p: Lit) -> Lit
    ensures { result ≡ signed_by on p }
{
    if on { p } else { opposite(p) }
}

/// The part where the test holds.
pub fn when(test: bool, part: Part) -> Option<Part>
    ensures { result ≡ when test part }
{
    if test { Some(part) } else { None }
}

/// Part 0 alone, at the bits below the width.
pub fn only(width: u32, part: u32, j: u32, p: Part) -> Option<Part>
    ensures { result ≡ only width part j p }
{
    when(part == 0 && j < width, p)
}
