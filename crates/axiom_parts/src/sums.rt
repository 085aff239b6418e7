// The parts of sums and relations.

ghost use Rattle.std.specs.Prelude.{◌≡◌, ◌+◌, ◌≤◌, nat_lt};
ghost use Rattle.axiom_rules.specs.declared.part.Part as Part;
ghost use Rattle.axiom_rules.specs.Parts.{bit_of, when, adder, relation, signed_relation, top_negated, equality};

use crate::literals::{bit_of, opposite, own, signed_by, when};
use axiom_rules::Part;
use clause_core::Lit;

/// The parts of x + y, and one more where `first` holds.
pub fn adder(i: u32, w: u32, x: Lit, y: Lit, first: bool, part: u32, j: u32) -> Option<Part>
    requires { w ≤ 128 }
    ensures { result ≡ adder i w x y first part j }
{
    match part {
        0 => when(
            j < w,
            Part::Sum {
                x,
                y,
                z: bit_of(i, 1, j),
                o: own(i, j),
            },
        ),
        1 => carry(i, w, x, y, j),
        2 => when(j == 0, Part::Unit(signed_by(first, bit_of(i, 1, 0)))),
        _ => None,
    }
}

/// The carry into the next bit.
fn carry(i: u32, w: u32, x: Lit, y: Lit, j: u32) -> Option<Part>
    requires { w ≤ 128 }
    ensures { result ≡ when (nat_lt j w) (Part.Maj x y (bit_of i 1 j) (bit_of i 1 (j + 1))) }
{
    if j < w {
        Some(Part::Maj {
            x,
            y,
            z: bit_of(i, 1, j),
            o: bit_of(i, 1, j + 1),
        })
    } else {
        None
    }
}

/// The parts of p at least q, or of p below q.
pub fn relation(i: u32, w: u32, p: Lit, q: Lit, least: bool, part: u32, j: u32) -> Option<Part>
    requires { w ≤ 128 }
    ensures { result ≡ relation i w p q least part j }
{
    match part {
        1 => carry(i, w, p, opposite(q), j),
        2 => when(j == 0, Part::Unit(bit_of(i, 1, 0))),
        3 => when(
            j == 0,
            Part::Same {
                x: signed_by(least, bit_of(i, 1, w)),
                o: own(i, 0),
            },
        ),
        _ => None,
    }
}

/// The top bit of a signed number is negated.
fn top_negated(w: u32, j: u32, p: Lit) -> Lit
    requires { w ≤ 128 }
    ensures { result ≡ top_negated w j p }
{
    if j < w && j + 1 == w { opposite(p) } else { p }
}

/// The same of signed numbers.
pub fn signed_relation(
    i: u32,
    w: u32,
    p: Lit,
    q: Lit,
    least: bool,
    part: u32,
    j: u32,
) -> Option<Part>
    requires { w ≤ 128 }
    ensures { result ≡ signed_relation i w p q least part j }
{
    relation(
        i,
        w,
        top_negated(w, j, p),
        top_negated(w, j, q),
        least,
        part,
        j,
    )
}

/// The parts of x equal to y.
pub fn equality(i: u32, w: u32, x: Lit, y: Lit, o: Lit, part: u32, j: u32) -> Option<Part>
    requires { w ≤ 128 }
    ensures { result ≡ equality i w x y o part j }
{
    match part {
        0 => when(j < w, Part::Equal { x, y, o }),
        1 => when(
            j < w,
            Part::Apart {
                x,
                y,
                o: bit_of(i, 1, j),
            },
        ),
        2 => when(
            j == 0,
            Part::Any {
                o,
                term: i,
                width: w as u8,
            },
        ),
        _ => None,
    }
}
