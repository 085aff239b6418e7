// The parts of shifts.

ghost use Rattle.std.specs.Prelude.{◌≡◌, ◌<◌, ◌≤◌, nat_lt};
ghost use Rattle.axiom_rules.specs.Parts.{stage, shifted, from_below, from_above, within};

use crate::literals::{bit_of, never, own, when};
use axiom_rules::Part;
use clause_core::Lit;

/// What is shifted by the first s bits of the amount.
pub fn stage(i: u32, a: u32, s: u32, j: u32) -> Lit
    ensures { result ≡ stage i a s j }
{
    if s == 0 { own(a, j) } else { bit_of(i, s, j) }
}

/// A part of a shift, which moves this bit to bit j.
fn shifted(i: u32, a: u32, b: u32, m: u32, moved: Lit, part: u32, j: u32) -> Option<Part>
    ensures { result ≡ shifted i a b m moved part j }
{
    if part < m {
        Some(Part::Mux {
            s: own(b, part),
            x: moved,
            y: stage(i, a, part, j),
            o: bit_of(i, part + 1, j),
        })
    } else {
        when(
            part == m,
            Part::Same {
                x: bit_of(i, m, j),
                o: own(i, j),
            },
        )
    }
}

/// The bit 2 ^ s further down, and nothing below the lowest.
fn from_below(i: u32, a: u32, s: u32, j: u32) -> Lit
    requires { s < 128 }
    ensures { result ≡ from_below i a s j }
{
    let by = 1u128 << s;
    let j = j as u128;
    if by <= j {
        stage(i, a, s, (j - by) as u32)
    } else {
        never()
    }
}

/// The bit 2 ^ s further up, and this one above the highest.
fn from_above(i: u32, a: u32, s: u32, j: u32, w: u32, outside: Lit) -> Lit
    requires bit { j < w }
    requires width { w ≤ 128 }
    requires stage { s < 128 }
    ensures { result ≡ from_above i a s j w outside }
{
    let by = 1u128 << s;
    let room = (w - j) as u128;
    if by < room {
        stage(i, a, s, j + by as u32)
    } else {
        outside
    }
}

/// A part of a left shift.
pub fn left_shift(i: u32, a: u32, b: u32, w: u32, m: u32, part: u32, j: u32) -> Option<Part>
    requires width { w ≤ 128 }
    requires amount { m ≤ 128 }
    ensures { result ≡ within (nat_lt j w) (shifted i a b m (from_below i a part j) part j) }
{
    if j >= w {
        return None;
    }
    let moved = if part < m {
        from_below(i, a, part, j)
    } else {
        never()
    };
    shifted(i, a, b, m, moved, part, j)
}

/// A part of a right shift.
pub fn right_shift(
    i: u32,
    a: u32,
    b: u32,
    w: u32,
    m: u32,
    outside: Lit,
    part: u32,
    j: u32,
) -> Option<Part>
    requires width { w ≤ 128 }
    requires amount { m ≤ 128 }
    ensures { result ≡ within (nat_lt j w) (shifted i a b m (from_above i a part j w outside) part j) }
{
    if j >= w {
        return None;
    }
    let moved = if part < m {
        from_above(i, a, part, j, w, outside)
    } else {
        never()
    };
    shifted(i, a, b, m, moved, part, j)
}
