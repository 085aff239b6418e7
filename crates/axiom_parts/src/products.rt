// The parts of products.

ghost use Rattle.std.specs.Prelude.{◌≡◌, ◌<◌, ◌≤◌};
ghost use Rattle.axiom_rules.specs.Parts.{sum_before, product_row, product};

use crate::literals::{bit_of, never, opposite, own, when};
use axiom_rules::Part;
use clause_core::Lit;

/// A bit of the sum of the first r rows of a product.
fn sum_before(i: u32, r: u32, j: u32) -> Lit
    requires { r < 128 }
    ensures { result ≡ sum_before i r j }
{
    if r == 0 {
        never()
    } else {
        bit_of(i, 3 * r - 1, j)
    }
}

/// A part of row r of a product.
fn product_row(i: u32, a: u32, b: u32, w: u32, r: u32, kind: u32, j: u32) -> Option<Part>
    requires width { w ≤ 128 }
    requires row { r < w }
    ensures { result ≡ product_row i a b w r kind j }
{
    let row = bit_of(i, 3 * r + 1, j);
    let before = sum_before(i, r, j);
    let carry = bit_of(i, 3 * r + 3, j);
    match kind {
        0 => when(
            j < w,
            Part::And {
                x: if j < r { never() } else { own(a, j - r) },
                y: own(b, r),
                o: row,
            },
        ),
        1 => when(
            j < w,
            Part::Sum {
                x: before,
                y: row,
                z: carry,
                o: bit_of(i, 3 * r + 2, j),
            },
        ),
        2 => if j < w {
            Some(Part::Maj {
                x: before,
                y: row,
                z: carry,
                o: bit_of(i, 3 * r + 3, j + 1),
            })
        } else {
            None
        },
        _ => when(j == 0, Part::Unit(opposite(bit_of(i, 3 * r + 3, 0)))),
    }
}

/// A part of a product.
pub fn product(i: u32, a: u32, b: u32, w: u32, part: u32, j: u32) -> Option<Part>
    requires positive { 0 < w }
    requires width { w ≤ 128 }
    ensures { result ≡ product i a b w part j }
{
    if part / 4 < w {
        product_row(i, a, b, w, part / 4, part % 4, j)
    } else {
        when(
            part == 4 * w && j < w,
            Part::Same {
                x: bit_of(i, 3 * w - 1, j),
                o: own(i, j),
            },
        )
    }
}
