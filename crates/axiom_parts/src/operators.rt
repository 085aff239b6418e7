// The parts of operators.

ghost use Rattle.std.specs.Prelude.{◌≡◌, ◌+◌, ◌-◌, ◌<◌, ◌≤◌, IsSome, [], ◌∷◌};
ghost use Rattle.bv_bits.specs.Bits.{result_width_of};
ghost use Rattle.axiom_rules.specs.declared.part.Part as Part;
ghost use Rattle.axiom_rules.specs.Parts.{own, only};
ghost use Rattle.axiom_rules.specs.Axioms.{one_part, order_part, two_part, three_part};

use crate::literals::{never, only, opposite, own};
use crate::products::product;
use crate::shifts::{left_shift, right_shift, stage};
use crate::sums::{adder, equality, relation, signed_relation};
use axiom_rules::Part;
use bv_bits::Op;

/// A part of the bits lo to hi of a term.
fn extract(i: u32, a: u32, hi: u32, lo: u32, part: u32, j: u32) -> Option<Part>
    requires order { lo ≤ hi }
    requires width { hi < 128 }
    ensures { result ≡ only (hi - lo + 1) part j (Part.Same (own a (j + lo)) (own i j)) }
{
    if part == 0 && j < hi - lo + 1 {
        Some(Part::Same {
            x: own(a, j + lo),
            o: own(i, j),
        })
    } else {
        None
    }
}

/// A part of a term of one argument, which is w bits wide.
pub fn one_part(op: Op, i: u32, a: u32, w: u32, part: u32, j: u32) -> Option<Part>
    requires positive { 0 < w }
    requires width { w ≤ 128 }
    requires typed { IsSome (result_width_of op (w ∷ [])) }
    ensures { result ≡ one_part op i a w part j }
{
    match op {
        Op::Not => only(
            w,
            part,
            j,
            Part::Same {
                x: opposite(own(a, j)),
                o: own(i, j),
            },
        ),
        Op::Neg => adder(i, w, never(), opposite(own(a, j)), true, part, j),
        Op::Extract { hi, lo } => extract(i, a, hi, lo, part, j),
        Op::ZExt { to } => {
            let x = if j < w { own(a, j) } else { never() };
            only(to, part, j, Part::Same { x, o: own(i, j) })
        }
        Op::SExt { to } => {
            let x = own(a, if j < w { j } else { w - 1 });
            only(to, part, j, Part::Same { x, o: own(i, j) })
        }
        _ => None,
    }
}

/// A part of a comparison.
fn order_part(op: Op, i: u32, a: u32, b: u32, w: u32, part: u32, j: u32) -> Option<Part>
    requires width { w ≤ 128 }
    ensures { result ≡ order_part op i a b w part j }
{
    match op {
        Op::ULt => relation(i, w, own(a, j), own(b, j), false, part, j),
        Op::UGe => relation(i, w, own(a, j), own(b, j), true, part, j),
        Op::UGt => relation(i, w, own(b, j), own(a, j), false, part, j),
        Op::ULe => relation(i, w, own(b, j), own(a, j), true, part, j),
        Op::SLt => signed_relation(i, w, own(a, j), own(b, j), false, part, j),
        Op::SGe => signed_relation(i, w, own(a, j), own(b, j), true, part, j),
        Op::SGt => signed_relation(i, w, own(b, j), own(a, j), false, part, j),
        Op::SLe => signed_relation(i, w, own(b, j), own(a, j), true, part, j),
        _ => None,
    }
}

/// A part of a term of two arguments, which are w and m bits wide.
pub fn two_part(op: Op, i: u32, a: u32, b: u32, w: u32, m: u32, part: u32, j: u32) -> Option<Part>
    requires positive { 0 < w }
    requires width { w ≤ 128 }
    requires amount { m ≤ 128 }
    ensures { result ≡ two_part op i a b w m part j }
{
    let x = own(a, j);
    let y = own(b, j);
    let o = own(i, j);
    match op {
        Op::And => only(w, part, j, Part::And { x, y, o }),
        Op::Or => only(w, part, j, Part::Or { x, y, o }),
        Op::Xor => only(w, part, j, Part::Xor { x, y, o }),
        Op::Imp => only(
            1,
            part,
            j,
            Part::Or {
                x: opposite(own(a, 0)),
                y: own(b, 0),
                o: own(i, 0),
            },
        ),
        Op::Add => adder(i, w, x, y, false, part, j),
        Op::Sub => adder(i, w, x, opposite(y), true, part, j),
        Op::Mul => product(i, a, b, w, part, j),
        Op::Shl => left_shift(i, a, b, w, m, part, j),
        Op::LShr => right_shift(i, a, b, w, m, never(), part, j),
        Op::AShr => right_shift(i, a, b, w, m, stage(i, a, part, w - 1), part, j),
        Op::Eq => equality(i, w, x, y, own(i, 0), part, j),
        Op::Ne => equality(i, w, x, y, opposite(own(i, 0)), part, j),
        Op::Concat => {
            let x = if j < m { y } else { own(a, j - m) };
            only(w + m, part, j, Part::Same { x, o })
        }
        _ => order_part(op, i, a, b, w, part, j),
    }
}

/// A part of a term of three arguments, of which the last two are m bits wide.
pub fn three_part(op: Op, i: u32, a: u32, b: u32, c: u32, m: u32, part: u32, j: u32) -> Option<Part>
    ensures { result ≡ three_part op i a b c m part j }
{
    match op {
        Op::Ite => only(
            m,
            part,
            j,
            Part::Mux {
                s: own(a, 0),
                x: own(b, j),
                y: own(c, j),
                o: own(i, j),
            },
        ),
        _ => None,
    }
}
