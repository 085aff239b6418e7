// The parts of subterms.

ghost use Rattle.std.specs.Prelude.{◌≡◌, ℕ, ◌<◌, ◌≤◌, nat_eq, option_and_then, slice_get};
ghost use Rattle.std.specs.Int.{bit_at};
ghost use Rattle.axiom_rules.specs.declared.part.Part as Part;
ghost use Rattle.axiom_rules.specs.Parts.{own, only, signed_by};
ghost use Rattle.axiom_rules.specs.Axioms.{width_at, pair_part, byte_part, part_at};
ghost use Rattle.axiom_rules.specs.Truth.{IsTyped};

use crate::literals::{own, signed_by};
use crate::operators::{one_part, three_part, two_part};
use axiom_rules::{Node, Part, Sub};

/// Whether bit j of a number is set.
fn has_bit(value: u128, j: u32) -> bool
    requires { j < 128 }
    ensures { result ≡ nat_eq (bit_at value j) 1 }
{
    (value >> j) & 1 == 1
}

/// A part of a literal of this width.
fn literal_part(i: u32, width: u32, value: u128, part: u32, j: u32) -> Option<Part>
    requires { width ≤ 128 }
    ensures { result ≡ only width part j (Part.Unit (signed_by (nat_eq (bit_at value j) 1) (own i j))) }
{
    if part == 0 && j < width {
        Some(Part::Unit(signed_by(has_bit(value, j), own(i, j))))
    } else {
        None
    }
}

/// The width of a subterm.
fn width_at(subs: &[Sub], i: u32) -> u32
    ensures { result ≡ width_at subs.now i }
{
    match subs.get(i as usize) {
        None => 0,
        Some(sub) => sub.width,
    }
}

/// A part of the byte p of an array, of the index x, for the byte q of the same array.
fn pair_part(p: u32, q: u32, array: u32, x: u32, node: Node, part: u32, j: u32) -> Option<Part>
    ensures { result ≡ pair_part p q array x node part j }
{
    match node {
        Node::Byte { array: other, at } => if array == other {
            Some(Part::Congruence {
                p,
                q,
                x,
                y: at,
                part,
                bit: j,
            })
        } else {
            None
        },
        _ => None,
    }
}

/// A part of the byte p of an array, of the index x.
fn byte_part(subs: &[Sub], p: u32, array: u32, x: u32, part: u32, j: u32) -> Option<Part>
    ensures { result ≡ byte_part subs.now p array x part j }
{
    let q = part / 2;
    if p >= q {
        return None;
    }
    match subs.get(q as usize) {
        None => None,
        Some(sub) => pair_part(p, q, array, x, sub.node, part, j),
    }
}

/// A part of the subterm of this number, at bit j, if it is there. No memory is taken.
pub fn part_at(subs: &[Sub], i: u32, part: u32, j: u32) -> Option<Part>
    requires typed { IsTyped subs.now }
    requires small { (k : ℕ) → width_at subs.now k ≤ 128 }
    ensures { result ≡ part_at subs.now i part j }
{
    let sub = subs.get(i as usize)?;
    match sub.node {
        Node::Literal(value) => literal_part(i, sub.width, value, part, j),
        Node::Variable => None,
        Node::One { op, a } => one_part(op, i, a, width_at(subs, a), part, j),
        Node::Two { op, a, b } => two_part(
            op,
            i,
            a,
            b,
            width_at(subs, a),
            width_at(subs, b),
            part,
            j,
        ),
        Node::Three { op, a, b, c } => three_part(op, i, a, b, c, width_at(subs, b), part, j),
        Node::Byte { array, at } => byte_part(subs, i, array, at, part, j),
    }
}
