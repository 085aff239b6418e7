//! Whether subterms are typed.

ghost use Rattle.std.specs.Prelude.{◌≡◌, ◌<◌, ◌≤◌, ◌^◌, true, All, [], ◌∷◌, slice_get, Some};
ghost use Rattle.bv_bits.specs.Bits.{result_width_of};
ghost use Rattle.axiom_rules.specs.Axioms.{width_at};
ghost use Rattle.axiom_rules.specs.Truth.{IsTypedNode};

use axiom_rules::{Node, Sub};
use bv_bits::Op;

/// The width of a subterm, and 0 where there is none.
pub fn width_at(subs: &[Sub], i: u32) -> u32
    ensures { result ≡ width_at subs.now i }
{
    match subs.get(i as usize) {
        None => 0,
        Some(sub) => sub.width,
    }
}

/// Whether a number has at most so many bits.
fn fits(value: u128, width: u32) -> bool
    ensures { result ≡ true → value < 2 ^ width }
{
    width < 128 && value < 1u128 << width
}

/// Whether the operator gives this width at these ones.
fn gives(op: Op, widths: &[u32], width: u32) -> bool
    ensures { result ≡ true → result_width_of op widths.now ≡ Some width }
{
    match op.result_width(widths) {
        None => false,
        Some(given) => given == width,
    }
}

/// Whether a node is typed at this width.
fn is_typed_node(subs: &[Sub], width: u32, node: Node) -> bool
    ensures { result ≡ true → IsTypedNode subs.now width node }
{
    match node {
        Node::Literal(value) => fits(value, width),
        Node::Variable => true,
        Node::One { op, a } => {
            let a = width_at(subs, a);
            0 < a && gives(op, &[a], width)
        }
        Node::Two { op, a, b } => {
            let a = width_at(subs, a);
            let b = width_at(subs, b);
            0 < a && gives(op, &[a, b], width)
        }
        Node::Three { op, a, b, c } => {
            let a = width_at(subs, a);
            let b = width_at(subs, b);
            let c = width_at(subs, c);
            gives(op, &[a, b, c], width)
        }
        Node::Byte { array: _, at } => width_at(subs, at) == 64,
    }
}

/// Whether a subterm is typed and at most 128 bits wide.
fn is_fine(subs: &[Sub], sub: Sub) -> bool
    ensures { result ≡ true → (sub.width ≤ 128) × IsTypedNode subs.now sub.width sub.node }
{
    sub.width <= 128 && is_typed_node(subs, sub.width, sub.node)
}

/// Whether each subterm is typed and at most 128 bits wide.
pub fn are_fine(subs: &[Sub]) -> bool
    ensures { result ≡ true → All (λ s. (s.width ≤ 128) × IsTypedNode subs.now s.width s.node) subs.now }
{
    subs.iter().all(|sub| is_fine(subs, *sub))
}
