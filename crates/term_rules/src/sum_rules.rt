//! Rules 10 to 16: sums and differences.

ghost use Rattle.std.specs.Prelude.{◌≡◌, None};
ghost use Rattle.std.specs.Option.{option_map};
ghost use Rattle.term_tree.specs.Terms.{IsTyped, width_of, lit, two};
ghost use Rattle.term_rules.specs.Rules.{or_else, out_of_first, out_of_second, rule_literals, rule_add_out, rule_sub_same, rule_sub_out, negated, left_over, taken_from_second, rule_of};
ghost use Rattle.term_rules.specs.Shapes.{right_of, sum_parts, literal_of};
ghost use Rattle.bv_bits.specs.Bits.{IsBits};
ghost use Rattle.bv_bits.specs.declared.Op.TheVariants.{Add, Sub};

use crate::rules::{Nodes, Right, Shape, literal, same_width};
use bv_bits::{Bits, Op, apply};

/// The parts of a sum of a term and a literal.
fn sum_parts<I: Copy, N: Nodes<I>>(nodes: &N, of: I) -> Option<(I, Bits)>
    requires typed { IsTyped (N.tree nodes.now of) }
    ensures value { option_map (λ p. (N.tree nodes.now p.0, p.1)) result ≡ sum_parts (N.tree nodes.now of) }
{
    match nodes.shape(of) {
        Shape::Two { op: Op::Add, a, b } => match literal(nodes, b) {
            Some(c) => Some((a, c)),
            None => None,
        },
        _ => None,
    }
}

/// Rule 13: a sum with a literal inside an operator's argument, moved out: op(x, add(y, c)) is add(op(x, y), c).
fn out_of_second<I: Copy, N: Nodes<I>>(nodes: &N, op: Op, x: I, y: I) -> Option<Right<I>>
    requires y_typed { IsTyped (N.tree nodes.now y) }
    ensures value { option_map (right_of (N.tree nodes.now)) result ≡ out_of_second op (N.tree nodes.now x) (N.tree nodes.now y) }
{
    match sum_parts(nodes, y) {
        Some((b, c)) => Some(Right::PlusLiteral { op, a: x, b, c }),
        None => None,
    }
}

/// Rules 13 and 16: op(add(x, c), y) is add(op(x, y), c).
fn out_of_first<I: Copy, N: Nodes<I>>(nodes: &N, op: Op, x: I, y: I) -> Option<Right<I>>
    requires x_typed { IsTyped (N.tree nodes.now x) }
    ensures value { option_map (right_of (N.tree nodes.now)) result ≡ out_of_first op (N.tree nodes.now x) (N.tree nodes.now y) }
{
    match sum_parts(nodes, x) {
        Some((a, c)) => Some(Right::PlusLiteral { op, a, b: y, c }),
        None => None,
    }
}

/// Rules 10 to 13: the right side for `Add`, where not both arguments are literals.
pub fn add_rule<I: Copy, N: Nodes<I>>(nodes: &N, x: I, y: I) -> Option<Right<I>>
    requires x_typed { IsTyped (N.tree nodes.now x) }
    requires y_typed { IsTyped (N.tree nodes.now y) }
    requires widths { width_of (N.tree nodes.now x) ≡ width_of (N.tree nodes.now y) }
    requires open { rule_literals (two Add (N.tree nodes.now x) (N.tree nodes.now y)) ≡ None }
    ensures value { option_map (right_of (N.tree nodes.now)) result ≡ rule_of (two Add (N.tree nodes.now x) (N.tree nodes.now y)) }
{
    if literal(nodes, x).is_some() {
        return Some(Right::Two {
            op: Op::Add,
            a: y,
            b: x,
        });
    }
    match literal(nodes, y) {
        Some(d) => add_literal(nodes, x, d),
        None => add_open(nodes, x, y),
    }
}

/// Rule 13: the right side for the sum of two terms that are no literals.
fn add_open<I: Copy, N: Nodes<I>>(nodes: &N, x: I, y: I) -> Option<Right<I>>
    requires x_typed { IsTyped (N.tree nodes.now x) }
    requires y_typed { IsTyped (N.tree nodes.now y) }
    ensures value { option_map (right_of (N.tree nodes.now)) result ≡ rule_add_out (two Add (N.tree nodes.now x) (N.tree nodes.now y)) }
{
    if let Some(right) = out_of_second(nodes, Op::Add, x, y) {
        return Some(right);
    }
    out_of_first(nodes, Op::Add, x, y)
}

/// Rules 11 and 12: the right side for the sum of a term that is no literal and of a literal.
fn add_literal<I: Copy, N: Nodes<I>>(nodes: &N, x: I, d: Bits) -> Option<Right<I>>
    requires x_typed { IsTyped (N.tree nodes.now x) }
    requires fits { IsBits d }
    requires widths { width_of (N.tree nodes.now x) ≡ d.width }
    requires open { literal_of (N.tree nodes.now x) ≡ None }
    ensures value { option_map (right_of (N.tree nodes.now)) result ≡ rule_of (two Add (N.tree nodes.now x) (lit d)) }
{
    if d.value == 0 {
        return Some(Right::Given(x));
    }
    match sum_parts(nodes, x) {
        Some((a, c)) => Some(Right::WithLiteral {
            op: Op::Add,
            a,
            c: apply(Op::Add, &[c, d]),
        }),
        None => None,
    }
}

/// Rules 14 to 16: the right side for `Sub`, where not both arguments are literals.
pub fn sub_rule<I: Copy, N: Nodes<I>>(nodes: &N, x: I, y: I) -> Option<Right<I>>
    requires x_typed { IsTyped (N.tree nodes.now x) }
    requires y_typed { IsTyped (N.tree nodes.now y) }
    requires open { rule_literals (two Sub (N.tree nodes.now x) (N.tree nodes.now y)) ≡ None }
    ensures value { option_map (right_of (N.tree nodes.now)) result ≡ rule_of (two Sub (N.tree nodes.now x) (N.tree nodes.now y)) }
{
    match literal(nodes, y) {
        Some(c) => Some(Right::WithLiteral {
            op: Op::Add,
            a: x,
            c: negated(c),
        }),
        None => sub_open(nodes, x, y),
    }
}

/// Rules 15 and 16: the right side for the difference of a term and one that is no literal.
fn sub_open<I: Copy, N: Nodes<I>>(nodes: &N, x: I, y: I) -> Option<Right<I>>
    requires x_typed { IsTyped (N.tree nodes.now x) }
    requires y_typed { IsTyped (N.tree nodes.now y) }
    requires open { literal_of (N.tree nodes.now y) ≡ None }
    ensures value { option_map (right_of (N.tree nodes.now)) result ≡ or_else (rule_sub_same (two Sub (N.tree nodes.now x) (N.tree nodes.now y))) (rule_sub_out (two Sub (N.tree nodes.now x) (N.tree nodes.now y))) }
{
    if nodes.same(x, y) {
        return Some(same_width(nodes, x, 0));
    }
    if let Some(right) = left_over(nodes, x, y) {
        return Some(right);
    }
    if let Some(right) = taken_from_second(nodes, x, y) {
        return Some(right);
    }
    out_of_first(nodes, Op::Sub, x, y)
}

/// The literal -c.
fn negated(c: Bits) -> Bits
    requires fits { IsBits c }
    ensures value { lit result ≡ negated c }
    ensures fits { IsBits result }
{
    apply(Op::Neg, &[c])
}

/// Rule 15: sub(add(x, y), x) is y.
fn left_over<I: Copy, N: Nodes<I>>(nodes: &N, x: I, y: I) -> Option<Right<I>>
    requires x_typed { IsTyped (N.tree nodes.now x) }
    requires y_typed { IsTyped (N.tree nodes.now y) }
    ensures value { option_map (right_of (N.tree nodes.now)) result ≡ left_over (N.tree nodes.now x) (N.tree nodes.now y) }
{
    match nodes.shape(x) {
        Shape::Two { op: Op::Add, a, b } => if nodes.same(a, y) {
            Some(Right::Given(b))
        } else {
            None
        },
        _ => None,
    }
}

/// Rule 16: sub(x, add(y, c)) is add(sub(x, y), -c).
fn taken_from_second<I: Copy, N: Nodes<I>>(nodes: &N, x: I, y: I) -> Option<Right<I>>
    requires y_typed { IsTyped (N.tree nodes.now y) }
    ensures value { option_map (right_of (N.tree nodes.now)) result ≡ taken_from_second (N.tree nodes.now x) (N.tree nodes.now y) }
{
    match sum_parts(nodes, y) {
        Some((b, c)) => Some(Right::PlusLiteral {
            op: Op::Sub,
            a: x,
            b,
            c: negated(c),
        }),
        None => None,
    }
}
