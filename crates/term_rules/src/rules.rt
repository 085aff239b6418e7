//! The rewrite table, rules 1 to 24: the right side of the first rule that fits.

ghost use Rattle.std.specs.Prelude.{◌≡◌, ◌≤◌, nat_eq, None};
ghost use Rattle.std.specs.Option.{option_map};
ghost use Rattle.term_tree.specs.Terms.{Tree, IsTyped, width_of, same_tree, one, two, three};
ghost use Rattle.term_rules.specs.Rules.{that_if, other_if, right_if, is_zero, is_ones, is_number, given, literal, rule_extract_part, rule_literals, rule_relation_same, rule_relation_zero, holds_of_same, opposite, rule_of};
ghost use Rattle.term_rules.specs.Shapes.{IsShape, right_of, literal_of};
ghost use Rattle.bv_bits.specs.Bits.{bit};
ghost use Rattle.bv_bits.specs.declared.Op.TheVariants.{Not, And, Or, Xor, Mul, Concat, Extract, Ite};

use crate::sum_rules::{add_rule, sub_rule};
use bv_bits::{Bits, Op, apply};

/// What stands for a term is at its top.
#[derive(Clone, Copy, Drop)]
pub enum Shape<I> {
    /// A literal.
    Lit(Bits),
    /// An operator at one argument.
    One { op: Op, a: I },
    /// An operator at two arguments.
    Two { op: Op, a: I, b: I },
    /// Anything else.
    Other,
}

/// Something that holds terms: what stands for a term tells its top.
pub trait Nodes<I: Copy> {
    /// The term that something stands for.
    ghost tree: { Self → I → Tree };

    /// The top of a term.
    fn shape(&self, of: I) -> Shape<I>
        requires typed { IsTyped (tree self.now of) }
        ensures shape { IsShape (tree self.now) (tree self.now of) result };

    /// The width of a term in bits.
    fn width(&self, of: I) -> u32
        requires typed { IsTyped (tree self.now of) }
        ensures width { result ≡ width_of (tree self.now of) };

    /// Whether two terms are the same.
    fn same(&self, a: I, b: I) -> bool
        requires a_typed { IsTyped (tree self.now a) }
        requires b_typed { IsTyped (tree self.now b) }
        ensures same { result ≡ same_tree (tree self.now a) (tree self.now b) };
}

/// The right side of a rule.
#[derive(Clone, Copy, Drop)]
pub enum Right<I> {
    /// A term that is there.
    Given(I),
    /// A literal.
    Literal(Bits),
    /// An operator at a term that is there.
    One { op: Op, a: I },
    /// An operator at two terms that are there.
    Two { op: Op, a: I, b: I },
    /// An operator at a term that is there and a literal.
    WithLiteral { op: Op, a: I, c: Bits },
    /// The sum of an operator at two terms that are there, and of a literal.
    PlusLiteral { op: Op, a: I, b: I, c: Bits },
}

/// The number of a literal.
pub fn literal<I: Copy, N: Nodes<I>>(nodes: &N, of: I) -> Option<Bits>
    requires typed { IsTyped (N.tree nodes.now of) }
    ensures value { result ≡ literal_of (N.tree nodes.now of) }
{
    match nodes.shape(of) {
        Shape::Lit(b) => Some(b),
        _ => None,
    }
}

/// Whether a term is the literal of this number.
fn is_number<I: Copy, N: Nodes<I>>(nodes: &N, of: I, n: u128) -> bool
    requires typed { IsTyped (N.tree nodes.now of) }
    ensures value { result ≡ is_number n (N.tree nodes.now of) }
{
    match nodes.shape(of) {
        Shape::Lit(b) => b.value == n,
        _ => false,
    }
}

/// Whether a term is the literal whose bits are all 1.
fn is_ones<I: Copy, N: Nodes<I>>(nodes: &N, of: I) -> bool
    requires typed { IsTyped (N.tree nodes.now of) }
    ensures value { result ≡ is_ones (N.tree nodes.now of) }
{
    match nodes.shape(of) {
        Shape::Lit(b) => b.value == u128::MAX >> (128 - b.width),
        _ => false,
    }
}

/// The literal of this number, as wide as a term.
pub fn same_width<I: Copy, N: Nodes<I>>(nodes: &N, of: I, n: u128) -> Right<I>
    requires typed { IsTyped (N.tree nodes.now of) }
    ensures value { right_of (N.tree nodes.now) result ≡ given (literal (width_of (N.tree nodes.now of)) n) }
{
    Right::Literal(Bits {
        width: nodes.width(of),
        value: n,
    })
}

/// The right side that is one of two terms, where the other one is the literal of this number.
fn other_of_number<I: Copy, N: Nodes<I>>(nodes: &N, n: u128, x: I, y: I) -> Option<Right<I>>
    requires x_typed { IsTyped (N.tree nodes.now x) }
    requires y_typed { IsTyped (N.tree nodes.now y) }
    ensures value { option_map (right_of (N.tree nodes.now)) result ≡ other_if (is_number n) (N.tree nodes.now x) (N.tree nodes.now y) }
{
    if is_number(nodes, x, n) {
        Some(Right::Given(y))
    } else if is_number(nodes, y, n) {
        Some(Right::Given(x))
    } else {
        None
    }
}

/// The right side that is the one of two terms that is 0.
fn zero_of<I: Copy, N: Nodes<I>>(nodes: &N, x: I, y: I) -> Option<Right<I>>
    requires x_typed { IsTyped (N.tree nodes.now x) }
    requires y_typed { IsTyped (N.tree nodes.now y) }
    ensures value { option_map (right_of (N.tree nodes.now)) result ≡ that_if is_zero (N.tree nodes.now x) (N.tree nodes.now y) }
{
    if is_number(nodes, x, 0) {
        Some(Right::Given(x))
    } else if is_number(nodes, y, 0) {
        Some(Right::Given(y))
    } else {
        None
    }
}

/// The right side that is one of two terms, where the other one has all bits 1.
fn other_of_ones<I: Copy, N: Nodes<I>>(nodes: &N, x: I, y: I) -> Option<Right<I>>
    requires x_typed { IsTyped (N.tree nodes.now x) }
    requires y_typed { IsTyped (N.tree nodes.now y) }
    ensures value { option_map (right_of (N.tree nodes.now)) result ≡ other_if is_ones (N.tree nodes.now x) (N.tree nodes.now y) }
{
    if is_ones(nodes, x) {
        Some(Right::Given(y))
    } else if is_ones(nodes, y) {
        Some(Right::Given(x))
    } else {
        None
    }
}

/// The right side that is the one of two terms that has all bits 1.
fn ones_of<I: Copy, N: Nodes<I>>(nodes: &N, x: I, y: I) -> Option<Right<I>>
    requires x_typed { IsTyped (N.tree nodes.now x) }
    requires y_typed { IsTyped (N.tree nodes.now y) }
    ensures value { option_map (right_of (N.tree nodes.now)) result ≡ that_if is_ones (N.tree nodes.now x) (N.tree nodes.now y) }
{
    if is_ones(nodes, x) {
        Some(Right::Given(x))
    } else if is_ones(nodes, y) {
        Some(Right::Given(y))
    } else {
        None
    }
}

/// Rules 4, 5 and 6: the right side for `And`, where not both arguments are literals.
fn and_rule<I: Copy, N: Nodes<I>>(nodes: &N, x: I, y: I) -> Option<Right<I>>
    requires x_typed { IsTyped (N.tree nodes.now x) }
    requires y_typed { IsTyped (N.tree nodes.now y) }
    requires open { rule_literals (two And (N.tree nodes.now x) (N.tree nodes.now y)) ≡ None }
    ensures value { option_map (right_of (N.tree nodes.now)) result ≡ rule_of (two And (N.tree nodes.now x) (N.tree nodes.now y)) }
{
    // rules 4, 5 and 6
    if let Some(right) = zero_of(nodes, x, y) {
        Some(right)
    } else if let Some(right) = other_of_ones(nodes, x, y) {
        Some(right)
    } else if nodes.same(x, y) {
        Some(Right::Given(x))
    } else {
        None
    }
}

/// Rules 6, 7 and 8: the right side for `Or`, where not both arguments are literals.
fn or_rule<I: Copy, N: Nodes<I>>(nodes: &N, x: I, y: I) -> Option<Right<I>>
    requires x_typed { IsTyped (N.tree nodes.now x) }
    requires y_typed { IsTyped (N.tree nodes.now y) }
    requires open { rule_literals (two Or (N.tree nodes.now x) (N.tree nodes.now y)) ≡ None }
    ensures value { option_map (right_of (N.tree nodes.now)) result ≡ rule_of (two Or (N.tree nodes.now x) (N.tree nodes.now y)) }
{
    if nodes.same(x, y) {
        return Some(Right::Given(x));
    }
    if let Some(right) = other_of_number(nodes, 0, x, y) {
        return Some(right);
    }
    ones_of(nodes, x, y)
}

/// Rule 9: the right side for `Xor`, where not both arguments are literals.
fn xor_rule<I: Copy, N: Nodes<I>>(nodes: &N, x: I, y: I) -> Option<Right<I>>
    requires x_typed { IsTyped (N.tree nodes.now x) }
    requires y_typed { IsTyped (N.tree nodes.now y) }
    requires open { rule_literals (two Xor (N.tree nodes.now x) (N.tree nodes.now y)) ≡ None }
    ensures value { option_map (right_of (N.tree nodes.now)) result ≡ rule_of (two Xor (N.tree nodes.now x) (N.tree nodes.now y)) }
{
    if let Some(right) = other_of_number(nodes, 0, x, y) {
        return Some(right);
    }
    if nodes.same(x, y) {
        return Some(same_width(nodes, x, 0));
    }
    None
}

/// Rule 17: the right side for `Mul`, where not both arguments are literals.
fn mul_rule<I: Copy, N: Nodes<I>>(nodes: &N, x: I, y: I) -> Option<Right<I>>
    requires x_typed { IsTyped (N.tree nodes.now x) }
    requires y_typed { IsTyped (N.tree nodes.now y) }
    requires open { rule_literals (two Mul (N.tree nodes.now x) (N.tree nodes.now y)) ≡ None }
    ensures value { option_map (right_of (N.tree nodes.now)) result ≡ rule_of (two Mul (N.tree nodes.now x) (N.tree nodes.now y)) }
{
    if let Some(right) = zero_of(nodes, x, y) {
        return Some(right);
    }
    other_of_number(nodes, 1, x, y)
}

/// Rule 18: the right side for a shift, where not both arguments are literals.
fn shift_rule<I: Copy, N: Nodes<I>>(nodes: &N, x: I, y: I) -> Option<Right<I>>
    requires y_typed { IsTyped (N.tree nodes.now y) }
    ensures value { option_map (right_of (N.tree nodes.now)) result ≡ right_if (is_zero (N.tree nodes.now y)) (given (N.tree nodes.now x)) }
{
    if is_number(nodes, y, 0) {
        Some(Right::Given(x))
    } else {
        None
    }
}

/// Rule 19: whether a relation holds of a term and itself; None for an operator that is no relation.
fn holds_of_same(op: Op) -> Option<bool>
    ensures value { result ≡ holds_of_same op }
{
    match op {
        Op::Eq | Op::ULe | Op::UGe | Op::SLe | Op::SGe => Some(true),
        Op::Ne | Op::ULt | Op::UGt | Op::SLt | Op::SGt => Some(false),
        _ => None,
    }
}

/// Rule 3: the relation that holds exactly where this one doesn't; None for an operator that is no relation.
fn opposite(op: Op) -> Option<Op>
    ensures value { result ≡ opposite op }
{
    match op {
        Op::Eq => Some(Op::Ne),
        Op::Ne => Some(Op::Eq),
        Op::ULt => Some(Op::UGe),
        Op::UGe => Some(Op::ULt),
        Op::ULe => Some(Op::UGt),
        Op::UGt => Some(Op::ULe),
        Op::SLt => Some(Op::SGe),
        Op::SGe => Some(Op::SLt),
        Op::SLe => Some(Op::SGt),
        Op::SGt => Some(Op::SLe),
        _ => None,
    }
}

/// A truth value as a literal.
fn truth<I: Copy>(holds: bool) -> Right<I>
    ensures value { (tree : I → Tree) → right_of tree result ≡ given (literal 1 (bit holds)) }
{
    Right::Literal(Bits {
        width: 1,
        value: if holds { 1 } else { 0 },
    })
}

/// Rule 19: the right side for a relation of a term and itself.
fn same_sides<I: Copy, N: Nodes<I>>(nodes: &N, op: Op, x: I, y: I) -> Option<Right<I>>
    requires x_typed { IsTyped (N.tree nodes.now x) }
    requires y_typed { IsTyped (N.tree nodes.now y) }
    ensures value { option_map (right_of (N.tree nodes.now)) result ≡ rule_relation_same (two op (N.tree nodes.now x) (N.tree nodes.now y)) }
{
    match holds_of_same(op) {
        Some(holds) => if nodes.same(x, y) {
            Some(truth(holds))
        } else {
            None
        },
        None => None,
    }
}

/// Rule 20: the right side for a relation with 0 that every number has, or none.
fn zero_side<I: Copy, N: Nodes<I>>(nodes: &N, op: Op, x: I, y: I) -> Option<Right<I>>
    requires x_typed { IsTyped (N.tree nodes.now x) }
    requires y_typed { IsTyped (N.tree nodes.now y) }
    ensures value { option_map (right_of (N.tree nodes.now)) result ≡ rule_relation_zero (two op (N.tree nodes.now x) (N.tree nodes.now y)) }
{
    let (side, holds) = match op {
        Op::ULt => (y, false),
        Op::UGt => (x, false),
        Op::UGe => (y, true),
        Op::ULe => (x, true),
        _ => return None,
    };
    if is_number(nodes, side, 0) {
        Some(truth(holds))
    } else {
        None
    }
}

/// The right side for an operator at two arguments, not both of which are literals.
fn rule_at_two<I: Copy, N: Nodes<I>>(nodes: &N, op: Op, x: I, y: I) -> Option<Right<I>>
    requires typed { IsTyped (two op (N.tree nodes.now x) (N.tree nodes.now y)) }
    requires open { rule_literals (two op (N.tree nodes.now x) (N.tree nodes.now y)) ≡ None }
    ensures value { option_map (right_of (N.tree nodes.now)) result ≡ rule_of (two op (N.tree nodes.now x) (N.tree nodes.now y)) }
{
    match op {
        Op::And => and_rule(nodes, x, y),
        Op::Or => or_rule(nodes, x, y),
        Op::Xor => xor_rule(nodes, x, y),
        Op::Add => add_rule(nodes, x, y),
        Op::Sub => sub_rule(nodes, x, y),
        Op::Mul => mul_rule(nodes, x, y),
        Op::Shl | Op::LShr | Op::AShr => shift_rule(nodes, x, y),
        _ => match same_sides(nodes, op, x, y) {
            Some(right) => Some(right),
            None => zero_side(nodes, op, x, y),
        },
    }
}

/// The right side for an operator at two arguments.
pub fn two_rule<I: Copy, N: Nodes<I>>(nodes: &N, op: Op, x: I, y: I) -> Option<Right<I>>
    requires typed { IsTyped (two op (N.tree nodes.now x) (N.tree nodes.now y)) }
    ensures value { option_map (right_of (N.tree nodes.now)) result ≡ rule_of (two op (N.tree nodes.now x) (N.tree nodes.now y)) }
{
    // rule 1
    if let Some(a) = literal(nodes, x) {
        if let Some(b) = literal(nodes, y) {
            return Some(Right::Literal(apply(op, &[a, b])));
        }
    }
    rule_at_two(nodes, op, x, y)
}

/// Rules 2 and 3: the right side for `Not`, at no literal.
fn not_rule<I: Copy, N: Nodes<I>>(nodes: &N, x: I) -> Option<Right<I>>
    requires typed { IsTyped (N.tree nodes.now x) }
    requires open { literal_of (N.tree nodes.now x) ≡ None }
    ensures value { option_map (right_of (N.tree nodes.now)) result ≡ rule_of (one Not (N.tree nodes.now x)) }
{
    match nodes.shape(x) {
        // rule 2
        Shape::One { op: Op::Not, a } => Some(Right::Given(a)),
        // rule 3
        Shape::Two { op, a, b } => match opposite(op) {
            Some(op) => Some(Right::Two { op, a, b }),
            None => None,
        },
        _ => None,
    }
}

/// Rules 21, 22 and 23: the right side for `Extract`, at no literal.
#[tactic(auto, using(crate::proofs::CodeLemmas::extract_fits))]
fn extract_rule<I: Copy, N: Nodes<I>>(nodes: &N, hi: u32, lo: u32, x: I) -> Option<Right<I>>
    requires typed { IsTyped (one (Extract hi lo) (N.tree nodes.now x)) }
    requires open { literal_of (N.tree nodes.now x) ≡ None }
    ensures value { option_map (right_of (N.tree nodes.now)) result ≡ rule_of (one (Extract hi lo) (N.tree nodes.now x)) }
{
    let width = nodes.width(x);
    // rule 21
    if lo == 0 && hi + 1 == width {
        return Some(Right::Given(x));
    }
    match nodes.shape(x) {
        // rule 22
        Shape::One {
            op: Op::Extract { hi: _, lo: l },
            a,
        } => Some(Right::One {
            op: Op::Extract {
                hi: hi + l,
                lo: lo + l,
            },
            a,
        }),
        // rule 23
        Shape::One {
            op: Op::ZExt { to: _ },
            a,
        } => if hi < nodes.width(a) {
            Some(Right::One {
                op: Op::Extract { hi, lo },
                a,
            })
        } else {
            None
        },
        // rule 22
        Shape::Two {
            op: Op::Concat,
            a,
            b,
        } => extract_of_concat(nodes, hi, lo, a, b),
        _ => None,
    }
}

/// Rule 22: the extract of a concat that lies within one part is extract of that part.
fn extract_of_concat<I: Copy, N: Nodes<I>>(
    nodes: &N,
    hi: u32,
    lo: u32,
    x: I,
    y: I,
) -> Option<Right<I>>
    requires y_typed { IsTyped (N.tree nodes.now y) }
    requires order { lo ≤ hi }
    ensures value { option_map (right_of (N.tree nodes.now)) result ≡ rule_extract_part (one (Extract hi lo) (two Concat (N.tree nodes.now x) (N.tree nodes.now y))) }
{
    let low = nodes.width(y);
    if hi < low {
        Some(Right::One {
            op: Op::Extract { hi, lo },
            a: y,
        })
    } else if low <= lo {
        Some(Right::One {
            op: Op::Extract {
                hi: hi - low,
                lo: lo - low,
            },
            a: x,
        })
    } else {
        None
    }
}

/// Rule 23: the right side for a widening to the own width.
fn extend_rule<I: Copy, N: Nodes<I>>(nodes: &N, to: u32, x: I) -> Option<Right<I>>
    requires typed { IsTyped (N.tree nodes.now x) }
    ensures value { option_map (right_of (N.tree nodes.now)) result ≡ right_if (nat_eq to (width_of (N.tree nodes.now x))) (given (N.tree nodes.now x)) }
{
    if to == nodes.width(x) {
        Some(Right::Given(x))
    } else {
        None
    }
}

/// The right side for an operator at one argument.
pub fn one_rule<I: Copy, N: Nodes<I>>(nodes: &N, op: Op, x: I) -> Option<Right<I>>
    requires typed { IsTyped (one op (N.tree nodes.now x)) }
    ensures value { option_map (right_of (N.tree nodes.now)) result ≡ rule_of (one op (N.tree nodes.now x)) }
{
    // rule 1
    if let Some(a) = literal(nodes, x) {
        return Some(Right::Literal(apply(op, &[a])));
    }
    match op {
        Op::Not => not_rule(nodes, x),
        Op::Extract { hi, lo } => extract_rule(nodes, hi, lo, x),
        Op::ZExt { to } => extend_rule(nodes, to, x),
        Op::SExt { to } => extend_rule(nodes, to, x),
        _ => None,
    }
}

/// Rule 24: the right side for a choice.
fn ite_rule<I: Copy, N: Nodes<I>>(nodes: &N, test: I, x: I, y: I) -> Option<Right<I>>
    requires typed { IsTyped (three Ite (N.tree nodes.now test) (N.tree nodes.now x) (N.tree nodes.now y)) }
    ensures value { option_map (right_of (N.tree nodes.now)) result ≡ rule_of (three Ite (N.tree nodes.now test) (N.tree nodes.now x) (N.tree nodes.now y)) }
{
    if let Some(t) = literal(nodes, test) {
        return Some(Right::Given(if t.value == 1 { x } else { y }));
    }
    if nodes.same(x, y) {
        return Some(Right::Given(x));
    }
    None
}

/// The right side for an operator at three arguments.
pub fn three_rule<I: Copy, N: Nodes<I>>(nodes: &N, op: Op, a: I, b: I, c: I) -> Option<Right<I>>
    requires typed { IsTyped (three op (N.tree nodes.now a) (N.tree nodes.now b) (N.tree nodes.now c)) }
    ensures value { option_map (right_of (N.tree nodes.now)) result ≡ rule_of (three op (N.tree nodes.now a) (N.tree nodes.now b) (N.tree nodes.now c)) }
{
    match op {
        Op::Ite => ite_rule(nodes, a, b, c),
        _ => unreachable!(),
    }
}
