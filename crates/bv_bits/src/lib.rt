//! Bit vectors of 1 to 128 bits and the operators on them.
#![tactic(auto)]

pub mod laws;
mod words;

ghost use Rattle.std.specs.Prelude.{◌≡◌, ◌<◌, ◌≤◌, [], ◌∷◌, map, All, IsSome, IfSome, unwrap_or, ◌^◌};
ghost use Rattle.std.specs.List.{list_all};
ghost use Rattle.bv_bits.specs.Bits.{IsBits, IsWidth, is_width, checked_width_of, result_width_of, number_of, apply_of, width_of};

/// A bit vector: a width of 1 to 128 bits, and a number below 2^width, whose bit 0 is the lowest.
#[derive(Debug, Clone, Copy, PartialEq, Eq, Hash)]
pub struct Bits {
    /// The number of bits, 1 to 128.
    pub width: u32,
    /// The bits as a number without sign, below 2^width.
    pub value: u128,
}

/// An operator on bit vectors.
///
/// Below, w is the width of the first argument, x and y are the numbers of the first and the second, and s(x) is the number
/// of x in two's complement. Every value is taken modulo 2 to the width of the result. The values of division by zero
/// and of shifts by the width or more are a choice of this library. A truth value is one bit, 1 for true.
#[derive(Debug, Clone, Copy, PartialEq, Eq, Hash)]
pub enum Op {
    /// Each bit turned: 2^w - 1 - x.
    Not,
    /// The negative: -x.
    Neg,
    /// Bit by bit, both; two arguments of one width, which the result has too.
    And,
    /// Bit by bit, at least one of both; two arguments of one width.
    Or,
    /// Bit by bit, exactly one of both; two arguments of one width.
    Xor,
    /// Implication between two single bits: 0 exactly where x is 1 and y is 0.
    Imp,
    /// The sum x + y; two arguments of one width.
    Add,
    /// The difference x - y; two arguments of one width.
    Sub,
    /// The product x * y; two arguments of one width.
    Mul,
    /// The quotient of x by y, and all ones for y = 0; two arguments of one width.
    UDiv,
    /// The rest of x by y, and x for y = 0; two arguments of one width.
    URem,
    /// The quotient of s(x) by s(y) cut toward zero, and all ones for y = 0; two arguments of one width.
    SDiv,
    /// The rest of that quotient, which has the sign of s(x), and x for y = 0; two arguments of one width.
    SRem,
    /// x * 2^y, and 0 for y at least w; the amount may have any width.
    Shl,
    /// x / 2^y cut, and 0 for y at least w; the amount may have any width.
    LShr,
    /// s(x) / 2^y rounded down, and all sign bits for y at least w; the amount may have any width.
    AShr,
    /// Whether x equals y; two arguments of one width, one bit as the result.
    Eq,
    /// Whether x differs from y; widths as for `Eq`.
    Ne,
    /// Whether x is below y; widths as for `Eq`.
    ULt,
    /// Whether x is at most y; widths as for `Eq`.
    ULe,
    /// Whether x is above y; widths as for `Eq`.
    UGt,
    /// Whether x is at least y; widths as for `Eq`.
    UGe,
    /// Whether s(x) is below s(y); widths as for `Eq`.
    SLt,
    /// Whether s(x) is at most s(y); widths as for `Eq`.
    SLe,
    /// Whether s(x) is above s(y); widths as for `Eq`.
    SGt,
    /// Whether s(x) is at least s(y); widths as for `Eq`.
    SGe,
    /// The bits of the first above those of the second: x * 2^m + y, m the second's width; w + m is at most 128.
    Concat,
    /// The bits `hi` down to `lo`, with `lo` at most `hi` and `hi` below w: hi - lo + 1 bits.
    Extract { hi: u32, lo: u32 },
    /// The number x in `to` bits, w to 128.
    ZExt { to: u32 },
    /// The number s(x) in `to` bits, w to 128.
    SExt { to: u32 },
    /// The second argument where the first, a single bit, is 1, else the third; those two have one width.
    Ite,
}

macro_rules! some_if {
    ($test:expr, $width:expr) => {
        if $test { Some($width) } else { None }
    };
}

macro_rules! one_width {
    ($widths:ident, $w:ident => $result:expr) => {
        match $widths {
            [$w] => {
                let $w = *$w;
                $result
            }
            _ => None,
        }
    };
}

macro_rules! two_widths {
    ($widths:ident, $w:ident $m:ident => $result:expr) => {
        match $widths {
            [$w, $m] => {
                let $w = *$w;
                let $m = *$m;
                $result
            }
            _ => None,
        }
    };
}

/// Whether there are bit vectors of the width.
fn is_width(width: u32) -> bool
    ensures { result ≡ is_width width }
{
    0 < width && width <= 128
}

/// Whether there are bit vectors of each of the widths.
fn are_widths(widths: &[u32]) -> bool
    ensures { result ≡ list_all is_width widths.now }
{
    widths.iter().all(|width| is_width(*width))
}

impl Op {
    /// The width in bits of what the operator gives at arguments of these widths, and None where it takes another number
    /// of arguments or other widths, or where one of them is no width of 1 to 128 bits.
    pub fn result_width(self, widths: &[u32]) -> Option<u32>
        ensures value { result ≡ checked_width_of self widths.now }
        ensures width { IfSome result IsWidth }
    {
        if are_widths(widths) {
            self.row_width(widths)
        } else {
            None
        }
    }

    /// The width in the operator's row of the table, for widths that are known to be those of bit vectors: they give what
    /// `result_width` gives. The rows are not limited to them.
    pub fn row_width(self, widths: &[u32]) -> Option<u32>
        ensures value { result ≡ result_width_of self widths.now }
        ensures width { All IsWidth widths.now → IfSome result IsWidth }
    {
        match self {
            Op::Not | Op::Neg => one_width!(widths, w => Some(w)),
            Op::And
            | Op::Or
            | Op::Xor
            | Op::Add
            | Op::Sub
            | Op::Mul
            | Op::UDiv
            | Op::URem
            | Op::SDiv
            | Op::SRem => two_widths!(widths, w m => some_if!(w == m, w)),
            Op::Imp => two_widths!(widths, w m => some_if!(w == 1 && m == 1, 1)),
            Op::Shl | Op::LShr | Op::AShr => two_widths!(widths, w _m => Some(w)),
            Op::Eq
            | Op::Ne
            | Op::ULt
            | Op::ULe
            | Op::UGt
            | Op::UGe
            | Op::SLt
            | Op::SLe
            | Op::SGt
            | Op::SGe => two_widths!(widths, w m => some_if!(w == m, 1)),
            Op::Concat => two_widths!(widths, w m => some_if!(w <= 128 && m <= 128 - w, w + m)),
            Op::Extract { hi, lo } =>
                one_width!(widths, w => some_if!(lo <= hi && hi < w, hi - lo + 1)),
            Op::ZExt { to } | Op::SExt { to } =>
                one_width!(widths, w => some_if!(w <= to && to <= 128, to)),
            Op::Ite => match widths {
                [t, w, m] => some_if!(*t == 1 && *w == *m, *w),
                _ => None,
            },
        }
    }
}

macro_rules! binary {
    ($a:ident $b:ident, $w:ident $x:ident $y:ident => $result:expr) => {{
        let $w = $a.width;
        let $x = $a.value;
        let $y = $b.value;
        $result
    }};
}

macro_rules! bit {
    ($test:expr) => {
        if $test { 1 } else { 0 }
    };
}

/// The number that an operator with one argument gives.
fn apply_one(op: Op, a: Bits) -> u128
    requires fits { IsBits a }
    requires typed { IsSome (result_width_of op (a.width ∷ [])) }
    ensures value { result ≡ number_of op (a ∷ []) }
    ensures fits { result < 2 ^ unwrap_or (result_width_of op (a.width ∷ [])) 0 }
{
    let w = a.width;
    let x = a.value;
    match op {
        Op::Not => words::mask(w) - x,
        Op::Neg => words::neg(w, x),
        Op::Extract { hi, lo } => words::low(hi - lo + 1, x >> lo),
        Op::ZExt { to: _ } => x,
        Op::SExt { to } => words::sign_extend(w, to, x),
        _ => unreachable!(),
    }
}

/// The number that an operator with two arguments gives.
fn apply_two(op: Op, a: Bits, b: Bits) -> u128
    requires a_fits { IsBits a }
    requires b_fits { IsBits b }
    requires typed { IsSome (result_width_of op (a.width ∷ b.width ∷ [])) }
    ensures value { result ≡ number_of op (a ∷ b ∷ []) }
    ensures fits { result < 2 ^ unwrap_or (result_width_of op (a.width ∷ b.width ∷ [])) 0 }
{
    match op {
        Op::And => binary!(a b, _w x y => x & y),
        Op::Or => binary!(a b, _w x y => x | y),
        Op::Xor => binary!(a b, _w x y => x ^ y),
        Op::Imp => binary!(a b, _w x y => if x == 1 && y == 0 { 0 } else { 1 }),
        Op::Add => binary!(a b, w x y => words::add(w, x, y)),
        Op::Sub => binary!(a b, w x y => words::sub(w, x, y)),
        Op::Mul => binary!(a b, w x y => words::mul(w, x, y)),
        Op::UDiv => binary!(a b, w x y => if y == 0 { words::mask(w) } else { x / y }),
        Op::URem => binary!(a b, _w x y => if y == 0 { x } else { x % y }),
        Op::SDiv =>
            binary!(a b, w x y => if y == 0 { words::mask(w) } else { words::signed_div(w, x, y) }),
        Op::SRem => binary!(a b, w x y => if y == 0 { x } else { words::signed_rem(w, x, y) }),
        Op::Shl =>
            binary!(a b, w x y => if y >= w as u128 { 0 } else { words::shl(w, x, y as u32) }),
        Op::LShr => binary!(a b, w x y => if y >= w as u128 { 0 } else { x >> y }),
        Op::AShr => binary!(a b, w x y => if y >= w as u128 {
            words::sign_bits(w, x)
        } else {
            words::signed_shr(w, x, y as u32)
        }),
        Op::Eq => binary!(a b, _w x y => bit!(x == y)),
        Op::Ne => binary!(a b, _w x y => bit!(x != y)),
        Op::ULt => binary!(a b, _w x y => bit!(x < y)),
        Op::ULe => binary!(a b, _w x y => bit!(x <= y)),
        Op::UGt => binary!(a b, _w x y => bit!(x > y)),
        Op::UGe => binary!(a b, _w x y => bit!(x >= y)),
        Op::SLt => binary!(a b, w x y => bit!(words::signed_lt(w, x, y))),
        Op::SLe => binary!(a b, w x y => bit!(!words::signed_lt(w, y, x))),
        Op::SGt => binary!(a b, w x y => bit!(words::signed_lt(w, y, x))),
        Op::SGe => binary!(a b, w x y => bit!(!words::signed_lt(w, x, y))),
        Op::Concat => (a.value << b.width) | b.value,
        _ => unreachable!(),
    }
}

/// The value of the operator at the arguments, of the width that `result_width` gives at their widths. The arguments are
/// bit vectors, and `result_width` is not None at their widths.
pub fn apply(op: Op, args: &[Bits]) -> Bits
    requires fits { All IsBits args.now }
    requires typed { IsSome (result_width_of op (map width_of args.now)) }
    ensures value { result ≡ apply_of op args.now }
    ensures fits { IsBits result }
{
    match args {
        [a] => Bits {
            width: op.row_width(&[a.width]).unwrap(),
            value: apply_one(op, *a),
        },
        [a, b] => Bits {
            width: op.row_width(&[a.width, b.width]).unwrap(),
            value: apply_two(op, *a, *b),
        },
        [test, x, y] => if test.value == 1 { *x } else { *y },
        _ => unreachable!(),
    }
}
