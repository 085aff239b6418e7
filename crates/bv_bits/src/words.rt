//! Arithmetic on words of 128 bits, cut to a width.

ghost use Rattle.std.specs.Prelude.{◌≡◌, ◌+◌, ◌-◌, ◌*◌, ◌/◌, ◌%◌, ◌^◌, ◌<◌, ◌≤◌, ◌↔◌, IsTrue, int_lt, int_div, int_rem, unsigned_abs};
ghost use Rattle.std.specs.Int.{int_shr};
ghost use Rattle.bv_bits.specs.Bits.{ones, signed, wrapped, sign_bits};

/// The number of w bits that are all 1.
pub fn mask(w: u32) -> u128
    requires { w ≤ 128 }
    ensures { result ≡ ones w }
{
    if w == 0 { 0 } else { u128::MAX >> (128 - w) }
}

/// The low w bits of a word.
pub fn low(w: u32, x: u128) -> u128
    requires { w ≤ 128 }
    ensures { result ≡ x % 2 ^ w }
{
    x & mask(w)
}

/// The sum in w bits.
pub fn add(w: u32, x: u128, y: u128) -> u128
    requires { w ≤ 128 }
    ensures { result ≡ (x + y) % 2 ^ w }
{
    low(w, x.wrapping_add(y))
}

/// The product in w bits.
pub fn mul(w: u32, x: u128, y: u128) -> u128
    requires { w ≤ 128 }
    ensures { result ≡ (x * y) % 2 ^ w }
{
    low(w, x.wrapping_mul(y))
}

/// The number of w bits that is added to x for 0.
pub fn neg(w: u32, x: u128) -> u128
    requires at_most { w ≤ 128 }
    requires fits { x < 2 ^ w }
    ensures { result ≡ (2 ^ w - x) % 2 ^ w }
{
    if x == 0 { 0 } else { mask(w) - x + 1 }
}

/// The difference in w bits.
pub fn sub(w: u32, x: u128, y: u128) -> u128
    requires at_most { w ≤ 128 }
    requires fits { y < 2 ^ w }
    ensures { result ≡ (x + (2 ^ w - y)) % 2 ^ w }
{
    add(w, x, neg(w, y))
}

/// The number moved up by k bits, cut to w bits.
pub fn shl(w: u32, x: u128, k: u32) -> u128
    requires at_most { w ≤ 128 }
    requires below { k < w }
    ensures { result ≡ (x * 2 ^ k) % 2 ^ w }
{
    low(w, x << k)
}

/// Whether the sign bit, bit w - 1, is set.
pub fn is_negative(w: u32, x: u128) -> bool
    requires positive { 0 < w }
    requires at_most { w ≤ 128 }
    ensures { IsTrue result ↔ (2 ^ (w - 1) ≤ x) }
{
    x > mask(w - 1)
}

/// The sign bit at each of w places.
pub fn sign_bits(w: u32, x: u128) -> u128
    requires positive { 0 < w }
    requires at_most { w ≤ 128 }
    ensures { result ≡ sign_bits w x }
{
    if is_negative(w, x) { mask(w) } else { 0 }
}

/// Whether x is below y in two's complement.
pub fn signed_lt(w: u32, x: u128, y: u128) -> bool
    requires positive { 0 < w }
    requires at_most { w ≤ 128 }
    requires x_fits { x < 2 ^ w }
    requires y_fits { y < 2 ^ w }
    ensures { result ≡ int_lt (signed w x) (signed w y) }
{
    let x_negative = is_negative(w, x);
    let y_negative = is_negative(w, y);
    if x_negative == y_negative {
        x < y
    } else {
        x_negative
    }
}

/// The signed number of w bits in `to` bits.
pub fn sign_extend(w: u32, to: u32, x: u128) -> u128
    requires positive { 0 < w }
    requires within { w ≤ to }
    requires at_most { to ≤ 128 }
    requires fits { x < 2 ^ w }
    ensures { result ≡ wrapped to (signed w x) }
{
    if is_negative(w, x) {
        mask(to) - (mask(w) - x)
    } else {
        x
    }
}

/// The signed number divided by 2^k and rounded down.
pub fn signed_shr(w: u32, x: u128, k: u32) -> u128
    requires positive { 0 < w }
    requires at_most { w ≤ 128 }
    requires fits { x < 2 ^ w }
    requires below { k < w }
    ensures { result ≡ wrapped w (int_shr (signed w x) k) }
{
    if is_negative(w, x) {
        mask(w) - ((mask(w) - x) >> k)
    } else {
        x >> k
    }
}

/// How far the signed number is from 0.
fn magnitude(w: u32, x: u128) -> u128
    requires positive { 0 < w }
    requires at_most { w ≤ 128 }
    requires fits { x < 2 ^ w }
    ensures { result ≡ unsigned_abs (signed w x) }
{
    if is_negative(w, x) {
        mask(w) - x + 1
    } else {
        x
    }
}

/// The signed quotient, cut toward zero.
pub fn signed_div(w: u32, x: u128, y: u128) -> u128
    requires positive { 0 < w }
    requires at_most { w ≤ 128 }
    requires x_fits { x < 2 ^ w }
    requires y_fits { y < 2 ^ w }
    requires y_not_zero { 0 < y }
    ensures { result ≡ wrapped w (int_div (signed w x) (signed w y)) }
{
    let quotient = magnitude(w, x) / magnitude(w, y);
    if is_negative(w, x) == is_negative(w, y) {
        quotient
    } else {
        neg(w, quotient)
    }
}

/// The rest of the signed quotient, with the sign of x.
pub fn signed_rem(w: u32, x: u128, y: u128) -> u128
    requires positive { 0 < w }
    requires at_most { w ≤ 128 }
    requires x_fits { x < 2 ^ w }
    requires y_fits { y < 2 ^ w }
    requires y_not_zero { 0 < y }
    ensures { result ≡ wrapped w (int_rem (signed w x) (signed w y)) }
{
    let rest = magnitude(w, x) % magnitude(w, y);
    if is_negative(w, x) {
        neg(w, rest)
    } else {
        rest
    }
}
