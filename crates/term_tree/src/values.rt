//! The values of terms.

ghost use Rattle.std.specs.Prelude.{◌≡◌, ◌<◌, ◌^◌, [], ◌∷◌};
ghost use Rattle.bv_bits.specs.Bits.{IsBits, IsWidth};
ghost use Rattle.term_tree.specs.Terms.{IsTyped, width_of};
ghost use Rattle.term_tree.specs.Values as spec;
ghost use Rattle.term_tree.specs.Values.{Values, IsValues, IsPairs, values_of};
ghost use Rattle.term_tree.specs.View.{tree};
ghost use Rattle.term_tree.specs.Written.{pairs_of, one_pair};

use crate::term::{Term, Valuation};
use crate::trees::{Form, form_of};
use bv_bits::{Bits, apply};
use lex_core::Name;

/// What variables are worth.
pub trait VariableValues {
    /// The values of all variables.
    ghost values: { Self → Values };

    /// The bits of a variable of this name and width, 1 to 128.
    fn bits_of(&self, name: &Name, width: u32) -> Bits
        requires { IsWidth width }
        ensures value { result ≡ (values self.now).bits_of name.now width };

    /// The byte of an array variable at an index.
    fn byte_of(&self, name: &Name, index: u64) -> u8
        ensures value { result ≡ (values self.now).byte_of name.now index };
}

/// The bits of the first pair with this name and width, and else 0.
fn first_bits(pairs: &[(Name, Bits)], name: &[u8], width: u32) -> Bits
    ensures value { result ≡ spec.first_bits pairs.now name.now width }
{
    for pair in pairs {
        if pair.0.bytes() == name && pair.1.width == width {
            return pair.1;
        }
    }
    Bits { width, value: 0 }
}

/// The byte of the first pair with this index, and else 0.
fn first_byte(pairs: &[(u64, u8)], index: u64) -> u8
    ensures value { result ≡ spec.first_byte pairs.now index }
{
    for pair in pairs {
        if pair.0 == index {
            return pair.1;
        }
    }
    0
}

impl VariableValues for Valuation {
    ghost values = { λ v. values_of (pairs_of v) };

    fn bits_of(&self, name: &Name, width: u32) -> Bits {
        first_bits(self.bits.as_slice(), name.bytes(), width)
    }

    fn byte_of(&self, name: &Name, index: u64) -> u8 {
        for array in self.arrays.as_slice() {
            if array.0.bytes() == name.bytes() {
                return first_byte(array.1.as_slice(), index);
            }
        }
        0
    }
}

/// One variable's bits: every other variable is 0.
#[derive(Clone, Copy, Drop)]
struct OneVariable<'t> {
    name: &'t [u8],
    bits: Bits,
}

impl<'t> VariableValues for OneVariable<'t> {
    ghost values = { λ v. values_of (one_pair v.name.now v.bits) };

    fn bits_of(&self, name: &Name, width: u32) -> Bits {
        if self.name == name.bytes() && self.bits.width == width {
            self.bits
        } else {
            Bits { width, value: 0 }
        }
    }

    fn byte_of(&self, _name: &Name, _index: u64) -> u8 {
        0
    }
}

/// The value of a term, whatever tells the values of variables.
#[tactic(auto, using(crate::proofs::FitLemmas::value_fits))]
pub fn value_in<V: VariableValues>(term: &Term, at: &V) -> Bits
    requires typed { IsTyped (tree term.now) }
    requires values { IsValues (V.values at.now) }
    ensures value { result ≡ spec.value (V.values at.now) (tree term.now) }
    ensures fits { IsBits result }
    ensures width { result.width ≡ width_of (tree term.now) }
{
    match form_of(term) {
        Form::Lit(b) => b,
        Form::Var { name, width } => at.bits_of(name, width),
        Form::One { op, a } => apply(op, &[value_in(a, at)]),
        Form::Two { op, a, b } => apply(op, &[value_in(a, at), value_in(b, at)]),
        Form::Three { op, a, b, c } => apply(
            op,
            &[value_in(a, at), value_in(b, at), value_in(c, at)],
        ),
        Form::Sel { of, at: index } => Bits {
            width: 8,
            value: u128::from(at.byte_of(of, value_in(index, at).value as u64)),
        },
    }
}

/// The value of a term under a valuation: bits of the term's width. It takes no memory.
pub fn value(term: &Term, at: &Valuation) -> Bits
    requires typed { IsTyped (tree term.now) }
    requires values { IsPairs (pairs_of at.now) }
    ensures value { result ≡ spec.value (values_of (pairs_of at.now)) (tree term.now) }
    ensures fits { IsBits result }
{
    value_in(term, at)
}

/// The value of a term where a variable of this name and of the bits' width has these bits, and each other variable and
/// each byte is 0. It takes no memory.
#[tactic(auto, using(crate::proofs::WrittenLemmas::one_pair_is))]
pub fn value_one(term: &Term, name: &[u8], bits: Bits) -> Bits
    requires typed { IsTyped (tree term.now) }
    requires fits { IsBits bits }
    ensures value { result ≡ spec.value (values_of (one_pair name.now bits)) (tree term.now) }
    ensures fits { IsBits result }
{
    value_in(term, &OneVariable { name, bits })
}
