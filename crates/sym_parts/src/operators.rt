//! Operators on the values of a symbolic evaluation. Outside their types the value is unit; no typed text comes to that.

ghost use Rattle.std.specs.Prelude.{◌≡◌, true, not, ◌&&◌, map, IfOk, All, is_some, [], ◌∷◌};
ghost use Rattle.std.specs.List.{list_all};
ghost use Rattle.bv_bits.specs.Bits.{result_width_of, IsBits, bit};
ghost use Rattle.term_tree.specs.Terms.{IsTyped, applied, width_of};
ghost use Rattle.term_tree.specs.Divisions as division;
ghost use Rattle.term_rules.specs.Rules as rules_of;
ghost use Rattle.term_arena.specs.Answers.{id_term};
ghost use Rattle.term_arena.specs.Makes.{MakesWith};
ghost use Rattle.sym_rules.specs.Operators as spec;
ghost use Rattle.sym_parts.specs.Causes.{step_cause};
ghost use Rattle.sym_parts.specs.Views.{value_in};
ghost use Rattle.sym_parts.specs.Fits.{ValueFits};

use crate::faults::StepFault;
use crate::making::{literal_term, make_term};
use crate::values::SymValue;
use bv_bits::{Bits, Op};
use term_arena::{TermId, Terms};
use trace_plain::FailKind;

/// The literal of a bit.
pub fn bit_literal(truth: bool) -> Bits
    ensures bits { IsBits result }
    ensures value { result ≡ record { width = 1; value = bit truth } }
{
    Bits {
        width: 1,
        value: if truth { 1 } else { 0 },
    }
}

/// A bool that is known.
pub fn known_truth(terms: &mut Terms, truth: bool) -> Result<SymValue, StepFault>
    ensures makes { MakesWith step_cause terms.old terms.new value_in result (λ last. spec.known_truth truth) }
    ensures fits { IfOk result (λ v. ValueFits terms.new v) }
{
    match literal_term(terms, bit_literal(truth)) {
        Ok(id) => Ok(SymValue::Truth(id)),
        Err(fault) => Err(fault),
    }
}

/// Whether an operator is one of the four divisions, and not all of its operands are literals.
fn is_unsupported(op: Op, literals: bool) -> bool
    ensures { result ≡ (division.is_division op && not literals) }
{
    matches!(op, Op::UDiv | Op::URem | Op::SDiv | Op::SRem) && !literals
}

/// Whether a term is a literal.
fn is_literal(terms: &Terms, id: TermId) -> bool
    requires { IsTyped (id_term terms.now id) }
    ensures { result ≡ rules_of.is_literal (id_term terms.now id) }
{
    terms.literal(id).is_some()
}

/// An operator on terms: whether it has a result at their widths, and whether all of them are literals.
fn operate_terms(
    terms: &mut Terms,
    op: Op,
    args: &[TermId],
    wide: bool,
    literals: bool,
) -> Result<SymValue, StepFault>
    requires args { All (λ id. IsTyped (id_term terms.old id)) args.now }
    requires wide { wide ≡ is_some (result_width_of op (map width_of (map (id_term terms.old) args.now))) }
    requires literals { literals ≡ list_all rules_of.is_literal (map (id_term terms.old) args.now) }
    requires typed { wide ≡ true → IsTyped (applied op (map (id_term terms.old) args.now)) }
    ensures makes { MakesWith step_cause terms.old terms.new value_in result (λ last. spec.operate_terms op (map (id_term last) args.now)) }
    ensures fits { IfOk result (λ v. ValueFits terms.new v) }
{
    if !wide {
        return Ok(SymValue::Unit);
    }
    if is_unsupported(op, literals) {
        return Err(StepFault::Fails(FailKind::Unsupported));
    }
    match make_term(terms, op, args) {
        Ok(id) => Ok(SymValue::Bits(id)),
        Err(fault) => Err(fault),
    }
}

/// An operator on a term.
fn operate_term(terms: &mut Terms, op: Op, a: TermId) -> Result<SymValue, StepFault>
    requires a { IsTyped (id_term terms.old a) }
    ensures makes { MakesWith step_cause terms.old terms.new value_in result (λ last. spec.operate_terms op (id_term last a ∷ [])) }
    ensures fits { IfOk result (λ v. ValueFits terms.new v) }
{
    let wide = op.row_width(&[terms.width(a)]).is_some();
    let literals = is_literal(terms, a);
    operate_terms(terms, op, &[a], wide, literals)
}

/// An operator on two terms.
fn operate_two(terms: &mut Terms, op: Op, a: TermId, b: TermId) -> Result<SymValue, StepFault>
    requires a { IsTyped (id_term terms.old a) }
    requires b { IsTyped (id_term terms.old b) }
    ensures makes { MakesWith step_cause terms.old terms.new value_in result (λ last. spec.operate_terms op (id_term last a ∷ id_term last b ∷ [])) }
    ensures fits { IfOk result (λ v. ValueFits terms.new v) }
{
    let wide = op.row_width(&[terms.width(a), terms.width(b)]).is_some();
    let literals = is_literal(terms, a) && is_literal(terms, b);
    operate_terms(terms, op, &[a, b], wide, literals)
}

/// An operator on one value.
pub fn operate_one(terms: &mut Terms, op: Op, value: SymValue) -> Result<SymValue, StepFault>
    requires fits { ValueFits terms.old value }
    ensures makes { MakesWith step_cause terms.old terms.new value_in result (λ last. spec.sym_operate_one op (value_in last value)) }
    ensures fits { IfOk result (λ v. ValueFits terms.new v) }
{
    match value {
        SymValue::Bits(a) => operate_term(terms, op, a),
        SymValue::Unit | SymValue::Truth(_) | SymValue::Member { .. } => Ok(SymValue::Unit),
    }
}

/// An operator on two values.
pub fn operate(terms: &mut Terms, op: Op, a: SymValue, b: SymValue) -> Result<SymValue, StepFault>
    requires first { ValueFits terms.old a }
    requires second { ValueFits terms.old b }
    ensures makes { MakesWith step_cause terms.old terms.new value_in result (λ last. spec.sym_operate op (value_in last a) (value_in last b)) }
    ensures fits { IfOk result (λ v. ValueFits terms.new v) }
{
    match (a, b) {
        (SymValue::Bits(a), SymValue::Bits(b)) => operate_two(terms, op, a, b),
        _ => Ok(SymValue::Unit),
    }
}

/// The bits turned round.
pub fn flipped(terms: &mut Terms, value: SymValue) -> Result<SymValue, StepFault>
    requires fits { ValueFits terms.old value }
    ensures makes { MakesWith step_cause terms.old terms.new value_in result (λ last. spec.sym_flipped (value_in last value)) }
    ensures fits { IfOk result (λ v. ValueFits terms.new v) }
{
    operate_one(terms, Op::Not, value)
}

/// Widened to so many bits, with copies of the sign bit or with zeros.
pub fn widened(
    terms: &mut Terms,
    signed: bool,
    to: u32,
    value: SymValue,
) -> Result<SymValue, StepFault>
    requires fits { ValueFits terms.old value }
    ensures makes { MakesWith step_cause terms.old terms.new value_in result (λ last. spec.sym_widened signed to (value_in last value)) }
    ensures fits { IfOk result (λ v. ValueFits terms.new v) }
{
    if signed {
        operate_one(terms, Op::SExt { to }, value)
    } else {
        operate_one(terms, Op::ZExt { to }, value)
    }
}
