//! Slices and updates in a symbolic evaluation.

ghost use Rattle.std.specs.Prelude.{◌≡◌, ◌<◌, ◌^◌, IfOk};
ghost use Rattle.term_arena.specs.Makes.{MakesWith};
ghost use Rattle.sail_syntax.specs.declared.tree.Infix.TheVariants as between;
ghost use Rattle.sym_rules.specs.Operators.{sym_applied};
ghost use Rattle.sym_rules.specs.Parts as spec;
ghost use Rattle.sym_rules.specs.Values.{sym_width};
ghost use Rattle.sym_parts.specs.Causes.{step_cause};
ghost use Rattle.sym_parts.specs.Views.{value_in};
ghost use Rattle.sym_parts.specs.Fits.{ValueFits};

use crate::faults::StepFault;
use crate::infix::applied;
use crate::operators::operate_one;
use crate::values::SymValue;
use bv_bits::Op;
use sail_syntax::Infix;
use term_arena::Terms;

/// How many bits a value has; 0 where it is no vector.
pub fn width_in(terms: &Terms, value: SymValue) -> u32
    requires fits { ValueFits terms.now value }
    ensures { result ≡ sym_width (value_in terms.now value) }
{
    match value {
        SymValue::Bits(id) => terms.width(id),
        SymValue::Unit | SymValue::Truth(_) | SymValue::Member { .. } => 0,
    }
}

/// The bits from `hi` down to `lo`.
pub fn sliced(terms: &mut Terms, value: SymValue, hi: u64, lo: u64) -> Result<SymValue, StepFault>
    requires fits { ValueFits terms.old value }
    ensures makes { MakesWith step_cause terms.old terms.new value_in result (λ last. spec.sym_sliced (value_in last value) hi lo) }
    ensures fits { IfOk result (λ v. ValueFits terms.new v) }
{
    if hi < 128 && lo < 128 {
        let hi = hi as u32;
        let lo = lo as u32;
        operate_one(terms, Op::Extract { hi, lo }, value)
    } else {
        Ok(SymValue::Unit)
    }
}

/// Two values, joined.
fn joined(terms: &mut Terms, high: SymValue, low: SymValue) -> Result<SymValue, StepFault>
    requires first { ValueFits terms.old high }
    requires second { ValueFits terms.old low }
    ensures makes { MakesWith step_cause terms.old terms.new value_in result (λ last. sym_applied between.Join (value_in last high) (value_in last low)) }
    ensures fits { IfOk result (λ v. ValueFits terms.new v) }
{
    applied(terms, Infix::Join, high, low)
}

/// The bits above one, if there are some, joined to what follows.
fn above(terms: &mut Terms, value: SymValue, hi: u64, by: SymValue) -> Result<SymValue, StepFault>
    requires small { hi < 2 ^ 33 }
    requires first { ValueFits terms.old value }
    requires second { ValueFits terms.old by }
    ensures makes { MakesWith step_cause terms.old terms.new value_in result (λ last. spec.sym_above (value_in last value) hi (value_in last by)) }
    ensures fits { IfOk result (λ v. ValueFits terms.new v) }
{
    let width = u64::from(width_in(terms, value));
    if hi + 1 >= width {
        return Ok(by);
    }
    match sliced(terms, value, width - 1, hi + 1) {
        Ok(high) => joined(terms, high, by),
        Err(fault) => Err(fault),
    }
}

/// The bits below one, if there are some, joined to what is in front of them.
fn below(
    terms: &mut Terms,
    value: SymValue,
    lo: u64,
    so_far: SymValue,
) -> Result<SymValue, StepFault>
    requires first { ValueFits terms.old value }
    requires second { ValueFits terms.old so_far }
    ensures makes { MakesWith step_cause terms.old terms.new value_in result (λ last. spec.sym_below (value_in last value) lo (value_in last so_far)) }
    ensures fits { IfOk result (λ v. ValueFits terms.new v) }
{
    if lo == 0 {
        return Ok(so_far);
    }
    match sliced(terms, value, lo - 1, 0) {
        Ok(low) => joined(terms, so_far, low),
        Err(fault) => Err(fault),
    }
}

/// The bits of the first value, those from `hi` down to `lo` replaced by the second.
pub fn updated(
    terms: &mut Terms,
    value: SymValue,
    hi: u64,
    lo: u64,
    by: SymValue,
) -> Result<SymValue, StepFault>
    requires small { hi < 2 ^ 33 }
    requires first { ValueFits terms.old value }
    requires second { ValueFits terms.old by }
    ensures makes { MakesWith step_cause terms.old terms.new value_in result (λ last. spec.sym_updated (value_in last value) hi lo (value_in last by)) }
    ensures fits { IfOk result (λ v. ValueFits terms.new v) }
{
    match above(terms, value, hi, by) {
        Ok(so_far) => below(terms, value, lo, so_far),
        Err(fault) => Err(fault),
    }
}
