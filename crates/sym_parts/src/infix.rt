//! Infix operators on the values of a symbolic evaluation.

ghost use Rattle.std.specs.Prelude.{◌≡◌, IfOk};
ghost use Rattle.term_arena.specs.Makes.{MakesWith};
ghost use Rattle.sym_rules.specs.Operators as spec;
ghost use Rattle.sym_parts.specs.Causes.{step_cause};
ghost use Rattle.sym_parts.specs.Views.{value_in};
ghost use Rattle.sym_parts.specs.Fits.{ValueFits};

use crate::comparing::{differ, same};
use crate::faults::StepFault;
use crate::operators::operate;
use crate::values::SymValue;
use bv_bits::Op;
use sail_syntax::Infix;
use term_arena::Terms;

/// `&` or `|`: of bools the left side is open, and the value is the right one.
fn open_or(terms: &mut Terms, op: Op, a: SymValue, b: SymValue) -> Result<SymValue, StepFault>
    requires first { ValueFits terms.old a }
    requires second { ValueFits terms.old b }
    ensures makes { MakesWith step_cause terms.old terms.new value_in result (λ last. spec.open_or op (value_in last a) (value_in last b)) }
    ensures fits { IfOk result (λ v. ValueFits terms.new v) }
{
    match a {
        SymValue::Truth(_) => Ok(b),
        SymValue::Unit => operate(terms, op, SymValue::Unit, b),
        SymValue::Bits(x) => operate(terms, op, SymValue::Bits(x), b),
        SymValue::Member { of, index } => operate(terms, op, SymValue::Member { of, index }, b),
    }
}

/// An infix operator on two values; on bools, `&` and `|` come here with the left side open alone.
pub fn applied(
    terms: &mut Terms,
    op: Infix,
    a: SymValue,
    b: SymValue,
) -> Result<SymValue, StepFault>
    requires first { ValueFits terms.old a }
    requires second { ValueFits terms.old b }
    ensures makes { MakesWith step_cause terms.old terms.new value_in result (λ last. spec.sym_applied op (value_in last a) (value_in last b)) }
    ensures fits { IfOk result (λ v. ValueFits terms.new v) }
{
    match op {
        Infix::Add => operate(terms, Op::Add, a, b),
        Infix::Sub => operate(terms, Op::Sub, a, b),
        Infix::Mul => operate(terms, Op::Mul, a, b),
        Infix::And => open_or(terms, Op::And, a, b),
        Infix::Or => open_or(terms, Op::Or, a, b),
        Infix::Xor => operate(terms, Op::Xor, a, b),
        Infix::Join => operate(terms, Op::Concat, a, b),
        Infix::Eq => same(terms, a, b),
        Infix::Ne => differ(terms, a, b),
    }
}
