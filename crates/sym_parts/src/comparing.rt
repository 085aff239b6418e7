//! How two values of a symbolic evaluation compare.

ghost use Rattle.std.specs.Prelude.{◌≡◌, IfOk};
ghost use Rattle.bv_bits.specs.declared.Op.TheVariants as operator;
ghost use Rattle.term_tree.specs.Terms.{IsTyped, two, width_of};
ghost use Rattle.term_arena.specs.Answers.{id_term};
ghost use Rattle.term_arena.specs.Makes.{MakesWith};
ghost use Rattle.sym_rules.specs.Operators as spec;
ghost use Rattle.sym_rules.specs.Trees.{making};
ghost use Rattle.sym_parts.specs.Causes.{step_cause};
ghost use Rattle.sym_parts.specs.Compares.{ComparesSo};
ghost use Rattle.sym_parts.specs.Views.{value_in};
ghost use Rattle.sym_parts.specs.Fits.{ValueFits, ComparedFits};

use crate::faults::StepFault;
use crate::making::make_term;
use crate::operators::known_truth;
use crate::values::SymValue;
use bv_bits::Op;
use term_arena::{TermId, Terms};

/// How two values compare.
#[derive(Clone, Copy)]
enum Compared {
    /// By two terms of one width.
    Terms(TermId, TermId),
    /// It is known whether they are the same.
    Known(bool),
}

/// How two terms of bit vectors compare.
fn compare_bits(terms: &Terms, a: TermId, b: TermId) -> Compared
    requires first { IsTyped (id_term terms.now a) }
    requires second { IsTyped (id_term terms.now b) }
    ensures so { ComparesSo terms.now (SymValue.Bits a) (SymValue.Bits b) result }
    ensures fits { ComparedFits terms.now result }
{
    if terms.width(a) == terms.width(b) {
        Compared::Terms(a, b)
    } else {
        Compared::Known(false)
    }
}

/// How two values compare.
fn compare(terms: &Terms, a: SymValue, b: SymValue) -> Compared
    requires first { ValueFits terms.now a }
    requires second { ValueFits terms.now b }
    ensures so { ComparesSo terms.now a b result }
    ensures fits { ComparedFits terms.now result }
{
    match a {
        SymValue::Unit => match b {
            SymValue::Unit => Compared::Known(true),
            SymValue::Truth(_) | SymValue::Bits(_) | SymValue::Member { .. } => {
                Compared::Known(false)
            }
        },
        SymValue::Truth(x) => match b {
            SymValue::Truth(y) => Compared::Terms(x, y),
            SymValue::Unit | SymValue::Bits(_) | SymValue::Member { .. } => Compared::Known(false),
        },
        SymValue::Bits(x) => match b {
            SymValue::Bits(y) => compare_bits(terms, x, y),
            SymValue::Unit | SymValue::Truth(_) | SymValue::Member { .. } => Compared::Known(false),
        },
        SymValue::Member { of: e, index: i } => match b {
            SymValue::Member { of: f, index: j } => Compared::Known(e == f && i == j),
            SymValue::Unit | SymValue::Truth(_) | SymValue::Bits(_) => Compared::Known(false),
        },
    }
}

/// The eq of two terms of one width.
fn equal_terms(terms: &mut Terms, a: TermId, b: TermId) -> Result<SymValue, StepFault>
    requires a { IsTyped (id_term terms.old a) }
    requires b { IsTyped (id_term terms.old b) }
    requires wide { width_of (id_term terms.old a) ≡ width_of (id_term terms.old b) }
    ensures makes { MakesWith step_cause terms.old terms.new value_in result (λ last. spec.as_truth (making (two operator.Eq (id_term last a) (id_term last b)))) }
    ensures fits { IfOk result (λ v. ValueFits terms.new v) }
{
    match make_term(terms, Op::Eq, &[a, b]) {
        Ok(id) => Ok(SymValue::Truth(id)),
        Err(fault) => Err(fault),
    }
}

/// The ne of two terms of one width.
fn different_terms(terms: &mut Terms, a: TermId, b: TermId) -> Result<SymValue, StepFault>
    requires a { IsTyped (id_term terms.old a) }
    requires b { IsTyped (id_term terms.old b) }
    requires wide { width_of (id_term terms.old a) ≡ width_of (id_term terms.old b) }
    ensures makes { MakesWith step_cause terms.old terms.new value_in result (λ last. spec.as_truth (making (two operator.Ne (id_term last a) (id_term last b)))) }
    ensures fits { IfOk result (λ v. ValueFits terms.new v) }
{
    match make_term(terms, Op::Ne, &[a, b]) {
        Ok(id) => Ok(SymValue::Truth(id)),
        Err(fault) => Err(fault),
    }
}

/// Whether two values are the same.
pub fn same(terms: &mut Terms, a: SymValue, b: SymValue) -> Result<SymValue, StepFault>
    requires first { ValueFits terms.old a }
    requires second { ValueFits terms.old b }
    ensures makes { MakesWith step_cause terms.old terms.new value_in result (λ last. spec.sym_same (value_in last a) (value_in last b)) }
    ensures fits { IfOk result (λ v. ValueFits terms.new v) }
{
    match compare(terms, a, b) {
        Compared::Terms(x, y) => equal_terms(terms, x, y),
        Compared::Known(same) => known_truth(terms, same),
    }
}

/// Whether two values differ.
pub fn differ(terms: &mut Terms, a: SymValue, b: SymValue) -> Result<SymValue, StepFault>
    requires first { ValueFits terms.old a }
    requires second { ValueFits terms.old b }
    ensures makes { MakesWith step_cause terms.old terms.new value_in result (λ last. spec.sym_differ (value_in last a) (value_in last b)) }
    ensures fits { IfOk result (λ v. ValueFits terms.new v) }
{
    match compare(terms, a, b) {
        Compared::Terms(x, y) => different_terms(terms, x, y),
        Compared::Known(same) => known_truth(terms, !same),
    }
}
