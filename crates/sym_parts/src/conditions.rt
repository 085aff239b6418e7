//! The conditions of patterns: a term of one bit each.

ghost use Rattle.std.specs.Prelude.{◌≡◌, IfOk, List, Some};
ghost use Rattle.bv_bits.specs.Bits.{IsBits};
ghost use Rattle.bv_bits.specs.declared.Op.TheVariants as operator;
ghost use Rattle.term_tree.specs.Terms.{IsTyped, lit, two, width_of};
ghost use Rattle.term_arena.specs.Said.{said_then, single};
ghost use Rattle.sym_rules.specs.Trees.{making};
ghost use Rattle.term_arena.specs.Nodes.{Node};
ghost use Rattle.term_arena.specs.Answers.{id_term};
ghost use Rattle.term_arena.specs.Makes.{MakesWith};
ghost use Rattle.sym_rules.specs.Parts as spec;
ghost use Rattle.sym_parts.specs.Causes.{step_cause};
ghost use Rattle.sym_parts.specs.Views.{value_in};
ghost use Rattle.sym_parts.specs.Fits.{ValueFits, IsBit};

use crate::faults::StepFault;
use crate::making::{literal_term, make_term};
use crate::operators::bit_literal;
use crate::values::SymValue;
use bv_bits::{Bits, Op};
use sail_names::Thing;
use term_arena::{TermId, Terms};

/// The literal bit of a truth.
pub fn known_bit(terms: &mut Terms, truth: bool) -> Result<TermId, StepFault>
    ensures makes { MakesWith step_cause terms.old terms.new id_term result (λ last. spec.known_bit truth) }
    ensures bit { IfOk result (λ id. IsBit terms.new id) }
{
    literal_term(terms, bit_literal(truth))
}

/// The eq of a term and a literal of its width.
fn equals_bits(terms: &mut Terms, id: TermId, bits: Bits) -> Result<TermId, StepFault>
    requires bits { IsBits bits }
    requires id { IsTyped (id_term terms.old id) }
    requires wide { bits.width ≡ width_of (id_term terms.old id) }
    ensures makes { MakesWith step_cause terms.old terms.new id_term result (λ last. said_then (single (lit bits)) (λ l. making (two operator.Eq (id_term last id) l))) }
    ensures bit { IfOk result (λ t. IsBit terms.new t) }
{
    match literal_term(terms, bits) {
        Ok(literal) => make_term(terms, Op::Eq, &[id, literal]),
        Err(fault) => Err(fault),
    }
}

/// The eq of a value and a literal; 0 where it is no vector of the literal's width.
pub fn equals_literal(terms: &mut Terms, bits: Bits, value: SymValue) -> Result<TermId, StepFault>
    requires bits { IsBits bits }
    requires fits { ValueFits terms.old value }
    ensures makes { MakesWith step_cause terms.old terms.new id_term result (λ last. spec.equals_literal bits (value_in last value)) }
    ensures bit { IfOk result (λ id. IsBit terms.new id) }
{
    match value {
        SymValue::Bits(id) => {
            if bits.width == terms.width(id) {
                equals_bits(terms, id, bits)
            } else {
                known_bit(terms, false)
            }
        }
        SymValue::Unit => known_bit(terms, false),
        SymValue::Truth(_) => known_bit(terms, false),
        SymValue::Member { .. } => known_bit(terms, false),
    }
}

/// A bool, or its opposite.
pub fn equals_truth(terms: &mut Terms, truth: bool, value: SymValue) -> Result<TermId, StepFault>
    requires fits { ValueFits terms.old value }
    ensures makes { MakesWith step_cause terms.old terms.new id_term result (λ last. spec.equals_truth truth (value_in last value)) }
    ensures bit { IfOk result (λ id. IsBit terms.new id) }
{
    match value {
        SymValue::Truth(id) => {
            if truth {
                Ok(id)
            } else {
                make_term(terms, Op::Not, &[id])
            }
        }
        SymValue::Unit => known_bit(terms, false),
        SymValue::Bits(_) => known_bit(terms, false),
        SymValue::Member { .. } => known_bit(terms, false),
    }
}

/// Whether a value is a member of an enum.
fn is_member(of: usize, index: usize, value: SymValue) -> bool
    ensures { (nodes : List Node) → result ≡ spec.is_member of index (value_in nodes value) }
{
    match value {
        SymValue::Member { of: f, index: j } => of == f && index == j,
        SymValue::Unit | SymValue::Truth(_) | SymValue::Bits(_) => false,
    }
}

/// The condition of a name that stands for something: a member of an enum fits itself alone.
fn thing_condition(terms: &mut Terms, thing: Thing, value: SymValue) -> Result<TermId, StepFault>
    requires fits { ValueFits terms.old value }
    ensures makes { MakesWith step_cause terms.old terms.new id_term result (λ last. spec.name_condition (Some thing) (value_in last value)) }
    ensures bit { IfOk result (λ id. IsBit terms.new id) }
{
    match thing {
        Thing::Member { of, index } => known_bit(terms, is_member(of, index, value)),
        Thing::Register(_) => known_bit(terms, true),
        Thing::Given(_) => known_bit(terms, true),
        Thing::Function(_) => known_bit(terms, true),
    }
}

/// The condition of a name.
pub fn name_condition(
    terms: &mut Terms,
    thing: Option<Thing>,
    value: SymValue,
) -> Result<TermId, StepFault>
    requires fits { ValueFits terms.old value }
    ensures makes { MakesWith step_cause terms.old terms.new id_term result (λ last. spec.name_condition thing (value_in last value)) }
    ensures bit { IfOk result (λ id. IsBit terms.new id) }
{
    match thing {
        Some(thing) => thing_condition(terms, thing, value),
        None => known_bit(terms, true),
    }
}
