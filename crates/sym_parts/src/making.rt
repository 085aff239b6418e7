//! Terms that are named and made, refused as steps are.

ghost use Rattle.std.specs.Prelude.{◌≡◌, map, IfOk};
ghost use Rattle.bv_bits.specs.Bits.{IsBits};
ghost use Rattle.term_tree.specs.Terms.{lit, applied, IsTyped, width_of};
ghost use Rattle.term_arena.specs.Answers.{id_term};
ghost use Rattle.term_arena.specs.Said.{single};
ghost use Rattle.term_arena.specs.Makes.{MakesWith};
ghost use Rattle.sym_rules.specs.Trees.{making};
ghost use Rattle.sym_parts.specs.Causes.{step_cause};

use crate::faults::StepFault;
use arena_make::make;
use bv_bits::{Bits, Op};
use term_arena::{NewNode, TermId, Terms};

/// The term that stands for an operator at arguments.
///
/// The operator takes the widths of the arguments.
pub fn make_term(terms: &mut Terms, op: Op, args: &[TermId]) -> Result<TermId, StepFault>
    requires typed { IsTyped (applied op (map (id_term terms.old) args.now)) }
    ensures makes { MakesWith step_cause terms.old terms.new id_term result (λ last. making (applied op (map (id_term last) args.now))) }
    ensures typed { IfOk result (λ id. IsTyped (id_term terms.new id)) }
    ensures wide { IfOk result (λ id. width_of (id_term terms.new id) ≡ width_of (applied op (map (id_term terms.old) args.now))) }
{
    match make(terms, op, args) {
        Ok(id) => Ok(id),
        Err(fault) => Err(StepFault::Terms(fault)),
    }
}

/// A literal.
pub fn literal_term(terms: &mut Terms, bits: Bits) -> Result<TermId, StepFault>
    requires bits { IsBits bits }
    ensures makes { MakesWith step_cause terms.old terms.new id_term result (λ last. single (lit bits)) }
    ensures is { IfOk result (λ id. id_term terms.new id ≡ lit bits) }
{
    match terms.add_term(NewNode::Lit(bits)) {
        Ok(id) => Ok(id),
        Err(fault) => Err(StepFault::Terms(fault)),
    }
}
