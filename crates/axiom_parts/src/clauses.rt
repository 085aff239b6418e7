// The clauses of parts, literal by literal.

ghost use Rattle.std.specs.Prelude.{◌≡◌, ℕ, length, option_map, option_and_then, slice_get};
ghost use Rattle.clause_core.specs.Congruence.{congruence_of};
ghost use Rattle.axiom_rules.specs.Parts.{part_clause, any_clause};

use crate::literals::bit_of;
use crate::rows::{gate_length, gate_literal, output_first_length, output_first_literal};
use axiom_rules::Part;
use clause_core::{Lit, congruence_literal};
use gate_tables::{
    and_gate, apart_gate, equal_gate, maj_gate, mux_gate, or_gate, same_gate, sum_gate, unit_gate,
    xor_gate,
};

/// How many literals the clause of o and the first bits of layer 1 has.
fn any_length(o: Lit, term: u32, width: u8) -> u32
    ensures { result ≡ length (any_clause o term width) }
{
    let _ = (o, term);
    width as u32 + 1
}

/// A literal of the clause of o and the first bits of layer 1.
fn any_literal(o: Lit, term: u32, width: u8, index: u32) -> Option<Lit>
    ensures { result ≡ slice_get (any_clause o term width) index }
{
    if index == 0 {
        Some(o)
    } else if index <= width as u32 {
        Some(bit_of(term, 1, index - 1))
    } else {
        None
    }
}

/// How many literals the clause of two bytes of one array has, if it is there.
fn congruence_length(q: u32, part: u32, bit: u32, row: u32) -> Option<u32>
    ensures { (p x y : ℕ) → result ≡ option_map length (congruence_of p q x y part bit row) }
{
    if part / 2 != q || row > 1 {
        return None;
    }
    if part % 2 == 0 {
        if bit < 64 { Some(3) } else { None }
    } else if bit < 8 {
        Some(66)
    } else {
        None
    }
}

/// How long the clause of a row of the part is, if it is there. No memory is taken.
pub fn part_length(part: Part, row: u32) -> Option<u32>
    ensures { result ≡ option_map length (part_clause part row) }
{
    match part {
        Part::Unit(p) => gate_length(&unit_gate(), &[p], row),
        Part::Same { x, o } => output_first_length(&same_gate(), &[x, o], row),
        Part::And { x, y, o } => output_first_length(&and_gate(), &[x, y, o], row),
        Part::Or { x, y, o } => output_first_length(&or_gate(), &[x, y, o], row),
        Part::Xor { x, y, o } => output_first_length(&xor_gate(), &[x, y, o], row),
        Part::Sum { x, y, z, o } => gate_length(&sum_gate(), &[x, y, z, o], row),
        Part::Maj { x, y, z, o } => gate_length(&maj_gate(), &[x, y, z, o], row),
        Part::Mux { s, x, y, o } => gate_length(&mux_gate(), &[s, x, y, o], row),
        Part::Equal { x, y, o } => output_first_length(&equal_gate(), &[x, y, o], row),
        Part::Apart { x, y, o } => output_first_length(&apart_gate(), &[x, y, o], row),
        Part::Any { o, term, width } => if row == 0 {
            Some(any_length(o, term, width))
        } else {
            None
        },
        Part::Congruence {
            p: _,
            q,
            x: _,
            y: _,
            part,
            bit,
        } => congruence_length(q, part, bit, row),
    }
}

/// The literal at an index of the clause of a row of the part, if it is there. No memory is taken.
pub fn part_literal(part: Part, row: u32, index: u32) -> Option<Lit>
    ensures { result ≡ option_and_then (λ c. slice_get c index) (part_clause part row) }
{
    match part {
        Part::Unit(p) => gate_literal(&unit_gate(), &[p], row, index),
        Part::Same { x, o } => output_first_literal(&same_gate(), &[x, o], row, index),
        Part::And { x, y, o } => output_first_literal(&and_gate(), &[x, y, o], row, index),
        Part::Or { x, y, o } => output_first_literal(&or_gate(), &[x, y, o], row, index),
        Part::Xor { x, y, o } => output_first_literal(&xor_gate(), &[x, y, o], row, index),
        Part::Sum { x, y, z, o } => gate_literal(&sum_gate(), &[x, y, z, o], row, index),
        Part::Maj { x, y, z, o } => gate_literal(&maj_gate(), &[x, y, z, o], row, index),
        Part::Mux { s, x, y, o } => gate_literal(&mux_gate(), &[s, x, y, o], row, index),
        Part::Equal { x, y, o } => output_first_literal(&equal_gate(), &[x, y, o], row, index),
        Part::Apart { x, y, o } => output_first_literal(&apart_gate(), &[x, y, o], row, index),
        Part::Any { o, term, width } => if row == 0 {
            any_literal(o, term, width, index)
        } else {
            None
        },
        Part::Congruence {
            p,
            q,
            x,
            y,
            part,
            bit,
        } => congruence_literal(p, q, x, y, part, bit, row, index),
    }
}
