// The clauses of rows, literal by literal.

ghost use Rattle.std.specs.Prelude.{◌≡◌, ◌<◌, length, option_map, option_and_then, slice_get};
ghost use Rattle.axiom_rules.specs.Parts.{standing, row_clause, gate_clause, output_first};

use crate::literals::opposite;
use clause_core::Lit;
use gate_tables::Gate;

/// A place by its sign in a row.
fn standing(sign: i8, place: Lit) -> Option<Lit>
    ensures { result ≡ standing sign place }
{
    match sign {
        0 => None,
        1.. => Some(place),
        _ => Some(opposite(place)),
    }
}

/// How many places stand in a row.
fn row_length(row: &[i8], places: &[Lit]) -> usize
    ensures { result ≡ length (row_clause row.now places.now) }
{
    row.iter()
        .zip(places)
        .filter_map(|(sign, place)| standing(*sign, *place))
        .count()
}

/// The place that stands in a row at an index, with its sign.
fn row_literal(row: &[i8], places: &[Lit], index: usize) -> Option<Lit>
    ensures { result ≡ slice_get (row_clause row.now places.now) index }
{
    let [sign, row @ ..] = row else {
        return None;
    };
    let [place, places @ ..] = places else {
        return None;
    };
    match standing(*sign, *place) {
        None => row_literal(row, places, index),
        Some(p) => if index == 0 {
            Some(p)
        } else {
            row_literal(row, places, index - 1)
        },
    }
}

/// How long the clause of a gate's row is, where there is a row of that number.
pub fn gate_length<const K: usize, const R: usize>(
    gate: &Gate<K, R>,
    places: &[Lit; K],
    row: u32,
) -> Option<u32>
    requires { length places.now < 5 }
    ensures { result ≡ option_map length (gate_clause gate.now places.now row) }
{
    match gate.row(row as usize) {
        None => None,
        Some(row) => Some(row_length(row, places) as u32),
    }
}

/// A literal of the clause of a gate's row.
pub fn gate_literal<const K: usize, const R: usize>(
    gate: &Gate<K, R>,
    places: &[Lit; K],
    row: u32,
    index: u32,
) -> Option<Lit>
    ensures { result ≡ option_and_then (λ c. slice_get c index) (gate_clause gate.now places.now row) }
{
    match gate.row(row as usize) {
        None => None,
        Some(row) => row_literal(row, places, index as usize),
    }
}

/// How long the clause of a gate's row is, the output first.
pub fn output_first_length<const K: usize, const R: usize>(
    gate: &Gate<K, R>,
    places: &[Lit; K],
    row: u32,
) -> Option<u32>
    requires { length places.now < 5 }
    ensures { result ≡ option_map length (output_first gate.now places.now row) }
{
    gate_length(gate, places, row)
}

/// A literal of the clause of a gate's row, the output first.
pub fn output_first_literal<const K: usize, const R: usize>(
    gate: &Gate<K, R>,
    places: &[Lit; K],
    row: u32,
    index: u32,
) -> Option<Lit>
    requires { length places.now < 5 }
    ensures { result ≡ option_and_then (λ c. slice_get c index) (output_first gate.now places.now row) }
{
    let length = gate_length(gate, places, row)?;
    if index >= length {
        return None;
    }
    if index == 0 {
        gate_literal(gate, places, row, length - 1)
    } else {
        gate_literal(gate, places, row, index - 1)
    }
}
