//! Rows and values of gates.

use gate_tables::{Gate, and_gate, maj_gate, mux_gate, or_gate, same_gate, sum_gate, xor_gate};
use std::alloc::{AllocError, Global};

/// The rows of a gate: for each place `+`, `-` or `.`.
fn shown<const K: usize, const R: usize>(
    alloc: Global,
    gate: &Gate<K, R>,
) -> Result<String, AllocError> {
    let mut text = String::new(alloc);
    for row in 0..R {
        for place in 0..K {
            text.push_str(match gate.sign(row, place) {
                0 => ".",
                1.. => "+",
                _ => "-",
            })?;
        }
        text.push_str(" ")?;
    }
    Ok(text)
}

/// The rows of the gate of that name.
pub fn rows(alloc: Global, name: &str, _rest: &[&str]) -> Result<String, AllocError> {
    match name {
        "same" => shown(alloc, &same_gate()),
        "and" => shown(alloc, &and_gate()),
        "or" => shown(alloc, &or_gate()),
        "xor" => shown(alloc, &xor_gate()),
        "sum" => shown(alloc, &sum_gate()),
        "maj" => shown(alloc, &maj_gate()),
        "mux" => shown(alloc, &mux_gate()),
        _ => String::from_str(alloc, "no such gate"),
    }
}

/// Whether the rows of the gate of that name hold at three values or fewer.
fn holds_few(name: &str, places: &[u8]) -> Option<bool> {
    match (name, places) {
        ("same", [x, o]) => Some(same_gate().rows_hold(&[*x == b'1', *o == b'1'])),
        ("and", [x, y, o]) => Some(and_gate().rows_hold(&[*x == b'1', *y == b'1', *o == b'1'])),
        ("or", [x, y, o]) => Some(or_gate().rows_hold(&[*x == b'1', *y == b'1', *o == b'1'])),
        ("xor", [x, y, o]) => Some(xor_gate().rows_hold(&[*x == b'1', *y == b'1', *o == b'1'])),
        _ => None,
    }
}

/// The same at four.
fn holds_four(name: &str, places: [bool; 4]) -> Option<bool> {
    match name {
        "sum" => Some(sum_gate().rows_hold(&places)),
        "maj" => Some(maj_gate().rows_hold(&places)),
        "mux" => Some(mux_gate().rows_hold(&places)),
        _ => None,
    }
}

/// Whether the rows of the gate of that name hold at the places' values.
pub fn holds(alloc: Global, name: &str, rest: &[&str]) -> Result<String, AllocError> {
    let [word] = rest else {
        return String::from_str(alloc, "no such case");
    };
    let told = match word.as_bytes() {
        [x, y, z, o] => holds_four(name, [*x == b'1', *y == b'1', *z == b'1', *o == b'1']),
        few => holds_few(name, few),
    };
    match told {
        Some(holds) => format!(in alloc; "{holds}"),
        None => String::from_str(alloc, "no such gate"),
    }
}
