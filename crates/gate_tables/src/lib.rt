//! The rows of the gates of which operators on bits are made.
//!
//! A gate is a list of clauses over places, of which the last is its output. At each value of the inputs all clauses are
//! true exactly where the output is the gate's function of the inputs.
#![tactic(auto)]

pub mod laws;
mod rows;

ghost use Rattle.std.specs.Prelude.{◌≡◌, ◌<◌, ◌&&◌, ◌||◌, option_map, slice_get};
ghost use Rattle.gate_tables.specs.Gates.{IsSign, all_hold, sign_at, exclusive, equal, majority, parity, chosen, IsGateOfOne, IsGateOfTwo, IsGateOfThree, IsUnit, OutputImplies};
ghost use Rattle.gate_tables.specs.Tables.{same_rows, and_rows, or_rows, xor_rows, sum_rows, maj_rows, mux_rows, unit_rows, equal_rows, apart_rows};

use std::marker::Model;

/// R rows over K places, of which the last is the output.
#[derive(Clone, Copy)]
pub struct Gate<const K: usize, const R: usize> {
    rows: [[i8; K]; R],
}

impl<const K: usize, const R: usize> Model for Gate<K, R> {
    ghost use Rattle.std.specs.Prelude.{List, ℤ, IsTrue};
    ghost use Rattle.gate_tables.specs.Gates.{all_signs};

    ghost Value = { List (List ℤ) };

    ghost view = { λ g. g.rows };

    ghost invariant = { λ g. IsTrue (all_signs g.rows) };

    ghost inverse = { λ rows. record { rows = rows } };
}

impl<const K: usize, const R: usize> Gate<K, R> {
    /// 1, -1 or 0 for a place that stands positive, negative or not at all in a row; rows and places count from 0.
    pub fn sign(&self, row: usize, place: usize) -> i8
        requires row_within { row < R }
        requires place_within { place < K }
        ensures value { result ≡ sign_at self.now row place }
        ensures sign { IsSign result }
    {
        self.rows[row][place]
    }

    /// A row, if there is one of this number.
    pub fn row(&self, row: usize) -> Option<&[i8; K]>
        ensures { option_map (λ r. r.now) result ≡ slice_get self.now row }
    {
        self.rows.get(row)
    }

    /// Whether each row is true at these values of the places.
    pub fn rows_hold(&self, places: &[bool; K]) -> bool
        ensures { result ≡ all_hold self.now places.now }
    {
        rows::all_hold(&self.rows, places)
    }
}

macro_rules! sign {
    (+) => { 1 };
    (-) => { -1 };
    (.) => { 0 };
}

macro_rules! gate {
    ($([$($sign:tt)+])+) => {
        Gate {
            rows: [$([$(sign!($sign)),+]),+],
        }
    };
}

/// Over x; o: o is x.
pub fn same_gate() -> Gate<2, 2>
    ensures rows { result ≡ same_rows }
    ensures gate { IsGateOfOne (λ x. x) result }
{
    gate!([+ -] [- +])
}

/// Over x, y; o: o is x and y.
pub fn and_gate() -> Gate<3, 3>
    ensures rows { result ≡ and_rows }
    ensures gate { IsGateOfTwo (λ x y. x && y) result }
{
    gate!([+ . -] [. + -] [- - +])
}

/// Over x, y; o: o is x or y.
pub fn or_gate() -> Gate<3, 3>
    ensures rows { result ≡ or_rows }
    ensures gate { IsGateOfTwo (λ x y. x || y) result }
{
    gate!([+ + -] [- . +] [. - +])
}

/// Over x, y; o: o is exactly one of x and y.
pub fn xor_gate() -> Gate<3, 4>
    ensures rows { result ≡ xor_rows }
    ensures gate { IsGateOfTwo exclusive result }
{
    gate!([+ + -] [- - -] [- + +] [+ - +])
}

/// Over x, y, z; o: o is the parity of x, y and z, the sum bit of an adder.
pub fn sum_gate() -> Gate<4, 8>
    ensures rows { result ≡ sum_rows }
    ensures gate { IsGateOfThree parity result }
{
    gate!(
        [+ + + -] [+ + - +] [+ - + +] [+ - - -]
        [- + + +] [- + - -] [- - + -] [- - - +]
    )
}

/// Over x, y, z; o: o is the majority of x, y and z, the carry of an adder.
pub fn maj_gate() -> Gate<4, 6>
    ensures rows { result ≡ maj_rows }
    ensures gate { IsGateOfThree majority result }
{
    gate!([- - . +] [- . - +] [. - - +] [+ + . -] [+ . + -] [. + + -])
}

/// Over s, x, y; o: o is x where s holds, else y.
pub fn mux_gate() -> Gate<4, 4>
    ensures rows { result ≡ mux_rows }
    ensures gate { IsGateOfThree chosen result }
{
    gate!([- - . +] [- + . -] [+ . - +] [+ . + -])
}

/// Over o alone: o is 1.
pub fn unit_gate() -> Gate<1, 1>
    ensures rows { result ≡ unit_rows }
    ensures gate { IsUnit result }
{
    gate!([+])
}

/// Over x, y; o: where o is 1, x and y are equal.
pub fn equal_gate() -> Gate<3, 2>
    ensures rows { result ≡ equal_rows }
    ensures gate { OutputImplies equal result }
{
    gate!([- + -] [+ - -])
}

/// Over x, y; o: where o is 1, x and y differ.
pub fn apart_gate() -> Gate<3, 2>
    ensures rows { result ≡ apart_rows }
    ensures gate { OutputImplies exclusive result }
{
    gate!([+ + -] [- - -])
}
