//! Laws of rows: facts over the definitions alone, each the contract of a function that does nothing.

ghost use Rattle.gate_tables.specs.Gates.{EachRowHolds};

/// Where all rows of a gate hold, each of them does.
pub fn rows_one_by_one()
    ensures { EachRowHolds }
{}
