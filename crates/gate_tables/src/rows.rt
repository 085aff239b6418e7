//! When rows of signs hold.

ghost use Rattle.std.specs.Prelude.{◌≡◌};
ghost use Rattle.gate_tables.specs.Gates.{makes_true, row_holds, all_hold};

/// Whether a place that stands with this sign makes its row true.
fn makes_true(sign: i8, value: bool) -> bool
    ensures { result ≡ makes_true sign value }
{
    match sign {
        0 => false,
        1.. => value,
        _ => !value,
    }
}

/// Whether one of its places makes the row true.
fn row_holds(row: &[i8], places: &[bool]) -> bool
    ensures { result ≡ row_holds places.now row.now }
{
    row.iter()
        .zip(places)
        .any(|(sign, place)| makes_true(*sign, *place))
}

/// Whether each of the rows is true.
pub fn all_hold<const K: usize>(rows: &[[i8; K]], places: &[bool]) -> bool
    ensures { result ≡ all_hold rows.now places.now }
{
    rows.iter().all(
        |row: &[i8; K]| -> bool
            ensures { result ≡ row_holds places.entry.now row.entry.now }
        { row_holds(row, places) },
    )
}
