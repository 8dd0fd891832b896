//! Rows and tombstones that are the same.
ghost use Rattle.std.specs.Prelude.{◌≡◌, ◌↔◌, IsTrue};
ghost use Rattle.rc_cell.specs.declared.rows.Row.{Row as Cells};
ghost use Rattle.rc_cell.specs.Winner.{empty_row};
ghost use Rattle.rc_reading.specs.Reading.{IsRowGiven};

use rc_cell::{Cell, Row, Tomb};

// Whether two tombstones are the same, or there is none of both.
pub(crate) fn is_same_tomb(tomb: Option<Tomb>, other: Option<Tomb>) -> bool
    ensures { IsTrue result ↔ (tomb ≡ other) }
{
    tomb == other
}

// Whether two lists of cells are the same.
fn are_same_cells(cells: &[(u8, Cell)], others: &[(u8, Cell)]) -> bool
    ensures { IsTrue result ↔ (cells.now ≡ others.now) }
{
    cells == others
}

// Whether two rows are the same.
fn is_same_row(row: &Row, other: &Row) -> bool
    ensures { IsTrue result ↔ (row.now ≡ other.now) }
{
    row.marker == other.marker
        && is_same_tomb(row.tomb, other.tomb)
        && are_same_cells(row.cells.as_slice(), other.cells.as_slice())
}

// Whether a row is the one that was given, none where that is empty.
pub(crate) fn is_given(given: &Option<Row>, row: &Row) -> bool
    ensures { (r : Cells) → IsRowGiven given.now r → IsTrue result ↔ (row.now ≡ r) }
{
    match given {
        Some(given) => is_same_row(row, given),
        None => row.is_empty(),
    }
}

// Whether no row was given, which is so where that is empty.
pub(crate) fn is_none_given(given: &Option<Row>) -> bool
    ensures { (r : Cells) → IsRowGiven given.now r → IsTrue result ↔ (empty_row ≡ r) }
{
    given.is_none()
}
