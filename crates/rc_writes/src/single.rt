//! Whether a write is to one place.

ghost use Rattle.std.specs.Prelude.{◌≡◌};
ghost use Rattle.rc_mutation.specs.Fragments.{is_written};
ghost use Rattle.rc_writes.specs.Single.{is_single, just_one};

use rc_cell::Row;
use rc_mutation::Mutation;

/// Whether a write is to one place: to one row, to the static row, to one range or to the whole partition, and to nothing
/// else.
pub fn is_single(change: &Mutation) -> bool
    ensures { result ≡ is_single change.now }
{
    let rows = change.rows.as_slice().len();
    let ranges = change.ranges.as_slice().len();
    is_just_one(
        change.pt.is_some(),
        was_written(change.statics.as_row()),
        rows > 0,
        ranges > 0,
    ) && rows <= 1
        && ranges <= 1
}

// Whether something was written of the row.
fn was_written(row: &Row) -> bool
    ensures { result ≡ is_written row.now }
{
    row.marker.is_some() || row.tomb.is_some() || !row.cells.as_slice().is_empty()
}

// Whether just one of four holds.
fn is_just_one(a: bool, b: bool, c: bool, d: bool) -> bool
    ensures { result ≡ just_one a b c d }
{
    match (a, b, c) {
        (true, _, _) => !(b || c || d),
        (false, true, _) => !(c || d),
        (false, false, true) => !d,
        (false, false, false) => d,
    }
}
