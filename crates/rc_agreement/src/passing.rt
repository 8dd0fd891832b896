//! Rows and range tombstones that were read, from a place on.
ghost use Rattle.std.specs.Prelude.{◌≡◌, ◌↔◌, IsTrue};
ghost use Rattle.rc_cell.specs.declared.rows.Row.{Row as Cells};
ghost use Rattle.rc_reading.specs.Reading.{IsRowGiven};
ghost use Rattle.rc_agreement.specs.calls.Passing.{first_row_at, first_tomb_at, is_even_to, is_rowless_to, onward_pieces, onward_rows, rows_behind};

use crate::comparing::{is_given, is_none_given};
use rc_cell::{Row, Tomb};
use rc_position::{Key, Pos};
use rc_ranges::Piece;

// The rows without those before a place.
pub(crate) fn onward_rows<'a>(rows: &'a [(Key, Row)], x: &Pos) -> &'a [(Key, Row)]
    ensures { result.now ≡ onward_rows x.now rows.now }
{
    let mut left = rows;
    while let [first, rest @ ..] = left {
        if !first.0.compare_with_pos(x).is_lt() {
            return left;
        }
        left = rest;
    }
    left
}

// The pieces without those that end before a place or there.
pub(crate) fn onward_pieces<'a>(pieces: &'a [Piece], x: &Pos) -> &'a [Piece]
    ensures { result.now ≡ onward_pieces x.now pieces.now }
{
    let mut left = pieces;
    while let [first, rest @ ..] = left {
        if x.cmp(&first.to).is_lt() {
            return left;
        }
        left = rest;
    }
    left
}

// Whether the row of the first of rows, if it stands at a place, is the one that was given; else whether none was.
pub(crate) fn is_first_row(rows: &[(Key, Row)], x: &Pos, given: &Option<Row>) -> bool
    ensures { (r : Cells) → IsRowGiven given.now r → IsTrue result ↔ (first_row_at x.now rows.now ≡ r) }
{
    match rows {
        [first, _rest @ ..] if first.0.compare_with_pos(x).is_eq() => is_given(given, &first.1),
        _ => is_none_given(given),
    }
}

// The rows without the first one, if it stands at a place.
pub(crate) fn rows_behind<'a>(rows: &'a [(Key, Row)], x: &Pos) -> &'a [(Key, Row)]
    ensures { result.now ≡ rows_behind x.now rows.now }
{
    match rows {
        [first, rest @ ..] if first.0.compare_with_pos(x).is_eq() => rest,
        _ => rows,
    }
}

// Whether the first of rows does not stand before a place.
pub(crate) fn is_rowless_to(rows: &[(Key, Row)], to: &Pos) -> bool
    ensures { result ≡ is_rowless_to to.now rows.now }
{
    match rows {
        [] => true,
        [first, _rest @ ..] => !first.0.compare_with_pos(to).is_lt(),
    }
}

// The tombstone of the first of pieces, if that begins at a place or before it.
pub(crate) fn first_tomb_at(pieces: &[Piece], x: &Pos) -> Option<Tomb>
    ensures { result ≡ first_tomb_at x.now pieces.now }
{
    match pieces {
        [first, _rest @ ..] if !x.cmp(&first.from).is_lt() => Some(first.tomb),
        _ => None,
    }
}

// Whether the tombstone that is in force at a place by the first of pieces is in force up to another place.
pub(crate) fn is_even_to(pieces: &[Piece], x: &Pos, to: &Pos) -> bool
    ensures { result ≡ is_even_to x.now to.now pieces.now }
{
    match pieces {
        [] => true,
        [first, _rest @ ..] if x.cmp(&first.from).is_lt() => !first.from.cmp(to).is_lt(),
        [first, _rest @ ..] => !first.to.cmp(to).is_lt(),
    }
}
