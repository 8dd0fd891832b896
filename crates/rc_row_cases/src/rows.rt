//! Cases of rows. `wins CELL CELL` joins two cells of one column in both orders; `life MARKER TOMB CELL COVER` asks whether a
//! row of one cell is live under a cover. A cell is TS=VALUE, or TS!DT where it is dead; `-` is no timestamp.

use crate::answers::{NO_CASE, tell_either};
use rc_cell::{Cell, Cells, Row, Tomb, Value};
use rc_spelling::{number, read_bytes, signed};
use std::alloc::{AllocError, Global};

/// The cell that a word spells.
pub(crate) fn cell_of(alloc: Global, word: &[u8]) -> Result<Option<Cell>, AllocError> {
    match word.iter().position(|byte| *byte == b'=' || *byte == b'!') {
        Some(mark) => cell_at(alloc, word, mark),
        None => Ok(None),
    }
}

// The cell of a word with its mark at this place.
fn cell_at(alloc: Global, word: &[u8], mark: usize) -> Result<Option<Cell>, AllocError> {
    if word.len() <= mark {
        return Ok(None);
    }
    let (stamp, rest) = word.split_at(mark);
    let Some(ts) = signed(stamp) else {
        return Ok(None);
    };
    match rest {
        [b'=', spelled @ ..] => match read_bytes(alloc, spelled)? {
            Some(bytes) => Ok(Some(Cell::Live {
                ts,
                value: Value::from_vec(bytes),
            })),
            None => Ok(None),
        },
        [_mark, time @ ..] => match number(time, 4294967295) {
            Some(dt) => Ok(Some(Cell::Dead { ts, dt: dt as u32 })),
            None => Ok(None),
        },
        [] => Ok(None),
    }
}

// A row of one cell.
fn row_of(alloc: Global, cell: &Cell) -> Result<Row, AllocError> {
    Ok(Row {
        marker: None,
        tomb: None,
        cells: Cells::from_vec(Vec::from_array(alloc, [(3, cell.copy(alloc)?)])?),
    })
}

// Whether the row's one cell is this one.
fn holds(row: &Row, wanted: &Cell) -> bool {
    match row.cells.as_slice() {
        [(_column, cell)] => cell == wanted,
        _ => false,
    }
}

/// Tells which of two cells wins, or that orders of joining differ.
pub(crate) fn wins(
    alloc: Global,
    first: &[u8],
    second: &[u8],
    text: &mut String,
) -> Result<(), AllocError> {
    match cell_of(alloc, first)? {
        Some(first) => wins_over(alloc, &first, second, text),
        None => text.push_str(NO_CASE),
    }
}

// The same of a cell and the word of the other one.
fn wins_over(
    alloc: Global,
    first: &Cell,
    second: &[u8],
    text: &mut String,
) -> Result<(), AllocError> {
    match cell_of(alloc, second)? {
        Some(second) => winner(alloc, first, &second, text),
        None => text.push_str(NO_CASE),
    }
}

// The row of one cell joined with that of another.
fn joined_row(alloc: Global, cell: &Cell, other: &Cell) -> Result<Row, AllocError> {
    let mut joined = row_of(alloc, cell)?;
    join_cell(alloc, &mut joined, other)?;
    Ok(joined)
}

fn join_cell(alloc: Global, joined: &mut Row, other: &Cell) -> Result<(), AllocError> {
    let row = row_of(alloc, other)?;
    joined.join(alloc, &row)
}

fn winner(alloc: Global, first: &Cell, second: &Cell, text: &mut String) -> Result<(), AllocError> {
    let joined = joined_row(alloc, first, second)?;
    let turned = joined_row(alloc, second, first)?;
    text.push_str(winner_of(&joined, &turned, first, second))
}

// The word of the cell that wins in both rows.
fn winner_of(joined: &Row, turned: &Row, first: &Cell, second: &Cell) -> &'static str {
    if beats(joined, turned, first, second) {
        "first"
    } else if beats(joined, turned, second, first) {
        "second"
    } else {
        "differs"
    }
}

// Whether the first cell is that of both rows, and the greater one.
fn beats(joined: &Row, turned: &Row, first: &Cell, second: &Cell) -> bool {
    holds(joined, first) && holds(turned, first) && second < first
}

/// The tombstone of a timestamp; none of `-`.
pub(crate) fn tomb_of(word: &[u8]) -> Option<Tomb> {
    let ts = signed(word)?;
    Some(Tomb { ts, dt: 7 })
}

/// Tells whether a row of one cell is live under a cover.
pub(crate) fn life(
    alloc: Global,
    marker: &[u8],
    tomb: &[u8],
    cell: &[u8],
    cover: &[u8],
    text: &mut String,
) -> Result<(), AllocError> {
    match cell_of(alloc, cell)? {
        Some(cell) => {
            let mut row = row_of(alloc, &cell)?;
            row.marker = signed(marker);
            row.tomb = tomb_of(tomb);
            covered(alloc, &row, tomb_of(cover), text)
        }
        None => text.push_str(NO_CASE),
    }
}

fn covered(
    alloc: Global,
    row: &Row,
    cover: Option<Tomb>,
    text: &mut String,
) -> Result<(), AllocError> {
    let left = row.shadow(alloc, cover)?;
    if row.is_live(cover) != left.is_live(None) {
        return text.push_str("differs");
    }
    tell_either(row.is_live(cover), "live", "gone", text)
}
