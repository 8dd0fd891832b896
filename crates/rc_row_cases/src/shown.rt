//! Cases of what a reader is given. `shows WRITE WRITE` joins two writes to the row of 1: `+TS` a marker, `-TS` a tombstone, or a cell of the first
//! column; its answer is how many lines there are, and the first value in them. `slice PT` asks for the rows behind 1, up to 3, of a static value of
//! timestamp 5 and four rows of timestamp 10 under a partition tombstone, and for all the lines that its fragments give.

use crate::rows::{cell_of, tomb_of};
use crate::schemas::row_with;
use rc_cell::{Cell, Cells, Row, Tomb, Value};
use rc_mutation::{Frag, Head, Mutation, Rows, Statics};
use rc_position::{Comp, Key, Slice, end_pos, start_pos};
use rc_query::{Compactor, Lines, OutLine, answer_of, shown_rows};
use rc_spelling::signed;
use std::alloc::{AllocError, Global};
use std::fmt::Write;

fn key(alloc: Global, number: i64) -> Result<Key, AllocError> {
    Key::from_slice(alloc, &[Comp::Int(number)])
}

// The row of a write; an empty one where the word is none.
fn row_of(alloc: Global, word: &[u8]) -> Result<Row, AllocError> {
    match word {
        [b'+', stamp @ ..] => Ok(row_without(alloc, signed(stamp), None)),
        [b'-', stamp @ ..] => Ok(row_without(alloc, None, tomb_of(stamp))),
        _ => match cell_of(alloc, word)? {
            Some(cell) => row_with(alloc, 0, cell),
            None => Ok(Row::empty(alloc)),
        },
    }
}

// A row without cells.
fn row_without(alloc: Global, marker: Option<i64>, tomb: Option<Tomb>) -> Row {
    Row {
        marker,
        tomb,
        cells: Cells::empty(alloc),
    }
}

fn join_row(alloc: Global, rows: &mut Rows, number: i64, row: &Row) -> Result<(), AllocError> {
    if !row.is_empty() {
        rows.join_row(alloc, &key(alloc, number)?, row)?;
    }
    Ok(())
}

// The values of the first line.
fn first_shown(lines: &Lines) -> &[(u8, Value)] {
    match lines.as_slice() {
        [OutLine::Row(_, shown) | OutLine::Static(shown), ..] => shown.as_slice(),
        [] => &[],
    }
}

// Tells how many lines there are, and the first value that they show.
fn tell_lines(alloc: Global, lines: &Lines, text: &mut String) -> Result<(), AllocError> {
    let count = lines.as_slice().len();
    write!(text, "{count}")?;
    match first_shown(lines) {
        [(_, value), ..] => tell_first(alloc, value, text),
        [] => Ok(()),
    }
}

fn tell_first(alloc: Global, value: &Value, text: &mut String) -> Result<(), AllocError> {
    let digits = hex::encode(alloc, value.as_slice())?;
    write!(text, ", first {digits}")
}

// The rows of two writes.
fn rows_of(alloc: Global, first: &[u8], second: &[u8]) -> Result<Rows, AllocError> {
    let mut rows = Rows::empty(alloc);
    join_words(alloc, &mut rows, first, second)?;
    Ok(rows)
}

fn join_words(
    alloc: Global,
    rows: &mut Rows,
    first: &[u8],
    second: &[u8],
) -> Result<(), AllocError> {
    join_word(alloc, rows, first)?;
    join_word(alloc, rows, second)
}

fn join_word(alloc: Global, rows: &mut Rows, word: &[u8]) -> Result<(), AllocError> {
    let row = row_of(alloc, word)?;
    join_row(alloc, rows, 1, &row)
}

/// Tells the lines of two writes to one row.
pub(crate) fn shows(
    alloc: Global,
    first: &[u8],
    second: &[u8],
    text: &mut String,
) -> Result<(), AllocError> {
    let rows = rows_of(alloc, first, second)?;
    tell_rows(alloc, &rows, text)
}

fn tell_rows(alloc: Global, rows: &Rows, text: &mut String) -> Result<(), AllocError> {
    let lines = shown_rows(alloc, rows)?;
    tell_lines(alloc, &lines, text)
}

// A static value of timestamp 5.
fn statics_of(alloc: Global) -> Result<Statics, AllocError> {
    let value = Value::from_slice(alloc, b"x")?;
    let cells = Vec::from_array(alloc, [(0, Cell::Live { ts: 5, value })])?;
    Ok(Statics::from_cells(Cells::from_vec(cells)))
}

// Rows of timestamp 10 at 1 to 4.
fn join_rows(alloc: Global, rows: &mut Rows) -> Result<(), AllocError> {
    for number in 1..5i64 {
        join_row(alloc, rows, number, &row_without(alloc, Some(10), None))?;
    }
    Ok(())
}

// That static value and those rows, under this partition tombstone.
fn four_rows(alloc: Global, pt: &[u8]) -> Result<Mutation, AllocError> {
    let mut change = Mutation::empty(alloc);
    change.pt = tomb_of(pt);
    write_four(alloc, &mut change)?;
    Ok(change)
}

fn write_four(alloc: Global, change: &mut Mutation) -> Result<(), AllocError> {
    change.statics = statics_of(alloc)?;
    join_rows(alloc, &mut change.rows)
}

// Behind 1, up to 3.
fn two_of_four(alloc: Global) -> Result<Slice, AllocError> {
    let from = key(alloc, 1)?;
    let to = key(alloc, 3)?;
    slice_between(alloc, &from, &to)
}

fn slice_between(alloc: Global, from: &Key, to: &Key) -> Result<Slice, AllocError> {
    let from = start_pos(alloc, from, false)?;
    Ok(Slice {
        from,
        to: end_pos(alloc, to, true)?,
    })
}

// How many lines there are behind 1, up to 3.
fn lines_in_slice(alloc: Global, change: &Mutation) -> Result<usize, AllocError> {
    let slice = two_of_four(alloc)?;
    let lines = answer_of(alloc, change, &slice)?;
    Ok(lines.as_slice().len())
}

fn compactor_of(alloc: Global, change: &Mutation) -> Result<Compactor, AllocError> {
    let head = Head {
        pt: change.pt,
        statics: change.statics.as_row().copy(alloc)?,
    };
    Compactor::new(alloc, &head)
}

// How many lines fragments give.
fn lines_of(alloc: Global, compactor: &mut Compactor, frags: &[Frag]) -> Result<u8, AllocError> {
    let mut lines = u8::from(compactor.first(alloc)?.is_some());
    for frag in frags {
        if compactor.put(alloc, frag)?.is_some() {
            lines = lines.saturating_add(1);
        }
    }
    Ok(lines)
}

// How many lines the fragments of a mutation give.
fn lines_of_fragments(alloc: Global, change: &Mutation) -> Result<u8, AllocError> {
    let mut compactor = compactor_of(alloc, change)?;
    lines_put(alloc, &mut compactor, change)
}

fn lines_put(
    alloc: Global,
    compactor: &mut Compactor,
    change: &Mutation,
) -> Result<u8, AllocError> {
    let frags = change.fragments(alloc)?;
    lines_of(alloc, compactor, frags.as_slice())
}

/// Tells how many lines a slice of four rows has, and how many their fragments give.
pub(crate) fn slice(alloc: Global, pt: &[u8], text: &mut String) -> Result<(), AllocError> {
    let change = four_rows(alloc, pt)?;
    tell_counts(alloc, &change, text)
}

fn tell_counts(alloc: Global, change: &Mutation, text: &mut String) -> Result<(), AllocError> {
    let within = lines_in_slice(alloc, change)?;
    let all = lines_of_fragments(alloc, change)?;
    write!(text, "{within} of {all}")
}
