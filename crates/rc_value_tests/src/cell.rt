//! What rows come to, by hand. Which of two writes wins, and when a row is live, are cases that a program reads.

use rc_cell::{Cell, Cells, Row, Tomb, laws};
use std::alloc::{AllocError, Global};
use std::cmp::Ordering;
use std::test::Fail;

fn row_of(
    alloc: Global,
    marker: Option<i64>,
    tomb: Option<i64>,
    column: u8,
    cell: &Cell,
) -> Result<Row, AllocError> {
    let cells = Cells::from_vec(Vec::from_array(alloc, [(column, cell.copy(alloc)?)])?);
    let tomb = tomb_of(tomb);
    Ok(Row {
        marker,
        tomb,
        cells,
    })
}

fn tomb_of(ts: Option<i64>) -> Option<Tomb> {
    match ts {
        Some(ts) => Some(Tomb { ts, dt: 7 }),
        None => None,
    }
}

// Joins a row of one cell, and perhaps a tombstone.
fn join_cell(
    alloc: Global,
    row: &mut Row,
    tomb: Option<i64>,
    column: u8,
    cell: &Cell,
) -> Result<(), AllocError> {
    row.join(alloc, &row_of(alloc, None, tomb, column, cell)?)
}

const OLDER: Cell = Cell::Dead { ts: 1, dt: 1 };

const NEWER: Cell = Cell::Dead { ts: 1, dt: 2 };

// Three columns more, of which that of 3 is written a second time.
fn join_columns(alloc: Global, row: &mut Row) -> Result<(), AllocError> {
    join_cell(alloc, row, Some(4), 255, &OLDER)?;
    join_cell(alloc, row, Some(3), 0, &OLDER)?;
    join_cell(alloc, row, None, 3, &NEWER)
}

// A row of three columns, of which that of 3 is written twice.
fn three_columns(alloc: Global) -> Result<Row, AllocError> {
    let mut row = row_of(alloc, Some(i64::MIN), None, 3, &OLDER)?;
    join_columns(alloc, &mut row)?;
    Ok(row)
}

// Whether these are three columns, the middle one as it was written last.
fn are_joined(cells: &[(u8, Cell)]) -> bool {
    match cells {
        [first, second, third] => {
            first.0 == 0 && second.0 == 3 && third.0 == 255 && second.1 == NEWER
        }
        _ => false,
    }
}

// Whether a row is that of three columns.
fn is_joined(row: &Row) -> bool {
    row.marker == Some(i64::MIN)
        && row.tomb == tomb_of(Some(4))
        && are_joined(row.cells.as_slice())
        && !row.is_empty()
}

#[test]
fn rows_join_by_column(rt: HostRuntime) -> Result<(), Fail> {
    let row = three_columns(rt.alloc())?;
    assert!(rt; is_joined(&row.copy(rt.alloc())?));
    Ok(())
}

fn order_of<T: Ord>(first: &T, second: &T) -> (bool, Option<Ordering>, Ordering) {
    (
        first == second,
        first.partial_cmp(second),
        first.cmp(second),
    )
}

#[test]
fn orders_and_laws(rt: HostRuntime) {
    let older = Tomb { ts: 4, dt: 9 };
    let newer = Tomb { ts: 5, dt: 1 };
    assert!(rt; order_of(&older, &newer) == (false, Some(Ordering::Less), Ordering::Less));
    let cell = Cell::Dead { ts: 4, dt: 9 };
    assert!(rt; order_of(&cell, &cell) == (true, Some(Ordering::Equal), Ordering::Equal));
    assert!(rt; cell.ts() == 4 && !cell.is_live());
    assert!(rt; Row::empty(rt.alloc()).is_empty());
    laws::order_follows_rules();
    laws::join_is_commutative();
    laws::join_is_associative();
    laws::join_is_idempotent();
    laws::join_of_none();
    laws::join_of_one();
    laws::join_of_one_more();
    laws::join_adds_no_cell();
    laws::join_adds_no_marker_or_tombstone();
}
