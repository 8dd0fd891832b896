//! Tombstones and rows.

ghost use Rattle.std.specs.Prelude.{◌≡◌, ◌≤◌, ◌<◌, ◌+◌, ◌^◌, ◌++◌, ◌∷◌, length, IfOk, OnOk, OnErr, IsOk, IfSome, IsTrue};
ghost use Rattle.std.specs.Option.{option_map};
ghost use Rattle.std.specs.List.{flat_map, AllByRecursion};
ghost use Rattle.std.specs.Vec.{vec_capacity};
ghost use Rattle.rc_cell.specs.Columns.{ascending};
ghost use Rattle.rc_rowcode.specs.Spelling.{stamp_code, tomb_code, optional_code, entry_code, cells_code, row_code, EntryFits, RowFits, IsTomb, IsCodedRow, ReadsPrefix};
ghost use Rattle.rc_rowcode.specs.calls.Reading.{parse_stamp, parse_tomb, parse_optional, parse_entries, parse_cells, parse_row};

use crate::cells::{CellView, append_entry, append_tomb, entry_at, tomb_at};
use crate::numbers::{append_byte, append_stamp, stamp_at};
use crate::widths::{row_in_range, tomb_in_range};
use rc_cell::{Cell, Cells, Row, Tomb};
use std::alloc::{AllocError, Global};

/// The marker at the front, if there is one, and what follows it.
#[tactic(auto, unfolding(crate::specs::calls::Reading::parse_optional))]
pub(crate) fn marker_at(bytes: &[u8]) -> Option<(Option<i64>, &[u8])>
    ensures { option_map (λ x. (x.0, x.1.now)) result ≡ parse_optional parse_stamp bytes.now }
{
    match bytes {
        [] => None,
        [0, rest @ ..] => Some((None, rest)),
        [1, rest @ ..] => {
            let (ts, rest) = stamp_at(rest)?;
            Some((Some(ts), rest))
        }
        [_first, _rest @ ..] => None,
    }
}

/// The row's tombstone at the front, if there is one, and what follows it.
#[tactic(auto, unfolding(crate::specs::calls::Reading::parse_optional))]
pub(crate) fn row_tomb_at(bytes: &[u8]) -> Option<(Option<Tomb>, &[u8])>
    ensures { option_map (λ x. (x.0, x.1.now)) result ≡ parse_optional parse_tomb bytes.now }
{
    match bytes {
        [] => None,
        [0, rest @ ..] => Some((None, rest)),
        [1, rest @ ..] => {
            let (tomb, rest) = tomb_at(rest)?;
            Some((Some(tomb), rest))
        }
        [_first, _rest @ ..] => None,
    }
}

/// So many cells by strictly ascending column, and what follows them.
fn entries_at(
    alloc: Global,
    count: u8,
    bytes: &[u8],
) -> Result<Option<(Vec<(u8, Cell)>, &[u8])>, AllocError>
    ensures value { IfOk result (λ found. option_map (λ x. (x.0.items, x.1.now)) found ≡ parse_entries count 0 bytes.now) }
    ensures ascending { IfOk result (λ found. IfSome found (λ x. IsTrue (ascending x.0.items))) }
{
    let mut cells = Vec::new(alloc);
    let mut rest = bytes;
    let mut least = 0u8;
    for _ in 0..count {
        let Some((column, cell, after)) = entry_at(least, rest) else {
            return Ok(None);
        };
        let cell = cell.copy(alloc)?;
        cells.push((column, cell))?;
        least = column + 1;
        rest = after;
    }
    Ok(Some((cells, rest)))
}

/// The cells at the front, and what follows them.
#[tactic(auto, unfolding(crate::specs::calls::Reading::parse_cells))]
fn cells_at(alloc: Global, bytes: &[u8]) -> Result<Option<(Cells, &[u8])>, AllocError>
    ensures { IfOk result (λ found. option_map (λ x. (x.0, x.1.now)) found ≡ parse_cells bytes.now) }
{
    match bytes {
        [] => Ok(None),
        [count, rest @ ..] => {
            let Some((cells, rest)) = entries_at(alloc, *count, rest)? else {
                return Ok(None);
            };
            Ok(Some((Cells::from_vec(cells), rest)))
        }
    }
}

/// The row at the front, and what follows it.
#[tactic(auto, unfolding(crate::specs::calls::Reading::parse_row))]
fn row_at(alloc: Global, bytes: &[u8]) -> Result<Option<(Row, &[u8])>, AllocError>
    ensures { IfOk result (λ found. option_map (λ x. (x.0, x.1.now)) found ≡ parse_row bytes.now) }
{
    let Some((marker, rest)) = marker_at(bytes) else {
        return Ok(None);
    };
    let Some((tomb, rest)) = row_tomb_at(rest) else {
        return Ok(None);
    };
    let Some((cells, rest)) = cells_at(alloc, rest)? else {
        return Ok(None);
    };
    let row = Row {
        marker,
        tomb,
        cells,
    };
    Ok(Some((row, rest)))
}

/// Appends the code of a row's marker, for which there is room.
pub(crate) fn append_marker(out: &mut Vec<u8>, marker: Option<i64>)
    requires { length out.old.items + length (optional_code stamp_code marker) ≤ vec_capacity out.old }
    ensures items { out.new.items ≡ out.old.items ++ optional_code stamp_code marker }
    ensures room { vec_capacity out.old ≤ vec_capacity out.new }
{
    match marker {
        None => append_byte(out, 0),
        Some(ts) => {
            append_byte(out, 1);
            append_stamp(out, ts);
        }
    }
}

/// Appends the code of a row's tombstone, for which there is room.
pub(crate) fn append_row_tomb(out: &mut Vec<u8>, tomb: Option<Tomb>)
    requires { length out.old.items + length (optional_code tomb_code tomb) ≤ vec_capacity out.old }
    ensures items { out.new.items ≡ out.old.items ++ optional_code tomb_code tomb }
    ensures room { vec_capacity out.old ≤ vec_capacity out.new }
{
    match tomb {
        None => append_byte(out, 0),
        Some(tomb) => {
            append_byte(out, 1);
            append_tomb(out, tomb);
        }
    }
}

fn append_entries(out: &mut Vec<u8>, cells: &[(u8, Cell)])
    requires fits { AllByRecursion EntryFits cells.now }
    requires enough { length out.old.items + length (flat_map entry_code cells.now) ≤ vec_capacity out.old }
    ensures items { out.new.items ≡ out.old.items ++ flat_map entry_code cells.now }
    ensures room { vec_capacity out.old ≤ vec_capacity out.new }
{
    let mut left = cells;
    while let [cell, rest @ ..] = left {
        append_entry(out, cell.0, &CellView::of(&cell.1));
        left = rest;
    }
}

fn append_cells(out: &mut Vec<u8>, cells: &Cells)
    requires fits { AllByRecursion EntryFits cells.now }
    requires enough { length out.old.items + length (cells_code cells.now) ≤ vec_capacity out.old }
    ensures items { out.new.items ≡ out.old.items ++ cells_code cells.now }
    ensures room { vec_capacity out.old ≤ vec_capacity out.new }
{
    let cells = cells.as_slice();
    append_byte(out, cells.len() as u8);
    append_entries(out, cells);
}

/// Appends a row's code, for which there is room.
pub(crate) fn append_row(out: &mut Vec<u8>, row: &Row)
    requires fits { RowFits row.now }
    requires enough { length out.old.items + length (row_code row.now) ≤ vec_capacity out.old }
    ensures items { out.new.items ≡ out.old.items ++ row_code row.now }
    ensures room { vec_capacity out.old ≤ vec_capacity out.new }
{
    append_marker(out, row.marker);
    append_row_tomb(out, row.tomb);
    append_cells(out, &row.cells);
}

#[tactic(auto, unfolding(crate::specs::Spelling::stamp_code, crate::specs::Spelling::time_code, crate::specs::Spelling::length_code))]
fn entry_size(column: u8, cell: &Cell) -> usize
    requires { EntryFits (column, cell.now) }
    ensures { result ≡ length (entry_code (column, cell.now)) }
{
    match cell {
        Cell::Live { value, .. } => 12 + value.as_slice().len(),
        Cell::Dead { .. } => 14,
    }
}

fn entries_size(cells: &[(u8, Cell)]) -> usize
    requires fits { AllByRecursion EntryFits cells.now }
    requires small { length (flat_map entry_code cells.now) < 2 ^ 32 }
    ensures { result ≡ length (flat_map entry_code cells.now) }
{
    let mut left = cells;
    let mut total = 0;
    while let [cell, rest @ ..] = left {
        total += entry_size(cell.0, &cell.1);
        left = rest;
    }
    total
}

#[tactic(auto, unfolding(crate::specs::Spelling::stamp_code))]
pub(crate) fn marker_size(marker: Option<i64>) -> usize
    ensures value { result ≡ length (optional_code stamp_code marker) }
    ensures small { result ≤ 9 }
{
    match marker {
        None => 1,
        Some(_) => 9,
    }
}

#[tactic(auto, unfolding(crate::specs::Spelling::stamp_code, crate::specs::Spelling::time_code))]
pub(crate) fn row_tomb_size(tomb: Option<Tomb>) -> usize
    ensures value { result ≡ length (optional_code tomb_code tomb) }
    ensures small { result ≤ 13 }
{
    match tomb {
        None => 1,
        Some(_) => 13,
    }
}

/// The length of a row's code, in bytes. What it spells is a row that has a code, so the code can be joined.
pub fn row_size(row: &Row) -> usize
    requires { RowFits row.now }
    ensures value { result ≡ length (row_code row.now) }
    ensures small { result ≤ 8599 }
    ensures coded { IsCodedRow row.now }
{
    row_in_range(row);
    let cells = 1 + entries_size(row.cells.as_slice());
    marker_size(row.marker) + row_tomb_size(row.tomb) + cells
}

/// Appends the row's code, which can be joined with others. The only error is want of memory, and then nothing is
/// appended.
pub fn write_row(_alloc: Global, row: &Row, out: &mut Vec<u8>) -> Result<(), AllocError>
    requires { RowFits row.now }
    ensures ok { OnOk result (out.new.items ≡ out.old.items ++ row_code row.now) }
    ensures err { OnErr result (out.new.items ≡ out.old.items) }
    ensures coded { IsCodedRow row.now }
{
    out.reserve(row_size(row))?;
    append_row(out, row);
    Ok(())
}

/// Appends the tombstone's code, 12 bytes. The only error is want of memory, and then nothing is appended.
#[tactic(auto, unfolding(crate::specs::Spelling::stamp_code, crate::specs::Spelling::time_code))]
pub fn write_tomb(_alloc: Global, tomb: &Tomb, out: &mut Vec<u8>) -> Result<(), AllocError>
    ensures ok { OnOk result (out.new.items ≡ out.old.items ++ tomb_code tomb.now) }
    ensures err { OnErr result (out.new.items ≡ out.old.items) }
    ensures coded { IsTomb tomb.now }
{
    tomb_in_range(Some(*tomb));
    out.reserve(12)?;
    append_tomb(out, *tomb);
    Ok(())
}

/// The row that the bytes begin with, and the length of its code; none exactly where no prefix of them is a row's code.
/// The only error is want of memory.
pub fn read_row(alloc: Global, bytes: &[u8]) -> Result<Option<(Row, usize)>, AllocError>
    ensures value { IfOk result (λ found. ReadsPrefix row_code IsCodedRow bytes.now found) }
    ensures limits { IfOk result (λ found. IfSome found (λ x. RowFits x.0)) }
    ensures within { IfOk result (λ found. IfSome found (λ x. x.1 ≤ length bytes.now)) }
{
    let Some((row, rest)) = row_at(alloc, bytes)? else {
        return Ok(None);
    };
    Ok(Some((row, bytes.len() - rest.len())))
}

/// The tombstone that the bytes begin with, and the length of its code, 12; none exactly where no prefix of them is a
/// tombstone's code, as where there are fewer bytes. It takes no memory.
pub fn read_tomb(_alloc: Global, bytes: &[u8]) -> Result<Option<(Tomb, usize)>, AllocError>
    ensures value { IfOk result (λ found. ReadsPrefix tomb_code IsTomb bytes.now found) }
    ensures answers { IsOk result }
{
    let Some((tomb, rest)) = tomb_at(bytes) else {
        return Ok(None);
    };
    Ok(Some((tomb, bytes.len() - rest.len())))
}
