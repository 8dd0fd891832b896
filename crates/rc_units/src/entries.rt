//! Entries as plain values: copies, a split, a joined row, and a state of an older version under that of a newer one.

ghost use Rattle.std.specs.Prelude.{◌≡◌, ◌++◌, ◌∷◌, [], IfOk, OnOk, None, cond};
ghost use Rattle.std.specs.Ordering.{eq_by_cmp};
ghost use Rattle.rc_position.specs.Position.{pos_cmp};
ghost use Rattle.rc_core.specs.Change.{at_entry, dummy, gap_split, join_row_at, joined_onto, with_row};
ghost use Rattle.rc_core.specs.Continuity.{joined_options};
ghost use Rattle.rc_units.specs.Clean.{onto_at, onto_gap};
ghost use Rattle.rc_core.specs.Plain.{mark_under, row_under};

use rc_cell::Row;
use rc_core::{Entry, Flag, Mark, put_down};
use rc_position::Pos;
use std::alloc::{AllocError, Global};
use std::cmp::Ordering;

/// An equal entry of its own memory. The only error is want of memory.
pub fn copy_entry(alloc: Global, entry: &Entry) -> Result<Entry, AllocError>
    ensures { IfOk result (λ made. made ≡ entry.now) }
{
    let position = entry.position.copy(alloc)?;
    let row = copy_row(alloc, &entry.row)?;
    Ok(Entry {
        position,
        row,
        at: entry.at,
        gap: entry.gap,
    })
}

fn copy_row(alloc: Global, row: &Option<Row>) -> Result<Option<Row>, AllocError>
    ensures { IfOk result (λ made. made ≡ row.now) }
{
    match row {
        Some(row) => Ok(Some(row.copy(alloc)?)),
        None => Ok(None),
    }
}

/// Equal entries of their own memory. The only error is want of memory.
pub fn copy_entries(alloc: Global, entries: &[Entry]) -> Result<Vec<Entry>, AllocError>
    ensures { IfOk result (λ made. made.items ≡ entries.now) }
{
    let mut made = Vec::new(alloc);
    append_copies(alloc, &mut made, entries)?;
    Ok(made)
}

fn append_copies(alloc: Global, made: &mut Vec<Entry>, entries: &[Entry]) -> Result<(), AllocError>
    ensures { OnOk result (made.new.items ≡ made.old.items ++ entries.now) }
{
    for entry in entries {
        made.push(copy_entry(alloc, entry)?)?;
    }
    Ok(())
}

/// The entries with a dummy at a position, where none stands there and one stands behind it: the dummy says what the gap said in which it is
/// made. The only error is want of memory.
pub fn split_entries(alloc: Global, at: &Pos, entries: &[Entry]) -> Result<Vec<Entry>, AllocError>
    ensures { IfOk result (λ made. made.items ≡ gap_split at.now entries.now) }
{
    let mut made = Vec::new(alloc);
    let mut left = entries;
    while let [first, rest @ ..] = left {
        match at.cmp(&first.position) {
            Ordering::Less => {
                made.push(dummy_in_gap(alloc, at, first)?)?;
                append_copies(alloc, &mut made, left)?;
                return Ok(made);
            }
            Ordering::Equal => {
                append_copies(alloc, &mut made, left)?;
                return Ok(made);
            }
            Ordering::Greater => {
                made.push(copy_entry(alloc, first)?)?;
                left = rest;
            }
        }
    }
    Ok(made)
}

// A dummy in the gap before an entry.
fn dummy_in_gap(alloc: Global, at: &Pos, entry: &Entry) -> Result<Entry, AllocError>
    ensures { IfOk result (λ made. made ≡ dummy at.now entry.now.gap) }
{
    let position = at.copy(alloc)?;
    Ok(Entry {
        position,
        row: None,
        at: entry.gap,
        gap: entry.gap,
    })
}

/// The entries with a row joined at a position; a dummy is made there before, where none stands. The only error is want of memory.
pub fn join_row(
    alloc: Global,
    at: &Pos,
    row: &Row,
    entries: &[Entry],
) -> Result<Vec<Entry>, AllocError>
    ensures { IfOk result (λ made. made.items ≡ join_row_at at.now row.now entries.now) }
{
    let split = split_entries(alloc, at, entries)?;
    let mut made = Vec::new(alloc);
    for entry in &split {
        made.push(join_at(alloc, at, row, entry)?)?;
    }
    Ok(made)
}

// The entry with the row joined, if it stands at the position.
fn join_at(alloc: Global, at: &Pos, row: &Row, entry: &Entry) -> Result<Entry, AllocError>
    ensures { IfOk result (λ made. made ≡ cond (eq_by_cmp pos_cmp at.now entry.now.position) (with_row row.now entry.now) entry.now) }
{
    let mut made = copy_entry(alloc, entry)?;
    if *at == entry.position {
        made.row = Some(join_onto(alloc, &entry.row, row)?);
    }
    Ok(made)
}

// The row joined onto the one that is there, if there is one.
fn join_onto(alloc: Global, old: &Option<Row>, row: &Row) -> Result<Row, AllocError>
    ensures { IfOk result (λ made. made ≡ joined_onto old.now row.now) }
{
    match old {
        Some(old) => {
            let mut joined = old.copy(alloc)?;
            joined.join(alloc, row)?;
            Ok(joined)
        }
        None => row.copy(alloc),
    }
}

// Both rows as one, where there are any.
fn join_rows(
    alloc: Global,
    older: &Option<Row>,
    newer: &Option<Row>,
) -> Result<Option<Row>, AllocError>
    ensures { IfOk result (λ made. made ≡ joined_options older.now newer.now) }
{
    match newer {
        Some(newer) => Ok(Some(join_onto(alloc, older, newer)?)),
        None => copy_row(alloc, older),
    }
}

/// The row of an older version under that of a newer one, whose flag there is given: both as one where it inherits, and else the newer version's
/// alone. The only error is want of memory.
pub fn put_row_down(
    alloc: Global,
    older: &Option<Row>,
    flag: Flag,
    newer: &Option<Row>,
) -> Result<Option<Row>, AllocError>
    ensures { IfOk result (λ made. made ≡ row_under flag older.now newer.now) }
{
    match flag {
        Flag::Known | Flag::Unknown => copy_row(alloc, newer),
        Flag::Inherit => join_rows(alloc, older, newer),
    }
}

// The entry with a mark put under its gap's.
pub(crate) fn put_under_gap(alloc: Global, gap: Mark, entry: &Entry) -> Result<Entry, AllocError>
    ensures { IfOk result (λ made. made ≡ onto_gap gap entry.now) }
{
    let mut made = copy_entry(alloc, entry)?;
    made.gap = put_down(gap, entry.gap);
    Ok(made)
}

// The entry with a mark put under its gap's, and a mark and a row under what it says at its own position.
pub(crate) fn put_under(
    alloc: Global,
    at: Mark,
    row: &Option<Row>,
    gap: Mark,
    entry: &Entry,
) -> Result<Entry, AllocError>
    ensures { IfOk result (λ made. made ≡ onto_at at row.now (onto_gap gap entry.now)) }
{
    let position = entry.position.copy(alloc)?;
    let row = put_row_down(alloc, row, entry.at.flag, &entry.row)?;
    Ok(Entry {
        position,
        row,
        at: put_down(at, entry.at),
        gap: put_down(gap, entry.gap),
    })
}
