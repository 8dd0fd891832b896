//! Entries as lines: what the tests are made of.

use rc_cell::{Cells, Row, Tomb};
use rc_core::{Entry, Flag, Mark, PlainVersion};
use rc_position::{Comp, Key, Pos, Weight};
use std::alloc::{AllocError, Global};

/// An entry at a number, 0 being the end: the timestamp of its row, then the flag and the timestamp of the tombstone at it, and of the gap
/// before it. A timestamp of 0 stands for none.
pub(crate) type Line = (i64, i64, Flag, i64, Flag, i64);

pub(crate) const K: Flag = Flag::Known;

pub(crate) const U: Flag = Flag::Unknown;

pub(crate) const I: Flag = Flag::Inherit;

/// An end dummy that says nothing.
pub(crate) const END: Line = (0, 0, I, 0, I, 0);

pub(crate) fn tomb_of(ts: i64) -> Option<Tomb> {
    if ts == 0 {
        None
    } else {
        Some(Tomb { ts, dt: 0 })
    }
}

pub(crate) fn mark_of(flag: Flag, ts: i64) -> Mark {
    Mark {
        flag,
        tomb: tomb_of(ts),
    }
}

pub(crate) fn marked(alloc: Global, ts: i64) -> Row {
    Row {
        marker: Some(ts),
        tomb: None,
        cells: Cells::empty(alloc),
    }
}

pub(crate) fn row_of(alloc: Global, ts: i64) -> Option<Row> {
    if ts == 0 {
        None
    } else {
        Some(marked(alloc, ts))
    }
}

/// A position of a number.
pub(crate) fn place(alloc: Global, number: i64, weight: Weight) -> Result<Pos, AllocError> {
    Ok(Pos {
        prefix: Key::from_slice(alloc, &[Comp::Int(number)])?,
        weight,
    })
}

/// The end.
pub(crate) fn end_place(alloc: Global) -> Pos {
    Pos {
        prefix: Key::empty(alloc),
        weight: Weight::After,
    }
}

/// The position of the row of a number, or the end.
pub(crate) fn place_of(alloc: Global, number: i64) -> Result<Pos, AllocError> {
    if number == 0 {
        Ok(end_place(alloc))
    } else {
        place(alloc, number, Weight::At)
    }
}

pub(crate) fn entry_of(alloc: Global, line: &Line) -> Result<Entry, AllocError> {
    let position = place_of(alloc, line.0)?;
    Ok(Entry {
        position,
        row: row_of(alloc, line.1),
        at: mark_of(line.2, line.3),
        gap: mark_of(line.4, line.5),
    })
}

pub(crate) fn entries_of(alloc: Global, lines: &[Line]) -> Result<Vec<Entry>, AllocError> {
    let mut entries = Vec::new(alloc);
    for line in lines {
        entries.push(entry_of(alloc, line)?)?;
    }
    Ok(entries)
}

/// The version of these entries alone.
pub(crate) fn version_with(entries: Vec<Entry>) -> PlainVersion {
    PlainVersion {
        pt: None,
        statics: None,
        static_flag: Flag::Inherit,
        entries,
        phase: 0,
    }
}

/// The version of these lines.
pub(crate) fn version_of(alloc: Global, lines: &[Line]) -> Result<PlainVersion, AllocError> {
    Ok(version_with(entries_of(alloc, lines)?))
}

/// The timestamp of a tombstone; 0 of none.
pub(crate) fn stamp(tomb: Option<Tomb>) -> i64 {
    match tomb {
        Some(tomb) => tomb.ts,
        None => 0,
    }
}
