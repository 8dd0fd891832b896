//! Tombstones and cells, in place.

ghost use Rattle.std.specs.Prelude.{◌≡◌, ◌≤◌, ◌<◌, ◌+◌, ◌++◌, ◌∷◌, length, IfOk};
ghost use Rattle.std.specs.Option.{option_map, IfSome};
ghost use Rattle.std.specs.Vec.{vec_capacity};
ghost use Rattle.rc_cell.specs.Orders.{timestamp_of, rank_of, bytes_of, deletion_time_of, cell_cmp};
ghost use Rattle.rc_rowcode.specs.Spelling.{tomb_code, cell_code, entry_code, CellFits};
ghost use Rattle.rc_rowcode.specs.calls.Reading.{parse_tomb, parse_live, parse_dead, parse_cell, parse_entry};
ghost use Rattle.rc_cell.specs.declared.writes.Cell.TheVariants.{Live, Dead};
ghost use Rattle.rc_rowcode.specs.calls.Views.{seen_cell};

use crate::numbers::{
    append, append_byte, append_length, append_stamp, append_time, bytes_at, length_at, stamp_at,
    time_at,
};
use rc_cell::{Cell, Tomb, Value};
use std::alloc::{AllocError, Global};
use std::cmp::Ordering;

/// A cell whose value lies elsewhere.
#[derive(Clone, Copy)]
pub(crate) enum CellView<'a> {
    Live { ts: i64, value: &'a [u8] },
    Dead { ts: i64, dt: u32 },
}

impl<'a> CellView<'a> {
    /// The cell, with its value in place.
    pub(crate) fn of(cell: &'a Cell) -> Self
        ensures { seen_cell result ≡ cell.now }
    {
        match cell {
            Cell::Live { ts, value } => CellView::Live {
                ts: *ts,
                value: value.as_slice(),
            },
            Cell::Dead { ts, dt } => CellView::Dead { ts: *ts, dt: *dt },
        }
    }

    /// An equal cell of its own memory, or want of memory.
    pub(crate) fn copy(&self, alloc: Global) -> Result<Cell, AllocError>
        ensures { IfOk result (λ cell. cell ≡ seen_cell self.now) }
    {
        match self {
            CellView::Live { ts, value } => {
                let value = Value::from_slice(alloc, value)?;
                Ok(Cell::Live { ts: *ts, value })
            }
            CellView::Dead { ts, dt } => Ok(Cell::Dead { ts: *ts, dt: *dt }),
        }
    }
}

impl CellView<'_> {
    // The write timestamp.
    fn ts(&self) -> i64
        ensures { result ≡ timestamp_of (seen_cell self.now) }
    {
        match self {
            CellView::Live { ts, .. } => *ts,
            CellView::Dead { ts, .. } => *ts,
        }
    }

    // 0 of a live cell, and 1 of a dead one, which wins at equal timestamps.
    fn rank(&self) -> u8
        ensures { result ≡ rank_of (seen_cell self.now) }
    {
        match self {
            CellView::Live { .. } => 0,
            CellView::Dead { .. } => 1,
        }
    }

    // The deletion time that is compared at equal timestamps, 0 of a live cell.
    fn deletion_time(&self) -> u32
        ensures { result ≡ deletion_time_of (seen_cell self.now) }
    {
        match self {
            CellView::Live { .. } => 0,
            CellView::Dead { dt, .. } => *dt,
        }
    }

    // The bytes that are compared at equal timestamps, none of a dead cell.
    fn value(&self) -> &[u8]
        ensures { result.now ≡ bytes_of (seen_cell self.now) }
    {
        match self {
            CellView::Live { value, .. } => value,
            CellView::Dead { .. } => &[],
        }
    }

    /// The length of its code.
    #[tactic(auto, unfolding(crate::specs::Spelling::stamp_code, crate::specs::Spelling::time_code, crate::specs::Spelling::length_code))]
    pub(crate) fn size(&self) -> usize
        requires { CellFits (seen_cell self.now) }
        ensures { result ≡ length (cell_code (seen_cell self.now)) }
    {
        match self {
            CellView::Live { value, .. } => 11 + value.len(),
            CellView::Dead { .. } => 13,
        }
    }

    /// The order of cells, of which the greater wins.
    pub(crate) fn order(&self, other: &CellView<'_>) -> Ordering
        ensures { result ≡ cell_cmp (seen_cell self.now) (seen_cell other.now) }
    {
        self.ts()
            .cmp(&other.ts())
            .then(self.rank().cmp(&other.rank()))
            .then(self.value().cmp(other.value()))
            .then(self.deletion_time().cmp(&other.deletion_time()))
    }
}

/// The tombstone at the front, and what follows it.
#[tactic(auto, unfolding(crate::specs::calls::Reading::parse_tomb))]
pub(crate) fn tomb_at(bytes: &[u8]) -> Option<(Tomb, &[u8])>
    ensures { option_map (λ x. (x.0, x.1.now)) result ≡ parse_tomb bytes.now }
{
    let (ts, rest) = stamp_at(bytes)?;
    let (dt, rest) = time_at(rest)?;
    Some((Tomb { ts, dt }, rest))
}

#[tactic(auto, unfolding(crate::specs::calls::Reading::parse_live))]
fn live_at(bytes: &[u8]) -> Option<(CellView<'_>, &[u8])>
    ensures value { option_map (λ x. (seen_cell x.0, x.1.now)) result ≡ parse_live bytes.now }
    ensures fits { IfSome result (λ x. CellFits (seen_cell x.0)) }
{
    let (ts, rest) = stamp_at(bytes)?;
    let (count, rest) = length_at(rest)?;
    let (value, rest) = bytes_at(256, count as usize, rest)?;
    Some((CellView::Live { ts, value }, rest))
}

#[tactic(auto, unfolding(crate::specs::calls::Reading::parse_dead))]
fn dead_at(bytes: &[u8]) -> Option<(CellView<'_>, &[u8])>
    ensures value { option_map (λ x. (seen_cell x.0, x.1.now)) result ≡ parse_dead bytes.now }
    ensures fits { IfSome result (λ x. CellFits (seen_cell x.0)) }
{
    let (tomb, rest) = tomb_at(bytes)?;
    Some((
        CellView::Dead {
            ts: tomb.ts,
            dt: tomb.dt,
        },
        rest,
    ))
}

/// The cell at the front, and what follows it.
#[tactic(auto, unfolding(crate::specs::calls::Reading::parse_cell))]
fn cell_at(bytes: &[u8]) -> Option<(CellView<'_>, &[u8])>
    ensures value { option_map (λ x. (seen_cell x.0, x.1.now)) result ≡ parse_cell bytes.now }
    ensures fits { IfSome result (λ x. CellFits (seen_cell x.0)) }
{
    match bytes {
        [] => None,
        [0, rest @ ..] => live_at(rest),
        [1, rest @ ..] => dead_at(rest),
        [_first, _rest @ ..] => None,
    }
}

/// The column at the front, from `least` to 31, its cell, and what follows them.
#[tactic(auto, unfolding(crate::specs::calls::Reading::parse_entry))]
pub(crate) fn entry_at(least: u8, bytes: &[u8]) -> Option<(u8, CellView<'_>, &[u8])>
    ensures value { option_map (λ x. ((x.0, seen_cell x.1), x.2.now)) result ≡ parse_entry least bytes.now }
    ensures low { IfSome result (λ x. x.0 < 32) }
    ensures fits { IfSome result (λ x. CellFits (seen_cell x.1)) }
{
    match bytes {
        [] => None,
        [column, rest @ ..] => {
            if *column < least {
                return None;
            }
            if 31 < *column {
                return None;
            }
            let (cell, rest) = cell_at(rest)?;
            Some((*column, cell, rest))
        }
    }
}

/// Appends a tombstone's code, for which there is room.
pub(crate) fn append_tomb(out: &mut Vec<u8>, tomb: Tomb)
    requires { length out.old.items + length (tomb_code tomb) ≤ vec_capacity out.old }
    ensures items { out.new.items ≡ out.old.items ++ tomb_code tomb }
    ensures room { vec_capacity out.old ≤ vec_capacity out.new }
{
    append_stamp(out, tomb.ts);
    append_time(out, tomb.dt);
}

fn append_live(out: &mut Vec<u8>, ts: i64, value: &[u8])
    requires fits { length value.now ≤ 256 }
    requires enough { length out.old.items + length (cell_code (Live ts value.now)) ≤ vec_capacity out.old }
    ensures items { out.new.items ≡ out.old.items ++ cell_code (Live ts value.now) }
    ensures room { vec_capacity out.old ≤ vec_capacity out.new }
{
    append_byte(out, 0);
    append_stamp(out, ts);
    append_length(out, value.len() as u16);
    append(out, value);
}

fn append_dead(out: &mut Vec<u8>, ts: i64, dt: u32)
    requires { length out.old.items + length (cell_code (Dead ts dt)) ≤ vec_capacity out.old }
    ensures items { out.new.items ≡ out.old.items ++ cell_code (Dead ts dt) }
    ensures room { vec_capacity out.old ≤ vec_capacity out.new }
{
    append_byte(out, 1);
    append_stamp(out, ts);
    append_time(out, dt);
}

/// Appends a column and the code of its cell, for which there is room.
pub(crate) fn append_entry(out: &mut Vec<u8>, column: u8, cell: &CellView<'_>)
    requires fits { CellFits (seen_cell cell.now) }
    requires enough { length out.old.items + length (entry_code (column, seen_cell cell.now)) ≤ vec_capacity out.old }
    ensures items { out.new.items ≡ out.old.items ++ entry_code (column, seen_cell cell.now) }
    ensures room { vec_capacity out.old ≤ vec_capacity out.new }
{
    append_byte(out, column);
    match cell {
        CellView::Live { ts, value } => append_live(out, *ts, value),
        CellView::Dead { ts, dt } => append_dead(out, *ts, *dt),
    }
}
