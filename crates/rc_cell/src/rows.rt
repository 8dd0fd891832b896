ghost use Rattle.std.specs.Prelude.{◌≡◌, [], ◌∷◌, ◌↔◌, IfOk, OnOk, OnErr, IsTrue};
ghost use Rattle.rc_cell.specs.Winner.{empty_row, joined_row, IsRow};
ghost use Rattle.rc_cell.specs.Deletion.{shadowed_row, surviving_marker, has_life};
ghost use Rattle.rc_cell.specs.Greatest.{greater};

use crate::columns::Cells;
use crate::writes::{Tomb, is_above};
use std::alloc::{AllocError, Global};

/// What writes say of one row: a marker, the timestamp of an insert; a row tombstone; and a cell per column written.
#[derive(Drop)]
pub struct Row {
    /// The timestamp of the row's marker.
    pub marker: Option<i64>,
    /// The row's own tombstone.
    pub tomb: Option<Tomb>,
    /// The cells by ascending column.
    pub cells: Cells,
}

impl Row {
    /// A row of which nothing was written.
    pub fn empty(alloc: Global) -> Self
        ensures { result ≡ empty_row }
    {
        Row {
            marker: None,
            tomb: None,
            cells: Cells::empty(alloc),
        }
    }

    /// An equal row of its own memory, or want of memory.
    pub fn copy(&self, alloc: Global) -> Result<Self, AllocError>
        ensures { IfOk result (λ row. row ≡ self.now) }
    {
        let cells = self.cells.copy(alloc)?;
        Ok(Row {
            marker: self.marker,
            tomb: self.tomb,
            cells,
        })
    }

    /// Joins what other writes say of the row: the greatest marker, the greatest tombstone, and of each column the
    /// winner. Want of memory leaves the row as it was.
    pub fn join(&mut self, alloc: Global, other: &Row) -> Result<(), AllocError>
        ensures ok { OnOk result (self.new ≡ joined_row (self.old ∷ other.now ∷ [])) }
        ensures err { OnErr result (self.new ≡ self.old) }
        ensures ascending { IsRow self.old × IsRow other.now }
    {
        self.cells = self.cells.joined(alloc, &other.cells)?;
        self.marker = greater_of(self.marker, other.marker);
        self.tomb = greater_of(self.tomb, other.tomb);
        Ok(())
    }

    /// What a tombstone that covers the row leaves of it. The row's own tombstone is kept; the marker and the cells are
    /// kept whose timestamp is above the greater of the cover and that tombstone, or all where there is neither.
    pub fn shadow(&self, alloc: Global, cover: Option<Tomb>) -> Result<Row, AllocError>
        ensures { IfOk result (λ row. row ≡ shadowed_row cover self.now) }
    {
        let in_force = greater_of(cover, self.tomb);
        let marker = marker_surviving(in_force, self.marker);
        let tomb = self.tomb;
        let cells = self.cells.surviving(alloc, in_force)?;
        Ok(Row {
            marker,
            tomb,
            cells,
        })
    }

    /// Whether the row is given to readers under a covering tombstone: it keeps its marker, or a live cell.
    pub fn is_live(&self, cover: Option<Tomb>) -> bool
        ensures { result ≡ has_life (shadowed_row cover self.now) }
    {
        let tomb = greater_of(cover, self.tomb);
        marker_surviving(tomb, self.marker).is_some() || self.cells.has_live(tomb)
    }

    /// Whether nothing was written of the row: no marker, no tombstone and no cell.
    pub fn is_empty(&self) -> bool
        ensures { IsTrue result ↔ (self.now ≡ empty_row) }
    {
        self.marker.is_none() && self.tomb.is_none() && self.cells.as_slice().is_empty()
    }
}

// The marker, if it survives the tombstone.
fn marker_surviving(tomb: Option<Tomb>, marker: Option<i64>) -> Option<i64>
    ensures { result ≡ surviving_marker tomb marker }
{
    match marker {
        Some(ts) if is_above(tomb, ts) => Some(ts),
        _ => None,
    }
}

/// The greater of two values, where there are any.
pub fn greater_of<T: Ord + Copy>(ours: Option<T>, theirs: Option<T>) -> Option<T>
    ensures { result ≡ greater T.cmp ours theirs }
{
    match (ours, theirs) {
        (Some(ours), Some(theirs)) => Some(theirs.max(ours)),
        (Some(ours), None) => Some(ours),
        (None, theirs) => theirs,
    }
}
