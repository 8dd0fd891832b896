//! The static row of a partition.

ghost use Rattle.std.specs.Prelude.{◌≡◌, [], ◌∷◌, None, Some, IfOk, OnErr, OnOk, IsTrue, if◌then◌else◌};
ghost use Rattle.rc_cell.specs.Columns.{ascending};
ghost use Rattle.rc_cell.specs.Winner.{empty_row, joined_row};
ghost use Rattle.rc_mutation.specs.Statics.{has_cells_alone};

use rc_cell::{Cells, Row};
use std::alloc::{AllocError, Global};
use std::marker::Model;

/// What writes say of the static row: a cell per column written. It has no marker and no tombstone, since the partition
/// tombstone alone covers it. A contract sees the row.
#[derive(Drop)]
pub struct Statics {
    row: Row,
}

impl Model for Statics {
    ghost use Rattle.std.specs.Prelude.{IsTrue};
    ghost use Rattle.rc_cell.specs.declared.rows.Row.{Row};
    ghost use Rattle.rc_mutation.specs.Statics.{has_cells_alone};

    ghost Value = { Row };

    ghost view = { λ s. s.row };

    ghost invariant = { λ s. IsTrue (has_cells_alone s.row) };
}

impl Statics {
    /// A static row of which nothing was written.
    pub fn empty(alloc: Global) -> Self
        ensures { result ≡ empty_row }
    {
        Statics {
            row: Row::empty(alloc),
        }
    }

    /// The static row of these cells.
    pub fn from_cells(cells: Cells) -> Self
        ensures { result ≡ record { marker = None; tomb = None; cells = cells } }
    {
        Statics {
            row: Row {
                marker: None,
                tomb: None,
                cells,
            },
        }
    }

    /// The row as a static row; none where it has a marker or a tombstone.
    pub fn from_row(row: Row) -> Option<Self>
        ensures { result ≡ (if has_cells_alone row then Some row else None) }
    {
        if row.marker.is_none() && row.tomb.is_none() {
            Some(Statics { row })
        } else {
            None
        }
    }

    /// The row, which has cells alone.
    pub fn as_row(&self) -> &Row
        ensures value { result.now ≡ self.now }
        ensures alone { IsTrue (has_cells_alone self.now) }
        ensures by_column { IsTrue (ascending self.now.cells) }
    {
        let _cells = self.row.cells.as_slice();
        &self.row
    }

    /// An equal static row of its own memory. The only error is want of memory.
    pub fn copy(&self, alloc: Global) -> Result<Self, AllocError>
        ensures { IfOk result (λ statics. statics ≡ self.now) }
    {
        let row = self.row.copy(alloc)?;
        Ok(Statics { row })
    }

    /// Joins what other writes say of the static row: of each column the winner. The only error is want of memory, which
    /// leaves the static row as it was.
    pub fn join(&mut self, alloc: Global, other: &Statics) -> Result<(), AllocError>
        ensures ok { OnOk result (self.new ≡ joined_row (self.old ∷ other.now ∷ [])) }
        ensures err { OnErr result (self.new ≡ self.old) }
    {
        self.row.join(alloc, &other.row)
    }
}
