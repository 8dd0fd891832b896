ghost use Rattle.std.specs.Prelude.{◌≡◌, IfOk, refl};
ghost use Rattle.rc_cell.specs.Orders.{timestamp_of, bytes_of, deletion_time_of, rank_of, is_live_cell, tomb_cmp, tomb_cmp_total, cell_cmp, cell_cmp_total};
ghost use Rattle.std.specs.Ordering.{as_partial_cmp, eq_by_cmp};
ghost use Rattle.std.specs.Cmp.{eq_by_cmp_equiv, partial_equiv_from_equiv, partial_order_from_total};
ghost use Rattle.rc_cell.specs.Deletion.{survives};

use crate::values::Value;
use std::alloc::{AllocError, Global};
use std::cmp::Ordering;

/// A tombstone: it deletes each cell and row marker that it covers and whose timestamp is not above its own.
/// Tombstones compare by write timestamp, then by deletion time.
#[derive(Clone, Copy)]
pub struct Tomb {
    /// The write timestamp that the client gave.
    pub ts: i64,
    /// The deletion time that the client gave.
    pub dt: u32,
}

impl PartialEq for Tomb {
    ghost eq = { eq_by_cmp tomb_cmp };

    ghost laws = { partial_equiv_from_equiv (eq_by_cmp_equiv tomb_cmp_total) };

    fn eq(&self, other: &Tomb) -> bool {
        self.cmp(other) == Ordering::Equal
    }
}

impl Eq for Tomb {
    ghost laws = { eq_by_cmp_equiv tomb_cmp_total };
}

impl PartialOrd for Tomb {
    ghost partial_cmp = { as_partial_cmp tomb_cmp };

    ghost laws = { partial_order_from_total tomb_cmp_total };

    fn partial_cmp(&self, other: &Tomb) -> Option<Ordering> {
        Some(self.cmp(other))
    }
}

impl Ord for Tomb {
    ghost cmp = { tomb_cmp };

    ghost total = { tomb_cmp_total };

    ghost matches_partial_cmp = { λ x y. refl };

    ghost matches_eq = { λ x y. refl };

    fn cmp(&self, other: &Tomb) -> Ordering {
        self.ts.cmp(&other.ts).then(self.dt.cmp(&other.dt))
    }
}

/// Whether a write of this timestamp survives the tombstone, as every write does where there is none.
pub fn is_above(tomb: Option<Tomb>, ts: i64) -> bool
    ensures { result ≡ survives tomb ts }
{
    match tomb {
        Some(tomb) => tomb.ts < ts,
        None => true,
    }
}

/// What one write says of one column of a row. Of two cells of a column the greater wins: the larger timestamp; at equal
/// timestamps a dead cell before a live one, of two live cells the larger value as unsigned bytes, and of two dead cells
/// the larger deletion time.
#[derive(Drop)]
pub enum Cell {
    /// The column was given a value.
    Live {
        /// The write timestamp.
        ts: i64,
        /// The value written.
        value: Value,
    },
    /// The column was deleted.
    Dead {
        /// The write timestamp.
        ts: i64,
        /// The deletion time.
        dt: u32,
    },
}

impl Cell {
    /// The write timestamp.
    pub fn ts(&self) -> i64
        ensures { result ≡ timestamp_of self.now }
    {
        match self {
            Cell::Live { ts, .. } => *ts,
            Cell::Dead { ts, .. } => *ts,
        }
    }

    /// Whether the cell has a value.
    pub fn is_live(&self) -> bool
        ensures { result ≡ is_live_cell self.now }
    {
        match self {
            Cell::Live { .. } => true,
            Cell::Dead { .. } => false,
        }
    }

    /// An equal cell of its own memory, or want of memory.
    pub fn copy(&self, alloc: Global) -> Result<Self, AllocError>
        ensures { IfOk result (λ cell. cell ≡ self.now) }
    {
        match self {
            Cell::Live { ts, value } => {
                let value = value.copy(alloc)?;
                Ok(Cell::Live { ts: *ts, value })
            }
            Cell::Dead { ts, dt } => Ok(Cell::Dead { ts: *ts, dt: *dt }),
        }
    }

    // The bytes that are compared at equal timestamps, none of a dead cell.
    fn bytes(&self) -> &[u8]
        ensures { result.now ≡ bytes_of self.now }
    {
        match self {
            Cell::Live { value, .. } => value.as_slice(),
            Cell::Dead { .. } => &[],
        }
    }

    // The deletion time that is compared at equal timestamps, 0 of a live cell.
    fn deletion_time(&self) -> u32
        ensures { result ≡ deletion_time_of self.now }
    {
        match self {
            Cell::Live { .. } => 0,
            Cell::Dead { dt, .. } => *dt,
        }
    }

    // 0 of a live cell, and 1 of a dead one, which wins at equal timestamps.
    fn rank(&self) -> u8
        ensures { result ≡ rank_of self.now }
    {
        match self {
            Cell::Live { .. } => 0,
            Cell::Dead { .. } => 1,
        }
    }
}

impl PartialEq for Cell {
    ghost eq = { eq_by_cmp cell_cmp };

    ghost laws = { partial_equiv_from_equiv (eq_by_cmp_equiv cell_cmp_total) };

    fn eq(&self, other: &Cell) -> bool {
        self.cmp(other) == Ordering::Equal
    }
}

impl Eq for Cell {
    ghost laws = { eq_by_cmp_equiv cell_cmp_total };
}

impl PartialOrd for Cell {
    ghost partial_cmp = { as_partial_cmp cell_cmp };

    ghost laws = { partial_order_from_total cell_cmp_total };

    fn partial_cmp(&self, other: &Cell) -> Option<Ordering> {
        Some(self.cmp(other))
    }
}

impl Ord for Cell {
    ghost cmp = { cell_cmp };

    ghost total = { cell_cmp_total };

    ghost matches_partial_cmp = { λ x y. refl };

    ghost matches_eq = { λ x y. refl };

    fn cmp(&self, other: &Cell) -> Ordering {
        self.ts()
            .cmp(&other.ts())
            .then(self.rank().cmp(&other.rank()))
            .then(self.bytes().cmp(other.bytes()))
            .then(self.deletion_time().cmp(&other.deletion_time()))
    }
}
