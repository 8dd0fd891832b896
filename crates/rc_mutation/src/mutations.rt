//! What writes say of one partition, a write to a partition, and a whole partition.

ghost use Rattle.std.specs.Prelude.{◌≡◌, [], ◌∷◌, IfOk, OnOk, OnErr};
ghost use Rattle.rc_cell.specs.Greatest.{greater};
ghost use Rattle.rc_cell.specs.Orders.{tomb_cmp};
ghost use Rattle.rc_cell.specs.Winner.{empty_row};
ghost use Rattle.rc_mutation.specs.Source.{IsJoinOf, IsMutation};

use crate::rows::Rows;
use crate::statics::Statics;
use rc_cell::{Tomb, greater_of};
use rc_position::PartKey;
use rc_ranges::Ranges;
use std::alloc::{AllocError, Global};

/// What writes say of one partition.
#[derive(Drop)]
pub struct Mutation {
    /// The partition tombstone.
    pub pt: Option<Tomb>,
    /// The static row.
    pub statics: Statics,
    /// The rows by clustering key.
    pub rows: Rows,
    /// The range tombstones.
    pub ranges: Ranges,
}

impl Mutation {
    /// Nothing written.
    pub fn empty(alloc: Global) -> Self
        ensures { result ≡ record { pt = None; statics = empty_row; rows = []; ranges = [] } }
    {
        Mutation {
            pt: None,
            statics: Statics::empty(alloc),
            rows: Rows::empty(alloc),
            ranges: Ranges::empty(alloc),
        }
    }

    /// An equal mutation of its own memory. The only error is want of memory.
    pub fn copy(&self, alloc: Global) -> Result<Self, AllocError>
        ensures { IfOk result (λ mutation. mutation ≡ self.now) }
    {
        let statics = self.statics.copy(alloc)?;
        let rows = self.rows.copy(alloc)?;
        let ranges = self.ranges.copy(alloc)?;
        Ok(Mutation {
            pt: self.pt,
            statics,
            rows,
            ranges,
        })
    }

    /// What holds of each mutation, for proofs to cite: its static row has cells alone, which ascend by column; its rows
    /// ascend by key; and its range tombstones are canonical. It does nothing.
    pub fn holds_together(&self)
        ensures { IsMutation self.now }
    {
        let _cells = self.statics.as_row();
        let _rows = self.rows.as_slice();
        let _pieces = self.ranges.as_slice();
    }

    /// Joins what other writes say of the partition: at each place of it the greatest tombstone, and the rows as one. The
    /// work is linear in the rows and pieces of both. The only error is want of memory, which leaves the mutation as it was.
    pub fn join(&mut self, alloc: Global, other: &Mutation) -> Result<(), AllocError>
        ensures ok { OnOk result (IsJoinOf self.new (self.old ∷ other.now ∷ [])) }
        ensures err { OnErr result (self.new ≡ self.old) }
    {
        let mut statics = self.statics.copy(alloc)?;
        statics.join(alloc, &other.statics)?;
        let rows = self.rows.joined(alloc, &other.rows)?;
        self.ranges.join(alloc, &other.ranges)?;
        self.pt = greater_tomb(self.pt, other.pt);
        self.statics = statics;
        self.rows = rows;
        Ok(())
    }
}

/// The greater of two tombstones, where there are any.
pub fn greater_tomb(ours: Option<Tomb>, theirs: Option<Tomb>) -> Option<Tomb>
    ensures { result ≡ greater tomb_cmp ours theirs }
{
    greater_of(ours, theirs)
}

/// A write to one partition.
#[derive(Drop)]
pub struct Write {
    /// The partition's key.
    pub key: PartKey,
    /// What is written of it.
    pub change: Mutation,
}

impl Write {
    /// An equal write of its own memory. The only error is want of memory.
    pub fn copy(&self, alloc: Global) -> Result<Self, AllocError>
        ensures { IfOk result (λ write. write ≡ self.now) }
    {
        let key = self.key.copy(alloc)?;
        let change = self.change.copy(alloc)?;
        Ok(Write { key, change })
    }
}

/// One partition: its key and what all writes to it say.
#[derive(Drop)]
pub struct Partition {
    /// The partition's key.
    pub key: PartKey,
    /// What the writes say.
    pub change: Mutation,
}

impl Partition {
    /// An equal partition of its own memory. The only error is want of memory.
    pub fn copy(&self, alloc: Global) -> Result<Self, AllocError>
        ensures { IfOk result (λ partition. partition ≡ self.now) }
    {
        let key = self.key.copy(alloc)?;
        let change = self.change.copy(alloc)?;
        Ok(Partition { key, change })
    }
}
