//! What is known of a table without reading it.

ghost use Rattle.std.specs.Prelude.{◌≡◌, [], ◌∷◌, ◌++◌, IfOk, OnOk};

use rc_position::PartKey;
use std::alloc::{AllocError, Global};
use std::marker::Model;

/// Where a table's directory lists a partition.
#[derive(Drop)]
pub struct PartRef {
    /// The partition's key.
    pub key: PartKey,
    /// Where the directory's items of the partition begin, in bytes from the file's start.
    pub dir_off: u64,
    /// Their length in bytes.
    pub dir_len: u32,
}

impl PartRef {
    /// An equal value of its own memory. The only error is want of memory.
    pub fn copy(&self, alloc: Global) -> Result<Self, AllocError>
        ensures { IfOk result (λ part. part ≡ self.now) }
    {
        Ok(PartRef {
            key: self.key.copy(alloc)?,
            dir_off: self.dir_off,
            dir_len: self.dir_len,
        })
    }
}

/// A table's partitions, in the order of their keys. A contract sees the list of them.
#[derive(Drop)]
pub struct PartRefs {
    items: Vec<PartRef>,
}

impl Model for PartRefs {
    ghost use Rattle.std.specs.Prelude.{List};
    ghost use Rattle.rc_tfile.specs.declared.info.PartRef.{PartRef};

    ghost Value = { List PartRef };

    ghost view = { λ r. r.items.items };
}

impl PartRefs {
    /// No partitions.
    pub fn empty(alloc: Global) -> Self
        ensures { result ≡ [] }
    {
        PartRefs {
            items: Vec::new(alloc),
        }
    }

    /// These partitions, which are copied. The only error is want of memory.
    pub fn from_slice(alloc: Global, items: &[PartRef]) -> Result<Self, AllocError>
        ensures { IfOk result (λ list. list ≡ items.now) }
    {
        let mut copies = Vec::with_capacity(alloc, items.len())?;
        for part in items {
            copies.push(part.copy(alloc)?)?;
        }
        Ok(PartRefs { items: copies })
    }

    /// The partitions in order.
    pub fn as_slice(&self) -> &[PartRef]
        ensures { result.now ≡ self.now }
    {
        self.items.as_slice()
    }

    /// Equal partitions of their own memory. The only error is want of memory.
    pub fn copy(&self, alloc: Global) -> Result<Self, AllocError>
        ensures { IfOk result (λ list. list ≡ self.now) }
    {
        PartRefs::from_slice(alloc, self.as_slice())
    }

    // One more partition behind them. The only error is want of memory.
    pub(crate) fn push(&mut self, part: PartRef) -> Result<(), AllocError>
        ensures { OnOk result (self.new ≡ self.old ++ part ∷ []) }
    {
        self.items.push(part)?;
        Ok(())
    }
}

/// What is known of a table: its number, and where its directory lists each partition.
#[derive(Drop)]
pub struct TableInfo {
    /// The table's number.
    pub number: u32,
    /// Its partitions by ascending key.
    pub parts: PartRefs,
}

impl TableInfo {
    /// An equal value of its own memory. The only error is want of memory.
    pub fn copy(&self, alloc: Global) -> Result<Self, AllocError>
        ensures { IfOk result (λ info. info ≡ self.now) }
    {
        Ok(TableInfo {
            number: self.number,
            parts: self.parts.copy(alloc)?,
        })
    }
}
