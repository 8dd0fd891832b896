//! Scratch space of a fixed size, in which codes are put together without taking memory.

ghost use Rattle.std.specs.Prelude.{◌≡◌, ◌++◌, ◌≤◌, ◌+◌, [], length, IfOk};
ghost use Rattle.std.specs.Vec.{vec_capacity};
ghost use Rattle.rc_rowcode.specs.Spelling.{key_code, pos_code, row_code, KeyFits, RowFits, IsKey, IsPos, IsCodedRow};
ghost use Rattle.rc_rowcode.specs.calls.Joining.{merged_cells, AreSorted};
ghost use Rattle.rc_rowcode.specs.Space.{Space, HasRoom};

use crate::join::{Merge, append_parts};
use crate::keys::{append_key, append_pos};
use crate::numbers::append;
use crate::rows::append_row;
use crate::widths::{key_in_range, pos_in_range, row_in_range};
use rc_cell::{Row, Tomb};
use rc_position::{Key, Pos};
use std::alloc::{AllocError, Global};
use std::marker::Model;

/// Bytes, of which at most `size` fit. A contract sees the bytes and the size.
#[derive(Drop)]
pub struct Scratch {
    items: Vec<u8>,
    size: usize,
}

impl Model for Scratch {
    ghost use Rattle.std.specs.Prelude.{◌≤◌, length};
    ghost use Rattle.std.specs.Vec.{vec_capacity};
    ghost use Rattle.rc_rowcode.specs.Space.{Space};

    ghost Value = { Space };

    ghost view = { λ s. record { bytes = s.items.items; size = s.size } };

    ghost invariant = { λ s. (length s.items.items ≤ s.size) × (s.size ≤ vec_capacity s.items) };
}

impl Scratch {
    /// No bytes, and room for `size` of them, or want of memory.
    pub fn new(alloc: Global, size: usize) -> Result<Self, AllocError>
        ensures { IfOk result (λ scratch. scratch ≡ record { bytes = []; size = size }) }
    {
        let items = Vec::with_capacity(alloc, size)?;
        Ok(Scratch { items, size })
    }

    /// The bytes that were put.
    pub fn bytes(&self) -> &[u8]
        ensures value { result.now ≡ self.now.bytes }
        ensures fit { length self.now.bytes ≤ self.now.size }
    {
        self.items.as_slice()
    }

    /// Forgets the bytes.
    pub fn clear(&mut self)
        ensures { self.new ≡ record { bytes = []; size = self.old.size } }
    {
        self.items.clear();
    }

    /// Appends bytes that fit.
    pub fn put(&mut self, bytes: &[u8])
        requires { HasRoom self.old (length bytes.now) }
        ensures { self.new ≡ record { bytes = self.old.bytes ++ bytes.now; size = self.old.size } }
    {
        append(&mut self.items, bytes);
    }

    /// Appends the code of a row, which fits. It can be joined with others.
    pub fn put_row(&mut self, row: &Row)
        requires limits { RowFits row.now }
        requires room { HasRoom self.old (length (row_code row.now)) }
        ensures value { self.new ≡ record { bytes = self.old.bytes ++ row_code row.now; size = self.old.size } }
        ensures coded { IsCodedRow row.now }
    {
        row_in_range(row);
        append_row(&mut self.items, row);
    }

    /// Appends the code of a key, which fits.
    pub fn put_key(&mut self, key: &Key)
        requires limits { KeyFits key.now }
        requires room { HasRoom self.old (length (key_code key.now)) }
        ensures value { self.new ≡ record { bytes = self.old.bytes ++ key_code key.now; size = self.old.size } }
        ensures coded { IsKey key.now }
    {
        key_in_range(key);
        append_key(&mut self.items, key);
    }

    /// Appends the code of a position, which fits.
    pub fn put_pos(&mut self, x: &Pos)
        requires limits { KeyFits x.now.prefix }
        requires room { HasRoom self.old (length (pos_code x.now)) }
        ensures value { self.new ≡ record { bytes = self.old.bytes ++ pos_code x.now; size = self.old.size } }
        ensures coded { IsPos x.now }
    {
        pos_in_range(x);
        append_pos(&mut self.items, x);
    }

    // Appends the code of a row of these parts, which fits.
    pub(crate) fn put_parts(&mut self, marker: Option<i64>, tomb: Option<Tomb>, merge: Merge<'_>)
        requires sorted { AreSorted merge }
        requires few { length (merged_cells merge) ≤ 32 }
        requires room { HasRoom self.old (length (row_code (record { marker = marker; tomb = tomb; cells = merged_cells merge }))) }
        ensures { self.new ≡ record { bytes = self.old.bytes ++ row_code (record { marker = marker; tomb = tomb; cells = merged_cells merge.entry }); size = self.old.size } }
    {
        append_parts(&mut self.items, marker, tomb, merge);
    }
}
