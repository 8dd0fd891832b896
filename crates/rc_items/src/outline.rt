//! What is known of a table's items so far, and what each further item makes of it. Writing, planning and checking go by it.

ghost use Rattle.std.specs.Prelude.{◌≡◌, ◌+◌, ◌^◌, ◌<◌, [], ◌∷◌, length, IsSome, IsTrue, OnOk, IfOk, List, None, Some, Option, false, true, OkIff};
ghost use Rattle.rc_cell.specs.declared.rows.Row.{Row};
ghost use Rattle.rc_cell.specs.declared.writes.Tomb.{Tomb};
ghost use Rattle.rc_position.specs.declared.comps.Comp.{Comp};
ghost use Rattle.rc_position.specs.Position.{row_pos};
ghost use Rattle.rc_schema.specs.SchemaValue.{SchemaValue};
ghost use Rattle.rc_rowcode.specs.Spelling.{KeyFits};
ghost use Rattle.rc_items.specs.Items.{Item, HeadItem, PartItem, RowItem, ChangeItem, EndItem, StopItem, item_code};
ghost use Rattle.rc_items.specs.Before.{ItemsBefore};
ghost use Rattle.rc_items.specs.Blocks.{new_block};
ghost use Rattle.rc_items.specs.Outlined.{IsOutline, IsListed, IsFragment};

use crate::blocks::{Block, Blocks, Listed};
use rc_cell::Tomb;
use rc_position::{Key, PartKey, Pos, Weight};
use std::alloc::{AllocError, Global};
use std::mem;

/// What the items so far determine.
#[derive(Drop)]
pub struct Outline {
    /// Where the next item begins.
    pub off: u64,
    /// The key of the last partition.
    pub key: Option<PartKey>,
    /// Whether that partition has not ended.
    inside: bool,
    /// Where its part begins.
    part: u64,
    /// Where its last fragment stands.
    pub(crate) last: Option<Pos>,
    /// The tombstone in force.
    pub tomb: Option<Tomb>,
    /// Its blocks so far.
    blocks: Blocks,
    /// What the directory lists of the partitions that have ended.
    pub listed: Vec<Listed>,
}

/// An offset so many bytes further. Exactly one past 64 bits, which no file reaches, counts as want of memory.
pub fn further(off: u64, size: usize) -> Result<u64, AllocError>
    ensures { OkIff result (off + size < 2 ^ 64) (off + size) }
{
    match off.checked_add(size as u64) {
        Some(sum) => Ok(sum),
        None => Err(AllocError),
    }
}

/// A size in 32 bits. Exactly a greater one, which no item has, counts as want of memory.
pub fn short(size: usize) -> Result<u32, AllocError>
    ensures { OkIff result (size < 2 ^ 32) size }
{
    if size > 4_294_967_295 {
        return Err(AllocError);
    }
    Ok(size as u32)
}

/// Where the row of a key stands. The only error is want of memory.
pub fn row_pos(alloc: Global, key: &Key) -> Result<Pos, AllocError>
    ensures { IfOk result (λ x. x ≡ row_pos key.now) }
{
    Ok(Pos {
        prefix: key.copy(alloc)?,
        weight: Weight::At,
    })
}

impl Outline {
    /// The outline behind a head of so many bytes.
    pub fn new(alloc: Global, size: usize) -> Self
        ensures { (schema : SchemaValue) → size ≡ length (item_code (HeadItem schema)) → IsOutline (HeadItem schema ∷ []) result }
    {
        Outline {
            off: size as u64,
            key: None,
            inside: false,
            part: 0,
            last: None,
            tomb: None,
            blocks: Blocks::empty(alloc),
            listed: Vec::new(alloc),
        }
    }

    /// Whether the last partition has not ended.
    pub fn is_inside(&self) -> bool
        ensures opened { IsTrue result → IsSome self.now.key }
        ensures value { (before : ItemsBefore) → IsOutline before self.now → result ≡ self.now.inside }
    {
        self.inside && self.key.is_some()
    }

    /// Takes in a part of so many bytes. The only error is want of memory.
    pub fn part(&mut self, alloc: Global, key: &PartKey, size: usize) -> Result<(), AllocError>
        ensures outline { (before : ItemsBefore) (pt : Option Tomb) (statics : Row) → IsOutline before self.old → size ≡ length (item_code (PartItem key.now pt statics)) →
            OnOk result (IsOutline (PartItem key.now pt statics ∷ before) self.new) }
        ensures opened { OnOk result (IsSome self.new.key) }
    {
        let off = further(self.off, size)?;
        self.key = Some(key.copy(alloc)?);
        self.inside = true;
        self.part = self.off;
        self.last = None;
        self.tomb = None;
        self.blocks = Blocks::empty(alloc);
        self.off = off;
        Ok(())
    }

    /// Takes in a fragment of so many bytes of the last partition, from which on this tombstone is in force. The only error is want of memory.
    pub fn fragment(
        &mut self,
        alloc: Global,
        x: &Pos,
        tomb: Option<Tomb>,
        size: usize,
    ) -> Result<(), AllocError>
        requires key { KeyFits x.now.prefix }
        requires opened { IsSome self.old.key }
        ensures opened { IsSome self.new.key }
        ensures outline { (before : ItemsBefore) (item : Item) → IsOutline before self.old → IsFragment before item x.now tomb → size ≡ length (item_code item) →
            OnOk result (IsOutline (item ∷ before) self.new) }
    {
        let off = further(self.off, size)?;
        let block = Block {
            off: self.off,
            len: short(size)?,
            tomb: self.tomb,
            first: x.copy(alloc)?,
        };
        self.blocks.take_in(block)?;
        self.last = Some(x.copy(alloc)?);
        self.inside = true;
        self.tomb = tomb;
        self.off = off;
        Ok(())
    }

    /// Takes in the end of the last partition. The only error is want of memory.
    pub fn end(&mut self, alloc: Global) -> Result<(), AllocError>
        requires { IsSome self.old.key }
        ensures opened { IsSome self.new.key }
        ensures outline { (before : ItemsBefore) → IsOutline before self.old → OnOk result (IsOutline (EndItem ∷ before) self.new) }
    {
        let Some(key) = &self.key else {
            unreachable!();
        };
        let key = key.copy(alloc)?;
        let off = further(self.off, 1)?;
        let blocks = mem::replace(&mut self.blocks, Blocks::empty(alloc));
        self.listed.push(Listed::new(key, self.part, blocks))?;
        self.inside = false;
        self.last = None;
        self.tomb = None;
        self.off = off;
        Ok(())
    }

    /// Takes in the stop. The only error is want of memory.
    pub fn stop(&mut self) -> Result<(), AllocError>
        ensures { (before : ItemsBefore) → IsOutline before self.old → OnOk result (IsListed (StopItem ∷ before) self.new) }
    {
        self.off = further(self.off, 1)?;
        Ok(())
    }
}
