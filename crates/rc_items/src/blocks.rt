//! Blocks of a partition, and what the directory lists of it.

ghost use Rattle.std.specs.Prelude.{◌≡◌, ◌+◌, [], IsTrue, OnOk, nat_le};
ghost use Rattle.std.specs.List.{AllByRecursion};
ghost use Rattle.rc_rowcode.specs.Spelling.{KeyFits};
ghost use Rattle.rc_items.specs.Blocks.{block_limit, with_fragment};

use rc_cell::Tomb;
use rc_position::{PartKey, Pos};
use std::alloc::{AllocError, Global};
use std::marker::Model;

/// The longest block of more than one fragment, in bytes.
const BLOCK_LIMIT: u32 = 4096;

/// Fragments of a partition that are read at once, as the directory lists them.
#[derive(Drop)]
pub struct Block {
    /// Where its first fragment begins.
    pub off: u64,
    /// Its length in bytes.
    pub len: u32,
    /// The tombstone in force before it.
    pub tomb: Option<Tomb>,
    /// Where its first fragment stands in the partition.
    pub first: Pos,
}

/// Blocks one behind another. A contract sees the list of them.
#[derive(Drop)]
pub(crate) struct Blocks {
    items: Vec<Block>,
}

impl Model for Blocks {
    ghost use Rattle.std.specs.Prelude.{List};
    ghost use Rattle.rc_items.specs.declared.blocks.Block.{Block};

    ghost Value = { List Block };

    ghost use Rattle.std.specs.List.{AllByRecursion};
    ghost use Rattle.rc_rowcode.specs.Spelling.{KeyFits};

    ghost view = { λ b. b.items.items };

    ghost invariant = { λ b. AllByRecursion (λ x. KeyFits x.first.prefix) b.items.items };
}

impl Blocks {
    /// No blocks.
    pub(crate) fn empty(alloc: Global) -> Self
        ensures { result ≡ [] }
    {
        Blocks {
            items: Vec::new(alloc),
        }
    }

    /// The blocks in order.
    pub(crate) fn as_slice(&self) -> &[Block]
        ensures value { result.now ≡ self.now }
        ensures limits { AllByRecursion (λ b. KeyFits b.first.prefix) self.now }
    {
        self.items.as_slice()
    }

    /// Takes in a block of one fragment: it joins the last block, unless that would be longer than the limit. The only
    /// error is want of memory.
    pub(crate) fn take_in(&mut self, new: Block) -> Result<(), AllocError>
        requires { KeyFits new.first.prefix }
        ensures { OnOk result (self.new ≡ with_fragment self.old new) }
    {
        match self.items.pop() {
            None => self.items.push(new)?,
            Some(last) => {
                if may_join(last.len, new.len) {
                    self.items.push(joined(last, new.len))?;
                } else {
                    self.items.push(last)?;
                    self.items.push(new)?;
                }
            }
        }
        Ok(())
    }
}

// Whether a fragment of this length may join a block of that length.
fn may_join(block: u32, fragment: u32) -> bool
    ensures { result ≡ nat_le (block + fragment) block_limit }
{
    fragment <= BLOCK_LIMIT && block <= BLOCK_LIMIT - fragment
}

// A block that grew by so many bytes.
fn joined(block: Block, fragment: u32) -> Block
    requires { IsTrue (nat_le (block.len + fragment) block_limit) }
    ensures { result ≡ record block { len = block.len + fragment } }
{
    Block {
        off: block.off,
        len: block.len + fragment,
        tomb: block.tomb,
        first: block.first,
    }
}

/// What the directory lists of a partition. A contract sees its entry.
#[derive(Drop)]
pub struct Listed {
    key: PartKey,
    off: u64,
    blocks: Blocks,
}

impl Model for Listed {
    ghost use Rattle.rc_items.specs.Blocks.{DirectoryEntry};

    ghost Value = { DirectoryEntry };

    ghost view = { λ l. record { key = l.key; off = l.off; blocks = l.blocks } };
}

impl Listed {
    /// A partition of this key, whose part begins at the offset, and its blocks.
    pub(crate) fn new(key: PartKey, off: u64, blocks: Blocks) -> Self
        ensures { result ≡ record { key = key; off = off; blocks = blocks } }
    {
        Listed { key, off, blocks }
    }

    /// The partition's key.
    pub fn key(&self) -> &PartKey
        ensures { result.now ≡ self.now.key }
    {
        &self.key
    }

    /// Where its part begins.
    pub fn off(&self) -> u64
        ensures { result ≡ self.now.off }
    {
        self.off
    }

    /// Its blocks.
    pub fn blocks(&self) -> &[Block]
        ensures value { result.now ≡ self.now.blocks }
        ensures limits { AllByRecursion (λ b. KeyFits b.first.prefix) self.now.blocks }
    {
        self.blocks.as_slice()
    }
}
