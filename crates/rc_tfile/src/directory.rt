//! The directory of a table: its items spelt, and where it lists each partition. The only error of each call is want of memory.

ghost use Rattle.std.specs.Prelude.{◌≡◌, ◌≤◌, ◌++◌, IfOk, OnOk, map, length};
ghost use Rattle.std.specs.List.{flat_map, AllByRecursion};
ghost use Rattle.rc_rowcode.specs.Spelling.{KeyFits};
ghost use Rattle.rc_items.specs.Items.{item_code, EntryItem, BlockItem, TailItem, IsItem};
ghost use Rattle.rc_items.specs.Blocks.{entry_items};
ghost use Rattle.rc_tfile.specs.Info.{refs_from};
ghost use Rattle.rc_tfile.specs.calls.Windows.{largest};

use crate::info::{PartRef, PartRefs};
use rc_items::{Block, Listed, append_block, append_entry, append_tail, further, short};
use std::alloc::{AllocError, Global};

/// The tail: the offset of the first directory item, and how many partitions there are.
pub(crate) fn tail_of(alloc: Global, off: u64, parts: usize) -> Result<Vec<u8>, AllocError>
    ensures code { IfOk result (λ out. out.items ≡ item_code (TailItem off parts)) }
    ensures fits { IfOk result (λ _. IsItem (TailItem off parts)) }
    ensures within { IfOk result (λ out. length out.items ≤ largest) }
{
    let mut out = Vec::new(alloc);
    let count = short(parts)?;
    append_tail(off, count, &mut out)?;
    Ok(out)
}

/// A partition's item in the directory.
pub(crate) fn entry_of(alloc: Global, listed: &Listed) -> Result<Vec<u8>, AllocError>
    ensures code { IfOk result (λ out. out.items ≡ item_code (EntryItem listed.now.key listed.now.off (length listed.now.blocks))) }
    ensures fits { IfOk result (λ _. IsItem (EntryItem listed.now.key listed.now.off (length listed.now.blocks))) }
    ensures within { IfOk result (λ out. length out.items ≤ largest) }
{
    let mut out = Vec::new(alloc);
    let count = short(listed.blocks().len())?;
    let _key = listed.key().as_slice();
    append_entry(listed.key(), listed.off(), count, &mut out)?;
    Ok(out)
}

/// A block's item in the directory.
pub(crate) fn block_of(alloc: Global, block: &Block) -> Result<Vec<u8>, AllocError>
    requires { KeyFits block.now.first.prefix }
    ensures code { IfOk result (λ out. out.items ≡ item_code (BlockItem block.now)) }
    ensures fits { IfOk result (λ _. IsItem (BlockItem block.now)) }
    ensures within { IfOk result (λ out. length out.items ≤ largest) }
{
    let mut out = Vec::new(alloc);
    append_block(alloc, block, &mut out)?;
    Ok(out)
}

// The blocks of a partition in the directory.
fn spell_blocks(alloc: Global, blocks: &[Block], out: &mut Vec<u8>) -> Result<(), AllocError>
    requires { AllByRecursion (λ b. KeyFits b.first.prefix) blocks.now }
    ensures bytes { OnOk result (out.new.items ≡ out.old.items ++ flat_map item_code (map BlockItem blocks.now)) }
    ensures items { OnOk result (AllByRecursion IsItem (map BlockItem blocks.now)) }
{
    let mut left = blocks;
    while let [block, rest @ ..] = left {
        append_block(alloc, block, out)?;
        left = rest;
    }
    Ok(())
}

/// A partition in the directory, followed by its blocks, appended.
pub(crate) fn spell_entry(
    alloc: Global,
    listed: &Listed,
    out: &mut Vec<u8>,
) -> Result<(), AllocError>
    ensures bytes { OnOk result (out.new.items ≡ out.old.items ++ flat_map item_code (entry_items listed.now)) }
    ensures items { OnOk result (AllByRecursion IsItem (entry_items listed.now)) }
{
    let blocks = listed.blocks();
    let count = short(blocks.len())?;
    append_entry(listed.key(), listed.off(), count, out)?;
    spell_blocks(alloc, blocks, out)
}

/// Where the directory lists each partition, the first at the offset.
pub(crate) fn refs_of(alloc: Global, off: u64, entries: &[Listed]) -> Result<PartRefs, AllocError>
    ensures refs { IfOk result (λ refs. refs ≡ refs_from off entries.now) }
    ensures items { IfOk result (λ _. AllByRecursion IsItem (flat_map entry_items entries.now)) }
{
    let mut refs = PartRefs::empty(alloc);
    let mut next = off;
    let mut left = entries;
    while let [listed, rest @ ..] = left {
        let size = entry_size(alloc, listed)?;
        refs.push(PartRef {
            key: listed.key().copy(alloc)?,
            dir_off: next,
            dir_len: size,
        })?;
        next = further(next, size as usize)?;
        left = rest;
    }
    Ok(refs)
}

// How many bytes of the directory a partition and its blocks take.
fn entry_size(alloc: Global, listed: &Listed) -> Result<u32, AllocError>
    ensures size { IfOk result (λ size. size ≡ length (flat_map item_code (entry_items listed.now))) }
    ensures items { IfOk result (λ _. AllByRecursion IsItem (entry_items listed.now)) }
{
    let mut out = Vec::new(alloc);
    spell_entry(alloc, listed, &mut out)?;
    short(out.len())
}
