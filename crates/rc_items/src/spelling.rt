//! Items appended to bytes: one function for each sort. The only error of each is want of memory.

ghost use Rattle.std.specs.Prelude.{◌≡◌, ◌<◌, ◌^◌, ◌++◌, length, OnOk};
ghost use Rattle.rc_schema.specs.SchemaText.{schema_text};
ghost use Rattle.rc_rowcode.specs.Spelling.{length_code, time_code, optional_code, tomb_code, KeyFits, RowFits};
ghost use Rattle.rc_items.specs.Items.{offset_code, item_code, HeadItem, PartItem, RowItem, ChangeItem, EntryItem, BlockItem, TailItem, IsItem, bytes_code};

use crate::blocks::Block;
use rc_cell::{Row, Tomb};
use rc_position::{Key, PartKey, Pos, Text};
use rc_rowcode::{write_key, write_pos, write_row, write_tomb};
use rc_schema::Schema;
use std::alloc::{AllocError, Global};

/// The bytes that a table begins with.
const HEAD: &[u8] = b"RCT1";

/// The bytes that a table ends with.
const TAIL: &[u8] = b"RCTE";

/// What a part begins with.
pub(crate) const PART: u8 = 1;

/// What a row begins with.
pub(crate) const ROW: u8 = 2;

/// What a change of the tombstone in force begins with.
pub(crate) const CHANGE: u8 = 3;

/// The end of a partition: all of it.
pub const END: u8 = 4;

/// The stop behind the last partition: all of it.
pub const STOP: u8 = 5;

/// What a partition in the directory begins with.
const ENTRY: u8 = 6;

/// What a block in the directory begins with.
const BLOCK: u8 = 7;

#[tactic(auto, unfolding(crate::specs::Items::offset_code))]
fn append_offset(off: u64, out: &mut Vec<u8>) -> Result<(), AllocError>
    ensures code { OnOk result (out.new.items ≡ out.old.items ++ offset_code off) }
    ensures width { off < 2 ^ 64 }
{
    out.extend_from_slice(&off.to_le_bytes())
}

#[tactic(auto, unfolding(rc_rowcode::specs::Spelling::time_code))]
fn append_count(count: u32, out: &mut Vec<u8>) -> Result<(), AllocError>
    ensures code { OnOk result (out.new.items ≡ out.old.items ++ time_code count) }
    ensures width { count < 2 ^ 32 }
{
    out.extend_from_slice(&count.to_le_bytes())
}

#[tactic(auto, unfolding(rc_rowcode::specs::Spelling::length_code))]
fn append_length(len: u16, out: &mut Vec<u8>) -> Result<(), AllocError>
    ensures { OnOk result (out.new.items ≡ out.old.items ++ length_code len) }
{
    out.extend_from_slice(&len.to_le_bytes())
}

// A partition key behind its length in one byte.
fn append_part_key(key: &PartKey, out: &mut Vec<u8>) -> Result<(), AllocError>
    ensures { OnOk result (out.new.items ≡ out.old.items ++ bytes_code key.now) }
{
    let bytes = key.as_slice();
    out.push(bytes.len() as u8)?;
    out.extend_from_slice(bytes)
}

// A tombstone, where there is one.
fn append_tomb(alloc: Global, tomb: Option<Tomb>, out: &mut Vec<u8>) -> Result<(), AllocError>
    ensures { OnOk result (out.new.items ≡ out.old.items ++ optional_code tomb_code tomb) }
{
    match tomb {
        None => Ok(out.push(0)?),
        Some(tomb) => {
            out.push(1)?;
            write_tomb(alloc, &tomb, out)
        }
    }
}

/// The length of a schema's text: at most 1,354 bytes.
fn text_length(schema: &Schema, text: &Text) -> u16
    requires { text.now ≡ schema_text schema.now }
    ensures length { result ≡ length text.now }
    ensures short { length (schema_text schema.now) < 2 ^ 16 }
{
    let _within_limits = schema.ck();
    text.as_slice().len() as u16
}

/// Appends the head of a table of the schema. The only error is want of memory.
pub fn append_head(alloc: Global, schema: &Schema, out: &mut Vec<u8>) -> Result<(), AllocError>
    ensures ok { OnOk result (out.new.items ≡ out.old.items ++ item_code (HeadItem schema.now)) }
    ensures short { OnOk result (length (schema_text schema.now) < 2 ^ 16) }
{
    let text = schema.text(alloc)?;
    let length = text_length(schema, &text);
    out.extend_from_slice(HEAD)?;
    append_length(length, out)?;
    out.extend_from_slice(text.as_slice())
}

/// Appends the part of a partition: its key, tombstone and static row. The only error is want of memory.
pub fn append_part(
    alloc: Global,
    key: &PartKey,
    pt: Option<Tomb>,
    statics: &Row,
    out: &mut Vec<u8>,
) -> Result<(), AllocError>
    requires { RowFits statics.now }
    ensures { OnOk result (out.new.items ≡ out.old.items ++ item_code (PartItem key.now pt statics.now)) }
{
    out.push(PART)?;
    append_part_key(key, out)?;
    append_tomb(alloc, pt, out)?;
    write_row(alloc, statics, out)
}

/// Appends a row, with its key. The only error is want of memory.
pub fn append_row(alloc: Global, key: &Key, row: &Row, out: &mut Vec<u8>) -> Result<(), AllocError>
    requires key { KeyFits key.now }
    requires row { RowFits row.now }
    ensures { OnOk result (out.new.items ≡ out.old.items ++ item_code (RowItem key.now row.now)) }
{
    out.push(ROW)?;
    write_key(alloc, key, out)?;
    write_row(alloc, row, out)
}

/// Appends a change of the tombstone in force. The only error is want of memory.
pub fn append_change(
    alloc: Global,
    x: &Pos,
    tomb: Option<Tomb>,
    out: &mut Vec<u8>,
) -> Result<(), AllocError>
    requires { KeyFits x.now.prefix }
    ensures { OnOk result (out.new.items ≡ out.old.items ++ item_code (ChangeItem x.now tomb)) }
{
    out.push(CHANGE)?;
    write_pos(alloc, x, out)?;
    append_tomb(alloc, tomb, out)
}

/// Appends a partition's item of the directory: its key, the offset of its part and how many blocks it has. The only error is
/// want of memory.
pub fn append_entry(
    key: &PartKey,
    off: u64,
    blocks: u32,
    out: &mut Vec<u8>,
) -> Result<(), AllocError>
    ensures { OnOk result (out.new.items ≡ out.old.items ++ item_code (EntryItem key.now off blocks)) }
{
    out.push(ENTRY)?;
    append_part_key(key, out)?;
    append_offset(off, out)?;
    append_count(blocks, out)
}

/// Appends a block's item of the directory. The only error is want of memory.
pub fn append_block(alloc: Global, block: &Block, out: &mut Vec<u8>) -> Result<(), AllocError>
    requires { KeyFits block.now.first.prefix }
    ensures code { OnOk result (out.new.items ≡ out.old.items ++ item_code (BlockItem block.now)) }
    ensures fits { OnOk result (IsItem (BlockItem block.now)) }
{
    out.push(BLOCK)?;
    append_offset(block.off, out)?;
    append_count(block.len, out)?;
    append_tomb(alloc, block.tomb, out)?;
    write_pos(alloc, &block.first, out)
}

/// Appends the tail: the offset of the first directory item, and how many partitions there are. The only error is want of
/// memory.
pub fn append_tail(off: u64, parts: u32, out: &mut Vec<u8>) -> Result<(), AllocError>
    ensures { OnOk result (out.new.items ≡ out.old.items ++ item_code (TailItem off parts)) }
{
    append_offset(off, out)?;
    append_count(parts, out)?;
    out.extend_from_slice(TAIL)
}
