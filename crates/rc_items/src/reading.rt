//! Items at the front of bytes, read.

ghost use Rattle.std.specs.Prelude.{◌≡◌, ◌≤◌, ◌∷◌, ◌++◌, ℕ, List, IfOk, IfSome, MatchOption, length};
ghost use Rattle.std.specs.Option.{option_map};
ghost use Rattle.rc_position.specs.Position.{IsPartKey};
ghost use Rattle.rc_rowcode.specs.calls.Reading.{parse_length};
ghost use Rattle.rc_rowcode.specs.Spelling.{optional_code, tomb_code, key_code, pos_code, row_code, IsTomb, IsKey, IsPos, IsCodedRow, KeyFits};
ghost use Rattle.rc_items.specs.Items.{item_code, HeadItem, ChangeItem, RowItem, IsItem, bytes_code};
ghost use Rattle.rc_items.specs.Reading.{Starts, part_item};
ghost use Rattle.rc_items.specs.calls.Reading.{head_code, part_code, text_code, HasText, IsHead, IsPart};

use crate::spelling::{CHANGE, PART, ROW};
use rc_cell::{Row, Tomb};
use rc_mutation::Head;
use rc_position::{Key, LONGEST_PARTITION_KEY, PartKey, Pos};
use rc_rowcode::{read_key, read_pos, read_row, read_tomb};
use rc_schema::{Schema, SchemaTextErr};
use std::alloc::{AllocError, Global};

/// A partition's part: its key, tombstone and static row.
#[derive(Drop)]
pub struct Part {
    /// The partition's key.
    pub key: PartKey,
    /// Its tombstone and its static row.
    pub head: Head,
}

/// What follows a byte that the bytes begin with; none exactly where they begin with another, or are none.
pub fn behind(byte: u8, bytes: &[u8]) -> Option<&[u8]>
    ensures { MatchOption result ((rest : List ℕ) → bytes.now ≡ byte ∷ rest → ⊥) (λ rest. bytes.now ≡ byte ∷ rest.now) }
{
    match bytes {
        [] => None,
        [first, rest @ ..] => { if *first == byte { Some(rest) } else { None } }
    }
}

// What follows the bytes that a table begins with.
fn behind_head(bytes: &[u8]) -> Option<&[u8]>
    ensures { MatchOption result ((rest : List ℕ) → bytes.now ≡ 82 ∷ 67 ∷ 84 ∷ 49 ∷ rest → ⊥) (λ rest. bytes.now ≡ 82 ∷ 67 ∷ 84 ∷ 49 ∷ rest.now) }
{
    let rest = behind(b'R', bytes)?;
    let rest = behind(b'C', rest)?;
    let rest = behind(b'T', rest)?;
    behind(b'1', rest)
}

// A tombstone, where there is one, and the length of its code.
fn read_optional_tomb(
    alloc: Global,
    bytes: &[u8],
) -> Result<Option<(Option<Tomb>, usize)>, AllocError>
    ensures value { IfOk result (λ found. Starts (optional_code tomb_code) (λ o. IfSome o IsTomb) bytes.now found) }
    ensures within { IfOk result (λ found. IfSome found (λ x. x.1 ≤ length bytes.now)) }
{
    if let Some(_rest) = behind(0, bytes) {
        return Ok(Some((None, 1)));
    }
    let Some(rest) = behind(1, bytes) else {
        return Ok(None);
    };
    let Some((tomb, size)) = read_tomb(alloc, rest)? else {
        return Ok(None);
    };
    Ok(Some((Some(tomb), 1 + size)))
}

/// The partition key that the bytes begin with, behind its length, and the length of both; none exactly where they begin with
/// no partition key. The only error is want of memory.
pub fn read_part_key(alloc: Global, bytes: &[u8]) -> Result<Option<(PartKey, usize)>, AllocError>
    ensures value { IfOk result (λ found. Starts bytes_code IsPartKey bytes.now found) }
    ensures within { IfOk result (λ found. IfSome found (λ x. x.1 ≤ length bytes.now)) }
{
    let Some((first, rest)) = bytes.split_first() else {
        return Ok(None);
    };
    let len = *first as usize;
    if len < 1 || len > LONGEST_PARTITION_KEY || len > rest.len() {
        return Ok(None);
    }
    let key = PartKey::from_slice(alloc, &rest[..len])?;
    Ok(Some((key, 1 + len)))
}

// A tombstone, where there is one, and a row behind it.
fn read_part_head(alloc: Global, bytes: &[u8]) -> Result<Option<(Head, usize)>, AllocError>
    ensures value { IfOk result (λ found. Starts head_code IsHead bytes.now found) }
    ensures within { IfOk result (λ found. IfSome found (λ x. x.1 ≤ length bytes.now)) }
{
    let Some((pt, tomb_size)) = read_optional_tomb(alloc, bytes)? else {
        return Ok(None);
    };
    let Some((statics, row_size)) = read_row(alloc, &bytes[tomb_size..])? else {
        return Ok(None);
    };
    Ok(Some((Head { pt, statics }, tomb_size + row_size)))
}

// What stands in a part behind its first byte.
fn read_part_rest(alloc: Global, bytes: &[u8]) -> Result<Option<(Part, usize)>, AllocError>
    ensures value { IfOk result (λ found. Starts part_code IsPart bytes.now found) }
    ensures within { IfOk result (λ found. IfSome found (λ x. x.1 ≤ length bytes.now)) }
{
    let Some((key, key_size)) = read_part_key(alloc, bytes)? else {
        return Ok(None);
    };
    let Some((head, head_size)) = read_part_head(alloc, &bytes[key_size..])? else {
        return Ok(None);
    };
    Ok(Some((Part { key, head }, key_size + head_size)))
}

/// The part that the bytes begin with, and its length; none exactly where they begin with no part. The only error is want
/// of memory.
pub fn read_part(alloc: Global, bytes: &[u8]) -> Result<Option<(Part, usize)>, AllocError>
    ensures value { IfOk result (λ found. Starts (λ p. item_code (part_item p)) (λ p. IsItem (part_item p)) bytes.now found) }
    ensures within { IfOk result (λ found. IfSome found (λ x. x.1 ≤ length bytes.now)) }
{
    let Some(rest) = behind(PART, bytes) else {
        return Ok(None);
    };
    let Some((part, size)) = read_part_rest(alloc, rest)? else {
        return Ok(None);
    };
    Ok(Some((part, 1 + size)))
}

// A key and a row behind each other.
fn read_keyed(alloc: Global, bytes: &[u8]) -> Result<Option<((Key, Row), usize)>, AllocError>
    ensures value { IfOk result (λ found. Starts (λ e. key_code e.0 ++ row_code e.1) (λ e. IsKey e.0 × IsCodedRow e.1) bytes.now found) }
    ensures limits { IfOk result (λ found. IfSome found (λ x. KeyFits x.0.0)) }
    ensures within { IfOk result (λ found. IfSome found (λ x. x.1 ≤ length bytes.now)) }
{
    let Some((key, key_size)) = read_key(alloc, bytes)? else {
        return Ok(None);
    };
    let Some((row, row_size)) = read_row(alloc, &bytes[key_size..])? else {
        return Ok(None);
    };
    Ok(Some(((key, row), key_size + row_size)))
}

/// The row that the bytes begin with, its key, and the length of the item; none exactly where they begin with no row. The
/// only error is want of memory.
pub fn read_row_item(alloc: Global, bytes: &[u8]) -> Result<Option<((Key, Row), usize)>, AllocError>
    ensures value { IfOk result (λ found. Starts (λ e. item_code (RowItem e.0 e.1)) (λ e. IsItem (RowItem e.0 e.1)) bytes.now found) }
    ensures limits { IfOk result (λ found. IfSome found (λ x. KeyFits x.0.0)) }
    ensures within { IfOk result (λ found. IfSome found (λ x. x.1 ≤ length bytes.now)) }
{
    let Some(rest) = behind(ROW, bytes) else {
        return Ok(None);
    };
    let Some((keyed, size)) = read_keyed(alloc, rest)? else {
        return Ok(None);
    };
    Ok(Some((keyed, 1 + size)))
}

// A position and an optional tombstone behind each other.
fn read_change_rest(
    alloc: Global,
    bytes: &[u8],
) -> Result<Option<((Pos, Option<Tomb>), usize)>, AllocError>
    ensures value { IfOk result (λ found. Starts (λ c. pos_code c.0 ++ optional_code tomb_code c.1) (λ c. IsPos c.0 × IfSome c.1 IsTomb) bytes.now found) }
    ensures limits { IfOk result (λ found. IfSome found (λ x. KeyFits x.0.0.prefix)) }
    ensures within { IfOk result (λ found. IfSome found (λ x. x.1 ≤ length bytes.now)) }
{
    let Some((x, pos_size)) = read_pos(alloc, bytes)? else {
        return Ok(None);
    };
    let Some((tomb, tomb_size)) = read_optional_tomb(alloc, &bytes[pos_size..])? else {
        return Ok(None);
    };
    Ok(Some(((x, tomb), pos_size + tomb_size)))
}

/// The change that the bytes begin with, and the length of the item; none exactly where they begin with no change. The only
/// error is want of memory.
pub fn read_change(
    alloc: Global,
    bytes: &[u8],
) -> Result<Option<((Pos, Option<Tomb>), usize)>, AllocError>
    ensures value { IfOk result (λ found. Starts (λ c. item_code (ChangeItem c.0 c.1)) (λ c. IsItem (ChangeItem c.0 c.1)) bytes.now found) }
    ensures limits { IfOk result (λ found. IfSome found (λ x. KeyFits x.0.0.prefix)) }
    ensures within { IfOk result (λ found. IfSome found (λ x. x.1 ≤ length bytes.now)) }
{
    let Some(rest) = behind(CHANGE, bytes) else {
        return Ok(None);
    };
    let Some((change, size)) = read_change_rest(alloc, rest)? else {
        return Ok(None);
    };
    Ok(Some((change, 1 + size)))
}

// A number in two bytes, and what follows them.
#[tactic(auto, unfolding(rc_rowcode::specs::calls::Reading::parse_length))]
fn length_at(bytes: &[u8]) -> Option<(usize, &[u8])>
    ensures { option_map (λ x. (x.0, x.1.now)) result ≡ parse_length bytes.now }
{
    let (front, rest) = bytes.split_at_checked(2)?;
    Some((u16::from_le_bytes([front[0], front[1]]) as usize, rest))
}

// A schema's text behind its length, and the length of both.
fn read_schema_text(alloc: Global, bytes: &[u8]) -> Result<Option<(Schema, usize)>, AllocError>
    ensures value { IfOk result (λ found. Starts text_code HasText bytes.now found) }
    ensures within { IfOk result (λ found. IfSome found (λ x. x.1 ≤ length bytes.now)) }
{
    let Some((len, rest)) = length_at(bytes) else {
        return Ok(None);
    };
    if rest.len() < len {
        return Ok(None);
    }
    match Schema::read(alloc, &rest[..len]) {
        Ok(schema) => Ok(Some((schema, 2 + len))),
        Err(SchemaTextErr::Malformed) => Ok(None),
        Err(SchemaTextErr::NoMemory) => Err(AllocError),
    }
}

/// The schema of the head that the bytes begin with, and the head's length; none exactly where they begin with no head. The
/// only error is want of memory.
pub fn read_head(alloc: Global, bytes: &[u8]) -> Result<Option<(Schema, usize)>, AllocError>
    ensures value { IfOk result (λ found. Starts (λ z. item_code (HeadItem z)) (λ z. IsItem (HeadItem z)) bytes.now found) }
    ensures within { IfOk result (λ found. IfSome found (λ x. x.1 ≤ length bytes.now)) }
{
    let Some(rest) = behind_head(bytes) else {
        return Ok(None);
    };
    let Some((schema, size)) = read_schema_text(alloc, rest)? else {
        return Ok(None);
    };
    Ok(Some((schema, 4 + size)))
}
