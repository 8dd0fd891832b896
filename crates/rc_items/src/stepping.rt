//! One item after another of a table that is checked.

ghost use Rattle.std.specs.Prelude.{◌≡◌, ◌↔◌, ◌≢◌, IfOk, IfSome, IsSome, IsTrue, List, ℕ, ◌∷◌, false, true};
ghost use Rattle.std.specs.declared.cmp.Ordering.TheVariants.{Less};
ghost use Rattle.rc_position.specs.Position.{bytes_cmp, pos_cmp};
ghost use Rattle.rc_cell.specs.Winner.{empty_row};
ghost use Rattle.rc_writes.specs.Allowed.{IsRowOf};
ghost use Rattle.rc_items.specs.Before.{ItemsBefore};
ghost use Rattle.rc_items.specs.Outlined.{IsOutline};
ghost use Rattle.rc_items.specs.Stepping.{IsNextItem};

use crate::outline::{Outline, row_pos};
use crate::reading::{behind, read_change, read_part, read_row_item};
use crate::spelling::{CHANGE, END, ROW, STOP};
use rc_cell::{Row, Tomb};
use rc_position::{Key, PartKey, Pos};
use rc_schema::Schema;
use rc_writes::{is_bound_of, is_row_of, is_static_of};
use std::alloc::{AllocError, Global};

/// What the next item is.
#[derive(Clone, Copy)]
pub enum Next {
    /// An item that fits, of so many bytes.
    Fits(usize),
    /// The stop.
    Stops,
    /// None that fits and is whole.
    Unfit,
}

/// The item at the front of the bytes, which is taken into the outline where it fits. The only error is want of memory.
pub fn next_item(
    alloc: Global,
    bytes: &[u8],
    schema: &Schema,
    outline: &mut Outline,
) -> Result<Next, AllocError>
    ensures { (before : ItemsBefore) → IsOutline before outline.old → IfOk result (λ next. IsNextItem schema.now before bytes.now outline.new next) }
{
    if outline.is_inside() {
        next_inside(alloc, bytes, schema, outline)
    } else {
        next_between(alloc, bytes, schema, outline)
    }
}

// Between two partitions: a part or the stop.
fn next_between(
    alloc: Global,
    bytes: &[u8],
    schema: &Schema,
    outline: &mut Outline,
) -> Result<Next, AllocError>
    ensures { (before : ItemsBefore) → IsOutline before outline.old → outline.old.inside ≡ false → IfOk result (λ next. IsNextItem schema.now before bytes.now outline.new next) }
{
    if let Some(_rest) = behind(STOP, bytes) {
        outline.stop()?;
        return Ok(Next::Stops);
    }
    next_part(alloc, bytes, schema, outline)
}

// Inside a partition: a row, a change or the end.
fn next_inside(
    alloc: Global,
    bytes: &[u8],
    schema: &Schema,
    outline: &mut Outline,
) -> Result<Next, AllocError>
    requires { IsSome outline.old.key }
    ensures { (before : ItemsBefore) → IsOutline before outline.old → outline.old.inside ≡ true → IfOk result (λ next. IsNextItem schema.now before bytes.now outline.new next) }
{
    if let Some(_rest) = behind(ROW, bytes) {
        return next_row(alloc, bytes, schema, outline);
    }
    if let Some(_rest) = behind(CHANGE, bytes) {
        return next_change(alloc, bytes, schema, outline);
    }
    if let Some(_rest) = behind(END, bytes) {
        return next_end(alloc, bytes, schema, outline);
    }
    Ok(Next::Unfit)
}

// A part, whose key is greater than the one before.
fn next_part(
    alloc: Global,
    bytes: &[u8],
    schema: &Schema,
    outline: &mut Outline,
) -> Result<Next, AllocError>
    requires { (rest : List ℕ) → bytes.now ≡ 5 ∷ rest → ⊥ }
    ensures { (before : ItemsBefore) → IsOutline before outline.old → outline.old.inside ≡ false → IfOk result (λ next. IsNextItem schema.now before bytes.now outline.new next) }
{
    let Some((part, size)) = read_part(alloc, bytes)? else {
        return Ok(Next::Unfit);
    };
    if !is_next_key(&outline.key, &part.key) {
        return Ok(Next::Unfit);
    }
    if !is_static_of(schema, &part.head.statics) {
        return Ok(Next::Unfit);
    }
    outline.part(alloc, &part.key, size)?;
    Ok(Next::Fits(size))
}

// A row, which stands behind the fragment before and is a row of the schema, and not empty.
fn next_row(
    alloc: Global,
    bytes: &[u8],
    schema: &Schema,
    outline: &mut Outline,
) -> Result<Next, AllocError>
    requires bytes { (rest : List ℕ) × (bytes.now ≡ 2 ∷ rest) }
    requires opened { IsSome outline.old.key }
    ensures { (before : ItemsBefore) → IsOutline before outline.old → outline.old.inside ≡ true → IfOk result (λ next. IsNextItem schema.now before bytes.now outline.new next) }
{
    let Some((keyed, size)) = read_row_item(alloc, bytes)? else {
        return Ok(Next::Unfit);
    };
    if !is_written_of(schema, &keyed.0, &keyed.1) {
        return Ok(Next::Unfit);
    }
    let x = row_pos(alloc, &keyed.0)?;
    if !is_next_pos(&outline.last, &x) {
        return Ok(Next::Unfit);
    }
    outline.fragment(alloc, &x, outline.tomb, size)?;
    Ok(Next::Fits(size))
}

// A change, which stands behind the fragment before, and changes the tombstone in force.
fn next_change(
    alloc: Global,
    bytes: &[u8],
    schema: &Schema,
    outline: &mut Outline,
) -> Result<Next, AllocError>
    requires bytes { (rest : List ℕ) × (bytes.now ≡ 3 ∷ rest) }
    requires opened { IsSome outline.old.key }
    ensures { (before : ItemsBefore) → IsOutline before outline.old → outline.old.inside ≡ true → IfOk result (λ next. IsNextItem schema.now before bytes.now outline.new next) }
{
    let Some((change, size)) = read_change(alloc, bytes)? else {
        return Ok(Next::Unfit);
    };
    if is_same_tomb(change.1, outline.tomb) {
        return Ok(Next::Unfit);
    }
    if !is_bound_of(schema, &change.0) {
        return Ok(Next::Unfit);
    }
    if !is_next_pos(&outline.last, &change.0) {
        return Ok(Next::Unfit);
    }
    outline.fragment(alloc, &change.0, change.1, size)?;
    Ok(Next::Fits(size))
}

// The end of a partition, where no tombstone is in force.
fn next_end(
    alloc: Global,
    bytes: &[u8],
    schema: &Schema,
    outline: &mut Outline,
) -> Result<Next, AllocError>
    requires bytes { (rest : List ℕ) × (bytes.now ≡ 4 ∷ rest) }
    requires opened { IsSome outline.old.key }
    ensures { (before : ItemsBefore) → IsOutline before outline.old → outline.old.inside ≡ true → IfOk result (λ next. IsNextItem schema.now before bytes.now outline.new next) }
{
    if outline.tomb.is_some() {
        return Ok(Next::Unfit);
    }
    outline.end(alloc)?;
    Ok(Next::Fits(1))
}

// Whether a key is greater than the last one.
fn is_next_key(last: &Option<PartKey>, key: &PartKey) -> bool
    ensures { IsTrue result ↔ IfSome last.now (λ x. bytes_cmp x key.now ≡ Less) }
{
    match last {
        None => true,
        Some(last) => last < key,
    }
}

// Whether a position is greater than the last one.
fn is_next_pos(last: &Option<Pos>, x: &Pos) -> bool
    ensures { IsTrue result ↔ IfSome last.now (λ y. pos_cmp y x.now ≡ Less) }
{
    match last {
        None => true,
        Some(last) => last < x,
    }
}

// Whether a row and its key are of the schema, and something was written of it.
fn is_written_of(schema: &Schema, key: &Key, row: &Row) -> bool
    ensures { IsTrue result ↔ (IsRowOf schema.now key.now row.now × (row.now ≢ empty_row)) }
{
    is_row_of(schema, key, row) && !row.is_empty()
}

// Whether two tombstones are the same, or there is neither.
fn is_same_tomb(tomb: Option<Tomb>, other: Option<Tomb>) -> bool
    ensures { IsTrue result ↔ (tomb ≡ other) }
{
    tomb == other
}
