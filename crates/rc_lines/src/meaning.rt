//! What a line means under a schema.

ghost use Rattle.std.specs.Prelude.{◌≡◌, [], ◌∷◌, IfOk, IsTrue, None, Some, false, if◌then◌else◌, nat_lt};
ghost use Rattle.std.specs.List.{list_all};
ghost use Rattle.rc_position.specs.Position.{IsBefore};
ghost use Rattle.rc_schema.specs.Checks.{column_count, fits_kinds};
ghost use Rattle.rc_lines.specs.declared.shapes.Change.TheVariants.{OfRow, OfStatic, OfRange, OfPartition};
ghost use Rattle.rc_lines.specs.declared.shapes.Shape.TheVariants.{Open, Written};
ghost use Rattle.rc_lines.specs.UnderSchema.{is_partition_key};
ghost use Rattle.rc_lines.specs.calls.ShapeMeaning.{are_short, have_short_values, is_short_slice, rows_said, change_meaning, meaning};

use crate::columns::{are_columns, cells_by_column};
use crate::commands::{Command, Refusal};
use crate::keys::{full_key, slice};
use crate::shapes::{Bound, Change, Named, Pieces, Shape};
use rc_cell::{Row, Tomb};
use rc_mutation::{Mutation, Rows, Statics, Write};
use rc_position::{Key, LONGEST_PARTITION_KEY, PartKey, Slice, Text};
use rc_ranges::{Piece, Ranges};
use rc_schema::Schema;
use std::alloc::{AllocError, Global};

/// The partition key of these bytes, where there are 1 to 64.
fn part_key(alloc: Global, key: &[u8]) -> Result<Option<PartKey>, AllocError>
    ensures { IfOk result (λ found. found ≡ (if is_partition_key key.now then Some key.now else None)) }
{
    if key.is_empty() || key.len() > LONGEST_PARTITION_KEY {
        return Ok(None);
    }
    let key = PartKey::from_slice(alloc, key)?;
    Ok(Some(key))
}

/// Whether each text component of a key, or of a prefix where it need not be full, is within the limits.
#[tactic(auto, unfolding(rc_schema::specs::Checks::checked_prefix))]
fn is_short_key(schema: &Schema, key: &Key, full: bool) -> bool
    requires { IsTrue (fits_kinds full schema.now.ck key.now) }
    ensures { result ≡ are_short key.now }
{
    schema.check_prefix(key, full).is_ok()
}

/// Whether each text component of both bounds is within the limits.
fn is_short_slice(schema: &Schema, slice: &Slice) -> bool
    requires first { IsTrue (fits_kinds false schema.now.ck slice.now.from.prefix) }
    requires last { IsTrue (fits_kinds false schema.now.ck slice.now.to.prefix) }
    ensures { result ≡ is_short_slice slice.now }
{
    is_short_key(schema, &slice.from.prefix, false) && is_short_key(schema, &slice.to.prefix, false)
}

/// Whether each value of a row is within the limits.
#[tactic(auto, unfolding(rc_schema::specs::Checks::checked_cells))]
fn is_short_row(schema: &Schema, row: &Row, is_static: bool) -> bool
    requires { IsTrue (list_all (λ e. nat_lt e.0 (column_count is_static schema.now)) row.now.cells) }
    ensures { result ≡ have_short_values row.now.cells }
{
    schema.check_row(row, is_static).is_ok()
}

/// The row of a key, if something is written of it.
fn rows(alloc: Global, key: Key, row: Row) -> Result<Rows, AllocError>
    ensures { IfOk result (λ rows. rows ≡ rows_said key row) }
{
    if row.is_empty() {
        return Ok(Rows::empty(alloc));
    }
    Rows::of_one(alloc, key, row)
}

/// What is written to a row.
#[tactic(auto, unfolding(crate::specs::calls::ShapeMeaning::change_meaning))]
fn row_change(
    alloc: Global,
    schema: &Schema,
    ck: &Pieces,
    marker: Option<i64>,
    tomb: Option<Tomb>,
    cells: &Named,
) -> Result<Result<Mutation, Refusal>, AllocError>
    ensures { IfOk result (λ m. m ≡ change_meaning schema.now (OfRow ck.now marker tomb cells.now)) }
{
    let Some(key) = full_key(alloc, ck, schema)? else {
        return Ok(Err(Refusal::WrongKey));
    };
    if !are_columns(schema, false, cells.as_slice()) {
        return Ok(Err(Refusal::UnknownColumn));
    }
    let cells = cells_by_column(alloc, schema, false, cells.as_slice())?;
    let row = Row {
        marker,
        tomb,
        cells,
    };
    if !(is_short_key(schema, &key, true) && is_short_row(schema, &row, false)) {
        return Ok(Err(Refusal::TooLong));
    }
    let mut mutation = Mutation::empty(alloc);
    mutation.rows = rows(alloc, key, row)?;
    Ok(Ok(mutation))
}

/// What is written to the static row.
#[tactic(auto, unfolding(crate::specs::calls::ShapeMeaning::change_meaning))]
fn static_change(
    alloc: Global,
    schema: &Schema,
    cells: &Named,
) -> Result<Result<Mutation, Refusal>, AllocError>
    ensures { IfOk result (λ m. m ≡ change_meaning schema.now (OfStatic cells.now)) }
{
    if !are_columns(schema, true, cells.as_slice()) {
        return Ok(Err(Refusal::UnknownColumn));
    }
    let mut row = Row::empty(alloc);
    row.cells = cells_by_column(alloc, schema, true, cells.as_slice())?;
    if !is_short_row(schema, &row, true) {
        return Ok(Err(Refusal::TooLong));
    }
    let mut mutation = Mutation::empty(alloc);
    mutation.statics = Statics::from_cells(row.cells);
    Ok(Ok(mutation))
}

/// What is written to a range.
#[tactic(auto, unfolding(crate::specs::calls::ShapeMeaning::change_meaning))]
fn range_change(
    alloc: Global,
    schema: &Schema,
    from: &Bound,
    to: &Bound,
    tomb: Tomb,
) -> Result<Result<Mutation, Refusal>, AllocError>
    ensures { IfOk result (λ m. m ≡ change_meaning schema.now (OfRange from.now to.now tomb)) }
{
    let Some(slice) = slice(alloc, from, to, schema)? else {
        return Ok(Err(Refusal::WrongKey));
    };
    if !is_short_slice(schema, &slice) {
        return Ok(Err(Refusal::TooLong));
    }
    let ranges = ranges(alloc, slice, tomb)?;
    let mut mutation = Mutation::empty(alloc);
    mutation.ranges = ranges;
    Ok(Ok(mutation))
}

/// The tombstone of a slice, alone.
fn ranges(alloc: Global, slice: Slice, tomb: Tomb) -> Result<Ranges, AllocError>
    requires { IsBefore slice.from slice.to }
    ensures { IfOk result (λ ranges. ranges ≡ record { from = slice.from; to = slice.to; tomb = tomb } ∷ []) }
{
    let piece = Piece {
        from: slice.from,
        to: slice.to,
        tomb,
    };
    let mut pieces = Vec::new(alloc);
    pieces.push(piece)?;
    Ok(Ranges::from_vec(pieces))
}

/// What is written to the whole partition.
#[tactic(auto, unfolding(crate::specs::calls::ShapeMeaning::change_meaning))]
fn partition_change(alloc: Global, schema: &Schema, tomb: Tomb) -> Result<Mutation, Refusal>
    ensures { result ≡ change_meaning schema.now (OfPartition tomb) }
{
    let mut mutation = Mutation::empty(alloc);
    mutation.pt = Some(tomb);
    Ok(mutation)
}

/// What is written.
fn changed(
    alloc: Global,
    schema: &Schema,
    change: &Change,
) -> Result<Result<Mutation, Refusal>, AllocError>
    ensures { IfOk result (λ m. m ≡ change_meaning schema.now change.now) }
{
    match change {
        Change::OfRow {
            ck,
            marker,
            tomb,
            cells,
        } => row_change(alloc, schema, ck, *marker, *tomb, cells),
        Change::OfStatic(cells) => static_change(alloc, schema, cells),
        Change::OfRange { from, to, tomb } => range_change(alloc, schema, from, to, *tomb),
        Change::OfPartition(tomb) => Ok(partition_change(alloc, schema, *tomb)),
    }
}

/// A write of a key.
#[tactic(auto, using(crate::proofs::Meanings::write_told))]
fn put(
    alloc: Global,
    schema: &Schema,
    key: &Text,
    change: &Change,
) -> Result<Result<Command, Refusal>, AllocError>
    ensures { IfOk result (λ m. m ≡ meaning schema.now (Written key.now change.now)) }
{
    let change = match changed(alloc, schema, change)? {
        Ok(change) => change,
        Err(refusal) => return Ok(Err(refusal)),
    };
    let Some(key) = part_key(alloc, key.as_slice())? else {
        return Ok(Err(Refusal::TooLong));
    };
    Ok(Ok(Command::Put(Write { key, change })))
}

/// A reader of a range of a key.
#[tactic(auto, unfolding(crate::specs::calls::ShapeMeaning::meaning, crate::specs::calls::ShapeMeaning::refusal_of))]
fn open(
    alloc: Global,
    schema: &Schema,
    id: u32,
    key: &Text,
    from: &Bound,
    to: &Bound,
) -> Result<Result<Command, Refusal>, AllocError>
    ensures { IfOk result (λ m. m ≡ meaning schema.now (Open id key.now from.now to.now)) }
{
    let Some(slice) = slice(alloc, from, to, schema)? else {
        return Ok(Err(Refusal::WrongKey));
    };
    if !is_short_slice(schema, &slice) {
        return Ok(Err(Refusal::TooLong));
    }
    let Some(key) = part_key(alloc, key.as_slice())? else {
        return Ok(Err(Refusal::TooLong));
    };
    Ok(Ok(Command::OpenRead { id, key, slice }))
}

/// What a line means.
#[tactic(auto, unfolding(crate::specs::calls::ShapeMeaning::meaning, crate::specs::calls::ShapeMeaning::refusal_of))]
pub(crate) fn meaning(
    alloc: Global,
    schema: &Schema,
    shape: &Shape,
) -> Result<Result<Command, Refusal>, AllocError>
    ensures { IfOk result (λ m. m ≡ meaning schema.now shape.now) }
{
    match shape {
        Shape::Plain(command) => Ok(Ok(command.copy(alloc)?)),
        Shape::Open { id, key, from, to } => open(alloc, schema, *id, key, from, to),
        Shape::Written { key, change } => put(alloc, schema, key, change),
    }
}
