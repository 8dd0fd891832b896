//! Tables that are written.

ghost use Rattle.std.specs.Prelude.{◌≡◌, IsTrue};
ghost use Rattle.rc_outside.specs.Files.{IsNoFile};
ghost use Rattle.rc_tfile.specs.TableText.{PartsFit};

use crate::stores::Failing;
use crate::telling::tell_info;
use rc_cell::{Cells, Row};
use rc_mutation::{Mutation, Partition};
use rc_outside::{MemStore, Store};
use rc_position::{Comp, Key, PartKey};
use rc_schema::Schema;
use rc_tfile::{part_fits, plan_table, write_table};
use std::alloc::{AllocError, Global};

/// The timestamp of each row's marker.
const STAMP: i64 = 10;

// The row of a number joined to what is written.
fn join_row(alloc: Global, change: &mut Mutation, number: i64) -> Result<(), AllocError> {
    let row = Row {
        marker: Some(STAMP),
        tomb: None,
        cells: Cells::empty(alloc),
    };
    let key = Key::from_slice(alloc, &[Comp::Int(number)])?;
    change.rows.join_row(alloc, &key, &row)
}

/// The partition `p` of the rows from one number up to before another one.
pub(crate) fn part_of(alloc: Global, first: i64, last: i64) -> Result<Partition, AllocError> {
    let mut change = Mutation::empty(alloc);
    for number in first..last {
        join_row(alloc, &mut change, number)?;
    }
    let key = PartKey::from_slice(alloc, b"p")?;
    Ok(Partition { key, change })
}

// Whether these are no partition, or one that a table of the schema can hold.
fn fit(parts: &[Partition], schema: &Schema) -> bool
    ensures { IsTrue result → PartsFit schema.now parts.now }
{
    match parts {
        [] => true,
        [part] => part_fits(part, schema),
        _ => false,
    }
}

// Tells the plan of the table of partitions.
fn tell_plan(
    alloc: Global,
    parts: &[Partition],
    schema: &Schema,
    text: &mut String,
) -> Result<(), AllocError>
    requires { PartsFit schema.now parts.now }
{
    let plan = plan_table(alloc, parts, schema, 1)?;
    tell_info(&plan, text)?;
    text.push_str("\n")
}

// Writes the table of partitions as file 1; whether it was written.
fn write<W: Store>(alloc: Global, parts: &[Partition], schema: &Schema, store: &mut W) -> bool
    requires fit { PartsFit schema.now parts.now }
    requires fresh { IsNoFile (W.files store.old) 1 }
{
    write_table(alloc, parts, schema, store, 1).is_ok()
}

// The bytes of file 1, where there is one.
fn bytes_of(alloc: Global, store: &MemStore) -> Result<Option<Vec<u8>>, AllocError> {
    match store.file(1) {
        Some(bytes) => Ok(Some(Vec::from_slice(alloc, bytes)?)),
        None => Ok(None),
    }
}

// Writes the table of partitions as file 1 of a store that has none, and tells its plan; whether they fit.
fn tell_written(
    alloc: Global,
    parts: &[Partition],
    schema: &Schema,
    store: &mut MemStore,
    text: &mut String,
) -> Result<bool, AllocError> {
    if !fit(parts, schema) || store.file(1).is_some() {
        return Ok(false);
    }
    tell_plan(alloc, parts, schema, text)?;
    if !write(alloc, parts, schema, store) {
        text.push_str("not written\n")?;
    }
    Ok(true)
}

/// The bytes of the table of partitions, of which the plan is told; none where it is not written, and then there is no file.
pub(crate) fn written(
    alloc: Global,
    parts: &[Partition],
    schema: &Schema,
    failing: Option<Failing>,
    text: &mut String,
) -> Result<Option<Vec<u8>>, AllocError> {
    let mut store = MemStore::new(alloc)?;
    if let Some(failing) = failing {
        store.fail_nth(failing.call, failing.nth)?;
    }
    tell_written(alloc, parts, schema, &mut store, text)?;
    bytes_of(alloc, &store)
}
