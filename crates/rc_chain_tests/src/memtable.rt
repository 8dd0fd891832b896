//! A write that is applied, seen and let go: tests of `rc_memtable`.
ghost use Rattle.std.specs.Prelude.{List as Sequence, [], OnOk};
ghost use Rattle.rc_schema.specs.SchemaValue.{SchemaValue};
ghost use Rattle.rc_mutation.specs.declared.mutations.Write.{Write as Written};
ghost use Rattle.rc_memtable.specs.Writes.{HasWrites};

use crate::objects::takes;
use crate::values::{inserted, key_at};
use rc_chain::Chains;
use rc_memtable::Memtable;
use rc_mutation::{Mutation, Rows, Write};
use rc_position::PartKey;
use rc_schema::Schema;
use rc_writes::{change_fits, is_single};
use std::alloc::{AllocError, Global};
use std::test::Fail;

// A row that was inserted at the key 7, and nothing else.
fn change(alloc: Global) -> Result<Mutation, AllocError> {
    let key = key_at(alloc, 7)?;
    let rows = Rows::of_one(alloc, key, inserted(alloc))?;
    let mut change = Mutation::empty(alloc);
    change.rows = rows;
    Ok(change)
}

// The same of a partition.
fn written(alloc: Global) -> Result<Write, AllocError> {
    let key = PartKey::from_slice(alloc, b"p")?;
    let change = change(alloc)?;
    Ok(Write { key, change })
}

// Applies a write, where it is to one place, fits the schema and has room; whether it was.
fn put(
    alloc: Global,
    memtable: &mut Memtable,
    chains: &mut Chains<4096>,
    schema: &Schema,
    w: &Write,
) -> Result<bool, AllocError>
    requires { (writes : Sequence Written) × HasWrites schema.now memtable.old chains.old writes }
    ensures { OnOk result ((writes : Sequence Written) × HasWrites schema.now memtable.new chains.new writes) }
{
    if schema.largest_entry() > 512 || schema.largest_static() > 512 {
        return Ok(false);
    }
    if !is_single(&w.change) || !change_fits(&w.change, schema) {
        return Ok(false);
    }
    if chains.region().spare() < memtable.need(chains, schema, w) {
        return Ok(false);
    }
    memtable.apply(alloc, chains, schema, w)?;
    Ok(true)
}

// Writes an inserted row, under a schema of one clustering number and one column.
fn write_inserted(
    alloc: Global,
    memtable: &mut Memtable,
    chains: &mut Chains<4096>,
) -> Result<bool, AllocError>
    requires { (schema : SchemaValue) → HasWrites schema memtable.old chains.old [] }
    ensures { OnOk result ((schema : SchemaValue) × (writes : Sequence Written) × HasWrites schema memtable.new chains.new writes) }
{
    let w = written(alloc)?;
    match Schema::read(alloc, b"ck=int static=- cols=a") {
        Ok(schema) => put(alloc, memtable, chains, &schema, &w),
        Err(_) => Ok(false),
    }
}

// Whether a memtable has one partition, and that one row.
fn has_one_row(
    alloc: Global,
    memtable: &Memtable,
    chains: &mut Chains<4096>,
) -> Result<bool, AllocError>
    requires { (schema : SchemaValue) × (writes : Sequence Written) × HasWrites schema memtable.now chains.old writes }
    ensures { (schema : SchemaValue) (writes : Sequence Written) → HasWrites schema memtable.now chains.old writes → HasWrites schema memtable.now chains.new writes }
{
    let parts = memtable.partitions(alloc, chains)?;
    match parts.as_slice() {
        [part] => Ok(part.change.rows.as_slice().len() == 1),
        _ => Ok(false),
    }
}

// Whether one row that is written is there, in three objects.
fn is_three_objects(
    alloc: Global,
    memtable: &mut Memtable,
    chains: &mut Chains<4096>,
) -> Result<bool, AllocError>
    requires { (schema : SchemaValue) → HasWrites schema memtable.old chains.old [] }
    ensures { OnOk result ((schema : SchemaValue) × (writes : Sequence Written) × HasWrites schema memtable.new chains.new writes) }
{
    let written = write_inserted(alloc, memtable, chains)?;
    let three = !memtable.is_empty() && takes(chains.region(), 3, 256);
    let one = has_one_row(alloc, memtable, chains)?;
    Ok(written && three && one)
}

// A version with one row inserted, whose position and row have codes of 11 bytes each, is three objects in 256 bytes; let go, none is left.
#[test]
fn an_inserted_row_takes_three_objects(rt: HostRuntime) -> Result<(), Fail> {
    let mut chains = Chains::<4096>::open(rt.alloc(), 4)?;
    let mut memtable = Memtable::new(rt.alloc());
    assert!(rt; memtable.is_empty());
    assert!(rt; is_three_objects(rt.alloc(), &mut memtable, &mut chains)?);
    memtable.drop_all(&mut chains);
    assert!(rt; memtable.is_empty() && takes(chains.region(), 0, 0));
    Ok(())
}
