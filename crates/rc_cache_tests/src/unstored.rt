//! Two readers of a partition, one before its writes are sealed and one after: tests of `rc_unstored`.
ghost use Rattle.std.specs.Prelude.{◌≡◌, [], IfOk, IfSome};
ghost use Rattle.rc_schema.specs.SchemaValue.{SchemaValue};
ghost use Rattle.rc_memory.specs.Memory.{HasPin};
ghost use Rattle.rc_chain.specs.declared.chains.Snap.{Snap as Snapshot};
ghost use Rattle.rc_snapshots.specs.Seeing.{AllStillSee, AreThere, StillSees};
ghost use Rattle.rc_unstored.specs.Memtables.{HaveWrites};
ghost use Rattle.rc_unstored.specs.Readers.{IsNoneOf};
ghost use Rattle.rc_cache_tests.specs.Holding.{HaveSome};

use crate::values::written_at;
use rc_mutation::Write;
use rc_position::PartKey;
use rc_schema::Schema;
use rc_snapshots::Snaps;
use rc_unstored::Unstored;
use rc_writes::{change_fits, is_single};
use std::alloc::{AllocError, Global};
use std::test::Fail;

// Puts a write, where it is to one place, fits the schema and has room; whether it was put.
fn put(
    alloc: Global,
    unstored: &mut Unstored<4096>,
    schema: &Schema,
    w: &Write,
) -> Result<bool, AllocError>
    requires { HaveSome schema.now unstored.old }
    ensures stands { HaveSome schema.now unstored.new }
    ensures seen { AllStillSee unstored.old.chains unstored.new.chains }
{
    if schema.largest_entry() > 512 || schema.largest_static() > 512 {
        return Ok(false);
    }
    if !is_single(&w.change) || !change_fits(&w.change, schema) {
        return Ok(false);
    }
    unstored.put(alloc, schema, w)
}

/// Puts an inserted row at a key; whether it was put.
pub fn put_row(
    alloc: Global,
    unstored: &mut Unstored<4096>,
    schema: &Schema,
    at: i64,
) -> Result<bool, AllocError>
    requires { HaveSome schema.now unstored.old }
    ensures stands { HaveSome schema.now unstored.new }
    ensures seen { AllStillSee unstored.old.chains unstored.new.chains }
{
    let w = written_at(alloc, at)?;
    put(alloc, unstored, schema, &w)
}

// Opens a reader of the partition: its snapshots are new.
fn open_reader(
    unstored: &mut Unstored<4096>,
    schema: &Schema,
    key: &PartKey,
) -> Result<Snaps, AllocError>
    requires { HaveSome schema.now unstored.old }
    ensures there { IfOk result (AreThere unstored.new.chains) }
    ensures apart { IfOk result (λ taken. IfSome taken.sealed (λ s. IfSome taken.active (λ t. s.chain ≡ t.chain → ⊥))) }
    ensures fresh { IfOk result (λ t. (s : Snapshot) → HasPin unstored.old.chains s.chain s.pin → IsNoneOf t s) }
    ensures stands { HaveSome schema.now unstored.new }
    ensures seen { AllStillSee unstored.old.chains unstored.new.chains }
{
    unstored.snapshot(key)
}

// Seals what was written, puts another row, and opens a reader of both.
fn open_later(
    alloc: Global,
    unstored: &mut Unstored<4096>,
    schema: &Schema,
    key: &PartKey,
) -> Result<Snaps, AllocError>
    requires { HaveSome schema.now unstored.old }
    ensures there { IfOk result (AreThere unstored.new.chains) }
    ensures apart { IfOk result (λ taken. IfSome taken.sealed (λ s. IfSome taken.active (λ t. s.chain ≡ t.chain → ⊥))) }
    ensures fresh { IfOk result (λ t. (s : Snapshot) → HasPin unstored.old.chains s.chain s.pin → IsNoneOf t s) }
    ensures stands { HaveSome schema.now unstored.new }
    ensures seen { AllStillSee unstored.old.chains unstored.new.chains }
{
    unstored.seal();
    let _put = put_row(alloc, unstored, schema, 9)?;
    open_reader(unstored, schema, key)
}

// Takes both snapshots of a reader back.
fn close_reader(unstored: &mut Unstored<4096>, reader: Snaps)
    requires there { AreThere unstored.old.chains reader }
    requires apart { IfSome reader.sealed (λ s. IfSome reader.active (λ t. s.chain ≡ t.chain → ⊥)) }
    ensures stands { (schema : SchemaValue) → HaveSome schema unstored.old → HaveSome schema unstored.new }
    ensures others { (s : Snapshot) → IsNoneOf reader s → HasPin unstored.old.chains s.chain s.pin → StillSees s unstored.old.chains unstored.new.chains }
{
    unstored.release_both(reader);
}

/// How many rows a table of the sealed writes has, where they are of one partition.
pub fn sealed_rows(
    alloc: Global,
    unstored: &mut Unstored<4096>,
    schema: &Schema,
) -> Result<usize, AllocError>
    requires { HaveSome schema.now unstored.old }
    ensures { HaveSome schema.now unstored.new }
{
    let parts = unstored.sealed_partitions(alloc)?;
    match parts.as_slice() {
        [part] => Ok(part.change.rows.as_slice().len()),
        _ => Ok(0),
    }
}

// Whether so many objects of so many bytes are live.
fn takes(unstored: &Unstored<4096>, objects: u64, live: usize) -> bool {
    let region = unstored.chains.region();
    region.objects() == objects && region.live() == live
}

// Whether a table of the sealed writes has two rows, and three objects are left once these are let go.
fn is_left(
    alloc: Global,
    unstored: &mut Unstored<4096>,
    schema: &Schema,
) -> Result<bool, AllocError>
    requires { HaveSome schema.now unstored.old }
{
    let rows = sealed_rows(alloc, unstored, schema)?;
    unstored.drop_sealed();
    Ok(rows == 2 && takes(unstored, 3, 256))
}

// Opens a reader behind a seal and a third row, and closes it and an early one. Whether what is there once two rows are written stays so.
fn stay(
    alloc: Global,
    unstored: &mut Unstored<4096>,
    schema: &Schema,
    key: &PartKey,
) -> Result<bool, AllocError>
    requires { HaveSome schema.now unstored.old }
    ensures { HaveSome schema.now unstored.new }
{
    let early = open_reader(unstored, schema, key)?;
    let written = takes(unstored, 4, 360);
    match open_later(alloc, unstored, schema, key) {
        Ok(late) => {
            let open = takes(unstored, 7, 616);
            close_reader(unstored, late);
            let closed = takes(unstored, 7, 616);
            close_reader(unstored, early);
            Ok(written && open && closed)
        }
        Err(error) => {
            close_reader(unstored, early);
            Err(error)
        }
    }
}

// Whether that is so of two rows of a partition, and what is left once the sealed writes are let go.
fn are_sizes(
    alloc: Global,
    unstored: &mut Unstored<4096>,
    schema: &Schema,
) -> Result<bool, AllocError>
    requires { HaveSome schema.now unstored.old }
{
    let _first = put_row(alloc, unstored, schema, 7)?;
    let _second = put_row(alloc, unstored, schema, 8)?;
    let key = PartKey::from_slice(alloc, b"p")?;
    let stayed = stay(alloc, unstored, schema, &key)?;
    let left = is_left(alloc, unstored, schema)?;
    Ok(stayed && left)
}

// The same under a schema of one number and one column.
fn are_sizes_of_rows(alloc: Global, unstored: &mut Unstored<4096>) -> Result<bool, AllocError>
    requires { (schema : SchemaValue) → HaveWrites schema unstored.old [] [] }
{
    match Schema::read(alloc, b"ck=int static=- cols=a") {
        Ok(schema) => are_sizes(alloc, unstored, &schema),
        Err(_) => Ok(false),
    }
}

// Two rows of a partition, whose positions and rows have codes of 11 bytes each, are four objects in 360 bytes, and a third behind the seal is three more in 256, all of which stay while readers come and go; once the sealed writes are let go, of which a table has two rows, the third row's are left.
#[test]
fn two_readers_and_a_seal_between(rt: HostRuntime) -> Result<(), Fail> {
    let mut unstored = Unstored::<4096>::open(rt.alloc(), 4)?;
    assert!(rt; unstored.is_empty());
    assert!(rt; are_sizes_of_rows(rt.alloc(), &mut unstored)?);
    assert!(rt; !unstored.is_sealed());
    Ok(())
}
