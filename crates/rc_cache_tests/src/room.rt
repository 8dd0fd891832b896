//! A write for which a cache gives room: a test of `rc_unstored`.
ghost use Rattle.std.specs.Prelude.{[]};
ghost use Rattle.rc_schema.specs.SchemaValue.{SchemaValue};
ghost use Rattle.rc_unstored.specs.Memtables.{HaveWrites};
ghost use Rattle.rc_cache_tests.specs.Holding.{ChainsStay, HaveSome};

use crate::unstored::{put_row, sealed_rows};
use rc_chain::{ChainKind, Chains};
use rc_schema::Schema;
use rc_unstored::Unstored;
use rc_unstored::laws::what_leaves_the_chains_of_both_leaves_their_writes;
use std::alloc::{AllocError, Global};
use std::test::Fail;

// Makes a chain of a cache, of 152 bytes in two objects, where there is room for it.
fn make_one(chains: &mut Chains<4096>) -> Result<(), AllocError>
    ensures { ChainsStay chains.old chains.new }
{
    if chains.region().spare() < 152 {
        return Ok(());
    }
    let _id = chains.new_chain(ChainKind::Cache, 1, None)?;
    Ok(())
}

// Makes so many of them, as long as there is room.
fn fill(chains: &mut Chains<4096>, count: u64) -> Result<(), AllocError>
    ensures { ChainsStay chains.old chains.new }
{
    for _round in 0..count {
        make_one(chains)?;
    }
    Ok(())
}

// Puts a row, fills what is left of the region with caches, and puts another row. Whether too little was spare before that, it was put, and there are two rows then.
fn is_put_beside_caches(
    alloc: Global,
    unstored: &mut Unstored<4096>,
    schema: &Schema,
) -> Result<bool, AllocError>
    requires { HaveSome schema.now unstored.old }
{
    what_leaves_the_chains_of_both_leaves_their_writes();
    let _first = put_row(alloc, unstored, schema, 7)?;
    fill(&mut unstored.chains, 100)?;
    let is_full = unstored.chains.region().spare() < 152;
    let put = put_row(alloc, unstored, schema, 8)?;
    unstored.seal();
    let rows = sealed_rows(alloc, unstored, schema)?;
    Ok(is_full && put && rows == 2)
}

// The same under a schema of one number and one column.
fn is_row_put(alloc: Global, unstored: &mut Unstored<4096>) -> Result<bool, AllocError>
    requires { (schema : SchemaValue) → HaveWrites schema unstored.old [] [] }
{
    match Schema::read(alloc, b"ck=int static=- cols=a") {
        Ok(schema) => is_put_beside_caches(alloc, unstored, &schema),
        Err(_) => Ok(false),
    }
}

// Nothing is evicted for the first row; the second one finds too little room, which the caches give, and both rows are there.
#[test]
fn a_write_makes_room_by_evictions(rt: HostRuntime) -> Result<(), Fail> {
    let mut unstored = Unstored::<4096>::open(rt.alloc(), 4)?;
    assert!(rt; is_row_put(rt.alloc(), &mut unstored)?);
    assert!(rt; unstored.chains.counts().evicted > 0);
    Ok(())
}
