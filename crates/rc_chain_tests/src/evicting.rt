//! A cache chain with one object of each sort, which are evicted one after another: tests of `rc_evict`.
ghost use Rattle.rc_chain_guarded.specs.Guarded.{IsTracked};

use crate::counting::join;
use crate::values::{inserted, key_at};
use rc_chain::{ChainKind, Chains};
use rc_chain_guarded::changes::split;
use rc_chain_guarded::lives::new_chain;
use rc_chain_guarded::rows::join_static;
use rc_chain_guarded::{Known, Numbered, SEGMENT};
use rc_core::Flag;
use rc_evict::{Evicted, evict_one};
use rc_position::{Pos, Weight};
use std::alloc::{AllocError, Global};
use std::test::Fail;

// Makes a dummy behind the key 7; whether there was room.
fn split_behind(
    alloc: Global,
    chains: &mut Chains<SEGMENT>,
    known: &mut Known,
    at: Numbered,
) -> Result<bool, AllocError>
    requires { IsTracked chains.old known.old }
    ensures { IsTracked chains.new known.new }
{
    let behind = Pos {
        prefix: key_at(alloc, 7)?,
        weight: Weight::After,
    };
    Ok(split(chains, known, at, &behind))
}

// Makes the entries and the static row of a version: a dummy behind the key 7, a row at the key 3, and a static row.
fn fill(
    alloc: Global,
    chains: &mut Chains<SEGMENT>,
    known: &mut Known,
    at: Numbered,
) -> Result<bool, AllocError>
    requires { IsTracked chains.old known.old }
    ensures { IsTracked chains.new known.new }
{
    let made = split_behind(alloc, chains, known, at)?;
    let joined = join(alloc, chains, known, at)?;
    let row = inserted(alloc);
    Ok(made && joined && join_static(chains, known, at, &row, Flag::Known))
}

// A cache chain of such a version; whether all was made.
fn fill_new(
    alloc: Global,
    chains: &mut Chains<SEGMENT>,
    known: &mut Known,
) -> Result<bool, AllocError>
    requires { IsTracked chains.old known.old }
    ensures { IsTracked chains.new known.new }
{
    match new_chain(chains, known, ChainKind::Cache, 1, None)? {
        Some(chain) => fill(alloc, chains, known, Numbered { chain, version: 0 }),
        None => Ok(false),
    }
}

// Whether this sort of object is evicted, and so many objects are left.
fn goes(chains: &mut Chains<SEGMENT>, sort: Evicted, left: u64) -> bool {
    evict_one(chains) == Some(sort) && chains.region().objects() == left
}

// Whether the objects of such a chain go, in this order.
fn go(chains: &mut Chains<SEGMENT>) -> bool {
    goes(chains, Evicted::EndDummy, 5)
        && goes(chains, Evicted::Dummy, 4)
        && goes(chains, Evicted::Row, 3)
        && goes(chains, Evicted::Static, 0)
        && evict_one(chains).is_none()
}

// The end dummy was made first, and goes first; it stays in its version until the last object is evicted, when the chain goes with it. Then nothing is left.
#[test]
fn each_sort_of_object(rt: HostRuntime) -> Result<(), Fail> {
    let mut chains = Chains::<SEGMENT>::open(rt.alloc(), 4)?;
    let mut known = Known::new(rt.alloc());
    assert!(rt; fill_new(rt.alloc(), &mut chains, &mut known)?);
    assert!(rt; chains.region().objects() == 5);
    assert!(rt; go(&mut chains));
    assert!(rt; chains.take_dropped() == Some(0));
    assert!(rt; chains.counts().evicted == 4);
    Ok(())
}
