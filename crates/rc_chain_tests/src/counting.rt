//! Chains of the cache and of a memtable that are counted: tests of `rc_census`.
ghost use Rattle.rc_chain_guarded.specs.Guarded.{IsTracked};

use crate::values::{inserted, key_at};
use rc_census::census;
use rc_chain::{ChainKind, Chains};
use rc_chain_guarded::lives::{add_version, detach, new_chain};
use rc_chain_guarded::rows::join_row;
use rc_chain_guarded::{Known, Numbered, SEGMENT};
use std::alloc::{AllocError, Global};
use std::test::Fail;

/// Joins a row at the key 3 to a version; whether there was room.
pub fn join(
    alloc: Global,
    chains: &mut Chains<SEGMENT>,
    known: &mut Known,
    at: Numbered,
) -> Result<bool, AllocError>
    requires { IsTracked chains.old known.old }
    ensures { IsTracked chains.new known.new }
{
    let key = key_at(alloc, 3)?;
    let row = inserted(alloc);
    Ok(join_row(chains, known, at, &key, &row).is_some())
}

// A chain of a kind with such a row; whether it was made.
fn made(
    alloc: Global,
    chains: &mut Chains<SEGMENT>,
    known: &mut Known,
    kind: ChainKind,
) -> Result<bool, AllocError>
    requires { IsTracked chains.old known.old }
    ensures { IsTracked chains.new known.new }
{
    match new_chain(chains, known, kind, 1, None)? {
        Some(chain) => join(alloc, chains, known, Numbered { chain, version: 0 }),
        None => Ok(false),
    }
}

// Whether so many partitions, rows and dummies are counted.
fn has(chains: &Chains<SEGMENT>, partitions: u64, rows: u64, dummies: u64) -> bool {
    let told = census(chains);
    told.partitions == partitions && told.rows == rows && told.dummies == dummies
}

// A chain of the cache counts itself, its row and its end dummy; a memtable's, with such a row too, counts nothing. A version that is put over counts its end dummy. Where its key no longer finds the chain nothing of it counts.
#[test]
fn counted_chains(rt: HostRuntime) -> Result<(), Fail> {
    let mut chains = Chains::<SEGMENT>::open(rt.alloc(), 4)?;
    let mut known = Known::new(rt.alloc());
    assert!(rt; has(&chains, 0, 0, 0));
    assert!(rt; made(rt.alloc(), &mut chains, &mut known, ChainKind::Cache)?);
    assert!(rt; has(&chains, 1, 1, 1));
    assert!(rt; made(rt.alloc(), &mut chains, &mut known, ChainKind::Memtable)?);
    assert!(rt; has(&chains, 1, 1, 1));
    assert!(rt; add_version(&mut chains, &mut known, 0, 2, false));
    assert!(rt; has(&chains, 1, 1, 2));
    assert!(rt; detach(&mut chains, &mut known, 0));
    assert!(rt; has(&chains, 0, 0, 0));
    Ok(())
}
