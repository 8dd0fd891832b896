//! The works: a partition of many rows is made, its rows are joined again, and each is read at its key.
ghost use Rattle.std.specs.Prelude.{◌≤◌, IfOk};
ghost use Rattle.rc_memory.specs.Memory.{HasPin};
ghost use Rattle.rc_rowcode.specs.Spelling.{IsCodedRow};
ghost use Rattle.rc_chain_bench.specs.Partition.{IsPartition};

use crate::partition::{SEGMENT, cover, is_seen, join, new_partition};
use crate::rows::{key_of, newer_row, other, short_row};
use rc_chain::{Chains, Snap};
use std::alloc::{AllocError, Global};

// Joins a row at the keys of the numbers from one on and below another, and gives how many there was room for.
fn join_between(
    alloc: Global,
    chains: &mut Chains<SEGMENT>,
    id: u64,
    from: u32,
    to: u32,
) -> Result<u32, AllocError>
    requires { IsPartition chains.old id }
    ensures { IfOk result (λ _. IsPartition chains.new id) }
{
    let row = short_row(alloc)?;
    let mut joined: u32 = 0;
    for number in from..to {
        let key = key_of(alloc, number)?;
        if join(chains, id, &key, &row) {
            joined = joined.saturating_add(1);
        }
    }
    Ok(joined)
}

// Joins a newer row at each key, and gives how many there was room for.
fn join_again(
    alloc: Global,
    chains: &mut Chains<SEGMENT>,
    id: u64,
    rows: u32,
) -> Result<u32, AllocError>
    requires { IsPartition chains.old id }
    ensures { IfOk result (λ _. IsPartition chains.new id) }
{
    let row = newer_row(alloc)?;
    let mut joined: u32 = 0;
    for number in 0..rows {
        let key = key_of(alloc, other(number, rows))?;
        if join(chains, id, &key, &row) {
            joined = joined.saturating_add(1);
        }
    }
    Ok(joined)
}

// Reads each row by a snapshot, and gives how many were seen.
fn see_all(
    alloc: Global,
    chains: &Chains<SEGMENT>,
    snap: &Snap,
    rows: u32,
) -> Result<u32, AllocError>
    requires { HasPin chains.now snap.now.chain snap.now.pin }
{
    let mut seen: u32 = 0;
    for number in 0..rows {
        let key = key_of(alloc, other(number, rows))?;
        if is_seen(chains, snap, key)? {
            seen = seen.saturating_add(1);
        }
    }
    Ok(seen)
}

// Takes a snapshot, reads each row by it, and gives how many were seen.
fn read_all(
    alloc: Global,
    chains: &mut Chains<SEGMENT>,
    id: u64,
    rows: u32,
) -> Result<u32, AllocError>
    requires { IsPartition chains.old id }
{
    let snap = chains.snapshot(id)?;
    let seen = see_all(alloc, chains, &snap, rows);
    chains.release(snap);
    seen
}

/// Makes a partition of so many rows in one version, and gives how many there was room for.
pub(crate) fn wide(
    alloc: Global,
    chains: &mut Chains<SEGMENT>,
    rows: u32,
) -> Result<u32, AllocError> {
    match new_partition(chains)? {
        Some(id) => join_between(alloc, chains, id, 0, rows),
        None => Ok(0),
    }
}

/// Makes such a partition, joins a newer row at each key, and gives how many of these there was room for.
pub(crate) fn overwrite(
    alloc: Global,
    chains: &mut Chains<SEGMENT>,
    rows: u32,
) -> Result<u32, AllocError> {
    match new_partition(chains)? {
        Some(id) => {
            join_between(alloc, chains, id, 0, rows)?;
            join_again(alloc, chains, id, rows)
        }
        None => Ok(0),
    }
}

/// Makes such a partition, reads each row, and gives how many were seen.
pub(crate) fn points(
    alloc: Global,
    chains: &mut Chains<SEGMENT>,
    rows: u32,
) -> Result<u32, AllocError> {
    match new_partition(chains)? {
        Some(id) => {
            join_between(alloc, chains, id, 0, rows)?;
            read_all(alloc, chains, id, rows)
        }
        None => Ok(0),
    }
}

/// Makes a partition of so many rows in three versions, reads each row, and gives how many were seen.
pub(crate) fn pinned(
    alloc: Global,
    chains: &mut Chains<SEGMENT>,
    rows: u32,
) -> Result<u32, AllocError> {
    let (third, both) = (rows / 3, rows - rows / 3);
    match new_partition(chains)? {
        Some(id) => {
            join_between(alloc, chains, id, 0, third)?;
            cover(chains, id);
            join_between(alloc, chains, id, third, both)?;
            cover(chains, id);
            join_between(alloc, chains, id, both, rows)?;
            read_all(alloc, chains, id, rows)
        }
        None => Ok(0),
    }
}
