//! The calls on the plain chains, where one of the chains in the region is several of theirs.

use crate::tally::Tally;
use rc_cell::{Row, Tomb};
use rc_chain_guarded::{Held, Numbered};
use rc_core::Flag;
use rc_plain_chains::PlainMemory;
use rc_position::Pos;
use std::alloc::{AllocError, Global};

/// A split, and other flags.
pub(crate) fn set_flags(
    alloc: Global,
    plain: &mut PlainMemory,
    at: Numbered,
    x: &Pos,
    on: Flag,
    gap: Flag,
) -> Result<(), AllocError> {
    plain.split(alloc, at.chain, at.version as usize, x)?;
    plain.set_flags(at.chain, at.version as usize, x, on, gap);
    Ok(())
}

/// A split, and other tombstones.
pub(crate) fn set_tombs(
    alloc: Global,
    plain: &mut PlainMemory,
    at: Numbered,
    x: &Pos,
    on: Option<Tomb>,
    gap: Option<Tomb>,
) -> Result<(), AllocError> {
    plain.split(alloc, at.chain, at.version as usize, x)?;
    plain.set_tombs(at.chain, at.version as usize, x, on, gap);
    Ok(())
}

/// A split, and the entry is taken out.
pub(crate) fn drop_entry(
    alloc: Global,
    plain: &mut PlainMemory,
    at: Numbered,
    x: &Pos,
) -> Result<(), AllocError> {
    plain.split(alloc, at.chain, at.version as usize, x)?;
    plain.drop_entry(at.chain, at.version as usize, x);
    Ok(())
}

/// An end dummy goes into the list, in which it was not.
pub(crate) fn list_end(
    alloc: Global,
    plain: &mut PlainMemory,
    at: Numbered,
    tally: &mut Tally,
) -> Result<(), AllocError> {
    let off = plain.list_end(alloc, at.chain, at.version as usize)?;
    tally.expect(off, "is_listed");
    Ok(())
}

/// A split of one version, and of another one.
pub(crate) fn split_both(
    alloc: Global,
    plain: &mut PlainMemory,
    to: Numbered,
    from: Numbered,
    x: &Pos,
) -> Result<(), AllocError> {
    plain.split(alloc, from.chain, from.version as usize, x)?;
    plain.split(alloc, to.chain, to.version as usize, x)
}

/// A snapshot is taken, which has the same number and the same phase.
pub(crate) fn take_snapshot(
    plain: &mut PlainMemory,
    id: u64,
    held: Held,
    tally: &mut Tally,
) -> Result<(), AllocError> {
    let wanted = plain.snapshot(id)?;
    let same = held.chain == id && wanted == Some((held.pin, held.phase));
    tally.expect(same, "the number and the phase of a snapshot");
    Ok(())
}

/// An update begins, and the first dummy of its version leaves the list.
pub(crate) fn unlist_last(
    alloc: Global,
    plain: &mut PlainMemory,
    id: u64,
    phase: u64,
    x: &Pos,
    tally: &mut Tally,
) -> Result<(), AllocError> {
    let newest = plain.versions(id);
    plain.add_version(alloc, id, phase)?;
    plain.split(alloc, id, newest, x)?;
    tally.expect(plain.unlist(id, newest, x), "a made dummy in the list");
    Ok(())
}

/// A split, and the entry goes to the back of the list where it is in it.
pub(crate) fn touch(
    alloc: Global,
    plain: &mut PlainMemory,
    at: Numbered,
    x: &Pos,
    listed: bool,
    tally: &mut Tally,
) -> Result<(), AllocError> {
    plain.split(alloc, at.chain, at.version as usize, x)?;
    let wanted = plain.touch(at.chain, at.version as usize, x)?;
    tally.expect(listed == wanted, "is_listed");
    Ok(())
}

/// A row is joined to one version, and what stands there then to another one.
pub(crate) fn join_like(
    alloc: Global,
    plain: &mut PlainMemory,
    to: Numbered,
    from: Numbered,
    x: &Pos,
    row: &Row,
) -> Result<(), AllocError> {
    plain.join_row(alloc, from.chain, from.version as usize, x, row)?;
    match plain.row_at(alloc, from.chain, from.version as usize, x)? {
        Some(joined) => plain.join_row(alloc, to.chain, to.version as usize, x, &joined),
        None => Ok(()),
    }
}

/// A version with a static row begins, which stands so many turns from the front.
pub(crate) fn turn_to_static(
    alloc: Global,
    plain: &mut PlainMemory,
    id: u64,
    phase: u64,
    row: &Row,
    flag: Flag,
    turns: u64,
    tally: &mut Tally,
) -> Result<(), AllocError> {
    let wanted = begin_static(alloc, plain, id, phase, row, flag)?;
    tally.expect(turns == wanted, "how far from the front a static row is");
    Ok(())
}

// A version with a static row is put over those of a chain, and the list is turned until this row is first: how many turns it took.
fn begin_static(
    alloc: Global,
    plain: &mut PlainMemory,
    id: u64,
    phase: u64,
    row: &Row,
    flag: Flag,
) -> Result<u64, AllocError> {
    let newest = plain.versions(id);
    plain.add_version(alloc, id, phase)?;
    plain.join_static(alloc, id, newest, row, Some(flag))?;
    plain.turn_to_static(id, newest)
}
