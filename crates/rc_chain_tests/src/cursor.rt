//! A chain that is read by its parts while objects may move: tests of `rc_cursor`.
ghost use Rattle.std.specs.Prelude.{◌≡◌, ◌≤◌, IfOk};
ghost use Rattle.lsa_pool.specs.Room.{spare_of};
ghost use Rattle.rc_core.specs.Version.{end_position};
ghost use Rattle.rc_memory.specs.Memory.{HasPin};

use crate::values::bare;
use rc_cell::Tomb;
use rc_chain::{ChainKind, Chains, Snap};
use rc_core::Part;
use rc_cursor::Cursor;
use rc_cursor::laws::{a_snapshot_stays_where_objects_move, a_taken_snapshot_is_there};
use rc_position::{Pos, Weight};
use rc_rowcode::laws::codes_are_short;
use std::alloc::{AllocError, Global};
use std::test::Fail;

// Whether a part is a gap over which this range tombstone is in force.
fn is_gap(part: &Part, tomb: Option<Tomb>) -> bool {
    match part {
        Part::Gap { to: _, tomb: told } => *told == tomb,
        Part::Row { .. } | Part::Missing { .. } | Part::End => false,
    }
}

// A snapshot of a new memtable's chain with a range tombstone over its front.
fn covered(alloc: Global, chains: &mut Chains<4096>, tomb: Tomb) -> Result<Snap, AllocError>
    requires { 1056 ≤ spare_of 4096 chains.old.region.usages }
    ensures { IfOk result (λ s. HasPin chains.new s.chain s.pin) }
{
    codes_are_short();
    a_taken_snapshot_is_there();
    let id = chains.new_chain(ChainKind::Memtable, 7, None)?;
    let from = bare(alloc, Weight::Before);
    let to = bare(alloc, Weight::At);
    chains.join_range(id, 0, &from, &to, tomb);
    chains.snapshot(id)
}

// Whether the next part up to the end is such a gap.
fn is_gap_next(
    alloc: Global,
    chains: &Chains<4096>,
    snap: &Snap,
    cursor: &mut Cursor,
    end: &Pos,
    tomb: Option<Tomb>,
) -> Result<bool, AllocError>
    requires pin { HasPin chains.now snap.now.chain snap.now.pin }
    requires end { end.now ≡ end_position }
{
    Ok(is_gap(&cursor.next_part(alloc, chains, snap, end)?, tomb))
}

// Whether the end is next.
fn is_end_next(
    alloc: Global,
    chains: &Chains<4096>,
    snap: &Snap,
    cursor: &mut Cursor,
    end: &Pos,
) -> Result<bool, AllocError>
    requires pin { HasPin chains.now snap.now.chain snap.now.pin }
    requires end { end.now ≡ end_position }
{
    Ok(matches!(cursor.next_part(alloc, chains, snap, end)?, Part::End))
}

// Whether the parts of a snapshot are a gap with this tombstone, one without, and the end, with objects asked to move behind the first.
fn are_parts(
    alloc: Global,
    chains: &mut Chains<4096>,
    snap: &Snap,
    cursor: &mut Cursor,
    end: &Pos,
    tomb: Tomb,
) -> Result<bool, AllocError>
    requires pin { HasPin chains.old snap.now.chain snap.now.pin }
    requires end { end.now ≡ end_position }
    ensures { HasPin chains.new snap.now.chain snap.now.pin }
{
    a_snapshot_stays_where_objects_move();
    let first = is_gap_next(alloc, chains, snap, cursor, end, Some(tomb))?;
    let _moved = chains.compact_one();
    let second = is_gap_next(alloc, chains, snap, cursor, end, None)?;
    let third = is_end_next(alloc, chains, snap, cursor, end)?;
    Ok(first && second && third)
}

// The same from the beginning on.
fn are_all_parts(
    alloc: Global,
    chains: &mut Chains<4096>,
    snap: &Snap,
    tomb: Tomb,
) -> Result<bool, AllocError>
    requires { HasPin chains.old snap.now.chain snap.now.pin }
    ensures { HasPin chains.new snap.now.chain snap.now.pin }
{
    let end = bare(alloc, Weight::After);
    let mut cursor = Cursor::new(bare(alloc, Weight::Before));
    are_parts(alloc, chains, snap, &mut cursor, &end, tomb)
}

// The same of a new snapshot, which is given back.
fn is_covered(alloc: Global, chains: &mut Chains<4096>) -> Result<bool, AllocError>
    requires { 1056 ≤ spare_of 4096 chains.old.region.usages }
{
    let tomb = Tomb { ts: 5, dt: 9 };
    let snap = covered(alloc, chains, tomb)?;
    let read = are_all_parts(alloc, chains, &snap, tomb);
    chains.release(snap);
    read
}

// The front of the partition is covered, and what is behind it is not.
#[test]
fn a_covered_front(rt: HostRuntime) -> Result<(), Fail> {
    let mut chains = Chains::<4096>::open(rt.alloc(), 4)?;
    assert!(rt; is_covered(rt.alloc(), &mut chains)?);
    Ok(())
}
