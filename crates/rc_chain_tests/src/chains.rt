//! A chain that is made, read and given back: tests of `rc_chain`.
ghost use Rattle.std.specs.Prelude.{◌≡◌, ◌≤◌};
ghost use Rattle.lsa_pool.specs.Room.{spare_of};
ghost use Rattle.rc_core.specs.Version.{end_position};
ghost use Rattle.rc_memory.specs.Memory.{HasPin};
ghost use Rattle.rc_position.specs.Position.{IsBefore};
ghost use Rattle.rc_rowcode.specs.Objects.{dummy_size};
ghost use Rattle.rc_rowcode.specs.Spelling.{KeyFits};

use crate::objects::takes;
use crate::values::bare;
use rc_chain::{ChainKind, Chains, Snap};
use rc_core::{Flag, Mark};
use rc_cursor::laws::a_taken_snapshot_is_there;
use rc_position::{Pos, Weight};
use std::alloc::{AllocError, Global};
use std::test::Fail;

// Whether a snapshot knows the head of its chain.
fn is_head_known(chains: &Chains<4096>, snap: &Snap) -> Result<bool, AllocError>
    requires { HasPin chains.now snap.now.chain snap.now.pin }
{
    Ok(chains.head(snap)?.known)
}

// Whether it knows the end of the partition.
fn is_end_known(alloc: Global, chains: &Chains<4096>, snap: &Snap) -> Result<bool, AllocError>
    requires { HasPin chains.now snap.now.chain snap.now.pin }
{
    let end = bare(alloc, Weight::After);
    Ok(chains.at(snap, &end)?.known)
}

// Whether it knows both, or neither.
fn are_both(
    alloc: Global,
    chains: &Chains<4096>,
    snap: &Snap,
    known: bool,
) -> Result<bool, AllocError>
    requires { HasPin chains.now snap.now.chain snap.now.pin }
{
    let head = is_head_known(chains, snap)?;
    let end = is_end_known(alloc, chains, snap)?;
    Ok(head == known && end == known)
}

// Whether a snapshot of a new chain of a kind knows both, or neither. The snapshot is given back.
fn are_both_of_new(
    alloc: Global,
    chains: &mut Chains<4096>,
    kind: ChainKind,
    known: bool,
) -> Result<bool, AllocError>
    requires { 152 ≤ spare_of 4096 chains.old.region.usages }
{
    a_taken_snapshot_is_there();
    let id = chains.new_chain(kind, 7, None)?;
    let snap = chains.snapshot(id)?;
    let seen = are_both(alloc, chains, &snap, known);
    chains.release(snap);
    seen
}

// Whether a new chain of a kind is known so, and is two objects in 152 bytes.
fn is_new(alloc: Global, kind: ChainKind, known: bool) -> Result<bool, AllocError> {
    let mut chains = Chains::<4096>::open(alloc, 4)?;
    let seen = are_both_of_new(alloc, &mut chains, kind, known)?;
    Ok(seen && takes(chains.region(), 2, 152))
}

// A cache chain knows nothing at first, and a memtable's everything. Each is one version of its end dummy alone: two objects in 152 bytes.
#[test]
fn new_chains(rt: HostRuntime) -> Result<(), Fail> {
    assert!(rt; is_new(rt.alloc(), ChainKind::Cache, false)?);
    assert!(rt; is_new(rt.alloc(), ChainKind::Memtable, true)?);
    Ok(())
}

// Whether a mark is Known, without a range tombstone.
fn is_known(mark: Mark) -> bool {
    matches!(mark.flag, Flag::Known) && mark.tomb.is_none()
}

// Makes a new chain say of all from a position on that it is known, and tells the marks of the entry there.
fn marks_of_known(
    chains: &mut Chains<4096>,
    from: &Pos,
    end: &Pos,
) -> Result<(Mark, Mark), AllocError>
    requires limits { KeyFits from.now.prefix }
    requires size { dummy_size from.now ≤ 88 }
    requires ascend { IsBefore from.now end.now }
    requires end { end.now ≡ end_position }
    requires spare { 240 ≤ spare_of 4096 chains.old.region.usages }
{
    let id = chains.new_chain(ChainKind::Cache, 7, None)?;
    let e = chains.split(id, 0, from);
    chains.know_between(id, 0, from, end, None);
    Ok(chains.marks(e))
}

// Whether a new chain that is made known from the first position on is so at the entry there, and not over the gap before it.
fn is_known_from_the_first(alloc: Global, chains: &mut Chains<4096>) -> Result<bool, AllocError>
    requires { 240 ≤ spare_of 4096 chains.old.region.usages }
{
    let from = bare(alloc, Weight::Before);
    let end = bare(alloc, Weight::After);
    let (at, gap) = marks_of_known(chains, &from, &end)?;
    Ok(is_known(at) && !is_known(gap))
}

#[test]
fn known_stretches(rt: HostRuntime) -> Result<(), Fail> {
    let mut chains = Chains::<4096>::open(rt.alloc(), 4)?;
    assert!(rt; is_known_from_the_first(rt.alloc(), &mut chains)?);
    Ok(())
}
