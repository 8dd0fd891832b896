//! What is seen of a partition of one version: tests of `rc_reading`.
ghost use Rattle.std.specs.Prelude.{◌≡◌, ◌≤◌, List as Sequence, [], ◌∷◌, IfOk};
ghost use Rattle.lsa_pool.specs.Room.{spare_of};
ghost use Rattle.lsa_region.specs.Region.{live_bytes, slots_of};
ghost use Rattle.rc_partition.specs.Partitions.{AreStanding, StandingVersion, partition_of};
ghost use Rattle.rc_reading.specs.Reading.{AreUpTo};

use crate::values::bare;
use lsa_list::List;
use lsa_region::{End, Region, Root};
use rc_cell::Tomb;
use rc_core::{ChainKind, Flag};
use rc_partition::add_version;
use rc_position::{Pos, Weight};
use rc_reading::{at, head};
use std::alloc::{AllocError, Global};
use std::test::Fail;

// A recency list in which nothing is, and a partition without versions, in a region in which nothing is.
fn opened(alloc: Global, region: &mut Region<4096>) -> Result<(List, Root), AllocError>
    requires none { live_bytes region.old ≡ 0 }
    requires unrooted { region.old.roots ≡ [] }
    ensures stands { IfOk result (λ r. AreStanding r.0 region.new (partition_of r.1 [] ∷ []) []) }
    ensures spare { spare_of 4096 region.new.usages ≡ spare_of 4096 region.old.usages }
{
    let front = region.add_root(alloc)?;
    let back = region.add_root(alloc)?;
    region.link(End::Slot(front), End::Slot(back));
    let root = region.add_root(alloc)?;
    Ok((List { front, back }, root))
}

// Whether the head of a partition is known, with this partition tombstone and without a static row.
fn is_head(alloc: Global, region: &Region<4096>, root: Root, tomb: Tomb) -> Result<bool, AllocError>
    requires { (read : Sequence StandingVersion) × AreUpTo region.now root 0 read }
{
    let top = head(alloc, region, root, 0, ChainKind::Cache)?;
    Ok(top.known && top.pt == Some(tomb) && top.row.is_none())
}

// Whether a position is known, without a row and without a range tombstone.
fn is_bare(alloc: Global, region: &Region<4096>, root: Root, x: &Pos) -> Result<bool, AllocError>
    requires { (read : Sequence StandingVersion) × AreUpTo region.now root 0 read }
{
    let here = at(alloc, region, root, 0, ChainKind::Cache, x)?;
    Ok(here.known && here.row.is_none() && here.tomb.is_none())
}

// Whether a version that knows all, and has a partition tombstone alone, is seen so.
fn is_seen(
    alloc: Global,
    region: &mut Region<4096>,
    _recency: List,
    root: Root,
    tomb: Tomb,
    x: &Pos,
) -> Result<bool, AllocError>
    requires stands { AreStanding _recency region.old (partition_of root [] ∷ []) [] }
    requires spare { 152 ≤ spare_of 4096 region.old.usages }
{
    add_version(region, root, Flag::Known, Some(tomb), 7);
    let top = is_head(alloc, region, root, tomb)?;
    let here = is_bare(alloc, region, root, x)?;
    Ok(top && here)
}

// The same in a region in which nothing is.
fn is_seen_alone(alloc: Global, region: &mut Region<4096>) -> Result<bool, AllocError>
    requires none { live_bytes region.old ≡ 0 }
    requires unrooted { region.old.roots ≡ [] }
    requires spare { 152 ≤ spare_of 4096 region.old.usages }
{
    let (recency, root) = opened(alloc, region)?;
    let x = bare(alloc, Weight::At);
    is_seen(alloc, region, recency, root, Tomb { ts: 5, dt: 9 }, &x)
}

#[test]
fn a_version_of_a_tombstone(rt: HostRuntime) -> Result<(), Fail> {
    let mut region = Region::<4096>::open(rt.alloc(), 4)?;
    assert!(rt; is_seen_alone(rt.alloc(), &mut region)?);
    Ok(())
}
