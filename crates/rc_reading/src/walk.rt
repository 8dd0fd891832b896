//! The versions of a partition laid over one another, the oldest first.
ghost use Rattle.std.specs.Prelude.{◌≡◌, List, IfOk};
ghost use Rattle.rc_cell.specs.Orders.{tomb_cmp};
ghost use Rattle.rc_cell.specs.Winner.{greatest};
ghost use Rattle.lsa_store.specs.declared.place.Ref.{Ref as Name};
ghost use Rattle.rc_core.specs.Continuity.{version_tombs};
ghost use Rattle.rc_core.specs.Merge.{Alike};
ghost use Rattle.rc_core.specs.Slow.{seen_state};
ghost use Rattle.rc_core.specs.SpotState.{through, under};
ghost use Rattle.rc_core.specs.Version.{Version, state_of};
ghost use Rattle.rc_partition.specs.Versions.{IsVersionOf};
ghost use Rattle.rc_partition.specs.Partitions.{StandingVersion};
ghost use Rattle.rc_reading.specs.Reading.{AreUpTo, read_versions};
ghost use Rattle.rc_reading.specs.calls.Reading.{finding_at, states_read};

use crate::said::{Asked, row_of, said};
use lsa_region::{Ref, Region, Root};
use rc_cell::Tomb;
use rc_core::{Seen, nothing_seen, seen_over};
use rc_mutation::greater_tomb;
use rc_object::head_of;
use rc_partition::version;
use std::alloc::{AllocError, Global};

// What a version says of a place, over what is seen below it.
fn over_version<const S: usize>(
    alloc: Global,
    region: &Region<S>,
    v: Ref,
    asked: Asked<'_>,
    below: Seen,
) -> Result<Seen, AllocError>
    requires { (refs : List Name) × (c : Version) × IsVersionOf region.now v refs c }
    ensures { (refs : List Name) (c : Version) → IsVersionOf region.now v refs c → IfOk result (λ s. Alike (seen_state s) (under (seen_state below) (state_of (finding_at asked.entry c)))) }
{
    let (mark, holder) = said(region, v, asked);
    let row = row_of(alloc, region, holder)?;
    seen_over(alloc, below, mark, &row)
}

/// What is seen of a place through the versions of a partition up to the one of a number. The only error is want of memory.
pub(crate) fn seen_through<const S: usize>(
    alloc: Global,
    region: &Region<S>,
    root: Root,
    number: u64,
    asked: Asked<'_>,
) -> Result<Seen, AllocError>
    requires { (read : List StandingVersion) × AreUpTo region.now root number read }
    ensures { (read : List StandingVersion) → AreUpTo region.now root number read → IfOk result (λ s. Alike (seen_state s) (through (states_read asked.entry read))) }
{
    let mut seen = nothing_seen(alloc);
    for i in 0..number {
        seen = over_version(alloc, region, version(region, root, i), asked, seen)?;
    }
    over_version(alloc, region, version(region, root, number), asked, seen)
}

/// The greatest partition tombstone of the versions of a partition up to the one of a number.
pub(crate) fn greatest_tomb<const S: usize>(
    region: &Region<S>,
    root: Root,
    number: u64,
) -> Option<Tomb>
    requires { (read : List StandingVersion) × AreUpTo region.now root number read }
    ensures { (read : List StandingVersion) → AreUpTo region.now root number read → result ≡ greatest tomb_cmp (version_tombs (read_versions read)) }
{
    let mut pt = None;
    for i in 0..number {
        let older = head_of(region, version(region, root, i));
        pt = greater_tomb(pt, older.partition_tombstone);
    }
    let last = head_of(region, version(region, root, number));
    greater_tomb(pt, last.partition_tombstone)
}
