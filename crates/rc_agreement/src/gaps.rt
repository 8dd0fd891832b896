//! The open gap behind a place, as it is seen through the versions of a snapshot.
ghost use Rattle.std.specs.Prelude.{◌≡◌, List, IfOk, None};
ghost use Rattle.lsa_store.specs.declared.place.Ref.{Ref as Name};
ghost use Rattle.rc_position.specs.declared.positions.Pos.{Pos as Position};
ghost use Rattle.rc_position.specs.Position.{IsBefore};
ghost use Rattle.rc_core.specs.declared.entries.Entry.{Entry};
ghost use Rattle.rc_core.specs.Version.{Version, end_position};
ghost use Rattle.rc_object.specs.Objects.{HoldsEntry};
ghost use Rattle.rc_version.specs.Versions.{IsVersionOf};
ghost use Rattle.rc_memory.specs.Changes.{OfVersion};
ghost use Rattle.rc_memory.specs.Memory.{HasPin, HasVersion};
ghost use Rattle.rc_cursor.specs.Snapshots.{versions_seen};
ghost use Rattle.rc_agreement.specs.calls.Gaps.{IsGapSeen, IsNextEntry, IsLaidOver, SaysGap, over_gap};

use lsa_region::{End, Ref, Region};
use lsa_tree::{Place, Tree};
use rc_cell::Tomb;
use rc_chain::{Chains, Snap};
use rc_core::{Flag, Mark};
use rc_cursor::laws::a_snapshot_sees_up_to_its_version;
use rc_mutation::greater_tomb;
use rc_object::{marks, position_code};
use rc_position::{Key, Pos, Weight};
use rc_rowcode::read_pos;
use std::alloc::{AllocError, Global};

/// What is seen of the open gap behind a place.
#[derive(Drop)]
pub(crate) struct GapBehind {
    /// Its flag.
    pub(crate) flag: Flag,
    /// The range tombstone over it.
    pub(crate) tomb: Option<Tomb>,
    /// Where it ends: at the next entry of any version, or at the end of the partition.
    pub(crate) to: Pos,
}

// The entry of a version that is next behind a place; none where none stands behind it. It searches once.
fn next_entry<const S: usize>(region: &Region<S>, v: Ref, x: &Pos) -> Option<Ref>
    requires { (refs : List Name) × (c : Version) × IsVersionOf region.now v refs c }
    ensures { (refs : List Name) (c : Version) → IsVersionOf region.now v refs c → IsNextEntry region.now x.now c.entries result }
{
    let tree = Tree {
        top: End::Obj(v, 2),
    };
    match tree.locate(region, x) {
        Place::Here(e) => tree.next(region, e),
        Place::Before(next) => Some(next),
        Place::Last => None,
    }
}

// The position of an entry. The only error is want of memory.
fn position_of<const S: usize>(alloc: Global, region: &Region<S>, e: Ref) -> Result<Pos, AllocError>
    requires { (y : Entry) × HoldsEntry region.now e y }
    ensures { (y : Entry) → HoldsEntry region.now e y → IfOk result (λ x. x ≡ y.position) }
{
    match read_pos(alloc, position_code(region, e))? {
        Some((x, _size)) => Ok(x),
        None => unreachable!(),
    }
}

// What a version says over the gap behind a place, and where its next entry stands, none where none stands behind it. The only error is want of memory.
fn gap_in<const S: usize>(
    alloc: Global,
    region: &Region<S>,
    v: Ref,
    x: &Pos,
) -> Result<(Mark, Option<Pos>), AllocError>
    requires { (refs : List Name) × (c : Version) × IsVersionOf region.now v refs c }
    ensures { (refs : List Name) (c : Version) → IsVersionOf region.now v refs c → IfOk result (λ r. SaysGap x.now c.entries r.0 r.1) }
{
    let Some(next) = next_entry(region, v, x) else {
        let nothing = Mark {
            flag: Flag::Inherit,
            tomb: None,
        };
        return Ok((nothing, None));
    };
    let to = position_of(alloc, region, next)?;
    Ok((marks(region, next).1, Some(to)))
}

// A gap with what one more version says over those below it.
fn over_gap(below: GapBehind, mark: Mark, next: Option<Pos>) -> GapBehind
    ensures { result ≡ over_gap below mark next }
{
    let (flag, tomb) = match mark.flag {
        Flag::Inherit => (below.flag, greater_tomb(below.tomb, mark.tomb)),
        Flag::Known | Flag::Unknown => (mark.flag, mark.tomb),
    };
    let to = match next {
        Some(next) if next < below.to => next,
        _ => below.to,
    };
    GapBehind { flag, tomb, to }
}

// The gap behind a place with what the version of a number says of it. The only error is want of memory.
fn with_version<const S: usize>(
    alloc: Global,
    chains: &Chains<S>,
    id: u64,
    number: u64,
    x: &Pos,
    below: GapBehind,
) -> Result<GapBehind, AllocError>
    requires { HasVersion chains.now id number }
    ensures { OfVersion chains.now id number (λ k v. IfOk result (IsLaidOver x.now v below)) }
{
    chains.versions_stand();
    let (mark, next) = gap_in(alloc, chains.region(), chains.version(id, number), x)?;
    Ok(over_gap(below, mark, next))
}

/// What a snapshot sees of the open gap behind a place before the end. Each version is searched once. The only error is want of memory.
pub(crate) fn gap_behind<const S: usize>(
    alloc: Global,
    chains: &Chains<S>,
    snap: &Snap,
    x: &Pos,
) -> Result<GapBehind, AllocError>
    requires pin { HasPin chains.now snap.now.chain snap.now.pin }
    requires inside { IsBefore x.now end_position }
    ensures { IfOk result (IsGapSeen (versions_seen chains.now snap.now) x.now) }
{
    a_snapshot_sees_up_to_its_version();
    chains.known();
    let last = chains.pinned_at(snap);
    let mut gap = GapBehind {
        flag: Flag::Inherit,
        tomb: None,
        to: Pos {
            prefix: Key::empty(alloc),
            weight: Weight::After,
        },
    };
    for number in 0..last {
        gap = with_version(alloc, chains, snap.chain, number, x, gap)?;
    }
    with_version(alloc, chains, snap.chain, last, x, gap)
}
