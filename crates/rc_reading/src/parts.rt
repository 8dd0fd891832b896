//! The first part of what is seen from a position on.
ghost use Rattle.std.specs.Prelude.{◌≡◌, ◌≢◌, List, IfOk};
ghost use Rattle.std.specs.declared.cmp.Ordering.TheVariants.{Greater};
ghost use Rattle.rc_position.specs.declared.positions.Pos.{Pos as Position};
ghost use Rattle.rc_position.specs.Position.{IsBefore, pos_cmp};
ghost use Rattle.lsa_store.specs.declared.place.Ref.{Ref as Name};
ghost use Rattle.rc_core.specs.declared.entries.Entry.{Entry};
ghost use Rattle.rc_core.specs.Parts.{IsFirstPart, IsReach};
ghost use Rattle.rc_core.specs.calls.Parts.{IsNearer};
ghost use Rattle.rc_core.specs.Version.{Version};
ghost use Rattle.rc_object.specs.Objects.{HoldsEntry};
ghost use Rattle.rc_partition.specs.Versions.{IsVersionOf};
ghost use Rattle.rc_partition.specs.Partitions.{StandingVersion};
ghost use Rattle.rc_reading.specs.Reading.{AreUpTo, read_versions};
ghost use Rattle.rc_reading.specs.calls.Gaps.{IsGapEnd, IsNextBehind};

use crate::reads::{ReadAt, at};
use lsa_region::{End, Ref, Region, Root};
use lsa_tree::{Place, Tree};
use rc_core::{ChainKind, Part};
use rc_object::position_code;
use rc_partition::version;
use rc_position::Pos;
use rc_rowcode::{compare_code_with_pos, compare_codes, read_pos};
use std::alloc::{AllocError, Global};
use std::cmp::Ordering;

// The entry of a version that is next behind a position; None where none stands behind it. It searches once.
fn next_behind<const S: usize>(region: &Region<S>, v: Ref, x: &Pos) -> Option<Ref>
    requires { (refs : List Name) × (c : Version) × IsVersionOf region.now v refs c }
    ensures { (refs : List Name) (c : Version) → IsVersionOf region.now v refs c → IsNextBehind region.now x.now c.entries result }
{
    let tree = Tree {
        top: End::Obj(v, 2),
    };
    match tree.locate(region, x) {
        Place::Here(e) => tree.next(region, e),
        Place::Before(next) => Some(next),
        Place::Last => None,
    }
}

// The order of an entry to the end of a gap: to another entry, or to the bound.
fn order_to_end<const S: usize>(
    region: &Region<S>,
    next: Ref,
    upto: &Pos,
    end: Option<Ref>,
) -> Ordering
    requires next { (e : Entry) × HoldsEntry region.now next e }
    requires end { (to : Position) × IsGapEnd region.now upto.now end to }
    ensures { (e : Entry) (to : Position) → HoldsEntry region.now next e → IsGapEnd region.now upto.now end to → result ≡ pos_cmp e.position to }
{
    let code = position_code(region, next);
    match end {
        Some(r) => compare_codes(code, position_code(region, r)),
        None => compare_code_with_pos(code, upto),
    }
}

// Where the gap behind a position ends by the entries of one more version: at the next one, where that stands before the end by the others.
fn nearer<const S: usize>(
    region: &Region<S>,
    v: Ref,
    x: &Pos,
    upto: &Pos,
    end: Option<Ref>,
) -> Option<Ref>
    requires version { (refs : List Name) × (c : Version) × IsVersionOf region.now v refs c }
    requires end { (to : Position) × IsGapEnd region.now upto.now end to }
    ensures { (refs : List Name) (c : Version) (to : Position) → IsVersionOf region.now v refs c → IsGapEnd region.now upto.now end to → IsBefore x.now to →
        (now : Position) × IsGapEnd region.now upto.now result now × IsNearer x.now to now c.entries }
{
    let Some(next) = next_behind(region, v, x) else {
        return end;
    };
    match order_to_end(region, next, upto, end) {
        Ordering::Less => Some(next),
        Ordering::Equal | Ordering::Greater => end,
    }
}

// Where the gap behind a position ends: at the next entry of any version, or at a bound before it.
fn reach<const S: usize>(
    region: &Region<S>,
    root: Root,
    number: u64,
    x: &Pos,
    upto: &Pos,
) -> Option<Ref>
    requires versions { (read : List StandingVersion) × AreUpTo region.now root number read }
    requires ahead { IsBefore x.now upto.now }
    ensures { (read : List StandingVersion) → AreUpTo region.now root number read →
        (to : Position) × IsGapEnd region.now upto.now result to × IsReach (read_versions read) x.now upto.now to }
{
    let mut end = None;
    for i in 0..number {
        end = nearer(region, version(region, root, i), x, upto, end);
    }
    nearer(region, version(region, root, number), x, upto, end)
}

// The position of an entry. The only error is want of memory.
fn position_of<const S: usize>(alloc: Global, region: &Region<S>, e: Ref) -> Result<Pos, AllocError>
    requires { (y : Entry) × HoldsEntry region.now e y }
    ensures { (y : Entry) → HoldsEntry region.now e y → IfOk result (λ x. x ≡ y.position) }
{
    match read_pos(alloc, position_code(region, e))? {
        Some((x, _size)) => Ok(x),
        None => unreachable!(),
    }
}

// The end of a gap: the position of an entry, or the bound. The only error is want of memory.
fn end_of<const S: usize>(
    alloc: Global,
    region: &Region<S>,
    upto: &Pos,
    end: Option<Ref>,
) -> Result<Pos, AllocError>
    requires { (to : Position) × IsGapEnd region.now upto.now end to }
    ensures { (to : Position) → IsGapEnd region.now upto.now end to → IfOk result (λ x. x ≡ to) }
{
    match end {
        Some(e) => position_of(alloc, region, e),
        None => upto.copy(alloc),
    }
}

// The same, where the gap behind a position ends. The only error is want of memory.
fn gap_end<const S: usize>(
    alloc: Global,
    region: &Region<S>,
    root: Root,
    number: u64,
    x: &Pos,
    upto: &Pos,
) -> Result<Pos, AllocError>
    requires versions { (read : List StandingVersion) × AreUpTo region.now root number read }
    requires ahead { IsBefore x.now upto.now }
    ensures { (read : List StandingVersion) → AreUpTo region.now root number read → IfOk result (λ to. IsReach (read_versions read) x.now upto.now to) }
{
    end_of(alloc, region, upto, reach(region, root, number, x, upto))
}

/// The first part of what is seen through the versions of a partition up to the one of a number, the oldest being 0, from a position on, up to a bound that
/// is not before it: the row there, or how far it is known that there is none, or how far the place is not known. Each version is searched three times at
/// most. The only error is want of memory.
pub fn first_part<const S: usize>(
    alloc: Global,
    region: &Region<S>,
    root: Root,
    number: u64,
    kind: ChainKind,
    x: &Pos,
    upto: &Pos,
) -> Result<Part, AllocError>
    requires versions { (read : List StandingVersion) × AreUpTo region.now root number read }
    requires ahead { pos_cmp x.now upto.now ≢ Greater }
    ensures { (read : List StandingVersion) → AreUpTo region.now root number read → IfOk result (λ p. IsFirstPart kind (read_versions read) x.now upto.now p) }
{
    if let Ordering::Equal = x.cmp(upto) {
        return Ok(Part::End);
    }
    let ReadAt { known, row, tomb } = at(alloc, region, root, number, kind, x)?;
    if !known {
        let to = gap_end(alloc, region, root, number, x, upto)?;
        return Ok(Part::Missing { to });
    }
    let Some(row) = row else {
        let to = gap_end(alloc, region, root, number, x, upto)?;
        return Ok(Part::Gap { to, tomb });
    };
    let key = x.prefix.copy(alloc)?;
    Ok(Part::Row { key, row, tomb })
}
