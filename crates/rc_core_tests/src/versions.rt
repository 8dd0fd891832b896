//! Each public function of `rc_core` once, with answers worked out by hand from what flags mean.

use crate::lines::{
    END, I, K, Line, U, entry_of, mark_of, marked, place_of, row_of, stamp, tomb_of, version_of,
};
use rc_core::{
    ChainKind, Flag, Part, PlainVersion, Side, base_at, evict_under_update, first_part, flag_under,
    head_of, is_at_place, is_flagged_at, is_known_at, is_known_in, join_updated_row, may_populate,
    merge_end, merge_head, put_down, raised_mark, release_pin, seen_at, statics_at,
};
use rc_position::{Comp, Pos};
use std::alloc::{AllocError, Global};
use std::cmp::Ordering;
use std::test::Fail;

// Two versions of a cache: a known place under an unknown one is lost, and under an inheriting one it is known.
#[test]
fn a_newer_flag_decides(rt: HostRuntime) -> Result<(), Fail> {
    assert!(rt; !is_known_in(ChainKind::Cache, flag_under(Flag::Known, Flag::Unknown)));
    assert!(rt; is_known_in(ChainKind::Cache, flag_under(Flag::Known, Flag::Inherit)));
    assert!(rt; !is_known_in(ChainKind::Cache, flag_under(Flag::Inherit, Flag::Inherit)));
    assert!(rt;
        is_known_in(
            ChainKind::Memtable,
            flag_under(Flag::Inherit, Flag::Inherit)
        )
    );
    Ok(())
}

// The cleaner puts a tombstone of 9 down under one of 4: it is joined where the newer version inherits, and dropped under an unknown.
#[test]
fn an_unknown_drops_what_lies_under_it(rt: HostRuntime) -> Result<(), Fail> {
    let older = mark_of(K, 9);
    assert!(rt; stamp(put_down(older, mark_of(I, 4)).tomb) == 9);
    assert!(rt; stamp(put_down(older, mark_of(U, 4)).tomb) == 4);
    assert!(rt; stamp(raised_mark(older, tomb_of(12)).tomb) == 12);
    Ok(())
}

// Only the newest of three versions populates, and not under update.
#[test]
fn only_the_newest_version_populates(rt: HostRuntime) -> Result<(), Fail> {
    assert!(rt; may_populate(2, 3, true, false));
    assert!(rt; !may_populate(1, 3, true, false));
    assert!(rt; !may_populate(2, 3, true, true));
    assert!(rt; !may_populate(2, 3, false, false));
    Ok(())
}

// The versions of these lines, the oldest first.
fn chain_of(alloc: Global, versions: &[&[Line]]) -> Result<Vec<PlainVersion>, AllocError> {
    let mut chain = Vec::new(alloc);
    for lines in versions {
        chain.push(version_of(alloc, lines)?)?;
    }
    Ok(chain)
}

// Whether a number is known, and the timestamps of the row and of the tombstone that are seen there.
fn told(
    alloc: Global,
    kind: ChainKind,
    versions: &[&[Line]],
    number: i64,
) -> Result<(bool, i64, i64), AllocError> {
    let chain = chain_of(alloc, versions)?;
    told_at(alloc, kind, chain.as_slice(), number)
}

fn told_at(
    alloc: Global,
    kind: ChainKind,
    chain: &[PlainVersion],
    number: i64,
) -> Result<(bool, i64, i64), AllocError> {
    let place = place_of(alloc, number)?;
    let known = is_known_at(alloc, kind, chain, &place)?;
    let seen = seen_at(alloc, chain, &place, Side::On)?;
    Ok((known, seen.row.marker.unwrap_or(0), stamp(seen.tomb)))
}

// A known row, of which the gap behind it was lost.
const ROW: [Line; 2] = [(2, 7, K, 0, U, 0), (0, 0, U, 0, U, 0)];

// A bare position is known only with the gap behind it.
#[test]
fn a_bare_position_by_hand(rt: HostRuntime) -> Result<(), Fail> {
    let bare: [Line; 2] = [(2, 0, K, 0, U, 0), (0, 0, U, 0, U, 0)];
    assert!(rt; told(rt.alloc(), ChainKind::Cache, &[&bare], 2)? == (false, 0, 0));
    Ok(())
}

// Evicted from the newer version: the older row is not believed.
#[test]
fn an_evicted_row_by_hand(rt: HostRuntime) -> Result<(), Fail> {
    let newer: [Line; 1] = [(0, 0, I, 0, U, 0)];
    assert!(rt; told(rt.alloc(), ChainKind::Cache, &[&ROW, &newer], 2)? == (false, 0, 0));
    Ok(())
}

// An update over a known row: what it inherits is known, and both are joined.
#[test]
fn an_updated_row_by_hand(rt: HostRuntime) -> Result<(), Fail> {
    let newer: [Line; 2] = [(2, 9, I, 4, I, 0), END];
    assert!(rt; told(rt.alloc(), ChainKind::Cache, &[&ROW, &newer], 2)? == (true, 9, 4));
    Ok(())
}

// A memtable of two versions: all is known, and all is joined.
#[test]
fn a_memtable_by_hand(rt: HostRuntime) -> Result<(), Fail> {
    let older: [Line; 3] = [(1, 0, I, 3, I, 0), (3, 0, I, 0, I, 3), END];
    let newer: [Line; 2] = [(2, 9, I, 5, I, 0), END];
    assert!(rt; told(rt.alloc(), ChainKind::Memtable, &[&older, &newer], 2)? == (true, 9, 5));
    Ok(())
}

// Whether of a version under update the dummy before the place may be evicted, and that at the place and the end dummy stay.
fn keeps_place(place: &Pos, version: &mut PlainVersion) -> bool {
    is_at_place(place, version)
        && evict_under_update(place, version, 0)
        && is_at_place(place, version)
        && version.entries.len() == 2
        && !evict_under_update(place, version, 0)
        && version.entries.len() == 2
        && !evict_under_update(place, version, 1)
}

// The same of a version under update at 2.
fn keeps_two(alloc: Global) -> Result<bool, AllocError> {
    let place = place_of(alloc, 2)?;
    let mut version = version_of(alloc, &[(1, 9, I, 0, I, 0), (2, 0, I, 0, I, 4), END])?;
    Ok(keeps_place(&place, &mut version))
}

#[test]
fn the_dummy_at_the_place_stays(rt: HostRuntime) -> Result<(), Fail> {
    assert!(rt; keeps_two(rt.alloc())?);
    Ok(())
}

// Whether a version of these lines stands at the place of an update.
fn stands_at(alloc: Global, number: i64, lines: &[Line]) -> Result<bool, AllocError> {
    let place = place_of(alloc, number)?;
    let version = version_of(alloc, lines)?;
    Ok(is_at_place(&place, &version))
}

// Two versions under update at 2 that are told by what stands behind the place: a listed dummy there, whose eviction would leave an Unknown behind the
// place, and a tombstone over the gap up to the end, which the update has not come to.
#[test]
fn what_would_go_wrong_behind_the_place_is_refused(rt: HostRuntime) -> Result<(), Fail> {
    let dummy: [Line; 3] = [(2, 0, I, 0, I, 0), (3, 0, I, 0, I, 0), END];
    assert!(rt; !stands_at(rt.alloc(), 2, &dummy)?);
    let tomb: [Line; 2] = [(2, 0, I, 0, I, 0), (0, 0, I, 0, I, 4)];
    assert!(rt; !stands_at(rt.alloc(), 2, &tomb)?);
    Ok(())
}

// Two snapshots: the first is released, and the second keeps its number.
#[test]
fn a_released_pin_leaves_the_others(rt: HostRuntime) -> Result<(), Fail> {
    let mut pins = Vec::new(rt.alloc());
    pins.push(Some(3_usize))?;
    pins.push(Some(5_usize))?;
    release_pin(&mut pins, 0);
    assert!(rt; pins.len() == 2 && pins[0].is_none() && pins[1] == Some(5));
    Ok(())
}

fn with_statics(alloc: Global, ts: i64, flag: Flag, pt: i64) -> Result<PlainVersion, AllocError> {
    let mut version = version_of(alloc, &[END])?;
    version.pt = tomb_of(pt);
    version.statics = row_of(alloc, ts);
    version.static_flag = flag;
    Ok(version)
}

// A version with a static row of 5 under one with a static row of 7, each of a flag and a partition tombstone.
fn two_with_statics(
    alloc: Global,
    older: (Flag, i64),
    newer: (Flag, i64),
) -> Result<Vec<PlainVersion>, AllocError> {
    let mut chain = Vec::new(alloc);
    chain.push(with_statics(alloc, 5, older.0, older.1)?)?;
    chain.push(with_statics(alloc, 7, newer.0, newer.1)?)?;
    Ok(chain)
}

// Whether their static row is known; and whether the newer one is seen, and a partition tombstone of 6.
fn statics_told(
    alloc: Global,
    older: (Flag, i64),
    newer: (Flag, i64),
) -> Result<(bool, bool), AllocError> {
    let chain = two_with_statics(alloc, older, newer)?;
    let seen = statics_at(alloc, chain.as_slice())?;
    let known = is_known_in(ChainKind::Cache, seen.flag);
    let newest = seen.row.marker == Some(7) && head_of(chain.as_slice()) == tomb_of(6);
    Ok((known, newest))
}

// Of two versions the flag of the static row and the partition tombstone, and what is told of them. The static row of an older version is seen through
// one that inherits, and not through one whose flag the cleaner set to Unknown, or where the flag of a dropped version was lost; and the partition
// tombstone is the greatest of all.
const STATICS: [((Flag, i64), (Flag, i64), (bool, bool)); 4] = [
    ((K, 4), (I, 6), (true, true)),
    ((K, 6), (U, 4), (false, true)),
    ((I, 6), (I, 0), (false, true)),
    ((U, 0), (K, 6), (true, true)),
];

// Whether this is told of each of these.
fn are_statics(
    alloc: Global,
    table: &[((Flag, i64), (Flag, i64), (bool, bool))],
) -> Result<bool, AllocError> {
    for (older, newer, wanted) in table {
        if statics_told(alloc, *older, *newer)? != *wanted {
            return Ok(false);
        }
    }
    Ok(true)
}

#[test]
fn static_rows_by_hand(rt: HostRuntime) -> Result<(), Fail> {
    assert!(rt; are_statics(rt.alloc(), &STATICS)?);
    Ok(())
}

// Whether of three versions the middle one is the base of a position, the oldest that of the gap behind it, and that gap is not flagged.
fn are_bases(alloc: Global, chain: &[PlainVersion], place: &Pos) -> Result<bool, AllocError> {
    let bases = base_at(chain, place, Side::On) == Some(1)
        && base_at(chain, place, Side::Behind) == Some(0);
    Ok(bases && !is_flagged_at(alloc, ChainKind::Cache, chain, place, Side::Behind)?)
}

// The same of the position 2, in three versions.
fn bases_told(alloc: Global) -> Result<bool, AllocError> {
    let oldest: [Line; 1] = [(0, 0, U, 0, U, 0)];
    let older: [Line; 2] = [(2, 7, K, 0, I, 0), END];
    let newest: [Line; 2] = [(2, 9, I, 0, I, 0), END];
    let chain = chain_of(alloc, &[&oldest, &older, &newest])?;
    let place = place_of(alloc, 2)?;
    are_bases(alloc, chain.as_slice(), &place)
}

#[test]
fn bases_by_hand(rt: HostRuntime) -> Result<(), Fail> {
    assert!(rt; bases_told(rt.alloc())?);
    Ok(())
}

// What kind of part it is, the number where it ends, and the timestamps of its row and its tombstone.
fn part_told(part: &Part) -> (u8, i64, i64, i64) {
    match part {
        Part::Row { key: _, row, tomb } => (1, 0, row.marker.unwrap_or(0), stamp(*tomb)),
        Part::Gap { to, tomb } => (2, number_of(to), 0, stamp(*tomb)),
        Part::Missing { to } => (3, number_of(to), 0, 0),
        Part::End => (4, 0, 0, 0),
    }
}

fn number_of(x: &Pos) -> i64 {
    match x.prefix.as_slice() {
        [Comp::Int(number), ..] => *number,
        _ => 0,
    }
}

// The first part from a number on, up to 8.
fn part_from(
    alloc: Global,
    chain: &[PlainVersion],
    number: i64,
) -> Result<(u8, i64, i64, i64), AllocError> {
    let x = place_of(alloc, number)?;
    let bound = place_of(alloc, 8)?;
    match x.cmp(&bound) {
        Ordering::Less | Ordering::Equal => {
            let part = first_part(alloc, ChainKind::Cache, chain, &x, &bound)?;
            Ok(part_told(&part))
        }
        Ordering::Greater => Ok((0, 0, 0, 0)),
    }
}

// Whether the parts from these numbers on are these.
fn are_parts(
    alloc: Global,
    chain: &[PlainVersion],
    table: &[(i64, (u8, i64, i64, i64))],
) -> Result<bool, AllocError> {
    for (from, expected) in table {
        if part_from(alloc, chain, *from)? != *expected {
            return Ok(false);
        }
    }
    Ok(true)
}

// Two versions: over an older one that knows 1 to 5 with a tombstone of 5 lies one with a row at 2 and a loss at 4.
#[test]
fn parts_by_hand(rt: HostRuntime) -> Result<(), Fail> {
    let older: [Line; 3] = [(1, 0, K, 5, U, 0), (5, 0, U, 0, K, 5), (0, 0, U, 0, U, 0)];
    let newer: [Line; 3] = [(2, 9, I, 0, I, 0), (4, 0, U, 0, I, 0), END];
    let chain = chain_of(rt.alloc(), &[&older, &newer])?;
    assert!(rt; are_parts(rt.alloc(), chain.as_slice(), &PARTS)?);
    Ok(())
}

// From a number on: what kind of part, and the rest of what is told of it.
const PARTS: [(i64, (u8, i64, i64, i64)); 6] = [
    (1, (2, 2, 0, 5)),
    (2, (1, 0, 9, 5)),
    (3, (2, 4, 0, 5)),
    (4, (3, 5, 0, 0)),
    (5, (3, 8, 0, 0)),
    (8, (4, 0, 0, 0)),
];

// A row of an update takes the tombstone in force.
#[test]
fn a_row_takes_the_tombstone_in_force(rt: HostRuntime) -> Result<(), Fail> {
    let mut entry = entry_of(rt.alloc(), &(3, 4, I, 2, U, 0))?;
    join_updated_row(rt.alloc(), &mut entry, marked(rt.alloc(), 7), tomb_of(5))?;
    assert!(rt; stamp(entry.at.tomb) == 5);
    Ok(())
}

// An end dummy is put down under the next version's.
#[test]
fn an_end_dummy_is_put_down(rt: HostRuntime) -> Result<(), Fail> {
    let mut end = entry_of(rt.alloc(), &(0, 0, I, 0, I, 1))?;
    merge_end(&entry_of(rt.alloc(), &(0, 0, K, 0, K, 3))?, &mut end);
    assert!(rt; stamp(end.gap.tomb) == 3);
    Ok(())
}

// A head is put down under the next version's.
#[test]
fn a_head_is_put_down(rt: HostRuntime) -> Result<(), Fail> {
    let mut older = version_of(rt.alloc(), &[(0, 0, K, 0, K, 3)])?;
    older.static_flag = K;
    older.pt = tomb_of(8);
    let mut newer = version_of(rt.alloc(), &[(0, 0, I, 0, I, 1)])?;
    merge_head(&older, &mut newer);
    assert!(rt; stamp(newer.pt) == 8 && is_known_in(ChainKind::Cache, newer.static_flag));
    Ok(())
}
