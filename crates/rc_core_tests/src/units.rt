//! Each unit of `rc_units` once, with answers worked out by hand from what it is to do.

use crate::lines::{
    END, I, K, Line, U, end_place, entries_of, entry_of, mark_of, marked, place, place_of, stamp,
    tomb_of, version_with,
};
use rc_cell::{Row, Tomb};
use rc_core::{Entry, Flag, Mark, is_at_place};
use rc_mutation::Frag;
use rc_position::{Pos, Weight};
use rc_units::{
    close_gap, copy_entries, force_behind, join_row, lose_rest, merge_end_dummy, merge_first_entry,
    merge_onto, put_fragment,
};
use std::alloc::{AllocError, Global};
use std::fmt::Write;
use std::test::Fail;

fn letter(flag: Flag) -> char {
    match flag {
        Flag::Known => 'K',
        Flag::Unknown => 'U',
        Flag::Inherit => 'I',
    }
}

fn marker_of(row: &Option<Row>) -> i64 {
    match row {
        Some(row) => row.marker.unwrap_or(0),
        None => 0,
    }
}

// A flag and a tombstone.
fn tell_mark(mark: Mark, text: &mut String) -> Result<(), AllocError> {
    let (flag, ts) = (letter(mark.flag), stamp(mark.tomb));
    write!(text, "{flag}{ts} ")
}

// Of an entry: the flag and the tombstone of the gap before it, its own flag and tombstone, and its row's marker.
fn tell(entry: &Entry, text: &mut String) -> Result<(), AllocError> {
    tell_mark(entry.gap, text)?;
    tell_mark(entry.at, text)?;
    let marker = marker_of(&entry.row);
    write!(text, "{marker};")
}

// Whether this is told of entries.
fn is_told(alloc: Global, entries: &[Entry], wanted: &str) -> Result<bool, AllocError> {
    let mut text = String::new(alloc);
    for entry in entries {
        tell(entry, &mut text)?;
    }
    Ok(text.as_str() == wanted)
}

// Whether this is told of entries that were made.
fn are(
    alloc: Global,
    made: Result<Vec<Entry>, AllocError>,
    wanted: &str,
) -> Result<bool, AllocError> {
    match made {
        Ok(entries) => is_told(alloc, entries.as_slice(), wanted),
        Err(error) => Err(error),
    }
}

// Whether this is told of an entry that was made.
fn is_one(
    alloc: Global,
    made: Result<Entry, AllocError>,
    wanted: &str,
) -> Result<bool, AllocError> {
    match made {
        Ok(entry) => {
            let mut text = String::new(alloc);
            tell(&entry, &mut text)?;
            Ok(text.as_str() == wanted)
        }
        Err(error) => Err(error),
    }
}

// The first entry of a version merged into another one.
fn merged_first(alloc: Global, older: &[Line], newer: &[Line]) -> Result<Vec<Entry>, AllocError> {
    let older = entries_of(alloc, older)?;
    let newer = entries_of(alloc, newer)?;
    match older.as_slice() {
        [first, next, ..] => merge_first_entry(alloc, first, next, newer.as_slice()),
        _ => Ok(newer),
    }
}

// A known row under a tombstone, before a gap that lost what it had, under a version that says nothing but a tombstone of 4.
#[test]
fn merges_a_row_into_an_empty_version(rt: HostRuntime) -> Result<(), Fail> {
    let older = [(1, 5, K, 0, K, 9), (0, 0, I, 0, U, 0)];
    let newer = [(0, 0, I, 0, I, 4)];
    let made = merged_first(rt.alloc(), &older, &newer);
    assert!(rt; are(rt.alloc(), made, "K9 K4 5;U4 I0 0;")?);
    Ok(())
}

// A known row of 5, of a version of its own, merged onto the entry of a line.
fn row_onto(alloc: Global, line: &Line) -> Result<Entry, AllocError> {
    let first = entry_of(alloc, &(1, 5, K, 0, K, 0))?;
    let next = entry_of(alloc, &END)?;
    let onto = entry_of(alloc, line)?;
    merge_onto(alloc, &first, &next, &onto)
}

// Under an inheriting row the older one is joined, under an unknown one it is dropped.
#[test]
fn an_unknown_row_drops_the_older_one(rt: HostRuntime) -> Result<(), Fail> {
    let joined = row_onto(rt.alloc(), &(1, 3, I, 0, U, 0));
    assert!(rt; is_one(rt.alloc(), joined, "U0 K0 5;")?);
    let dropped = row_onto(rt.alloc(), &(1, 3, U, 0, I, 0));
    assert!(rt; is_one(rt.alloc(), dropped, "K0 U0 3;")?);
    Ok(())
}

// A known end dummy under a tombstone of 6 merged under a row of 3.
fn end_merged(alloc: Global) -> Result<Vec<Entry>, AllocError> {
    let newer = entries_of(alloc, &[(1, 3, I, 0, U, 0), END])?;
    let end = entry_of(alloc, &(0, 0, K, 0, K, 6))?;
    merge_end_dummy(alloc, &end, newer.as_slice())
}

// The gap before an end dummy goes under all before it.
#[test]
fn merges_an_end_dummy(rt: HostRuntime) -> Result<(), Fail> {
    assert!(rt; are(rt.alloc(), end_merged(rt.alloc()), "U0 K6 3;K6 K0 0;")?);
    Ok(())
}

// An update that has begun, and stands at this place.
fn begun(alloc: Global, at: &Pos) -> Result<Vec<Entry>, AllocError> {
    let nothing = entries_of(alloc, &[END])?;
    put_fragment(alloc, None, &Frag::Start(None), at, &nothing)
}

// A row of 5 at a position, and the place behind it.
fn with_row_at(
    alloc: Global,
    at: &Pos,
    next: &Pos,
    entries: &[Entry],
) -> Result<Vec<Entry>, AllocError> {
    let key = at.prefix.copy(alloc)?;
    let row = Frag::Row(key, marked(alloc, 5));
    put_fragment(alloc, None, &row, next, entries)
}

// A row at 1, and the place at 2.
fn with_row(alloc: Global) -> Result<Vec<Entry>, AllocError> {
    let one = place_of(alloc, 1)?;
    let two = place_of(alloc, 2)?;
    let entries = begun(alloc, &one)?;
    with_row_at(alloc, &one, &two, &entries)
}

// A tombstone of 8 from here on, and the place behind it.
fn with_tomb(
    alloc: Global,
    from: &Pos,
    next: &Pos,
    entries: &[Entry],
) -> Result<Vec<Entry>, AllocError> {
    let change = Frag::Change(from.copy(alloc)?, Some(Tomb { ts: 8, dt: 0 }));
    put_fragment(alloc, None, &change, next, entries)
}

// An update with a row at 1 and a tombstone of 8 from 2 on.
fn with_both(alloc: Global) -> Result<Vec<Entry>, AllocError> {
    let entries = with_row(alloc)?;
    let two = place_of(alloc, 2)?;
    with_tomb(alloc, &two, &end_place(alloc), entries.as_slice())
}

// Each unit leaves a dummy at the next place, and all flags inherit.
#[test]
fn puts_fragments_in_one_after_another(rt: HostRuntime) -> Result<(), Fail> {
    assert!(rt;
        are(
            rt.alloc(),
            with_both(rt.alloc()),
            "I0 I0 5;I0 I8 0;I8 I0 0;"
        )?
    );
    Ok(())
}

// An update with a row at 1, whose rest is lost.
fn with_lost(alloc: Global) -> Result<Vec<Entry>, AllocError> {
    let two = place_of(alloc, 2)?;
    let mut made = with_row(alloc)?;
    lose_rest(&two, made.as_mut_slice());
    Ok(made)
}

// Without room the rest is lost.
#[test]
fn loses_the_rest_without_room(rt: HostRuntime) -> Result<(), Fail> {
    assert!(rt;
        are(
            rt.alloc(),
            with_lost(rt.alloc()),
            "I0 I0 5;I0 U0 0;U0 I0 0;"
        )?
    );
    Ok(())
}

// The tombstone in force is that of the last change.
#[test]
fn a_change_sets_the_tombstone_in_force(rt: HostRuntime) -> Result<(), Fail> {
    let four = tomb_of(4);
    let change = Frag::Change(place_of(rt.alloc(), 1)?, None);
    assert!(rt; force_behind(four, &change).is_none());
    assert!(rt; force_behind(four, &Frag::End).is_some());
    assert!(rt; force_behind(four, &Frag::Start(four)).is_none());
    Ok(())
}

// A row of 5 joined where one of 3 stands.
fn row_joined(alloc: Global) -> Result<Vec<Entry>, AllocError> {
    let entries = entries_of(alloc, &[(1, 3, K, 0, K, 0), END])?;
    let at = place_of(alloc, 1)?;
    join_row(alloc, &at, &marked(alloc, 5), entries.as_slice())
}

// It makes no entry.
#[test]
fn joins_a_row_at_its_entry(rt: HostRuntime) -> Result<(), Fail> {
    assert!(rt; are(rt.alloc(), row_joined(rt.alloc()), "K0 K0 5;I0 I0 0;")?);
    Ok(())
}

// Why the unit that merges the last inner entry drops the version too: without that a version is left of which nothing may be listed, since its
// end dummy was evicted, and whose gap before the end dummy is no longer Unknown.
#[test]
fn a_last_entry_merged_alone_leaves_a_gap_that_is_not_unknown(rt: HostRuntime) -> Result<(), Fail> {
    let mut end = entry_of(rt.alloc(), &(0, 0, K, 0, U, 0))?;
    assert!(rt; letter(end.gap.flag) == 'U');
    close_gap(&mut end);
    assert!(rt; letter(end.gap.flag) == 'I');
    Ok(())
}

// Before the key 2.
fn before_two(alloc: Global) -> Result<Pos, AllocError> {
    place(alloc, 2, Weight::Before)
}

// Whether the version of entries that were made stands at the place of an update.
fn stand_at(place: &Pos, made: Result<Vec<Entry>, AllocError>) -> Result<bool, AllocError> {
    match made {
        Ok(entries) => Ok(is_at_place(place, &version_with(entries))),
        Err(error) => Err(error),
    }
}

// Whether an update of a tombstone from before the key 2 on is at the place of its first change.
fn stands_before(alloc: Global) -> Result<bool, AllocError> {
    let before = before_two(alloc)?;
    stand_at(&before, begun(alloc, &before))
}

#[test]
fn an_update_stands_before_a_key(rt: HostRuntime) -> Result<(), Fail> {
    assert!(rt; stands_before(rt.alloc())?);
    Ok(())
}

// The same update, gone on to the place of the key's row.
fn gone_on(alloc: Global) -> Result<Vec<Entry>, AllocError> {
    let before = before_two(alloc)?;
    let entries = begun(alloc, &before)?;
    gone_on_from(alloc, &before, entries.as_slice())
}

fn gone_on_from(alloc: Global, before: &Pos, entries: &[Entry]) -> Result<Vec<Entry>, AllocError> {
    let row = place_of(alloc, 2)?;
    with_tomb(alloc, before, &row, entries)
}

// A copy of its entries.
fn copied(alloc: Global) -> Result<Vec<Entry>, AllocError> {
    let entries = gone_on(alloc)?;
    copy_entries(alloc, entries.as_slice())
}

// Whether it stands at the row of the key.
fn stands_at_row(alloc: Global) -> Result<bool, AllocError> {
    let row = place_of(alloc, 2)?;
    stand_at(&row, copied(alloc))
}

#[test]
fn an_update_goes_on_to_the_row_of_the_key(rt: HostRuntime) -> Result<(), Fail> {
    assert!(rt; stands_at_row(rt.alloc())?);
    Ok(())
}

// The same entries, but that their first dummy inherits.
fn gone_on_silently(alloc: Global) -> Result<Vec<Entry>, AllocError> {
    let mut entries = gone_on(alloc)?;
    if let Some(dummy) = entries.first_mut() {
        dummy.at = mark_of(I, 0);
    }
    Ok(entries)
}

// Whether their version stands before the key.
fn stands_silently(alloc: Global) -> Result<bool, AllocError> {
    let before = before_two(alloc)?;
    stand_at(&before, gone_on_silently(alloc))
}

// Its unit puts the tombstone on the gap between that and the row's own place, which holds no position, and leaves a dummy there. At the place
// before it, where no position would show the tombstone, the version is refused, whatever the dummy says.
#[test]
fn a_tombstone_on_a_gap_of_no_position_is_refused_behind_the_place(
    rt: HostRuntime,
) -> Result<(), Fail> {
    let made = gone_on_silently(rt.alloc());
    assert!(rt; are(rt.alloc(), made, "I0 I0 0;I8 I0 0;I0 I0 0;")?);
    assert!(rt; !stands_silently(rt.alloc())?);
    Ok(())
}
