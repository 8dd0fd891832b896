//! The cleaner: a part of a version that nobody reads goes under the next newer one, or is lost where there is no room; and the objects of
//! a chain that nobody finds or reads are freed one at a time.

use crate::chain::{Chain, put_entries};
use crate::evicting::is_left;
use crate::history::History;
use crate::step::{Effect, Step};
use crate::tally::Tally;
use rc_core::{
    ChainKind, Entry, Flag, Mark, PlainVersion, drop_entry, flag_under, mark_of_lost, merge_head,
};
use rc_units::{
    close_gap, may_merge, merge_end_dummy, merge_first_entry, next_to_clean, put_row_down,
};
use std::alloc::{AllocError, Global};

/// A unit of the cleaner, of the version that comes next or of another that it may merge.
pub(crate) fn clean(
    alloc: Global,
    history: &mut History,
    tally: &mut Tally,
) -> Result<Option<Step>, AllocError> {
    let room = !history.chance.happens(12);
    let chain = &mut history.chain;
    let versions = chain.versions.len();
    let updating = chain.is_updating();
    let some = history.chance.index(versions);
    let next = next_to_clean(versions, chain.pins.as_slice(), updating);
    let other = some < versions && may_merge(some, versions, chain.pins.as_slice(), updating);
    let number = if other { Some(some) } else { next };
    let Some(number) = number else {
        return Ok(None);
    };
    let before = units_left(chain);
    let step = clean_version(alloc, chain, number, room)?;
    let ends = next != Some(number) || units_left(chain) < before;
    tally.expect(
        ends,
        "less is left to clean after a unit of what comes next",
    );
    Ok(step)
}

// A unit of the version of a number, which the next newer one takes in.
fn clean_version(
    alloc: Global,
    chain: &mut Chain,
    number: usize,
    room: bool,
) -> Result<Option<Step>, AllocError> {
    let Some((older, newer)) = both_of(chain.versions.as_mut_slice(), number) else {
        return Ok(None);
    };
    let step = merge(alloc, chain.kind, room, older, newer)?;
    if step.dropped {
        drop_version(chain, number);
    }
    Ok(Some(step))
}

// The version of a number, and the next newer one.
fn both_of(
    versions: &mut [PlainVersion],
    number: usize,
) -> Option<(&mut PlainVersion, &mut PlainVersion)> {
    if number >= versions.len() {
        return None;
    }
    let (older, newer) = versions.split_at_mut(number + 1);
    Some((older.last_mut()?, newer.first_mut()?))
}

fn drop_version(chain: &mut Chain, number: usize) {
    if number < chain.versions.len() {
        let _version = chain.versions.remove(number);
    }
    renumber(&mut chain.pins, number);
}

// The objects of the versions that may be merged.
fn units_left(chain: &Chain) -> usize {
    let versions = chain.versions.len();
    let updating = chain.is_updating();
    let mut left = 0_usize;
    for number in 0..versions {
        if may_merge(number, versions, chain.pins.as_slice(), updating)
            && let Some(version) = chain.versions.get(number)
        {
            left = left.saturating_add(objects_of(version));
        }
    }
    left
}

// The entries of a version, and its static row.
fn objects_of(version: &PlainVersion) -> usize {
    let entries = version.entries.len();
    if version.statics.is_some() {
        entries.saturating_add(1)
    } else {
        entries
    }
}

// The pins of newer versions, once one is gone.
fn renumber(pins: &mut Vec<Option<usize>>, gone: usize) {
    for pin in pins.iter_mut() {
        if let Some(number) = *pin
            && number > gone
        {
            *pin = Some(number - 1);
        }
    }
}

// One unit: the static row first, then the first entry, and the end dummy last, with which the older version is dropped.
fn merge(
    alloc: Global,
    kind: ChainKind,
    room: bool,
    older: &mut PlainVersion,
    newer: &mut PlainVersion,
) -> Result<Step, AllocError> {
    if !room && !is_memtable(kind) && lose_first(older) {
        return Ok(Step::new("unit of the cleaner without room", Effect::Less));
    }
    if older.statics.is_some() {
        merge_statics(alloc, older, newer)?;
        return Ok(Step::carrying("unit of the cleaner: static row", Effect::Nothing));
    }
    merge_entry(alloc, older, newer)?;
    if older.entries.len() > 1 {
        return Ok(Step::carrying("unit of the cleaner: entry", Effect::Nothing));
    }
    merge_last(alloc, older, newer)
}

// The end dummy.
fn merge_last(
    alloc: Global,
    older: &mut PlainVersion,
    newer: &mut PlainVersion,
) -> Result<Step, AllocError> {
    merge_rest(alloc, older, newer)?;
    Ok(Step {
        kind: "unit of the cleaner: version dropped",
        effect: Effect::Nothing,
        carries: true,
        dropped: true,
    })
}

fn is_memtable(kind: ChainKind) -> bool {
    match kind {
        ChainKind::Memtable => true,
        ChainKind::Cache => false,
    }
}

// The static row of a version is lost, or else its first entry; whether there is one but the end dummy.
fn lose_first(version: &mut PlainVersion) -> bool {
    if version.statics.is_some() {
        version.statics = None;
        version.static_flag = Flag::Unknown;
        return true;
    }
    drop_first(&mut version.entries)
}

// The first entry is dropped, where it is not the end dummy; whether it is not.
fn drop_first(entries: &mut Vec<Entry>) -> bool {
    if entries.len() > 1 {
        drop_entry(entries, 0);
        return true;
    }
    false
}

fn merge_statics(
    alloc: Global,
    older: &mut PlainVersion,
    newer: &mut PlainVersion,
) -> Result<(), AllocError> {
    newer.statics = put_row_down(alloc, &older.statics, newer.static_flag, &newer.statics)?;
    newer.static_flag = flag_under(older.static_flag, newer.static_flag);
    older.statics = None;
    older.static_flag = Flag::Inherit;
    Ok(())
}

fn merge_entry(
    alloc: Global,
    older: &mut PlainVersion,
    newer: &mut PlainVersion,
) -> Result<(), AllocError> {
    put_first(alloc, older.entries.as_slice(), newer)?;
    if drop_first(&mut older.entries)
        && let Some(next) = older.entries.first_mut()
    {
        close_gap(next);
    }
    Ok(())
}

// What the first entry says goes into the newer version.
fn put_first(alloc: Global, older: &[Entry], newer: &mut PlainVersion) -> Result<(), AllocError> {
    match older {
        [first, next, ..] => {
            let made = merge_first_entry(alloc, first, next, newer.entries.as_slice());
            put_entries(newer, made)
        }
        _ => Ok(()),
    }
}

fn merge_rest(
    alloc: Global,
    older: &mut PlainVersion,
    newer: &mut PlainVersion,
) -> Result<(), AllocError> {
    if let Some(end) = older.entries.first() {
        let made = merge_end_dummy(alloc, end, newer.entries.as_slice());
        put_entries(newer, made)?;
    }
    merge_head(older, newer);
    Ok(())
}

/// The next object of a chain that nobody finds by its key or reads.
pub(crate) fn free(history: &mut History) -> Option<Step> {
    let chain = &mut history.chain;
    if !is_left(chain) {
        return None;
    }
    free_object(chain);
    if chain.versions.is_empty() {
        chain.pins.truncate(0);
    }
    Some(Step::new("object freed", Effect::Open))
}

fn free_object(chain: &mut Chain) {
    let freed = match chain.kind {
        ChainKind::Cache => mark_of_lost(),
        ChainKind::Memtable => Mark {
            flag: Flag::Inherit,
            tomb: None,
        },
    };
    let Some(version) = chain.versions.first_mut() else {
        return;
    };
    if version.statics.is_some() {
        version.statics = None;
        version.static_flag = freed.flag;
    } else if version.entries.len() > 1 {
        drop_entry(&mut version.entries, 0);
        if let Some(next) = version.entries.first_mut() {
            next.gap = freed;
        }
    } else {
        let _version = chain.versions.remove(0);
    }
}
