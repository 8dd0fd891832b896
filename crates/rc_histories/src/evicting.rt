//! Eviction of one object: an entry, the gap before an end dummy, a static row.

use crate::chain::{Chain, Place};
use crate::history::History;
use crate::step::{Effect, Step};
use crate::universe::end_position;
use rc_core::{Entry, Flag, PlainVersion, drop_entry, evict_under_update, mark_of_lost};
use rc_position::Pos;
use std::alloc::Global;

/// Some object of some version of a cache's chain.
pub(crate) fn evict(alloc: Global, history: &mut History) -> Option<Step> {
    let number = history.chance.index(history.chain.versions.len());
    let statics = history.chance.happens(15);
    let is_newest = history.chain.is_newest(number);
    let version = history.chain.versions.get_mut(number)?;
    if statics {
        return evict_statics(version);
    }
    let index = history.chance.index(version.entries.len());
    match &history.chain.update {
        Some(update) if is_newest => {
            evict_at_place(&end_position(alloc), update.place(), version, index)
        }
        _ => evict_entry(&mut version.entries, index),
    }
}

fn evict_statics(version: &mut PlainVersion) -> Option<Step> {
    if version.statics.is_none() {
        return None;
    }
    version.statics = None;
    version.static_flag = Flag::Unknown;
    Some(Step::new("eviction of a static row", Effect::Less))
}

fn evict_entry(entries: &mut Vec<Entry>, index: usize) -> Option<Step> {
    let count = entries.len();
    if index >= count {
        return None;
    }
    if index < count - 1 {
        drop_entry(entries, index);
        return Some(Step::new("eviction of an entry", Effect::Less));
    }
    let end = entries.last_mut()?;
    end.gap = mark_of_lost();
    Some(Step::new("eviction of an end dummy", Effect::Less))
}

// Of the version under update; everything stands before the end.
fn evict_at_place(
    end: &Pos,
    place: Option<&Place>,
    version: &mut PlainVersion,
    index: usize,
) -> Option<Step> {
    if index >= version.entries.len() {
        return None;
    }
    let place = match place {
        Some(Place::At(place)) => place,
        _ => end,
    };
    if evict_under_update(place, version, index) {
        Some(Step::new("eviction under update before the place", Effect::Open))
    } else {
        Some(Step::new("eviction under update refused", Effect::Open))
    }
}

/// Whether nobody finds a chain by its key, and nobody reads it.
pub(crate) fn is_left(chain: &Chain) -> bool {
    !chain.attached && !chain.versions.is_empty() && chain.is_unpinned()
}
