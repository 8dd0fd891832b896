//! A snapshot fills the cache: a gap, a row, the static row.

use crate::chain::{Chain, put_entries};
use crate::history::History;
use crate::source::{Said, Source};
use crate::step::{Effect, Step};
use crate::universe::{KEYS, position};
use rc_cell::{Row, Tomb};
use rc_core::{Entry, Flag, Mark, PlainVersion, filled_mark, may_populate};
use rc_position::{Pos, Weight};
use rc_units::{join_row, split_entries};
use std::alloc::{AllocError, Global};

// The newest version, and what its writes say, where a snapshot pins it that may populate the cache.
fn to_fill<'a>(
    chain: &'a mut Chain,
    sources: &'a [Source],
) -> Option<(&'a mut PlainVersion, &'a Source)> {
    let versions = chain.versions.len();
    let pin = versions.checked_sub(1)?;
    let updating = chain.is_updating();
    if !chain.is_pinned(pin) || !may_populate(pin, versions, chain.attached, updating) {
        return None;
    }
    let version = chain.versions.last_mut()?;
    let source = sources.get(version.phase as usize)?;
    Some((version, source))
}

/// A gap between two stops in which the writes say of no row, and of one tombstone.
pub(crate) fn fill_gap(alloc: Global, history: &mut History) -> Result<Option<Step>, AllocError> {
    let first = history.chance.index(history.universe.stops.len());
    let second = first
        .saturating_add(1)
        .saturating_add(history.chance.index(4));
    let stops = history.universe.stops.as_slice();
    let (Some(from), Some(to)) = (stops.get(first), stops.get(second)) else {
        return Ok(None);
    };
    let Some((version, source)) = to_fill(&mut history.chain, history.sources.as_slice()) else {
        return Ok(None);
    };
    if fill_between(alloc, version, source, from, to)? {
        return Ok(Some(Step::carrying("fill of a gap", Effect::Between(first, second))));
    }
    Ok(None)
}

// The gap between two positions, where the writes say of no row and of one tombstone; whether they do.
fn fill_between(
    alloc: Global,
    version: &mut PlainVersion,
    source: &Source,
    from: &Pos,
    to: &Pos,
) -> Result<bool, AllocError> {
    let Some(tomb) = tomb_of_gap(source, from, to) else {
        return Ok(false);
    };
    let made = with_gap(alloc, from, to, tomb, version.entries.as_slice());
    put_entries(version, made)?;
    Ok(true)
}

// The one tombstone that the writes say from one position on and before another, where they say of no row.
fn tomb_of_gap(source: &Source, from: &Pos, to: &Pos) -> Option<Option<Tomb>> {
    let mut found: Option<Option<Tomb>> = None;
    for said in &source.places {
        if *from <= said.position && said.position < *to {
            if !said.row.is_empty() || found.is_some() && found != Some(said.tomb) {
                return None;
            }
            found = Some(said.tomb);
        }
    }
    found
}

// The entries with one at each end of a gap.
fn split_twice(
    alloc: Global,
    from: &Pos,
    to: &Pos,
    entries: &[Entry],
) -> Result<Vec<Entry>, AllocError> {
    let split = split_entries(alloc, from, entries)?;
    split_entries(alloc, to, split.as_slice())
}

// The entries with a gap known, and its tombstone.
fn with_gap(
    alloc: Global,
    from: &Pos,
    to: &Pos,
    tomb: Option<Tomb>,
    entries: &[Entry],
) -> Result<Vec<Entry>, AllocError> {
    let known = Mark {
        flag: Flag::Known,
        tomb,
    };
    let mut made = split_twice(alloc, from, to, entries)?;
    for entry in made.iter_mut() {
        if *from <= entry.position && entry.position < *to {
            entry.at = known;
        }
        if *from < entry.position && entry.position <= *to {
            entry.gap = known;
        }
    }
    Ok(made)
}

/// A row that the writes say of.
pub(crate) fn fill_row(alloc: Global, history: &mut History) -> Result<Option<Step>, AllocError> {
    let Some(number) = KEYS.get(history.chance.index(KEYS.len())) else {
        return Ok(None);
    };
    let Some((version, source)) = to_fill(&mut history.chain, history.sources.as_slice()) else {
        return Ok(None);
    };
    if fill_number(alloc, version, source, *number)? {
        return Ok(Some(Step::carrying("fill of a row", Effect::Row(*number))));
    }
    Ok(None)
}

// The row of a number, where the writes say of one; whether they do.
fn fill_number(
    alloc: Global,
    version: &mut PlainVersion,
    source: &Source,
    number: i64,
) -> Result<bool, AllocError> {
    let at = position(alloc, number, Weight::At)?;
    fill_said(alloc, version, source, &at)
}

// The row that the writes say of at a position; whether they say of one.
fn fill_said(
    alloc: Global,
    version: &mut PlainVersion,
    source: &Source,
    at: &Pos,
) -> Result<bool, AllocError> {
    match source.at(at) {
        Some(said) if !said.row.is_empty() => {
            let made = with_row(alloc, at, said, version.entries.as_slice());
            put_entries(version, made)?;
            Ok(true)
        }
        _ => Ok(false),
    }
}

// The entries with a row known, and its tombstone.
fn with_row(
    alloc: Global,
    at: &Pos,
    said: &Said,
    entries: &[Entry],
) -> Result<Vec<Entry>, AllocError> {
    let mut made = join_row(alloc, at, &said.row, entries)?;
    for entry in made.iter_mut() {
        if entry.position == *at {
            entry.at = filled_mark(entry.at, said.tomb);
        }
    }
    Ok(made)
}

/// The static row, also where nothing of it was written.
pub(crate) fn fill_statics(
    alloc: Global,
    history: &mut History,
) -> Result<Option<Step>, AllocError> {
    let Some((version, source)) = to_fill(&mut history.chain, history.sources.as_slice()) else {
        return Ok(None);
    };
    if !source.statics.is_empty() {
        join_statics(alloc, version, &source.statics)?;
    }
    version.static_flag = Flag::Known;
    Ok(Some(Step::carrying("fill of the static row", Effect::Statics)))
}

/// Joins a static row; its flag stays.
pub(crate) fn join_statics(
    alloc: Global,
    version: &mut PlainVersion,
    row: &Row,
) -> Result<(), AllocError> {
    match &mut version.statics {
        Some(old) => old.join(alloc, row)?,
        None => version.statics = Some(row.copy(alloc)?),
    }
    Ok(())
}
