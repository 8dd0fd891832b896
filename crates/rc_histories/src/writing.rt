//! Writes to a memtable's chain, each of one thing: they go into the newest version, or into a new one where a snapshot pins that.

use crate::chain::{Chain, put_entries, version_of};
use crate::filling::join_statics;
use crate::history::{History, push_again};
use crate::source::{Source, some_bounds, some_cells, some_row, some_tomb};
use crate::step::{Effect, Step};
use crate::universe::{KEYS, position};
use rc_cell::Row;
use rc_core::{Flag, PlainVersion};
use rc_mutation::greater_tomb;
use rc_position::{Pos, Weight};
use rc_units::{join_row, raise_entries};
use std::alloc::{AllocError, Global};

/// Some write to an attached chain.
pub(crate) fn write(alloc: Global, history: &mut History) -> Result<Option<Step>, AllocError> {
    if !history.chain.attached {
        return Ok(None);
    }
    let newest = history.chain.versions.len().saturating_sub(1);
    if history.chain.is_pinned(newest) {
        add_version(alloc, &mut history.chain, &mut history.sources)?;
    }
    let kind = history.chance.below(8);
    match kind {
        0 => write_pt(history),
        1 => write_statics(alloc, history),
        2 | 3 | 4 => write_range(alloc, history),
        _ => write_row(alloc, history),
    }
}

fn add_version(
    alloc: Global,
    chain: &mut Chain,
    sources: &mut Vec<Source>,
) -> Result<(), AllocError> {
    let version = version_of(alloc, Flag::Inherit, sources.len())?;
    chain.versions.push(version)?;
    push_again(alloc, sources)
}

// The newest version, and what its writes say.
fn newest<'a>(
    chain: &'a mut Chain,
    sources: &'a mut Vec<Source>,
) -> Option<(&'a mut PlainVersion, &'a mut Source)> {
    let version = chain.versions.last_mut()?;
    let source = sources.last_mut()?;
    Some((version, source))
}

fn write_pt(history: &mut History) -> Result<Option<Step>, AllocError> {
    let tomb = Some(some_tomb(&mut history.chance));
    let Some((version, source)) = newest(&mut history.chain, &mut history.sources) else {
        return Ok(None);
    };
    version.pt = greater_tomb(version.pt, tomb);
    source.pt = greater_tomb(source.pt, tomb);
    Ok(Some(Step::new("write of a partition tombstone", Effect::Open)))
}

fn write_statics(alloc: Global, history: &mut History) -> Result<Option<Step>, AllocError> {
    let row = Row {
        marker: None,
        tomb: None,
        cells: some_cells(alloc, &mut history.chance)?,
    };
    put_statics(alloc, history, &row)
}

fn put_statics(
    alloc: Global,
    history: &mut History,
    row: &Row,
) -> Result<Option<Step>, AllocError> {
    let Some((version, source)) = newest(&mut history.chain, &mut history.sources) else {
        return Ok(None);
    };
    join_statics(alloc, version, row)?;
    source.statics.join(alloc, row)?;
    Ok(Some(Step::new("write of a static row", Effect::Open)))
}

fn write_range(alloc: Global, history: &mut History) -> Result<Option<Step>, AllocError> {
    let tomb = some_tomb(&mut history.chance);
    let bounds = some_bounds(&mut history.chance, history.universe.bounds.as_slice());
    let (Some((from, to)), Some((version, source))) = (
        bounds,
        newest(&mut history.chain, &mut history.sources),
    ) else {
        return Ok(None);
    };
    let made = raise_entries(alloc, Some(tomb), from, to, version.entries.as_slice());
    put_entries(version, made)?;
    source.add_range(from, to, tomb);
    Ok(Some(Step::new("write of a range tombstone", Effect::Open)))
}

fn write_row(alloc: Global, history: &mut History) -> Result<Option<Step>, AllocError> {
    let row = some_row(alloc, &mut history.chance)?;
    write_some(alloc, history, &row)
}

// A row at some key.
fn write_some(alloc: Global, history: &mut History, row: &Row) -> Result<Option<Step>, AllocError> {
    let Some(number) = KEYS.get(history.chance.index(KEYS.len())) else {
        return Ok(None);
    };
    let at = position(alloc, *number, Weight::At)?;
    put_row(alloc, history, &at, row)
}

fn put_row(
    alloc: Global,
    history: &mut History,
    at: &Pos,
    row: &Row,
) -> Result<Option<Step>, AllocError> {
    let Some((version, source)) = newest(&mut history.chain, &mut history.sources) else {
        return Ok(None);
    };
    let made = join_row(alloc, at, row, version.entries.as_slice());
    put_entries(version, made)?;
    source.add_row(alloc, at, row)?;
    Ok(Some(Step::new("write of a row", Effect::Open)))
}
