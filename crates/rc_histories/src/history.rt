//! A history: a chain, what the writes of each phase say, and one random lawful step after another.

use crate::chain::{Chain, version_of};
use crate::chance::Chance;
use crate::cleaning::{clean, free};
use crate::evicting::evict;
use crate::filling::{fill_gap, fill_row, fill_statics};
use crate::source::{Source, some_mutation};
use crate::step::{Effect, Step};
use crate::tally::Tally;
use crate::universe::Universe;
use crate::updating::{begin, relabel, unit};
use crate::writing::write;
use rc_core::{ChainKind, Flag, PlainVersion, release_pin};
use std::alloc::{AllocError, Global};

/// A chain and what the writes say.
#[derive(Drop)]
pub(crate) struct History {
    /// The positions.
    pub(crate) universe: Universe,
    /// What the writes of each phase say. The newest version of an attached chain stands for the last.
    pub(crate) sources: Vec<Source>,
    /// The chain.
    pub(crate) chain: Chain,
    /// What decides the steps.
    pub(crate) chance: Chance,
}

impl History {
    /// No chain yet; of a cache some writes below it.
    pub(crate) fn new(alloc: Global, kind: ChainKind, seed: u64) -> Result<Self, AllocError> {
        let universe = Universe::new(alloc)?;
        let mut chance = Chance::new(seed);
        let sources = first_sources(alloc, kind, &universe, &mut chance)?;
        Ok(History {
            universe,
            sources,
            chain: Chain::none(alloc, kind),
            chance,
        })
    }

    /// One step, if what chance takes is lawful now.
    pub(crate) fn take_step(
        &mut self,
        alloc: Global,
        tally: &mut Tally,
    ) -> Result<Option<Step>, AllocError> {
        if self.chain.versions.is_empty() {
            return open(alloc, self);
        }
        match self.chance.below(100) {
            0..10 => snapshot(self),
            10..18 => Ok(release(self)),
            18 => Ok(detach(self)),
            19..28 => Ok(free(self)),
            28..50 => clean(alloc, self, tally),
            chance => match self.chain.kind {
                ChainKind::Memtable => write(alloc, self),
                ChainKind::Cache => take_cache_step(alloc, self, chance, tally),
            },
        }
    }
}

fn take_cache_step(
    alloc: Global,
    history: &mut History,
    chance: u32,
    tally: &mut Tally,
) -> Result<Option<Step>, AllocError> {
    if history.chain.is_updating() && chance < 85 {
        return unit(alloc, history, tally);
    }
    match chance {
        0..58 => begin(alloc, history),
        58 | 59 => relabel(alloc, history),
        60 | 61 => fill_statics(alloc, history),
        62..75 => fill_gap(alloc, history),
        75..85 => fill_row(alloc, history),
        _ => Ok(evict(alloc, history)),
    }
}

// What the first writes say: some of a cache, none of a memtable.
fn first_sources(
    alloc: Global,
    kind: ChainKind,
    universe: &Universe,
    chance: &mut Chance,
) -> Result<Vec<Source>, AllocError> {
    let mut source = Source::empty(alloc, universe)?;
    if let ChainKind::Cache = kind {
        add_some(alloc, &mut source, universe, chance)?;
    }
    Ok(vec![in alloc; source]?)
}

fn add_some(
    alloc: Global,
    source: &mut Source,
    universe: &Universe,
    chance: &mut Chance,
) -> Result<(), AllocError> {
    let change = some_mutation(alloc, universe, chance)?;
    source.add(alloc, &change)
}

/// A phase more, in which nothing is written.
pub(crate) fn push_again(alloc: Global, sources: &mut Vec<Source>) -> Result<(), AllocError> {
    if let Some(last) = sources.last() {
        let source = last.copy(alloc)?;
        sources.push(source)?;
    }
    Ok(())
}

// The phase of a chain that is opened: of a memtable a new one, of which no writes are yet.
fn opened_phase(alloc: Global, history: &mut History) -> Result<usize, AllocError> {
    if let ChainKind::Memtable = history.chain.kind {
        let empty = Source::empty(alloc, &history.universe)?;
        history.sources.push(empty)?;
    }
    Ok(history.sources.len().saturating_sub(1))
}

// The first version of a chain: of a cache its head is filled.
fn opened_version(
    alloc: Global,
    kind: ChainKind,
    phase: usize,
    source: Option<&Source>,
) -> Result<PlainVersion, AllocError> {
    match (kind, source) {
        (ChainKind::Cache, Some(source)) => {
            let mut version = version_of(alloc, Flag::Unknown, phase)?;
            fill_head(alloc, source, &mut version)?;
            Ok(version)
        }
        (ChainKind::Cache, None) => version_of(alloc, Flag::Unknown, phase),
        (ChainKind::Memtable, _) => version_of(alloc, Flag::Inherit, phase),
    }
}

fn fill_head(alloc: Global, source: &Source, version: &mut PlainVersion) -> Result<(), AllocError> {
    version.pt = source.pt;
    version.static_flag = Flag::Known;
    if !source.statics.is_empty() {
        version.statics = Some(source.statics.copy(alloc)?);
    }
    Ok(())
}

// A chain is opened.
fn open(alloc: Global, history: &mut History) -> Result<Option<Step>, AllocError> {
    let phase = opened_phase(alloc, history)?;
    let kind = history.chain.kind;
    let version = opened_version(alloc, kind, phase, history.sources.last())?;
    history.chain.versions.push(version)?;
    history.chain.attached = true;
    Ok(Some(Step::new("open", Effect::Open)))
}

// A snapshot, at a number that is free.
fn snapshot(history: &mut History) -> Result<Option<Step>, AllocError> {
    let chain = &mut history.chain;
    let Some(version) = chain.snapshot_version() else {
        return Ok(None);
    };
    if chain.attached && pin(&mut chain.pins, version)? {
        return Ok(Some(Step::carrying("snapshot", Effect::Open)));
    }
    Ok(None)
}

// A version is pinned, at a number that is free or a new one; whether there was one.
fn pin(pins: &mut Vec<Option<usize>>, version: usize) -> Result<bool, AllocError> {
    if pin_free(pins.as_mut_slice(), version) {
        return Ok(true);
    }
    if pins.len() > 3 {
        return Ok(false);
    }
    pins.push(Some(version))?;
    Ok(true)
}

// A version is pinned at the first number that is free; whether there is one.
fn pin_free(pins: &mut [Option<usize>], version: usize) -> bool {
    for pin in pins.iter_mut() {
        if pin.is_none() {
            *pin = Some(version);
            return true;
        }
    }
    false
}

fn release(history: &mut History) -> Option<Step> {
    let number = history.chance.index(history.chain.pins.len());
    if number >= history.chain.pins.len() || history.chain.pins[number].is_none() {
        return None;
    }
    release_pin(&mut history.chain.pins, number);
    Some(Step::carrying("release", Effect::Open))
}

// The chain is no longer found by its key, and an update that stands in it ends.
fn detach(history: &mut History) -> Option<Step> {
    if !history.chain.attached {
        return None;
    }
    history.chain.attached = false;
    history.chain.update = None;
    Some(Step::new("detach", Effect::Open))
}
