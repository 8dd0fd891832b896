//! What is seen of a chain and what is carried, before a step and behind it.

use crate::chain::{Chain, upto};
use crate::checks::is_reached;
use crate::history::History;
use crate::source::is_same_row;
use crate::step::{Effect, Step};
use crate::tally::Tally;
use crate::universe::{Universe, is_row_of};
use rc_core::{ChainKind, PlainVersion, Seen, Side, is_known_at, is_known_in, seen_at, statics_at};
use rc_position::Pos;
use std::alloc::{AllocError, Global};

// What is seen of one place through a version that somebody needs.
#[derive(Drop)]
struct Sight {
    // The number of the version.
    version: usize,
    // The number of the position in the universe; none of the static row.
    position: Option<usize>,
    // Whether it is the gap right behind the position.
    behind: bool,
    // What is seen.
    seen: Seen,
}

/// What is seen of a chain, and what is carried.
#[derive(Drop)]
pub(crate) struct View {
    // What is seen of the versions that somebody needs, the oldest first: at each position and over the gap behind it, and the static row last.
    sights: Vec<Sight>,
    // How many versions that are.
    needed: usize,
    // The newest of them.
    newest: usize,
    // At each position of the universe whether it is carried.
    carried: Vec<bool>,
}

impl View {
    /// What is seen of a chain now.
    pub(crate) fn of(
        alloc: Global,
        universe: &Universe,
        chain: &Chain,
    ) -> Result<Self, AllocError> {
        let mut view = View {
            sights: Vec::new(alloc),
            needed: 0,
            newest: 0,
            carried: Vec::new(alloc),
        };
        let filled = view.fill(alloc, universe, chain);
        match filled {
            Ok(()) => Ok(view),
            Err(error) => Err(error),
        }
    }

    fn fill(
        &mut self,
        alloc: Global,
        universe: &Universe,
        chain: &Chain,
    ) -> Result<(), AllocError> {
        for number in 0..chain.versions.len() {
            if chain.is_needed(number) {
                let versions = upto(chain.versions.as_slice(), number);
                push_sights(alloc, universe, versions, &mut self.sights)?;
                self.needed = self.needed.saturating_add(1);
                self.newest = versions.len();
            }
        }
        if chain.attached && !chain.versions.is_empty() {
            push_carried(alloc, universe, chain, &mut self.carried)?;
        }
        Ok(())
    }
}

// What is seen of the last of these versions.
fn push_sights(
    alloc: Global,
    universe: &Universe,
    versions: &[PlainVersion],
    sights: &mut Vec<Sight>,
) -> Result<(), AllocError> {
    let version = versions.len();
    for (number, x) in universe.all.iter().enumerate() {
        let at = seen_at(alloc, versions, x, Side::On);
        push_sight(version, Some(number), false, at, sights)?;
        let gap = seen_at(alloc, versions, x, Side::Behind);
        push_sight(version, Some(number), true, gap, sights)?;
    }
    push_sight(version, None, false, statics_at(alloc, versions), sights)
}

fn push_sight(
    version: usize,
    position: Option<usize>,
    behind: bool,
    seen: Result<Seen, AllocError>,
    sights: &mut Vec<Sight>,
) -> Result<(), AllocError> {
    sights.push(Sight {
        version,
        position,
        behind,
        seen: seen?,
    })?;
    Ok(())
}

/// What is seen and what is carried before a step against what is behind it.
pub(crate) fn check_view(
    history: &History,
    step: Step,
    before: &View,
    now: &View,
    tally: &mut Tally,
) {
    check_effect(
        &history.universe,
        history.chain.kind,
        step.effect,
        before,
        now,
        tally,
    );
    if step.carries {
        check_carried(before.carried.as_slice(), now.carried.as_slice(), tally);
    }
}

// What was seen before a step against what is seen now.
fn check_effect(
    universe: &Universe,
    kind: ChainKind,
    effect: Effect,
    before: &View,
    now: &View,
    tally: &mut Tally,
) {
    if let Effect::Open = effect {
        return;
    }
    tally.expect(
        before.needed == now.needed,
        "the versions that are needed stay",
    );
    for (was, is) in before.sights.iter().zip(now.sights.iter()) {
        let filled = is.version == now.newest && is_filled(universe, effect, is);
        tally.expect(
            keeps(kind, effect, filled, was, is),
            "what a step does not touch stays",
        );
    }
}

// Whether a place is seen as the effect of a step has it, which makes it known or not.
fn keeps(kind: ChainKind, effect: Effect, filled: bool, was: &Sight, is: &Sight) -> bool {
    let known_now = is_known_in(kind, is.seen.flag);
    let same = known_now == is_known_in(kind, was.seen.flag)
        && !filled
        && is.seen.tomb == was.seen.tomb
        && is_same_row(&is.seen.row, &was.seen.row);
    let touched = match effect {
        Effect::Less => !known_now,
        _ => known_now && filled,
    };
    same || touched
}

// Whether a place is one that a fill makes known.
fn is_filled(universe: &Universe, effect: Effect, sight: &Sight) -> bool {
    let position = match sight.position {
        Some(number) => universe.all.get(number),
        None => None,
    };
    match (effect, position) {
        (Effect::Between(from, to), Some(x)) => universe.is_between(from, to, x),
        (Effect::Row(number), Some(x)) => is_row_of(x, number) && !sight.behind,
        (Effect::Statics, None) => true,
        _ => false,
    }
}

// At each position of the universe whether it is carried: known in the version that a snapshot pins and, before the update's place, in the
// newest too.
fn push_carried(
    alloc: Global,
    universe: &Universe,
    chain: &Chain,
    carried: &mut Vec<bool>,
) -> Result<(), AllocError> {
    for x in &universe.all {
        carried.push(is_carried(alloc, chain, x)?)?;
    }
    Ok(())
}

fn is_carried(alloc: Global, chain: &Chain, x: &Pos) -> Result<bool, AllocError> {
    let all = chain.versions.as_slice();
    let pinned = match chain.snapshot_version() {
        Some(number) => upto(all, number),
        None => all,
    };
    let before = is_known_at(alloc, chain.kind, pinned, x)?;
    if !is_reached(chain.place(), x) {
        return Ok(before);
    }
    let over = is_known_at(alloc, chain.kind, all, x)?;
    Ok(before && over)
}

// Carried positions stay carried.
fn check_carried(before: &[bool], now: &[bool], tally: &mut Tally) {
    for (was, is) in before.iter().zip(now.iter()) {
        tally.expect(!*was || *is, "what is carried stays carried");
    }
}
