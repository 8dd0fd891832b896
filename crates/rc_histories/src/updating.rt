//! An update of the newest version: unit by unit, or given up where there is no room.

use crate::chain::{Chain, Place, Update, push_places, put_entries, version_of};
use crate::filling::join_statics;
use crate::history::{History, push_again};
use crate::source::{Source, some_mutation};
use crate::step::{Effect, Step};
use crate::tally::Tally;
use crate::universe::{behind_key, end_position, start_position};
use rc_cell::Tomb;
use rc_core::{Entry, Flag, PlainVersion, is_at_place};
use rc_mutation::{Frag, FragList, Mutation, greater_tomb};
use rc_position::{Pos, Weight};
use rc_units::{copy_entries, force_behind, lose_rest, put_fragment, split_entries};
use std::alloc::{AllocError, Global};

/// A flush of the partition: where a chain is attached an update begins in it, or without room the chain is detached.
pub(crate) fn begin(alloc: Global, history: &mut History) -> Result<Option<Step>, AllocError> {
    if history.chain.is_updating() {
        return Ok(None);
    }
    let change = some_mutation(alloc, &history.universe, &mut history.chance)?;
    begin_change(alloc, history, &change)
}

// A flush of this.
fn begin_change(
    alloc: Global,
    history: &mut History,
    change: &Mutation,
) -> Result<Option<Step>, AllocError> {
    let phase = history.sources.len();
    if push_source(alloc, &mut history.sources, change)? {
        return begin_with(alloc, history, change, phase);
    }
    Ok(None)
}

// A phase more, in which this is written too; whether there was one before.
fn push_source(
    alloc: Global,
    sources: &mut Vec<Source>,
    change: &Mutation,
) -> Result<bool, AllocError> {
    let Some(last) = sources.last() else {
        return Ok(false);
    };
    let source = with_change(alloc, last, change)?;
    sources.push(source)?;
    Ok(true)
}

fn with_change(alloc: Global, last: &Source, change: &Mutation) -> Result<Source, AllocError> {
    let mut source = last.copy(alloc)?;
    source.add(alloc, change)?;
    Ok(source)
}

// Begins an update to a phase; or without room the chain is detached.
fn begin_with(
    alloc: Global,
    history: &mut History,
    change: &Mutation,
    phase: usize,
) -> Result<Option<Step>, AllocError> {
    if !history.chain.attached || history.chance.happens(5) {
        history.chain.attached = false;
        return Ok(Some(Step::new("update begun without room", Effect::Open)));
    }
    let version = version_of(alloc, Flag::Inherit, phase)?;
    history.chain.versions.push(version)?;
    put_update(alloc, &mut history.chain, change)?;
    Ok(Some(Step::carrying("update begun", Effect::Open)))
}

// An update of what is written stands in the chain; without memory none.
fn put_update(alloc: Global, chain: &mut Chain, change: &Mutation) -> Result<(), AllocError> {
    let mut update = Update {
        fragments: change.fragments(alloc)?,
        places: Vec::new(alloc),
        next: 0,
        force: None,
    };
    let made = push_places(alloc, update.fragments.as_slice(), &mut update.places);
    chain.update = Some(update);
    made
}

/// A flush that does not name the partition: the newest version of an attached chain stands for the new phase.
pub(crate) fn relabel(alloc: Global, history: &mut History) -> Result<Option<Step>, AllocError> {
    if history.chain.is_updating() || history.sources.is_empty() {
        return Ok(None);
    }
    let phase = history.sources.len();
    push_again(alloc, &mut history.sources)?;
    if history.chain.attached
        && let Some(version) = history.chain.versions.last_mut()
    {
        version.phase = phase as u64;
    }
    Ok(Some(Step::carrying("flush of another partition", Effect::Nothing)))
}

/// The next unit of the update that stands in the chain.
pub(crate) fn unit(
    alloc: Global,
    history: &mut History,
    tally: &mut Tally,
) -> Result<Option<Step>, AllocError> {
    let room = !history.chance.happens(6);
    match history.chain.place() {
        Some(Place::End) => {
            history.chain.update = None;
            Ok(Some(Step::carrying("update ended", Effect::Open)))
        }
        Some(Place::Static | Place::At(_)) if !room => Ok(give_up(alloc, &mut history.chain)),
        Some(_) => advance(alloc, &mut history.chain, tally),
        None => Ok(None),
    }
}

// The update ends, and what stands from its place on is lost.
fn give_up(alloc: Global, chain: &mut Chain) -> Option<Step> {
    let version = chain.versions.last_mut()?;
    if let Some(update) = &chain.update {
        lose(alloc, update.place(), version);
    }
    chain.update = None;
    Some(Step::new("unit without room", Effect::Open))
}

// The next fragment goes into the newest version, and versions that are spoiled stand not at the update's place then.
fn advance(
    alloc: Global,
    chain: &mut Chain,
    tally: &mut Tally,
) -> Result<Option<Step>, AllocError> {
    let (Some(update), Some(version)) = (chain.update.as_mut(), chain.versions.last_mut()) else {
        return Ok(None);
    };
    let kind = put_next(alloc, update, version)?;
    if let Some(Place::At(place)) = update.place() {
        refuse_spoiled(alloc, place, version, tally)?;
    }
    Ok(Some(Step::carrying(kind, Effect::Open)))
}

// The next fragment goes into the version; what kind of unit that is.
fn put_next(
    alloc: Global,
    update: &mut Update,
    version: &mut PlainVersion,
) -> Result<&'static str, AllocError> {
    let next = update.next.saturating_add(1);
    let (Some(fragment), Some(place)) = (
        update.fragments.as_slice().get(update.next),
        update.places.as_slice().get(next),
    ) else {
        return Ok("update ended");
    };
    put(alloc, update.force, fragment, place, version)?;
    let kind = kind_of(fragment, place);
    update.force = force_behind(update.force, fragment);
    update.next = next;
    Ok(kind)
}

// What kind of unit a fragment is.
fn kind_of(fragment: &Frag, next: &Place) -> &'static str {
    if is_over_nothing(fragment, next) {
        "unit with a tombstone over a gap of no position"
    } else {
        "unit of an update"
    }
}

// What a fragment says goes into the version, and an entry marks the next place.
fn put(
    alloc: Global,
    force: Option<Tomb>,
    fragment: &Frag,
    next: &Place,
    version: &mut PlainVersion,
) -> Result<(), AllocError> {
    put_head(alloc, fragment, version)?;
    match next {
        Place::At(x) => put_upto(alloc, force, fragment, x, version),
        Place::Head | Place::Static | Place::End => {
            put_upto(alloc, force, fragment, &end_position(alloc), version)
        }
    }
}

// What it says of entries, where the next place is here.
fn put_upto(
    alloc: Global,
    force: Option<Tomb>,
    fragment: &Frag,
    next: &Pos,
    version: &mut PlainVersion,
) -> Result<(), AllocError> {
    let made = put_fragment(alloc, force, fragment, next, version.entries.as_slice());
    put_entries(version, made)
}

// What a fragment says of the head and the static row goes into the version.
fn put_head(alloc: Global, fragment: &Frag, version: &mut PlainVersion) -> Result<(), AllocError> {
    match fragment {
        Frag::Start(pt) => version.pt = greater_tomb(version.pt, *pt),
        Frag::Static(row) => join_statics(alloc, version, row)?,
        Frag::Row(_, _) | Frag::Change(_, _) | Frag::End => {}
    }
    Ok(())
}

// From the place on, which is not the head, everything is lost.
fn lose(alloc: Global, place: Option<&Place>, version: &mut PlainVersion) {
    match place {
        Some(Place::Static) => {
            version.statics = None;
            version.static_flag = Flag::Unknown;
            lose_rest(&start_position(alloc), version.entries.as_mut_slice());
        }
        Some(Place::At(x)) => lose_rest(x, version.entries.as_mut_slice()),
        Some(Place::Head | Place::End) | None => {}
    }
}

// Whether a fragment puts a tombstone over the gap before the row of a key, in which no position stands.
fn is_over_nothing(fragment: &Frag, next: &Place) -> bool {
    match (fragment, next) {
        (Frag::Change(from, Some(_)), Place::At(x)) => {
            from.weight == Weight::Before && x.weight == Weight::At && from.prefix == x.prefix
        }
        _ => false,
    }
}

// Two versions that stand at no place, though no position shows it before a further step: with a dummy behind the place, which could be
// evicted; and with a tombstone on a gap behind the place in which no position stands, where the place is before a key.
fn refuse_spoiled(
    alloc: Global,
    place: &Pos,
    version: &PlainVersion,
    tally: &mut Tally,
) -> Result<(), AllocError> {
    if *place < end_position(alloc) {
        refuse_dummy(alloc, place, version, tally)?;
        refuse_tomb(alloc, place, version, tally)?;
    }
    Ok(())
}

// A version with a dummy behind the place.
fn refuse_dummy(
    alloc: Global,
    place: &Pos,
    version: &PlainVersion,
    tally: &mut Tally,
) -> Result<(), AllocError> {
    let behind = behind_key(alloc, &place.prefix)?;
    if *place < behind && behind < end_position(alloc) {
        return refuse_dummy_at(alloc, place, &behind, version, tally);
    }
    Ok(())
}

// A version with a dummy here.
fn refuse_dummy_at(
    alloc: Global,
    place: &Pos,
    behind: &Pos,
    version: &PlainVersion,
    tally: &mut Tally,
) -> Result<(), AllocError> {
    let spoiled = of_entries(split_entries(alloc, behind, version.entries.as_slice())?);
    tally.expect(
        !is_at_place(place, &spoiled),
        "a dummy behind the place is refused",
    );
    Ok(())
}

// A version with a tombstone behind the place.
fn refuse_tomb(
    alloc: Global,
    place: &Pos,
    version: &PlainVersion,
    tally: &mut Tally,
) -> Result<(), AllocError> {
    let mut spoiled = of_entries(entries_at(alloc, place, version.entries.as_slice())?);
    cover_behind(place, spoiled.entries.as_mut_slice());
    tally.expect(
        !is_at_place(place, &spoiled),
        "a tombstone behind the place is refused",
    );
    Ok(())
}

// The entries, and where the place is before a key one at the row of the key.
fn entries_at(alloc: Global, place: &Pos, entries: &[Entry]) -> Result<Vec<Entry>, AllocError> {
    if place.weight != Weight::Before {
        return copy_entries(alloc, entries);
    }
    let row = Pos {
        prefix: place.prefix.copy(alloc)?,
        weight: Weight::At,
    };
    split_entries(alloc, &row, entries)
}

// A tombstone over the gap before the first entry behind the place.
fn cover_behind(place: &Pos, entries: &mut [Entry]) {
    for entry in entries.iter_mut() {
        if entry.position > *place {
            entry.gap.tomb = Some(Tomb { ts: 9, dt: 0 });
            break;
        }
    }
}

// A version of these entries alone.
fn of_entries(entries: Vec<Entry>) -> PlainVersion {
    PlainVersion {
        pt: None,
        statics: None,
        static_flag: Flag::Inherit,
        entries,
        phase: 0,
    }
}
