//! The definitions of continuity, tried at every position of the universe.

use crate::chain::{Chain, Place, alone, upto};
use crate::source::{Said, Source, is_same_row};
use crate::tally::Tally;
use crate::universe::{Universe, behind_key, end_position, start_position};
use rc_cell::{Row, Tomb};
use rc_core::{
    ChainKind, Entry, Flag, Part, PlainVersion, Seen, Side, base_at, first_part, head_of,
    is_at_place, is_known_at, is_known_in, seen_at, statics_at,
};
use rc_mutation::greater_tomb;
use rc_position::{Key, Pos, Weight};
use std::alloc::{AllocError, Global};
use std::cmp::Ordering;

// A version of a chain, and what it is tried against.
#[derive(Drop)]
struct Bench<'a> {
    alloc: Global,
    universe: &'a Universe,
    // What the writes of its phase say.
    source: &'a Source,
    kind: ChainKind,
    // The versions up to it.
    versions: &'a [PlainVersion],
    // Whether somebody needs it.
    needed: bool,
    // The place of the update that stands in it.
    reach: Option<&'a Place>,
}

/// Every definition of a chain, where `sources` is what the writes say of each phase.
pub(crate) fn check_chain(
    alloc: Global,
    universe: &Universe,
    sources: &[Source],
    chain: &Chain,
    tally: &mut Tally,
) {
    check_form(&end_position(alloc), chain, tally);
    for number in 0..chain.versions.len() {
        check_number(alloc, universe, sources, chain, number, tally);
    }
    check_place(chain, tally);
}

// The version of a number, by what the writes of its phase say.
fn check_number(
    alloc: Global,
    universe: &Universe,
    sources: &[Source],
    chain: &Chain,
    number: usize,
    tally: &mut Tally,
) {
    let Some(source) = sources.get(phase_of(chain, number)) else {
        tally.expect(false, "a version has a phase that no source has");
        return;
    };
    let bench = Bench {
        alloc,
        universe,
        source,
        kind: chain.kind,
        versions: upto(chain.versions.as_slice(), number),
        needed: chain.is_needed(number),
        reach: chain.reach(number),
    };
    check_version(&bench, number, tally);
}

fn phase_of(chain: &Chain, number: usize) -> usize {
    match chain.versions.get(number) {
        Some(version) => version.phase as usize,
        None => 0,
    }
}

// Versions end with their end dummies, and snapshots pin versions that there are, and not the one under update.
fn check_form(end: &Pos, chain: &Chain, tally: &mut Tally) {
    for version in &chain.versions {
        tally.expect(
            is_version(end, version.entries.as_slice()),
            "entries ascend and end with the end dummy",
        );
    }
    for pin in &chain.pins {
        if let Some(number) = pin {
            tally.expect(
                may_be_pinned(chain, *number),
                "a snapshot pins a version that is not under update",
            );
        }
    }
}

fn may_be_pinned(chain: &Chain, number: usize) -> bool {
    number < chain.versions.len() && !(chain.is_newest(number) && chain.is_updating())
}

// Whether entries ascend, and the last one is the end dummy.
fn is_version(end: &Pos, entries: &[Entry]) -> bool {
    let mut last: Option<&Entry> = None;
    for entry in entries {
        if let Some(before) = last
            && before.position >= entry.position
        {
            return false;
        }
        last = Some(entry);
    }
    match last {
        Some(entry) => entry.position == *end && entry.row.is_none(),
        None => false,
    }
}

// The version under update stands at the update's place.
fn check_place(chain: &Chain, tally: &mut Tally) {
    if let Some(place) = chain.place()
        && let Some(version) = chain.versions.last()
    {
        tally.expect(
            stands_at(place, version),
            "the version under update stands at its place",
        );
    }
}

fn stands_at(place: &Place, version: &PlainVersion) -> bool {
    match place {
        Place::Head => version.pt.is_none()
            && has_silent_statics(version)
            && has_silent_end(version),
        Place::Static => has_silent_statics(version) && has_silent_end(version),
        Place::At(place) => is_at_place(place, version),
        Place::End => true,
    }
}

fn has_silent_statics(version: &PlainVersion) -> bool {
    version.statics.is_none() && !is_deciding(version.static_flag)
}

fn has_silent_end(version: &PlainVersion) -> bool {
    match version.entries.as_slice() {
        [end] => is_at_place(&end.position, version)
            && end.gap.tomb.is_none()
            && !is_deciding(end.gap.flag),
        _ => false,
    }
}

fn is_deciding(flag: Flag) -> bool {
    match flag {
        Flag::Known | Flag::Unknown => true,
        Flag::Inherit => false,
    }
}

// What is asked of one version of a chain: at each position and over the gap behind it, and where somebody needs it each position that is
// reached, and reading it.
fn check_version(bench: &Bench<'_>, number: usize, tally: &mut Tally) {
    for x in &bench.universe.all {
        check_base(bench, x, Side::On, tally);
        check_base(bench, x, Side::Behind, tally);
    }
    match bench.kind {
        ChainKind::Cache => check_cache(bench, tally),
        ChainKind::Memtable => check_memtable(bench, alone(bench.versions, number), tally),
    }
    if bench.needed {
        check_positions(bench, tally);
        if bench.reach.is_none() {
            check_reading(bench, tally);
        }
    }
}

// Of a version of a cache: no version holds more than the source.
fn check_cache(bench: &Bench<'_>, tally: &mut Tally) {
    for number in 0..bench.versions.len() {
        check_within(bench, alone(bench.versions, number), tally);
    }
    if bench.needed {
        check_head(bench, tally);
    }
}

// Of a version of a memtable.
fn check_memtable(bench: &Bench<'_>, one: &[PlainVersion], tally: &mut Tally) {
    check_inherits(bench, one, &statics_at(bench.alloc, one), tally);
    if bench.needed {
        check_known(bench, tally);
        check_written_head(bench, &statics_at(bench.alloc, bench.versions), tally);
    }
}

fn check_positions(bench: &Bench<'_>, tally: &mut Tally) {
    for x in &bench.universe.all {
        if is_reached(bench.reach, x) {
            check_position(
                bench,
                x,
                &seen_at(bench.alloc, bench.versions, x, Side::On),
                tally,
            );
        }
    }
}

/// Whether a position stands before the update's place, where there is one.
pub(crate) fn is_reached(reach: Option<&Place>, x: &Pos) -> bool {
    match reach {
        Some(Place::Head | Place::Static) => false,
        Some(Place::At(place)) => *x < *place,
        Some(Place::End) | None => true,
    }
}

// No version holds more than the source.
fn check_within(bench: &Bench<'_>, one: &[PlainVersion], tally: &mut Tally) {
    check_content(
        bench.alloc,
        &statics_at(bench.alloc, one),
        &bench.source.statics,
        None,
        "no version holds more than the source: static row",
        tally,
    );
    for said in &bench.source.places {
        check_content(
            bench.alloc,
            &seen_at(bench.alloc, one, &said.position, Side::On),
            &said.row,
            said.tomb,
            "no version holds more than the source",
            tally,
        );
    }
}

// What is seen, joined into a row and a tombstone, leaves them as they are.
fn check_content(
    alloc: Global,
    seen: &Result<Seen, AllocError>,
    row: &Row,
    tomb: Option<Tomb>,
    what: &'static str,
    tally: &mut Tally,
) {
    let Ok(seen) = seen else {
        return tally.lack();
    };
    let Ok(mut joined) = row.copy(alloc) else {
        return tally.lack();
    };
    tally.note(joined.join(alloc, &seen.row));
    tally.expect(
        is_same_row(&joined, row) && greater_tomb(tomb, seen.tomb) == tomb,
        what,
    );
}

// The partition tombstone is complete, and the static row too where it is flagged, as far as the update's place has come.
fn check_head(bench: &Bench<'_>, tally: &mut Tally) {
    if is_past_head(bench.reach) {
        tally.expect(
            head_of(bench.versions) == bench.source.pt,
            "the partition tombstone is the source's",
        );
    }
    if is_past_statics(bench.reach) {
        check_statics(bench, &statics_at(bench.alloc, bench.versions), tally);
    }
}

fn is_past_head(reach: Option<&Place>) -> bool {
    !matches!(reach, Some(Place::Head))
}

fn is_past_statics(reach: Option<&Place>) -> bool {
    !matches!(reach, Some(Place::Head | Place::Static))
}

// The static row of which this is seen.
fn check_statics(bench: &Bench<'_>, seen: &Result<Seen, AllocError>, tally: &mut Tally) {
    let Ok(seen) = seen else {
        return tally.lack();
    };
    if is_known_in(ChainKind::Cache, seen.flag) {
        tally.expect(
            is_same_row(&seen.row, &bench.source.statics),
            "a known static row is the source's",
        );
    }
}

// A position that is flagged is the source's, and one that is known and bare has the tombstone of the gap behind it.
fn check_position(bench: &Bench<'_>, x: &Pos, seen: &Result<Seen, AllocError>, tally: &mut Tally) {
    let Ok(seen) = seen else {
        return tally.lack();
    };
    if !is_known_in(bench.kind, seen.flag) {
        return;
    }
    if let Some(said) = bench.source.at(x) {
        tally.expect(
            is_said(said, &seen.row, seen.tomb),
            "what is flagged is the source's",
        );
    }
    if seen.row.is_empty() && *x < end_position(bench.alloc) {
        check_bare(bench, x, seen.tomb, tally);
    }
}

// A bare position has this tombstone where it is known, and so has the gap behind it.
fn check_bare(bench: &Bench<'_>, x: &Pos, tomb: Option<Tomb>, tally: &mut Tally) {
    match is_known_at(bench.alloc, bench.kind, bench.versions, x) {
        Ok(true) => check_behind(
            &seen_at(bench.alloc, bench.versions, x, Side::Behind),
            tomb,
            tally,
        ),
        Ok(false) => {}
        Err(_) => tally.lack(),
    }
}

fn check_behind(behind: &Result<Seen, AllocError>, tomb: Option<Tomb>, tally: &mut Tally) {
    match behind {
        Ok(behind) => tally.expect(
            behind.tomb == tomb,
            "the tombstone at a bare known position is that of the gap behind it",
        ),
        Err(_) => tally.lack(),
    }
}

// What is seen is what the versions from the base on hold, and the flag that of the base.
fn check_base(bench: &Bench<'_>, x: &Pos, side: Side, tally: &mut Tally) {
    let mut joined = Seen {
        flag: Flag::Inherit,
        row: Row::empty(bench.alloc),
        tomb: None,
    };
    join_all(bench, x, side, &mut joined, tally);
    check_joined(
        &seen_at(bench.alloc, bench.versions, x, side),
        &joined,
        tally,
    );
}

// What is seen is this.
fn check_joined(seen: &Result<Seen, AllocError>, joined: &Seen, tally: &mut Tally) {
    match seen {
        Ok(seen) => tally.expect(
            is_same_flag(seen.flag, joined.flag)
                && seen.tomb == joined.tomb
                && is_same_row(&seen.row, &joined.row),
            "what is seen is what stands from the base on",
        ),
        Err(_) => tally.lack(),
    }
}

// What the versions from the base on hold, as one.
fn join_all(bench: &Bench<'_>, x: &Pos, side: Side, joined: &mut Seen, tally: &mut Tally) {
    let base = base_at(bench.versions, x, side);
    for number in base.unwrap_or(0)..bench.versions.len() {
        let one = seen_at(bench.alloc, alone(bench.versions, number), x, side);
        join_one(bench.alloc, &one, Some(number) == base, joined, tally);
    }
}

// What one version holds, whose flag it is where that is the base.
fn join_one(
    alloc: Global,
    one: &Result<Seen, AllocError>,
    is_base: bool,
    joined: &mut Seen,
    tally: &mut Tally,
) {
    let Ok(one) = one else {
        return tally.lack();
    };
    if is_base {
        joined.flag = one.flag;
    }
    joined.tomb = greater_tomb(joined.tomb, one.tomb);
    tally.note(joined.row.join(alloc, &one.row));
}

fn is_same_flag(flag: Flag, other: Flag) -> bool {
    is_known_in(ChainKind::Cache, flag) == is_known_in(ChainKind::Cache, other)
        && is_deciding(flag) == is_deciding(other)
}

// All flags of a version of a memtable's chain are Inherit.
fn check_inherits(
    bench: &Bench<'_>,
    one: &[PlainVersion],
    statics: &Result<Seen, AllocError>,
    tally: &mut Tally,
) {
    match statics {
        Ok(statics) => tally.expect(
            !is_deciding(statics.flag) && has_no_base(bench.universe, one),
            "all flags of a memtable are Inherit",
        ),
        Err(_) => tally.lack(),
    }
}

// Whether every place of a version is Inherit.
fn has_no_base(universe: &Universe, one: &[PlainVersion]) -> bool {
    for x in &universe.all {
        if base_at(one, x, Side::On).is_some() || base_at(one, x, Side::Behind).is_some() {
            return false;
        }
    }
    true
}

// Every place of a memtable is known.
fn check_known(bench: &Bench<'_>, tally: &mut Tally) {
    for said in &bench.source.places {
        match is_known_at(
            bench.alloc,
            ChainKind::Memtable,
            bench.versions,
            &said.position,
        ) {
            Ok(known) => tally.expect(known, "every place of a memtable is known"),
            Err(_) => tally.lack(),
        }
    }
}

// A memtable's chain stands for its writes.
fn check_written_head(bench: &Bench<'_>, statics: &Result<Seen, AllocError>, tally: &mut Tally) {
    match statics {
        Ok(statics) => tally.expect(
            is_same_row(&statics.row, &bench.source.statics)
                && head_of(bench.versions) == bench.source.pt,
            "the head and the static row of a memtable are those of its writes",
        ),
        Err(_) => tally.lack(),
    }
}

// The parts from the start to the end: each one that is not missing says what the source says.
fn check_reading(bench: &Bench<'_>, tally: &mut Tally) {
    let mut place = start_position(bench.alloc);
    read_parts(bench, &mut place, &end_position(bench.alloc), tally);
}

// The parts from a place on.
fn read_parts(bench: &Bench<'_>, place: &mut Pos, end: &Pos, tally: &mut Tally) {
    for _ in 0..64 {
        if !read_part(bench, place, end, tally) {
            return;
        }
    }
    tally.expect(false, "a reader comes to the end");
}

// The first part from a place on against the source; whether there is one, and then the place is where the next one begins.
fn read_part(bench: &Bench<'_>, place: &mut Pos, end: &Pos, tally: &mut Tally) -> bool {
    let part = part_at(bench, place, end);
    let next = check_part(bench, place, &part, tally);
    go_on(place, next, tally)
}

// The place is where the next part begins, if there is one.
fn go_on(place: &mut Pos, next: Option<Pos>, tally: &mut Tally) -> bool {
    match next {
        Some(next) => {
            tally.expect(*place < next, "a part ends behind its beginning");
            *place = next;
            true
        }
        None => false,
    }
}

// The first part from a place on; the end where the place is behind it.
fn part_at(bench: &Bench<'_>, place: &Pos, end: &Pos) -> Result<Part, AllocError> {
    match place.cmp(end) {
        Ordering::Less | Ordering::Equal => {
            first_part(bench.alloc, bench.kind, bench.versions, place, end)
        }
        Ordering::Greater => Ok(Part::End),
    }
}

// One part against the source; where the next one begins.
fn check_part(
    bench: &Bench<'_>,
    from: &Pos,
    part: &Result<Part, AllocError>,
    tally: &mut Tally,
) -> Option<Pos> {
    match part {
        Ok(Part::Row { key, row, tomb }) => {
            tally.expect(
                is_row_at(from, key) && is_row_said(bench.source, from, row, *tomb),
                "a row that is read is the source's",
            );
            tally.made(behind_key(bench.alloc, key))
        }
        Ok(Part::Gap { to, tomb }) => {
            check_gap(bench.source, from, to, *tomb, tally);
            tally.made(to.copy(bench.alloc))
        }
        Ok(Part::Missing { to }) => tally.made(to.copy(bench.alloc)),
        Ok(Part::End) => None,
        Err(_) => {
            tally.lack();
            None
        }
    }
}

// Whether a position is that of the row of a key.
fn is_row_at(x: &Pos, key: &Key) -> bool {
    x.weight == Weight::At && x.prefix == *key
}

// Whether the source says this at a position.
fn is_row_said(source: &Source, at: &Pos, row: &Row, tomb: Option<Tomb>) -> bool {
    match source.at(at) {
        Some(said) => is_said(said, row, tomb),
        None => false,
    }
}

fn is_said(said: &Said, row: &Row, tomb: Option<Tomb>) -> bool {
    is_same_row(&said.row, row) && said.tomb == tomb
}

fn check_gap(source: &Source, from: &Pos, to: &Pos, tomb: Option<Tomb>, tally: &mut Tally) {
    for said in &source.places {
        if *from <= said.position && said.position < *to {
            tally.expect(
                said.row.is_empty() && said.tomb == tomb,
                "a gap that is read is the source's",
            );
        }
    }
}
