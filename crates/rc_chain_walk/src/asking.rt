//! What the chains show, beside what the plain chains say.

ghost use Rattle.rc_chain_guarded.specs.Guarded.{IsTracked};

use crate::tally::Tally;
use rc_cell::Row;
use rc_chain::{Chains, ReadAt, ReadHead};
use rc_chain_guarded::snaps::{seen_at, seen_head, standing};
use rc_chain_guarded::{Known, SEGMENT, has_version};
use rc_core::{PlainVersion, Side, head_of, is_known_at, is_known_in, statics_at};
use rc_plain_chains::{PlainChain, PlainMemory, bytes_of, is_cache, objects_of};
use rc_position::Pos;
use std::alloc::{AllocError, Global};

// Whether a row is the one that is given, none where it is empty.
fn is_given(given: &Option<Row>, row: &Row) -> bool {
    match given {
        Some(given) => {
            given.marker == row.marker
                && given.tomb == row.tomb
                && given.cells.as_slice() == row.cells.as_slice()
        }
        None => row.is_empty(),
    }
}

// The versions up to the one of a number.
fn up_to(versions: &[PlainVersion], number: usize) -> &[PlainVersion] {
    match versions.get(..=number) {
        Some(older) => older,
        None => versions,
    }
}

/// Asks for the counts, and for what all chains take.
pub(crate) fn ask_sums(chains: &Chains<SEGMENT>, plain: &PlainMemory, tally: &mut Tally) {
    let shown = chains.counts();
    let same = plain.counts == (shown.evicted, shown.skipped, shown.shrunk);
    tally.expect(same, "the counts");
    let objects = objects_of(plain.chains.as_slice());
    tally.expect(
        chains.region().objects() == objects,
        "how many objects there are",
    );
    let bytes = bytes_of(plain.chains.as_slice());
    tally.expect(chains.region().live() == bytes, "how many bytes are live");
}

// Whether a chain has this number.
fn has_number(plain: &[PlainChain], id: u64) -> bool {
    for chain in plain {
        if chain.id == id {
            return true;
        }
    }
    false
}

// Asks which chains there are.
fn ask_numbers(chains: &Chains<SEGMENT>, plain: &[PlainChain], tally: &mut Tally) {
    let mut after = None;
    let mut found: usize = 0;
    for _ in 0..plain.len() {
        if let Some(id) = chains.next_chain(after) {
            let there = has_number(plain, id) && chains.is_there(id);
            tally.expect(there, "a number of a chain");
            after = Some(id);
            found = found.saturating_add(1);
        }
    }
    let none = chains.next_chain(after).is_none();
    tally.expect(none && found == plain.len(), "how many chains there are");
}

/// Asks which chains there are and what each shows, and what is seen by the snapshots of the one that was touched, or of all where none is named.
pub(crate) fn ask_chains(
    alloc: Global,
    chains: &Chains<SEGMENT>,
    known: &Known,
    plain: &PlainMemory,
    touched: Option<u64>,
    positions: &[Pos],
    tally: &mut Tally,
) -> Result<(), AllocError>
    requires { IsTracked chains.now known.now }
{
    ask_numbers(chains, plain.chains.as_slice(), tally);
    for chain in &plain.chains {
        ask_chain(chains, chain, tally);
        if touched.is_none() || touched == Some(chain.id) {
            ask_snapshots(alloc, chains, known, chain, positions, tally)?;
        }
    }
    Ok(())
}

// What a chain shows.
fn ask_chain(chains: &Chains<SEGMENT>, plain: &PlainChain, tally: &mut Tally) {
    let id = plain.id;
    if !chains.is_there(id) {
        tally.expect(false, "whether a chain is there");
        return;
    }
    tally.expect(
        is_cache(chains.kind(id)) == is_cache(plain.kind),
        "the kind",
    );
    tally.expect(chains.is_attached(id) == plain.attached, "is_attached");
    tally.expect(chains.is_updating(id) == plain.updating, "is_updating");
    tally.expect(chains.is_passed(id) == plain.passed, "is_passed");
    let versions = plain.versions.len();
    tally.expect(
        chains.versions(id) == versions as u64,
        "how many versions there are",
    );
    for number in 0..versions {
        ask_version(chains, plain, number, tally);
    }
}

// What one version shows.
fn ask_version(chains: &Chains<SEGMENT>, plain: &PlainChain, number: usize, tally: &mut Tally) {
    if !has_version(chains, plain.id, number as u64) {
        return;
    }
    let pinned = chains.is_pinned(plain.id, number as u64);
    tally.expect(pinned == plain.is_pinned(number), "is_pinned");
    if let Some(version) = plain.versions.get(number) {
        let phase = chains.phase(plain.id, number as u64);
        tally.expect(phase == version.phase, "the phase");
    }
}

// Where each snapshot of a chain stands, and what it sees.
fn ask_snapshots(
    alloc: Global,
    chains: &Chains<SEGMENT>,
    known: &Known,
    plain: &PlainChain,
    positions: &[Pos],
    tally: &mut Tally,
) -> Result<(), AllocError>
    requires { IsTracked chains.now known.now }
{
    for index in 0..known.held.len() {
        if let Some(pin) = pin_of(known, index, plain.id) {
            ask_snapshot(alloc, chains, known, index, pin, plain, positions, tally)?;
        }
    }
    Ok(())
}

// The number of the snapshot at an index, where it is one of a chain.
fn pin_of(known: &Known, index: usize, id: u64) -> Option<u64> {
    match known.held.get(index) {
        Some(held) if held.chain == id => Some(held.pin),
        _ => None,
    }
}

// Where a snapshot stands, and what it sees.
fn ask_snapshot(
    alloc: Global,
    chains: &Chains<SEGMENT>,
    known: &Known,
    index: usize,
    pin: u64,
    plain: &PlainChain,
    positions: &[Pos],
    tally: &mut Tally,
) -> Result<(), AllocError>
    requires { IsTracked chains.now known.now }
{
    let Some(number) = plain.pinned_at(pin as usize) else {
        tally.expect(false, "which snapshots there are");
        return Ok(());
    };
    ask_standing(chains, known, index, number, plain, tally);
    let versions = up_to(plain.versions.as_slice(), number);
    ask_head(alloc, chains, known, index, versions, plain, tally)?;
    for x in positions {
        ask_at(alloc, chains, known, index, versions, plain, x, tally)?;
    }
    Ok(())
}

// Where a snapshot stands, and whether it fills.
fn ask_standing(
    chains: &Chains<SEGMENT>,
    known: &Known,
    index: usize,
    number: usize,
    plain: &PlainChain,
    tally: &mut Tally,
)
    requires { IsTracked chains.now known.now }
{
    if let Some((at, fills)) = standing(chains, known, index) {
        tally.expect(at == number as u64, "pinned_at");
        let newest = number == plain.versions.len().saturating_sub(1);
        let wanted = newest && plain.attached && !plain.updating;
        tally.expect(fills == wanted, "may_fill");
    }
}

// What a snapshot sees at the head.
fn ask_head(
    alloc: Global,
    chains: &Chains<SEGMENT>,
    known: &Known,
    index: usize,
    versions: &[PlainVersion],
    plain: &PlainChain,
    tally: &mut Tally,
) -> Result<(), AllocError>
    requires { IsTracked chains.now known.now }
{
    match seen_head(chains, known, index)? {
        Some(head) => is_head(alloc, &head, versions, plain, tally),
        None => Ok(()),
    }
}

fn is_head(
    alloc: Global,
    head: &ReadHead,
    versions: &[PlainVersion],
    plain: &PlainChain,
    tally: &mut Tally,
) -> Result<(), AllocError> {
    let wanted = statics_at(alloc, versions)?;
    tally.expect(head.pt == head_of(versions), "the partition tombstone");
    tally.expect(
        head.known == is_known_in(plain.kind, wanted.flag),
        "whether the static row is known",
    );
    tally.expect(is_given(&head.row, &wanted.row), "the static row");
    Ok(())
}

// What a snapshot sees at a position.
fn ask_at(
    alloc: Global,
    chains: &Chains<SEGMENT>,
    known: &Known,
    index: usize,
    versions: &[PlainVersion],
    plain: &PlainChain,
    x: &Pos,
    tally: &mut Tally,
) -> Result<(), AllocError>
    requires { IsTracked chains.now known.now }
{
    match seen_at(chains, known, index, x)? {
        Some(seen) => is_at(alloc, &seen, versions, plain, x, tally),
        None => Ok(()),
    }
}

fn is_at(
    alloc: Global,
    seen: &ReadAt,
    versions: &[PlainVersion],
    plain: &PlainChain,
    x: &Pos,
    tally: &mut Tally,
) -> Result<(), AllocError> {
    let known = is_known_at(alloc, plain.kind, versions, x)?;
    let wanted = rc_core::seen_at(alloc, versions, x, Side::On)?;
    tally.expect(is_given(&seen.row, &wanted.row), "the row at a position");
    tally.expect(seen.tomb == wanted.tomb, "the tombstone at a position");
    tally.expect(seen.known == known, "whether a position is known");
    Ok(())
}
