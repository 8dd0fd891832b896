//! Whether a plain version stands at an update's place.

ghost use Rattle.std.specs.Prelude.{◌≡◌, ◌↔◌, ◌∷◌, [], IsTrue, None};
ghost use Rattle.rc_position.specs.Position.{Clustered};
ghost use Rattle.rc_core.specs.AtPlace.{EachEntry, HasEntryAt, IsAtPlace};
ghost use Rattle.rc_core.specs.calls.AtPlace.{FitsPlace, SaysNothingAt};
ghost use Rattle.rc_core.specs.Plain.{no_mark};
ghost use Rattle.rc_core.specs.Slow.{plain};
ghost use Rattle.rc_core.specs.Version.{Ascend, end_position};

use crate::entries::{Entry, Flag, Mark};
use crate::slow::PlainVersion;
use rc_position::{Pos, Weight};
use std::cmp::Ordering;

// Whether a mark says nothing.
fn is_silent(mark: Mark) -> bool
    ensures { IsTrue result ↔ (mark ≡ no_mark) }
{
    match (mark.flag, mark.tomb) {
        (Flag::Inherit, None) => true,
        _ => false,
    }
}

// Whether an entry says nothing at its own position.
fn is_silent_at(entry: &Entry) -> bool
    ensures { IsTrue result ↔ SaysNothingAt entry.now }
{
    match entry.row {
        Some(_) => false,
        None => is_silent(entry.at),
    }
}

// Whether a position is the end of the partition.
fn is_end(x: &Pos) -> bool
    ensures { IsTrue result ↔ (x.now ≡ end_position) }
{
    match (x.prefix.as_slice(), x.weight) {
        ([], Weight::After) => true,
        _ => false,
    }
}

// Whether an entry is the end dummy, and neither it nor the gap before it says anything.
fn is_silent_end(entry: &Entry) -> bool
    ensures { IsTrue result ↔ (SaysNothingAt entry.now × (entry.now.gap ≡ no_mark) × (entry.now.position ≡ end_position)) }
{
    if !is_silent_at(entry) {
        return false;
    }
    if !is_silent(entry.gap) {
        return false;
    }
    is_end(&entry.position)
}

// Whether an entry may stand in a version under update at a place.
fn fits_place(place: &Pos, entry: &Entry) -> bool
    ensures { IsTrue result ↔ FitsPlace place.now entry.now }
{
    match entry.position.cmp(place) {
        Ordering::Less => true,
        Ordering::Equal => is_silent_at(entry),
        Ordering::Greater => is_silent_end(entry),
    }
}

// Whether each entry may.
fn each_fits(place: &Pos, entries: &[Entry]) -> bool
    ensures { IsTrue result ↔ EachEntry (FitsPlace place.now) entries.now }
{
    let mut left = entries;
    while let [first, rest @ ..] = left {
        if !fits_place(place, first) {
            return false;
        }
        left = rest;
    }
    true
}

// Whether an entry stands at a position.
fn has_entry_at(x: &Pos, entries: &[Entry]) -> bool
    ensures { IsTrue result ↔ HasEntryAt x.now entries.now }
{
    let mut left = entries;
    while let [first, rest @ ..] = left {
        if first.position == *x {
            return true;
        }
        left = rest;
    }
    false
}

/// Whether a version stands at an update's place, which is clustered: true only where it does, and where entries ascend, everywhere that it does.
pub fn is_at_place(place: &Pos, version: &PlainVersion) -> bool
    ensures only { IsTrue result → IsAtPlace (Clustered place.now) (plain version.now) }
    ensures everywhere { Ascend version.now.entries.items → IsAtPlace (Clustered place.now) (plain version.now) → IsTrue result }
{
    if has_entry_at(place, version.entries.as_slice()) {
        return each_fits(place, version.entries.as_slice());
    }
    false
}
