//! The choices that the crates above make at one place, as plain functions: which flag decides, what a fill, a joined range and an
//! eviction leave, and where a state of an older version goes.

ghost use Rattle.std.specs.Prelude.{◌≡◌, ◌+◌, ◌<◌, ◌++◌, ◌⊎◌, length, take, drop, [], HoldsAt, IsTrue, OnErr, OnOk, false, ◌↔◌, None, Option};
ghost use Rattle.rc_core.specs.Slow.{plain};
ghost use Rattle.rc_core.specs.SpotState.{spot_state, under};
ghost use Rattle.rc_core.specs.Chain.{flag_over};
ghost use Rattle.rc_core.specs.Change.{drop_at, known_with, lose_first_gap, lost_mark, mark, raised_mark, with_mark, with_row};
ghost use Rattle.rc_core.specs.Continuity.{with_entries};
ghost use Rattle.rc_core.specs.Merge.{Alike};
ghost use Rattle.rc_core.specs.Plain.{end_under, head_under, mark_state, mark_under};
ghost use Rattle.rc_core.specs.Chains.{Chain, IsUpdating};
ghost use Rattle.rc_core.specs.AtPlace.{IsAtPlace};
ghost use Rattle.rc_core.specs.Steps.{MayPopulate, pins_without};
ghost use Rattle.rc_core.specs.Version.{Ascend, IsVersion, static_state};
ghost use Rattle.rc_position.specs.Position.{Clustered};

use crate::entries::{ChainKind, Entry, Flag, Mark};
use crate::slow::PlainVersion;
use rc_cell::{Row, Tomb};
use rc_mutation::greater_tomb;
use rc_position::Pos;
use std::alloc::{AllocError, Global};

/// The flag that is seen where a newer version lies over an older one: the newer one's, or the older one's where the newer one inherits.
pub fn flag_under(older: Flag, newer: Flag) -> Flag
    ensures rule { result ≡ Rattle.rc_core.specs.Plain.flag_under older newer }
    ensures seen { result ≡ (under (spot_state older [] []) (spot_state newer [] [])).flag }
{
    match newer {
        Flag::Known => Flag::Known,
        Flag::Unknown => Flag::Unknown,
        Flag::Inherit => older,
    }
}

/// Whether a flag that is seen through all versions of a chain says that the place is known: an Inherit is what stands below the oldest.
pub fn is_known_in(kind: ChainKind, flag: Flag) -> bool
    ensures { result ≡ flag_over kind flag }
{
    match (flag, kind) {
        (Flag::Known, _) => true,
        (Flag::Unknown, _) => false,
        (Flag::Inherit, ChainKind::Memtable) => true,
        (Flag::Inherit, ChainKind::Cache) => false,
    }
}

/// The mark with a range tombstone joined: the flag stays, and the greater tombstone stands.
pub fn raised_mark(old: Mark, tomb: Option<Tomb>) -> Mark
    ensures { result ≡ raised_mark tomb old }
{
    Mark {
        flag: old.flag,
        tomb: greater_tomb(old.tomb, tomb),
    }
}

/// The mark at a filled row: it is known, and its tombstone is joined.
pub fn filled_mark(old: Mark, tomb: Option<Tomb>) -> Mark
    ensures { result ≡ known_with tomb old }
{
    Mark {
        flag: Flag::Known,
        tomb: greater_tomb(old.tomb, tomb),
    }
}

/// What is left of a gap that is lost: Unknown, and no tombstone.
pub fn mark_of_lost() -> Mark
    ensures { result ≡ lost_mark }
{
    Mark {
        flag: Flag::Unknown,
        tomb: None,
    }
}

/// The newer version's mark after the older one's has gone under it: where it inherits it takes the flag and the greater tombstone;
/// where it is Known or Unknown it stays as it is, and what the older version held there is dropped.
pub fn put_down(older: Mark, newer: Mark) -> Mark
    ensures rule { result ≡ mark_under older newer }
    ensures seen { Alike (mark_state result) (under (mark_state older) (mark_state newer)) }
{
    match newer.flag {
        Flag::Inherit => Mark {
            flag: older.flag,
            tomb: greater_tomb(older.tomb, newer.tomb),
        },
        Flag::Known | Flag::Unknown => newer,
    }
}

/// Takes out the entry of an index, which is not the last one: the gap before the next entry is Unknown then, without a tombstone. Where
/// entries ascend, this is the entry at its position dropped.
pub fn drop_entry(entries: &mut Vec<Entry>, index: usize)
    requires { index + 1 < length entries.old.items }
    ensures value { entries.new.items ≡ take index entries.old.items ++ lose_first_gap (drop (index + 1) entries.old.items) }
    ensures dropped { Ascend entries.old.items → HoldsAt (λ e. entries.new.items ≡ drop_at e.position entries.old.items) entries.old.items index }
{
    let _dropped = entries.remove(index);
    entries[index].gap = mark_of_lost();
}

/// Evicts the entry of an index of a version under update that stands at the update's place, which is clustered. False exactly of the last entry, which is the end dummy, and
/// of the dummy at the place: these stay. All else that the version says stays, and it stands at the place before and after.
pub fn evict_under_update(place: &Pos, version: &mut PlainVersion, index: usize) -> bool
    requires { index < length version.old.entries.items }
    ensures place { IsVersion (plain version.old) → IsAtPlace (Clustered place.now) (plain version.old) → IsAtPlace (Clustered place.now) (plain version.new) }
    ensures stays { result ≡ false → version.new ≡ version.old }
    ensures only { result ≡ false ↔ ((index + 1 ≡ length version.old.entries.items) ⊎ HoldsAt (λ e. e.position ≡ place.now) version.old.entries.items index) }
    ensures goes { IsTrue result → Ascend version.old.entries.items → HoldsAt (λ e. plain version.new ≡ with_entries (drop_at e.position version.old.entries.items) (plain version.old)) version.old.entries.items index }
{
    if index + 1 == version.entries.len() || version.entries[index].position == *place {
        return false;
    }
    drop_entry(&mut version.entries, index);
    true
}

/// The number of a snapshot becomes free; the other snapshots keep theirs.
pub fn release_pin(pins: &mut Vec<Option<usize>>, number: usize)
    requires { number < length pins.old.items }
    ensures { pins.new.items ≡ pins_without number pins.old.items }
{
    pins[number] = None;
}

/// Whether a snapshot may populate the cache, of a chain with so many versions: its version is the newest of an attached chain that is not
/// under update.
pub fn may_populate(version: usize, versions: usize, attached: bool, updating: bool) -> bool
    requires { version < versions }
    ensures { (c : Chain) → length c.versions ≡ versions → c.attached ≡ attached → (IsTrue updating ↔ IsUpdating c.updating) → (IsTrue result ↔ MayPopulate c version) }
{
    version == versions - 1 && attached && !updating
}

/// A row of an update at the update's place: it is joined, and the tombstone that is in force as the fragments have it; the flag stays. The
/// only error is want of memory, which leaves the entry as it was.
pub fn join_updated_row(
    alloc: Global,
    entry: &mut Entry,
    row: Row,
    in_force: Option<Tomb>,
) -> Result<(), AllocError>
    ensures ok { OnOk result (entry.new ≡ with_mark (raised_mark in_force) (with_row row entry.old)) }
    ensures err { OnErr result (entry.new ≡ entry.old) }
{
    match &mut entry.row {
        Some(old) => old.join(alloc, &row)?,
        None => entry.row = Some(row),
    }
    entry.at = raised_mark(entry.at, in_force);
    Ok(())
}

/// The end dummy of a version that has nothing else, put down under that of the next newer one: the gap before it, and its own place.
/// Its position stays, and so does what it has of a row.
pub fn merge_end(older: &Entry, newer: &mut Entry)
    ensures gap { Alike (mark_state newer.new.gap) (under (mark_state older.now.gap) (mark_state newer.old.gap)) }
    ensures at { Alike (mark_state newer.new.at) (under (mark_state older.now.at) (mark_state newer.old.at)) }
    ensures whole { newer.new ≡ end_under older.now newer.old }
{
    newer.gap = put_down(older.gap, newer.gap);
    newer.at = put_down(older.at, newer.at);
}

/// The head of a version that has no static row, put down under that of the next newer one: the flag of the static row, and the partition
/// tombstone. All else that the newer version says, its own static row among it, and its phase stay.
pub fn merge_head(older: &PlainVersion, newer: &mut PlainVersion)
    ensures statics { older.now.statics ≡ None → Alike (static_state (plain newer.new)) (under (static_state (plain older.now)) (static_state (plain newer.old))) }
    ensures whole { plain newer.new ≡ head_under (plain older.now) (plain newer.old) }
    ensures entries { newer.new.entries ≡ newer.old.entries }
{
    newer.static_flag = flag_under(older.static_flag, newer.static_flag);
    newer.pt = greater_tomb(older.pt, newer.pt);
}
