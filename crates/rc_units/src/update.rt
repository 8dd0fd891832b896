//! A unit of an update on plain vectors: a fragment put in at the place, with a dummy at the next one; and the rest lost where there is no room.

ghost use Rattle.std.specs.Prelude.{◌≡◌, IfOk, map};
ghost use Rattle.std.specs.Ordering.{is_lt};
ghost use Rattle.rc_position.specs.Position.{Clustered, pos_cmp};
ghost use Rattle.rc_core.specs.Change.{change, entry_changed, raised_mark};
ghost use Rattle.rc_core.specs.Version.{end_position};
ghost use Rattle.rc_units.specs.Update.{force_after, fragment_entries, lost_behind};

use crate::entries::{copy_entries, copy_entry, join_row, split_entries};
use rc_cell::Tomb;
use rc_core::{Entry, mark_of_lost, raised_mark};
use rc_mutation::Frag;
use rc_position::{Pos, Weight};
use std::alloc::{AllocError, Global};

/// The range tombstone in force behind a fragment, where that before it is given.
pub fn force_behind(force: Option<Tomb>, fragment: &Frag) -> Option<Tomb>
    ensures { result ≡ force_after force fragment.now }
{
    match fragment {
        Frag::Start(_) | Frag::Static(_) => None,
        Frag::Row(_, _) | Frag::End => force,
        Frag::Change(_, tomb) => *tomb,
    }
}

/// The newest version's entries after the unit of a fragment, with the range tombstone in force before it and the position of the next fragment, which is
/// that of the end dummy where the end comes next. The only error is want of memory.
pub fn put_fragment(
    alloc: Global,
    force: Option<Tomb>,
    fragment: &Frag,
    next: &Pos,
    entries: &[Entry],
) -> Result<Vec<Entry>, AllocError>
    ensures { IfOk result (λ made. made.items ≡ fragment_entries force fragment.now (Clustered next.now) entries.now) }
{
    match fragment {
        Frag::Start(_) | Frag::Static(_) => split_entries(alloc, next, entries),
        Frag::Row(key, row) => {
            let at = Pos {
                prefix: key.copy(alloc)?,
                weight: Weight::At,
            };
            let joined = join_row(alloc, &at, row, entries)?;
            raise_entries(alloc, force, &at, next, &joined)
        }
        Frag::Change(from, tomb) => raise_entries(alloc, *tomb, from, next, entries),
        Frag::End => copy_entries(alloc, entries),
    }
}

/// The entries with a range tombstone joined from one position on and before another, at both of which an entry is left. The only error is want of memory.
pub fn raise_entries(
    alloc: Global,
    tomb: Option<Tomb>,
    from: &Pos,
    to: &Pos,
    entries: &[Entry],
) -> Result<Vec<Entry>, AllocError>
    ensures { IfOk result (λ made. made.items ≡ change (raised_mark tomb) from.now to.now entries.now) }
{
    let split = split_entries(alloc, from, entries)?;
    let split_twice = split_entries(alloc, to, &split)?;
    let mut made = Vec::new(alloc);
    for entry in &split_twice {
        made.push(raise_entry(alloc, tomb, from, to, entry)?)?;
    }
    Ok(made)
}

fn raise_entry(
    alloc: Global,
    tomb: Option<Tomb>,
    from: &Pos,
    to: &Pos,
    entry: &Entry,
) -> Result<Entry, AllocError>
    ensures { IfOk result (λ made. made ≡ entry_changed (raised_mark tomb) from.now to.now entry.now) }
{
    let mut made = copy_entry(alloc, entry)?;
    if *from <= entry.position && entry.position < *to {
        made.at = raised_mark(entry.at, tomb);
    }
    if *from < entry.position && entry.position <= *to {
        made.gap = raised_mark(entry.gap, tomb);
    }
    Ok(made)
}

/// From the place on everything is lost, up to the end: the flags and range tombstones, and the rows. No entry is made.
pub fn lose_rest(place: &Pos, entries: &mut [Entry])
    ensures { entries.new ≡ map (lost_behind (Clustered place.now)) entries.old }
{
    for entry in entries.iter_mut() {
        lose_behind(place, entry);
    }
}

fn lose_behind(place: &Pos, entry: &mut Entry)
    ensures { entry.new ≡ lost_behind (Clustered place.now) entry.old }
{
    if *place < entry.position {
        entry.gap = mark_of_lost();
    }
    if *place <= entry.position && is_before_end(&entry.position) {
        entry.row = None;
        entry.at = mark_of_lost();
    }
}

// Whether the position stands before the end dummy.
fn is_before_end(x: &Pos) -> bool
    ensures { result ≡ is_lt (pos_cmp x.now end_position) }
{
    match x.weight {
        Weight::Before | Weight::At => true,
        Weight::After => !x.prefix.as_slice().is_empty(),
    }
}
