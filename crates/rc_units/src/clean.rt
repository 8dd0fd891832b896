//! The cleaner's unit on plain vectors: the first entry of a version, or its end dummy, under the entries of the next newer version.

ghost use Rattle.std.specs.Prelude.{◌≡◌, IfOk};
ghost use Rattle.rc_position.specs.Position.{pos_cmp};
ghost use Rattle.rc_units.specs.Clean.{end_onto, entry_onto, gap_onto_by, gap_said, merge_entry};

use crate::entries::{copy_entry, put_under, put_under_gap, split_entries};
use rc_core::{Entry, Flag, Mark};
use std::alloc::{AllocError, Global};
use std::cmp::Ordering;

/// The newer version's entries with the first entry of the older one under them, its gap, and the gap before the entry that follows it. The only
/// error is want of memory.
pub fn merge_first_entry(
    alloc: Global,
    merged: &Entry,
    next: &Entry,
    newer: &[Entry],
) -> Result<Vec<Entry>, AllocError>
    ensures { IfOk result (λ made. made.items ≡ merge_entry merged.now next.now newer.now) }
{
    let split = split_entries(alloc, &merged.position, newer)?;
    let split_twice = split_entries(alloc, &next.position, &split)?;
    let mut made = Vec::new(alloc);
    for entry in &split_twice {
        made.push(merge_onto(alloc, merged, next, entry)?)?;
    }
    Ok(made)
}

/// An entry of the newer version with what the merged entry and the gap before the next one say there under it. The only error is want of memory.
pub fn merge_onto(
    alloc: Global,
    merged: &Entry,
    next: &Entry,
    entry: &Entry,
) -> Result<Entry, AllocError>
    ensures { IfOk result (λ made. made ≡ entry_onto merged.now next.now entry.now) }
{
    match entry.position.cmp(&merged.position) {
        Ordering::Less => put_under(alloc, merged.gap, &None, merged.gap, entry),
        Ordering::Equal => put_under(alloc, merged.at, &merged.row, merged.gap, entry),
        Ordering::Greater => merge_gap_onto(alloc, next, entry),
    }
}

// The same of an entry behind the merged one: the gap before the next one reaches up to that.
fn merge_gap_onto(alloc: Global, next: &Entry, entry: &Entry) -> Result<Entry, AllocError>
    ensures { IfOk result (λ made. made ≡ gap_onto_by (pos_cmp entry.now.position next.now.position) next.now entry.now) }
{
    match entry.position.cmp(&next.position) {
        Ordering::Less => put_under(alloc, next.gap, &None, next.gap, entry),
        Ordering::Equal => put_under_gap(alloc, next.gap, entry),
        Ordering::Greater => copy_entry(alloc, entry),
    }
}

/// The newer version's entries with the older one's end dummy under them: its gap, and its own state. The only error is want of memory.
pub fn merge_end_dummy(
    alloc: Global,
    end: &Entry,
    newer: &[Entry],
) -> Result<Vec<Entry>, AllocError>
    ensures { IfOk result (λ made. made.items ≡ Rattle.rc_units.specs.Clean.merge_end_dummy end.now newer.now) }
{
    let mut made = Vec::new(alloc);
    for entry in newer {
        made.push(merge_end_onto(alloc, end, entry)?)?;
    }
    Ok(made)
}

fn merge_end_onto(alloc: Global, end: &Entry, entry: &Entry) -> Result<Entry, AllocError>
    ensures { IfOk result (λ made. made ≡ end_onto end.now entry.now) }
{
    match entry.position.cmp(&end.position) {
        Ordering::Less => put_under(alloc, end.gap, &None, end.gap, entry),
        Ordering::Equal => put_under(alloc, end.at, &end.row, end.gap, entry),
        Ordering::Greater => copy_entry(alloc, entry),
    }
}

/// The entry that followed a merged one: the gap before it says nothing more.
pub fn close_gap(next: &mut Entry)
    ensures { next.new ≡ gap_said next.old }
{
    next.gap = Mark {
        flag: Flag::Inherit,
        tomb: None,
    };
}
