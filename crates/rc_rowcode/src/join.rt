//! Rows joined as codes: without decoding them into rows, and without taking memory.

ghost use Rattle.std.specs.Prelude.{◌≡◌, ◌≤◌, ◌<◌, ◌+◌, ◌^◌, ◌++◌, [], ◌∷◌, length, IfSome, MatchOption};
ghost use Rattle.std.specs.List.{flat_map};
ghost use Rattle.std.specs.Vec.{vec_capacity};
ghost use Rattle.rc_cell.specs.declared.rows.Row.{Row};
ghost use Rattle.rc_cell.specs.Orders.{cell_cmp};
ghost use Rattle.rc_cell.specs.Winner.{winner, joined_row};
ghost use Rattle.rc_rowcode.specs.Spelling.{entry_code, row_code, CellFits, IsCodedRow, IsCode};
ghost use Rattle.rc_rowcode.specs.calls.Views.{seen_cell};
ghost use Rattle.rc_rowcode.specs.calls.Joining.{listed_cells, seen_entries, seen_row, merged_cells, AreSorted};
ghost use Rattle.rc_rowcode.specs.Space.{Space, HasRoom};

use crate::cells::{CellView, append_entry, entry_at};
use crate::numbers::{append_byte, byte_at};
use crate::rows::{
    append_marker, append_row_tomb, marker_at, marker_size, row_tomb_at, row_tomb_size,
};
use crate::scratch::Scratch;
use rc_cell::{Tomb, greater_of};
use std::cmp::Ordering;

/// Cells in a row's code that are still to be read: how many, and the bytes from the first on.
#[derive(Clone, Copy)]
pub(crate) struct Entries<'a> {
    pub(crate) count: u8,
    pub(crate) bytes: &'a [u8],
}

/// Two rows' cells that are still to be joined.
#[derive(Clone, Copy)]
pub(crate) struct Merge<'a> {
    pub(crate) ours: Entries<'a>,
    pub(crate) theirs: Entries<'a>,
}

/// A row's code, taken apart.
#[derive(Clone, Copy)]
pub(crate) struct Head<'a> {
    pub(crate) marker: Option<i64>,
    pub(crate) tomb: Option<Tomb>,
    pub(crate) cells: Entries<'a>,
}

// The first cell, and those behind it.
fn first(entries: Entries<'_>) -> Option<(u8, CellView<'_>, Entries<'_>)>
    ensures value { MatchOption result (seen_entries entries.entry ≡ []) (λ x. seen_entries entries.entry ≡ (x.0, seen_cell x.1) ∷ seen_entries x.2) }
    ensures fits { IfSome result (λ x. CellFits (seen_cell x.1)) }
{
    if entries.count == 0 {
        return None;
    }
    let Some((column, cell, bytes)) = entry_at(0, entries.bytes) else {
        return None;
    };
    let rest = Entries {
        count: entries.count - 1,
        bytes,
    };
    Some((column, cell, rest))
}

// The winner of two cells of one column.
fn winning<'a>(ours: CellView<'a>, theirs: CellView<'a>) -> CellView<'a>
    ensures value { Some (seen_cell result) ≡ winner (seen_cell ours.entry ∷ seen_cell theirs.entry ∷ []) }
    ensures fits { CellFits (seen_cell ours.entry) → CellFits (seen_cell theirs.entry) → CellFits (seen_cell result) }
{
    match ours.order(&theirs) {
        Ordering::Less => theirs,
        Ordering::Equal => ours,
        Ordering::Greater => ours,
    }
}

// The cell of the least column that is left, the winner where both have it, and what is left behind it.
fn step(left: Merge<'_>) -> Option<(u8, CellView<'_>, Merge<'_>)>
    requires { AreSorted left }
    ensures value { MatchOption result (merged_cells left.entry ≡ []) (λ x. merged_cells left.entry ≡ (x.0, seen_cell x.1) ∷ merged_cells x.2) }
    ensures sorted { IfSome result (λ x. AreSorted x.2) }
    ensures fits { IfSome result (λ x. CellFits (seen_cell x.1)) }
{
    match (first(left.ours), first(left.theirs)) {
        (None, None) => None,
        (Some((column, cell, ours)), None) => {
            let rest = Merge {
                ours,
                theirs: left.theirs,
            };
            Some((column, cell, rest))
        }
        (None, Some((column, cell, theirs))) => {
            let rest = Merge {
                ours: left.ours,
                theirs,
            };
            Some((column, cell, rest))
        }
        (Some((column, cell, ours)), Some((their_column, their_cell, theirs))) => {
            match column.cmp(&their_column) {
                Ordering::Less => {
                    let rest = Merge {
                        ours,
                        theirs: left.theirs,
                    };
                    Some((column, cell, rest))
                }
                Ordering::Equal => {
                    Some((column, winning(cell, their_cell), Merge { ours, theirs }))
                }
                Ordering::Greater => {
                    let rest = Merge {
                        ours: left.ours,
                        theirs,
                    };
                    Some((their_column, their_cell, rest))
                }
            }
        }
    }
}

// How many columns are left in all.
fn count_merged(merge: Merge<'_>) -> usize
    requires sorted { AreSorted merge }
    requires few { length (merged_cells merge) < 2 ^ 32 }
    ensures { result ≡ length (merged_cells merge.entry) }
{
    let mut left = merge;
    let mut total = 0;
    while let Some((_column, _cell, rest)) = step(left) {
        total += 1;
        left = rest;
    }
    total
}

// The length of the codes of the winners.
fn size_merged(merge: Merge<'_>) -> usize
    requires sorted { AreSorted merge }
    requires small { length (flat_map entry_code (merged_cells merge)) < 2 ^ 32 }
    ensures { result ≡ length (flat_map entry_code (merged_cells merge.entry)) }
{
    let mut left = merge;
    let mut total = 0;
    while let Some((_column, cell, rest)) = step(left) {
        total += 1 + cell.size();
        left = rest;
    }
    total
}

// Appends the codes of the winners, for which there is room.
fn append_merged(out: &mut Vec<u8>, merge: Merge<'_>)
    requires sorted { AreSorted merge }
    requires enough { length out.old.items + length (flat_map entry_code (merged_cells merge)) ≤ vec_capacity out.old }
    ensures items { out.new.items ≡ out.old.items ++ flat_map entry_code (merged_cells merge.entry) }
    ensures room { vec_capacity out.old ≤ vec_capacity out.new }
{
    let mut left = merge;
    while let Some((column, cell, rest)) = step(left) {
        append_entry(out, column, &cell);
        left = rest;
    }
}

// A row's code, taken apart; any parts of other bytes.
fn head_of(bytes: &[u8]) -> Head<'_>
    ensures { (r : Row) → IsCodedRow r → bytes.now ≡ row_code r → seen_row result ≡ r }
{
    let nothing = Head {
        marker: None,
        tomb: None,
        cells: Entries {
            count: 0,
            bytes: &[],
        },
    };
    let Some((marker, rest)) = marker_at(bytes) else {
        return nothing;
    };
    let Some((tomb, rest)) = row_tomb_at(rest) else {
        return nothing;
    };
    let Some((count, rest)) = byte_at(rest) else {
        return nothing;
    };
    Head {
        marker,
        tomb,
        cells: Entries { count, bytes: rest },
    }
}

// Appends the code of a row of these parts, for which there is room.
pub(crate) fn append_parts(
    out: &mut Vec<u8>,
    marker: Option<i64>,
    tomb: Option<Tomb>,
    merge: Merge<'_>,
)
    requires sorted { AreSorted merge }
    requires few { length (merged_cells merge) ≤ 32 }
    requires enough { length out.old.items + length (row_code (record { marker = marker; tomb = tomb; cells = merged_cells merge })) ≤ vec_capacity out.old }
    ensures items { out.new.items ≡ out.old.items ++ row_code (record { marker = marker; tomb = tomb; cells = merged_cells merge.entry }) }
    ensures room { vec_capacity out.old ≤ vec_capacity out.new }
{
    append_marker(out, marker);
    append_row_tomb(out, tomb);
    append_byte(out, count_merged(merge) as u8);
    append_merged(out, merge);
}

/// Appends the code of the joined row of two row codes: the greatest marker, the greatest tombstone, and of each column
/// the winner. Both must be row codes, and the joined code must fit. It takes no memory, and one pass to count and one
/// to write.
pub fn join_codes(a: &[u8], b: &[u8], out: &mut Scratch)
    requires ours { IsCode row_code IsCodedRow a.now }
    requires theirs { IsCode row_code IsCodedRow b.now }
    requires room { (r q : Row) → IsCodedRow r → IsCodedRow q → a.now ≡ row_code r → b.now ≡ row_code q → HasRoom out.old (length (row_code (joined_row (r ∷ q ∷ [])))) }
    ensures { (r q : Row) → IsCodedRow r → IsCodedRow q → a.now ≡ row_code r → b.now ≡ row_code q → out.new ≡ record { bytes = out.old.bytes ++ row_code (joined_row (r ∷ q ∷ [])); size = out.old.size } }
{
    let ours = head_of(a);
    let theirs = head_of(b);
    let marker = greater_of(ours.marker, theirs.marker);
    let tomb = greater_of(ours.tomb, theirs.tomb);
    let merge = Merge {
        ours: ours.cells,
        theirs: theirs.cells,
    };
    out.put_parts(marker, tomb, merge);
}

/// The length of the code of the joined row of two row codes, at most that of both together. Both must be row codes. It
/// takes no memory.
pub fn join_size(a: &[u8], b: &[u8]) -> usize
    requires ours { IsCode row_code IsCodedRow a.now }
    requires theirs { IsCode row_code IsCodedRow b.now }
    ensures small { result ≤ 8599 }
    ensures together { result ≤ length a.now + length b.now }
    ensures value { (r q : Row) → IsCodedRow r → IsCodedRow q → a.now ≡ row_code r → b.now ≡ row_code q → result ≡ length (row_code (joined_row (r ∷ q ∷ []))) }
{
    let ours = head_of(a);
    let theirs = head_of(b);
    let marker = greater_of(ours.marker, theirs.marker);
    let tomb = greater_of(ours.tomb, theirs.tomb);
    let merge = Merge {
        ours: ours.cells,
        theirs: theirs.cells,
    };
    let cells = size_merged(merge);
    marker_size(marker) + row_tomb_size(tomb) + 1 + cells
}
