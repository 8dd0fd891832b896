//! Whether what was read of a partition says what a snapshot of its chain knows.
ghost use Rattle.std.specs.Prelude.{◌≡◌, ◌∷◌, [], ◌↔◌, IfOk, IsTrue, ⊤};
ghost use Rattle.std.specs.Option.{MatchOption};
ghost use Rattle.rc_cell.specs.declared.rows.Row.{Row as Cells};
ghost use Rattle.rc_position.specs.declared.positions.Pos.{Pos as Position};
ghost use Rattle.rc_position.specs.Position.{IsBefore};
ghost use Rattle.rc_core.specs.Parts.{IsReach};
ghost use Rattle.rc_core.specs.Version.{end_position};
ghost use Rattle.rc_memory.specs.Memory.{HasPin};
ghost use Rattle.rc_reading.specs.Reading.{IsRowGiven};
ghost use Rattle.rc_cursor.specs.Snapshots.{kind_seen, versions_seen};
ghost use Rattle.rc_mutation.specs.declared.mutations.Mutation.{Mutation as Change};
ghost use Rattle.rc_agreement.specs.Agreement.{SnapshotAgrees};
ghost use Rattle.rc_agreement.specs.calls.Agreement.{IsPlaceSaid};
ghost use Rattle.rc_agreement.specs.calls.Passing.{first_row_at, first_tomb_at, is_even_to, is_rowless_to, rows_behind};
ghost use Rattle.rc_agreement.specs.calls.Walking.{AllSaid, AreSaid, IsOnward};

use crate::comparing::{is_given, is_same_tomb};
use crate::gaps::{GapBehind, gap_behind};
use crate::passing::{
    first_tomb_at, is_even_to, is_first_row, is_rowless_to, onward_pieces, onward_rows, rows_behind,
};
use rc_cell::Row;
use rc_chain::{Chains, ReadAt, ReadHead, Snap};
use rc_core::is_known_in;
use rc_cursor::laws::a_snapshot_sees_up_to_its_version;
use rc_mutation::Mutation;
use rc_position::{Key, Pos, Weight};
use rc_ranges::Piece;
use std::alloc::{AllocError, Global};

// Whether what was read has the partition tombstone of a head, and its static row where that is known.
fn is_head_of(head: &ReadHead, read: &Mutation) -> bool
    ensures { (row : Cells) → IsRowGiven head.now.row row → IsTrue result ↔ ((head.now.pt ≡ read.now.pt) × (IsTrue head.now.known → read.now.statics ≡ row)) }
{
    is_same_tomb(head.pt, read.pt) && (!head.known || is_given(&head.row, read.statics.as_row()))
}

// Whether the first of rows and of pieces from a place on say there what is seen, if that is known.
fn is_place_said(seen: &ReadAt, x: &Pos, rows: &[(Key, Row)], pieces: &[Piece]) -> bool
    ensures { (row : Cells) → IsRowGiven seen.now.row row → IsTrue result ↔ (IsTrue seen.now.known → (first_row_at x.now rows.now ≡ row) × (first_tomb_at x.now pieces.now ≡ seen.now.tomb)) }
{
    !seen.known
        || (is_first_row(rows, x, &seen.row) && is_same_tomb(first_tomb_at(pieces, x), seen.tomb))
}

// Whether they say no row behind the place and before the end of the gap, and throughout its tombstone, if that is known.
fn is_gap_said(known: bool, gap: &GapBehind, x: &Pos, rows: &[(Key, Row)], pieces: &[Piece]) -> bool
    ensures { IsTrue result ↔ (IsTrue known → IsTrue (is_rowless_to gap.now.to (rows_behind x.now rows.now)) × (first_tomb_at x.now pieces.now ≡ gap.now.tomb) × IsTrue (is_even_to x.now gap.now.to pieces.now)) }
{
    !known
        || (is_rowless_to(rows_behind(rows, x), &gap.to)
            && is_same_tomb(first_tomb_at(pieces, x), gap.tomb)
            && is_even_to(pieces, x, &gap.to))
}

// Whether the first of rows and of pieces from a place on say there what a snapshot knows. The only error is want of memory.
fn place_agrees<const S: usize>(
    chains: &Chains<S>,
    snap: &Snap,
    x: &Pos,
    rows: &[(Key, Row)],
    pieces: &[Piece],
) -> Result<bool, AllocError>
    requires { HasPin chains.now snap.now.chain snap.now.pin }
    ensures { (m : Change) → IsOnward x.now m rows.now pieces.now → IfOk result (λ b. IsTrue b ↔ IsPlaceSaid (kind_seen chains.now snap.now) (versions_seen chains.now snap.now) (m ∷ []) x.now) }
{
    a_snapshot_sees_up_to_its_version();
    let seen = chains.at(snap, x)?;
    Ok(is_place_said(&seen, x, rows, pieces))
}

// The place of the next entry behind a place, where all that a snapshot knows up to there is said; none where something known is not. The only error is want of memory.
fn next_place<const S: usize>(
    alloc: Global,
    chains: &Chains<S>,
    snap: &Snap,
    x: &Pos,
    rows: &[(Key, Row)],
    pieces: &[Piece],
) -> Result<Option<Pos>, AllocError>
    requires pin { HasPin chains.now snap.now.chain snap.now.pin }
    requires inside { IsBefore x.now end_position }
    ensures reach { IfOk result (λ next. MatchOption next ⊤ (λ to. IsReach (versions_seen chains.now snap.now) x.now end_position to)) }
    ensures said { (m : Change) → IsOnward x.now m rows.now pieces.now → IfOk result (λ next. MatchOption next
        (AreSaid (kind_seen chains.now snap.now) (versions_seen chains.now snap.now) (m ∷ []) x.now end_position → ⊥)
        (λ to. AreSaid (kind_seen chains.now snap.now) (versions_seen chains.now snap.now) (m ∷ []) x.now to)) }
{
    a_snapshot_sees_up_to_its_version();
    if !place_agrees(chains, snap, x, rows, pieces)? {
        return Ok(None);
    }
    let gap = gap_behind(alloc, chains, snap, x)?;
    let known = is_known_in(chains.kind(snap.chain), gap.flag);
    if !is_gap_said(known, &gap, x, rows, pieces) {
        return Ok(None);
    }
    Ok(Some(gap.to))
}

// Whether what was read says at each position what a snapshot knows there, and over each open gap. The only error is want of memory.
fn places_agree<const S: usize>(
    alloc: Global,
    chains: &Chains<S>,
    snap: &Snap,
    read: &Mutation,
) -> Result<bool, AllocError>
    requires { HasPin chains.now snap.now.chain snap.now.pin }
    ensures { IfOk result (λ b. IsTrue b ↔ AllSaid (kind_seen chains.now snap.now) (versions_seen chains.now snap.now) (read.now ∷ [])) }
{
    let end = Pos {
        prefix: Key::empty(alloc),
        weight: Weight::After,
    };
    let mut place = Pos {
        prefix: Key::empty(alloc),
        weight: Weight::Before,
    };
    let mut rows = read.rows.as_slice();
    let mut pieces = read.ranges.as_slice();
    while place < end {
        rows = onward_rows(rows, &place);
        pieces = onward_pieces(pieces, &place);
        let Some(next) = next_place(alloc, chains, snap, &place, rows, pieces)? else {
            return Ok(false);
        };
        place = next;
    }
    let rows = onward_rows(rows, &place);
    let pieces = onward_pieces(pieces, &place);
    place_agrees(chains, snap, &place, rows, pieces)
}

/// Whether what was read of a partition says what a snapshot of its chain knows: at each position that it knows the same row, or none, and the same range tombstone; over each open gap that it knows the same range tombstone; the same partition tombstone; and the same static row where it knows that. Nothing is changed. It takes a few searches in each version for each entry that the snapshot sees, and one step for each row and range tombstone that was read. The only error is want of memory.
pub fn agrees<const S: usize>(
    alloc: Global,
    chains: &Chains<S>,
    snap: &Snap,
    read: &Mutation,
) -> Result<bool, AllocError>
    requires { HasPin chains.now snap.now.chain snap.now.pin }
    ensures { IfOk result (λ b. IsTrue b ↔ SnapshotAgrees chains.now snap.now (read.now ∷ [])) }
{
    read.holds_together();
    a_snapshot_sees_up_to_its_version();
    let head = chains.head(snap)?;
    if !is_head_of(&head, read) {
        return Ok(false);
    }
    places_agree(alloc, chains, snap, read)
}
