//! A mutation from its rows and changes.

ghost use Rattle.std.specs.Prelude.{◌≡◌, ◌↔◌, [], ◌∷◌, ◌++◌, IfOk, IsTrue, List, OnOk, Some, None};
ghost use Rattle.std.specs.Option.{option_map};
ghost use Rattle.rc_position.specs.Position.{IsBefore};
ghost use Rattle.rc_ranges.specs.declared.pieces.Piece.{Piece};
ghost use Rattle.rc_ranges.specs.Cover.{IsCanonical, MayFollow};
ghost use Rattle.rc_mutation.specs.declared.mutations.Mutation.{Mutation};
ghost use Rattle.rc_mutation.specs.Rows.{IsRows, joined_rows};
ghost use Rattle.rc_mutation.specs.Source.{IsMutation};
ghost use Rattle.rc_tables.specs.calls.Rebuilt.{NoRowIsEmpty, open_range, changes_among, ended_range, pieces_between, rows_among};
ghost use Rattle.rc_mutation.specs.Fragments.{rows_and_changes};

use rc_cell::Tomb;
use rc_mutation::{Frag, Head, Mutation, Rows, Statics};
use rc_position::Pos;
use rc_ranges::{Piece, Ranges};
use std::alloc::{AllocError, Global};
use std::cmp::Ordering;

/// The mutation of a head and of rows and changes; none where they are those of no mutation. The only error is want of memory.
pub(crate) fn mutation_of(
    alloc: Global,
    head: Head,
    frags: &[Frag],
) -> Result<Option<Mutation>, AllocError>
    ensures { (m : Mutation) → IsMutation m → frags.now ≡ rows_and_changes m → head ≡ record { pt = m.pt; statics = m.statics } → IfOk result (λ found. found ≡ Some m) }
{
    let Some(rows) = rows_of(alloc, frags)? else {
        return Ok(None);
    };
    let Some(ranges) = ranges_of(alloc, frags)? else {
        return Ok(None);
    };
    let Some(statics) = Statics::from_row(head.statics) else {
        return Ok(None);
    };
    Ok(Some(Mutation {
        pt: head.pt,
        statics,
        rows,
        ranges,
    }))
}

// The rows among fragments, by key; none where nothing was written of one.
fn rows_of(alloc: Global, frags: &[Frag]) -> Result<Option<Rows>, AllocError>
    ensures { IsRows (rows_among frags.now) → IfOk result (λ found. found ≡ Some (rows_among frags.now)) }
{
    let mut rows = Rows::empty(alloc);
    let mut left = frags;
    while let [first, rest @ ..] = left {
        if !take_row(alloc, first, &mut rows)? {
            return Ok(None);
        }
        left = rest;
    }
    let _rows = rows.as_slice();
    Ok(Some(rows))
}

// Joins the fragment's row to the rows, if it is one; false where nothing was written of it.
fn take_row(alloc: Global, frag: &Frag, rows: &mut Rows) -> Result<bool, AllocError>
    ensures taken { IfOk result (λ ok. IsTrue ok → joined_rows rows.new ≡ joined_rows (rows.old ++ rows_among (frag.now ∷ []))) }
    ensures written { NoRowIsEmpty (rows_among (frag.now ∷ [])) → IfOk result IsTrue }
{
    match frag {
        Frag::Row(key, row) => {
            if row.is_empty() {
                return Ok(false);
            }
            rows.join_row(alloc, key, row)?;
            Ok(true)
        }
        Frag::Start(_) | Frag::Static(_) | Frag::Change(_, _) | Frag::End => Ok(true),
    }
}

// The ranges between the changes among fragments; none where they do not end, or are not canonical.
fn ranges_of(alloc: Global, frags: &[Frag]) -> Result<Option<Ranges>, AllocError>
    ensures { (pieces : List Piece) → IsCanonical pieces → pieces_between (changes_among frags.now) None ≡ Some pieces → IfOk result (λ found. found ≡ Some pieces) }
{
    let Some(pieces) = pieces_of(alloc, frags)? else {
        return Ok(None);
    };
    if !are_canonical(pieces.as_slice()) {
        return Ok(None);
    }
    Ok(Some(Ranges::from_slice(alloc, pieces.as_slice())?))
}

// The pieces between the changes among fragments; none where the last does not end.
fn pieces_of(alloc: Global, frags: &[Frag]) -> Result<Option<Vec<Piece>>, AllocError>
    ensures { IfOk result (λ found. option_map (λ v. v.items) found ≡ pieces_between (changes_among frags.now) None) }
{
    let mut made = Vec::new(alloc);
    let mut start = None;
    let mut left = frags;
    while let [first, rest @ ..] = left {
        start = take_change(alloc, first, start, &mut made)?;
        left = rest;
    }
    match start {
        None => Ok(Some(made)),
        Some(_) => Ok(None),
    }
}

// Ends at the fragment's change the piece that had begun, and begins the next.
fn take_change(
    alloc: Global,
    frag: &Frag,
    start: Option<(Pos, Tomb)>,
    made: &mut Vec<Piece>,
) -> Result<Option<(Pos, Tomb)>, AllocError>
    ensures { IfOk result (λ next. (fs : List Frag) → option_map (λ ps. made.new.items ++ ps) (pieces_between (changes_among fs) next)
        ≡ option_map (λ ps. made.old.items ++ ps) (pieces_between (changes_among (frag.now ∷ fs)) start)) }
{
    match frag {
        Frag::Change(x, tomb) => {
            end_piece(alloc, start, x, made)?;
            Ok(begun_at(alloc, x, *tomb)?)
        }
        Frag::Start(_) | Frag::Static(_) | Frag::Row(_, _) | Frag::End => Ok(start),
    }
}

// Appends the piece that ends here, where one had begun.
fn end_piece(
    alloc: Global,
    start: Option<(Pos, Tomb)>,
    to: &Pos,
    made: &mut Vec<Piece>,
) -> Result<(), AllocError>
    ensures { OnOk result (made.new.items ≡ made.old.items ++ ended_range start to.now) }
{
    if let Some((from, tomb)) = start {
        let to = to.copy(alloc)?;
        made.push(Piece { from, to, tomb })?;
    }
    Ok(())
}

// What begins at a change.
fn begun_at(alloc: Global, x: &Pos, tomb: Option<Tomb>) -> Result<Option<(Pos, Tomb)>, AllocError>
    ensures { IfOk result (λ next. next ≡ open_range x.now tomb) }
{
    match tomb {
        Some(tomb) => Ok(Some((x.copy(alloc)?, tomb))),
        None => Ok(None),
    }
}

// Whether pieces are canonical: none is empty, they ascend, and two that touch have different tombstones.
fn are_canonical(pieces: &[Piece]) -> bool
    ensures { IsTrue result ↔ IsCanonical pieces.now }
{
    let mut left = pieces;
    while let [first, rest @ ..] = left {
        if !may_stand(first, rest) {
            return false;
        }
        left = rest;
    }
    true
}

// Whether a piece is not empty and may stand before others.
fn may_stand(piece: &Piece, next: &[Piece]) -> bool
    ensures { IsTrue result ↔ (IsBefore piece.now.from piece.now.to × MayFollow piece.now next.now) }
{
    piece.from < piece.to && may_follow(piece, next)
}

// Whether the first of some pieces may stand behind a piece.
fn may_follow(piece: &Piece, next: &[Piece]) -> bool
    ensures { IsTrue result ↔ MayFollow piece.now next.now }
{
    match next {
        [] => true,
        [first, _rest @ ..] => match piece.to.cmp(&first.from) {
            Ordering::Less => true,
            Ordering::Equal => piece.tomb != first.tomb,
            Ordering::Greater => false,
        },
    }
}
