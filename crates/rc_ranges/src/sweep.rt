//! The sweep that joins two lists of pieces.

ghost use Rattle.std.specs.Prelude.{◌≡◌, [], ◌∷◌, ◌++◌, IfOk, OnOk};
ghost use Rattle.std.specs.Option.{option_copied};
ghost use Rattle.rc_position.specs.Position.{row_pos};
ghost use Rattle.rc_ranges.specs.Cover.{IsCanonical, IsRangeJoinOf};
ghost use Rattle.rc_ranges.specs.calls.Sweep.{sweep_tomb, next_bound, rest_from, earlier, goes_on, extended_pieces, extended_by};

use crate::pieces::Piece;
use rc_cell::{Tomb, greater_of};
use rc_position::{Key, Pos, Weight};
use std::alloc::{AllocError, Global};

// The tombstone from the mark up to the next bound.
#[tactic(auto, unfolding(crate::specs::calls::Sweep::lt))]
pub(crate) fn tomb_in_force(pieces: &[Piece], mark: &Pos) -> Option<Tomb>
    ensures { result ≡ sweep_tomb pieces.now mark.now }
{
    match pieces {
        [] => None,
        [first, _rest @ ..] => {
            if *mark < first.from {
                None
            } else {
                Some(first.tomb)
            }
        }
    }
}

// The tombstone from the row of the key up to the next bound.
#[tactic(auto, unfolding(crate::specs::calls::Sweep::lt))]
pub(crate) fn tomb_in_force_at_row(pieces: &[Piece], key: &Key) -> Option<Tomb>
    ensures { result ≡ sweep_tomb pieces.now (row_pos key.now) }
{
    match pieces {
        [] => None,
        [first, _rest @ ..] => {
            if key.compare_with_pos(&first.from).is_lt() {
                None
            } else {
                Some(first.tomb)
            }
        }
    }
}

// The next bound behind the mark.
#[tactic(auto, unfolding(crate::specs::calls::Sweep::lt))]
fn bound_behind<'a>(pieces: &'a [Piece], mark: &Pos) -> Option<&'a Pos>
    ensures { option_copied result ≡ next_bound pieces.now mark.now }
{
    match pieces {
        [] => None,
        [first, _rest @ ..] => {
            if *mark < first.from {
                Some(&first.from)
            } else {
                Some(&first.to)
            }
        }
    }
}

// The pieces without the first, if that ends at the mark or before.
#[tactic(auto, unfolding(crate::specs::calls::Sweep::lt))]
fn pieces_from<'a>(pieces: &'a [Piece], mark: &Pos) -> &'a [Piece]
    ensures { result.now ≡ rest_from pieces.now mark.now }
{
    match pieces {
        [] => pieces,
        [first, rest @ ..] => { if *mark < first.to { pieces } else { rest } }
    }
}

// The earlier of two bounds, where there are any.
#[tactic(auto, unfolding(crate::specs::calls::Sweep::lt))]
fn earlier_of<'a>(ours: Option<&'a Pos>, theirs: Option<&'a Pos>) -> Option<&'a Pos>
    ensures { option_copied result ≡ earlier (option_copied ours.entry) (option_copied theirs.entry) }
{
    match (ours, theirs) {
        (Some(ours), Some(theirs)) => {
            if theirs < ours {
                Some(theirs)
            } else {
                Some(ours)
            }
        }
        (Some(ours), None) => Some(ours),
        (None, theirs) => theirs,
    }
}

// Whether a piece goes on where the last ends, with the same tombstone.
fn continues(last: &Piece, next: &Piece) -> bool
    ensures { result ≡ goes_on last.now next.now }
{
    last.tomb == next.tomb && last.to == next.from
}

// Puts two pieces behind the others, as one if the second continues the first.
fn push_both(made: &mut Vec<Piece>, last: Piece, next: Piece) -> Result<(), AllocError>
    ensures { OnOk result (made.new.items ≡ made.old.items ++ extended_pieces (last ∷ []) next) }
{
    if continues(&last, &next) {
        made.push(Piece {
            from: last.from,
            to: next.to,
            tomb: last.tomb,
        })?;
    } else {
        made.push(last)?;
        made.push(next)?;
    }
    Ok(())
}

// Puts a piece behind the others, or makes the last one longer if the new one continues it.
fn extend(made: &mut Vec<Piece>, next: Piece) -> Result<(), AllocError>
    ensures { OnOk result (made.new.items ≡ extended_pieces made.old.items next) }
{
    match made.pop() {
        None => Ok(made.push(next)?),
        Some(last) => push_both(made, last, next),
    }
}

// The same with a tombstone from one position to another, if there is one.
fn extend_by(
    alloc: Global,
    made: &mut Vec<Piece>,
    from: &Pos,
    to: &Pos,
    tomb: Option<Tomb>,
) -> Result<(), AllocError>
    ensures { OnOk result (made.new.items ≡ extended_by made.old.items from.now to.now tomb) }
{
    match tomb {
        None => Ok(()),
        Some(tomb) => {
            let next = Piece::new(alloc, from, to, tomb)?;
            extend(made, next)
        }
    }
}

// The pieces that have at each position the greater tombstone of the two lists. The mark goes from bound to bound, at
// most once over each bound of both lists; what stands before it is done.
pub(crate) fn joined(
    alloc: Global,
    ours: &[Piece],
    theirs: &[Piece],
) -> Result<Vec<Piece>, AllocError>
    requires ours_canonical { IsCanonical ours.now }
    requires theirs_canonical { IsCanonical theirs.now }
    ensures canonical { IfOk result (λ made. IsCanonical made.items) }
    ensures join { IfOk result (λ made. IsRangeJoinOf made.items ours.now theirs.now) }
{
    let first = Pos {
        prefix: Key::empty(alloc),
        weight: Weight::Before,
    };
    let mut made = Vec::new(alloc);
    let mut xs = ours;
    let mut ys = theirs;
    let mut mark = &first;
    while let Some(next) = earlier_of(bound_behind(xs, mark), bound_behind(ys, mark)) {
        let tomb = greater_of(tomb_in_force(xs, mark), tomb_in_force(ys, mark));
        extend_by(alloc, &mut made, mark, next, tomb)?;
        xs = pieces_from(xs, next);
        ys = pieces_from(ys, next);
        mark = next;
    }
    Ok(made)
}
