// Fills of a stretch that was read below.
ghost use Rattle.std.specs.Prelude.{◌≡◌, List, ⊤};
ghost use Rattle.rc_cell.specs.Winner.{empty_row};
ghost use Rattle.rc_mutation.specs.declared.mutations.Mutation.{Mutation};
ghost use Rattle.rc_position.specs.declared.positions.Pos.{Pos};
ghost use Rattle.rc_position.specs.Position.{row_pos};
ghost use Rattle.rc_stream.specs.Places.{Reaches};
ghost use Rattle.rc_stream.specs.Snapshot.{SayThere, Throughout};
ghost use Rattle.rc_cacheread.specs.calls.Below.{Fillings, SaysUpto, StaysLost, TakenIn, TellsHere, TookChange, TookHere, TookNothing, TookRow, TookRowHere};
ghost use Rattle.rc_cacheread.specs.Passing.{IsKnownOver};
ghost use Rattle.rc_cacheread.specs.Spots.{stand};

use crate::spots::{Found, RowAt, Spot};
use rc_cell::{Row, Tomb};
use rc_position::{Key, Pos, Weight};
use rc_stream::Filler;
use std::alloc::Global;

// Takes in that nothing stands from one position on and before another, if that is before it.
pub(crate) fn fill_gap<H, P: Filler<H>>(
    filler: &mut P,
    home: &mut H,
    from: &Pos,
    to: &Pos,
    tomb: Option<Tomb>,
)
    requires ready { P.ready filler.old home.old }
    requires fits { (p : P) (x : Pos) → P.fits p x }
    requires source { (writes : List Mutation) × P.stands filler.old home.old writes × Throughout from.now to.now (λ x. SayThere writes x (empty_row, tomb)) }
    ensures did { Fillings P.fills filler.old home.old filler.new home.new }
    ensures taken { TakenIn P.may P.lost P.knows filler.old home.old filler.new home.new (Throughout from.now to.now (λ x. P.knows filler.new home.new x (empty_row, tomb))) }
    ensures stands { (writes : List Mutation) → P.stands filler.old home.old writes → Throughout from.now to.now (λ x. SayThere writes x (empty_row, tomb)) → P.stands filler.new home.new writes }
    ensures ready { P.ready filler.new home.new }
{
    if from.cmp(to).is_lt() {
        filler.gap(home, from, to, tomb);
    }
}

// Takes a row that was read below, behind a stretch where none stands. One that is empty says nothing.
pub(crate) fn take_row<H, P: Filler<H>>(
    filler: &mut P,
    spot: &mut Spot,
    home: &mut H,
    key: Key,
    row: Row,
)
    requires ready { P.ready filler.old home.old }
    requires lost { StaysLost P.fills P.lost filler.old home.old }
    requires unread { spot.old.row ≡ RowAt.Unread }
    requires fits { (p : P) (x : Pos) → P.fits p x }
    requires source { (writes : List Mutation) × P.stands filler.old home.old writes × Throughout spot.old.place (row_pos key) (λ x. SayThere writes x (empty_row, spot.old.tomb)) × (Reaches spot.old.place (row_pos key) → SayThere writes (row_pos key) (row, spot.old.tomb)) }
    ensures took { TookRow key row spot.old spot.new }
    ensures did { Fillings P.fills filler.old home.old filler.new home.new }
    ensures taken { TakenIn P.may P.lost P.knows filler.old home.old filler.new home.new (IsKnownOver (P.knows filler.new home.new) spot.old.place (stand spot.new)) }
    ensures stands { (writes : List Mutation) → P.stands filler.old home.old writes → Throughout spot.old.place (row_pos key) (λ x. SayThere writes x (empty_row, spot.old.tomb)) → (Reaches spot.old.place (row_pos key) → SayThere writes (row_pos key) (row, spot.old.tomb)) → P.stands filler.new home.new writes }
    ensures ready { P.ready filler.new home.new }
{
    if key.compare_with_pos(&spot.place).is_lt() {
        return;
    }
    let at = Pos {
        prefix: key,
        weight: Weight::At,
    };
    fill_gap(filler, home, &spot.place, &at, spot.tomb);
    if row.is_empty() {
        spot.place = at;
        return;
    }
    filler.row(home, &at.prefix, &row, spot.tomb);
    spot.place = at;
    spot.row = RowAt::Due(row);
}

// Takes a change that was read below, behind a stretch where no row stands.
pub(crate) fn take_change<H, P: Filler<H>>(
    filler: &mut P,
    spot: &mut Spot,
    home: &mut H,
    from: Pos,
    tomb: Option<Tomb>,
)
    requires ready { P.ready filler.old home.old }
    requires unread { spot.old.row ≡ RowAt.Unread }
    requires fits { (p : P) (x : Pos) → P.fits p x }
    requires source { (writes : List Mutation) × P.stands filler.old home.old writes × Throughout spot.old.place from (λ x. SayThere writes x (empty_row, spot.old.tomb)) }
    ensures took { TookChange from tomb spot.old spot.new }
    ensures did { Fillings P.fills filler.old home.old filler.new home.new }
    ensures taken { TakenIn P.may P.lost P.knows filler.old home.old filler.new home.new (IsKnownOver (P.knows filler.new home.new) spot.old.place (stand spot.new)) }
    ensures stands { (writes : List Mutation) → P.stands filler.old home.old writes → Throughout spot.old.place from (λ x. SayThere writes x (empty_row, spot.old.tomb)) → P.stands filler.new home.new writes }
    ensures ready { P.ready filler.new home.new }
{
    if from < spot.place {
        return;
    }
    fill_gap(filler, home, &spot.place, &from, spot.tomb);
    spot.place = from;
    spot.tomb = tomb;
    spot.since = None;
}

// Takes in that nothing stands before the end of the stretch.
pub(crate) fn take_end<H, P: Filler<H>>(filler: &mut P, spot: &mut Spot, home: &mut H, end: Pos)
    requires ready { P.ready filler.old home.old }
    requires unread { spot.old.row ≡ RowAt.Unread }
    requires fits { (p : P) (x : Pos) → P.fits p x }
    requires source { (writes : List Mutation) × P.stands filler.old home.old writes × Throughout spot.old.place end (λ x. SayThere writes x (empty_row, spot.old.tomb)) }
    ensures took { TookNothing end spot.old spot.new }
    ensures did { Fillings P.fills filler.old home.old filler.new home.new }
    ensures taken { TakenIn P.may P.lost P.knows filler.old home.old filler.new home.new (IsKnownOver (P.knows filler.new home.new) spot.old.place (stand spot.new)) }
    ensures stands { (writes : List Mutation) → P.stands filler.old home.old writes → Throughout spot.old.place end (λ x. SayThere writes x (empty_row, spot.old.tomb)) → P.stands filler.new home.new writes }
    ensures ready { P.ready filler.new home.new }
{
    fill_gap(filler, home, &spot.place, &end, spot.tomb);
    spot.place = end;
}

// Takes in that nothing stands up to a position, nor at it if it is that of a row.
pub(crate) fn take_upto<H, P: Filler<H>>(
    alloc: Global,
    filler: &mut P,
    spot: &mut Spot,
    home: &mut H,
    upto: Pos,
)
    requires ready { P.ready filler.old home.old }
    requires lost { StaysLost P.fills P.lost filler.old home.old }
    requires unread { spot.old.row ≡ RowAt.Unread }
    requires fits { (p : P) (x : Pos) → P.fits p x }
    requires source { (writes : List Mutation) × P.stands filler.old home.old writes × SaysUpto (SayThere writes) spot.old.place upto spot.old.tomb }
    requires on { Reaches spot.old.place upto }
    ensures took { TookNothing upto spot.old spot.new }
    ensures did { Fillings P.fills filler.old home.old filler.new home.new }
    ensures taken { TakenIn P.may P.lost P.knows filler.old home.old filler.new home.new (IsKnownOver (P.knows filler.new home.new) spot.old.place (stand spot.new)) }
    ensures stands { (writes : List Mutation) → P.stands filler.old home.old writes → SaysUpto (SayThere writes) spot.old.place upto spot.old.tomb → P.stands filler.new home.new writes }
    ensures ready { P.ready filler.new home.new }
{
    fill_gap(filler, home, &spot.place, &upto, spot.tomb);
    fill_none(alloc, filler, home, &upto, spot.tomb);
    spot.place = upto;
}

// Takes in that no row stands at a position, if it is that of a row.
fn fill_none<H, P: Filler<H>>(
    alloc: Global,
    filler: &mut P,
    home: &mut H,
    at: &Pos,
    tomb: Option<Tomb>,
)
    requires ready { P.ready filler.old home.old }
    requires fits { (p : P) (x : Pos) → P.fits p x }
    requires source { (writes : List Mutation) × P.stands filler.old home.old writes × SayThere writes at.now (empty_row, tomb) }
    ensures did { Fillings P.fills filler.old home.old filler.new home.new }
    ensures taken { TakenIn P.may P.lost P.knows filler.old home.old filler.new home.new ⊤ }
    ensures stands { (writes : List Mutation) → P.stands filler.old home.old writes → SayThere writes at.now (empty_row, tomb) → P.stands filler.new home.new writes }
    ensures ready { P.ready filler.new home.new }
{
    match at.weight {
        Weight::At => {
            let row = Row::empty(alloc);
            filler.row(home, &at.prefix, &row, tomb);
        }
        Weight::Before | Weight::After => {}
    }
}

// Takes what was read below at the place itself, where no tombstone is in force unless a change says so: a row, if one stands there.
pub(crate) fn take_here<H, P: Filler<H>>(
    filler: &mut P,
    spot: &mut Spot,
    home: &mut H,
    found: Found,
)
    requires ready { P.ready filler.old home.old }
    requires unread { spot.old.row ≡ RowAt.Unread }
    requires fits { (p : P) (x : Pos) → P.fits p x }
    requires source { (writes : List Mutation) × P.stands filler.old home.old writes × TellsHere (SayThere writes) spot.old.place found }
    ensures took { TookHere found spot.old spot.new }
    ensures did { Fillings P.fills filler.old home.old filler.new home.new }
    ensures taken { TakenIn P.may P.lost P.knows filler.old home.old filler.new home.new (IsKnownOver (P.knows filler.new home.new) spot.old.place (stand spot.new)) }
    ensures stands { (writes : List Mutation) → P.stands filler.old home.old writes → TellsHere (SayThere writes) spot.old.place found → P.stands filler.new home.new writes }
    ensures ready { P.ready filler.new home.new }
{
    match found {
        Found::Row(key, row) => take_row_here(filler, spot, home, key, row),
        Found::Change(_, tomb) => spot.change_to(tomb),
        Found::Nothing => spot.change_to(None),
    }
}

// Takes a row that was read below, if it stands at the place itself, where no tombstone is in force. One that is empty says nothing.
fn take_row_here<H, P: Filler<H>>(filler: &mut P, spot: &mut Spot, home: &mut H, key: Key, row: Row)
    requires ready { P.ready filler.old home.old }
    requires unread { spot.old.row ≡ RowAt.Unread }
    requires fits { (p : P) (x : Pos) → P.fits p x }
    requires source { (writes : List Mutation) × P.stands filler.old home.old writes × (row_pos key ≡ spot.old.place → SayThere writes spot.old.place (row, None)) }
    ensures took { TookRowHere key row spot.old spot.new }
    ensures did { Fillings P.fills filler.old home.old filler.new home.new }
    ensures taken { TakenIn P.may P.lost P.knows filler.old home.old filler.new home.new (IsKnownOver (P.knows filler.new home.new) spot.old.place (stand spot.new)) }
    ensures stands { (writes : List Mutation) → P.stands filler.old home.old writes → (row_pos key ≡ spot.old.place → SayThere writes spot.old.place (row, None)) → P.stands filler.new home.new writes }
    ensures ready { P.ready filler.new home.new }
{
    spot.change_to(None);
    if row.is_empty() || !key.compare_with_pos(&spot.place).is_eq() {
        return;
    }
    filler.row(home, &key, &row, None);
    spot.row = RowAt::Due(row);
}
