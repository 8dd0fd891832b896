//! What is handed in, taken into the snapshot of a cache chain.
ghost use Rattle.std.specs.Prelude.{◌≢◌, ◌*◌, ◌/◌, ◌≤◌, ℕ, List as Sequence};
ghost use Rattle.rc_cell.specs.Winner.{empty_row};
ghost use Rattle.rc_position.specs.Position.{IsBefore};
ghost use Rattle.rc_rowcode.specs.Spelling.{KeyFits};
ghost use Rattle.rc_mutation.specs.declared.mutations.Mutation.{Mutation};
ghost use Rattle.rc_populate.specs.Filling.{MayFill};
ghost use Rattle.rc_filler.specs.Stands.{HasCacheSnapshot, StandsForWrites};
ghost use Rattle.rc_filler.specs.Fills.{OfGap, OfRow, OfStatics, SayPortion};
ghost use Rattle.rc_filler.specs.calls.Coming.{CameOf};

use crate::laws::room_leaves_a_snapshot;
use crate::limits::is_within_limits;
use crate::rooms::{may_be_filled, room_or_skip, skip};
use rc_cell::{Row, Tomb};
use rc_chain::{Chains, Snap};
use rc_populate::laws::what_the_source_says_may_be_filled;
use rc_populate::{fill_gap, fill_row, fill_static, gap_need, row_need, static_need};
use rc_position::{Key, Pos};
use rc_stream::Fill;

// Fills a gap, once there is room for its dummies.
fn fill_gap_in_room<const S: usize>(
    chains: &mut Chains<S>,
    s: &Snap,
    from: &Pos,
    to: &Pos,
    tomb: Option<Tomb>,
) -> Fill
    requires snapshot { HasCacheSnapshot chains.old s.now.chain s.now.pin }
    requires may { MayFill chains.old s.now.chain s.now.pin }
    requires roomy { 8952 ≤ 7 * S / 8 }
    requires order { IsBefore from.now to.now }
    requires from { KeyFits from.now.prefix }
    requires to { KeyFits to.now.prefix }
    ensures { CameOf S result (OfGap from.now to.now tomb) s.now.chain s.now.pin chains.old chains.new }
{
    room_leaves_a_snapshot();
    let need = gap_need(from, to);
    if !room_or_skip(chains, need) {
        return Fill::Skipped;
    }
    chains.known();
    fill_gap(chains, s, from, to, tomb);
    Fill::Filled
}

/// Takes in a gap. It is skipped where there is no room, and where a key of its ends is beyond the limits, since no dummy can stand there.
pub(crate) fn take_gap<const S: usize>(
    chains: &mut Chains<S>,
    s: &Snap,
    from: &Pos,
    to: &Pos,
    tomb: Option<Tomb>,
) -> Fill
    requires snapshot { HasCacheSnapshot chains.old s.now.chain s.now.pin }
    requires roomy { 8952 ≤ 7 * S / 8 }
    requires order { IsBefore from.now to.now }
    ensures { CameOf S result (OfGap from.now to.now tomb) s.now.chain s.now.pin chains.old chains.new }
{
    if !may_be_filled(chains, s) {
        return Fill::NotNewest;
    }
    if !is_within_limits(&from.prefix) {
        return skip(chains);
    }
    if !is_within_limits(&to.prefix) {
        return skip(chains);
    }
    fill_gap_in_room(chains, s, from, to, tomb)
}

// Fills a row, once there is room for its entry.
fn fill_row_in_room<const S: usize>(
    chains: &mut Chains<S>,
    s: &Snap,
    key: &Key,
    row: &Row,
    tomb: Option<Tomb>,
) -> Fill
    requires may { MayFill chains.old s.now.chain s.now.pin }
    requires roomy { 8952 ≤ 7 * S / 8 }
    requires written { row.now ≢ empty_row }
    requires source { (writes : Sequence Mutation) × StandsForWrites S chains.old s.now.chain s.now.pin writes × SayPortion writes (OfRow key.now row.now tomb) }
    ensures { CameOf S result (OfRow key.now row.now tomb) s.now.chain s.now.pin chains.old chains.new }
{
    room_leaves_a_snapshot();
    what_the_source_says_may_be_filled();
    chains.known();
    let need = row_need(key, row);
    if !room_or_skip(chains, need) {
        return Fill::Skipped;
    }
    chains.known();
    fill_row(chains, s, key, row, tomb);
    Fill::Filled
}

/// Takes in a row. It is skipped where there is no room, and where nothing is written in it, since no entry has such a row.
pub(crate) fn take_row<const S: usize>(
    chains: &mut Chains<S>,
    s: &Snap,
    key: &Key,
    row: &Row,
    tomb: Option<Tomb>,
) -> Fill
    requires roomy { 8952 ≤ 7 * S / 8 }
    requires source { (writes : Sequence Mutation) × StandsForWrites S chains.old s.now.chain s.now.pin writes × SayPortion writes (OfRow key.now row.now tomb) }
    ensures { CameOf S result (OfRow key.now row.now tomb) s.now.chain s.now.pin chains.old chains.new }
{
    if !may_be_filled(chains, s) {
        return Fill::NotNewest;
    }
    if row.is_empty() {
        return skip(chains);
    }
    fill_row_in_room(chains, s, key, row, tomb)
}

// Fills a static row, once there is room for its object.
fn fill_static_in_room<const S: usize>(chains: &mut Chains<S>, s: &Snap, row: &Row) -> Fill
    requires may { MayFill chains.old s.now.chain s.now.pin }
    requires roomy { 8952 ≤ 7 * S / 8 }
    requires source { (writes : Sequence Mutation) × StandsForWrites S chains.old s.now.chain s.now.pin writes × SayPortion writes (OfStatics row.now) }
    ensures { CameOf S result (OfStatics row.now) s.now.chain s.now.pin chains.old chains.new }
{
    room_leaves_a_snapshot();
    what_the_source_says_may_be_filled();
    chains.known();
    let need = static_need(row);
    if !room_or_skip(chains, need) {
        return Fill::Skipped;
    }
    chains.known();
    fill_static(chains, s, row);
    Fill::Filled
}

/// Takes in a static row. It is skipped where there is no room.
pub(crate) fn take_statics<const S: usize>(chains: &mut Chains<S>, s: &Snap, row: &Row) -> Fill
    requires roomy { 8952 ≤ 7 * S / 8 }
    requires source { (writes : Sequence Mutation) × StandsForWrites S chains.old s.now.chain s.now.pin writes × SayPortion writes (OfStatics row.now) }
    ensures { CameOf S result (OfStatics row.now) s.now.chain s.now.pin chains.old chains.new }
{
    if !may_be_filled(chains, s) {
        return Fill::NotNewest;
    }
    fill_static_in_room(chains, s, row)
}
