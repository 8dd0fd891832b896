//! A filler's calls, through their bound, over the chains of a shard: tests of `rc_filler`.
ghost use Rattle.std.specs.Prelude.{◌≡◌, ◌≢◌, ◌∷◌, [], IfOk, IfSome, List as Sequence, None, Some, pos};
ghost use Rattle.rc_cell.specs.Winner.{empty_row};
ghost use Rattle.rc_position.specs.Position.{IsBefore, row_pos};
ghost use Rattle.rc_position.specs.declared.comps.Comp.TheVariants.{Int};
ghost use Rattle.rc_schema.specs.SchemaValue.{SchemaValue};
ghost use Rattle.rc_mutation.specs.declared.mutations.Mutation.{Mutation};
ghost use Rattle.rc_mutation.specs.Source.{source_at_static};
ghost use Rattle.rc_core.specs.Version.{end_position};
ghost use Rattle.rc_memory.specs.Memory.{HasPin};
ghost use Rattle.rc_stream.specs.Snapshot.{SayThere, Throughout};
ghost use Rattle.rc_filler.specs.Stands.{StandsForWrites};
ghost use Rattle.rc_cache_tests.specs.Tested.{AreHeadless, only_row};

use crate::values::{bare, inserted, key_at, nothing};
use rc_cell::{Row, Tomb};
use rc_chain::{Chains, Snap};
use rc_core::Part;
use rc_filler::laws::a_taken_snapshot_stands_for_what_lies_below;
use rc_filler::{CacheFiller, open_with_room};
use rc_populate::laws::a_fill_changes_the_newest_version_alone;
use rc_position::{Key, Pos, Weight};
use rc_stream::{Fill, Filler};
use std::alloc::{AllocError, Global};
use std::test::Fail;

// Hands a gap to a filler.
fn hand_gap<H, F: Filler<H>>(
    filler: &mut F,
    home: &mut H,
    from: &Pos,
    to: &Pos,
    tomb: Option<Tomb>,
) -> Fill
    requires ready { F.ready filler.old home.old }
    requires order { IsBefore from.now to.now }
    requires from { F.fits filler.old from.now }
    requires to { F.fits filler.old to.now }
    requires source { (writes : Sequence Mutation) × F.stands filler.old home.old writes × Throughout from.now to.now (λ x. SayThere writes x (empty_row, tomb)) }
    ensures ready { F.ready filler.new home.new }
    ensures did { F.fills filler.old home.old filler.new home.new }
{
    filler.gap(home, from, to, tomb)
}

// Hands a static row to a filler.
fn hand_statics<H, F: Filler<H>>(filler: &mut F, home: &mut H, row: &Row) -> Fill
    requires ready { F.ready filler.old home.old }
    requires source { (writes : Sequence Mutation) × F.stands filler.old home.old writes × (source_at_static writes ≡ row.now) }
    ensures ready { F.ready filler.new home.new }
    ensures did { F.fills filler.old home.old filler.new home.new }
    ensures stands { (writes : Sequence Mutation) → F.stands filler.old home.old writes → source_at_static writes ≡ row.now → F.stands filler.new home.new writes }
{
    filler.statics(home, row)
}

// Hands a row to a filler.
fn hand_row<H, F: Filler<H>>(
    filler: &mut F,
    home: &mut H,
    key: &Key,
    row: &Row,
    tomb: Option<Tomb>,
) -> Fill
    requires ready { F.ready filler.old home.old }
    requires fits { F.fits filler.old (row_pos key.now) }
    requires source { (writes : Sequence Mutation) × F.stands filler.old home.old writes × SayThere writes (row_pos key.now) (row.now, tomb) }
    ensures ready { F.ready filler.new home.new }
    ensures did { F.fills filler.old home.old filler.new home.new }
{
    filler.row(home, key, row, tomb)
}

/// A snapshot of a new chain, of a partition at whose head nothing stands. None where there is no room.
pub fn opened(alloc: Global, chains: &mut Chains<16384>) -> Result<Option<Snap>, AllocError>
    ensures { IfOk result (λ o. IfSome o (λ s. (schema : SchemaValue) (writes : Sequence Mutation) → AreHeadless schema writes → StandsForWrites 16384 chains.new s.chain s.pin writes)) }
{
    a_taken_snapshot_stands_for_what_lies_below();
    a_fill_changes_the_newest_version_alone();
    let head = nothing(alloc);
    let Some(id) = open_with_room(chains, 7, &head)? else {
        return Ok(None);
    };
    let snap = chains.snapshot(id)?;
    Ok(Some(snap))
}

// Whether a static row and a gap over a whole partition in which nothing is written are taken in.
fn fill_nothing(alloc: Global, chains: &mut Chains<16384>, snap: &Snap) -> bool
    requires { StandsForWrites 16384 chains.old snap.now.chain snap.now.pin [] }
    ensures { HasPin chains.new snap.now.chain snap.now.pin }
{
    let row = Row::empty(alloc);
    let from = bare(alloc, Weight::Before);
    let to = bare(alloc, Weight::After);
    let mut filler = CacheFiller::of(snap);
    let statics = hand_statics(&mut filler, chains, &row);
    let gap = hand_gap(&mut filler, chains, &from, &to, None);
    statics == Fill::Filled && gap == Fill::Filled
}

// Whether a row that is all that is written is taken in.
fn fill_only(chains: &mut Chains<16384>, snap: &Snap, key: &Key, row: &Row) -> bool
    requires key { key.now ≡ Int (pos 7) ∷ [] }
    requires row { row.now.cells ≡ [] }
    requires stands { StandsForWrites 16384 chains.old snap.now.chain snap.now.pin (only_row key.now row.now ∷ []) }
    ensures { HasPin chains.new snap.now.chain snap.now.pin }
{
    let mut filler = CacheFiller::of(snap);
    hand_row(&mut filler, chains, key, row, None) == Fill::Filled
}

// The first part of a snapshot from a position on that is not behind the end.
fn first_from(
    alloc: Global,
    chains: &Chains<16384>,
    snap: &Snap,
    from: &Pos,
) -> Result<Part, AllocError>
    requires pin { HasPin chains.now snap.now.chain snap.now.pin }
    requires ahead { IsBefore from.now end_position }
{
    let to = bare(alloc, Weight::After);
    chains.first_part(snap, from, &to)
}

// Whether the first part of a snapshot is a gap.
fn is_gap(alloc: Global, chains: &Chains<16384>, snap: &Snap) -> Result<bool, AllocError>
    requires { HasPin chains.now snap.now.chain snap.now.pin }
{
    let from = bare(alloc, Weight::Before);
    let part = first_from(alloc, chains, snap, &from)?;
    Ok(matches!(part, Part::Gap { .. }))
}

// Whether a part is a row with this marker.
fn has_marker(part: &Part, marker: i64) -> bool {
    match part {
        Part::Row { row, .. } => row.marker == Some(marker),
        Part::Gap { .. } | Part::Missing { .. } | Part::End => false,
    }
}

// Whether the first part of a snapshot from the position of a key on is a row with this marker.
fn is_row(
    alloc: Global,
    chains: &Chains<16384>,
    snap: &Snap,
    key: &Key,
    marker: i64,
) -> Result<bool, AllocError>
    requires { HasPin chains.now snap.now.chain snap.now.pin }
{
    let from = Pos {
        prefix: key.copy(alloc)?,
        weight: Weight::At,
    };
    let part = first_from(alloc, chains, snap, &from)?;
    Ok(has_marker(&part, marker))
}

// Whether a static row and a gap over a whole partition are taken in, and read as that gap then. The snapshot is given back.
fn is_read_as_nothing(alloc: Global, chains: &mut Chains<16384>) -> Result<bool, AllocError> {
    let Some(snap) = opened(alloc, chains)? else {
        return Ok(false);
    };
    let filled = fill_nothing(alloc, chains, &snap);
    let read = is_gap(alloc, chains, &snap);
    chains.release(snap);
    Ok(read? && filled)
}

// Whether a row that is all that is written is taken in, and read with this marker then. The snapshot is given back.
fn is_read_as_row(
    alloc: Global,
    chains: &mut Chains<16384>,
    key: &Key,
    row: &Row,
    marker: i64,
) -> Result<bool, AllocError>
    requires key { key.now ≡ Int (pos 7) ∷ [] }
    requires row { row.now.cells ≡ [] }
{
    let Some(snap) = opened(alloc, chains)? else {
        return Ok(false);
    };
    let filled = fill_only(chains, &snap, key, row);
    let read = is_row(alloc, chains, &snap, key, marker);
    chains.release(snap);
    Ok(read? && filled)
}

// The same of a row with the marker 1 at the key 7.
fn is_read_as_inserted(alloc: Global, chains: &mut Chains<16384>) -> Result<bool, AllocError> {
    let key = key_at(alloc, 7)?;
    let row = inserted(alloc);
    is_read_as_row(alloc, chains, &key, &row, 1)
}

// Of a partition in which nothing is written all is known, once it was filled.
#[test]
fn a_filled_gap_is_read(rt: HostRuntime) -> Result<(), Fail> {
    let mut chains = Chains::<16384>::open(rt.alloc(), 4)?;
    assert!(rt; is_read_as_nothing(rt.alloc(), &mut chains)?);
    Ok(())
}

// A row that was filled is read.
#[test]
fn a_filled_row_is_read(rt: HostRuntime) -> Result<(), Fail> {
    let mut chains = Chains::<16384>::open(rt.alloc(), 4)?;
    assert!(rt; is_read_as_inserted(rt.alloc(), &mut chains)?);
    Ok(())
}
