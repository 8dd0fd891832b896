//! A static row and a gap that are filled, and a chain that is opened by a head: tests of `rc_populate`.
ghost use Rattle.std.specs.Prelude.{◌≡◌, ◌≤◌, ◌∷◌, [], IsSomeAnd, None};
ghost use Rattle.lsa_pool.specs.Room.{spare_of};
ghost use Rattle.rc_core.specs.declared.entries.Flag.TheVariants.{Unknown};
ghost use Rattle.rc_core.specs.Steps.{version_of};
ghost use Rattle.rc_memory.specs.Memory.{HasPin, chain_at};
ghost use Rattle.rc_position.specs.Position.{IsBefore};
ghost use Rattle.rc_rowcode.specs.Objects.{dummy_size};
ghost use Rattle.rc_rowcode.specs.Spelling.{KeyFits, RowFits};
ghost use Rattle.rc_version.specs.Versions.{statics_bytes};
ghost use Rattle.rc_populate.specs.Filling.{filled_statics};

use crate::values::bare;
use rc_cell::{Row, Tomb};
use rc_chain::{ChainKind, Chains, ReadHead, Snap};
use rc_core::Part;
use rc_mutation::Head;
use rc_populate::{fill_gap, fill_static, gap_need, open_entry, static_need};
use rc_position::{Pos, Weight};
use rc_rowcode::row_in_range;
use std::alloc::{AllocError, Global};
use std::test::Fail;

// A row with this marker, and nothing else.
fn marked(alloc: Global, marker: Option<i64>) -> Row
    ensures { result.cells ≡ [] }
{
    let mut row = Row::empty(alloc);
    row.marker = marker;
    row
}

// Whether a snapshot knows the head of its chain, with this partition tombstone and a static row with this marker.
fn shows(
    chains: &Chains<4096>,
    snap: &Snap,
    pt: Option<Tomb>,
    marker: Option<i64>,
) -> Result<bool, AllocError>
    requires { HasPin chains.now snap.now.chain snap.now.pin }
{
    let head = chains.head(snap)?;
    Ok(head.known && head.pt == pt && marker_of(&head) == marker)
}

// The marker of the static row at a head; none without a row.
fn marker_of(head: &ReadHead) -> Option<i64> {
    match &head.row {
        Some(row) => row.marker,
        None => None,
    }
}

// Fills a static row into a chain that knows nothing, where its snapshot may; whether it did.
fn fill(chains: &mut Chains<4096>, snap: &Snap, row: &Row) -> bool
    requires pin { HasPin chains.old snap.now.chain snap.now.pin }
    requires bare { IsSomeAnd (chain_at chains.old snap.now.chain) (λ k. k.chain.versions ≡ version_of Unknown None 7 ∷ []) }
    requires row { RowFits row.now }
    requires small { statics_bytes (filled_statics row.now) ≤ 512 }
    requires spare { 512 ≤ spare_of 4096 chains.old.region.usages }
    ensures { HasPin chains.new snap.now.chain snap.now.pin }
{
    chains.known();
    row_in_range(row);
    if !chains.may_fill(snap) {
        return false;
    }
    fill_static(chains, snap, row);
    true
}

// Whether a new chain, whose static row was filled, shows it. The snapshot is given back.
fn is_shown(chains: &mut Chains<4096>, row: &Row, marker: Option<i64>) -> Result<bool, AllocError>
    requires row { RowFits row.now }
    requires small { statics_bytes (filled_statics row.now) ≤ 512 }
    requires spare { 664 ≤ spare_of 4096 chains.old.region.usages }
{
    let id = chains.new_chain(ChainKind::Cache, 7, None)?;
    let snap = chains.snapshot(id)?;
    fill(chains, &snap, row);
    let seen = shows(chains, &snap, None, marker);
    chains.release(snap);
    seen
}

// The same of a row with this marker.
fn is_filled(alloc: Global, marker: Option<i64>) -> Result<bool, AllocError> {
    let mut chains = Chains::<4096>::open(alloc, 4)?;
    let row = marked(alloc, marker);
    if static_need(&row) > 512 {
        return Ok(false);
    }
    is_shown(&mut chains, &row, marker)
}

// A static row that is filled is known, also where nothing is written in it.
#[test]
fn filled_static_rows(rt: HostRuntime) -> Result<(), Fail> {
    assert!(rt; is_filled(rt.alloc(), None)?);
    assert!(rt; is_filled(rt.alloc(), Some(5))?);
    Ok(())
}

// Fills a gap of a chain, where its snapshot may; whether it did.
fn fill_between(
    chains: &mut Chains<4096>,
    snap: &Snap,
    from: &Pos,
    to: &Pos,
    tomb: Option<Tomb>,
) -> bool
    requires pin { HasPin chains.old snap.now.chain snap.now.pin }
    requires ascend { IsBefore from.now to.now }
    requires limits { KeyFits from.now.prefix × KeyFits to.now.prefix }
    requires small { (dummy_size from.now ≤ 512) × (dummy_size to.now ≤ 512) }
    requires spare { 1024 ≤ spare_of 4096 chains.old.region.usages }
    ensures { HasPin chains.new snap.now.chain snap.now.pin }
{
    chains.known();
    if !chains.may_fill(snap) {
        return false;
    }
    fill_gap(chains, snap, from, to, tomb);
    true
}

// Whether a part is a gap over which this range tombstone is in force.
fn is_gap(part: &Part, tomb: Option<Tomb>) -> bool {
    match part {
        Part::Gap { to: _, tomb: told } => *told == tomb,
        Part::Row { .. } | Part::Missing { .. } | Part::End => false,
    }
}

// Whether the first part of a snapshot from a position on is such a gap.
fn is_gap_first(
    chains: &Chains<4096>,
    snap: &Snap,
    from: &Pos,
    to: &Pos,
    tomb: Option<Tomb>,
) -> Result<bool, AllocError>
    requires pin { HasPin chains.now snap.now.chain snap.now.pin }
    requires ascend { IsBefore from.now to.now }
{
    let part = chains.first_part(snap, from, to)?;
    Ok(is_gap(&part, tomb))
}

// Whether a new chain, in which a whole partition was filled as one gap, says that. The snapshot is given back.
fn is_emptied(
    alloc: Global,
    chains: &mut Chains<4096>,
    tomb: Option<Tomb>,
) -> Result<bool, AllocError>
    requires { 1176 ≤ spare_of 4096 chains.old.region.usages }
{
    let id = chains.new_chain(ChainKind::Cache, 7, None)?;
    let snap = chains.snapshot(id)?;
    let from = bare(alloc, Weight::Before);
    let to = bare(alloc, Weight::After);
    fill_between(chains, &snap, &from, &to, tomb);
    let seen = is_gap_first(chains, &snap, &from, &to, tomb);
    chains.release(snap);
    seen
}

// The same in a new region.
fn is_gap_filled(alloc: Global, tomb: Option<Tomb>) -> Result<bool, AllocError> {
    let mut chains = Chains::<4096>::open(alloc, 4)?;
    is_emptied(alloc, &mut chains, tomb)
}

// Whether as much room is enough for a gap over a whole partition.
fn is_small(alloc: Global) -> bool {
    let from = bare(alloc, Weight::Before);
    let to = bare(alloc, Weight::After);
    gap_need(&from, &to) <= 1024
}

// A gap that is filled is known, with its tombstone.
#[test]
fn filled_gaps(rt: HostRuntime) -> Result<(), Fail> {
    assert!(rt; is_small(rt.alloc()));
    assert!(rt; is_gap_filled(rt.alloc(), None)?);
    assert!(rt; is_gap_filled(rt.alloc(), Some(Tomb { ts: 3, dt: 4 }))?);
    Ok(())
}

// Whether a chain that was opened by a head shows it. The snapshot is given back.
fn is_opened(
    chains: &mut Chains<4096>,
    head: &Head,
    marker: Option<i64>,
) -> Result<bool, AllocError>
    requires row { RowFits head.now.statics }
    requires small { statics_bytes (filled_statics head.now.statics) ≤ 512 }
    requires spare { 664 ≤ spare_of 4096 chains.old.region.usages }
{
    let id = open_entry(chains, 7, head)?;
    let snap = chains.snapshot(id)?;
    let seen = shows(chains, &snap, head.pt, marker);
    chains.release(snap);
    seen
}

// The same of a head with a static row of this marker.
fn is_opened_by(alloc: Global, marker: Option<i64>) -> Result<bool, AllocError> {
    let mut chains = Chains::<4096>::open(alloc, 4)?;
    let head = Head {
        pt: Some(Tomb { ts: 3, dt: 4 }),
        statics: marked(alloc, marker),
    };
    if static_need(&head.statics) > 512 {
        return Ok(false);
    }
    is_opened(&mut chains, &head, marker)
}

// A chain that is opened by a head shows it.
#[test]
fn opened_entries(rt: HostRuntime) -> Result<(), Fail> {
    assert!(rt; is_opened_by(rt.alloc(), None)?);
    assert!(rt; is_opened_by(rt.alloc(), Some(5))?);
    Ok(())
}
