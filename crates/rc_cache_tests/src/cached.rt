//! A row that is missed, handed in, and known: tests of `rc_cached`.
ghost use Rattle.std.specs.Prelude.{◌≡◌, ◌∷◌, [], IfOk, IfSome, IsTrue, None};
ghost use Rattle.rc_cell.specs.Winner.{empty_row};
ghost use Rattle.rc_memtable.specs.Writes.{AreSmall};
ghost use Rattle.rc_writes.specs.Allowed.{ChangeFits};
ghost use Rattle.rc_schema.specs.SchemaValue.{is_schema};
ghost use Rattle.rc_stream.specs.Did.{Call.OfNext, has_answer};
ghost use Rattle.rc_filler.specs.Stands.{StandsForWrites};
ghost use Rattle.rc_cached.specs.Streams.{SayBelow};

use crate::filler::opened;
use crate::values::{bare, change_at};
use rc_cached::laws::{
    a_cached_stream_leaves_what_others_see, a_cached_stream_says_what_lies_below,
    what_is_below_still_says,
};
use rc_cached::{Readings, cached_stream};
use rc_chain::{Chains, Snap};
use rc_filler::laws::a_snapshot_knows_the_writes_it_stands_for;
use rc_mutation::{Frag, Mutation};
use rc_outside::Store;
use rc_position::{Pos, Weight};
use rc_schema::{Schema, read_schemas_are_within_limits};
use rc_stream::{Frags, ListFrags, StreamErr};
use rc_writes::change_fits;
use std::alloc::{AllocError, Global};
use std::test::Fail;

// How a call for the first row came out.
#[derive(Clone, Copy, PartialEq, Eq)]
enum Outcome {
    // It was refused, and missed what was not read.
    Missed,
    // The row was given, and nothing was missed.
    Given,
    // Neither.
    Other,
}

// What was read of a partition of which this is written.
fn readings_of(alloc: Global, change: &Mutation) -> Result<Readings, AllocError>
    ensures { IfOk result (SayBelow (change.now ∷ [])) }
{
    change.holds_together();
    Ok(Readings::of(ListFrags::new(change.fragments(alloc)?)))
}

// The schema of a text, which is within the limits.
fn schema_of(alloc: Global, text: &[u8]) -> Option<Schema>
    ensures { IfSome result (λ schema. IsTrue (is_schema schema)) }
{
    read_schemas_are_within_limits();
    match Schema::read(alloc, text) {
        Ok(schema) => Some(schema),
        Err(_) => None,
    }
}

// Whether what is written fits a schema of which no object is larger than an eighth of a segment.
fn fits(change: &Mutation, schema: &Schema) -> bool
    ensures change { IsTrue result → ChangeFits schema.now change.now }
    ensures small { IsTrue result → AreSmall 16384 schema.now }
{
    if schema.largest_entry() > 2048 || schema.largest_static() > 2048 {
        return false;
    }
    change_fits(change, schema)
}

// A snapshot of a new chain of a partition, at whose head nothing stands. None where what is written does not fit this schema, or there is no room.
fn opened_under(
    alloc: Global,
    chains: &mut Chains<16384>,
    change: &Mutation,
    schema: &Schema,
) -> Result<Option<Snap>, AllocError>
    requires schema { IsTrue (is_schema schema.now) }
    requires pt { change.now.pt ≡ None }
    requires statics { change.now.statics ≡ empty_row }
    ensures { IfOk result (λ o. IfSome o (λ s. StandsForWrites 16384 chains.new s.chain s.pin (change.now ∷ []))) }
{
    if !fits(change, schema) {
        return Ok(None);
    }
    opened(alloc, chains)
}

// The same under a schema of one number and one column.
fn opened_for(
    alloc: Global,
    chains: &mut Chains<16384>,
    change: &Mutation,
) -> Result<Option<Snap>, AllocError>
    requires pt { change.now.pt ≡ None }
    requires statics { change.now.statics ≡ empty_row }
    ensures { IfOk result (λ o. IfSome o (λ s. StandsForWrites 16384 chains.new s.chain s.pin (change.now ∷ []))) }
{
    match schema_of(alloc, b"ck=int static=- cols=a") {
        Some(schema) => opened_under(alloc, chains, change, &schema),
        None => Ok(None),
    }
}

// Asks a stream for its next.
fn ask<H, W: Store, F: Frags<H, W>>(
    alloc: Global,
    stream: &mut F,
    home: &mut H,
    store: &mut W,
    upto: &Pos,
) -> Result<Option<Frag>, StreamErr>
    requires { F.ready stream.old home.old store.old }
    ensures { F.did stream.old home.old store.old (OfNext upto.now) (has_answer result) stream.new home.new store.new }
{
    stream.next(alloc, home, store, upto)
}

// How a call came out.
fn came_out(got: &Result<Option<Frag>, StreamErr>, missed: bool) -> Outcome {
    match got {
        Ok(Some(Frag::Row(_, row))) => {
            if !missed && row.marker == Some(1) {
                Outcome::Given
            } else {
                Outcome::Other
            }
        }
        Err(StreamErr::NoMemory) => {
            if missed {
                Outcome::Missed
            } else {
                Outcome::Other
            }
        }
        _ => Outcome::Other,
    }
}

// How the first row of a partition is read through a snapshot that stands for what is written, over readings that say it. The snapshot is given back, and stands for that still.
fn first_row(
    alloc: Global,
    chains: &mut Chains<16384>,
    snap: Snap,
    readings: &mut Readings,
    change: &Mutation,
) -> (Snap, Outcome)
    requires stands { StandsForWrites 16384 chains.old snap.chain snap.pin (change.now ∷ []) }
    requires say { SayBelow (change.now ∷ []) readings.old }
    ensures { StandsForWrites 16384 chains.new result.0.chain result.0.pin (change.now ∷ []) }
{
    a_cached_stream_says_what_lies_below::<16384>();
    what_is_below_still_says::<16384>();
    a_cached_stream_leaves_what_others_see::<16384>();
    let _change = &change.pt;
    let upto = bare(alloc, Weight::After);
    let mut stream = cached_stream(alloc, snap);
    let got = ask(alloc, &mut stream, chains, readings, &upto);
    let (known, _below, _filler) = stream.finish();
    (known.into_snap(), came_out(&got, readings.missed()))
}

// The same over nothing read.
fn first_known(
    alloc: Global,
    chains: &mut Chains<16384>,
    snap: Snap,
    change: &Mutation,
) -> (Snap, Outcome)
    requires { StandsForWrites 16384 chains.old snap.chain snap.pin (change.now ∷ []) }
    ensures { StandsForWrites 16384 chains.new result.0.chain result.0.pin (change.now ∷ []) }
{
    let mut readings = Readings::none();
    first_row(alloc, chains, snap, &mut readings, change)
}

// The same over what was read.
fn first_read(
    alloc: Global,
    chains: &mut Chains<16384>,
    snap: Snap,
    change: &Mutation,
) -> (Snap, Outcome)
    requires { StandsForWrites 16384 chains.old snap.chain snap.pin (change.now ∷ []) }
    ensures { StandsForWrites 16384 chains.new result.0.chain result.0.pin (change.now ∷ []) }
{
    match readings_of(alloc, change) {
        Ok(mut readings) => first_row(alloc, chains, snap, &mut readings, change),
        Err(_) => (snap, Outcome::Other),
    }
}

// The snapshot is given back to its chain.
fn give_back(chains: &mut Chains<16384>, snap: Snap, change: &Mutation)
    requires { StandsForWrites 16384 chains.old snap.chain snap.pin (change.now ∷ []) }
{
    a_snapshot_knows_the_writes_it_stands_for();
    let _change = &change.pt;
    chains.release(snap);
}

// Whether a row is missed, then given where it was handed in, and then without that.
fn is_known_once_handed_in(
    alloc: Global,
    chains: &mut Chains<16384>,
    change: &Mutation,
) -> Result<bool, AllocError>
    requires pt { change.now.pt ≡ None }
    requires statics { change.now.statics ≡ empty_row }
{
    let Some(snap) = opened_for(alloc, chains, change)? else {
        return Ok(false);
    };
    let (snap, first) = first_known(alloc, chains, snap, change);
    let (snap, second) = first_read(alloc, chains, snap, change);
    let (snap, third) = first_known(alloc, chains, snap, change);
    give_back(chains, snap, change);
    Ok(first == Outcome::Missed && second == Outcome::Given && third == Outcome::Given)
}

// The same of a row at the key 7.
fn is_inserted_known(alloc: Global, chains: &mut Chains<16384>) -> Result<bool, AllocError> {
    let change = change_at(alloc, 7)?;
    is_known_once_handed_in(alloc, chains, &change)
}

// What was not read is missed; once it was handed in it is given, and it is known to the next stream.
#[test]
fn what_was_handed_in_is_known_then(rt: HostRuntime) -> Result<(), Fail> {
    let mut chains = Chains::<16384>::open(rt.alloc(), 4)?;
    assert!(rt; is_inserted_known(rt.alloc(), &mut chains)?);
    Ok(())
}
