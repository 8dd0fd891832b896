// The parts of a snapshot.
ghost use Rattle.std.specs.Prelude.{◌≡◌, ◌⊎◌, false, IfOk, OnErr, OnOk};
ghost use Rattle.std.specs.Result.{is_ok};
ghost use Rattle.rc_outside.specs.Files.{HoldsSameFiles};
ghost use Rattle.rc_position.specs.declared.positions.Pos.{Pos};
ghost use Rattle.rc_position.specs.Position.{IsBefore};
ghost use Rattle.rc_stream.specs.Causes.{Caused};
ghost use Rattle.rc_stream.specs.Did.{InTurn, ReachesEnd, has_answer, Call.OfNext};
ghost use Rattle.rc_stream.specs.Places.{Reaches};
ghost use Rattle.rc_stream.specs.Showing.{Blames};
ghost use Rattle.rc_stream.specs.Snapshot.{IsPartFrom, SameKnown, There, place_behind};
ghost use Rattle.rc_stream.specs.Stream.{Stream};
ghost use Rattle.rc_cacheread.specs.Did.{AnswersBelow, CallsSnapshotAlone, KnownStep, ReaderCall, ReaderFilled, reader_state};
ghost use Rattle.rc_cacheread.specs.calls.Did.{IsReaderStepUpto, ReaderStepSays};
ghost use Rattle.rc_cacheread.specs.Passing.{IsKnownOver};
ghost use Rattle.rc_cacheread.specs.calls.Passing.{PassesWhole};
ghost use Rattle.rc_cacheread.specs.Sharing.{IsPlaceAt, IsReady, Sees, StaysReader, of_below, of_filler, of_known};
ghost use Rattle.rc_cacheread.specs.Spots.{stand};
ghost use Rattle.rc_cacheread.specs.calls.Spots.{HasNothingDue};

use crate::below::read_below;
use crate::readers::{CacheReader, Stage};
use crate::spots::Step;
use rc_core::Part;
use rc_outside::Store;
use rc_position::Pos;
use rc_stream::{Filler, Frags, Known, StreamErr};
use std::alloc::{AllocError, Global};

// The snapshot goes on to a place, if it lags before it. The only error is want of memory.
fn catch_up<H, K: Known<H>>(
    alloc: Global,
    known: &mut K,
    lags: &mut bool,
    home: &mut H,
    place: &Pos,
) -> Result<(), AllocError>
    requires ready { K.ready known.old home.old }
    requires at { IsPlaceAt lags.old (K.place known.old) place.now }
    ensures ok { OnOk result (K.place known.new ≡ place.now) }
    ensures lags { OnOk result (lags.new ≡ false) }
    ensures err { OnErr result (IsPlaceAt lags.new (K.place known.new) place.now) }
    ensures knows { SameKnown (K.knows known.old home.old) (K.knows known.new home.new) }
    ensures did { InTurn (KnownStep K.did) (is_ok result) (known.old, home.old) (known.new, home.new) }
    ensures ready { K.ready known.new home.new }
{
    if !*lags {
        return Ok(());
    }
    match known.pass(alloc, home, place) {
        Ok(()) => {
            *lags = false;
            Ok(())
        }
        Err(error) => Err(error),
    }
}

// The first part of a snapshot from a place on, before which it may lag. The only error is want of memory.
fn next_part<H, K: Known<H>>(
    alloc: Global,
    known: &mut K,
    lags: &mut bool,
    home: &mut H,
    place: &Pos,
    to: &Pos,
) -> Result<Part, AllocError>
    requires ready { K.ready known.old home.old }
    requires at { IsPlaceAt lags.old (K.place known.old) place.now }
    requires order { IsBefore place.now to.now }
    ensures part { IfOk result (IsPartFrom (K.knows known.old home.old) place.now to.now) }
    ensures at { IsPlaceAt lags.new (K.place known.new) (place_behind result place.now) }
    ensures knows { SameKnown (K.knows known.old home.old) (K.knows known.new home.new) }
    ensures did { InTurn (KnownStep K.did) (is_ok result) (known.old, home.old) (known.new, home.new) }
    ensures ready { K.ready known.new home.new }
{
    match catch_up(alloc, known, lags, home, place) {
        Ok(()) => known.next_known(alloc, home, to),
        Err(error) => Err(error),
    }
}

// Reads the first part from the place on: what stands there is then due, or was passed over.
pub(crate) fn read_part<H, W: Store, K: Known<H>, F: Frags<H, W>, P: Filler<H>>(
    alloc: Global,
    reader: &mut CacheReader<K, F, P>,
    home: &mut H,
    store: &mut W,
    upto: &Pos,
) -> Result<Step, StreamErr>
    requires ready { IsReady (of_known K.ready K.place K.knows K.heads K.did) (of_below F.ready F.seen F.ahead F.moves F.did) (of_filler P.ready P.fits P.may P.lost P.stands P.knows P.knows_statics P.fills) reader.old home.old store.old }
    requires idle { HasNothingDue reader.old.spot }
    requires near { Reaches reader.old.spot.place upto.now }
    requires within { IsBefore reader.old.spot.place reader.old.to }
    ensures says { (s : Stream) → Sees (of_known K.ready K.place K.knows K.heads K.did) (of_below F.ready F.seen F.ahead F.moves F.did) (of_filler P.ready P.fits P.may P.lost P.stands P.knows P.knows_statics P.fills) reader.old home.old store.old s → ReaderStepSays result upto.now s (Sees (of_known K.ready K.place K.knows K.heads K.did) (of_below F.ready F.seen F.ahead F.moves F.did) (of_filler P.ready P.fits P.may P.lost P.stands P.knows P.knows_statics P.fills) reader.new home.new store.new) }
    ensures upto { IfOk result (IsReaderStepUpto upto.now) }
    ensures did { (y : Pos) → ReachesEnd (Sees (of_known K.ready K.place K.knows K.heads K.did) (of_below F.ready F.seen F.ahead F.moves F.did) (of_filler P.ready P.fits P.may P.lost P.stands P.knows P.knows_statics P.fills) reader.old home.old store.old) upto.now y → InTurn (ReaderCall (of_known K.ready K.place K.knows K.heads K.did) (of_below F.ready F.seen F.ahead F.moves F.did) (of_filler P.ready P.fits P.may P.lost P.stands P.knows P.knows_statics P.fills) (OfNext y)) (has_answer result) (reader_state reader.old home.old store.old) (reader_state reader.new home.new store.new) }
    ensures quiet { (v : There) → K.knows reader.old.known home.old reader.old.spot.place v → CallsSnapshotAlone (of_known K.ready K.place K.knows K.heads K.did) (has_answer result) (reader_state reader.old home.old store.old) (reader_state reader.new home.new store.new) }
    ensures keeps { (v : There) → K.knows reader.old.known home.old reader.old.spot.place v → SameKnown (K.knows reader.old.known home.old) (K.knows reader.new.known home.new) }
    ensures whole { (v : There) → K.knows reader.old.known home.old reader.old.spot.place v → PassesWhole (K.knows reader.old.known home.old) (stand reader.old.spot) (stand reader.new.spot) }
    ensures answered { OnOk result (AnswersBelow (of_below F.ready F.seen F.ahead F.moves F.did) reader.old.below store.old ⊎ ((v : There) × K.knows reader.old.known home.old reader.old.spot.place v)) }
    ensures passed { (v : There) → K.knows reader.old.known home.old reader.old.spot.place v → IsKnownOver (K.knows reader.new.known home.new) (stand reader.old.spot) (stand reader.new.spot) }
    ensures on { Reaches (stand reader.old.spot) (stand reader.new.spot) }
    ensures to { reader.new.to ≡ reader.old.to }
    ensures filled { ReaderFilled (of_known K.ready K.place K.knows K.heads K.did) (of_filler P.ready P.fits P.may P.lost P.stands P.knows P.knows_statics P.fills) reader.old.known reader.old.filler home.old reader.new.known reader.new.filler home.new (IsKnownOver (K.knows reader.new.known home.new) (stand reader.old.spot) (stand reader.new.spot)) }
    ensures stays { StaysReader (of_known K.ready K.place K.knows K.heads K.did) (of_below F.ready F.seen F.ahead F.moves F.did) (of_filler P.ready P.fits P.may P.lost P.stands P.knows P.knows_statics P.fills) reader.old home.old store.old reader.new home.new store.new }
    ensures ready { IsReady (of_known K.ready K.place K.knows K.heads K.did) (of_below F.ready F.seen F.ahead F.moves F.did) (of_filler P.ready P.fits P.may P.lost P.stands P.knows P.knows_statics P.fills) reader.new home.new store.new }
    ensures damage { Blames (F.damage reader.old.below) (F.damage reader.new.below) result }
    ensures cause { Caused result (W.files store.old) (W.faults store.old) (W.faults store.new) }
    ensures store { HoldsSameFiles W.files W.building store.old store.new }
{
    match next_part(
        alloc,
        &mut reader.known,
        &mut reader.lags,
        home,
        &reader.spot.place,
        &reader.to,
    ) {
        Ok(Part::Row { key, row, tomb }) => {
            reader.stage = Stage::Away;
            reader.spot.read_row(row, tomb);
            Ok(Step::Passed)
        }
        Ok(Part::Gap { to, tomb }) => {
            reader.stage = Stage::Away;
            reader.spot.go_over(to, tomb);
            Ok(Step::Passed)
        }
        Ok(Part::Missing { to }) => read_below(alloc, reader, home, store, to, upto),
        Ok(Part::End) => Ok(Step::Nothing),
        Err(_) => Err(StreamErr::NoMemory),
    }
}
