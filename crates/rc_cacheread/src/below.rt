// A stretch that is not known is read below.
ghost use Rattle.std.specs.Prelude.{◌≡◌, ◌⊎◌, List, ⊤, IfOk, OnOk, true};
ghost use Rattle.rc_outside.specs.Files.{HoldsSameFiles};
ghost use Rattle.rc_mutation.specs.declared.mutations.Mutation.{Mutation};
ghost use Rattle.rc_position.specs.declared.positions.Pos.{Pos};
ghost use Rattle.rc_position.specs.Position.{IsBefore};
ghost use Rattle.rc_stream.specs.Causes.{Caused};
ghost use Rattle.rc_stream.specs.Did.{InTurn, ReachesEnd, has_answer, Call.OfNext};
ghost use Rattle.rc_stream.specs.Places.{Reaches};
ghost use Rattle.rc_stream.specs.Showing.{Blames};
ghost use Rattle.rc_stream.specs.Snapshot.{SameKnown, SayThere, There};
ghost use Rattle.rc_stream.specs.Stream.{Stream};
ghost use Rattle.rc_cacheread.specs.declared.spots.RowAt.TheVariants.{Unread};
ghost use Rattle.rc_cacheread.specs.calls.Below.{Fillings, IsNotAway, StaysLost, TakenIn, Tells, TookFound, found_of, near_of, sought_stage};
ghost use Rattle.rc_cacheread.specs.Did.{AnswersBelow, ReaderCall, ReaderFilled, reader_state};
ghost use Rattle.rc_cacheread.specs.calls.Did.{IsReaderStepUpto, ReaderStepSays};
ghost use Rattle.rc_cacheread.specs.Passing.{IsKnownOver};
ghost use Rattle.rc_cacheread.specs.Sharing.{IsReady, Sees, StaysReader, of_below, of_filler, of_known};
ghost use Rattle.rc_cacheread.specs.Spots.{stand};
ghost use Rattle.rc_cacheread.specs.calls.Spots.{HasNothingDue};

use crate::filling::{take_change, take_end, take_here, take_row, take_upto};
use crate::readers::{CacheReader, Stage};
use crate::spots::{Found, Spot, Step};
use rc_cell::Tomb;
use rc_mutation::Frag;
use rc_outside::Store;
use rc_position::{Pos, Weight};
use rc_stream::{Filler, Frags, Known, StreamErr};
use std::alloc::{AllocError, Global};

// Reads on below from the place on, in a stretch that ends at `end`: what is read is due, or was passed over.
pub(crate) fn read_below<H, W: Store, K: Known<H>, F: Frags<H, W>, P: Filler<H>>(
    alloc: Global,
    reader: &mut CacheReader<K, F, P>,
    home: &mut H,
    store: &mut W,
    end: Pos,
    upto: &Pos,
) -> Result<Step, StreamErr>
    requires ready { IsReady (of_known K.ready K.place K.knows K.heads K.did) (of_below F.ready F.seen F.ahead F.moves F.did) (of_filler P.ready P.fits P.may P.lost P.stands P.knows P.knows_statics P.fills) reader.old home.old store.old }
    requires idle { HasNothingDue reader.old.spot }
    requires near { Reaches reader.old.spot.place upto.now }
    requires within { IsBefore reader.old.spot.place reader.old.to }
    requires missing { (v : There) → K.knows reader.old.known home.old reader.old.spot.place v → ⊥ }
    requires end { IsBefore reader.old.spot.place end }
    requires inside { Reaches end reader.old.to }
    ensures says { (s : Stream) → Sees (of_known K.ready K.place K.knows K.heads K.did) (of_below F.ready F.seen F.ahead F.moves F.did) (of_filler P.ready P.fits P.may P.lost P.stands P.knows P.knows_statics P.fills) reader.old home.old store.old s → ReaderStepSays result upto.now s (Sees (of_known K.ready K.place K.knows K.heads K.did) (of_below F.ready F.seen F.ahead F.moves F.did) (of_filler P.ready P.fits P.may P.lost P.stands P.knows P.knows_statics P.fills) reader.new home.new store.new) }
    ensures upto { IfOk result (IsReaderStepUpto upto.now) }
    ensures did { (y : Pos) → ReachesEnd (Sees (of_known K.ready K.place K.knows K.heads K.did) (of_below F.ready F.seen F.ahead F.moves F.did) (of_filler P.ready P.fits P.may P.lost P.stands P.knows P.knows_statics P.fills) reader.old home.old store.old) upto.now y → InTurn (ReaderCall (of_known K.ready K.place K.knows K.heads K.did) (of_below F.ready F.seen F.ahead F.moves F.did) (of_filler P.ready P.fits P.may P.lost P.stands P.knows P.knows_statics P.fills) (OfNext y)) (has_answer result) (reader_state reader.old home.old store.old) (reader_state reader.new home.new store.new) }
    ensures answered { OnOk result (AnswersBelow (of_below F.ready F.seen F.ahead F.moves F.did) reader.old.below store.old) }
    ensures on { Reaches (stand reader.old.spot) (stand reader.new.spot) }
    ensures to { reader.new.to ≡ reader.old.to }
    ensures filled { ReaderFilled (of_known K.ready K.place K.knows K.heads K.did) (of_filler P.ready P.fits P.may P.lost P.stands P.knows P.knows_statics P.fills) reader.old.known reader.old.filler home.old reader.new.known reader.new.filler home.new (IsKnownOver (K.knows reader.new.known home.new) (stand reader.old.spot) (stand reader.new.spot)) }
    ensures stays { StaysReader (of_known K.ready K.place K.knows K.heads K.did) (of_below F.ready F.seen F.ahead F.moves F.did) (of_filler P.ready P.fits P.may P.lost P.stands P.knows P.knows_statics P.fills) reader.old home.old store.old reader.new home.new store.new }
    ensures ready { IsReady (of_known K.ready K.place K.knows K.heads K.did) (of_below F.ready F.seen F.ahead F.moves F.did) (of_filler P.ready P.fits P.may P.lost P.stands P.knows P.knows_statics P.fills) reader.new home.new store.new }
    ensures damage { Blames (F.damage reader.old.below) (F.damage reader.new.below) result }
    ensures cause { Caused result (W.files store.old) (W.faults store.old) (W.faults store.new) }
    ensures store { HoldsSameFiles W.files W.building store.old store.new }
{
    reader.lags = true;
    match settle(alloc, reader, home, store) {
        Ok(()) => match reader.stage {
            Stage::Sought => look_here(alloc, reader, home, store, upto),
            Stage::Within => go_below(alloc, reader, home, store, end, upto),
            Stage::Away => Ok(Step::Passed),
        },
        Err(error) => Err(error),
    }
}

// Seeks the stream below to the place, if it is elsewhere.
fn settle<H, W: Store, K: Known<H>, F: Frags<H, W>, P: Filler<H>>(
    alloc: Global,
    reader: &mut CacheReader<K, F, P>,
    home: &mut H,
    store: &mut W,
) -> Result<(), StreamErr>
    requires ready { IsReady (of_known K.ready K.place K.knows K.heads K.did) (of_below F.ready F.seen F.ahead F.moves F.did) (of_filler P.ready P.fits P.may P.lost P.stands P.knows P.knows_statics P.fills) reader.old home.old store.old }
    requires idle { HasNothingDue reader.old.spot }
    requires within { IsBefore reader.old.spot.place reader.old.to }
    requires missing { (v : There) → K.knows reader.old.known home.old reader.old.spot.place v → ⊥ }
    ensures says { (s : Stream) → Sees (of_known K.ready K.place K.knows K.heads K.did) (of_below F.ready F.seen F.ahead F.moves F.did) (of_filler P.ready P.fits P.may P.lost P.stands P.knows P.knows_statics P.fills) reader.old home.old store.old s → Sees (of_known K.ready K.place K.knows K.heads K.did) (of_below F.ready F.seen F.ahead F.moves F.did) (of_filler P.ready P.fits P.may P.lost P.stands P.knows P.knows_statics P.fills) reader.new home.new store.new s }
    ensures did { (y : Pos) → Reaches reader.old.spot.place y → InTurn (ReaderCall (of_known K.ready K.place K.knows K.heads K.did) (of_below F.ready F.seen F.ahead F.moves F.did) (of_filler P.ready P.fits P.may P.lost P.stands P.knows P.knows_statics P.fills) (OfNext y)) (has_answer result) (reader_state reader.old home.old store.old) (reader_state reader.new home.new store.new) }
    ensures answered { OnOk result (AnswersBelow (of_below F.ready F.seen F.ahead F.moves F.did) reader.old.below store.old ⊎ ((reader.new.below ≡ reader.old.below) × (store.new ≡ store.old))) }
    ensures stage { OnOk result (IsNotAway reader.new.stage) }
    ensures spot { reader.new.spot ≡ reader.old.spot }
    ensures lags { reader.new.lags ≡ reader.old.lags }
    ensures known { reader.new.known ≡ reader.old.known }
    ensures knows { SameKnown (K.knows reader.old.known home.old) (K.knows reader.old.known home.new) }
    ensures to { reader.new.to ≡ reader.old.to }
    ensures filled { ReaderFilled (of_known K.ready K.place K.knows K.heads K.did) (of_filler P.ready P.fits P.may P.lost P.stands P.knows P.knows_statics P.fills) reader.old.known reader.old.filler home.old reader.new.known reader.new.filler home.new ⊤ }
    ensures stays { StaysReader (of_known K.ready K.place K.knows K.heads K.did) (of_below F.ready F.seen F.ahead F.moves F.did) (of_filler P.ready P.fits P.may P.lost P.stands P.knows P.knows_statics P.fills) reader.old home.old store.old reader.new home.new store.new }
    ensures ready { IsReady (of_known K.ready K.place K.knows K.heads K.did) (of_below F.ready F.seen F.ahead F.moves F.did) (of_filler P.ready P.fits P.may P.lost P.stands P.knows P.knows_statics P.fills) reader.new home.new store.new }
    ensures damage { Blames (F.damage reader.old.below) (F.damage reader.new.below) result }
    ensures cause { Caused result (W.files store.old) (W.faults store.old) (W.faults store.new) }
    ensures store { HoldsSameFiles W.files W.building store.old store.new }
{
    match reader.stage {
        Stage::Sought | Stage::Within => Ok(()),
        Stage::Away => match reader.below.seek(alloc, home, store, &reader.spot.place) {
            Ok(()) => {
                reader.stage = sought_stage(reader.spot.tomb);
                Ok(())
            }
            Err(error) => Err(error),
        },
    }
}

// Where the stream below is once it was sought.
fn sought_stage(tomb: Option<Tomb>) -> Stage
    ensures { result ≡ sought_stage tomb }
{
    match tomb {
        Some(_) => Stage::Sought,
        None => Stage::Within,
    }
}

// Looks at what stands below at the place itself, where it was sought and a tombstone was in force.
fn look_here<H, W: Store, K: Known<H>, F: Frags<H, W>, P: Filler<H>>(
    alloc: Global,
    reader: &mut CacheReader<K, F, P>,
    home: &mut H,
    store: &mut W,
    upto: &Pos,
) -> Result<Step, StreamErr>
    requires ready { IsReady (of_known K.ready K.place K.knows K.heads K.did) (of_below F.ready F.seen F.ahead F.moves F.did) (of_filler P.ready P.fits P.may P.lost P.stands P.knows P.knows_statics P.fills) reader.old home.old store.old }
    requires idle { HasNothingDue reader.old.spot }
    requires near { Reaches reader.old.spot.place upto.now }
    requires within { IsBefore reader.old.spot.place reader.old.to }
    requires missing { (v : There) → K.knows reader.old.known home.old reader.old.spot.place v → ⊥ }
    requires lags { reader.old.lags ≡ true }
    requires stage { reader.old.stage ≡ Stage.Sought }
    ensures says { (s : Stream) → Sees (of_known K.ready K.place K.knows K.heads K.did) (of_below F.ready F.seen F.ahead F.moves F.did) (of_filler P.ready P.fits P.may P.lost P.stands P.knows P.knows_statics P.fills) reader.old home.old store.old s → ReaderStepSays result upto.now s (Sees (of_known K.ready K.place K.knows K.heads K.did) (of_below F.ready F.seen F.ahead F.moves F.did) (of_filler P.ready P.fits P.may P.lost P.stands P.knows P.knows_statics P.fills) reader.new home.new store.new) }
    ensures upto { IfOk result (IsReaderStepUpto upto.now) }
    ensures did { (y : Pos) → ReachesEnd (Sees (of_known K.ready K.place K.knows K.heads K.did) (of_below F.ready F.seen F.ahead F.moves F.did) (of_filler P.ready P.fits P.may P.lost P.stands P.knows P.knows_statics P.fills) reader.old home.old store.old) upto.now y → InTurn (ReaderCall (of_known K.ready K.place K.knows K.heads K.did) (of_below F.ready F.seen F.ahead F.moves F.did) (of_filler P.ready P.fits P.may P.lost P.stands P.knows P.knows_statics P.fills) (OfNext y)) (has_answer result) (reader_state reader.old home.old store.old) (reader_state reader.new home.new store.new) }
    ensures answered { OnOk result (AnswersBelow (of_below F.ready F.seen F.ahead F.moves F.did) reader.old.below store.old) }
    ensures on { Reaches (stand reader.old.spot) (stand reader.new.spot) }
    ensures to { reader.new.to ≡ reader.old.to }
    ensures filled { ReaderFilled (of_known K.ready K.place K.knows K.heads K.did) (of_filler P.ready P.fits P.may P.lost P.stands P.knows P.knows_statics P.fills) reader.old.known reader.old.filler home.old reader.new.known reader.new.filler home.new (IsKnownOver (K.knows reader.new.known home.new) (stand reader.old.spot) (stand reader.new.spot)) }
    ensures stays { StaysReader (of_known K.ready K.place K.knows K.heads K.did) (of_below F.ready F.seen F.ahead F.moves F.did) (of_filler P.ready P.fits P.may P.lost P.stands P.knows P.knows_statics P.fills) reader.old home.old store.old reader.new home.new store.new }
    ensures ready { IsReady (of_known K.ready K.place K.knows K.heads K.did) (of_below F.ready F.seen F.ahead F.moves F.did) (of_filler P.ready P.fits P.may P.lost P.stands P.knows P.knows_statics P.fills) reader.new home.new store.new }
    ensures damage { Blames (F.damage reader.old.below) (F.damage reader.new.below) result }
    ensures cause { Caused result (W.files store.old) (W.faults store.old) (W.faults store.new) }
    ensures store { HoldsSameFiles W.files W.building store.old store.new }
{
    match reader.below.next(alloc, home, store, &reader.spot.place) {
        Ok(got) => {
            take_here(&mut reader.filler, &mut reader.spot, home, found(got));
            reader.stage = Stage::Within;
            Ok(Step::Passed)
        }
        Err(error) => Err(error),
    }
}

// Reads below from the place on, up to `upto` or the end of the stretch.
fn go_below<H, W: Store, K: Known<H>, F: Frags<H, W>, P: Filler<H>>(
    alloc: Global,
    reader: &mut CacheReader<K, F, P>,
    home: &mut H,
    store: &mut W,
    end: Pos,
    upto: &Pos,
) -> Result<Step, StreamErr>
    requires ready { IsReady (of_known K.ready K.place K.knows K.heads K.did) (of_below F.ready F.seen F.ahead F.moves F.did) (of_filler P.ready P.fits P.may P.lost P.stands P.knows P.knows_statics P.fills) reader.old home.old store.old }
    requires idle { HasNothingDue reader.old.spot }
    requires near { Reaches reader.old.spot.place upto.now }
    requires within { IsBefore reader.old.spot.place reader.old.to }
    requires missing { (v : There) → K.knows reader.old.known home.old reader.old.spot.place v → ⊥ }
    requires end { IsBefore reader.old.spot.place end }
    requires inside { Reaches end reader.old.to }
    requires lags { reader.old.lags ≡ true }
    requires stage { reader.old.stage ≡ Stage.Within }
    ensures says { (s : Stream) → Sees (of_known K.ready K.place K.knows K.heads K.did) (of_below F.ready F.seen F.ahead F.moves F.did) (of_filler P.ready P.fits P.may P.lost P.stands P.knows P.knows_statics P.fills) reader.old home.old store.old s → ReaderStepSays result upto.now s (Sees (of_known K.ready K.place K.knows K.heads K.did) (of_below F.ready F.seen F.ahead F.moves F.did) (of_filler P.ready P.fits P.may P.lost P.stands P.knows P.knows_statics P.fills) reader.new home.new store.new) }
    ensures upto { IfOk result (IsReaderStepUpto upto.now) }
    ensures did { (y : Pos) → ReachesEnd (Sees (of_known K.ready K.place K.knows K.heads K.did) (of_below F.ready F.seen F.ahead F.moves F.did) (of_filler P.ready P.fits P.may P.lost P.stands P.knows P.knows_statics P.fills) reader.old home.old store.old) upto.now y → InTurn (ReaderCall (of_known K.ready K.place K.knows K.heads K.did) (of_below F.ready F.seen F.ahead F.moves F.did) (of_filler P.ready P.fits P.may P.lost P.stands P.knows P.knows_statics P.fills) (OfNext y)) (has_answer result) (reader_state reader.old home.old store.old) (reader_state reader.new home.new store.new) }
    ensures answered { OnOk result (AnswersBelow (of_below F.ready F.seen F.ahead F.moves F.did) reader.old.below store.old) }
    ensures on { Reaches (stand reader.old.spot) (stand reader.new.spot) }
    ensures to { reader.new.to ≡ reader.old.to }
    ensures filled { ReaderFilled (of_known K.ready K.place K.knows K.heads K.did) (of_filler P.ready P.fits P.may P.lost P.stands P.knows P.knows_statics P.fills) reader.old.known reader.old.filler home.old reader.new.known reader.new.filler home.new (IsKnownOver (K.knows reader.new.known home.new) (stand reader.old.spot) (stand reader.new.spot)) }
    ensures stays { StaysReader (of_known K.ready K.place K.knows K.heads K.did) (of_below F.ready F.seen F.ahead F.moves F.did) (of_filler P.ready P.fits P.may P.lost P.stands P.knows P.knows_statics P.fills) reader.old home.old store.old reader.new home.new store.new }
    ensures ready { IsReady (of_known K.ready K.place K.knows K.heads K.did) (of_below F.ready F.seen F.ahead F.moves F.did) (of_filler P.ready P.fits P.may P.lost P.stands P.knows P.knows_statics P.fills) reader.new home.new store.new }
    ensures damage { Blames (F.damage reader.old.below) (F.damage reader.new.below) result }
    ensures cause { Caused result (W.files store.old) (W.faults store.old) (W.faults store.new) }
    ensures store { HoldsSameFiles W.files W.building store.old store.new }
{
    let near = match nearest(alloc, upto, &end) {
        Ok(near) => near,
        Err(_) => return Err(StreamErr::NoMemory),
    };
    match reader.below.next(alloc, home, store, &near) {
        Ok(got) => Ok(take_found(
            alloc,
            &mut reader.filler,
            &mut reader.spot,
            &mut reader.stage,
            home,
            found(got),
            near,
            end,
            upto,
        )),
        Err(error) => Err(error),
    }
}

// Takes what was read below: it is due at its place, or the stretch ends, or nothing stands up to `upto`.
fn take_found<H, P: Filler<H>>(
    alloc: Global,
    filler: &mut P,
    spot: &mut Spot,
    stage: &mut Stage,
    home: &mut H,
    found: Found,
    near: Pos,
    end: Pos,
    upto: &Pos,
) -> Step
    requires ready { P.ready filler.old home.old }
    requires lost { StaysLost P.fills P.lost filler.old home.old }
    requires unread { spot.old.row ≡ Unread }
    requires fits { (p : P) (x : Pos) → P.fits p x }
    requires near { near ≡ near_of upto.now end }
    requires on { Reaches spot.old.place near }
    requires source { (writes : List Mutation) × P.stands filler.old home.old writes × Tells (SayThere writes) spot.old.place near end spot.old.tomb found }
    ensures took { TookFound found near end upto.now spot.old spot.new stage.old stage.new result }
    ensures did { Fillings P.fills filler.old home.old filler.new home.new }
    ensures taken { TakenIn P.may P.lost P.knows filler.old home.old filler.new home.new (IsKnownOver (P.knows filler.new home.new) spot.old.place (stand spot.new)) }
    ensures stands { (writes : List Mutation) → P.stands filler.old home.old writes → Tells (SayThere writes) spot.old.place near end spot.old.tomb found → P.stands filler.new home.new writes }
    ensures ready { P.ready filler.new home.new }
{
    match found {
        Found::Row(key, row) => {
            take_row(filler, spot, home, key, row);
            Step::Passed
        }
        Found::Change(from, tomb) => {
            if from < end {
                take_change(filler, spot, home, from, tomb);
                return Step::Passed;
            }
            take_end(filler, spot, home, end);
            *stage = Stage::Away;
            Step::Passed
        }
        Found::Nothing => {
            if end <= *upto {
                take_end(filler, spot, home, end);
                *stage = Stage::Away;
                return Step::Passed;
            }
            take_upto(alloc, filler, spot, home, near);
            Step::Nothing
        }
    }
}

// What was read below.
fn found(got: Option<Frag>) -> Found
    ensures { result ≡ found_of got }
{
    match got {
        Some(Frag::Row(key, row)) => Found::Row(key, row),
        Some(Frag::Change(from, tomb)) => Found::Change(from, tomb),
        Some(Frag::Start(_) | Frag::Static(_) | Frag::End) | None => Found::Nothing,
    }
}

// The nearer of a position and the last one before the end of a stretch. The only error is want of memory.
fn nearest(alloc: Global, upto: &Pos, end: &Pos) -> Result<Pos, AllocError>
    ensures { IfOk result (λ x. x ≡ near_of upto.now end.now) }
{
    let mut last = end.copy(alloc)?;
    if last.weight == Weight::At {
        last.weight = Weight::Before;
    }
    if *upto <= last {
        return upto.copy(alloc);
    }
    Ok(last)
}
