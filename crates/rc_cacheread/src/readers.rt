// A reader over a snapshot that is known in part.
ghost use Rattle.std.specs.Prelude.{◌≡◌, false, IfOk, IfSome, IsTrue, OnOk};
ghost use Rattle.rc_outside.specs.Files.{HoldsSameFiles};
ghost use Rattle.rc_position.specs.declared.positions.Pos.{Pos};
ghost use Rattle.rc_stream.specs.Leaving.{left_by};
ghost use Rattle.rc_stream.specs.Causes.{Caused};
ghost use Rattle.rc_stream.specs.Did.{InTurn, ReachesEnd, has_answer, Call.OfHead, Call.OfNext};
ghost use Rattle.rc_stream.specs.Showing.{Blames};
ghost use Rattle.rc_stream.specs.Stream.{Stream, first_upto, is_upto};
ghost use Rattle.rc_cacheread.specs.Did.{AnswersBelow, IsFilledFor, ReaderCall, ReaderDid, ReaderFilled, reader_state};
ghost use Rattle.rc_cacheread.specs.calls.Did.{IsReaderStepUpto, ReaderStepSays};
ghost use Rattle.rc_cacheread.specs.Making.{IsNewReader};
ghost use Rattle.rc_cacheread.specs.Sharing.{IsReady, Sees, StaysReader, of_below, of_filler, of_known};
ghost use Rattle.rc_cacheread.specs.Spots.{stand};

use crate::parts::read_part;
use crate::spots::{Spot, Step, Turn};
use rc_mutation::{Frag, Head, HeadAt};
use rc_outside::Store;
use rc_position::{Pos, Slice};
use rc_stream::{Filler, Frags, Known, StreamErr};
use std::alloc::{AllocError, Global};

/// Where the stream below is.
#[derive(Clone, Copy, Debug)]
pub(crate) enum Stage {
    /// Not past the place.
    Away,
    /// Sought to the place, where a tombstone was in force.
    Sought,
    /// At the place, with the tombstone in force there.
    Within,
}

/// A reader of a slice of a partition: over a snapshot of which a part may be known, a stream below it that says what the partition has
/// where nothing is known, and a filler of the snapshot. As a stream it gives the head of the partition, and the rows and changes of
/// tombstone in the slice, whatever is known; a tombstone that is in force where the slice ends is changed to none there.
#[derive(Drop)]
pub struct CacheReader<K, F, P> {
    pub(crate) known: K,
    pub(crate) below: F,
    pub(crate) filler: P,
    pub(crate) to: Pos,
    pub(crate) spot: Spot,
    pub(crate) stage: Stage,
    pub(crate) lags: bool,
}

impl<K, F, P> CacheReader<K, F, P> {
    /// A reader of this slice, before which neither the snapshot nor the stream below is past its beginning.
    pub fn new(known: K, below: F, filler: P, slice: Slice) -> Self
        ensures { IsNewReader known below filler slice result }
    {
        let Slice { from, to } = slice;
        CacheReader {
            known,
            below,
            filler,
            to,
            spot: Spot::at(from),
            stage: Stage::Away,
            lags: true,
        }
    }

    /// From where on nothing was read. The only error is want of memory.
    pub fn stand(&self, alloc: Global) -> Result<Pos, AllocError>
        ensures { IfOk result (λ x. x ≡ stand self.now.spot) }
    {
        self.spot.stand(alloc)
    }

    /// The snapshot, the stream below and the filler, as they are.
    pub fn finish(self) -> (K, F, P)
        ensures { result ≡ (self.known, self.below, self.filler) }
    {
        (self.known, self.below, self.filler)
    }
}

// Takes a step: what is due is given, or more is read.
fn round<H, W: Store, K: Known<H>, F: Frags<H, W>, P: Filler<H>>(
    alloc: Global,
    reader: &mut CacheReader<K, F, P>,
    home: &mut H,
    store: &mut W,
    upto: &Pos,
) -> Result<Step, StreamErr>
    requires ready { IsReady (of_known K.ready K.place K.knows K.heads K.did) (of_below F.ready F.seen F.ahead F.moves F.did) (of_filler P.ready P.fits P.may P.lost P.stands P.knows P.knows_statics P.fills) reader.old home.old store.old }
    ensures says { (s : Stream) → Sees (of_known K.ready K.place K.knows K.heads K.did) (of_below F.ready F.seen F.ahead F.moves F.did) (of_filler P.ready P.fits P.may P.lost P.stands P.knows P.knows_statics P.fills) reader.old home.old store.old s → ReaderStepSays result upto.now s (Sees (of_known K.ready K.place K.knows K.heads K.did) (of_below F.ready F.seen F.ahead F.moves F.did) (of_filler P.ready P.fits P.may P.lost P.stands P.knows P.knows_statics P.fills) reader.new home.new store.new) }
    ensures upto { IfOk result (IsReaderStepUpto upto.now) }
    ensures did { (y : Pos) → ReachesEnd (Sees (of_known K.ready K.place K.knows K.heads K.did) (of_below F.ready F.seen F.ahead F.moves F.did) (of_filler P.ready P.fits P.may P.lost P.stands P.knows P.knows_statics P.fills) reader.old home.old store.old) upto.now y → ReaderDid (of_known K.ready K.place K.knows K.heads K.did) (of_below F.ready F.seen F.ahead F.moves F.did) (of_filler P.ready P.fits P.may P.lost P.stands P.knows P.knows_statics P.fills) reader.old home.old store.old (OfNext y) (has_answer result) reader.new home.new store.new }
    ensures to { reader.new.to ≡ reader.old.to }
    ensures ready { IsReady (of_known K.ready K.place K.knows K.heads K.did) (of_below F.ready F.seen F.ahead F.moves F.did) (of_filler P.ready P.fits P.may P.lost P.stands P.knows P.knows_statics P.fills) reader.new home.new store.new }
    ensures damage { Blames (F.damage reader.old.below) (F.damage reader.new.below) result }
    ensures cause { Caused result (W.files store.old) (W.faults store.old) (W.faults store.new) }
    ensures store { HoldsSameFiles W.files W.building store.old store.new }
{
    match reader.spot.give(alloc, &reader.to, upto) {
        Ok(Turn::Given(frag)) => Ok(Step::Given(frag)),
        Ok(Turn::Nothing) => Ok(Step::Nothing),
        Ok(Turn::Closed) => {
            reader.stage = Stage::Away;
            Ok(Step::Passed)
        }
        Ok(Turn::Unread) => read_part(alloc, reader, home, store, upto),
        Err(_) => Err(StreamErr::NoMemory),
    }
}

// The next, if it stands at the position or before it: steps until one gives. A snapshot of parts without end is given up after
// 2 ^ 64 of them.
fn next_fragment<H, W: Store, K: Known<H>, F: Frags<H, W>, P: Filler<H>>(
    alloc: Global,
    reader: &mut CacheReader<K, F, P>,
    home: &mut H,
    store: &mut W,
    upto: &Pos,
) -> Result<Option<Frag>, StreamErr>
    requires ready { IsReady (of_known K.ready K.place K.knows K.heads K.did) (of_below F.ready F.seen F.ahead F.moves F.did) (of_filler P.ready P.fits P.may P.lost P.stands P.knows P.knows_statics P.fills) reader.old home.old store.old }
    ensures gives { (s : Stream) → Sees (of_known K.ready K.place K.knows K.heads K.did) (of_below F.ready F.seen F.ahead F.moves F.did) (of_filler P.ready P.fits P.may P.lost P.stands P.knows P.knows_statics P.fills) reader.old home.old store.old s → IfOk result (λ got. got ≡ first_upto upto.now s.left) }
    ensures upto { IfOk result (λ got. IfSome got (λ f. IsTrue (is_upto upto.now f))) }
    ensures left { (s : Stream) → Sees (of_known K.ready K.place K.knows K.heads K.did) (of_below F.ready F.seen F.ahead F.moves F.did) (of_filler P.ready P.fits P.may P.lost P.stands P.knows P.knows_statics P.fills) reader.old home.old store.old s → Sees (of_known K.ready K.place K.knows K.heads K.did) (of_below F.ready F.seen F.ahead F.moves F.did) (of_filler P.ready P.fits P.may P.lost P.stands P.knows P.knows_statics P.fills) reader.new home.new store.new (left_by result s) }
    ensures did { (y : Pos) → ReachesEnd (Sees (of_known K.ready K.place K.knows K.heads K.did) (of_below F.ready F.seen F.ahead F.moves F.did) (of_filler P.ready P.fits P.may P.lost P.stands P.knows P.knows_statics P.fills) reader.old home.old store.old) upto.now y → ReaderDid (of_known K.ready K.place K.knows K.heads K.did) (of_below F.ready F.seen F.ahead F.moves F.did) (of_filler P.ready P.fits P.may P.lost P.stands P.knows P.knows_statics P.fills) reader.old home.old store.old (OfNext y) (has_answer result) reader.new home.new store.new }
    ensures ready { IsReady (of_known K.ready K.place K.knows K.heads K.did) (of_below F.ready F.seen F.ahead F.moves F.did) (of_filler P.ready P.fits P.may P.lost P.stands P.knows P.knows_statics P.fills) reader.new home.new store.new }
    ensures damage { Blames (F.damage reader.old.below) (F.damage reader.new.below) result }
    ensures cause { Caused result (W.files store.old) (W.faults store.old) (W.faults store.new) }
    ensures store { HoldsSameFiles W.files W.building store.old store.new }
{
    let mut rounds = u64::MAX;
    while rounds > 0 {
        rounds -= 1;
        match round(alloc, reader, home, store, upto) {
            Ok(Step::Given(frag)) => return Ok(Some(frag)),
            Ok(Step::Nothing) => return Ok(None),
            Ok(Step::Passed) => {}
            Err(error) => return Err(error),
        }
    }
    Err(StreamErr::NoMemory)
}

// The head: of the snapshot, where its static row is known; else with the static row that stands below.
fn whole_head<H, W: Store, K: Known<H>, F: Frags<H, W>, P: Filler<H>>(
    alloc: Global,
    reader: &mut CacheReader<K, F, P>,
    home: &mut H,
    store: &mut W,
) -> Result<Head, StreamErr>
    requires ready { IsReady (of_known K.ready K.place K.knows K.heads K.did) (of_below F.ready F.seen F.ahead F.moves F.did) (of_filler P.ready P.fits P.may P.lost P.stands P.knows P.knows_statics P.fills) reader.old home.old store.old }
    ensures head { (s : Stream) → Sees (of_known K.ready K.place K.knows K.heads K.did) (of_below F.ready F.seen F.ahead F.moves F.did) (of_filler P.ready P.fits P.may P.lost P.stands P.knows P.knows_statics P.fills) reader.old home.old store.old s → IfOk result (λ head. head ≡ s.head) }
    ensures seen { (s : Stream) → Sees (of_known K.ready K.place K.knows K.heads K.did) (of_below F.ready F.seen F.ahead F.moves F.did) (of_filler P.ready P.fits P.may P.lost P.stands P.knows P.knows_statics P.fills) reader.old home.old store.old s → Sees (of_known K.ready K.place K.knows K.heads K.did) (of_below F.ready F.seen F.ahead F.moves F.did) (of_filler P.ready P.fits P.may P.lost P.stands P.knows P.knows_statics P.fills) reader.new home.new store.new s }
    ensures did { ReaderDid (of_known K.ready K.place K.knows K.heads K.did) (of_below F.ready F.seen F.ahead F.moves F.did) (of_filler P.ready P.fits P.may P.lost P.stands P.knows P.knows_statics P.fills) reader.old home.old store.old OfHead (has_answer result) reader.new home.new store.new }
    ensures ready { IsReady (of_known K.ready K.place K.knows K.heads K.did) (of_below F.ready F.seen F.ahead F.moves F.did) (of_filler P.ready P.fits P.may P.lost P.stands P.knows P.knows_statics P.fills) reader.new home.new store.new }
    ensures damage { Blames (F.damage reader.old.below) (F.damage reader.new.below) result }
    ensures cause { Caused result (W.files store.old) (W.faults store.old) (W.faults store.new) }
    ensures store { HoldsSameFiles W.files W.building store.old store.new }
{
    let at = match reader.known.head_known(alloc, home) {
        Ok(at) => at,
        Err(_) => return Err(StreamErr::NoMemory),
    };
    if at.known {
        return Ok(at.head);
    }
    head_below(alloc, reader, home, store, at)
}

// The head of a snapshot with the static row that stands below, which is taken in.
fn head_below<H, W: Store, K: Known<H>, F: Frags<H, W>, P: Filler<H>>(
    alloc: Global,
    reader: &mut CacheReader<K, F, P>,
    home: &mut H,
    store: &mut W,
    at: HeadAt,
) -> Result<Head, StreamErr>
    requires ready { IsReady (of_known K.ready K.place K.knows K.heads K.did) (of_below F.ready F.seen F.ahead F.moves F.did) (of_filler P.ready P.fits P.may P.lost P.stands P.knows P.knows_statics P.fills) reader.old home.old store.old }
    requires head { K.heads reader.old.known home.old at }
    requires unknown { at.known ≡ false }
    ensures head { (s : Stream) → Sees (of_known K.ready K.place K.knows K.heads K.did) (of_below F.ready F.seen F.ahead F.moves F.did) (of_filler P.ready P.fits P.may P.lost P.stands P.knows P.knows_statics P.fills) reader.old home.old store.old s → IfOk result (λ head. head ≡ s.head) }
    ensures seen { (s : Stream) → Sees (of_known K.ready K.place K.knows K.heads K.did) (of_below F.ready F.seen F.ahead F.moves F.did) (of_filler P.ready P.fits P.may P.lost P.stands P.knows P.knows_statics P.fills) reader.old home.old store.old s → Sees (of_known K.ready K.place K.knows K.heads K.did) (of_below F.ready F.seen F.ahead F.moves F.did) (of_filler P.ready P.fits P.may P.lost P.stands P.knows P.knows_statics P.fills) reader.new home.new store.new s }
    ensures calls { InTurn (ReaderCall (of_known K.ready K.place K.knows K.heads K.did) (of_below F.ready F.seen F.ahead F.moves F.did) (of_filler P.ready P.fits P.may P.lost P.stands P.knows P.knows_statics P.fills) OfHead) (has_answer result) (reader_state reader.old home.old store.old) (reader_state reader.new home.new store.new) }
    ensures answered { OnOk result (AnswersBelow (of_below F.ready F.seen F.ahead F.moves F.did) reader.old.below store.old) }
    ensures spot { reader.new.spot ≡ reader.old.spot }
    ensures to { reader.new.to ≡ reader.old.to }
    ensures filled { ReaderFilled (of_known K.ready K.place K.knows K.heads K.did) (of_filler P.ready P.fits P.may P.lost P.stands P.knows P.knows_statics P.fills) reader.old.known reader.old.filler home.old reader.new.known reader.new.filler home.new (IsFilledFor OfHead (has_answer result) (K.knows reader.new.known home.new) (K.heads reader.new.known home.new) (stand reader.old.spot) (stand reader.new.spot)) }
    ensures stays { StaysReader (of_known K.ready K.place K.knows K.heads K.did) (of_below F.ready F.seen F.ahead F.moves F.did) (of_filler P.ready P.fits P.may P.lost P.stands P.knows P.knows_statics P.fills) reader.old home.old store.old reader.new home.new store.new }
    ensures ready { IsReady (of_known K.ready K.place K.knows K.heads K.did) (of_below F.ready F.seen F.ahead F.moves F.did) (of_filler P.ready P.fits P.may P.lost P.stands P.knows P.knows_statics P.fills) reader.new home.new store.new }
    ensures damage { Blames (F.damage reader.old.below) (F.damage reader.new.below) result }
    ensures cause { Caused result (W.files store.old) (W.faults store.old) (W.faults store.new) }
    ensures store { HoldsSameFiles W.files W.building store.old store.new }
{
    match reader.below.head(alloc, home, store) {
        Ok(head) => {
            reader.filler.statics(home, &head.statics);
            Ok(Head {
                pt: at.head.pt,
                statics: head.statics,
            })
        }
        Err(error) => Err(error),
    }
}

impl<H, W: Store, K: Known<H>, F: Frags<H, W>, P: Filler<H>> Frags<H, W> for CacheReader<K, F, P> {
    ghost use Rattle.std.specs.Prelude.{◌≡◌, ⊤};
    ghost use Rattle.rc_cacheread.specs.Did.{ReaderDid, ReaderMoves};
    ghost use Rattle.rc_cacheread.specs.Sharing.{IsReady, Sees, of_below, of_filler, of_known};
    ghost use Rattle.rc_stream.specs.Showing.{IsFromStart};

    // its parts may be called, each leaves to the others what they need, and there are writes of which it is a reader
    ghost ready = { λ r home store. IsReady (of_known K.ready K.place K.knows K.heads K.did) (of_below F.ready F.seen F.ahead F.moves F.did) (of_filler P.ready P.fits P.may P.lost P.stands P.knows P.knows_statics P.fills) r home store };

    // it is a reader of writes, and this is what is left of what they say
    ghost seen = { λ r home store s. Sees (of_known K.ready K.place K.knows K.heads K.did) (of_below F.ready F.seen F.ahead F.moves F.did) (of_filler P.ready P.fits P.may P.lost P.stands P.knows P.knows_statics P.fills) r home store s };

    ghost ahead = { λ _ _. ⊤ };

    ghost moves = { λ home store home' store'. ReaderMoves (of_known K.ready K.place K.knows K.heads K.did) (of_below F.ready F.seen F.ahead F.moves F.did) (of_filler P.ready P.fits P.may P.lost P.stands P.knows P.knows_statics P.fills) home store home' store' };

    // its parts were called, one call after another
    ghost did = { λ r home store c ok r' home' store'. ReaderDid (of_known K.ready K.place K.knows K.heads K.did) (of_below F.ready F.seen F.ahead F.moves F.did) (of_filler P.ready P.fits P.may P.lost P.stands P.knows P.knows_statics P.fills) r home store c ok r' home' store' };

    ghost fresh = { λ _. ⊥ };

    ghost might = { λ _ s. IsFromStart s };

    ghost damage = { λ r file offset. F.damage r.below file offset };

    fn head(&mut self, alloc: Global, home: &mut H, store: &mut W) -> Result<Head, StreamErr> {
        whole_head(alloc, self, home, store)
    }

    fn seek(
        &mut self,
        alloc: Global,
        _home: &mut H,
        _store: &mut W,
        to: &Pos,
    ) -> Result<(), StreamErr> {
        match self.spot.seek(alloc, to) {
            Ok(false) => Ok(()),
            Ok(true) => {
                self.stage = Stage::Away;
                self.lags = true;
                Ok(())
            }
            Err(_) => Err(StreamErr::NoMemory),
        }
    }

    fn next(
        &mut self,
        alloc: Global,
        home: &mut H,
        store: &mut W,
        upto: &Pos,
    ) -> Result<Option<Frag>, StreamErr> {
        next_fragment(alloc, self, home, store, upto)
    }
}
