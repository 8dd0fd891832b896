// Two streams as one.
ghost use Rattle.std.specs.Prelude.{◌≡◌, None, Some, IfOk, IfSome, IsTrue, OnOk};
ghost use Rattle.rc_outside.specs.Files.{HoldsSameFiles};
ghost use Rattle.rc_position.specs.declared.positions.Pos.{Pos};
ghost use Rattle.rc_stream.specs.Both.{AheadOfBoth, BothFresh, HoldBoth, MaySeekBoth, MightBoth, SoughtBoth, SpotsOfBoth};
ghost use Rattle.rc_stream.specs.calls.Both.{BothReady, IsDueAhead, KeepEachOther};
ghost use Rattle.rc_stream.specs.calls.Both.{LookedBoth};
ghost use Rattle.rc_stream.specs.Leaving.{left_by};
ghost use Rattle.rc_stream.specs.Causes.{Caused};
ghost use Rattle.rc_stream.specs.Did.{InTurn, ReachesEnd, HeadsOnce, IsNewMerge, OneCall, has_answer, merge_state};
ghost use Rattle.rc_stream.specs.calls.Holding.{IsStepUpto};
ghost use Rattle.rc_stream.specs.Moving.{Moved};
ghost use Rattle.rc_stream.specs.calls.Moving.{RoundReaches, StepLeaves};
ghost use Rattle.rc_stream.specs.Merging.{joined_head};
ghost use Rattle.rc_stream.specs.Places.{Passes};
ghost use Rattle.rc_stream.specs.Showing.{Blames, ShowsOne};
ghost use Rattle.rc_stream.specs.Stream.{Stream, first_upto, is_upto, sought_stream};

use crate::holding::{Step, bound, joined_row, make_step};
use crate::parts::{Peeked, go_on, look_ahead};
use crate::streams::{Frags, StreamErr};
use rc_mutation::{Frag, Head, greater_tomb};
use rc_outside::Store;
use rc_position::Pos;
use std::alloc::{AllocError, Global};

/// Two streams of one partition as one: the canonical stream of what both say together. A call is a chain of calls of the two, of
/// which a refused one is the last (`did`): for the head each is asked once; for the next `theirs` is asked no further than what is
/// given, or than `upto` where nothing is. It is ready where both are, and where what the calls of each may make of a home and a
/// store leaves the other one ready and what it stands for.
#[derive(Drop)]
pub struct Merge<A, B> {
    ours: Peeked<A>,
    theirs: Peeked<B>,
    due: Option<Pos>,
}

impl<A, B> Merge<A, B> {
    /// The two as one, from where they are.
    pub fn new(a: A, b: B) -> Self
        ensures { IsNewMerge a b result }
    {
        Merge {
            ours: Peeked::new(a),
            theirs: Peeked::new(b),
            due: None,
        }
    }

    /// The two streams, as they are. What was looked at of them and not given is let go.
    pub fn into_parts(self) -> (A, B)
        ensures { result ≡ (self.ours.stream, self.theirs.stream) }
    {
        let Merge {
            ours,
            theirs,
            due: _,
        } = self;
        (ours.into_stream(), theirs.into_stream())
    }
}

// Looks at the next of ours up to a position, and then at the next of theirs, up to the nearer of the position and ours.
fn look_at_both<H, W: Store, A: Frags<H, W>, B: Frags<H, W>>(
    alloc: Global,
    merge: &mut Merge<A, B>,
    home: &mut H,
    store: &mut W,
    upto: &Pos,
) -> Result<(), StreamErr>
    requires ready { BothReady A.ready B.ready merge.old home.old store.old }
    requires keeps { KeepEachOther A.ready A.seen A.moves B.ready B.seen B.moves }
    ensures holds { (m : Stream) → HoldBoth A.seen B.seen merge.old home.old store.old m → HoldBoth A.seen B.seen merge.new home.new store.new m }
    ensures known { OnOk result ((m : Stream) → HoldBoth A.seen B.seen merge.old home.old store.old m → LookedBoth A.seen B.seen merge.new home.new store.new upto.now m) }
    ensures did { (y : Pos) → ReachesEnd (HoldBoth A.seen B.seen merge.old home.old store.old) upto.now y → InTurn (OneCall A.did B.did None y) (has_answer result) (merge_state merge.old home.old store.old) (merge_state merge.new home.new store.new) }
    ensures ahead { (x : Pos) → MaySeekBoth A.ahead B.ahead merge.old x → MaySeekBoth A.ahead B.ahead merge.new x }
    ensures ready { BothReady A.ready B.ready merge.new home.new store.new }
    ensures due { merge.new.due ≡ merge.old.due }
    ensures moves { Moved A.moves B.moves home.old store.old home.new store.new }
    ensures damage { Blames (SpotsOfBoth A.damage B.damage merge.old) (SpotsOfBoth A.damage B.damage merge.new) result }
    ensures cause { Caused result (W.files store.old) (W.faults store.old) (W.faults store.new) }
    ensures store { HoldsSameFiles W.files W.building store.old store.new }
{
    match look_ahead(alloc, &mut merge.ours, home, store, upto) {
        Ok(()) => match bound(alloc, &merge.ours.held, upto) {
            Ok(near) => look_ahead(alloc, &mut merge.theirs, home, store, &near),
            Err(_) => Err(StreamErr::NoMemory),
        },
        Err(error) => Err(error),
    }
}

// Looks at both, and takes one step.
fn round<H, W: Store, A: Frags<H, W>, B: Frags<H, W>>(
    alloc: Global,
    merge: &mut Merge<A, B>,
    home: &mut H,
    store: &mut W,
    upto: &Pos,
) -> Result<Step, StreamErr>
    requires ready { BothReady A.ready B.ready merge.old home.old store.old }
    requires keeps { KeepEachOther A.ready A.seen A.moves B.ready B.seen B.moves }
    ensures says { (m : Stream) → HoldBoth A.seen B.seen merge.old home.old store.old m → StepLeaves result upto.now m (HoldBoth A.seen B.seen merge.new home.new store.new) }
    ensures upto { IfOk result (IsStepUpto upto.now) }
    ensures did { (y : Pos) → ReachesEnd (HoldBoth A.seen B.seen merge.old home.old store.old) upto.now y → InTurn (OneCall A.did B.did None y) (has_answer result) (merge_state merge.old home.old store.old) (merge_state merge.new home.new store.new) }
    ensures ahead { (x : Pos) → RoundReaches result x → MaySeekBoth A.ahead B.ahead merge.old x → MaySeekBoth A.ahead B.ahead merge.new x }
    ensures ready { BothReady A.ready B.ready merge.new home.new store.new }
    ensures due { merge.new.due ≡ merge.old.due }
    ensures moves { Moved A.moves B.moves home.old store.old home.new store.new }
    ensures damage { Blames (SpotsOfBoth A.damage B.damage merge.old) (SpotsOfBoth A.damage B.damage merge.new) result }
    ensures cause { Caused result (W.files store.old) (W.faults store.old) (W.faults store.new) }
    ensures store { HoldsSameFiles W.files W.building store.old store.new }
{
    match look_at_both(alloc, merge, home, store, upto) {
        Ok(()) => match make_step(alloc, &mut merge.ours.held, &mut merge.theirs.held, upto) {
            Ok(step) => Ok(step),
            Err(_) => Err(StreamErr::NoMemory),
        },
        Err(error) => Err(error),
    }
}

// Takes the first that both say, if it stands at the position or before it: steps until one gives. Streams that never end are
// given up after 2 ^ 64 changes that change nothing.
fn next_of_both<H, W: Store, A: Frags<H, W>, B: Frags<H, W>>(
    alloc: Global,
    merge: &mut Merge<A, B>,
    home: &mut H,
    store: &mut W,
    upto: &Pos,
) -> Result<Option<Frag>, StreamErr>
    requires ready { BothReady A.ready B.ready merge.old home.old store.old }
    requires keeps { KeepEachOther A.ready A.seen A.moves B.ready B.seen B.moves }
    ensures gives { (m : Stream) → HoldBoth A.seen B.seen merge.old home.old store.old m → IfOk result (λ got. got ≡ first_upto upto.now m.left) }
    ensures left { (m : Stream) → HoldBoth A.seen B.seen merge.old home.old store.old m → HoldBoth A.seen B.seen merge.new home.new store.new (left_by result m) }
    ensures upto { IfOk result (λ got. IfSome got (λ f. IsTrue (is_upto upto.now f))) }
    ensures did { (y : Pos) → ReachesEnd (HoldBoth A.seen B.seen merge.old home.old store.old) upto.now y → InTurn (OneCall A.did B.did None y) (has_answer result) (merge_state merge.old home.old store.old) (merge_state merge.new home.new store.new) }
    ensures ahead { (x : Pos) → Passes result x → MaySeekBoth A.ahead B.ahead merge.old x → MaySeekBoth A.ahead B.ahead merge.new x }
    ensures ready { BothReady A.ready B.ready merge.new home.new store.new }
    ensures due { merge.new.due ≡ merge.old.due }
    ensures moves { Moved A.moves B.moves home.old store.old home.new store.new }
    ensures damage { Blames (SpotsOfBoth A.damage B.damage merge.old) (SpotsOfBoth A.damage B.damage merge.new) result }
    ensures cause { Caused result (W.files store.old) (W.faults store.old) (W.faults store.new) }
    ensures store { HoldsSameFiles W.files W.building store.old store.new }
{
    let mut rounds = u64::MAX;
    while rounds > 0 {
        rounds -= 1;
        match round(alloc, merge, home, store, upto) {
            Ok(Step::Given(frag)) => return Ok(Some(frag)),
            Ok(Step::Nothing) => return Ok(None),
            Ok(Step::Passed) => {}
            Err(error) => return Err(error),
        }
    }
    Err(StreamErr::NoMemory)
}

// Goes on to a position in both.
fn go_on_in_both<H, W: Store, A: Frags<H, W>, B: Frags<H, W>>(
    alloc: Global,
    merge: &mut Merge<A, B>,
    home: &mut H,
    store: &mut W,
    to: &Pos,
) -> Result<(), StreamErr>
    requires ready { BothReady A.ready B.ready merge.old home.old store.old }
    requires keeps { KeepEachOther A.ready A.seen A.moves B.ready B.seen B.moves }
    requires ahead { MaySeekBoth A.ahead B.ahead merge.old to.now }
    ensures ok { OnOk result ((m : Stream) → HoldBoth A.seen B.seen merge.old home.old store.old m → HoldBoth A.seen B.seen merge.new home.new store.new (sought_stream to.now m)) }
    ensures again { (m : Stream) → HoldBoth A.seen B.seen merge.old home.old store.old m → ((n : Stream) × HoldBoth A.seen B.seen merge.new home.new store.new n × (sought_stream to.now n ≡ sought_stream to.now m)) }
    ensures did { (y : Pos) → InTurn (OneCall A.did B.did (Some to.now) y) (has_answer result) (merge_state merge.old home.old store.old) (merge_state merge.new home.new store.new) }
    ensures ahead { MaySeekBoth A.ahead B.ahead merge.new to.now }
    ensures ready { BothReady A.ready B.ready merge.new home.new store.new }
    ensures due { merge.new.due ≡ merge.old.due }
    ensures moves { Moved A.moves B.moves home.old store.old home.new store.new }
    ensures damage { Blames (SpotsOfBoth A.damage B.damage merge.old) (SpotsOfBoth A.damage B.damage merge.new) result }
    ensures cause { Caused result (W.files store.old) (W.faults store.old) (W.faults store.new) }
    ensures store { HoldsSameFiles W.files W.building store.old store.new }
{
    match go_on(alloc, &mut merge.ours, home, store, to) {
        Ok(()) => go_on(alloc, &mut merge.theirs, home, store, to),
        Err(error) => Err(error),
    }
}

// Goes on in both to the position to which a seek is due, if one is.
fn settle<H, W: Store, A: Frags<H, W>, B: Frags<H, W>>(
    alloc: Global,
    merge: &mut Merge<A, B>,
    home: &mut H,
    store: &mut W,
) -> Result<(), StreamErr>
    requires ready { BothReady A.ready B.ready merge.old home.old store.old }
    requires keeps { KeepEachOther A.ready A.seen A.moves B.ready B.seen B.moves }
    requires due { IsDueAhead A.ahead B.ahead merge.old }
    ensures ok { OnOk result (merge.new.due ≡ None) }
    ensures seen { (s : Stream) → SoughtBoth A.seen B.seen merge.old home.old store.old s → SoughtBoth A.seen B.seen merge.new home.new store.new s }
    ensures did { (y : Pos) → InTurn (OneCall A.did B.did merge.old.due y) (has_answer result) (merge_state merge.old home.old store.old) (merge_state merge.new home.new store.new) }
    ensures ahead { (x : Pos) → AheadOfBoth A.ahead B.ahead merge.old x → AheadOfBoth A.ahead B.ahead merge.new x }
    ensures due { IsDueAhead A.ahead B.ahead merge.new }
    ensures ready { BothReady A.ready B.ready merge.new home.new store.new }
    ensures moves { Moved A.moves B.moves home.old store.old home.new store.new }
    ensures damage { Blames (SpotsOfBoth A.damage B.damage merge.old) (SpotsOfBoth A.damage B.damage merge.new) result }
    ensures cause { Caused result (W.files store.old) (W.faults store.old) (W.faults store.new) }
    ensures store { HoldsSameFiles W.files W.building store.old store.new }
{
    match merge.due.take() {
        None => Ok(()),
        Some(to) => match go_on_in_both(alloc, merge, home, store, &to) {
            Ok(()) => Ok(()),
            Err(error) => {
                merge.due = Some(to);
                Err(error)
            }
        },
    }
}

// The heads of both as one.
fn head_of_both<H, W: Store, A: Frags<H, W>, B: Frags<H, W>>(
    alloc: Global,
    merge: &mut Merge<A, B>,
    home: &mut H,
    store: &mut W,
) -> Result<Head, StreamErr>
    requires ready { BothReady A.ready B.ready merge.old home.old store.old }
    requires keeps { KeepEachOther A.ready A.seen A.moves B.ready B.seen B.moves }
    ensures head { (m : Stream) → HoldBoth A.seen B.seen merge.old home.old store.old m → IfOk result (λ head. head ≡ m.head) }
    ensures shown { BothFresh A.fresh B.fresh merge.old → IfOk result (ShowsOne (MightBoth A.might B.might merge.old) (HoldBoth A.seen B.seen merge.new home.new store.new)) }
    ensures fresh { BothFresh A.fresh B.fresh merge.old → BothFresh A.fresh B.fresh merge.new }
    ensures might { (m : Stream) → MightBoth A.might B.might merge.new m → MightBoth A.might B.might merge.old m }
    ensures seen { (m : Stream) → HoldBoth A.seen B.seen merge.old home.old store.old m → HoldBoth A.seen B.seen merge.new home.new store.new m }
    ensures did { HeadsOnce A.did B.did (has_answer result) (merge_state merge.old home.old store.old) (merge_state merge.new home.new store.new) }
    ensures ahead { (x : Pos) → MaySeekBoth A.ahead B.ahead merge.old x → MaySeekBoth A.ahead B.ahead merge.new x }
    ensures ready { BothReady A.ready B.ready merge.new home.new store.new }
    ensures due { merge.new.due ≡ merge.old.due }
    ensures moves { Moved A.moves B.moves home.old store.old home.new store.new }
    ensures damage { Blames (SpotsOfBoth A.damage B.damage merge.old) (SpotsOfBoth A.damage B.damage merge.new) result }
    ensures cause { Caused result (W.files store.old) (W.faults store.old) (W.faults store.new) }
    ensures store { HoldsSameFiles W.files W.building store.old store.new }
{
    match merge.ours.stream.head(alloc, home, store) {
        Ok(head) => match merge.theirs.stream.head(alloc, home, store) {
            Ok(other) => match joined_head(alloc, head, &other) {
                Ok(joined) => Ok(joined),
                Err(_) => Err(StreamErr::NoMemory),
            },
            Err(error) => Err(error),
        },
        Err(error) => Err(error),
    }
}

// Two heads as one.
fn joined_head(alloc: Global, head: Head, other: &Head) -> Result<Head, AllocError>
    ensures { IfOk result (λ h. h ≡ joined_head head other.now) }
{
    let statics = joined_row(alloc, head.statics, &other.statics)?;
    Ok(Head {
        pt: greater_tomb(head.pt, other.pt),
        statics,
    })
}

impl<H, W: Store, A: Frags<H, W>, B: Frags<H, W>> Frags<H, W> for Merge<A, B> {
    ghost use Rattle.rc_stream.specs.Both.{AheadOfBoth, BothFresh, MightBoth, SoughtBoth, SpotsOfBoth};
    ghost use Rattle.rc_stream.specs.calls.Both.{BothReady, IsDueAhead, KeepEachOther};
    ghost use Rattle.rc_stream.specs.Did.{merge_did};
    ghost use Rattle.rc_stream.specs.Moving.{Moved};

    ghost ready = { λ m home store.
        BothReady A.ready B.ready m home store
        × KeepEachOther A.ready A.seen A.moves B.ready B.seen B.moves
        × IsDueAhead A.ahead B.ahead m };

    ghost seen = { λ m home store s. SoughtBoth A.seen B.seen m home store s };

    ghost ahead = { λ m x. AheadOfBoth A.ahead B.ahead m x };

    ghost moves = { λ home store home' store'. Moved A.moves B.moves home store home' store' };

    // its parts were called, one call after another
    ghost did = { λ m home store c ok m' home' store'. merge_did A.did B.did m home store c ok m' home' store' };

    ghost fresh = { λ m. BothFresh A.fresh B.fresh m };

    ghost might = { λ m s. MightBoth A.might B.might m s };

    ghost damage = { λ m file offset. SpotsOfBoth A.damage B.damage m file offset };

    fn head(&mut self, alloc: Global, home: &mut H, store: &mut W) -> Result<Head, StreamErr> {
        head_of_both(alloc, self, home, store)
    }

    fn seek(
        &mut self,
        alloc: Global,
        _home: &mut H,
        _store: &mut W,
        to: &Pos,
    ) -> Result<(), StreamErr> {
        match to.copy(alloc) {
            Ok(to) => {
                self.due = Some(to);
                Ok(())
            }
            Err(_) => Err(StreamErr::NoMemory),
        }
    }

    fn next(
        &mut self,
        alloc: Global,
        home: &mut H,
        store: &mut W,
        upto: &Pos,
    ) -> Result<Option<Frag>, StreamErr> {
        match settle(alloc, self, home, store) {
            Ok(()) => next_of_both(alloc, self, home, store, upto),
            Err(error) => Err(error),
        }
    }
}
