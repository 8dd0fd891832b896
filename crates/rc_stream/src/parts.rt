// One of two streams that are merged, with what is held of it.
ghost use Rattle.std.specs.Prelude.{◌≡◌, [], None, OnOk};
ghost use Rattle.rc_outside.specs.Files.{HoldsSameFiles};
ghost use Rattle.rc_position.specs.declared.positions.Pos.{Pos};
ghost use Rattle.rc_stream.specs.calls.Both.{IsLookedUpto};
ghost use Rattle.rc_stream.specs.Leaving.{sought_by};
ghost use Rattle.rc_stream.specs.Causes.{Caused};
ghost use Rattle.rc_stream.specs.Holding.{held_fragments};
ghost use Rattle.rc_stream.specs.Did.{ReachesEnd, has_answer, Call.OfNext, Call.OfSeek};
ghost use Rattle.rc_stream.specs.calls.Did.{OnceDid};
ghost use Rattle.rc_stream.specs.Moving.{Holds, MaySeek, Once, unpeeked_stream};
ghost use Rattle.rc_stream.specs.Showing.{Blames};
ghost use Rattle.rc_stream.specs.Stream.{Stream};

use crate::holding::Held;
use crate::streams::{Frags, StreamErr};
use rc_outside::Store;
use rc_position::Pos;
use std::alloc::Global;

/// A stream, with what was looked at of it and not given.
#[derive(Drop)]
pub(crate) struct Peeked<A> {
    /// What is left of it.
    pub(crate) stream: A,
    /// What comes before that.
    pub(crate) held: Held,
}

impl<A> Peeked<A> {
    /// The stream, of which nothing is held.
    pub(crate) fn new(stream: A) -> Self
        ensures { result ≡ unpeeked_stream stream }
    {
        Peeked {
            stream,
            held: Held::empty(),
        }
    }

    /// The stream, as it is, without what is held of it.
    pub(crate) fn into_stream(self) -> A
        ensures { result ≡ self.stream }
    {
        let Peeked { stream, held: _ } = self;
        stream
    }
}

// Looks at the next of a stream up to a position, where nothing is held of it.
pub(crate) fn look_ahead<H, W: Store, A: Frags<H, W>>(
    alloc: Global,
    part: &mut Peeked<A>,
    home: &mut H,
    store: &mut W,
    upto: &Pos,
) -> Result<(), StreamErr>
    requires { A.ready part.old.stream home.old store.old }
    ensures holds { (t : Stream) → Holds A.seen part.old home.old store.old t → Holds A.seen part.new home.new store.new t }
    ensures did { (y : Pos) → (held_fragments part.old.held ≡ [] → ReachesEnd (A.seen part.old.stream home.old store.old) upto.now y) → OnceDid A.did part.old.stream home.old store.old (OfNext y) (has_answer result) part.new.stream home.new store.new }
    ensures known { OnOk result ((t : Stream) → Holds A.seen part.old home.old store.old t → IsLookedUpto part.new.held upto.now t) }
    ensures ahead { (x : Pos) → MaySeek A.ahead part.old x → MaySeek A.ahead part.new x }
    ensures ready { A.ready part.new.stream home.new store.new }
    ensures moves { Once A.moves home.old store.old home.new store.new }
    ensures damage { Blames (A.damage part.old.stream) (A.damage part.new.stream) result }
    ensures cause { Caused result (W.files store.old) (W.faults store.old) (W.faults store.new) }
    ensures store { HoldsSameFiles W.files W.building store.old store.new }
{
    if !part.held.is_empty() {
        return Ok(());
    }
    match part.stream.next(alloc, home, store, upto) {
        Ok(got) => {
            part.held.hold(got);
            Ok(())
        }
        Err(error) => Err(error),
    }
}

// Goes on to a position, in what is held or in the stream.
pub(crate) fn go_on<H, W: Store, A: Frags<H, W>>(
    alloc: Global,
    part: &mut Peeked<A>,
    home: &mut H,
    store: &mut W,
    to: &Pos,
) -> Result<(), StreamErr>
    requires ready { A.ready part.old.stream home.old store.old }
    requires ahead { MaySeek A.ahead part.old to.now }
    ensures holds { (t : Stream) → Holds A.seen part.old home.old store.old t → Holds A.seen part.new home.new store.new (sought_by result to.now t) }
    ensures did { OnceDid A.did part.old.stream home.old store.old (OfSeek to.now) (has_answer result) part.new.stream home.new store.new }
    ensures ahead { MaySeek A.ahead part.new to.now }
    ensures ready { A.ready part.new.stream home.new store.new }
    ensures moves { Once A.moves home.old store.old home.new store.new }
    ensures damage { Blames (A.damage part.old.stream) (A.damage part.new.stream) result }
    ensures cause { Caused result (W.files store.old) (W.faults store.old) (W.faults store.new) }
    ensures store { HoldsSameFiles W.files W.building store.old store.new }
{
    match part.held.go_on(alloc, to) {
        Ok(false) => Ok(()),
        Ok(true) => match part.stream.seek(alloc, home, store, to) {
            Ok(()) => {
                part.held.clear();
                Ok(())
            }
            Err(error) => Err(error),
        },
        Err(_) => Err(StreamErr::NoMemory),
    }
}
