// A stream, where there is one.

use rc_cell::Row;
use rc_mutation::{Frag, Head};
use rc_outside::Store;
use rc_position::Pos;
use rc_stream::{Frags, StreamErr};
use std::alloc::Global;

/// A stream of a partition, where there is one; else one of nothing. Its calls are those of the stream, and leave home and store as they are where there is none.
pub struct Optional<A> {
    pub(crate) stream: Option<A>,
}

impl<H, W: Store, A: Frags<H, W>> Frags<H, W> for Optional<A> {
    ghost use Rattle.std.specs.Prelude.{◌≡◌, IfSome, MatchOption, Option};
    ghost use Rattle.rc_stream.specs.Moving.{Once};
    ghost use Rattle.rc_opened.specs.Written.{nothing_said};
    ghost use Rattle.rc_paging.specs.Optional.{DidIfAny};

    ghost ready = { λ r home store. IfSome r.stream (λ a. A.ready a home store) };

    ghost seen = { λ r home store s. MatchOption r.stream (s ≡ nothing_said) (λ a. A.seen a home store s) };

    ghost ahead = { λ r x. IfSome r.stream (λ a. A.ahead a x) };

    ghost moves = { λ home store home' store'. Once A.moves home store home' store' };

    ghost did = { λ r home store c ok r' home' store'. DidIfAny A.did r home store c ok r' home' store' };

    ghost fresh = { λ _. ⊥ };

    ghost might = { λ _ _. ⊥ };

    ghost damage = { λ r file offset. MatchOption r.stream ⊥ (λ a. A.damage a file offset) };

    fn head(&mut self, alloc: Global, home: &mut H, store: &mut W) -> Result<Head, StreamErr> {
        match &mut self.stream {
            None => Ok(Head {
                pt: None,
                statics: Row::empty(alloc),
            }),
            Some(stream) => stream.head(alloc, home, store),
        }
    }

    fn seek(
        &mut self,
        alloc: Global,
        home: &mut H,
        store: &mut W,
        to: &Pos,
    ) -> Result<(), StreamErr> {
        match &mut self.stream {
            None => Ok(()),
            Some(stream) => stream.seek(alloc, home, store, to),
        }
    }

    fn next(
        &mut self,
        alloc: Global,
        home: &mut H,
        store: &mut W,
        upto: &Pos,
    ) -> Result<Option<Frag>, StreamErr> {
        match &mut self.stream {
            None => Ok(None),
            Some(stream) => stream.next(alloc, home, store, upto),
        }
    }
}
