// A partition as a stream.
ghost use Rattle.std.specs.Prelude.{◌≡◌, IfOk, IfSome, IsTrue, OnOk, OnErr};
ghost use Rattle.rc_outside.specs.Files.{HoldsSameFiles};

use rc_mutation::{Frag, Head};
use rc_outside::Store;
use rc_position::Pos;
use std::alloc::{AllocError, Global};
use thiserror::Error;

/// Why a call of a stream was refused.
#[derive(Debug, Drop, Error)]
pub enum StreamErr {
    /// The store failed, and its count of faults rose.
    #[error("a call to the store failed")]
    Fault,
    /// The bytes of a file contradict the file as it was checked or written: its number, and where in it, in bytes.
    #[error("file {file} is damaged at {offset}")]
    Damaged { file: u32, offset: u64 },
    /// Memory was refused.
    #[error("out of memory")]
    NoMemory,
}

impl From<AllocError> for StreamErr {
    fn from(_error: AllocError) -> Self
        ensures { result ≡ StreamErr.NoMemory }
    {
        StreamErr::NoMemory
    }
}

/// A stream of one partition over a home `H`, where what it reads may be kept, and a store `W`. A contract sees the stream
/// that it stands for over them: the head of the partition and the rows and changes that are left. Over a store that does
/// not tell its files it may stand for none as yet. Once its head was answered, at its beginning, it stands over any store for one stream
/// that is in order, of those that it might stand for (`shown`), and all that is said of the stream it stands for holds of that one. Each
/// call needs that the stream is ready over the home and the store handed in, and keeps it.
pub trait Frags<H, W: Store> {
    ghost use Rattle.std.specs.Prelude.{◌≡◌, ℕ, Bool};
    ghost use Rattle.rc_position.specs.declared.positions.Pos.{Pos};
    ghost use Rattle.rc_stream.specs.Leaving.{left_by, sought_by};
    ghost use Rattle.rc_stream.specs.Did.{Call, ReachesEnd, has_answer, Call.OfHead, Call.OfNext, Call.OfSeek};
    ghost use Rattle.rc_stream.specs.Causes.{Caused};
    ghost use Rattle.rc_stream.specs.Stream.{Stream, first_upto, is_upto};
    ghost use Rattle.rc_stream.specs.Places.{Passes, Reaches};
    ghost use Rattle.rc_stream.specs.Showing.{Blames, ShowsOne};

    // its calls may be made over this home and this store
    ghost ready: { Self → H → W → Type 0 };

    // over this home and this store it stands for this stream, from its place on
    ghost seen: { Self → H → W → Stream → Type 0 };

    // the positions that are not before its place
    ghost ahead: { Self → Pos → Type 0 };

    // what a call may make of a home and a store: another home and another store
    ghost moves: { H → W → H → W → Type 0 };

    // what a call, answered or refused, does to a stream, its home and its store
    ghost did: { Self → H → W → Call → Bool → Self → H → W → Type 0 };

    // it is at its beginning, and made of streams in order
    ghost fresh: { Self → Type 0 };

    // the streams of which it turns out to stand for one, whatever the store holds
    ghost might: { Self → Stream → Type 0 };

    // the files and the offsets in them that its calls may name as damaged
    ghost damage: { Self → ℕ → ℕ → Type 0 };

    /// The head of the partition. The stream is as before. `StreamErr::Fault` when the store fails,
    /// `StreamErr::Damaged` when bytes of a file contradict it, `StreamErr::NoMemory` when memory is refused.
    fn head(&mut self, alloc: Global, home: &mut H, store: &mut W) -> Result<Head, StreamErr>
        requires { ready self.old home.old store.old }
        ensures head { (s : Stream) → seen self.old home.old store.old s → IfOk result (λ head. head ≡ s.head) }
        ensures shown { fresh self.old → IfOk result (ShowsOne (might self.old) (seen self.new home.new store.new)) }
        ensures fresh { fresh self.old → fresh self.new }
        ensures might { (s : Stream) → might self.new s → might self.old s }
        ensures seen { (s : Stream) → seen self.old home.old store.old s → seen self.new home.new store.new s }
        ensures ahead { (x : Pos) → ahead self.old x → ahead self.new x }
        ensures ready { ready self.new home.new store.new }
        ensures moves { moves home.old store.old home.new store.new }
        ensures did { did self.old home.old store.old OfHead (has_answer result) self.new home.new store.new }
        ensures damage { Blames (damage self.old) (damage self.new) result }
        ensures cause { Caused result (W.files store.old) (W.faults store.old) (W.faults store.new) }
        ensures store { HoldsSameFiles W.files W.building store.old store.new };

    /// Goes on to a position that is not before its place: the first is then a change there where a tombstone is in force
    /// there. `StreamErr::Fault` when the store fails, `StreamErr::Damaged` when bytes of a file contradict it,
    /// `StreamErr::NoMemory` when memory is refused: then the stream is as it was.
    fn seek(
        &mut self,
        alloc: Global,
        home: &mut H,
        store: &mut W,
        to: &Pos,
    ) -> Result<(), StreamErr>
        requires ready { ready self.old home.old store.old }
        requires ahead { ahead self.old to.now }
        ensures seen { (s : Stream) → seen self.old home.old store.old s → seen self.new home.new store.new (sought_by result to.now s) }
        ensures ahead { OnOk result ((x : Pos) → Reaches to.now x → ahead self.new x) }
        ensures kept { OnErr result ((x : Pos) → ahead self.old x → ahead self.new x) }
        ensures ready { ready self.new home.new store.new }
        ensures moves { moves home.old store.old home.new store.new }
        ensures did { did self.old home.old store.old (OfSeek to.now) (has_answer result) self.new home.new store.new }
        ensures damage { Blames (damage self.old) (damage self.new) result }
        ensures cause { Caused result (W.files store.old) (W.faults store.old) (W.faults store.new) }
        ensures store { HoldsSameFiles W.files W.building store.old store.new };

    /// Takes the first row or change that is left and gives it, if it stands at `upto` or before it; none exactly where
    /// no such stands there, and then the stream is as before. `StreamErr::Fault` when the store fails,
    /// `StreamErr::Damaged` when bytes of a file contradict it, `StreamErr::NoMemory` when memory is refused: then the
    /// stream is as it was.
    fn next(
        &mut self,
        alloc: Global,
        home: &mut H,
        store: &mut W,
        upto: &Pos,
    ) -> Result<Option<Frag>, StreamErr>
        requires { ready self.old home.old store.old }
        ensures gives { (s : Stream) → seen self.old home.old store.old s → IfOk result (λ got. got ≡ first_upto upto.now s.left) }
        ensures upto { IfOk result (λ got. IfSome got (λ f. IsTrue (is_upto upto.now f))) }
        ensures seen { (s : Stream) → seen self.old home.old store.old s → seen self.new home.new store.new (left_by result s) }
        ensures ahead { (x : Pos) → Passes result x → ahead self.old x → ahead self.new x }
        ensures ready { ready self.new home.new store.new }
        ensures moves { moves home.old store.old home.new store.new }
        ensures did { (y : Pos) → ReachesEnd (seen self.old home.old store.old) upto.now y → did self.old home.old store.old (OfNext y) (has_answer result) self.new home.new store.new }
        ensures damage { Blames (damage self.old) (damage self.new) result }
        ensures cause { Caused result (W.files store.old) (W.faults store.old) (W.faults store.new) }
        ensures store { HoldsSameFiles W.files W.building store.old store.new };
}
