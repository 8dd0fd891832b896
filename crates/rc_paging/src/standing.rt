// Where what the parts of a stream stand for stays, what it stands for does.
ghost use Rattle.std.specs.Prelude.{◌≡◌, Some};
ghost use Rattle.rc_memory.specs.Memory.{Memory};
ghost use Rattle.rc_stream.specs.Stream.{Stream};
ghost use Rattle.rc_snapshots.specs.Seeing.{StillSees};
ghost use Rattle.rc_paging.specs.declared.memtables.MemtableStream.{MemtableStream as OfMemtable};
ghost use Rattle.rc_paging.specs.calls.Standing.{OfMemtables, StillSeesIn};

use crate::memtables::MemtableStream;
use crate::optional::Optional;
use rc_chain::Chains;
use rc_outside::Store;
use rc_snapshots::laws::a_snapshots_stream_stays;
use rc_stream::{Frags, Merge};

// Over another home and another store a stream that may be is ready, and stands for what it stood for, where the stream that there is does.
pub(crate) fn a_stream_that_may_be_stays<H, W: Store, A: Frags<H, W>>()
    ensures ready { (r : Optional A) (h k : H) (w v : W) → ((a : A) → r.stream ≡ Some a → A.ready a h w → A.ready a k v) → ⟦<Optional<A> as Frags<H, W>>⟧.ready r h w → ⟦<Optional<A> as Frags<H, W>>⟧.ready r k v }
    ensures seen { (r : Optional A) (h k : H) (w v : W) (s : Stream) → ((a : A) → r.stream ≡ Some a → A.seen a h w s → A.seen a k v s) → ⟦<Optional<A> as Frags<H, W>>⟧.seen r h w s → ⟦<Optional<A> as Frags<H, W>>⟧.seen r k v s }
{}

// Over another home and another store a merge is ready, and stands for what it stood for, where both of its parts do.
pub(crate) fn a_merge_stays<H, W: Store, A: Frags<H, W>, B: Frags<H, W>>()
    ensures ready { (m : Merge A B) (h k : H) (w v : W) → (A.ready m.ours.stream h w → A.ready m.ours.stream k v) → (B.ready m.theirs.stream h w → B.ready m.theirs.stream k v) →
        ⟦<Merge<A, B> as Frags<H, W>>⟧.ready m h w → ⟦<Merge<A, B> as Frags<H, W>>⟧.ready m k v }
    ensures seen { (m : Merge A B) (h k : H) (w v : W) (s : Stream) → ((t : Stream) → A.seen m.ours.stream h w t → A.seen m.ours.stream k v t) → ((t : Stream) → B.seen m.theirs.stream h w t → B.seen m.theirs.stream k v t) →
        ⟦<Merge<A, B> as Frags<H, W>>⟧.seen m h w s → ⟦<Merge<A, B> as Frags<H, W>>⟧.seen m k v s }
{}

// A memtable's stream is ready, and stands for what it stood for, where its snapshot sees what it saw.
pub(crate) fn a_memtables_stream_stays<const S: usize, W: Store>()
    ensures ready { (r : OfMemtable) (m n : Memory) (w v : W) → StillSees r.stream.known.snap m n → ⟦<MemtableStream as Frags<Chains<S>, W>>⟧.ready r m w → ⟦<MemtableStream as Frags<Chains<S>, W>>⟧.ready r n v }
    ensures seen { (r : OfMemtable) (m n : Memory) (w v : W) (s : Stream) → StillSees r.stream.known.snap m n → ⟦<MemtableStream as Frags<Chains<S>, W>>⟧.seen r m w s → ⟦<MemtableStream as Frags<Chains<S>, W>>⟧.seen r n v s }
{
    a_snapshots_stream_stays::<S, W>();
}

// What both memtables have is ready, and stands for what it stood for, where their snapshots see what they saw.
pub(crate) fn what_memtables_have_stays<const S: usize, W: Store>()
    ensures ready { (t : OfMemtables) (m n : Memory) (w v : W) → StillSeesIn m n t.ours.stream.stream → StillSeesIn m n t.theirs.stream.stream →
        ⟦<Merge<Optional<MemtableStream>, Optional<MemtableStream>> as Frags<Chains<S>, W>>⟧.ready t m w → ⟦<Merge<Optional<MemtableStream>, Optional<MemtableStream>> as Frags<Chains<S>, W>>⟧.ready t n v }
    ensures seen { (t : OfMemtables) (m n : Memory) (w v : W) (s : Stream) → StillSeesIn m n t.ours.stream.stream → StillSeesIn m n t.theirs.stream.stream →
        ⟦<Merge<Optional<MemtableStream>, Optional<MemtableStream>> as Frags<Chains<S>, W>>⟧.seen t m w s → ⟦<Merge<Optional<MemtableStream>, Optional<MemtableStream>> as Frags<Chains<S>, W>>⟧.seen t n v s }
{
    a_memtables_stream_stays::<S, W>();
    a_stream_that_may_be_stays::<Chains<S>, W, MemtableStream>();
    a_merge_stays::<Chains<S>, W, Optional<MemtableStream>, Optional<MemtableStream>>();
}

// What is the same stream is ready alike.
pub(crate) fn the_same_is_ready<H, W: Store, A: Frags<H, W>>()
    ensures { (a b : A) (h : H) (w : W) → b ≡ a → A.ready a h w → A.ready b h w }
{}
