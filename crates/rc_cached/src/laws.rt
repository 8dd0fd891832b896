//! The laws of the streams of the row cache, each the contract of a function that does nothing.
ghost use Rattle.std.specs.Prelude.{◌≡◌, ◌≤◌, ◌⊎◌, [], ◌∷◌, Bool, true, IsSome, List, None};
ghost use Rattle.rc_position.specs.declared.positions.Pos.{Pos};
ghost use Rattle.rc_mutation.specs.declared.mutations.Mutation.{Mutation};
ghost use Rattle.rc_mutation.specs.Fragments.{fragments};
ghost use Rattle.rc_mutation.specs.Source.{IsMutation, SameSource};
ghost use Rattle.rc_memory.specs.Memory.{Memory};
ghost use Rattle.rc_chain.specs.declared.chains.Snap.{Snap as Snapshot};
ghost use Rattle.rc_populate.specs.Filling.{MayFill};
ghost use Rattle.rc_stream.specs.Did.{Call};
ghost use Rattle.rc_stream.specs.Snapshot.{NoneLost, There};
ghost use Rattle.rc_stream.specs.Stream.{Stream, stream_of};
ghost use Rattle.rc_cursor.specs.Snapshots.{IsHeadSeen, Knows};
ghost use Rattle.rc_cacheread.specs.Did.{IsFilledFor, IsKnownFor};
ghost use Rattle.rc_cacheread.specs.Sharing.{IsAllKnown};
ghost use Rattle.rc_cacheread.specs.Spots.{stand};
ghost use Rattle.rc_filler.specs.Fillers.{IsFillerReady, losses};
ghost use Rattle.rc_filler.specs.Stands.{StandsForWrites};
ghost use Rattle.rc_cached.specs.declared.readings.Readings.{Readings as Read};
ghost use Rattle.rc_cached.specs.Leaving.{LeavesChains};
ghost use Rattle.rc_cached.specs.Streams.{IsNewCached, IsOfCached, IsRestOf, OfCache, SayBelow, StillKnows, StillSays, filler_for, read_below};

use crate::fillers::StreamFiller;
use crate::readings::Readings;
use crate::underlying::Underlying;
use rc_cacheread::CacheReader;
use rc_chain::Chains;
use rc_cursor::SnapshotReader;
use rc_filler::laws::{
    a_fill_keeps_the_static_row_known, a_fill_spares_memtables_and_readers,
    a_fill_takes_no_segment, a_snapshot_knows_the_writes_it_stands_for,
};
use rc_snapshots::laws::a_mutations_stream_reads_it;
use rc_stream::Frags;
use rc_stream::laws::the_stream_of_a_mutation;
use rc_writes::laws::what_says_the_same_fits;

/// Where a snapshot can be filled and stands for writes, a new stream of it is ready over readings that say what these say, of nothing read or of what was, and stands for the stream of each mutation that says the same.
pub fn a_cached_stream_says_what_lies_below<const S: usize>()
    ensures ready { (s : Snapshot) (r : OfCache) (m : Memory) (w : Read) (writes : List Mutation) → IsNewCached s r → IsFillerReady S (filler_for s).filler m → StandsForWrites S m s.chain s.pin writes → SayBelow writes w →
        ⟦<CacheReader<SnapshotReader, Underlying, StreamFiller> as Frags<Chains<S>, Readings>>⟧.ready r m w }
    ensures seen { (s : Snapshot) (r : OfCache) (m : Memory) (w : Read) (writes : List Mutation) → IsNewCached s r → StandsForWrites S m s.chain s.pin writes → SayBelow writes w →
        (said : Mutation) → IsMutation said → SameSource (said ∷ []) writes → ⟦<CacheReader<SnapshotReader, Underlying, StreamFiller> as Frags<Chains<S>, Readings>>⟧.seen r m w (stream_of (fragments said)) }
    ensures made { (s : Snapshot) (r : OfCache) → IsNewCached s r → IsOfCached s r }
{
    a_snapshot_knows_the_writes_it_stands_for();
    a_fill_keeps_the_static_row_known();
    the_stream_of_a_mutation();
    what_says_the_same_fits();
    a_mutations_stream_reads_it();
}

/// Over other chains and other readings, where its snapshot can be filled and stands for writes, and what is left below says what these say, a cached stream is ready as before. Where something was read, and is there still, and its snapshot stood for the writes before, it stands for what it stood for; so it may be held while others fill and evict. Over nothing read it does where its snapshot stands for all writes for which it stood, as after evictions. It stands for what the writes leave to it; and where something was read, for nothing else.
pub fn a_cached_stream_stays<const S: usize>()
    ensures ready { (s : Snapshot) (r : OfCache) (m n : Memory) (w v : Read) (writes : List Mutation) → IsOfCached s r → IsFillerReady S (filler_for s).filler n → StandsForWrites S n s.chain s.pin writes → StillSays writes v r →
        ⟦<CacheReader<SnapshotReader, Underlying, StreamFiller> as Frags<Chains<S>, Readings>>⟧.ready r m w → ⟦<CacheReader<SnapshotReader, Underlying, StreamFiller> as Frags<Chains<S>, Readings>>⟧.ready r n v }
    ensures seen { (s : Snapshot) (r : OfCache) (m n : Memory) (w v : Read) (writes : List Mutation) → IsOfCached s r → StandsForWrites S m s.chain s.pin writes → StandsForWrites S n s.chain s.pin writes → StillSays writes w r → IsSome (read_below r w) → read_below r v ≡ read_below r w →
        (t : Stream) → ⟦<CacheReader<SnapshotReader, Underlying, StreamFiller> as Frags<Chains<S>, Readings>>⟧.seen r m w t → ⟦<CacheReader<SnapshotReader, Underlying, StreamFiller> as Frags<Chains<S>, Readings>>⟧.seen r n v t }
    ensures unread { (s : Snapshot) (r : OfCache) (m n : Memory) (w v : Read) (others : List Mutation) → IsOfCached s r → ((writes : List Mutation) → StandsForWrites S m s.chain s.pin writes → StandsForWrites S n s.chain s.pin writes) → StillSays others w r → read_below r w ≡ None → read_below r v ≡ None →
        (t : Stream) → ⟦<CacheReader<SnapshotReader, Underlying, StreamFiller> as Frags<Chains<S>, Readings>>⟧.seen r m w t → ⟦<CacheReader<SnapshotReader, Underlying, StreamFiller> as Frags<Chains<S>, Readings>>⟧.seen r n v t }
    ensures left { (s : Snapshot) (r : OfCache) (n : Memory) (v : Read) (writes : List Mutation) (t : Stream) → IsOfCached s r → StandsForWrites S n s.chain s.pin writes → StillSays writes v r →
        IsRestOf writes r t → ⟦<CacheReader<SnapshotReader, Underlying, StreamFiller> as Frags<Chains<S>, Readings>>⟧.seen r n v t }
    ensures rest { (s : Snapshot) (r : OfCache) (m : Memory) (w : Read) (writes : List Mutation) (t : Stream) → IsOfCached s r → StandsForWrites S m s.chain s.pin writes → StillSays writes w r → IsSome (read_below r w) →
        ⟦<CacheReader<SnapshotReader, Underlying, StreamFiller> as Frags<Chains<S>, Readings>>⟧.seen r m w t → IsRestOf writes r t }
{
    a_snapshot_knows_the_writes_it_stands_for();
    a_fill_keeps_the_static_row_known();
}

/// What is left below a cached stream says what writes say as the stream is made, and where it is read once it was missed. Where it does, the snapshot stands after a call for these writes still, as what is filled is what they say; and what is left says so still, unless all that is left to be read is known.
pub fn what_is_below_still_says<const S: usize>()
    ensures made { (s : Snapshot) (r : OfCache) (m : Memory) (w : Read) (writes : List Mutation) → IsNewCached s r → StandsForWrites S m s.chain s.pin writes → SayBelow writes w →
        StillSays writes w r × ((said : Mutation) → IsMutation said → SameSource (said ∷ []) writes → IsRestOf writes r (stream_of (fragments said))) }
    ensures handed { (s : Snapshot) (r : OfCache) (m : Memory) (w v : Read) (writes others : List Mutation) → StandsForWrites S m s.chain s.pin writes → read_below r w ≡ None → StillSays others w r → SayBelow writes v → StillSays writes v r }
    ensures stands { (s : Snapshot) (r : OfCache) (m : Memory) (w : Read) (c : Call) (ok : Bool) (t : OfCache) (n : Memory) (v : Read) (writes : List Mutation) → IsOfCached s r → StandsForWrites S m s.chain s.pin writes → StillSays writes w r →
        ⟦<CacheReader<SnapshotReader, Underlying, StreamFiller> as Frags<Chains<S>, Readings>>⟧.did r m w c ok t n v → StandsForWrites S n s.chain s.pin writes }
    ensures kept { (s : Snapshot) (r : OfCache) (m : Memory) (w : Read) (c : Call) (ok : Bool) (t : OfCache) (n : Memory) (v : Read) (writes : List Mutation) (left : Stream) → IsOfCached s r → StandsForWrites S m s.chain s.pin writes → StillSays writes w r →
        ⟦<CacheReader<SnapshotReader, Underlying, StreamFiller> as Frags<Chains<S>, Readings>>⟧.did r m w c ok t n v → ⟦<CacheReader<SnapshotReader, Underlying, StreamFiller> as Frags<Chains<S>, Readings>>⟧.seen t n v left → IsAllKnown (Knows n s) (IsHeadSeen n s) (stand t.spot) t.to ⊎ StillSays writes v t }
{
    a_snapshot_knows_the_writes_it_stands_for();
    a_fill_keeps_the_static_row_known();
    a_cached_stream_leaves_what_others_see::<S>();
    the_stream_of_a_mutation();
    what_says_the_same_fits();
    a_mutations_stream_reads_it();
}

/// Where its snapshot can be filled over other chains, stands there for all writes for which it stood, and knows what it knew, and the same was read, a cached stream is ready as before, and stands for what it stood for.
pub fn a_cached_stream_stays_where_nothing_is_lost<const S: usize>()
    ensures ready { (s : Snapshot) (r : OfCache) (m n : Memory) (w v : Read) → IsOfCached s r → IsFillerReady S (filler_for s).filler n → ((writes : List Mutation) → StandsForWrites S m s.chain s.pin writes → StandsForWrites S n s.chain s.pin writes) → StillKnows s m n → read_below r v ≡ read_below r w →
        ⟦<CacheReader<SnapshotReader, Underlying, StreamFiller> as Frags<Chains<S>, Readings>>⟧.ready r m w → ⟦<CacheReader<SnapshotReader, Underlying, StreamFiller> as Frags<Chains<S>, Readings>>⟧.ready r n v }
    ensures seen { (s : Snapshot) (r : OfCache) (m n : Memory) (w v : Read) → IsOfCached s r → ((writes : List Mutation) → StandsForWrites S m s.chain s.pin writes → StandsForWrites S n s.chain s.pin writes) → StillKnows s m n → read_below r v ≡ read_below r w →
        (t : Stream) → ⟦<CacheReader<SnapshotReader, Underlying, StreamFiller> as Frags<Chains<S>, Readings>>⟧.seen r m w t → ⟦<CacheReader<SnapshotReader, Underlying, StreamFiller> as Frags<Chains<S>, Readings>>⟧.seen r n v t }
{
    a_snapshot_knows_the_writes_it_stands_for();
    a_fill_keeps_the_static_row_known();
}

/// The calls of a cached stream leave the memtables' snapshots, which see what they saw, and each snapshot that was there, with its chain; it is still the stream of its snapshot.
pub fn a_cached_stream_leaves_what_others_see<const S: usize>()
    ensures moves { (m : Memory) (w : Read) (n : Memory) (v : Read) → ⟦<CacheReader<SnapshotReader, Underlying, StreamFiller> as Frags<Chains<S>, Readings>>⟧.moves m w n v → LeavesChains m n × (v.begun ≡ w.begun) }
    ensures did { (r : OfCache) (m : Memory) (w : Read) (c : Call) (ok : Bool) (t : OfCache) (n : Memory) (v : Read) → ⟦<CacheReader<SnapshotReader, Underlying, StreamFiller> as Frags<Chains<S>, Readings>>⟧.did r m w c ok t n v →
        LeavesChains m n × (v.begun ≡ w.begun) × ((s : Snapshot) → IsOfCached s r → IsOfCached s t) }
{
    a_fill_spares_memtables_and_readers();
    a_fill_takes_no_segment();
}

/// A call over what is known to its snapshot leaves chains, readings and what is below a cached stream as they were. Where something was read, a call misses nothing, and it is there still; what was answered missed nothing; and where nothing was read, nothing is there afterwards, and nothing was filled: the chains are as they were.
pub fn a_cached_stream_misses_only_what_is_not_known<const S: usize>()
    ensures known { (r : OfCache) (m : Memory) (w : Read) (c : Call) (ok : Bool) (t : OfCache) (n : Memory) (v : Read) → ⟦<CacheReader<SnapshotReader, Underlying, StreamFiller> as Frags<Chains<S>, Readings>>⟧.did r m w c ok t n v →
        IsKnownFor c (Knows m r.known.snap) (IsHeadSeen m r.known.snap) (stand r.spot) r.to → (n ≡ m) × (v ≡ w) × (t.below ≡ r.below) × IsKnownFor c (Knows n t.known.snap) (IsHeadSeen n t.known.snap) (stand t.spot) t.to }
    ensures handed { (r : OfCache) (m : Memory) (w : Read) (c : Call) (ok : Bool) (t : OfCache) (n : Memory) (v : Read) → ⟦<CacheReader<SnapshotReader, Underlying, StreamFiller> as Frags<Chains<S>, Readings>>⟧.did r m w c ok t n v →
        IsSome (read_below r w) → (v.missed ≡ w.missed) × IsSome (read_below t v) }
    ensures answered { (r : OfCache) (m : Memory) (w : Read) (c : Call) (t : OfCache) (n : Memory) (v : Read) → ⟦<CacheReader<SnapshotReader, Underlying, StreamFiller> as Frags<Chains<S>, Readings>>⟧.did r m w c true t n v → v.missed ≡ w.missed }
    ensures unread { (r : OfCache) (m : Memory) (w : Read) (c : Call) (ok : Bool) (t : OfCache) (n : Memory) (v : Read) → ⟦<CacheReader<SnapshotReader, Underlying, StreamFiller> as Frags<Chains<S>, Readings>>⟧.did r m w c ok t n v →
        read_below r w ≡ None → (n ≡ m) × (t.below ≡ r.below) × (v.list ≡ None) }
{
    a_fill_spares_memtables_and_readers();
    a_fill_takes_no_segment();
}

/// Where the snapshot of a cached stream may be filled, and nothing was lost meanwhile, what a call passed is known to it afterwards, and all that was known to it before. So is what a call passed that was answered while nothing was read below, whoever may fill the snapshot and whatever is lost.
pub fn what_a_cached_stream_passed_is_known<const S: usize>()
    ensures passed { (s : Snapshot) (r : OfCache) (m : Memory) (w : Read) (c : Call) (ok : Bool) (t : OfCache) (n : Memory) (v : Read) → IsOfCached s r → ⟦<CacheReader<SnapshotReader, Underlying, StreamFiller> as Frags<Chains<S>, Readings>>⟧.did r m w c ok t n v →
        MayFill m s.chain s.pin → NoneLost (losses m) (losses n) → IsFilledFor c ok (Knows n s) (IsHeadSeen n s) (stand r.spot) (stand t.spot) }
    ensures still { (s : Snapshot) (r : OfCache) (m : Memory) (w : Read) (c : Call) (ok : Bool) (t : OfCache) (n : Memory) (v : Read) → IsOfCached s r → ⟦<CacheReader<SnapshotReader, Underlying, StreamFiller> as Frags<Chains<S>, Readings>>⟧.did r m w c ok t n v →
        MayFill m s.chain s.pin → NoneLost (losses m) (losses n) → (x : Pos) (there : There) → Knows m s x there → Knows n s x there }
    ensures may { (s : Snapshot) (r : OfCache) (m : Memory) (w : Read) (c : Call) (ok : Bool) (t : OfCache) (n : Memory) (v : Read) → IsOfCached s r → ⟦<CacheReader<SnapshotReader, Underlying, StreamFiller> as Frags<Chains<S>, Readings>>⟧.did r m w c ok t n v →
        MayFill m s.chain s.pin → MayFill n s.chain s.pin }
    ensures unread { (s : Snapshot) (r : OfCache) (m : Memory) (w : Read) (c : Call) (t : OfCache) (n : Memory) (v : Read) → IsOfCached s r → ⟦<CacheReader<SnapshotReader, Underlying, StreamFiller> as Frags<Chains<S>, Readings>>⟧.did r m w c true t n v →
        read_below r w ≡ None → IsFilledFor c true (Knows n s) (IsHeadSeen n s) (stand r.spot) (stand t.spot) }
    ensures counted { (r : OfCache) (m : Memory) (w : Read) (c : Call) (ok : Bool) (t : OfCache) (n : Memory) (v : Read) → ⟦<CacheReader<SnapshotReader, Underlying, StreamFiller> as Frags<Chains<S>, Readings>>⟧.did r m w c ok t n v → losses m ≤ losses n }
{
    a_cached_stream_leaves_what_others_see::<S>();
}
