//! The laws of the streams of snapshots, each the contract of a function that does nothing.
ghost use Rattle.std.specs.Prelude.{◌≡◌, [], ◌∷◌, ℕ, Bool, IfSome, List, None, Option, true};
ghost use Rattle.rc_schema.specs.SchemaValue.{SchemaValue};
ghost use Rattle.rc_writes.specs.Allowed.{ChangeFits};
ghost use Rattle.rc_mutation.specs.declared.mutations.Mutation.{Mutation};
ghost use Rattle.rc_mutation.specs.Fragments.{fragments};
ghost use Rattle.rc_mutation.specs.Source.{IsMutation, SameSource, source_at_head, source_at_static};
ghost use Rattle.rc_core.specs.Version.{end_position};
ghost use Rattle.rc_cursor.specs.Memory.{HasPin, Memory};
ghost use Rattle.rc_cursor.specs.Snap.{Snap as Snapshot};
ghost use Rattle.rc_stream.specs.Did.{Call, IsQuiet, Spends};
ghost use Rattle.rc_stream.specs.Snapshot.{SayThere};
ghost use Rattle.rc_stream.specs.Stream.{Stream, stream_of};
ghost use Rattle.rc_cursor.specs.declared.readers.SnapshotReader.{SnapshotReader as Known};
ghost use Rattle.rc_cursor.specs.Snapshots.{kind_seen, versions_seen};
ghost use Rattle.rc_cacheread.specs.declared.readers.CacheReader.{CacheReader as Reader};
ghost use Rattle.rc_cacheread.specs.Reading.{Reads};
ghost use Rattle.rc_snapshots.specs.declared.fillers.NoFiller.{NoFiller as Filler};
ghost use Rattle.rc_snapshots.specs.Streams.{IsNewStream, IsOf, SeesChanges, first_position};
ghost use Rattle.rc_snapshots.specs.declared.snaps.Snaps.{Snaps};
ghost use Rattle.rc_snapshots.specs.Seeing.{AllStillSee, AreSameSnapshots, AreThere, HasSnap, NothingIsLost, SeeSameChanges, SeesAllOf, SeesSameChanges, StillSeeBoth, StillSees};

use crate::fillers::NoFiller;
use rc_cacheread::CacheReader;
use rc_core::laws::memtables::a_memtable_is_known_everywhere;
pub use rc_cursor::laws::a_snapshot_can_be_read;
use rc_cursor::{Chains, SnapshotReader};
use rc_outside::Store;
use rc_stream::laws::the_stream_of_a_mutation;
use rc_stream::{Frags, ListFrags};

/// The stream of a mutation that fits a schema says over the whole partition what the mutation says: its head, and at each position its row and the range tombstone in force; and what stands behind a row stands behind its key.
pub fn a_mutations_stream_reads_it()
    ensures reads { (schema : SchemaValue) (m : Mutation) → IsMutation m → ChangeFits schema m → Reads (SayThere (m ∷ [])) first_position end_position None (stream_of (fragments m)).left }
    ensures pt { (m : Mutation) → IsMutation m → (stream_of (fragments m)).head.pt ≡ source_at_head (m ∷ []) }
    ensures statics { (m : Mutation) → IsMutation m → (stream_of (fragments m)).head.statics ≡ source_at_static (m ∷ []) }
{
    the_stream_of_a_mutation();
}

/// A new stream of a snapshot that sees what changes say is ready over any store, and stands for the stream of each mutation that says the same and fits a schema.
pub fn a_snapshots_stream_says_what_was_written<const S: usize, W: Store>()
    ensures ready { (s : Snapshot) (r : Reader Known Stream Filler) (changes : List Mutation) (m : Memory) (w : W) → IsNewStream s r → SeesChanges changes m s →
        ⟦<CacheReader<SnapshotReader, ListFrags, NoFiller> as Frags<Chains<S>, W>>⟧.ready r m w }
    ensures seen { (s : Snapshot) (r : Reader Known Stream Filler) (changes : List Mutation) (m : Memory) (w : W) → IsNewStream s r → SeesChanges changes m s →
        (schema : SchemaValue) (said : Mutation) → IsMutation said → ChangeFits schema said → SameSource (said ∷ []) changes →
        ⟦<CacheReader<SnapshotReader, ListFrags, NoFiller> as Frags<Chains<S>, W>>⟧.seen r m w (stream_of (fragments said)) }
    ensures made { (s : Snapshot) (r : Reader Known Stream Filler) → IsNewStream s r → IsOf s r }
{
    a_memtable_is_known_everywhere();
    a_mutations_stream_reads_it();
}

/// The calls of a snapshot's stream leave chains and store as they are, and it is still that snapshot's. So they ask nothing of the store.
pub fn a_snapshots_stream_changes_nothing<const S: usize, W: Store>()
    ensures moves { (m : Memory) (w : W) (n : Memory) (v : W) → ⟦<CacheReader<SnapshotReader, ListFrags, NoFiller> as Frags<Chains<S>, W>>⟧.moves m w n v → (n ≡ m) × (v ≡ w) }
    ensures did { (r : Reader Known Stream Filler) (m : Memory) (w : W) (c : Call) (ok : Bool) (t : Reader Known Stream Filler) (n : Memory) (v : W) →
        ⟦<CacheReader<SnapshotReader, ListFrags, NoFiller> as Frags<Chains<S>, W>>⟧.did r m w c ok t n v → (n ≡ m) × (v ≡ w) × ((s : Snapshot) → IsOf s r → IsOf s t) }
    ensures spends { (asks : W → ℕ) → Spends ⟦<CacheReader<SnapshotReader, ListFrags, NoFiller> as Frags<Chains<S>, W>>⟧.did (λ _. 0) asks }
    ensures quiet { (asks : W → ℕ) → IsQuiet ⟦<CacheReader<SnapshotReader, ListFrags, NoFiller> as Frags<Chains<S>, W>>⟧.did (λ _. true) asks }
{}

/// Where a snapshot is there still, and sees what it saw, its stream is ready as before, and stands for what it stood for, over any store; so it is where the snapshot sees what the same changes say, whatever versions say so.
pub fn a_snapshots_stream_stays<const S: usize, W: Store>()
    ensures ready { (s : Snapshot) (r : Reader Known Stream Filler) (m n : Memory) (w v : W) → IsOf s r → HasPin n s.chain s.pin → versions_seen n s ≡ versions_seen m s → kind_seen n s ≡ kind_seen m s →
        ⟦<CacheReader<SnapshotReader, ListFrags, NoFiller> as Frags<Chains<S>, W>>⟧.ready r m w → ⟦<CacheReader<SnapshotReader, ListFrags, NoFiller> as Frags<Chains<S>, W>>⟧.ready r n v }
    ensures seen { (s : Snapshot) (r : Reader Known Stream Filler) (m n : Memory) (w v : W) (t : Stream) → IsOf s r → versions_seen n s ≡ versions_seen m s → kind_seen n s ≡ kind_seen m s →
        ⟦<CacheReader<SnapshotReader, ListFrags, NoFiller> as Frags<Chains<S>, W>>⟧.seen r m w t → ⟦<CacheReader<SnapshotReader, ListFrags, NoFiller> as Frags<Chains<S>, W>>⟧.seen r n v t }
    ensures ready_alike { (s : Snapshot) (r : Reader Known Stream Filler) (changes : List Mutation) (m n : Memory) (w v : W) → IsOf s r → SeesChanges changes m s → SeesChanges changes n s →
        ⟦<CacheReader<SnapshotReader, ListFrags, NoFiller> as Frags<Chains<S>, W>>⟧.ready r m w → ⟦<CacheReader<SnapshotReader, ListFrags, NoFiller> as Frags<Chains<S>, W>>⟧.ready r n v }
    ensures seen_alike { (s : Snapshot) (r : Reader Known Stream Filler) (changes : List Mutation) (m n : Memory) (w v : W) (t : Stream) → IsOf s r → SeesChanges changes m s → SeesChanges changes n s →
        ⟦<CacheReader<SnapshotReader, ListFrags, NoFiller> as Frags<Chains<S>, W>>⟧.seen r m w t → ⟦<CacheReader<SnapshotReader, ListFrags, NoFiller> as Frags<Chains<S>, W>>⟧.seen r n v t }
{
    a_memtable_is_known_everywhere();
}

/// What snapshots see stays over several calls, of memtables' chains and, where nothing is lost, of caches' chains too; and what a snapshot sees it sees still where it sees what it saw. A snapshot that sees what changes say is there. One that sees what it saw sees what the same changes say.
pub fn a_snapshot_sees_what_it_saw()
    ensures along { (old mid new : Memory) → AllStillSee old mid → AllStillSee mid new → AllStillSee old new }
    ensures lossless { (old mid new : Memory) → NothingIsLost old mid → NothingIsLost mid new → NothingIsLost old new }
    ensures all { (old new : Memory) → NothingIsLost old new → AllStillSee old new }
    ensures same { (old mid new : Memory) → AreSameSnapshots old mid → AreSameSnapshots mid new → AreSameSnapshots old new }
    ensures there { (old new : Memory) (s : Snapshot) → HasSnap old s → StillSees s old new → HasSnap new s }
    ensures sees { (changes : List Mutation) (old new : Memory) (s : Snapshot) → SeesChanges changes old s → StillSees s old new → SeesChanges changes new s }
    ensures both { (old new : Memory) (snaps : Snaps) → AllStillSee old new → AreThere old snaps → StillSeeBoth snaps old new }
    ensures remain { (old new : Memory) (snaps : Snaps) → AreThere old snaps → StillSeeBoth snaps old new → AreThere new snaps }
    ensures known { (writes later : List Mutation) (m : Memory) (snaps : Snaps) → SeesAllOf writes m snaps.sealed → SeesAllOf later m snaps.active → AreThere m snaps }
    ensures changes { (old new : Memory) (s : Snapshot) → StillSees s old new → SeesSameChanges s old new }
    ensures both_changes { (old new : Memory) (snaps : Snaps) → StillSeeBoth snaps old new → SeeSameChanges snaps old new }
    ensures each_changes { (old new : Memory) (snaps : Snaps) → ((s : Snapshot) → SeesSameChanges s old new) → SeeSameChanges snaps old new }
    ensures all_changes { (changes : List Mutation) (old new : Memory) (o : Option Snapshot) → IfSome o (λ s. SeesSameChanges s old new) → SeesAllOf changes old o → SeesAllOf changes new o }
{}
