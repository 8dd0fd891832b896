//! The laws of agreement, each the contract of a function that does nothing.
ghost use Rattle.std.specs.Prelude.{◌≡◌, ◌∷◌, [], ℕ, IsTrue, List};
ghost use Rattle.rc_position.specs.declared.positions.Pos.{Pos};
ghost use Rattle.rc_mutation.specs.declared.fragments.HeadAt.{HeadAt};
ghost use Rattle.rc_mutation.specs.declared.mutations.Mutation.{Mutation};
ghost use Rattle.rc_mutation.specs.Source.{SameSource, source_at_head, source_at_static};
ghost use Rattle.rc_core.specs.declared.entries.ChainKind.{ChainKind};
ghost use Rattle.rc_core.specs.Version.{Version};
ghost use Rattle.rc_memory.specs.Memory.{IsUntouched, Memory};
ghost use Rattle.rc_chain.specs.declared.chains.Snap.{Snap};
ghost use Rattle.rc_stream.specs.Snapshot.{SayThere, There};
ghost use Rattle.rc_cursor.specs.Snapshots.{AreReadable, IsHeadSeen, Knows};
ghost use Rattle.rc_snapshots.specs.Fillers.{AreKnownOf, StandsNamed};
ghost use Rattle.rc_snapshots.specs.Seeing.{StillSees};
ghost use Rattle.rc_snapshots.specs.Streams.{filler_of};
ghost use Rattle.rc_writes.specs.Allowed.{ChangeFits};
ghost use Rattle.rc_filler.specs.Stands.{StandsForWrites};
ghost use Rattle.rc_agreement.specs.Agreement.{AgreesWith, AreOtherGapsSaid, SnapshotAgrees};
ghost use Rattle.rc_agreement.specs.Standing.{IsHeldWithin};

use rc_cursor::laws::a_snapshot_stays_where_objects_move;

/// Where a snapshot agrees with writes, what it knows is what they say: at each position, of the static row, and the partition tombstone at its head. So a filler of the snapshot that fills nothing stands for them.
pub fn what_agrees_is_known()
    ensures there { (m : Memory) (s : Snap) (writes : List Mutation) → SnapshotAgrees m s writes → (x : Pos) (v : There) → Knows m s x v → SayThere writes x v }
    ensures head { (m : Memory) (s : Snap) (writes : List Mutation) → SnapshotAgrees m s writes → (h : HeadAt) → IsHeadSeen m s h → h.head.pt ≡ source_at_head writes }
    ensures statics { (m : Memory) (s : Snap) (writes : List Mutation) → SnapshotAgrees m s writes → (h : HeadAt) → IsHeadSeen m s h → IsTrue h.known → source_at_static writes ≡ h.head.statics }
    ensures stands { (m : Memory) (s : Snap) (writes : List Mutation) → SnapshotAgrees m s writes → StandsNamed m (filler_of s) writes }
{}

/// What agrees with writes agrees with all that says the same.
pub fn what_says_the_same_agrees_too()
    ensures { (kind : ChainKind) (versions : List Version) (writes others : List Mutation) → AgreesWith kind versions writes → SameSource others writes → AgreesWith kind versions others }
{}

/// Where what versions know is what writes say, and the versions can be read by their parts, they agree with them once the tombstones over all other gaps are theirs: those that are known behind a row, or behind a position that is not known.
pub fn what_is_known_agrees()
    ensures { (kind : ChainKind) (versions : List Version) (writes : List Mutation) → AreKnownOf kind versions writes → AreReadable kind versions → AreOtherGapsSaid kind versions writes → AgreesWith kind versions writes }
{}

/// A snapshot agrees with what it agreed with where objects moved, and wherever it sees what it saw.
pub fn an_agreement_stays()
    ensures moved { (m n : Memory) (s : Snap) (writes : List Mutation) → IsUntouched m n → SnapshotAgrees m s writes → SnapshotAgrees n s writes }
    ensures seen { (m n : Memory) (s : Snap) (writes : List Mutation) → StillSees s m n → SnapshotAgrees m s writes → SnapshotAgrees n s writes }
{
    a_snapshot_stays_where_objects_move();
}

/// A snapshot of a cache chain that stands for writes stands for what was read, too, where it agrees with that, what was read fits the schema for which it stands, and no version up to the pinned one holds more than what was read, also where it is not known; and no other version of the chain has the pinned one's phase.
pub fn what_agrees_may_be_stood_for()
    ensures { (S : ℕ) (m : Memory) (s : Snap) (writes : List Mutation) (read : Mutation) (d : StandsForWrites S m s.chain s.pin writes) → SnapshotAgrees m s (read ∷ []) → ChangeFits d.schema read → IsHeldWithin d.snapshot.chain.chain d.snapshot.number (read ∷ []) → StandsForWrites S m s.chain s.pin (read ∷ []) }
{}
