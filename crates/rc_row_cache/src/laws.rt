//! The laws of what the row cache says of what lies below it, each the contract of a function that does nothing.
ghost use Rattle.std.specs.Prelude.{◌≡◌, ◌<◌, ℕ, true, All, IfSome, IsTrue, List, Option, Some, None, cond, length, map};
ghost use Rattle.rc_cell.specs.declared.rows.Row.{Row};
ghost use Rattle.rc_cell.specs.declared.writes.Tomb.{Tomb};
ghost use Rattle.rc_schema.specs.SchemaValue.{SchemaValue, is_schema};
ghost use Rattle.rc_mutation.specs.declared.mutations.Mutation.{Mutation};
ghost use Rattle.rc_mutation.specs.declared.mutations.Write.{Write as Written};
ghost use Rattle.rc_mutation.specs.Source.{SameSource, source_at_head, source_at_static};
ghost use Rattle.rc_writes.specs.Allowed.{ChangeFits};
ghost use Rattle.rc_core.specs.declared.entries.ChainKind.TheVariants.{Cache, Memtable};
ghost use Rattle.rc_core.specs.Chains.{phase_at};
ghost use Rattle.rc_registry.specs.Registry.{AreFree, IsNumberIn};
ghost use Rattle.rc_memory.specs.Kept.{IsSoundChain};
ghost use Rattle.rc_memory.specs.Memory.{IsSnapshotTaken, KeptChain, Member, Memory, chain_at, on_chain, with_chains, without_snapshot};
ghost use Rattle.rc_memory.specs.Recency.{IsRecency};
ghost use Rattle.rc_chain.specs.declared.chains.Snap.{Snap as Snapshot};
ghost use Rattle.rc_chain.specs.Lives.{IsChainDropped};
ghost use Rattle.rc_filler.specs.Evictions.{AreEvicted, IsRoomMade};
ghost use Rattle.rc_entries.specs.Filling.{IsEntryOpened, filled_statics};
ghost use Rattle.rc_cursor.specs.Snapshots.{kind_seen};
ghost use Rattle.rc_filler.specs.LetGo.{AreLetGo};
ghost use Rattle.rc_filler.specs.Partitions.{AreAsBefore};
ghost use Rattle.rc_filler.specs.Writes.{AreSmall, DoAscend};
ghost use Rattle.rc_entries.specs.Detached.{IsDetached};
ghost use Rattle.rc_entries.specs.Entries.{LeavesCached};
ghost use Rattle.rc_entries.specs.Invalidated.{IsInvalidated};
ghost use Rattle.rc_filler.specs.Fills.{IsFillDone};
ghost use Rattle.rc_filler.specs.Stands.{HasCacheSnapshot, StandsForWrites};
ghost use Rattle.rc_snapshots.specs.Seeing.{HasSnap};
ghost use Rattle.rc_unstored.specs.declared.unstored.Unstored.{Unstored};
ghost use Rattle.rc_unstored.specs.Memtables.{HaveWrites};
ghost use Rattle.rc_unstored.specs.Readers.{IsReleased, IsTakenIf};
ghost use Rattle.rc_unstored.specs.Steps.{AreObjectsMoved, IsNotPut, IsPutBehind, IsPutRefused};
ghost use Rattle.rc_row_cache.specs.Leaving.{AreCachesSame, IsRoomMadeBeside};
ghost use Rattle.rc_row_cache.specs.Saying.{AreFillsDone, Below, CacheSays, IsSameSince, PinsAlike, phase_pinned, with_below};

use rc_entries::laws::{
    each_change_leaves_the_caches_chains, what_an_invalidation_leaves,
    what_leaves_the_caches_chains_leaves_the_entries,
};
use rc_filler::chain_laws::{
    a_chain_no_longer_found_keeps_what_is_said, a_relabelled_chain_keeps_what_is_said,
    one_more_snapshot_keeps_what_is_said, one_snapshot_less_keeps_what_is_said,
};
use rc_filler::populate_laws::{
    a_filled_gap_keeps_what_is_said, a_filled_row_keeps_what_is_said,
    a_filled_static_row_keeps_what_is_said, an_opened_chain_says_what_is_handed_in,
    what_the_source_says_may_be_filled,
};
use rc_unstored::evict_laws::{
    an_evicted_object_leaves_a_version, evictions_leave_the_use_of_a_chain,
    evictions_spare_memtables_and_readers, what_was_evicted_is_seen_as_before_or_lost,
};
use rc_unstored::laws::what_leaves_the_chains_of_both_leaves_their_writes;

/// Where the cache says what lies below it, a snapshot of one of its chains stands for all writes that fit the schema and say what lies below the version that it pins. A snapshot that was taken is there, and pins a version of the phase that it was given.
pub fn a_snapshot_stands_for_what_lies_below()
    ensures there { (S : ℕ) (schema : SchemaValue) (below : Below) (m : Memory) (id pin : ℕ) (h : HasCacheSnapshot m id pin) (writes : List Mutation) → IsTrue (is_schema schema) → AreSmall S schema → All (ChangeFits schema) writes →
        CacheSays schema below m → SameSource (below id (phase_pinned h)) writes → StandsForWrites S m id pin writes }
    ensures taken { (id pin phase : ℕ) (old new : Memory) (k : KeptChain) → chain_at old id ≡ Some k → k.chain.kind ≡ Cache → IsSnapshotTaken old new id pin phase → (h : HasCacheSnapshot new id pin) × (phase_pinned h ≡ phase) }
{
    one_more_snapshot_keeps_what_is_said();
}

/// The cache says what lies below it where no chain of it is there; where chains are as they were, as where objects moved; where objects were evicted, or room was made; where a snapshot was taken of a chain that is found by its key, or one was taken back; where a chain was detached, or is gone; and where each chain of the cache is as it was, whatever became of memtables' chains, or pins what it pinned. So it does for whatever lies below that says the same at the phases of its versions; and where a chain was opened by the head of what lies below it.
pub fn the_cache_says_what_lies_below()
    ensures none { (schema : SchemaValue) (below : Below) (m : Memory) → ((id : ℕ) (k : KeptChain) → chain_at m id ≡ Some k → k.chain.kind ≡ Cache → ⊥) → CacheSays schema below m }
    ensures same { (schema : SchemaValue) (below : Below) (old new : Memory) → new.chains ≡ old.chains → CacheSays schema below old → CacheSays schema below new }
    ensures evicted { (schema : SchemaValue) (below : Below) (went : List Member) (gone : List ℕ) (old new : Memory) → AreEvicted went gone old new → CacheSays schema below old → CacheSays schema below new }
    ensures room { (schema : SchemaValue) (below : Below) (S : ℕ) (old new : Memory) → IsRoomMade S old new → CacheSays schema below old → CacheSays schema below new }
    ensures taken { (schema : SchemaValue) (below : Below) (id pin phase : ℕ) (old new : Memory) → ((k : KeptChain) → chain_at old id ≡ Some k → IsSoundChain k.chain × (k.chain.attached ≡ true)) → IsSnapshotTaken old new id pin phase → CacheSays schema below old → CacheSays schema below new }
    ensures released { (schema : SchemaValue) (below : Below) (id pin : ℕ) (m : Memory) → CacheSays schema below m → CacheSays schema below (with_chains (on_chain id (without_snapshot pin) m.chains) m) }
    ensures detached { (schema : SchemaValue) (below : Below) (id : ℕ) (old new : Memory) → IsDetached id old new → CacheSays schema below old → CacheSays schema below new }
    ensures dropped { (schema : SchemaValue) (below : Below) (id : ℕ) (list : List Member) (old new : Memory) → IsChainDropped id list old new → CacheSays schema below old → CacheSays schema below new }
    ensures beside { (schema : SchemaValue) (below : Below) (old new : Memory) → AreCachesSame old new → CacheSays schema below old → CacheSays schema below new }
    ensures before { (schema : SchemaValue) (below : Below) (old new : Memory) → AreAsBefore old new → CacheSays schema below old → CacheSays schema below new }
    ensures alike { (schema : SchemaValue) (below other : Below) (m : Memory) → ((id : ℕ) (k : KeptChain) → chain_at m id ≡ Some k → k.chain.kind ≡ Cache → (j : ℕ) → j < length k.chain.versions → SameSource (below id (phase_at k.chain.versions j)) (other id (phase_at k.chain.versions j))) →
        CacheSays schema below m → CacheSays schema other m }
    ensures opened { (schema : SchemaValue) (below : Below) (id phase : ℕ) (pt : Option Tomb) (statics : Option Row) (writes : ℕ → List Mutation) (old new : Memory) → IsEntryOpened id pt statics phase old new → All (ChangeFits schema) (writes phase) →
        pt ≡ source_at_head (writes phase) → statics ≡ filled_statics (source_at_static (writes phase)) → CacheSays schema below old → CacheSays schema (with_below id writes below) new }
{
    a_chain_no_longer_found_keeps_what_is_said();
    a_relabelled_chain_keeps_what_is_said();
    one_more_snapshot_keeps_what_is_said();
    one_snapshot_less_keeps_what_is_said();
    what_an_invalidation_leaves();
    an_evicted_object_leaves_a_version();
    evictions_leave_the_use_of_a_chain();
    what_was_evicted_is_seen_as_before_or_lost();
    a_filled_gap_keeps_what_is_said();
    a_filled_row_keeps_what_is_said();
    a_filled_static_row_keeps_what_is_said();
    an_opened_chain_says_what_is_handed_in();
    what_the_source_says_may_be_filled();
}

/// The cache says what lies below it after any number of fills through one snapshot, whatever was handed in at each, where the snapshot stands at their end for writes that fit the schema and say what lies below the version that it pins. Fills follow one another.
pub fn the_cache_says_what_lies_below_after_fills()
    ensures filled { (S : ℕ) (schema : SchemaValue) (below : Below) (id pin : ℕ) (old new : Memory) (h : HasCacheSnapshot old id pin) (writes : List Mutation) → AreFillsDone S id pin old new → All (ChangeFits schema) writes → SameSource (below id (phase_pinned h)) writes →
        StandsForWrites S new id pin writes → CacheSays schema below old → CacheSays schema below new }
    ensures none { (S id pin : ℕ) (m : Memory) → AreFillsDone S id pin m m }
    ensures one { (S id pin : ℕ) (old new : Memory) → IsFillDone S id pin old new → AreFillsDone S id pin old new }
    ensures both { (S id pin : ℕ) (old mid new : Memory) → AreFillsDone S id pin old mid → AreFillsDone S id pin mid new → AreFillsDone S id pin old new }
{
    an_evicted_object_leaves_a_version();
    evictions_leave_the_use_of_a_chain();
    evictions_spare_memtables_and_readers();
    what_was_evicted_is_seen_as_before_or_lost();
    a_filled_gap_keeps_what_is_said();
    a_filled_row_keeps_what_is_said();
    a_filled_static_row_keeps_what_is_said();
}

/// The cache says what lies below it where partitions are invalidated: where what lies at the new phase below each chain of it that stays found by its key says the same as what lies there at the phase of its newest version.
pub fn the_cache_says_what_lies_below_at_a_new_phase()
    ensures { (schema : SchemaValue) (below : Below) (ids : List ℕ) (phase : ℕ) (old new : Memory) → ((id : ℕ) → IfSome (chain_at old id) (λ k. IsSoundChain k.chain)) → IsInvalidated ids phase old new → IsSameSince below ids phase old → CacheSays schema below old → CacheSays schema below new }
{
    a_chain_no_longer_found_keeps_what_is_said();
    a_relabelled_chain_keeps_what_is_said();
    what_an_invalidation_leaves();
}

/// A snapshot of a chain of the cache is there after each of these, and below the version that it pins lies what says what lay below it before. So where the cache says what lies below it before and after, the snapshot stands for the same writes.
pub fn each_snapshot_pins_what_it_pinned()
    ensures evicted { (below : ℕ → List Mutation) (id pin : ℕ) (went : List Member) (gone : List ℕ) (old new : Memory) → AreEvicted went gone old new → PinsAlike below below id pin old new }
    ensures room { (below : ℕ → List Mutation) (id pin S : ℕ) (old new : Memory) → IsRoomMade S old new → PinsAlike below below id pin old new }
    ensures filled { (below : ℕ → List Mutation) (id pin S chain of_pin : ℕ) (old new : Memory) → AreFillsDone S chain of_pin old new → PinsAlike below below id pin old new }
    ensures taken { (below : ℕ → List Mutation) (id pin chain of_pin phase : ℕ) (old new : Memory) → IsSnapshotTaken old new chain of_pin phase → PinsAlike below below id pin old new }
    ensures released { (below : ℕ → List Mutation) (id pin chain of_pin : ℕ) (m : Memory) → (id ≡ chain → pin ≡ of_pin → ⊥) → PinsAlike below below id pin m (with_chains (on_chain chain (without_snapshot of_pin) m.chains) m) }
    ensures detached { (below : ℕ → List Mutation) (id pin chain : ℕ) (old new : Memory) → IsDetached chain old new → PinsAlike below below id pin old new }
    ensures dropped { (below : ℕ → List Mutation) (id pin chain : ℕ) (list : List Member) (old new : Memory) → IsChainDropped chain list old new → ((k : KeptChain) → chain_at old chain ≡ Some k → AreFree k.chain.pins) → PinsAlike below below id pin old new }
    ensures opened { (below : Below) (id pin chain phase : ℕ) (pt : Option Tomb) (statics : Option Row) (writes : ℕ → List Mutation) (old new : Memory) → IsEntryOpened chain pt statics phase old new → PinsAlike (below id) (with_below chain writes below id) id pin old new }
    ensures beside { (below : ℕ → List Mutation) (id pin : ℕ) (old new : Memory) → AreCachesSame old new → PinsAlike below below id pin old new }
    ensures before { (below : ℕ → List Mutation) (id pin : ℕ) (old new : Memory) → AreAsBefore old new → PinsAlike below below id pin old new }
    ensures invalidated { (below : Below) (id pin : ℕ) (ids : List ℕ) (phase : ℕ) (old new : Memory) → ((i : ℕ) → IfSome (chain_at old i) (λ k. IsSoundChain k.chain)) → IsInvalidated ids phase old new → IsSameSince below ids phase old → PinsAlike (below id) (below id) id pin old new }
    ensures both { (below : ℕ → List Mutation) (id pin : ℕ) (old mid new : Memory) → PinsAlike below below id pin old mid → PinsAlike below below id pin mid new → PinsAlike below below id pin old new }
{
    a_chain_no_longer_found_keeps_what_is_said();
    a_relabelled_chain_keeps_what_is_said();
    one_more_snapshot_keeps_what_is_said();
    one_snapshot_less_keeps_what_is_said();
    what_an_invalidation_leaves();
    evictions_leave_the_use_of_a_chain();
    evictions_spare_memtables_and_readers();
}

/// The calls on both memtables of a shard leave the chains of the cache: where a write was put, or was not, or memory was refused, room was made first; where objects moved, snapshots of memtables' chains were taken or taken back, or the sealed writes were let go, each chain of the cache is as it was. That composes, and leaves the entries.
pub fn calls_on_memtables_leave_the_cache()
    ensures put { (S : ℕ) (schema : SchemaValue) (w : Written) (old new : Unstored S) (writes later : List Written) → IsRecency old.chains → HaveWrites schema old writes later → IsPutBehind schema w old new → IsRoomMadeBeside S old.chains new.chains }
    ensures not_put { (S : ℕ) (old new : Unstored S) → IsNotPut old new → IsRoomMadeBeside S old.chains new.chains }
    ensures refused { (S : ℕ) (old new : Unstored S) → IsPutRefused old new → IsRoomMadeBeside S old.chains new.chains }
    ensures moved { (old new : Memory) → AreObjectsMoved old new → AreCachesSame old new }
    ensures taken { (old new : Memory) (taken : Option Snapshot) → IfSome taken (λ s. kind_seen new s ≡ Memtable) → IsTakenIf old new taken → AreCachesSame old new }
    ensures released { (s : Snapshot) (old new : Memory) → HasSnap old s → IsReleased s old new → AreCachesSame old new }
    ensures let_go { (S : ℕ) (schema : SchemaValue) (u : Unstored S) (new : Memory) (writes later : List Written) → DoAscend u.sealed → HaveWrites schema u writes later → AreLetGo (map (λ e. e.1) u.sealed) u.chains new → AreCachesSame u.chains new }
    ensures itself { (m : Memory) → AreCachesSame m m }
    ensures both { (old mid new : Memory) → AreCachesSame old mid → AreCachesSame mid new → AreCachesSame old new }
    ensures entries { (old new : Memory) → AreCachesSame old new → LeavesCached old new }
{
    each_change_leaves_the_caches_chains();
    what_leaves_the_chains_of_both_leaves_their_writes();
}

/// Where objects were evicted, or room was made, and no number was to be told of a chain that was there, the entries are left: the chain of each is there, or its number is to be told.
pub fn room_leaves_the_entries()
    ensures evicted { (went : List Member) (gone : List ℕ) (old new : Memory) → ((id : ℕ) → IsNumberIn old.dropped id → chain_at old id ≡ None) → AreEvicted went gone old new → LeavesCached old new }
    ensures room { (S : ℕ) (old new : Memory) → ((id : ℕ) → IsNumberIn old.dropped id → chain_at old id ≡ None) → IsRoomMade S old new → LeavesCached old new }
{
    each_change_leaves_the_caches_chains();
    evictions_leave_the_use_of_a_chain();
    evictions_spare_memtables_and_readers();
}
