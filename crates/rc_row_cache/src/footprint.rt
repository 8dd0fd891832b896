//! The laws of what memtables and the row cache take of a region, each the contract of a function that does nothing.
ghost use Rattle.std.specs.Prelude.{◌≡◌, ◌⊎◌, ◌≤◌, ◌+◌, ◌*◌, ℕ, false, List, [], Option, Some, Contains, map};
ghost use Rattle.lsa_region.specs.Region.{live_bytes};
ghost use Rattle.rc_cell.specs.declared.rows.Row.{Row};
ghost use Rattle.rc_cell.specs.declared.writes.Tomb.{Tomb};
ghost use Rattle.rc_position.specs.declared.positions.Pos.{Pos};
ghost use Rattle.rc_schema.specs.SchemaValue.{SchemaValue};
ghost use Rattle.rc_mutation.specs.declared.mutations.Write.{Write};
ghost use Rattle.rc_writes.specs.Weight.{weight};
ghost use Rattle.rc_core.specs.declared.entries.ChainKind.TheVariants.{Cache};
ghost use Rattle.rc_core.specs.Chains.{IsPinned};
ghost use Rattle.rc_core.specs.Version.{IsVersion};
ghost use Rattle.rc_registry.specs.Registry.{IsNumberIn};
ghost use Rattle.rc_memory.specs.Changes.{OfVersion, member_at};
ghost use Rattle.rc_memory.specs.Kept.{IsLiveInChains, IsSoundChain};
ghost use Rattle.rc_memory.specs.Memory.{HasPin, IsSnapshotTaken, IsUntouched, KeptChain, Member, Memory, chain_at};
ghost use Rattle.rc_memory.specs.Recency.{IsRecency};
ghost use Rattle.rc_filler.specs.Snap.{Snap};
ghost use Rattle.rc_filler.specs.Stands.{HasCacheSnapshot};
ghost use Rattle.rc_filler.specs.Lives.{IsChainDropped, IsIdle};
ghost use Rattle.rc_filler.specs.Evictions.{AreEvicted, IsRoomMade};
ghost use Rattle.rc_filler.specs.LetGo.{AreLetGo};
ghost use Rattle.rc_filler.specs.Partitions.{AreAsBefore};
ghost use Rattle.rc_filler.specs.Steps.{IsApplied};
ghost use Rattle.rc_filler.specs.Writes.{DoAscend, HasWrites};
ghost use Rattle.rc_entries.specs.Detached.{IsDetached};
ghost use Rattle.rc_entries.specs.Invalidated.{IsInvalidated};
ghost use Rattle.rc_filler.specs.Fills.{IsFillDone};
ghost use Rattle.rc_snapshots.specs.Seeing.{HasSnap};
ghost use Rattle.rc_unstored.specs.declared.unstored.Unstored.{Unstored};
ghost use Rattle.rc_unstored.specs.Memtables.{HaveWrites};
ghost use Rattle.rc_unstored.specs.Readers.{IsReleased, taken_back};
ghost use Rattle.rc_unstored.specs.Steps.{IsNotPut, IsPutBehind, IsPutRefused};
ghost use Rattle.rc_row_cache.specs.Calls.{IsEnterRefused, IsEntered, IsKeptOut, IsTakenOf};
ghost use Rattle.rc_row_cache.specs.Leaving.{AreCachesSame, IsRoomMadeBeside};
ghost use Rattle.rc_row_cache.specs.Saying.{AreFillsDone};
ghost use Rattle.rc_row_cache.specs.Footprint.{AreInUse, HaveOneVersion, LosesBeforeWrite, NoUpdateStands, cache_bytes, cache_snapshots, memtable_bytes};

use crate::laws::calls_on_memtables_leave_the_cache;
use rc_entries::laws::what_an_invalidation_leaves;
use rc_unstored::evict_laws::{
    evictions_leave_the_use_of_a_chain, evictions_spare_memtables_and_readers,
};
use rc_unstored::laws::what_leaves_the_chains_of_both_leaves_their_writes;

/// What is live is of memtables' chains or of those of the row cache.
pub fn what_is_live_is_of_both()
    ensures { (m : Memory) → IsLiveInChains m → live_bytes m.region ≡ memtable_bytes m + cache_bytes m }
{}

/// By a write that was put memtables take more by at most its weight, where what is live is what all chains take: before it was applied, and once it was put.
pub fn a_write_is_of_a_memtable()
    ensures applied { (S : ℕ) (schema : SchemaValue) (w : Write) (before now : List (List ℕ × ℕ)) (old new : Memory) (writes : List Write) → HasWrites schema before old writes → IsLiveInChains old → IsLiveInChains new → IsApplied S schema w before now old new → memtable_bytes new ≤ memtable_bytes old + weight w.change }
    ensures put { (S : ℕ) (schema : SchemaValue) (w : Write) (old new : Unstored S) (writes later : List Write) → IsPutBehind schema w old new → IsRecency old.chains → HaveWrites schema old writes later → IsLiveInChains new.chains → memtable_bytes new.chains ≤ memtable_bytes old.chains + weight w.change }
{
    evictions_leave_the_use_of_a_chain();
    what_leaves_the_chains_of_both_leaves_their_writes();
}

/// What is evicted for a write is evicted where memory is crowded: also where no room could be made, and the write was not put.
pub fn a_write_evicts_where_memory_is_crowded()
    ensures put { (S : ℕ) (schema : SchemaValue) (w : Write) (old new : Unstored S) (writes later : List Write) → IsPutBehind schema w old new → IsRecency old.chains → HaveWrites schema old writes later → LosesBeforeWrite S old.chains new.chains }
    ensures not_put { (S : ℕ) (old new : Unstored S) → IsNotPut old new → IsRecency old.chains → LosesBeforeWrite S old.chains new.chains }
{
    evictions_leave_the_use_of_a_chain();
    evictions_spare_memtables_and_readers();
    what_leaves_the_chains_of_both_leaves_their_writes();
}

/// Where the sealed writes are let go nothing is counted, and so where chains are detached.
pub fn what_is_let_go_counts_nothing()
    ensures let_go { (S : ℕ) (schema : SchemaValue) (u : Unstored S) (new : Memory) (writes later : List Write) → DoAscend u.sealed → HaveWrites schema u writes later → AreLetGo (map (λ e. e.1) u.sealed) u.chains new → new.counts ≡ u.chains.counts }
    ensures detached { (id : ℕ) (old new : Memory) → IsDetached id old new → new.counts ≡ old.counts }
{}

/// By no other call memtables take more: where objects moved, where objects were evicted, where room was made, where no write was put, where a snapshot was taken or taken back, of whatever chain, where the sealed writes were let go; and where a partition entered the row cache or was kept out, or memory was refused for it, where fills were done, where partitions were invalidated or detached, where a chain is gone, and where chains were read.
pub fn what_calls_leave_of_memtables()
    ensures moved { (old new : Memory) → IsUntouched old new → memtable_bytes new ≤ memtable_bytes old }
    ensures evicted { (went : List Member) (gone : List ℕ) (old new : Memory) → AreEvicted went gone old new → memtable_bytes new ≤ memtable_bytes old }
    ensures made { (S : ℕ) (old new : Memory) → IsRoomMade S old new → memtable_bytes new ≤ memtable_bytes old }
    ensures not_put { (S : ℕ) (old new : Unstored S) → IsNotPut old new → memtable_bytes new.chains ≤ memtable_bytes old.chains }
    ensures refused { (S : ℕ) (old new : Unstored S) → IsPutRefused old new → memtable_bytes new.chains ≤ memtable_bytes old.chains }
    ensures taken { (id pin phase : ℕ) (old new : Memory) → IsSnapshotTaken old new id pin phase → memtable_bytes new ≡ memtable_bytes old }
    ensures taken_of { (key : List ℕ) (entries : List (List ℕ × ℕ)) (old new : Memory) (s : Snap) → IsTakenOf key entries old new s → memtable_bytes new ≡ memtable_bytes old }
    ensures back { (s : Snap) (m : Memory) → memtable_bytes (taken_back s m) ≡ memtable_bytes m }
    ensures released { (s : Snap) (old new : Memory) → HasPin old s.chain s.pin → IsReleased s old new → memtable_bytes new ≤ memtable_bytes old }
    ensures let_go { (S : ℕ) (schema : SchemaValue) (u : Unstored S) (new : Memory) (writes later : List Write) → DoAscend u.sealed → HaveWrites schema u writes later → AreLetGo (map (λ e. e.1) u.sealed) u.chains new → memtable_bytes new ≤ memtable_bytes u.chains }
    ensures entered { (S : ℕ) (key : List ℕ) (pt : Option Tomb) (statics : Row) (phase : ℕ) (entries : List (List ℕ × ℕ)) (old new : Memory) (s : Snap) → IsEntered S key pt statics phase entries old new s → memtable_bytes new ≤ memtable_bytes old }
    ensures kept_out { (S : ℕ) (old new : Memory) → IsKeptOut S old new → memtable_bytes new ≤ memtable_bytes old }
    ensures enter_refused { (S : ℕ) (pt : Option Tomb) (statics : Row) (phase : ℕ) (old new : Memory) → IsEnterRefused S pt statics phase old new → memtable_bytes new ≤ memtable_bytes old }
    ensures filled { (S id pin : ℕ) (old new : Memory) → AreFillsDone S id pin old new → memtable_bytes new ≤ memtable_bytes old }
    ensures detached { (id : ℕ) (old new : Memory) → IsDetached id old new → memtable_bytes new ≡ memtable_bytes old }
    ensures invalidated { (ids : List ℕ) (phase : ℕ) (old new : Memory) → IsInvalidated ids phase old new → memtable_bytes new ≡ memtable_bytes old }
    ensures gone { (id : ℕ) (list : List Member) (old new : Memory) → IsChainDropped id list old new → memtable_bytes new ≤ memtable_bytes old }
    ensures before { (old new : Memory) → AreAsBefore old new → memtable_bytes new ≡ memtable_bytes old }
{
    evictions_leave_the_use_of_a_chain();
    what_an_invalidation_leaves();
}

/// Where the recency list keeps its rule memtables take as much as before where room was made, where a partition entered the row cache or was kept out, and where a fill was done.
pub fn room_is_made_of_the_cache_alone()
    ensures made { (S : ℕ) (old new : Memory) → IsRecency old → IsRoomMade S old new → memtable_bytes new ≡ memtable_bytes old }
    ensures entered { (S : ℕ) (key : List ℕ) (pt : Option Tomb) (statics : Row) (phase : ℕ) (entries : List (List ℕ × ℕ)) (old new : Memory) (s : Snap) → IsRecency old → IsEntered S key pt statics phase entries old new s → memtable_bytes new ≡ memtable_bytes old }
    ensures kept_out { (S : ℕ) (old new : Memory) → IsRecency old → IsKeptOut S old new → memtable_bytes new ≡ memtable_bytes old }
    ensures filled { (S id pin : ℕ) (old new : Memory) → IsRecency old → IsFillDone S id pin old new → memtable_bytes new ≡ memtable_bytes old }
{
    evictions_leave_the_use_of_a_chain();
    evictions_spare_memtables_and_readers();
}

/// Each chain of the row cache has one version where none is there; and it has one still where objects moved, where objects were evicted, where room was made, where its chains are as they were, also once room was made, as after each call on memtables, where a snapshot was taken or taken back, where a partition entered the cache or was kept out, or memory was refused for it, where fills were done, where partitions were invalidated or detached, where a chain is gone, and where chains were read. Where each chain is sound no update stands in one of one version.
pub fn each_chain_of_the_cache_has_one_version()
    ensures none { (m : Memory) → ((id : ℕ) (k : KeptChain) → chain_at m id ≡ Some k → k.chain.kind ≡ Cache → ⊥) → HaveOneVersion m }
    ensures moved { (old new : Memory) → IsUntouched old new → HaveOneVersion old → HaveOneVersion new }
    ensures evicted { (went : List Member) (gone : List ℕ) (old new : Memory) → AreEvicted went gone old new → HaveOneVersion old → HaveOneVersion new }
    ensures made { (S : ℕ) (old new : Memory) → IsRoomMade S old new → HaveOneVersion old → HaveOneVersion new }
    ensures beside { (old new : Memory) → AreCachesSame old new → HaveOneVersion old → HaveOneVersion new }
    ensures made_beside { (S : ℕ) (old new : Memory) → IsRoomMadeBeside S old new → HaveOneVersion old → HaveOneVersion new }
    ensures taken { (id pin phase : ℕ) (old new : Memory) → IsSnapshotTaken old new id pin phase → HaveOneVersion old → HaveOneVersion new }
    ensures back { (s : Snap) (m : Memory) → HaveOneVersion m → HaveOneVersion (taken_back s m) }
    ensures entered { (S : ℕ) (key : List ℕ) (pt : Option Tomb) (statics : Row) (phase : ℕ) (entries : List (List ℕ × ℕ)) (old new : Memory) (s : Snap) → IsEntered S key pt statics phase entries old new s → HaveOneVersion old → HaveOneVersion new }
    ensures kept_out { (S : ℕ) (old new : Memory) → IsKeptOut S old new → HaveOneVersion old → HaveOneVersion new }
    ensures enter_refused { (S : ℕ) (pt : Option Tomb) (statics : Row) (phase : ℕ) (old new : Memory) → IsEnterRefused S pt statics phase old new → HaveOneVersion old → HaveOneVersion new }
    ensures filled { (S id pin : ℕ) (old new : Memory) → AreFillsDone S id pin old new → HaveOneVersion old → HaveOneVersion new }
    ensures detached { (id : ℕ) (old new : Memory) → IsDetached id old new → HaveOneVersion old → HaveOneVersion new }
    ensures invalidated { (ids : List ℕ) (phase : ℕ) (old new : Memory) → IsInvalidated ids phase old new → HaveOneVersion old → HaveOneVersion new }
    ensures gone { (id : ℕ) (list : List Member) (old new : Memory) → IsChainDropped id list old new → HaveOneVersion old → HaveOneVersion new }
    ensures before { (old new : Memory) → AreAsBefore old new → HaveOneVersion old → HaveOneVersion new }
    ensures settled { (m : Memory) → ((id : ℕ) (k : KeptChain) → chain_at m id ≡ Some k → IsSoundChain k.chain) → HaveOneVersion m → NoUpdateStands m }
{
    evictions_leave_the_use_of_a_chain();
    what_an_invalidation_leaves();
}

/// Where nothing is left that may be evicted, the row cache takes 152 bytes at most for each of its snapshots, a version's head and its end dummy, if each of its chains has one version and is in use, and no update stands in one.
pub fn little_is_left_where_nothing_may_be_evicted()
    ensures { (m : Memory) → IsRecency m → ((id j : ℕ) → OfVersion m id j (λ k v. IsVersion v)) → HaveOneVersion m → NoUpdateStands m → AreInUse m → m.recency ≡ [] → cache_bytes m ≤ 152 * cache_snapshots m }
{}

/// That a chain of the row cache is in use is that a snapshot pins it, or something of it stands in the recency list, where no update stands in it.
pub fn a_chain_in_use_is_pinned_or_listed()
    ensures is { (m : Memory) (id : ℕ) (k : KeptChain) → AreInUse m → chain_at m id ≡ Some k → k.chain.kind ≡ Cache → k.chain.updating ≡ false → ((j : ℕ) × IsPinned k.chain.pins j) ⊎ ((j : ℕ) × (at : Option Pos) × Contains m.recency (member_at id j at)) }
    ensures by { (m : Memory) → ((id : ℕ) (k : KeptChain) → chain_at m id ≡ Some k → k.chain.kind ≡ Cache → k.chain.updating ≡ false → ((j : ℕ) × IsPinned k.chain.pins j) ⊎ ((j : ℕ) × (at : Option Pos) × Contains m.recency (member_at id j at))) → AreInUse m }
{}

/// Each chain of the row cache is in use where none is there; and it is still where objects moved, where objects were evicted, where room was made, where its chains and the recency list are as they were, where a write was put or refused, where a memtable's snapshot was taken back, where the sealed writes were let go, where chains were read, where a snapshot was taken, where a partition entered the cache or was kept out, or memory was refused for it, where fills were done, where partitions in which no update stood were invalidated or detached, and where a chain is gone. A snapshot that is taken back may leave its chain idle: where the chain is swept then, so that it goes if it is, each is in use again.
pub fn chains_of_the_cache_stay_in_use()
    ensures none { (m : Memory) → ((id : ℕ) (k : KeptChain) → chain_at m id ≡ Some k → k.chain.kind ≡ Cache → ⊥) → AreInUse m }
    ensures moved { (old new : Memory) → IsUntouched old new → AreInUse old → AreInUse new }
    ensures evicted { (went : List Member) (gone : List ℕ) (old new : Memory) → AreEvicted went gone old new → AreInUse old → AreInUse new }
    ensures made { (S : ℕ) (old new : Memory) → IsRoomMade S old new → AreInUse old → AreInUse new }
    ensures beside { (old new : Memory) → AreCachesSame old new → new.recency ≡ old.recency → AreInUse old → AreInUse new }
    ensures put { (S : ℕ) (schema : SchemaValue) (w : Write) (old new : Unstored S) (writes later : List Write) → IsRecency old.chains → HaveWrites schema old writes later → IsPutBehind schema w old new → AreInUse old.chains → AreInUse new.chains }
    ensures refused { (S : ℕ) (old new : Unstored S) → IsPutRefused old new → AreInUse old.chains → AreInUse new.chains }
    ensures released { (s : Snap) (old new : Memory) → HasSnap old s → IsReleased s old new → AreInUse old → AreInUse new }
    ensures let_go { (S : ℕ) (schema : SchemaValue) (u : Unstored S) (new : Memory) (writes later : List Write) → DoAscend u.sealed → HaveWrites schema u writes later → AreLetGo (map (λ e. e.1) u.sealed) u.chains new → AreInUse u.chains → AreInUse new }
    ensures before { (old new : Memory) → AreAsBefore old new → AreInUse old → AreInUse new }
    ensures taken { (id pin phase : ℕ) (old new : Memory) → IsSnapshotTaken old new id pin phase → AreInUse old → AreInUse new }
    ensures entered { (S : ℕ) (key : List ℕ) (pt : Option Tomb) (statics : Row) (phase : ℕ) (entries : List (List ℕ × ℕ)) (old new : Memory) (s : Snap) → IsEntered S key pt statics phase entries old new s → AreInUse old → AreInUse new }
    ensures kept_out { (S : ℕ) (old new : Memory) → IsKeptOut S old new → AreInUse old → AreInUse new }
    ensures enter_refused { (S : ℕ) (pt : Option Tomb) (statics : Row) (phase : ℕ) (old new : Memory) → IsEnterRefused S pt statics phase old new → AreInUse old → AreInUse new }
    ensures filled { (S id pin : ℕ) (old new : Memory) → AreFillsDone S id pin old new → AreInUse old → AreInUse new }
    ensures detached { (id : ℕ) (old new : Memory) → ((k : KeptChain) → chain_at old id ≡ Some k → k.chain.updating ≡ false) → IsDetached id old new → AreInUse old → AreInUse new }
    ensures invalidated { (ids : List ℕ) (phase : ℕ) (old new : Memory) → ((id : ℕ) (k : KeptChain) → IsNumberIn ids id → chain_at old id ≡ Some k → k.chain.updating ≡ false) → IsInvalidated ids phase old new → AreInUse old → AreInUse new }
    ensures gone { (id : ℕ) (old new : Memory) → IsChainDropped id old.recency old new → AreInUse old → AreInUse new }
    ensures swept { (s : Snap) (old new : Memory) (k : KeptChain) → chain_at (taken_back s old) s.chain ≡ Some k → (IsIdle (taken_back s old) s.chain k.chain → IsChainDropped s.chain old.recency (taken_back s old) new) →
        ((IsIdle (taken_back s old) s.chain k.chain → ⊥) → new ≡ taken_back s old) → AreInUse old → AreInUse new }
{
    calls_on_memtables_leave_the_cache();
    evictions_leave_the_use_of_a_chain();
    what_an_invalidation_leaves();
    what_leaves_the_chains_of_both_leaves_their_writes();
}

/// No call but the taking of a snapshot raises the number of the cache's snapshots, and that by one at most: it is no greater where objects moved, where objects were evicted, where room was made, where the chains of the cache are as they were, also once room was made, where a write was put, or was not, or memory was refused, where a memtable's snapshot was taken back, where the sealed writes were let go; where a partition was kept out of the cache, or memory was refused for it, where fills were done, where partitions were invalidated or detached, where a chain is gone, and where chains were read. Where a partition enters the cache a snapshot is taken. One of the cache's that is taken back is one less.
pub fn what_calls_leave_of_snapshots()
    ensures moved { (old new : Memory) → IsUntouched old new → cache_snapshots new ≤ cache_snapshots old }
    ensures evicted { (went : List Member) (gone : List ℕ) (old new : Memory) → AreEvicted went gone old new → cache_snapshots new ≤ cache_snapshots old }
    ensures made { (S : ℕ) (old new : Memory) → IsRoomMade S old new → cache_snapshots new ≤ cache_snapshots old }
    ensures beside { (old new : Memory) → AreCachesSame old new → cache_snapshots new ≤ cache_snapshots old }
    ensures made_beside { (S : ℕ) (old new : Memory) → IsRoomMadeBeside S old new → cache_snapshots new ≤ cache_snapshots old }
    ensures put { (S : ℕ) (schema : SchemaValue) (w : Write) (old new : Unstored S) (writes later : List Write) → IsRecency old.chains → HaveWrites schema old writes later → IsPutBehind schema w old new → cache_snapshots new.chains ≤ cache_snapshots old.chains }
    ensures not_put { (S : ℕ) (old new : Unstored S) → IsNotPut old new → cache_snapshots new.chains ≤ cache_snapshots old.chains }
    ensures refused { (S : ℕ) (old new : Unstored S) → IsPutRefused old new → cache_snapshots new.chains ≤ cache_snapshots old.chains }
    ensures taken { (id pin phase : ℕ) (old new : Memory) → IsSnapshotTaken old new id pin phase → cache_snapshots new ≤ cache_snapshots old + 1 }
    ensures back { (s : Snap) (m : Memory) → cache_snapshots (taken_back s m) ≤ cache_snapshots m }
    ensures one_less { (s : Snap) (m : Memory) → HasCacheSnapshot m s.chain s.pin → cache_snapshots (taken_back s m) + 1 ≤ cache_snapshots m }
    ensures released { (s : Snap) (old new : Memory) → HasSnap old s → IsReleased s old new → cache_snapshots new ≤ cache_snapshots old }
    ensures let_go { (S : ℕ) (schema : SchemaValue) (u : Unstored S) (new : Memory) (writes later : List Write) → DoAscend u.sealed → HaveWrites schema u writes later → AreLetGo (map (λ e. e.1) u.sealed) u.chains new → cache_snapshots new ≤ cache_snapshots u.chains }
    ensures entered { (S : ℕ) (key : List ℕ) (pt : Option Tomb) (statics : Row) (phase : ℕ) (entries : List (List ℕ × ℕ)) (old new : Memory) (s : Snap) → IsEntered S key pt statics phase entries old new s → cache_snapshots new ≤ cache_snapshots old + 1 }
    ensures kept_out { (S : ℕ) (old new : Memory) → IsKeptOut S old new → cache_snapshots new ≤ cache_snapshots old }
    ensures enter_refused { (S : ℕ) (pt : Option Tomb) (statics : Row) (phase : ℕ) (old new : Memory) → IsEnterRefused S pt statics phase old new → cache_snapshots new ≤ cache_snapshots old }
    ensures filled { (S id pin : ℕ) (old new : Memory) → AreFillsDone S id pin old new → cache_snapshots new ≤ cache_snapshots old }
    ensures detached { (id : ℕ) (old new : Memory) → IsDetached id old new → cache_snapshots new ≤ cache_snapshots old }
    ensures invalidated { (ids : List ℕ) (phase : ℕ) (old new : Memory) → IsInvalidated ids phase old new → cache_snapshots new ≤ cache_snapshots old }
    ensures gone { (id : ℕ) (list : List Member) (old new : Memory) → IsChainDropped id list old new → cache_snapshots new ≤ cache_snapshots old }
    ensures before { (old new : Memory) → AreAsBefore old new → cache_snapshots new ≤ cache_snapshots old }
{
    calls_on_memtables_leave_the_cache();
    evictions_leave_the_use_of_a_chain();
    what_an_invalidation_leaves();
}
