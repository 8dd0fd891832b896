//! What calls on memtables leave of the row cache.
ghost use Rattle.std.specs.Prelude.{◌≡◌, ◌≤◌, ◌+◌, ◌*◌, ℕ, [], IfSome, List, Option, Some, None, map};
ghost use Rattle.lsa_region.specs.Region.{live_bytes};
ghost use Rattle.rc_schema.specs.SchemaValue.{SchemaValue};
ghost use Rattle.rc_writes.specs.Weight.{weight};
ghost use Rattle.rc_mutation.specs.declared.mutations.Write.{Write};
ghost use Rattle.rc_registry.specs.ChainKind.TheVariants.{Cache, Memtable};
ghost use Rattle.rc_registry.specs.Registry.{IsNumberIn};
ghost use Rattle.rc_memory.specs.Kept.{IsLiveInChains, IsSoundChain};
ghost use Rattle.rc_memory.specs.Changes.{OfVersion};
ghost use Rattle.rc_registry.specs.Version.{IsVersion};
ghost use Rattle.rc_memory.specs.Memory.{KeptChain, Member, Memory, chain_at};
ghost use Rattle.rc_memory.specs.Recency.{IsRecency};
ghost use Rattle.rc_chain.specs.declared.chains.Snap.{Snap};
ghost use Rattle.rc_lookup.specs.Evictions.{AreEvicted, IsRoomMade};
ghost use Rattle.rc_lookup.specs.Lives.{IsSameButSlots};
ghost use Rattle.rc_lookup.specs.LetGo.{AreLetGo, NoCountFell};
ghost use Rattle.rc_lookup.specs.Partitions.{AreAsBefore};
ghost use Rattle.rc_lookup.specs.Writes.{DoAscend};
ghost use Rattle.rc_snapshots.specs.declared.snaps.Snaps.{Snaps};
ghost use Rattle.rc_snapshots.specs.Seeing.{AreThere};
ghost use Rattle.rc_snapshots.specs.Snapshots.{kind_seen};
ghost use Rattle.rc_lookup.specs.Unstored.{Unstored};
ghost use Rattle.rc_lookup.specs.Memtables.{HaveWrites};
ghost use Rattle.rc_lookup.specs.Readers.{IsReleasedIf, IsTakenIf};
ghost use Rattle.rc_lookup.specs.Steps.{AreObjectsMoved, IsPutBehind};
ghost use Rattle.rc_lookup.specs.Footprint.{AreInUse, HaveOneVersion, cache_snapshots, memtable_bytes};
ghost use Rattle.rc_shard.specs.Readers.{AreOfTwo};
ghost use Rattle.rc_shard.specs.calls.Caching.{KeepsCache, LeavesCache};

use crate::releasing::calls_leave_the_snapshots_of_the_cache;
use rc_lookup::entries_laws::{
    each_change_leaves_the_caches_chains, what_leaves_the_caches_chains_leaves_the_entries,
};
use rc_lookup::footprint::{
    a_write_is_of_a_memtable, chains_of_the_cache_stay_in_use,
    each_chain_of_the_cache_has_one_version, little_is_left_where_nothing_may_be_evicted,
    what_calls_leave_of_memtables, what_is_live_is_of_both,
};
use rc_lookup::row_cache_laws::{
    calls_on_memtables_leave_the_cache, room_leaves_the_entries, the_cache_says_what_lies_below,
};
use rc_lookup::unstored_laws::what_a_call_leaves_of_the_room;

// Calls on memtables leave what the row cache has, each chain of it as well where nothing was lost, and all but a write that is put leave what memtables take no more: where objects moved, also where the region got root slots, where chains were read, where both snapshots of a reader were taken, or taken back, where the sealed writes were let go, where objects were evicted, and where room was made. By a write that was put they take more by at most its weight.
pub(crate) fn what_calls_leave_of_the_cache()
    ensures moved { (old new : Memory) → AreObjectsMoved old new → KeepsCache old new }
    ensures slots { (old new : Memory) → IsSameButSlots old new → KeepsCache old new }
    ensures before { (old new : Memory) → AreAsBefore old new → KeepsCache old new }
    ensures taken { (old mid new : Memory) (first second : Option Snap) → IfSome first (λ s. kind_seen new s ≡ Memtable) → IfSome second (λ s. kind_seen new s ≡ Memtable) → IsTakenIf old mid first → IsTakenIf mid new second → KeepsCache old new }
    ensures back { (old mid new : Memory) (snaps : Snaps) → AreThere old snaps → AreOfTwo snaps → IsReleasedIf snaps.sealed old mid → IsReleasedIf snaps.active mid new → KeepsCache old new }
    ensures let_go { (schema : SchemaValue) (u : Unstored 131072) (new : Memory) (writes later : List Write) → DoAscend u.sealed → HaveWrites schema u writes later → AreLetGo (map (λ e. e.1) u.sealed) u.chains new → KeepsCache u.chains new }
    ensures evicted { (went : List Member) (gone : List ℕ) (old new : Memory) → ((id : ℕ) → IsNumberIn old.dropped id → chain_at old id ≡ None) → NoCountFell old new → AreEvicted went gone old new → KeepsCache old new }
    ensures made { (S : ℕ) (old new : Memory) → ((id : ℕ) → IsNumberIn old.dropped id → chain_at old id ≡ None) → IsRoomMade S old new → KeepsCache old new }
    ensures put { (schema : SchemaValue) (w : Write) (old new : Unstored 131072) (writes later : List Write) → IsPutBehind schema w old new → IsRecency old.chains → ((id : ℕ) → IsNumberIn old.chains.dropped id → chain_at old.chains id ≡ None) → IsLiveInChains new.chains →
        HaveWrites schema old writes later → LeavesCache old.chains new.chains × (memtable_bytes new.chains ≤ memtable_bytes old.chains + weight w.change) }
{
    a_write_is_of_a_memtable();
    calls_leave_the_snapshots_of_the_cache();
    calls_on_memtables_leave_the_cache();
    chains_of_the_cache_stay_in_use();
    each_chain_of_the_cache_has_one_version();
    each_change_leaves_the_caches_chains();
    room_leaves_the_entries();
    the_cache_says_what_lies_below();
    what_a_call_leaves_of_the_room();
    what_calls_leave_of_memtables();
    what_leaves_the_caches_chains_leaves_the_entries();
}

// Where no chain of the row cache is there it has what it must. And where nothing is left that may be evicted all that is live is of memtables, but for 152 bytes for each snapshot of the cache, if between two steps the cache has what it must.
pub(crate) fn what_is_live_is_of_memtables()
    ensures none { (m : Memory) → ((id : ℕ) (k : KeptChain) → chain_at m id ≡ Some k → k.chain.kind ≡ Cache → ⊥) → HaveOneVersion m × AreInUse m }
    ensures live { (m : Memory) → IsRecency m → ((id j : ℕ) → OfVersion m id j (λ k v. IsVersion v)) → ((id : ℕ) → IfSome (chain_at m id) (λ k. IsSoundChain k.chain)) → IsLiveInChains m → m.recency ≡ [] →
        HaveOneVersion m → AreInUse m → live_bytes m.region ≤ memtable_bytes m + 152 * cache_snapshots m }
{
    chains_of_the_cache_stay_in_use();
    each_chain_of_the_cache_has_one_version();
    little_is_left_where_nothing_may_be_evicted();
    what_is_live_is_of_both();
}
