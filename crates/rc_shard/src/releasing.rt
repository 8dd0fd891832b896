//! A snapshot of a chain of the row cache is taken back; and what leaves the snapshots of the cache.
ghost use Rattle.std.specs.Prelude.{◌≡◌, ℕ, IfSome, List, Option};
ghost use Rattle.rc_registry.specs.ChainKind.TheVariants.{Memtable};
ghost use Rattle.rc_memory.specs.Memory.{IsUntouched, Member, Memory};
ghost use Rattle.rc_chain.specs.declared.chains.Snap.{Snap as Snapshot};
ghost use Rattle.rc_cached.specs.Stands.{HasCacheSnapshot};
ghost use Rattle.rc_snapshots.specs.Seeing.{HasSnap};
ghost use Rattle.rc_snapshots.specs.Snapshots.{kind_seen};
ghost use Rattle.rc_lookup.specs.Crowding.{LosesWhereCrowded};
ghost use Rattle.rc_lookup.specs.Detached.{IsDetached};
ghost use Rattle.rc_lookup.specs.Evictions.{AreEvicted, IsRoomMade};
ghost use Rattle.rc_lookup.specs.Leaving.{AreCachesSame};
ghost use Rattle.rc_lookup.specs.Partitions.{AreAsBefore};
ghost use Rattle.rc_lookup.specs.Readers.{IsReleased, IsTakenIf};
ghost use Rattle.rc_shard.specs.Readers.{IsCachedThere};
ghost use Rattle.rc_shard.specs.Releasing.{IsCachedReleased, IsSnapGivenBack, KeepsSnapshots};

use rc_lookup::Chains;
use rc_lookup::entries_laws::{
    each_change_leaves_the_caches_chains, what_leaves_the_caches_chains_leaves_the_entries,
};
use rc_lookup::evict_laws::{
    a_chain_that_is_dropped_had_its_ends_alone, evictions_leave_the_use_of_a_chain,
};
use rc_lookup::footprint::{
    chains_of_the_cache_stay_in_use, each_chain_of_the_cache_has_one_version,
    what_calls_leave_of_memtables,
};
use rc_lookup::row_cache_laws::{
    calls_on_memtables_leave_the_cache, each_snapshot_pins_what_it_pinned,
    the_cache_says_what_lies_below,
};
use rc_snapshots::Snap;

/// Takes a snapshot of a chain of the row cache back. The chain goes with it, where nothing pins it then and nothing of it could be evicted.
pub(crate) fn release_cached(chains: &mut Chains<131_072>, snap: Snap)
    requires { HasCacheSnapshot chains.old snap.chain snap.pin }
    ensures released { IsCachedReleased snap chains.old chains.new }
    ensures loses { LosesWhereCrowded 131072 0 chains.old chains.new }
{
    a_chain_that_is_dropped_had_its_ends_alone();
    chains_of_the_cache_stay_in_use();
    each_chain_of_the_cache_has_one_version();
    each_change_leaves_the_caches_chains();
    each_snapshot_pins_what_it_pinned();
    the_cache_says_what_lies_below();
    what_calls_leave_of_memtables();
    what_leaves_the_caches_chains_leaves_the_entries();
    let chain = snap.chain;
    chains.release(snap);
    chains.known();
    chains.sweep(chain);
    chains.known();
}

/// Takes a snapshot of a chain of the row cache back, where there is one.
pub(crate) fn give_back(chains: &mut Chains<131_072>, snap: Option<Snap>)
    requires { IsCachedThere chains.old snap }
    ensures back { IsSnapGivenBack snap chains.old chains.new }
    ensures loses { LosesWhereCrowded 131072 0 chains.old chains.new }
{
    if let Some(snap) = snap {
        release_cached(chains, snap);
    }
}

/// Each snapshot of a chain of the row cache is there still, and they are no more, where a snapshot of a memtable's chain was taken or taken back, where objects moved or were evicted, where room was made, where each chain of the cache is as it was, as after each call on memtables, where chains were read, and where a chain was detached. That composes.
pub(crate) fn calls_leave_the_snapshots_of_the_cache()
    ensures taken { (old new : Memory) (taken : Option Snapshot) → IfSome taken (λ s. kind_seen new s ≡ Memtable) → IsTakenIf old new taken → KeepsSnapshots old new }
    ensures released { (s : Snapshot) (old new : Memory) → HasSnap old s → IsReleased s old new → KeepsSnapshots old new }
    ensures moved { (old new : Memory) → IsUntouched old new → KeepsSnapshots old new }
    ensures evicted { (went : List Member) (gone : List ℕ) (old new : Memory) → AreEvicted went gone old new → KeepsSnapshots old new }
    ensures made { (S : ℕ) (old new : Memory) → IsRoomMade S old new → KeepsSnapshots old new }
    ensures beside { (old new : Memory) → AreCachesSame old new → KeepsSnapshots old new }
    ensures before { (old new : Memory) → AreAsBefore old new → KeepsSnapshots old new }
    ensures detached { (id : ℕ) (old new : Memory) → IsDetached id old new → KeepsSnapshots old new }
    ensures itself { (m : Memory) → KeepsSnapshots m m }
    ensures both { (old mid new : Memory) → KeepsSnapshots old mid → KeepsSnapshots mid new → KeepsSnapshots old new }
{
    calls_on_memtables_leave_the_cache();
    each_snapshot_pins_what_it_pinned();
    evictions_leave_the_use_of_a_chain();
}
