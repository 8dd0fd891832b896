//! A partition looked up in the row cache.
ghost use Rattle.std.specs.Prelude.{◌≡◌, ◌⊎◌, ℕ, Some, List as Sequence, IfNone, IfOk, IfSome, IsSome, IsSomeAnd, MatchOption, OnErr};
ghost use Rattle.rc_schema.specs.SchemaValue.{SchemaValue};
ghost use Rattle.rc_row_cache.specs.Found.{IsForgotten, entry_number};
ghost use Rattle.rc_row_cache.specs.Crowding.{LosesWhereCrowded};
ghost use Rattle.rc_row_cache.specs.Entries.{AreEntries};
ghost use Rattle.rc_cached.specs.Stands.{HasCacheSnapshot};
ghost use Rattle.rc_row_cache.specs.Saying.{Below, CacheSays};
ghost use Rattle.rc_lookup.specs.Held.{IsHeldOf};
ghost use Rattle.rc_lookup.specs.Known.{IsStaticRowIn, KnowsStaticRow};
ghost use Rattle.rc_lookup.specs.Rest.{LeavesBut, LeavesRest};
ghost use Rattle.rc_lookup.specs.Staying.{IsEntryStill};
ghost use Rattle.rc_lookup.specs.Touched.{AreRecent, AreTouched, IsHeadOrEnd};
ghost use Rattle.rc_lookup.specs.calls.Touched.{IsReordered};
ghost use Rattle.rc_lookup.specs.Looked.{IsCacheOver, IsStill, IsUnread};
ghost use Rattle.rc_lookup.specs.calls.Reading.{without_snap};

use crate::knowing::is_static_row_known;
use crate::touching::touch_head_and_end;
use rc_position::PartKey;
use rc_row_cache::entries_laws::{
    each_change_leaves_the_caches_chains, what_leaves_the_caches_chains_leaves_the_entries,
};
use rc_row_cache::footprint::{
    chains_of_the_cache_stay_in_use, each_chain_of_the_cache_has_one_version,
    what_calls_leave_of_memtables, what_calls_leave_of_snapshots,
};
use rc_row_cache::laws::{each_snapshot_pins_what_it_pinned, the_cache_says_what_lies_below};
use rc_row_cache::{Chains, RowCache, Snap};
use std::alloc::{AllocError, Global};

// Keeps a snapshot to which the static row of its partition is known: then that and the end of the partition are the most recent objects. One to which it is not is taken back.
fn keep_known<const S: usize>(
    alloc: Global,
    chains: &mut Chains<S>,
    snap: Snap,
) -> Result<Option<Snap>, AllocError>
    requires { HasCacheSnapshot chains.old snap.chain snap.pin }
    ensures kept { IfOk result (λ o. IfSome o (λ s. (s ≡ snap) × KnowsStaticRow chains.old snap × AreTouched (IsHeadOrEnd snap.chain) chains.old chains.new)) }
    ensures missed { IfOk result (λ o. IfNone o (chains.new ≡ without_snap snap chains.old)) }
    ensures err { OnErr result (chains.new ≡ without_snap snap chains.old) }
    ensures none { IfOk result (λ o. IfNone o (KnowsStaticRow chains.old snap → ⊥)) }
    ensures left { IsReordered chains.old chains.new ⊎ (chains.new ≡ without_snap snap chains.old) }
{
    match is_static_row_known(chains, &snap) {
        Ok(true) => {
            touch_head_and_end(alloc, chains, snap.chain);
            Ok(Some(snap))
        }
        Ok(false) => {
            chains.release(snap);
            Ok(None)
        }
        Err(error) => {
            chains.release(snap);
            Err(error)
        }
    }
}

/// A snapshot of the chain of a partition, exactly where the row cache knows its static row, which is known to the snapshot then: the static row and the end of the partition are the most recent objects of the cache then. None where the partition is not in the cache, or its static row is not known: then no snapshot is taken. What the cache has stays; entries whose chains are gone are forgotten. The only error is want of memory: then no snapshot is taken.
pub fn take_known<const S: usize>(
    alloc: Global,
    cache: &mut RowCache,
    chains: &mut Chains<S>,
    key: &PartKey,
) -> Result<Option<Snap>, AllocError>
    requires entries { AreEntries cache.old.entries chains.old }
    requires over { (schema : SchemaValue) × (below : Below) × IsCacheOver S schema below chains.old }
    ensures known { (id : ℕ) → entry_number cache.old.entries key.now ≡ Some id → IsStaticRowIn chains.old id → IfOk result IsSome }
    ensures head { IfOk result (λ o. IfSome o (λ s. KnowsStaticRow chains.new s)) }
    ensures was { IfOk result (λ o. IfSome o (λ _. IsSomeAnd (entry_number cache.old.entries key.now) (IsStaticRowIn chains.old))) }
    ensures taken { IfOk result (λ o. IfSome o (IsHeldOf key.now cache.new.entries chains.old chains.new)) }
    ensures left { IsStill chains.old chains.new }
    ensures loses { LosesWhereCrowded S 0 chains.old chains.new }
    ensures stays { (q : Sequence ℕ) → IsEntryStill q cache.old.entries chains.old cache.new.entries chains.new }
    ensures hit { IfOk result (λ o. IfSome o (λ _. IsSomeAnd (entry_number cache.new.entries key.now) (λ id. AreRecent (IsHeadOrEnd id) chains.old.recency chains.new.recency))) }
    ensures missed { IfOk result (λ o. IfNone o (IsUnread chains.old chains.new)) }
    ensures err { OnErr result (IsUnread chains.old chains.new) }
    ensures rest { IfOk result (λ o. MatchOption o (LeavesRest chains.old chains.new) (λ s. LeavesBut s chains.old chains.new)) }
    ensures rest_err { OnErr result (LeavesRest chains.old chains.new) }
    ensures says { (schema : SchemaValue) (below : Below) → CacheSays schema below chains.old → CacheSays schema below chains.new }
    ensures entries { AreEntries cache.new.entries chains.new }
    ensures forgotten { IsForgotten chains.old.dropped cache.old.entries cache.new.entries }
{
    chains_of_the_cache_stay_in_use();
    each_change_leaves_the_caches_chains();
    the_cache_says_what_lies_below();
    what_leaves_the_caches_chains_leaves_the_entries();
    each_chain_of_the_cache_has_one_version();
    each_snapshot_pins_what_it_pinned();
    what_calls_leave_of_memtables();
    what_calls_leave_of_snapshots();
    chains.known();
    match cache.snapshot(chains, key) {
        Ok(Some(snap)) => keep_known(alloc, chains, snap),
        Ok(None) => Ok(None),
        Err(error) => Err(error),
    }
}
