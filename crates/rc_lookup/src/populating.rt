//! What was read of a partition is put into the row cache, whole.
ghost use Rattle.std.specs.Prelude.{◌≡◌, ◌*◌, ◌/◌, ◌≤◌, ◌∷◌, ℕ, [], None, Some, List as Sequence, All, IfNone, IfOk, IfSome, IsSome, IsSomeAnd, IsTrue, MatchOption, OnErr, OnOk};
ghost use Rattle.rc_schema.specs.SchemaValue.{SchemaValue, is_schema};
ghost use Rattle.rc_mutation.specs.declared.mutations.Mutation.{Mutation as Change};
ghost use Rattle.rc_mutation.specs.Source.{SameSource};
ghost use Rattle.rc_writes.specs.Allowed.{ChangeFits};
ghost use Rattle.rc_core.specs.Version.{end_position};
ghost use Rattle.rc_memory.specs.Memory.{HasPin, Memory, chain_at};
ghost use Rattle.rc_cached.specs.Filling.{MayFill};
ghost use Rattle.rc_row_cache.specs.Found.{entry_number};
ghost use Rattle.rc_row_cache.specs.Entries.{AreEntries, LeavesCached};
ghost use Rattle.rc_row_cache.specs.Crowding.{LosesWhereCrowded};
ghost use Rattle.rc_row_cache.specs.Fillers.{losses};
ghost use Rattle.rc_cached.specs.Stands.{HasCacheSnapshot, StandsForWrites};
ghost use Rattle.rc_cached.specs.Coming.{AreCountsInRange};
ghost use Rattle.rc_stream.specs.Snapshot.{NoneLost, most_counted};
ghost use Rattle.rc_cursor.specs.Snapshots.{Knows};
ghost use Rattle.rc_cacheread.specs.Passing.{IsKnownOver};
ghost use Rattle.rc_snapshots.specs.Streams.{first_position};
ghost use Rattle.rc_row_cache.specs.Calls.{below_entry};
ghost use Rattle.rc_row_cache.specs.Saying.{Below, CacheSays, phase_pinned};
ghost use Rattle.rc_lookup.specs.Held.{IsHeldOf, IsHeldWhole};
ghost use Rattle.rc_lookup.specs.Known.{IsChainKnown};
ghost use Rattle.rc_lookup.specs.Rest.{LeavesBut, LeavesRest};
ghost use Rattle.rc_lookup.specs.Staying.{IsEntryStill};
ghost use Rattle.rc_lookup.specs.Looked.{IsCacheOver};
ghost use Rattle.rc_lookup.specs.calls.Entering.{IsFilledThrough, IsPartlyHeld};

use crate::filling::fill_all;
use rc_cached::StreamFiller;
use rc_mutation::Mutation;
use rc_position::PartKey;
use rc_row_cache::entries_laws::{
    each_change_leaves_the_caches_chains, each_key_is_found,
    what_leaves_the_caches_chains_leaves_the_entries,
};
use rc_row_cache::evict_laws::a_chain_that_is_dropped_had_its_ends_alone;
use rc_row_cache::filler_laws::{a_fill_spares_memtables_and_readers, a_fill_takes_no_segment};
use rc_row_cache::footprint::{
    chains_of_the_cache_stay_in_use, each_chain_of_the_cache_has_one_version,
    what_calls_leave_of_memtables, what_calls_leave_of_snapshots,
};
use rc_row_cache::laws::{
    a_snapshot_stands_for_what_lies_below, each_snapshot_pins_what_it_pinned,
    the_cache_says_what_lies_below, the_cache_says_what_lies_below_after_fills,
};
use rc_row_cache::populate_laws::an_opened_chain_says_what_is_handed_in;
use rc_row_cache::snapshots_laws::a_mutations_stream_reads_it;
use rc_row_cache::{Chains, RowCache, Snap};
use rc_stream::laws::the_stream_of_a_mutation;
use std::alloc::{AllocError, Global};

// A partition leaves the cache; all else is as it was.
fn forget_entry<const S: usize>(cache: &mut RowCache, chains: &mut Chains<S>, key: &PartKey)
    requires entries { AreEntries cache.old.entries chains.old }
    requires says { (schema : SchemaValue) × (below : Below) × CacheSays schema below chains.old }
    ensures none { entry_number cache.new.entries key.now ≡ None }
    ensures others { (q : Sequence ℕ) (id : ℕ) → entry_number cache.new.entries q ≡ Some id → entry_number cache.old.entries q ≡ Some id }
    ensures stays { (q : Sequence ℕ) → (q ≡ key.now → ⊥) → IsEntryStill q cache.old.entries chains.old cache.new.entries chains.new }
    ensures entries { AreEntries cache.new.entries chains.new }
    ensures rest { LeavesRest chains.old chains.new }
    ensures loses { LosesWhereCrowded S 0 chains.old chains.new }
    ensures says { (schema : SchemaValue) (below : Below) → CacheSays schema below chains.old → CacheSays schema below chains.new }
{
    chains_of_the_cache_stay_in_use();
    each_chain_of_the_cache_has_one_version();
    each_key_is_found();
    what_calls_leave_of_memtables();
    what_calls_leave_of_snapshots();
    chains.known();
    cache.forget(chains, key);
    chains.known();
}

// A count of 64 bits.
fn in_range(_count: u64)
    ensures { _count ≤ most_counted }
{}

// What is counted is counted by numbers of 64 bits.
fn counts_in_range<const S: usize>(chains: &Chains<S>)
    ensures { AreCountsInRange chains.now.counts }
{
    let counts = chains.counts();
    in_range(counts.evicted);
    in_range(counts.skipped);
}

// Fills what was read of a partition through a snapshot of its chain, which stands for it. The only error is want of memory: then the rest is not filled.
fn fill_read<const S: usize>(
    alloc: Global,
    chains: &mut Chains<S>,
    snap: &Snap,
    read: &Mutation,
) -> Result<(), AllocError>
    requires roomy { 8952 ≤ 7 * S / 8 }
    requires fits { (schema : SchemaValue) × ChangeFits schema read.now }
    requires stands { (writes : Sequence Change) × StandsForWrites S chains.old snap.now.chain snap.now.pin writes × SameSource (read.now ∷ []) writes }
    ensures through { IsFilledThrough S snap.now chains.old chains.new }
    ensures may { MayFill chains.old snap.now.chain snap.now.pin → MayFill chains.new snap.now.chain snap.now.pin }
    ensures stands { (writes : Sequence Change) → StandsForWrites S chains.old snap.now.chain snap.now.pin writes → SameSource (read.now ∷ []) writes → StandsForWrites S chains.new snap.now.chain snap.now.pin writes }
    ensures loses { (schema : SchemaValue) → IsTrue (is_schema schema) → ChangeFits schema read.now → LosesWhereCrowded S 0 chains.old chains.new }
    ensures known { OnOk result (MayFill chains.old snap.now.chain snap.now.pin → NoneLost (losses chains.old) (losses chains.new) → IsKnownOver (Knows chains.new snap.now) first_position end_position) }
{
    a_fill_spares_memtables_and_readers();
    a_fill_takes_no_segment();
    a_mutations_stream_reads_it();
    chains_of_the_cache_stay_in_use();
    each_chain_of_the_cache_has_one_version();
    each_snapshot_pins_what_it_pinned();
    the_stream_of_a_mutation();
    what_calls_leave_of_memtables();
    what_calls_leave_of_snapshots();
    counts_in_range(chains);
    read.holds_together();
    match read.fragments(alloc) {
        Ok(list) => {
            let filler = StreamFiller::of(snap);
            fill_all(alloc, chains, &filler, list.as_slice())
        }
        Err(error) => Err(error),
    }
}

// A snapshot of a chain of the cache is taken back. The chain goes with it, where it has nothing that could be evicted.
fn give_up<const S: usize>(chains: &mut Chains<S>, snap: Snap)
    requires { HasCacheSnapshot chains.old snap.chain snap.pin }
    ensures rest { (before : Memory) → LeavesBut snap before chains.old → (HasPin before snap.chain snap.pin → ⊥) → LeavesRest before chains.new }
    ensures lost { losses chains.new ≡ losses chains.old }
    ensures beside { (id : ℕ) → (id ≡ snap.chain → ⊥) → chain_at chains.new id ≡ chain_at chains.old id }
    ensures cached { LeavesCached chains.old chains.new }
    ensures says { (schema : SchemaValue) (below : Below) → CacheSays schema below chains.old → CacheSays schema below chains.new }
    ensures loses { LosesWhereCrowded S 0 chains.old chains.new }
    ensures known { IsHeldWhole chains.old snap → IsChainKnown chains.new snap.chain }
{
    a_chain_that_is_dropped_had_its_ends_alone();
    chains_of_the_cache_stay_in_use();
    each_chain_of_the_cache_has_one_version();
    each_change_leaves_the_caches_chains();
    each_snapshot_pins_what_it_pinned();
    the_cache_says_what_lies_below();
    what_calls_leave_of_memtables();
    what_calls_leave_of_snapshots();
    what_leaves_the_caches_chains_leaves_the_entries();
    let chain = snap.chain;
    chains.release(snap);
    chains.known();
    chains.sweep(chain);
    chains.known();
}

// Fills what was read of a partition through the snapshot of its new chain. The only error is want of memory: then the snapshot is taken back, and the chain goes with it, where it has nothing that could be evicted.
fn fill_held<const S: usize>(
    alloc: Global,
    chains: &mut Chains<S>,
    snap: Snap,
    read: &Mutation,
) -> Result<Option<Snap>, AllocError>
    requires roomy { 8952 ≤ 7 * S / 8 }
    requires fits { (schema : SchemaValue) × ChangeFits schema read.now }
    requires stands { (writes : Sequence Change) × StandsForWrites S chains.old snap.chain snap.pin writes × SameSource (read.now ∷ []) writes }
    ensures some { IfOk result IsSome }
    ensures through { IfOk result (λ o. IfSome o (λ s. (s ≡ snap) × IsFilledThrough S snap chains.old chains.new)) }
    ensures whole { IfOk result (λ o. IfSome o (λ s. IsPartlyHeld chains.old snap → NoneLost (losses chains.old) (losses chains.new) → IsHeldWhole chains.new s)) }
    ensures rest_err { OnErr result ((before : Memory) → LeavesBut snap before chains.old → (HasPin before snap.chain snap.pin → ⊥) → LeavesRest before chains.new) }
    ensures lost { losses chains.old ≤ losses chains.new }
    ensures beside { NoneLost (losses chains.old) (losses chains.new) → (id : ℕ) → (id ≡ snap.chain → ⊥) → chain_at chains.new id ≡ chain_at chains.old id }
    ensures cached { LeavesCached chains.old chains.new }
    ensures says { (schema : SchemaValue) (below : Below) (h : HasCacheSnapshot chains.old snap.chain snap.pin) (writes : Sequence Change) → All (ChangeFits schema) writes → StandsForWrites S chains.old snap.chain snap.pin writes → SameSource (read.now ∷ []) writes → SameSource (below snap.chain (phase_pinned h)) writes →
        CacheSays schema below chains.old → CacheSays schema below chains.new }
    ensures loses { (schema : SchemaValue) → IsTrue (is_schema schema) → ChangeFits schema read.now → LosesWhereCrowded S 0 chains.old chains.new }
{
    each_change_leaves_the_caches_chains();
    the_cache_says_what_lies_below_after_fills();
    what_leaves_the_caches_chains_leaves_the_entries();
    let filled = fill_read(alloc, chains, &snap, read);
    chains.known();
    match filled {
        Ok(()) => Ok(Some(snap)),
        Err(error) => {
            give_up(chains, snap);
            Err(error)
        }
    }
}

// Opens the entry of a partition that has none by what was read of it, and fills that; gives the snapshot through which it was filled. All chains have one phase, since no call of this crate gives one another. The only error is want of memory.
fn enter_read<const S: usize>(
    alloc: Global,
    cache: &mut RowCache,
    chains: &mut Chains<S>,
    key: &PartKey,
    read: &Mutation,
) -> Result<Option<Snap>, AllocError>
    requires entries { AreEntries cache.old.entries chains.old }
    requires absent { entry_number cache.old.entries key.now ≡ None }
    requires roomy { 8952 ≤ 7 * S / 8 }
    requires over { (schema : SchemaValue) × (below : Below) × IsCacheOver S schema below chains.old × ChangeFits schema read.now }
    ensures taken { IfOk result (λ o. IfSome o (IsHeldOf key.now cache.new.entries chains.old chains.new)) }
    ensures apart { IfOk result (λ o. IfSome o (λ s. (pin : ℕ) → HasCacheSnapshot chains.old s.chain pin → ⊥)) }
    ensures apart_err { OnErr result ((id pin : ℕ) → entry_number cache.new.entries key.now ≡ Some id → HasCacheSnapshot chains.old id pin → ⊥) }
    ensures absent { IfOk result (λ o. IfNone o (entry_number cache.new.entries key.now ≡ None)) }
    ensures skips { IfOk result (λ o. IfNone o (NoneLost chains.old.counts.skipped chains.new.counts.skipped → ⊥)) }
    ensures whole { IfOk result (λ o. MatchOption o (NoneLost (losses chains.old) (losses chains.new) → ⊥) (λ s. NoneLost (losses chains.old) (losses chains.new) → IsHeldWhole chains.new s)) }
    ensures loses { LosesWhereCrowded S 1 chains.old chains.new }
    ensures rest { IfOk result (λ o. MatchOption o (LeavesRest chains.old chains.new) (λ s. LeavesBut s chains.old chains.new)) }
    ensures rest_err { OnErr result (LeavesRest chains.old chains.new) }
    ensures says { (schema : SchemaValue) (below : Below) (writes : Sequence Change) → IsCacheOver S schema below chains.old → All (ChangeFits schema) writes → SameSource (read.now ∷ []) writes →
        CacheSays schema (below_entry (entry_number cache.new.entries key.now) (λ _. writes) below) chains.new }
    ensures entries { AreEntries cache.new.entries chains.new }
    ensures others { (q : Sequence ℕ) (id : ℕ) → entry_number cache.new.entries q ≡ Some id → (q ≡ key.now → ⊥) → entry_number cache.old.entries q ≡ Some id }
    ensures stays { OnOk result (NoneLost (losses chains.old) (losses chains.new) → (q : Sequence ℕ) → (q ≡ key.now → ⊥) → IsEntryStill q cache.old.entries chains.old cache.new.entries chains.new) }
{
    a_fill_spares_memtables_and_readers();
    a_fill_takes_no_segment();
    a_mutations_stream_reads_it();
    a_snapshot_stands_for_what_lies_below();
    an_opened_chain_says_what_is_handed_in();
    chains_of_the_cache_stay_in_use();
    each_chain_of_the_cache_has_one_version();
    each_snapshot_pins_what_it_pinned();
    the_stream_of_a_mutation();
    what_calls_leave_of_memtables();
    what_calls_leave_of_snapshots();
    what_leaves_the_caches_chains_leaves_the_entries();
    counts_in_range(chains);
    chains.known();
    read.holds_together();
    match cache.enter(alloc, chains, key, 0, read) {
        Ok(Some(snap)) => fill_held(alloc, chains, snap, read),
        Ok(None) => Ok(None),
        Err(error) => Err(error),
    }
}

/// Puts what was read of a partition into the row cache, in place of what it has of it: in a new entry, for which and for each part of which room is made by moves and evictions; what finds no room is left out. Gives a snapshot of its new chain, the one through which that was filled; none where no room could be made for its entry. All else that it has stays, where nothing is lost; and what is lost is lost in a crowded region: one version is made at most. The only error is want of memory: then no snapshot is taken, and the cache has some of it, or nothing.
pub fn take_populated<const S: usize>(
    alloc: Global,
    cache: &mut RowCache,
    chains: &mut Chains<S>,
    key: &PartKey,
    read: &Mutation,
) -> Result<Option<Snap>, AllocError>
    requires entries { AreEntries cache.old.entries chains.old }
    requires roomy { 8952 ≤ 7 * S / 8 }
    requires over { (schema : SchemaValue) × (below : Below) × IsCacheOver S schema below chains.old × ChangeFits schema read.now }
    ensures known { OnOk result (NoneLost (losses chains.old) (losses chains.new) → IsSomeAnd (entry_number cache.new.entries key.now) (IsChainKnown chains.new)) }
    ensures taken { IfOk result (λ o. IfSome o (IsHeldOf key.now cache.new.entries chains.old chains.new)) }
    ensures whole { IfOk result (λ o. IfSome o (λ s. NoneLost (losses chains.old) (losses chains.new) → IsHeldWhole chains.new s)) }
    ensures apart { IfOk result (λ o. IfSome o (λ s. (pin : ℕ) → HasCacheSnapshot chains.old s.chain pin → ⊥)) }
    ensures apart_err { OnErr result ((id pin : ℕ) → entry_number cache.new.entries key.now ≡ Some id → HasCacheSnapshot chains.old id pin → ⊥) }
    ensures absent { IfOk result (λ o. IfNone o (entry_number cache.new.entries key.now ≡ None)) }
    ensures skips { IfOk result (λ o. IfNone o (NoneLost chains.old.counts.skipped chains.new.counts.skipped → ⊥)) }
    ensures loses { LosesWhereCrowded S 1 chains.old chains.new }
    ensures rest { IfOk result (λ o. MatchOption o (LeavesRest chains.old chains.new) (λ s. LeavesBut s chains.old chains.new)) }
    ensures rest_err { OnErr result (LeavesRest chains.old chains.new) }
    ensures says { (schema : SchemaValue) (below : Below) (writes : Sequence Change) → IsCacheOver S schema below chains.old → All (ChangeFits schema) writes → SameSource (read.now ∷ []) writes →
        CacheSays schema (below_entry (entry_number cache.new.entries key.now) (λ _. writes) below) chains.new }
    ensures entries { AreEntries cache.new.entries chains.new }
    ensures others { (q : Sequence ℕ) (id : ℕ) → entry_number cache.new.entries q ≡ Some id → (q ≡ key.now → ⊥) → entry_number cache.old.entries q ≡ Some id }
    ensures stays { OnOk result (NoneLost (losses chains.old) (losses chains.new) → (q : Sequence ℕ) → (q ≡ key.now → ⊥) → IsEntryStill q cache.old.entries chains.old cache.new.entries chains.new) }
{
    forget_entry(cache, chains, key);
    enter_read(alloc, cache, chains, key, read)
}

/// Puts what was read of a partition into the row cache, as `take_populated` does, and hands out no snapshot. The only error is want of memory: then the cache has some of it, or nothing.
pub fn populate<const S: usize>(
    alloc: Global,
    cache: &mut RowCache,
    chains: &mut Chains<S>,
    key: &PartKey,
    read: &Mutation,
) -> Result<(), AllocError>
    requires entries { AreEntries cache.old.entries chains.old }
    requires roomy { 8952 ≤ 7 * S / 8 }
    requires over { (schema : SchemaValue) × (below : Below) × IsCacheOver S schema below chains.old × ChangeFits schema read.now }
    ensures known { OnOk result (NoneLost (losses chains.old) (losses chains.new) → IsSomeAnd (entry_number cache.new.entries key.now) (IsChainKnown chains.new)) }
    ensures apart { (id pin : ℕ) → entry_number cache.new.entries key.now ≡ Some id → HasCacheSnapshot chains.old id pin → ⊥ }
    ensures loses { LosesWhereCrowded S 1 chains.old chains.new }
    ensures rest { LeavesRest chains.old chains.new }
    ensures says { (schema : SchemaValue) (below : Below) (writes : Sequence Change) → IsCacheOver S schema below chains.old → All (ChangeFits schema) writes → SameSource (read.now ∷ []) writes →
        CacheSays schema (below_entry (entry_number cache.new.entries key.now) (λ _. writes) below) chains.new }
    ensures entries { AreEntries cache.new.entries chains.new }
    ensures others { (q : Sequence ℕ) (id : ℕ) → entry_number cache.new.entries q ≡ Some id → (q ≡ key.now → ⊥) → entry_number cache.old.entries q ≡ Some id }
    ensures stays { OnOk result (NoneLost (losses chains.old) (losses chains.new) → (q : Sequence ℕ) → (q ≡ key.now → ⊥) → IsEntryStill q cache.old.entries chains.old cache.new.entries chains.new) }
{
    what_leaves_the_caches_chains_leaves_the_entries();
    chains.known();
    match take_populated(alloc, cache, chains, key, read) {
        Ok(Some(snap)) => {
            give_up(chains, snap);
            Ok(())
        }
        Ok(None) => Ok(()),
        Err(error) => Err(error),
    }
}
