//! The row cache of a shard, over the shard's chains.
ghost use Rattle.std.specs.Prelude.{◌≡◌, ◌+◌, ◌*◌, ◌/◌, ◌≤◌, ℕ, List as Sequence, [], Some, None, All, IsSome, IfNone, IfOk, IfSome, OnErr, OnOk, cond};
ghost use Rattle.std.specs.BTreeMap.{is_at};
ghost use Rattle.std.specs.Map.{remove_entry};
ghost use Rattle.lsa_pool.specs.Room.{spare_of};
ghost use Rattle.rc_position.specs.Position.{bytes_cmp};
ghost use Rattle.rc_rowcode.specs.Spelling.{RowFits};
ghost use Rattle.rc_schema.specs.SchemaValue.{SchemaValue};
ghost use Rattle.rc_mutation.specs.declared.mutations.Mutation.{Mutation as Change};
ghost use Rattle.rc_mutation.specs.Source.{source_at_head, source_at_static};
ghost use Rattle.rc_writes.specs.Allowed.{ChangeFits};
ghost use Rattle.rc_version.specs.Versions.{statics_bytes};
ghost use Rattle.rc_memory.specs.Memory.{KeptChain, Memory, chain_at, raised_by, with_dropped};
ghost use Rattle.rc_filler.specs.Crowding.{LosesWhereCrowded};
ghost use Rattle.rc_filler.specs.Stands.{HasCacheSnapshot};
ghost use Rattle.rc_entries.specs.Filling.{IsEntryOpened, MayFill, filled_statics};
ghost use Rattle.rc_entries.specs.Detached.{IsDetached};
ghost use Rattle.rc_entries.specs.Found.{IsForgotten, entry_number};
ghost use Rattle.rc_entries.specs.Entries.{AreEntries, AreSettled, IsCached};
ghost use Rattle.rc_entries.specs.Invalidated.{IsInvalidated, KeepsReaders, entry_numbers, is_one_of, partition_keys, without_keys};
ghost use Rattle.rc_chain.specs.declared.chains.Snap.{Snap as Snapshot};
ghost use Rattle.rc_snapshots.specs.Seeing.{AllStillSee, NothingIsLost};
ghost use Rattle.rc_snapshots.specs.Streams.{SeesChanges};
ghost use Rattle.rc_row_cache.specs.Calls.{IsEnterRefused, IsEntered, IsKeptOut, IsOpenRefused, IsTakenOf, below_entry};
ghost use Rattle.rc_row_cache.specs.Saying.{Below, CacheSays, IsSameSince, PinsAlike};

use crate::laws::{
    each_snapshot_pins_what_it_pinned, room_leaves_the_entries, the_cache_says_what_lies_below,
    the_cache_says_what_lies_below_at_a_new_phase,
};
use rc_entries::Entries;
use rc_entries::laws::{
    each_change_leaves_the_caches_chains, each_key_is_found, what_an_invalidation_leaves,
    what_leaves_the_caches_chains_leaves_the_entries,
};
use rc_filler::chain_laws::one_more_snapshot_keeps_what_is_said;
use rc_filler::{Chains, Snap, static_need};
use rc_mutation::{Head, Mutation, Partition};
use rc_position::PartKey;
use rc_unstored::laws::room_is_made_beside_what_memtables_see;
use rc_unstored::snapshots_laws::a_snapshot_sees_what_it_saw;
use rc_unstored::{Room, make_room};
use std::alloc::{AllocError, Global};

/// The row cache of a shard: which partitions are in it. What is known of them stands in chains of the shard, which each call is given.
#[derive(Drop)]
pub struct RowCache {
    /// By partition key the chain of each partition that is in the cache.
    pub entries: Entries,
}

impl RowCache {
    /// A cache of no partitions, where no chain of the cache is found by its key.
    pub fn new(alloc: Global) -> Self
        ensures none { result.entries ≡ [] }
        ensures entries { (m : Memory) → ((id : ℕ) → IsCached m id → ⊥) → AreEntries result.entries m }
    {
        RowCache {
            entries: Entries::new(alloc),
        }
    }

    /// A snapshot of the chain of a partition; none exactly where the partition is not in the cache. Entries whose chains are gone are forgotten first. The only error is want of memory: then no snapshot was taken.
    pub fn snapshot<const S: usize>(
        &mut self,
        chains: &mut Chains<S>,
        key: &PartKey,
    ) -> Result<Option<Snap>, AllocError>
        requires { AreEntries self.old.entries chains.old }
        ensures taken { IfOk result (λ o. IfSome o (IsTakenOf key.now self.new.entries (with_dropped [] chains.old) chains.new)) }
        ensures absent { IfOk result (λ o. IfNone o ((entry_number self.new.entries key.now ≡ None) × (chains.new ≡ with_dropped [] chains.old))) }
        ensures err { OnErr result (chains.new ≡ with_dropped [] chains.old) }
        ensures forgotten { IsForgotten chains.old.dropped self.old.entries self.new.entries }
        ensures entries { AreEntries self.new.entries chains.new }
        ensures settled { AreSettled self.new.entries chains.new }
        ensures says { (schema : SchemaValue) (below : Below) → CacheSays schema below chains.old → CacheSays schema below chains.new }
        ensures may { IfOk result (λ o. IfSome o (λ s. (schema : SchemaValue) (below : Below) → CacheSays schema below chains.old → MayFill chains.new s.chain s.pin)) }
        ensures pins { (below : ℕ → Sequence Change) (id pin : ℕ) → PinsAlike below below id pin chains.old chains.new }
        ensures seen { NothingIsLost chains.old chains.new }
    {
        self.entries.forget_dropped(chains);
        match self.entries.find(key) {
            Some(id) => snapshot_of(chains, &self.entries, key, id),
            None => Ok(None),
        }
    }

    /// Opens an entry for a partition that is none, by the head of what was read of it at a phase, once room was made for it by moves and evictions, and takes a snapshot of its chain. Entries whose chains are gone are forgotten. None where no room can be made: then one more skipped opening is counted. What is lost is lost in a crowded region. The only error is want of memory: then no snapshot was taken, and an entry was opened or none, once room was made or at once: of its chain no snapshot was there before.
    pub fn enter<const S: usize>(
        &mut self,
        alloc: Global,
        chains: &mut Chains<S>,
        key: &PartKey,
        phase: u64,
        read: &Mutation,
    ) -> Result<Option<Snap>, AllocError>
        requires entries { AreEntries self.old.entries chains.old }
        requires absent { entry_number self.old.entries key.now ≡ None }
        requires roomy { 8952 ≤ 7 * S / 8 }
        requires row { RowFits read.now.statics }
        requires small { statics_bytes (filled_statics read.now.statics) ≤ S / 8 }
        ensures entered { IfOk result (λ o. IfSome o (IsEntered S key.now read.now.pt read.now.statics phase self.new.entries chains.old chains.new)) }
        ensures may { IfOk result (λ o. IfSome o (λ s. MayFill chains.new s.chain s.pin)) }
        ensures kept_out { IfOk result (λ o. IfNone o ((entry_number self.new.entries key.now ≡ None) × IsKeptOut S chains.old chains.new)) }
        ensures refused { OnErr result (IsEnterRefused S read.now.pt read.now.statics phase chains.old chains.new) }
        ensures apart { OnErr result ((id pin : ℕ) → entry_number self.new.entries key.now ≡ Some id → HasCacheSnapshot chains.old id pin → ⊥) }
        ensures others { (q : Sequence ℕ) (id : ℕ) → entry_number self.new.entries q ≡ Some id → (q ≡ key.now → ⊥) → entry_number self.old.entries q ≡ Some id }
        ensures entries { AreEntries self.new.entries chains.new }
        ensures settled { OnOk result (AreSettled self.new.entries chains.new) }
        ensures says { (schema : SchemaValue) (below : Below) (writes : ℕ → Sequence Change) → All (ChangeFits schema) (writes phase) → source_at_head (writes phase) ≡ read.now.pt → source_at_static (writes phase) ≡ read.now.statics →
            CacheSays schema below chains.old → CacheSays schema (below_entry (entry_number self.new.entries key.now) writes below) chains.new }
        ensures loses { LosesWhereCrowded S 1 chains.old chains.new }
        ensures pins { (below : ℕ → Sequence Change) (id pin : ℕ) → PinsAlike below below id pin chains.old chains.new }
        ensures seen { AllStillSee chains.old chains.new }
    {
        match head_of(alloc, read) {
            Ok(head) => self.enter_by(alloc, chains, key, phase, &head),
            Err(error) => Err(error),
        }
    }

    // Makes room for the entry of a key, opens it by a head, and takes a snapshot of its chain.
    fn enter_by<const S: usize>(
        &mut self,
        alloc: Global,
        chains: &mut Chains<S>,
        key: &PartKey,
        phase: u64,
        head: &Head,
    ) -> Result<Option<Snap>, AllocError>
        requires entries { AreEntries self.old.entries chains.old }
        requires absent { entry_number self.old.entries key.now ≡ None }
        requires roomy { 8952 ≤ 7 * S / 8 }
        requires row { RowFits head.now.statics }
        requires small { statics_bytes (filled_statics head.now.statics) ≤ S / 8 }
        ensures entered { IfOk result (λ o. IfSome o (IsEntered S key.now head.now.pt head.now.statics phase self.new.entries chains.old chains.new)) }
        ensures may { IfOk result (λ o. IfSome o (λ s. MayFill chains.new s.chain s.pin)) }
        ensures kept_out { IfOk result (λ o. IfNone o ((entry_number self.new.entries key.now ≡ None) × IsKeptOut S chains.old chains.new)) }
        ensures refused { OnErr result (IsEnterRefused S head.now.pt head.now.statics phase chains.old chains.new) }
        ensures apart { OnErr result ((id pin : ℕ) → entry_number self.new.entries key.now ≡ Some id → HasCacheSnapshot chains.old id pin → ⊥) }
        ensures others { (q : Sequence ℕ) (id : ℕ) → entry_number self.new.entries q ≡ Some id → (q ≡ key.now → ⊥) → entry_number self.old.entries q ≡ Some id }
        ensures entries { AreEntries self.new.entries chains.new }
        ensures settled { AreSettled self.new.entries chains.new }
        ensures says { (schema : SchemaValue) (below : Below) (writes : ℕ → Sequence Change) → All (ChangeFits schema) (writes phase) → source_at_head (writes phase) ≡ head.now.pt → source_at_static (writes phase) ≡ head.now.statics →
            CacheSays schema below chains.old → CacheSays schema (below_entry (entry_number self.new.entries key.now) writes below) chains.new }
        ensures loses { LosesWhereCrowded S 1 chains.old chains.new }
        ensures pins { (below : ℕ → Sequence Change) (id pin : ℕ) → PinsAlike below below id pin chains.old chains.new }
        ensures seen { AllStillSee chains.old chains.new }
    {
        a_snapshot_sees_what_it_saw();
        each_snapshot_pins_what_it_pinned();
        room_is_made_beside_what_memtables_see();
        room_leaves_the_entries();
        the_cache_says_what_lies_below();
        what_leaves_the_caches_chains_leaves_the_entries();
        chains.known();
        counts_in_range(chains);
        let need = 152 + static_need(&head.statics);
        let room = make_room(chains, need);
        self.entries.forget_dropped(chains);
        match room {
            Room::Room => self.open(alloc, chains, key, phase, head),
            Room::NoRoom => {
                chains.count(0, 1, 0);
                Ok(None)
            }
        }
    }

    // Opens the entry of a key, for which there is room, and takes a snapshot of its chain.
    fn open<const S: usize>(
        &mut self,
        alloc: Global,
        chains: &mut Chains<S>,
        key: &PartKey,
        phase: u64,
        head: &Head,
    ) -> Result<Option<Snap>, AllocError>
        requires entries { AreEntries self.old.entries chains.old }
        requires settled { AreSettled self.old.entries chains.old }
        requires absent { entry_number self.old.entries key.now ≡ None }
        requires fits { 88 ≤ S / 8 }
        requires row { RowFits head.now.statics }
        requires small { statics_bytes (filled_statics head.now.statics) ≤ S / 8 }
        requires spare { 152 + statics_bytes (filled_statics head.now.statics) ≤ spare_of S chains.old.region.usages }
        ensures some { IfOk result IsSome }
        ensures entered { IfOk result (λ o. IfSome o (λ s. (mid : Memory) × IsEntryOpened s.chain head.now.pt (filled_statics head.now.statics) phase chains.old mid × IsTakenOf key.now self.new.entries mid chains.new s)) }
        ensures refused { OnErr result (IsOpenRefused head.now.pt head.now.statics phase chains.old chains.new) }
        ensures may { IfOk result (λ o. IfSome o (λ s. MayFill chains.new s.chain s.pin)) }
        ensures apart { OnErr result ((id pin : ℕ) → entry_number self.new.entries key.now ≡ Some id → HasCacheSnapshot chains.old id pin → ⊥) }
        ensures others { (q : Sequence ℕ) (id : ℕ) → entry_number self.new.entries q ≡ Some id → (q ≡ key.now → ⊥) → entry_number self.old.entries q ≡ Some id }
        ensures entries { AreEntries self.new.entries chains.new }
        ensures settled { AreSettled self.new.entries chains.new }
        ensures says { (schema : SchemaValue) (below : Below) (writes : ℕ → Sequence Change) → All (ChangeFits schema) (writes phase) → source_at_head (writes phase) ≡ head.now.pt → source_at_static (writes phase) ≡ head.now.statics →
            CacheSays schema below chains.old → CacheSays schema (below_entry (entry_number self.new.entries key.now) writes below) chains.new }
        ensures loses { LosesWhereCrowded S 1 chains.old chains.new }
        ensures pins { (below : ℕ → Sequence Change) (id pin : ℕ) → PinsAlike below below id pin chains.old chains.new }
        ensures seen { NothingIsLost chains.old chains.new }
    {
        each_key_is_found();
        one_more_snapshot_keeps_what_is_said();
        the_cache_says_what_lies_below();
        chains.known();
        match self.entries.open(alloc, chains, key, phase, head) {
            Ok(id) => {
                chains.known();
                snapshot_of(chains, &self.entries, key, id)
            }
            Err(error) => Err(error),
        }
    }

    /// Partitions were written to the tables below the cache, which have this phase since: they leave the cache, and the newest version of each other chain that is found by its key, of a memtable too, has this phase. A caller sees to it that the tables of both phases say the same of each other partition that is in the cache.
    pub fn invalidate<const S: usize>(
        &mut self,
        chains: &mut Chains<S>,
        parts: &[Partition],
        phase: u64,
    )
        ensures gone { self.new.entries ≡ without_keys (partition_keys parts.now) self.old.entries }
        ensures found { (q : Sequence ℕ) → entry_number self.new.entries q ≡ cond (is_one_of (partition_keys parts.now) q) None (entry_number self.old.entries q) }
        ensures invalidated { IsInvalidated (entry_numbers (partition_keys parts.now) self.old.entries) phase chains.old chains.new }
        ensures entries { AreEntries self.old.entries chains.old → AreEntries self.new.entries chains.new }
        ensures settled { AreSettled self.old.entries chains.old → AreSettled self.new.entries chains.new }
        ensures says { (schema : SchemaValue) (below : Below) → IsSameSince below (entry_numbers (partition_keys parts.now) self.old.entries) phase chains.old → CacheSays schema below chains.old → CacheSays schema below chains.new }
        ensures pins { (below : Below) → IsSameSince below (entry_numbers (partition_keys parts.now) self.old.entries) phase chains.old → (id pin : ℕ) → PinsAlike (below id) (below id) id pin chains.old chains.new }
        ensures sees { (changes : Sequence Change) (s : Snapshot) → SeesChanges changes chains.old s → SeesChanges changes chains.new s }
        ensures readers { (id : ℕ) (k : KeptChain) → chain_at chains.old id ≡ Some k → (now : KeptChain) × (chain_at chains.new id ≡ Some now) × KeepsReaders k now }
    {
        each_snapshot_pins_what_it_pinned();
        the_cache_says_what_lies_below_at_a_new_phase();
        what_an_invalidation_leaves();
        chains.known();
        self.entries.invalidate(chains, parts, phase);
    }

    /// A partition leaves the cache, where it is in it: its chain is no longer found by its key. Snapshots of it stay.
    pub fn forget<const S: usize>(&mut self, chains: &mut Chains<S>, key: &PartKey)
        ensures gone { self.new.entries ≡ remove_entry (is_at (bytes_cmp key.now)) self.old.entries }
        ensures none { entry_number self.old.entries key.now ≡ None → (self.new.entries ≡ self.old.entries) × (chains.new ≡ chains.old) }
        ensures detached { (id : ℕ) → entry_number self.old.entries key.now ≡ Some id → IsDetached id chains.old chains.new }
        ensures entries { AreEntries self.old.entries chains.old → AreEntries self.new.entries chains.new }
        ensures settled { AreSettled self.old.entries chains.old → AreSettled self.new.entries chains.new }
        ensures says { (schema : SchemaValue) (below : Below) → CacheSays schema below chains.old → CacheSays schema below chains.new }
        ensures pins { (below : ℕ → Sequence Change) (id pin : ℕ) → PinsAlike below below id pin chains.old chains.new }
        ensures seen { NothingIsLost chains.old chains.new }
    {
        each_snapshot_pins_what_it_pinned();
        the_cache_says_what_lies_below();
        self.entries.detach(chains, key);
    }
}

// A count of 64 bits that is raised by nothing is as it was.
fn in_range(_count: u64)
    ensures { raised_by 0 _count ≡ _count }
{}

// What chains became smaller by is counted by a number of 64 bits.
fn counts_in_range<const S: usize>(chains: &Chains<S>)
    ensures { raised_by 0 chains.now.counts.shrunk ≡ chains.now.counts.shrunk }
{
    let counts = chains.counts();
    in_range(counts.shrunk);
}

// The head of what was read of a partition.
fn head_of(alloc: Global, read: &Mutation) -> Result<Head, AllocError>
    ensures { IfOk result (λ head. (head.pt ≡ read.now.pt) × (head.statics ≡ read.now.statics)) }
{
    let statics = read.statics.as_row().copy(alloc)?;
    Ok(Head {
        pt: read.pt,
        statics,
    })
}

// A snapshot of the chain of an entry.
fn snapshot_of<const S: usize>(
    chains: &mut Chains<S>,
    entries: &Entries,
    key: &PartKey,
    id: u64,
) -> Result<Option<Snap>, AllocError>
    requires entry { entry_number entries.now key.now ≡ Some id }
    requires entries { AreEntries entries.now chains.old }
    requires settled { AreSettled entries.now chains.old }
    ensures some { IfOk result IsSome }
    ensures taken { IfOk result (λ o. IfSome o (IsTakenOf key.now entries.now chains.old chains.new)) }
    ensures err { OnErr result (chains.new ≡ chains.old) }
    ensures entries { AreEntries entries.now chains.new }
    ensures settled { AreSettled entries.now chains.new }
    ensures says { (schema : SchemaValue) (below : Below) → CacheSays schema below chains.old → CacheSays schema below chains.new }
    ensures may { IfOk result (λ o. IfSome o (λ s. (schema : SchemaValue) (below : Below) → CacheSays schema below chains.old → MayFill chains.new s.chain s.pin)) }
    ensures loses { LosesWhereCrowded S 0 chains.old chains.new }
    ensures pins { (below : ℕ → Sequence Change) (i pin : ℕ) → PinsAlike below below i pin chains.old chains.new }
    ensures seen { NothingIsLost chains.old chains.new }
{
    each_change_leaves_the_caches_chains();
    each_snapshot_pins_what_it_pinned();
    one_more_snapshot_keeps_what_is_said();
    the_cache_says_what_lies_below();
    what_leaves_the_caches_chains_leaves_the_entries();
    chains.known();
    match chains.snapshot(id) {
        Ok(snap) => Ok(Some(snap)),
        Err(error) => Err(error),
    }
}
