//! Both memtables of a shard, with its chains.
ghost use Rattle.std.specs.Prelude.{◌≡◌, ◌↔◌, ◌∷◌, ◌++◌, ◌+◌, ◌-◌, ◌*◌, ◌/◌, ◌%◌, ◌^◌, ◌<◌, ◌≤◌, ℕ, true, false, List as Sequence, [], Some, None, IfOk, IfSome, IsTrue, OnErr, OnOk, cond, is_some, length, map};
ghost use Rattle.lsa_move.specs.Room.{IsCompacted};
ghost use Rattle.lsa_pool.specs.Room.{free_count, spare_of};
ghost use Rattle.lsa_region.specs.Region.{live_bytes};
ghost use Rattle.lsa_store.specs.Stock.{sparse_of};
ghost use Rattle.rc_schema.specs.SchemaValue.{SchemaValue};
ghost use Rattle.rc_mutation.specs.declared.mutations.Write.{Write as Written};
ghost use Rattle.rc_writes.specs.Allowed.{ChangeFits};
ghost use Rattle.rc_writes.specs.Single.{IsSingle};
ghost use Rattle.rc_mutation.specs.Fragments.{IsParts};
ghost use Rattle.rc_memory.specs.Memory.{HasPin, IsEmpty, IsSnapshotTaken, Member, Memory};
ghost use Rattle.rc_evict.specs.Evictions.{AreEvicted};
ghost use Rattle.rc_evict.specs.Snap.{Snap as Snapshot};
ghost use Rattle.rc_snapshots.specs.Seeing.{AllStillSee, AreSameSnapshots, AreThere, HasSnap, NothingIsLost, OthersStillSee, StillSees};
ghost use Rattle.rc_memtable.specs.LetGo.{AreLetGo, TakesNoMore};
ghost use Rattle.rc_memtable.specs.Partitions.{AreAsBefore};
ghost use Rattle.rc_memtable.specs.Writes.{AreSmall, HasWrites, chain_of};
ghost use Rattle.rc_unstored.specs.calls.Giving.{given_back};
ghost use Rattle.rc_unstored.specs.Memtables.{HaveWrites, IsFullFor, NoneShared};
ghost use Rattle.rc_unstored.specs.Readers.{IsNoneOf, IsReleased, IsReleasedIf, IsSnapshotOfKey, IsTakenIf};
ghost use Rattle.rc_unstored.specs.Steps.{AreObjectsMoved, AreSameKeys, IsNotPut, IsPutBehind, IsPutRefused};

use lsa_move::a_tight_region_is_nearly_full;
use rc_evict::laws::{
    evictions_follow_one_another, evictions_leave_the_use_of_a_chain,
    evictions_spare_memtables_and_readers,
};
use rc_evict::{Room, evict_one, make_room};
use rc_memtable::laws::{
    what_is_let_go_takes_no_more, what_leaves_a_memtables_chains_leaves_its_writes,
};
use rc_memtable::{Memtable, release};
use rc_mutation::{Partition, Write};
use rc_position::PartKey;
use rc_schema::Schema;
use rc_snapshots::laws::{a_snapshot_can_be_read, a_snapshot_sees_what_it_saw};
use rc_snapshots::{Chains, Snap, Snaps};
use std::alloc::{AllocError, Global};
use std::mem;

/// The writes of a shard that stand in no table: those that are sealed for the next one, and the later ones, in the chains of the shard.
#[derive(Drop)]
pub struct Unstored<const S: usize> {
    /// The chains of the shard, in which both stand.
    pub chains: Chains<S>,
    /// The writes that are sealed for the next table.
    pub sealed: Memtable,
    /// The later ones.
    pub active: Memtable,
}

impl<const S: usize> Unstored<S> {
    /// No writes, and no chain, in a region of so many segments, all of them taken now.
    pub fn open(alloc: Global, segments: u32) -> Result<Self, AllocError>
        requires few { segments ≤ 4096 }
        requires some { 4 ≤ segments }
        requires small { S ≤ 2 ^ 27 }
        requires even { S % 64 ≡ 0 }
        ensures none { IfOk result (λ u. (schema : SchemaValue) → HaveWrites schema u [] []) }
        ensures empty { IfOk result (λ u. IsEmpty u.chains) }
        ensures spare { IfOk result (λ u. spare_of S u.chains.region.usages ≡ (segments - 2) * (7 * S / 8) + (S - S / 8)) }
        ensures free { IfOk result (λ u. free_count u.chains.region.usages + 1 ≡ segments) }
        ensures budget { IfOk result (λ u. length u.chains.region.usages ≡ segments) }
        ensures live { IfOk result (λ u. live_bytes u.chains.region ≡ 0) }
        ensures numbers { IfOk result (λ u. (u.chains.region.epoch ≡ 0) × (u.chains.region.moved ≡ 0) × (u.chains.region.compacted ≡ 0)) }
    {
        Ok(Unstored {
            chains: Chains::open(alloc, segments)?,
            sealed: Memtable::new(alloc),
            active: Memtable::new(alloc),
        })
    }

    /// Whether writes are sealed.
    pub fn is_sealed(&self) -> bool
        ensures { (schema : SchemaValue) (writes later : Sequence Written) → HaveWrites schema self.now writes later → IsTrue result ↔ (writes ≡ [] → ⊥) }
    {
        !self.sealed.is_empty()
    }

    /// Whether all writes stand in tables: none is sealed, and there is no later one.
    pub fn is_empty(&self) -> bool
        ensures { (schema : SchemaValue) (writes later : Sequence Written) → HaveWrites schema self.now writes later → IsTrue result ↔ (writes ++ later ≡ []) }
    {
        self.sealed.is_empty() && self.active.is_empty()
    }

    /// Puts a write to one place, which fits the schema, behind the later ones, once there is room for it, for which objects may move and the least recently used ones of caches may be evicted, unless 7S/8 bytes are spare at once. False where there is none and none can be made: then no write is put, nothing is left that may be evicted, and more than three quarters of all but two segments are live. The only error is want of memory, which leaves the writes as they were.
    pub fn put(&mut self, alloc: Global, schema: &Schema, w: &Write) -> Result<bool, AllocError>
        requires small { AreSmall S schema.now }
        requires single { IsSingle w.now.change }
        requires fits { ChangeFits schema.now w.now.change }
        requires kept { (writes : Sequence Written) × (later : Sequence Written) × HaveWrites schema.now self.old writes later }
        ensures stands { IfOk result (λ done. (writes later : Sequence Written) → HaveWrites schema.now self.old writes later → HaveWrites schema.now self.new writes (cond done (later ++ w.now ∷ []) later)) }
        ensures applied { IfOk result (λ done. done ≡ true → IsPutBehind schema.now w.now self.old self.new) }
        ensures full { IfOk result (λ done. done ≡ false → IsFullFor S schema.now w.now self.new) }
        ensures crowded { IfOk result (λ done. done ≡ false → 3 * S / 4 * (length self.new.chains.region.usages - 2) < live_bytes self.new.chains.region) }
        ensures left { IfOk result (λ done. done ≡ false → IsNotPut self.old self.new) }
        ensures refused { OnErr result (IsPutRefused self.old self.new) }
        ensures err { OnErr result ((writes later : Sequence Written) → HaveWrites schema.now self.old writes later → HaveWrites schema.now self.new writes later) }
        ensures spared { OnOk result (7 * S / 8 ≤ spare_of S self.old.chains.region.usages → self.new.chains.counts ≡ self.old.chains.counts) }
        ensures seen { AllStillSee self.old.chains self.new.chains }
    {
        evictions_leave_the_use_of_a_chain();
        evictions_spare_memtables_and_readers();
        self.chains.known();
        let need = self.active.need(&self.chains, schema, w);
        match make_room(&mut self.chains, need) {
            Room::NoRoom => {
                a_tight_region_is_nearly_full(self.chains.region(), need);
                Ok(false)
            }
            Room::Room => {
                self.chains.known();
                self.active.apply(alloc, &mut self.chains, schema, w)?;
                Ok(true)
            }
        }
    }

    /// Snapshots of what is written of the partition of a key, of the sealed writes and of the later ones, each exactly where one of them names the key. The only error is want of memory: then all chains are as they were, and no snapshot is there that was not.
    pub fn snapshot(&mut self, key: &PartKey) -> Result<Snaps, AllocError>
        requires kept { (schema : SchemaValue) × (writes : Sequence Written) × (later : Sequence Written) × HaveWrites schema self.old writes later }
        ensures sealed { IfOk result (λ taken. (schema : SchemaValue) (writes later : Sequence Written) → HaveWrites schema self.old writes later → IsSnapshotOfKey key.now writes self.old.chains self.new.chains taken.sealed) }
        ensures active { IfOk result (λ taken. (schema : SchemaValue) (writes later : Sequence Written) → HaveWrites schema self.old writes later → IsSnapshotOfKey key.now later self.old.chains self.new.chains taken.active) }
        ensures apart { IfOk result (λ taken. IfSome taken.sealed (λ s. IfSome taken.active (λ t. s.chain ≡ t.chain → ⊥))) }
        ensures exact { IfOk result (λ taken. (mid : Memory) × IsTakenIf self.old.chains mid taken.sealed × IsTakenIf mid self.new.chains taken.active) }
        ensures keys { AreSameKeys self.old self.new }
        ensures stands { (schema : SchemaValue) (writes later : Sequence Written) → HaveWrites schema self.old writes later → HaveWrites schema self.new writes later }
        ensures seen { NothingIsLost self.old.chains self.new.chains }
        ensures err { OnErr result (AreSameSnapshots self.old.chains self.new.chains) }
        ensures left { OnErr result (AreAsBefore self.old.chains self.new.chains) }
    {
        a_snapshot_sees_what_it_saw();
        let sealed = snapshot_beside(&self.sealed, &self.active, &mut self.chains, key)?;
        match snapshot_beside(&self.active, &self.sealed, &mut self.chains, key) {
            Ok(active) => Ok(Snaps { sealed, active }),
            Err(error) => {
                give_back(&mut self.chains, sealed);
                Err(error)
            }
        }
    }

    /// Takes a snapshot back. Other snapshots see what they saw. What was let go is freed with its last snapshot.
    pub fn release(&mut self, s: Snap)
        requires { HasSnap self.old.chains s }
        ensures stands { (schema : SchemaValue) (writes later : Sequence Written) → HaveWrites schema self.old writes later → HaveWrites schema self.new writes later }
        ensures others { OthersStillSee s self.old.chains self.new.chains }
        ensures gone { HasPin self.new.chains s.chain s.pin → ⊥ }
        ensures released { IsReleased s self.old.chains self.new.chains }
        ensures keys { AreSameKeys self.old self.new }
    {
        what_leaves_a_memtables_chains_leaves_its_writes();
        release(&mut self.chains, s);
    }

    /// Takes both snapshots of a reader back, those that there are. All others see what they saw; no more is live, and no count falls. What was let go is freed with its last snapshot.
    pub fn release_both(&mut self, snaps: Snaps)
        requires there { AreThere self.old.chains snaps }
        requires apart { IfSome snaps.sealed (λ s. IfSome snaps.active (λ t. s.chain ≡ t.chain → ⊥)) }
        ensures stands { (schema : SchemaValue) (writes later : Sequence Written) → HaveWrites schema self.old writes later → HaveWrites schema self.new writes later }
        ensures others { (s : Snapshot) → IsNoneOf snaps s → HasPin self.old.chains s.chain s.pin → StillSees s self.old.chains self.new.chains }
        ensures room { TakesNoMore self.old.chains self.new.chains }
        ensures released { (mid : Memory) × IsReleasedIf snaps.sealed self.old.chains mid × IsReleasedIf snaps.active mid self.new.chains }
        ensures keys { AreSameKeys self.old self.new }
    {
        let Snaps { sealed, active } = snaps;
        self.release_if(sealed);
        self.release_if(active);
    }

    // Takes a snapshot back, where there is one.
    fn release_if(&mut self, taken: Option<Snap>)
        requires { IfSome taken (HasSnap self.old.chains) }
        ensures stands { (schema : SchemaValue) (writes later : Sequence Written) → HaveWrites schema self.old writes later → HaveWrites schema self.new writes later }
        ensures others { (s : Snapshot) → IfSome taken (λ t. s.chain ≡ t.chain → s.pin ≡ t.pin → ⊥) → HasPin self.old.chains s.chain s.pin → StillSees s self.old.chains self.new.chains }
        ensures room { TakesNoMore self.old.chains self.new.chains }
        ensures released { IsReleasedIf taken self.old.chains self.new.chains }
        ensures keys { AreSameKeys self.old self.new }
    {
        what_is_let_go_takes_no_more();
        if let Some(s) = taken {
            self.release(s);
        }
    }

    /// Seals the later writes, where none are sealed: then there are no later ones. Else nothing is changed.
    pub fn seal(&mut self)
        ensures sealed { (schema : SchemaValue) (later : Sequence Written) → HaveWrites schema self.old [] later → HaveWrites schema self.new later [] }
        ensures swapped { (schema : SchemaValue) (later : Sequence Written) → HaveWrites schema self.old [] later → (self.new.sealed ≡ self.old.active) × (self.new.active ≡ []) }
        ensures kept { (schema : SchemaValue) (w : Written) (writes later : Sequence Written) → HaveWrites schema self.old (w ∷ writes) later → self.new ≡ self.old }
        ensures chains { self.new.chains ≡ self.old.chains }
    {
        if self.sealed.is_empty() {
            mem::swap(&mut self.sealed, &mut self.active);
        }
    }

    /// The partitions of the sealed writes, by ascending key, as a table is made of them: each key that one of them names, with what all of them say of it. Chains and memtables are then as they were. The only error is want of memory, which leaves them so, too.
    pub fn sealed_partitions(&mut self, alloc: Global) -> Result<Vec<Partition>, AllocError>
        requires kept { (schema : SchemaValue) × (writes : Sequence Written) × (later : Sequence Written) × HaveWrites schema self.old writes later }
        ensures parts { (schema : SchemaValue) (writes later : Sequence Written) → HaveWrites schema self.old writes later → IfOk result (λ parts. IsParts parts.items writes) }
        ensures stands { (schema : SchemaValue) (writes later : Sequence Written) → HaveWrites schema self.old writes later → HaveWrites schema self.new writes later }
        ensures left { AreAsBefore self.old.chains self.new.chains }
        ensures keys { AreSameKeys self.old self.new }
        ensures seen { AreSameSnapshots self.old.chains self.new.chains }
    {
        self.sealed.partitions(alloc, &mut self.chains)
    }

    /// Lets the sealed writes go, which a table has: none are sealed then, and no chain of them is found by its key any more. Those that nobody pins are freed. Snapshots of the others see what they saw.
    pub fn drop_sealed(&mut self)
        requires kept { (schema : SchemaValue) × (writes : Sequence Written) × (later : Sequence Written) × HaveWrites schema self.old writes later }
        ensures gone { (schema : SchemaValue) (writes later : Sequence Written) → HaveWrites schema self.old writes later → HaveWrites schema self.new [] later }
        ensures let_go { AreLetGo (map (λ e. e.1) self.old.sealed) self.old.chains self.new.chains }
        ensures none { self.new.sealed ≡ [] }
        ensures active { self.new.active ≡ self.old.active }
        ensures seen { NothingIsLost self.old.chains self.new.chains }
        ensures room { TakesNoMore self.old.chains self.new.chains }
    {
        what_is_let_go_takes_no_more();
        self.sealed.known();
        self.sealed.drop_all(&mut self.chains);
    }

    /// Empties the closed segment with least live bytes, where one is sparse; false exactly where none is. The writes are those that they were, and snapshots see what they saw.
    pub fn compact_one(&mut self) -> bool
        ensures tells { result ≡ is_some (sparse_of S self.old.chains.region.usages) }
        ensures same { result ≡ false → self.new ≡ self.old }
        ensures compacted { IfSome (sparse_of S self.old.chains.region.usages) (IsCompacted S self.old.chains.region self.new.chains.region) }
        ensures room { AreObjectsMoved self.old.chains self.new.chains }
        ensures keys { AreSameKeys self.old self.new }
        ensures stands { (schema : SchemaValue) (writes later : Sequence Written) → HaveWrites schema self.old writes later → HaveWrites schema self.new writes later }
        ensures seen { AreSameSnapshots self.old.chains self.new.chains }
    {
        let _moved = self.chains.region().moved();
        self.chains.compact_one()
    }

    /// Evicts the least recently used object of the row cache; false exactly where none is left that may be evicted, and then nothing is changed. The writes are those that they were, and memtables' snapshots see what they saw.
    pub fn evict_one(&mut self) -> bool
        ensures none { result ≡ false → (self.old.chains.recency ≡ []) × (self.new ≡ self.old) }
        ensures one { result ≡ true → (place : Member) × (gone : Sequence ℕ) × AreEvicted (place ∷ []) gone self.old.chains self.new.chains }
        ensures keys { AreSameKeys self.old self.new }
        ensures room { TakesNoMore self.old.chains self.new.chains }
        ensures stands { (schema : SchemaValue) (writes later : Sequence Written) → HaveWrites schema self.old writes later → HaveWrites schema self.new writes later }
        ensures seen { AllStillSee self.old.chains self.new.chains }
    {
        evictions_follow_one_another();
        evictions_leave_the_use_of_a_chain();
        evictions_spare_memtables_and_readers();
        self.chains.known();
        evict_one(&mut self.chains).is_some()
    }
}

// A snapshot of what one memtable has of a key, beside another one, whose writes stay too.
fn snapshot_beside<const S: usize>(
    memtable: &Memtable,
    other: &Memtable,
    chains: &mut Chains<S>,
    key: &PartKey,
) -> Result<Option<Snap>, AllocError>
    requires { (schema : SchemaValue) × (writes : Sequence Written) × HasWrites schema memtable.now chains.old writes }
    ensures sees { IfOk result (λ found. (schema : SchemaValue) (writes : Sequence Written) → HasWrites schema memtable.now chains.old writes → IsSnapshotOfKey key.now writes chains.old chains.new found) }
    ensures taken { IfOk result (λ found. IfSome found (λ s. (chain_of memtable.now key.now ≡ Some s.chain) × IsSnapshotTaken chains.old chains.new s.chain s.pin s.phase)) }
    ensures same { IfOk result (λ found. found ≡ None → chains.new ≡ chains.old) }
    ensures stands { (schema : SchemaValue) (writes : Sequence Written) → HasWrites schema memtable.now chains.old writes → HasWrites schema memtable.now chains.new writes }
    ensures beside { NoneShared memtable.now other.now → (schema : SchemaValue) (writes : Sequence Written) → HasWrites schema other.now chains.old writes → HasWrites schema other.now chains.new writes }
    ensures seen { NothingIsLost chains.old chains.new }
    ensures err { OnErr result (chains.new ≡ chains.old) }
{
    a_snapshot_can_be_read();
    memtable.snapshot(chains, key)
}

// A snapshot is given back, where there is one. A memtable stands for what it stood for.
fn give_back<const S: usize>(chains: &mut Chains<S>, taken: Option<Snap>)
    requires { IfSome taken (λ s. HasPin chains.old s.chain s.pin) }
    ensures now { chains.new ≡ given_back taken chains.old }
    ensures stands { (schema : SchemaValue) (keys : Sequence (Sequence ℕ × ℕ)) (writes : Sequence Written) → HasWrites schema keys chains.old writes → HasWrites schema keys chains.new writes }
{
    what_leaves_a_memtables_chains_leaves_its_writes();
    if let Some(s) = taken {
        chains.release(s);
    }
}
