//! A memtable: by partition key the chain of what is written of the partition.
ghost use Rattle.std.specs.Prelude.{◌≡◌, ◌↔◌, ◌≤◌, ◌*◌, ◌/◌, ℕ, false, List as Sequence, [], Some, None, IsTrue, IfNone, IfOk, IfSome, OnOk, OnErr, cond, map};
ghost use Rattle.lsa_pool.specs.Room.{spare_of};
ghost use Rattle.rc_schema.specs.SchemaValue.{SchemaValue};
ghost use Rattle.rc_mutation.specs.declared.mutations.Write.{Write as Written};
ghost use Rattle.rc_mutation.specs.Source.{changes_to};
ghost use Rattle.rc_core.specs.Chains.{upto};
ghost use Rattle.rc_core.specs.StandsFor.{StandsFor};
ghost use Rattle.rc_core.specs.Steps.{pin_at};
ghost use Rattle.rc_chain.specs.Lives.{IsSameButSlots};
ghost use Rattle.rc_memory.specs.Memory.{KeptChain, Memory, HasChain, IsSnapshotTaken, chain_at};
ghost use Rattle.rc_memtable.specs.Writes.{DoAscend, HasWrites, AreSmall, IsNewestPinned, IsRoomFor, TakesVersion, chain_of, names};
ghost use Rattle.rc_memtable.specs.Steps.{IsApplied};
ghost use Rattle.rc_memtable.specs.LetGo.{AreLetGo};
ghost use Rattle.rc_memtable.specs.Partitions.{AreAsBefore};
ghost use Rattle.rc_mutation.specs.Fragments.{IsParts, is_written};
ghost use Rattle.rc_schema.specs.Largest.{largest_static};
ghost use Rattle.rc_writes.specs.Allowed.{ChangeFits};
ghost use Rattle.rc_writes.specs.Single.{IsSingle};

use crate::freeing::let_all_go;
use crate::numbers::{add_chain, number_of};
use crate::partitions::partitions_of;
use crate::writing::write_into;
use rc_cell::Row;
use rc_chain::{Chains, Snap};
use rc_mutation::{Mutation, Partition, Write};
use rc_position::PartKey;
use rc_schema::Schema;
use std::alloc::{AllocError, Global};
use std::collections::BTreeMap;
use std::marker::Model;

/// The writes that stand in no table: by the key of each partition of which something was written the number of its chain. A contract sees the keys, ascending, each with that number.
#[derive(Drop)]
pub struct Memtable {
    chains: BTreeMap<PartKey, u64>,
}

impl Model for Memtable {
    ghost use Rattle.std.specs.Prelude.{List, ℕ};

    ghost Value = { List (List ℕ × ℕ) };

    ghost view = { λ t. t.chains.entries };
}

impl Memtable {
    /// A memtable of no writes, whatever the chains are.
    pub fn new(alloc: Global) -> Self
        ensures { (schema : SchemaValue) (m : Memory) → HasWrites schema result m [] }
    {
        Memtable {
            chains: BTreeMap::new(alloc),
        }
    }

    /// Whether it stands for no writes.
    pub fn is_empty(&self) -> bool
        ensures { (schema : SchemaValue) (m : Memory) (writes : Sequence Written) → HasWrites schema self.now m writes → IsTrue result ↔ (writes ≡ []) }
    {
        self.chains.is_empty()
    }

    /// Its keys ascend, so each has one chain. Nothing is done.
    pub fn known(&self)
        ensures { DoAscend self.now }
    {
        let _count = self.chains.len();
    }

    /// How many bytes must be spare for a write: for what is made in the newest version of its chain, and for the version, where one is made first. At most 7S/8.
    pub fn need<const S: usize>(&self, chains: &Chains<S>, schema: &Schema, w: &Write) -> usize
        requires small { AreSmall S schema.now }
        requires kept { (writes : Sequence Written) × HasWrites schema.now self.now chains.now writes }
        ensures room { IsRoomFor schema.now self.now chains.now w.now result }
        ensures least { (bytes : ℕ) → IsRoomFor schema.now self.now chains.now w.now bytes → result ≤ bytes }
        ensures few { result ≤ 7 * S / 8 }
    {
        let joined = joined_need(schema, &w.change);
        if takes_version(chains, number_of(&self.chains, &w.key)) {
            152 + joined
        } else {
            joined
        }
    }

    /// Puts a write to one place, which fits the schema, behind the others. What snapshots see stays, and what is live in the region is more by at most the write's weight, and less by at most an eighth of a segment. The only error is want of memory, after which memtable and chains are as they were.
    pub fn apply<const S: usize>(
        &mut self,
        alloc: Global,
        chains: &mut Chains<S>,
        schema: &Schema,
        w: &Write,
    ) -> Result<(), AllocError>
        requires small { AreSmall S schema.now }
        requires single { IsSingle w.now.change }
        requires fits { ChangeFits schema.now w.now.change }
        requires kept { (writes : Sequence Written) × HasWrites schema.now self.old chains.old writes }
        requires room { IsRoomFor schema.now self.old chains.old w.now (spare_of S chains.old.region.usages) }
        ensures applied { OnOk result (IsApplied S schema.now w.now self.old self.new chains.old chains.new) }
        ensures same { OnErr result (self.new ≡ self.old) }
        ensures err { OnErr result (IsSameButSlots chains.old chains.new) }
    {
        let _limits = schema.ck();
        chains.known();
        match number_of(&self.chains, &w.key) {
            Some(id) => write_into(chains, id, &w.change),
            None => {
                let id = add_chain(&mut self.chains, alloc, chains, &w.key)?;
                write_into(chains, id, &w.change);
            }
        }
        Ok(())
    }

    /// A snapshot of what is written of the partition of a key, which sees that from then on. None exactly where no write names the key. The only error is want of memory, which changes nothing.
    pub fn snapshot<const S: usize>(
        &self,
        chains: &mut Chains<S>,
        key: &PartKey,
    ) -> Result<Option<Snap>, AllocError>
        requires { (schema : SchemaValue) × (writes : Sequence Written) × HasWrites schema self.now chains.old writes }
        ensures none { IfOk result (λ found. IfNone found ((chains.new ≡ chains.old) × ((schema : SchemaValue) (writes : Sequence Written) → HasWrites schema self.now chains.old writes → names key.now writes ≡ false))) }
        ensures some { IfOk result (λ found. IfSome found (λ s. (chain_of self.now key.now ≡ Some s.chain) × IsSnapshotTaken chains.old chains.new s.chain s.pin s.phase)) }
        ensures sees { IfOk result (λ found. IfSome found (λ s. (schema : SchemaValue) (writes : Sequence Written) → HasWrites schema self.now chains.old writes → (k : KeptChain) → chain_at chains.new s.chain ≡ Some k → (j : ℕ) × (pin_at k.chain.pins s.pin ≡ Some j) × StandsFor (changes_to key.now writes) (upto k.chain.versions j))) }
        ensures stands { (schema : SchemaValue) (writes : Sequence Written) → HasWrites schema self.now chains.old writes → HasWrites schema self.now chains.new writes }
        ensures err { OnErr result (chains.new ≡ chains.old) }
    {
        chains.known();
        match number_of(&self.chains, key) {
            None => Ok(None),
            Some(id) => Ok(Some(chains.snapshot(id)?)),
        }
    }

    /// The partitions of what it stands for, by ascending key, as a table is made of them: each key that a write names, with what all writes to it say. Each chain is read by a snapshot that is taken back. The only error is want of memory; chains and memtable are then, too, as they were.
    pub fn partitions<const S: usize>(
        &self,
        alloc: Global,
        chains: &mut Chains<S>,
    ) -> Result<Vec<Partition>, AllocError>
        requires { (schema : SchemaValue) × (writes : Sequence Written) × HasWrites schema self.now chains.old writes }
        ensures parts { (schema : SchemaValue) (writes : Sequence Written) → HasWrites schema self.now chains.old writes → IfOk result (λ parts. IsParts parts.items writes) }
        ensures stands { (schema : SchemaValue) (writes : Sequence Written) → HasWrites schema self.now chains.old writes → HasWrites schema self.now chains.new writes }
        ensures left { AreAsBefore chains.old chains.new }
    {
        partitions_of(alloc, &self.chains, chains)
    }

    /// Lets all chains go, by ascending key: none is found by its key any more, and those that nobody pins are freed object by object. It stands for no writes then.
    pub fn drop_all<const S: usize>(&mut self, chains: &mut Chains<S>)
        requires { (schema : SchemaValue) × (writes : Sequence Written) × HasWrites schema self.old chains.old writes }
        ensures none { (schema : SchemaValue) (m : Memory) → HasWrites schema self.new m [] }
        ensures gone { AreLetGo (map (λ e. e.1) self.old) chains.old chains.new }
    {
        let_all_go(&mut self.chains, chains);
    }
}

// How many bytes what a write says of its partition takes in the newest version of a chain.
fn joined_need(schema: &Schema, change: &Mutation) -> usize
    ensures value { result ≡ Rattle.rc_memtable.specs.Writes.joined_need schema.now change.now }
    ensures small { result ≤ 17904 }
{
    if !change.rows.as_slice().is_empty() {
        return schema.largest_entry();
    }
    if !change.ranges.as_slice().is_empty() {
        return 2 * schema.largest_entry();
    }
    static_need(schema, change.statics.as_row())
}

// How many bytes a static row takes; none where nothing is written of it.
fn static_need(schema: &Schema, row: &Row) -> usize
    ensures value { result ≡ cond (is_written row.now) (largest_static schema.now) 0 }
    ensures small { result ≤ 2184 }
{
    if row.marker.is_some() || row.tomb.is_some() || !row.cells.as_slice().is_empty() {
        schema.largest_static()
    } else {
        0
    }
}

// Whether a version must be made for a write: where there is no chain, or where a snapshot pins the newest version of it.
fn takes_version<const S: usize>(chains: &Chains<S>, id: Option<u64>) -> bool
    requires { IfSome id (λ n. HasChain chains.now n) }
    ensures { IsTrue result ↔ TakesVersion chains.now id }
{
    match id {
        None => true,
        Some(id) => is_newest_pinned(chains, id),
    }
}

// Whether a snapshot pins the newest version of a chain.
fn is_newest_pinned<const S: usize>(chains: &Chains<S>, id: u64) -> bool
    requires { HasChain chains.now id }
    ensures { IsTrue result ↔ IsNewestPinned chains.now id }
{
    chains.known();
    chains.is_pinned(id, chains.versions(id) - 1)
}
