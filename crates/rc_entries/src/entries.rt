//! Cache entries: by partition key the chain of a partition that is in the row cache.
ghost use Rattle.std.specs.Prelude.{◌≡◌, ◌+◌, ◌/◌, ◌≤◌, ℕ, List as Sequence, [], Some, None, IfOk, OnErr, OnOk, length};
ghost use Rattle.std.specs.BTreeMap.{insert_entry, is_at};
ghost use Rattle.std.specs.Map.{remove_entry};
ghost use Rattle.lsa_pool.specs.Room.{spare_of};
ghost use Rattle.rc_position.specs.Position.{bytes_cmp};
ghost use Rattle.rc_rowcode.specs.Spelling.{RowFits};
ghost use Rattle.rc_version.specs.Versions.{statics_bytes};
ghost use Rattle.rc_memory.specs.Memory.{Memory, with_dropped};
ghost use Rattle.rc_chain.specs.Lives.{IsSameButSlots};
ghost use Rattle.rc_populate.specs.Filling.{IsEntryOpened, filled_statics};
ghost use Rattle.rc_entries.specs.Found.{DoKeysAscend, IsForgotten, entry_number};
ghost use Rattle.rc_entries.specs.Entries.{AreEntries, AreSettled, IsCached};
ghost use Rattle.rc_entries.specs.Detached.{IsDetached};

use crate::index::{drop_room, forget, make_room, set_number, take_out};
use rc_chain::Chains;
use rc_mutation::Head;
use rc_populate::open_entry;
use rc_position::PartKey;
use std::alloc::{AllocError, Global};
use std::collections::{BTreeMap, HashMap};
use std::marker::Model;

/// Which partitions are in the row cache: by the key of each the number of the chain that is found by it. A contract sees the keys, ascending, each with that number.
#[derive(Drop)]
pub struct Entries {
    numbers: BTreeMap<PartKey, u64>,
    keys: HashMap<u64, PartKey>,
}

impl Model for Entries {
    ghost use Rattle.std.specs.Prelude.{List, ℕ};
    ghost use Rattle.rc_entries.specs.calls.Index.{IsIndex};

    ghost Value = { List (List ℕ × ℕ) };

    ghost view = { λ t. t.numbers.entries };

    ghost invariant = { λ t. IsIndex t.numbers.entries t.keys.entries };
}

impl Entries {
    /// No entries, where no chain of the cache is found by its key.
    pub fn new(alloc: Global) -> Self
        ensures none { result ≡ [] }
        ensures entries { (m : Memory) → ((id : ℕ) → IsCached m id → ⊥) → AreEntries result m }
    {
        Entries {
            numbers: BTreeMap::new(alloc),
            keys: HashMap::new(alloc),
        }
    }

    /// Its keys ascend, so each has one number; and no two have the same. Nothing is done.
    pub fn known(&self)
        ensures ascend { DoKeysAscend self.now }
        ensures apart { (key other : Sequence ℕ) (id : ℕ) → entry_number self.now key ≡ Some id → entry_number self.now other ≡ Some id → key ≡ other }
    {
        let _count = self.numbers.len();
    }

    /// How many entries there are.
    pub fn len(&self) -> usize
        ensures { result ≡ length self.now }
    {
        self.numbers.len()
    }

    /// The number of the chain of a key. None exactly where the key is no entry.
    pub fn find(&self, key: &PartKey) -> Option<u64>
        ensures { result ≡ entry_number self.now key.now }
    {
        self.numbers.get(key).copied()
    }

    /// Opens an entry for a key that is none: a new chain of the cache, of which what stands at the head of the partition is known (`open_entry` of rc_populate). Gives the chain's number. It takes 152 bytes and what `static_need` says. The only error is want of memory, after which entries and chains are as they were.
    pub fn open<const S: usize>(
        &mut self,
        alloc: Global,
        chains: &mut Chains<S>,
        key: &PartKey,
        phase: u64,
        head: &Head,
    ) -> Result<u64, AllocError>
        requires entries { AreEntries self.old chains.old }
        requires absent { entry_number self.old key.now ≡ None }
        requires fits { 88 ≤ S / 8 }
        requires row { RowFits head.now.statics }
        requires small { statics_bytes (filled_statics head.now.statics) ≤ S / 8 }
        requires spare { 152 + statics_bytes (filled_statics head.now.statics) ≤ spare_of S chains.old.region.usages }
        ensures opened { IfOk result (λ id. IsEntryOpened id head.now.pt (filled_statics head.now.statics) phase chains.old chains.new) }
        ensures added { IfOk result (λ id. self.new ≡ insert_entry bytes_cmp self.old key.now id) }
        ensures entries { OnOk result (AreEntries self.new chains.new) }
        ensures settled { OnOk result (AreSettled self.old chains.old → AreSettled self.new chains.new) }
        ensures spare { IfOk result (λ id. spare_of S chains.old.region.usages ≤ spare_of S chains.new.region.usages + (152 + statics_bytes (filled_statics head.now.statics))) }
        ensures same { OnErr result (self.new ≡ self.old) }
        ensures err { OnErr result (IsSameButSlots chains.old chains.new) }
    {
        let name = key.copy(alloc)?;
        make_room(&mut self.numbers, &mut self.keys, alloc, key)?;
        match open_entry(chains, phase, head) {
            Ok(id) => {
                set_number(&mut self.numbers, &mut self.keys, name, id);
                Ok(id)
            }
            Err(error) => {
                drop_room(&mut self.numbers, key);
                Err(error)
            }
        }
    }

    /// Takes each number that is to be told of the chains, and the entry whose number it is, if it is one's. All others stay, and no number is to be told then.
    pub fn forget_dropped<const S: usize>(&mut self, chains: &mut Chains<S>)
        ensures told { chains.new ≡ with_dropped [] chains.old }
        ensures forgotten { IsForgotten chains.old.dropped self.old self.new }
        ensures settled { AreSettled self.new chains.new }
        ensures entries { AreEntries self.old chains.old → AreEntries self.new chains.new }
    {
        chains.known();
        while let Some(id) = chains.take_dropped() {
            forget(&mut self.numbers, &mut self.keys, id);
        }
    }

    /// Takes the entry of a key out, where it is one: its chain is no longer found by its key, nor under update, where it is there. Where it is none nothing is changed.
    pub fn detach<const S: usize>(&mut self, chains: &mut Chains<S>, key: &PartKey)
        ensures none { entry_number self.old key.now ≡ None → (self.new ≡ self.old) × (chains.new ≡ chains.old) }
        ensures gone { self.new ≡ remove_entry (is_at (bytes_cmp key.now)) self.old }
        ensures detached { (id : ℕ) → entry_number self.old key.now ≡ Some id → IsDetached id chains.old chains.new }
        ensures entries { AreEntries self.old chains.old → AreEntries self.new chains.new }
        ensures settled { AreSettled self.old chains.old → AreSettled self.new chains.new }
        ensures spare { spare_of S chains.new.region.usages ≡ spare_of S chains.old.region.usages }
    {
        let Some(id) = take_out(&mut self.numbers, &mut self.keys, key) else {
            return;
        };
        detach_there(chains, id);
    }
}

// A chain is no longer found by its key, where it is there.
fn detach_there<const S: usize>(chains: &mut Chains<S>, id: u64)
    ensures detached { IsDetached id chains.old chains.new }
    ensures spare { spare_of S chains.new.region.usages ≡ spare_of S chains.old.region.usages }
{
    if chains.is_there(id) {
        chains.detach(id);
    }
}
