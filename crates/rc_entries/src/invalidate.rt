//! Partitions that were written below the cache leave it.
ghost use Rattle.std.specs.Prelude.{◌≡◌, ℕ, List as Sequence, None, cond};
ghost use Rattle.lsa_pool.specs.Room.{spare_of};
ghost use Rattle.rc_entries.specs.Found.{entry_number};
ghost use Rattle.rc_entries.specs.Entries.{AreEntries, AreSettled};
ghost use Rattle.rc_entries.specs.Invalidated.{AreDetached, IsInvalidated, entry_numbers, is_one_of, partition_keys, without_keys};

use crate::entries::Entries;
use rc_chain::Chains;
use rc_mutation::Partition;

impl Entries {
    /// Partitions were written to the tables below the cache, which have another phase since: their entries are taken out and the chains of these detached, and the newest version of each other chain that is found by its key, of a memtable too, has this phase. Older versions keep theirs. A caller sees to it that the tables of both phases say the same of each other key.
    pub fn invalidate<const S: usize>(
        &mut self,
        chains: &mut Chains<S>,
        parts: &[Partition],
        phase: u64,
    )
        ensures gone { self.new ≡ without_keys (partition_keys parts.now) self.old }
        ensures found { (q : Sequence ℕ) → entry_number self.new q ≡ cond (is_one_of (partition_keys parts.now) q) None (entry_number self.old q) }
        ensures invalidated { IsInvalidated (entry_numbers (partition_keys parts.now) self.old) phase chains.old chains.new }
        ensures entries { AreEntries self.old chains.old → AreEntries self.new chains.new }
        ensures settled { AreSettled self.old chains.old → AreSettled self.new chains.new }
        ensures spare { spare_of S chains.new.region.usages ≡ spare_of S chains.old.region.usages }
    {
        self.known();
        self.detach_each(chains, parts);
        chains.relabel(phase);
    }

    // Takes the entry of each of these partitions out, where it is one, and detaches its chain.
    fn detach_each<const S: usize>(&mut self, chains: &mut Chains<S>, parts: &[Partition])
        ensures gone { self.new ≡ without_keys (partition_keys parts.now) self.old }
        ensures detached { AreDetached (entry_numbers (partition_keys parts.now) self.old) chains.old chains.new }
        ensures entries { AreEntries self.old chains.old → AreEntries self.new chains.new }
        ensures settled { AreSettled self.old chains.old → AreSettled self.new chains.new }
        ensures spare { spare_of S chains.new.region.usages ≡ spare_of S chains.old.region.usages }
    {
        for part in parts {
            self.detach(chains, &part.key);
        }
    }
}
