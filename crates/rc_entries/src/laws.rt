//! The laws of entries: how they are found once one comes or goes, and what leaves them, and what their chains know, when something is done to chains, or to the tables below them. Each is the contract of a function that does nothing.

ghost use Rattle.std.specs.Prelude.{◌≡◌, ◌⊎◌, ◌↔◌, ℕ, true, false, List, [], None, Option, Some, cond};
ghost use Rattle.std.specs.Option.{option_to_list};
ghost use Rattle.std.specs.BTreeMap.{insert_entry, is_at};
ghost use Rattle.std.specs.Map.{remove_entry};
ghost use Rattle.std.specs.Ordering.{eq_by_cmp};
ghost use Rattle.rc_cell.specs.declared.rows.Row.{Row};
ghost use Rattle.rc_cell.specs.declared.writes.Tomb.{Tomb};
ghost use Rattle.rc_cell.specs.Winner.{joined_row};
ghost use Rattle.rc_position.specs.Position.{Head, Place, bytes_cmp};
ghost use Rattle.rc_mutation.specs.declared.mutations.Mutation.{Mutation};
ghost use Rattle.rc_mutation.specs.Source.{source_at_head, source_at_static};
ghost use Rattle.rc_core.specs.declared.entries.ChainKind.TheVariants.{Cache};
ghost use Rattle.rc_core.specs.Chains.{IsChainContinuous, IsMemtableChain, at_place};
ghost use Rattle.rc_core.specs.StandsFor.{StandsFor};
ghost use Rattle.rc_core.specs.Version.{Version};
ghost use Rattle.rc_registry.specs.Registry.{IsNumberIn};
ghost use Rattle.rc_memory.specs.Kept.{IsSoundChain};
ghost use Rattle.rc_memory.specs.Memory.{KeptChain, Member, Memory, IsSnapshotTaken, IsUntouched, chain_at, on_chain, on_shown, shown_detached, with_chains, with_dropped, without_snapshot};
ghost use Rattle.rc_chain.specs.Lives.{IsChainDropped, IsRelabelled, relabelled_chain};
ghost use Rattle.rc_populate.specs.Filling.{IsEntryOpened, on_newest_of};
ghost use Rattle.rc_entries.specs.Found.{DoKeysAscend, IsForgotten, entry_number};
ghost use Rattle.rc_entries.specs.Entries.{AreContinuous, AreEntries, AreSettled, IsCached, IsUsedAlike, LeavesCached};
ghost use Rattle.rc_entries.specs.Detached.{IsDetached};
ghost use Rattle.rc_entries.specs.Invalidated.{AreWellKept, IsAtRest, IsBelowAlike, IsInvalidated, KeepsReaders, entry_numbers, is_one_of, without_keys};

use rc_chain::laws::{
    a_relabelled_chain_keeps_what_is_said, one_more_snapshot_keeps_what_is_said,
    one_snapshot_less_keeps_what_is_said,
};
use rc_populate::laws::an_opened_chain_says_what_is_handed_in;

/// An entry that was opened is found by its key, and one that was taken out is not; all others are found as before.
pub fn each_key_is_found()
    ensures added { (entries : List (List ℕ × ℕ)) (key : List ℕ) (id : ℕ) (q : List ℕ) → entry_number entries key ≡ None → entry_number (insert_entry bytes_cmp entries key id) q ≡ cond (eq_by_cmp bytes_cmp key q) (Some id) (entry_number entries q) }
    ensures gone { (entries : List (List ℕ × ℕ)) (key q : List ℕ) → DoKeysAscend entries → entry_number (remove_entry (is_at (bytes_cmp key)) entries) q ≡ cond (eq_by_cmp bytes_cmp key q) None (entry_number entries q) }
{}

/// Where the chains of the cache are left, so are the entries; settled ones are where the same numbers are to be told. The chain of each settled entry is there.
pub fn what_leaves_the_caches_chains_leaves_the_entries()
    ensures entries { (entries : List (List ℕ × ℕ)) (old new : Memory) → LeavesCached old new → AreEntries entries old → AreEntries entries new }
    ensures settled { (entries : List (List ℕ × ℕ)) (old new : Memory) → new.dropped ≡ old.dropped → AreSettled entries old → AreSettled entries new }
    ensures there { (entries : List (List ℕ × ℕ)) (m : Memory) (key : List ℕ) (id : ℕ) → AreEntries entries m → AreSettled entries m → entry_number entries key ≡ Some id → IsCached m id }
    ensures itself { (m : Memory) → LeavesCached m m }
    ensures both { (old mid new : Memory) → LeavesCached old mid → LeavesCached mid new → LeavesCached old new }
{}

/// The chains of the cache are left where objects move; where a chain changes whose kind stays, and whether it is found by its key, as where a snapshot is taken or taken back, or something is filled; where a chain goes; where several change so, or go; where newest versions get another phase; and whatever becomes of chains of memtables.
pub fn each_change_leaves_the_caches_chains()
    ensures moved { (old new : Memory) → IsUntouched old new → LeavesCached old new }
    ensures changed { (id : ℕ) (f : KeptChain → KeptChain) (old new : Memory) → new.chains ≡ on_chain id f old.chains → new.dropped ≡ old.dropped → ((k : KeptChain) → ((f k).chain.kind ≡ k.chain.kind) × ((f k).chain.attached ≡ k.chain.attached)) → LeavesCached old new }
    ensures pinned { (id pin phase : ℕ) (old new : Memory) → IsSnapshotTaken old new id pin phase → LeavesCached old new }
    ensures released { (id pin : ℕ) (m : Memory) → LeavesCached m (with_chains (on_chain id (without_snapshot pin) m.chains) m) }
    ensures filled { (id : ℕ) (f : Version → Version) (old new : Memory) → new.chains ≡ on_chain id (on_shown (on_newest_of f)) old.chains → new.dropped ≡ old.dropped → LeavesCached old new }
    ensures dropped { (id : ℕ) (list : List Member) (old new : Memory) → IsChainDropped id list old new → LeavesCached old new }
    ensures several { (old new : Memory) → ((id : ℕ) (k : KeptChain) → chain_at old id ≡ Some k → IsUsedAlike new id k ⊎ IsNumberIn new.dropped id) → ((id : ℕ) → chain_at old id ≡ None → chain_at new id ≡ None) →
        ((id : ℕ) → IsNumberIn old.dropped id → IsNumberIn new.dropped id) → ((id : ℕ) → IsNumberIn new.dropped id → chain_at new id ≡ None) → LeavesCached old new }
    ensures relabelled { (phase : ℕ) (old new : Memory) → IsRelabelled phase old new → LeavesCached old new }
    ensures beside { (old new : Memory) → ((id : ℕ) (k : KeptChain) → k.chain.kind ≡ Cache → chain_at old id ≡ Some k → chain_at new id ≡ Some k) → ((id : ℕ) (k : KeptChain) → k.chain.kind ≡ Cache → chain_at new id ≡ Some k → chain_at old id ≡ Some k) →
        ((id : ℕ) → IsNumberIn old.dropped id → IsNumberIn new.dropped id) → LeavesCached old new }
{}

/// What the chains of entries know stays what lies below: where an entry is opened by the head of what lies below, where one is taken out or forgotten, where objects move, where a snapshot is taken or taken back, where a chain goes, and where one changes to a continuous one, as where what lies below is filled into it, or several do.
pub fn what_entries_know_stays_what_lies_below()
    ensures opened { (below : List ℕ → ℕ → List Mutation) (entries : List (List ℕ × ℕ)) (key : List ℕ) (id : ℕ) (pt : Option Tomb) (statics : Option Row) (phase : ℕ) (old new : Memory) → AreEntries entries old → entry_number entries key ≡ None → IsEntryOpened id pt statics phase old new →
        pt ≡ source_at_head (below key phase) → joined_row (option_to_list statics) ≡ source_at_static (below key phase) → AreContinuous below entries old → AreContinuous below (insert_entry bytes_cmp entries key id) new }
    ensures detached { (below : List ℕ → ℕ → List Mutation) (entries : List (List ℕ × ℕ)) (key : List ℕ) (id : ℕ) (old new : Memory) → AreEntries entries old → entry_number entries key ≡ Some id → IsDetached id old new → AreContinuous below entries old → AreContinuous below (remove_entry (is_at (bytes_cmp key)) entries) new }
    ensures forgotten { (below : List ℕ → ℕ → List Mutation) (before now : List (List ℕ × ℕ)) (numbers : List ℕ) (m : Memory) → IsForgotten numbers before now → AreContinuous below before m → AreContinuous below now (with_dropped [] m) }
    ensures moved { (below : List ℕ → ℕ → List Mutation) (entries : List (List ℕ × ℕ)) (old new : Memory) → IsUntouched old new → AreContinuous below entries old → AreContinuous below entries new }
    ensures changed { (below : List ℕ → ℕ → List Mutation) (entries : List (List ℕ × ℕ)) (id : ℕ) (f : KeptChain → KeptChain) (old new : Memory) → new.chains ≡ on_chain id f old.chains →
        ((key : List ℕ) (k : KeptChain) → entry_number entries key ≡ Some id → chain_at old id ≡ Some k → (k.chain.updating ≡ false → IsChainContinuous (below key) (at_place Head k.chain)) → (f k).chain.updating ≡ false → IsChainContinuous (below key) (at_place Head (f k).chain)) →
        AreContinuous below entries old → AreContinuous below entries new }
    ensures pinned { (below : List ℕ → ℕ → List Mutation) (entries : List (List ℕ × ℕ)) (id pin phase : ℕ) (old new : Memory) → ((k : KeptChain) → chain_at old id ≡ Some k → IsSoundChain k.chain × (k.chain.attached ≡ true)) → IsSnapshotTaken old new id pin phase → AreContinuous below entries old → AreContinuous below entries new }
    ensures released { (below : List ℕ → ℕ → List Mutation) (entries : List (List ℕ × ℕ)) (id pin : ℕ) (m : Memory) → AreContinuous below entries m → AreContinuous below entries (with_chains (on_chain id (without_snapshot pin) m.chains) m) }
    ensures filled { (below : List ℕ → ℕ → List Mutation) (entries : List (List ℕ × ℕ)) (id : ℕ) (f : Version → Version) (old new : Memory) → new.chains ≡ on_chain id (on_shown (on_newest_of f)) old.chains →
        ((key : List ℕ) (k : KeptChain) → entry_number entries key ≡ Some id → chain_at old id ≡ Some k → IsChainContinuous (below key) (at_place Head k.chain) → IsChainContinuous (below key) (at_place Head (on_newest_of f k.chain))) → AreContinuous below entries old → AreContinuous below entries new }
    ensures dropped { (below : List ℕ → ℕ → List Mutation) (entries : List (List ℕ × ℕ)) (id : ℕ) (list : List Member) (old new : Memory) → IsChainDropped id list old new → AreContinuous below entries old → AreContinuous below entries new }
    ensures several { (below : List ℕ → ℕ → List Mutation) (entries : List (List ℕ × ℕ)) (old new : Memory) →
        ((key : List ℕ) (id : ℕ) (k : KeptChain) → entry_number entries key ≡ Some id → chain_at new id ≡ Some k → k.chain.updating ≡ false → (was : KeptChain) × (chain_at old id ≡ Some was) × (was.chain.updating ≡ false) × (IsChainContinuous (below key) (at_place Head was.chain) → IsChainContinuous (below key) (at_place Head k.chain))) →
        AreContinuous below entries old → AreContinuous below entries new }
    ensures beside { (below : List ℕ → ℕ → List Mutation) (entries : List (List ℕ × ℕ)) (old new : Memory) → ((key : List ℕ) (id : ℕ) (k : KeptChain) → entry_number entries key ≡ Some id → chain_at new id ≡ Some k → chain_at old id ≡ Some k) → AreContinuous below entries old → AreContinuous below entries new }
{
    an_opened_chain_says_what_is_handed_in();
    one_more_snapshot_keeps_what_is_said();
    one_snapshot_less_keeps_what_is_said();
}

/// What is left where partitions are invalidated: their entries are found no more and all others with their numbers; the chains of these entries are detached, the newest version of each other one that is found by its key has the phase, and none comes to be. Each snapshot of each chain sees what it saw. All else is at rest, and so is the recency list where no update stands in a chain that is detached.
pub fn what_an_invalidation_leaves()
    ensures found { (entries : List (List ℕ × ℕ)) (keys : List (List ℕ)) (q : List ℕ) → DoKeysAscend entries → entry_number (without_keys keys entries) q ≡ cond (is_one_of keys q) None (entry_number entries q) }
    ensures numbers { (entries : List (List ℕ × ℕ)) (keys : List (List ℕ)) (id : ℕ) → DoKeysAscend entries → IsNumberIn (entry_numbers keys entries) id ↔ ((key : List ℕ) × (is_one_of keys key ≡ true) × (entry_number entries key ≡ Some id)) }
    ensures gone { (ids : List ℕ) (phase id : ℕ) (k : KeptChain) (old new : Memory) → IsInvalidated ids phase old new → IsNumberIn ids id → chain_at old id ≡ Some k → chain_at new id ≡ Some (on_shown shown_detached k) }
    ensures others { (ids : List ℕ) (phase id : ℕ) (k : KeptChain) (old new : Memory) → IsInvalidated ids phase old new → (IsNumberIn ids id → ⊥) → chain_at old id ≡ Some k → chain_at new id ≡ Some (relabelled_chain phase k) }
    ensures none { (ids : List ℕ) (phase id : ℕ) (old new : Memory) → IsInvalidated ids phase old new → chain_at old id ≡ None → chain_at new id ≡ None }
    ensures readers { (ids : List ℕ) (phase id : ℕ) (k : KeptChain) (old new : Memory) → IsInvalidated ids phase old new → chain_at old id ≡ Some k → (now : KeptChain) × (chain_at new id ≡ Some now) × KeepsReaders k now }
    ensures rest { (ids : List ℕ) (phase : ℕ) (old new : Memory) → IsInvalidated ids phase old new → IsAtRest old new }
    ensures recency { (ids : List ℕ) (phase : ℕ) (old new : Memory) → IsInvalidated ids phase old new → ((id : ℕ) (k : KeptChain) → IsNumberIn ids id → chain_at old id ≡ Some k → k.chain.updating ≡ false) → new.recency ≡ old.recency }
{}

/// A memtable's chain whose newest version gets another phase has the form still, and stands for the same writes.
pub fn a_new_phase_keeps_a_memtables_chain()
    ensures form { (p : Place) (phase : ℕ) (k : KeptChain) → IsMemtableChain (at_place p k.chain) → IsMemtableChain (at_place p (relabelled_chain phase k).chain) }
    ensures stands { (writes : List Mutation) (phase : ℕ) (k : KeptChain) → StandsFor writes k.chain.versions → StandsFor writes (relabelled_chain phase k).chain.versions }
{}

/// What the chains of entries know stays what lies below, where newest versions get another phase, and where partitions are invalidated: for each key that is an entry still, what lies below it at this phase is of the same source as what lay below it at the phase of its newest version, and what lies there at the phases of older versions as what lay there.
pub fn what_entries_know_stays_what_lies_below_at_a_new_phase()
    ensures relabelled { (below other : List ℕ → ℕ → List Mutation) (entries : List (List ℕ × ℕ)) (phase : ℕ) (old new : Memory) → AreEntries entries old → AreWellKept old → IsRelabelled phase old new →
        ((key : List ℕ) (id : ℕ) (k : KeptChain) → entry_number entries key ≡ Some id → chain_at old id ≡ Some k → IsBelowAlike (below key) (other key) phase k.chain.versions) → AreContinuous below entries old → AreContinuous other entries new }
    ensures invalidated { (below other : List ℕ → ℕ → List Mutation) (entries : List (List ℕ × ℕ)) (keys : List (List ℕ)) (phase : ℕ) (old new : Memory) → AreEntries entries old → AreWellKept old → IsInvalidated (entry_numbers keys entries) phase old new →
        ((key : List ℕ) (id : ℕ) (k : KeptChain) → entry_number (without_keys keys entries) key ≡ Some id → chain_at old id ≡ Some k → IsBelowAlike (below key) (other key) phase k.chain.versions) → AreContinuous below entries old → AreContinuous other (without_keys keys entries) new }
{
    a_relabelled_chain_keeps_what_is_said();
}
