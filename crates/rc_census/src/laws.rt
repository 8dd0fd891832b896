//! The laws of a census, each the contract of a function that does nothing.
ghost use Rattle.std.specs.Prelude.{◌≡◌, ◌∷◌, [], ℕ, true, false, List, Option, Some, None};
ghost use Rattle.rc_cell.specs.declared.writes.Tomb.{Tomb};
ghost use Rattle.rc_core.specs.declared.entries.ChainKind.TheVariants.{Cache, Memtable};
ghost use Rattle.rc_core.specs.Version.{IsVersion, Version};
ghost use Rattle.rc_registry.specs.Registry.{put_at_number};
ghost use Rattle.rc_memory.specs.Memory.{IsSnapshotTaken, IsUntouched, KeptChain, Member, Memory, chain_at, on_chain, on_shown, shown_detached, with_chains, without_snapshot};
ghost use Rattle.rc_chain.specs.Lives.{IsChainChanged, IsChainDropped, IsChainMade, IsEndAlone};
ghost use Rattle.rc_census.specs.Census.{census_of, census_raised, chain_dummies, chain_rows, is_in_cache};

/// The census stays where objects move, and where a snapshot is taken or given back.
pub fn readers_and_moves_leave_the_census()
    ensures moved { (old new : Memory) → IsUntouched old new → census_of new ≡ census_of old }
    ensures pinned { (id pin phase : ℕ) (old new : Memory) → IsSnapshotTaken old new id pin phase → census_of new ≡ census_of old }
    ensures released { (id pin : ℕ) (m : Memory) → census_of (with_chains (on_chain id (without_snapshot pin) m.chains) m) ≡ census_of m }
{}

/// The census tells of the chains of the cache that are found by their keys, and of no other: it stays where these do. Chains of memtables do not count, nor those that are no longer found by their keys.
pub fn other_chains_do_not_count()
    ensures memtable { (id : ℕ) (k : KeptChain) (m : Memory) → chain_at m id ≡ None → k.chain.kind ≡ Memtable → census_of (with_chains (put_at_number id (Some k) m.chains) m) ≡ census_of m }
    ensures detached { (id : ℕ) (k : KeptChain) (m : Memory) → chain_at m id ≡ None → k.chain.attached ≡ false → census_of (with_chains (put_at_number id (Some k) m.chains) m) ≡ census_of m }
    ensures beside { (old new : Memory) → ((id : ℕ) (k : KeptChain) → is_in_cache k ≡ true → chain_at old id ≡ Some k → chain_at new id ≡ Some k) → ((id : ℕ) (k : KeptChain) → is_in_cache k ≡ true → chain_at new id ≡ Some k → chain_at old id ≡ Some k) → census_of new ≡ census_of old }
{}

/// A chain of the cache of one version of its end dummy alone, as each one is made, counts as one partition, no row and one dummy.
pub fn a_new_chain_counts_one_dummy()
    ensures alone { (id : ℕ) (k : KeptChain) (v : Version) (m : Memory) → chain_at m id ≡ None → is_in_cache k ≡ true → k.chain.versions ≡ v ∷ [] → IsVersion v → IsEndAlone v → census_of (with_chains (put_at_number id (Some k) m.chains) m) ≡ census_raised 1 0 1 (census_of m) }
    ensures made { (id : ℕ) (pt : Option Tomb) (phase : ℕ) (list : List Member) (old new : Memory) → IsChainMade id Cache pt phase list old new → census_of new ≡ census_raised 1 0 1 (census_of old) }
    ensures memtable { (id : ℕ) (pt : Option Tomb) (phase : ℕ) (list : List Member) (old new : Memory) → IsChainMade id Memtable pt phase list old new → census_of new ≡ census_of old }
{}

/// A chain of the cache that is no longer found by its key, or is dropped, takes what it has out of the census.
pub fn a_chain_that_goes_counts_no_more()
    ensures detached { (id : ℕ) (k : KeptChain) (list : List Member) (old new : Memory) → chain_at old id ≡ Some k → is_in_cache k ≡ true → IsChainChanged id (on_shown shown_detached) list old new → census_raised 1 (chain_rows k) (chain_dummies k) (census_of new) ≡ census_of old }
    ensures dropped { (id : ℕ) (k : KeptChain) (list : List Member) (old new : Memory) → chain_at old id ≡ Some k → is_in_cache k ≡ true → IsChainDropped id list old new → census_raised 1 (chain_rows k) (chain_dummies k) (census_of new) ≡ census_of old }
{}
