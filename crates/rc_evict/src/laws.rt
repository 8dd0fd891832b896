//! The laws of evictions, each the contract of a function that does nothing.
ghost use Rattle.std.specs.Prelude.{◌≡◌, ◌≢◌, ◌++◌, ◌∷◌, [], ℕ, false, List, Option, Some, None, Contains, length};
ghost use Rattle.rc_mutation.specs.declared.mutations.Mutation.{Mutation};
ghost use Rattle.rc_position.specs.declared.positions.Pos.{Pos};
ghost use Rattle.rc_position.specs.Position.{Place};
ghost use Rattle.rc_core.specs.declared.entries.ChainKind.TheVariants.{Cache, Memtable};
ghost use Rattle.rc_core.specs.Chain.{IsKnown, content, states_at};
ghost use Rattle.rc_core.specs.Chains.{IsChainContinuous, IsPinned, at_place, phases, upto};
ghost use Rattle.rc_core.specs.Change.{drop_at, lose_last_gap};
ghost use Rattle.rc_core.specs.Continuity.{IsEvicted, IsSameOrLost, with_entries, without_statics};
ghost use Rattle.rc_core.specs.Steps.{IsCarriedIn, IsChain};
ghost use Rattle.rc_core.specs.Version.{IsVersion, On, Version, end_position};
ghost use Rattle.rc_memory.specs.Memory.{IsUntouched, KeptChain, Member, Memory, chain_at};
ghost use Rattle.rc_memory.specs.Recency.{IsRecency};
ghost use Rattle.rc_memory.specs.Changes.{OfVersion};
ghost use Rattle.rc_memory.specs.Kept.{IsLiveInChains};
ghost use Rattle.rc_chain.specs.Lives.{IsChainDropped, IsIdle};
ghost use Rattle.rc_evict.specs.Crowding.{LosesWhereCrowded};
ghost use Rattle.rc_evict.specs.declared.evicting.Evicted.{Evicted};
ghost use Rattle.rc_evict.specs.Evictions.{AreEvicted, IsOneEvicted, IsPlaceUnlisted, evicted_at, evicted_of};

/// What an eviction leaves of a version: it is one still, and each place is said as before, or is Unknown with nothing held there.
pub fn an_evicted_object_leaves_a_version()
    ensures entry { (x : Pos) (v : Version) → x ≢ end_position → evicted_at (Some x) v ≡ with_entries (drop_at x v.entries) v }
    ensures end_dummy { (v : Version) → evicted_at (Some end_position) v ≡ with_entries (lose_last_gap v.entries) v }
    ensures statics { (v : Version) → evicted_at None v ≡ without_statics v }
    ensures version { (at : Option Pos) (v : Version) → IsVersion v → IsVersion (evicted_at at v) }
    ensures lost { (at : Option Pos) (v : Version) → IsVersion v → IsEvicted v (evicted_at at v) }
    ensures phase { (at : Option Pos) (v : Version) → (evicted_at at v).phase ≡ v.phase }
{}

/// One eviction is one of several, and leaves the number of segments and of moves; none are where objects moved alone; and those that follow others are with these the evictions of all.
pub fn evictions_follow_one_another()
    ensures one { (sort : Evicted) (old new : Memory) (e : IsOneEvicted sort old new) → (gone : List ℕ) × AreEvicted (e.place ∷ []) gone old new }
    ensures region { (sort : Evicted) (old new : Memory) → IsOneEvicted sort old new → (length new.region.usages ≡ length old.region.usages) × (new.region.moved ≡ old.region.moved) }
    ensures none { (old new : Memory) → IsUntouched old new → AreEvicted [] [] old new }
    ensures both { (went more : List Member) (gone others : List ℕ) (old mid new : Memory) → AreEvicted went gone old mid → AreEvicted more others mid new → AreEvicted (went ++ more) (gone ++ others) old new }
{}

/// Evictions leave of a chain all but what its versions hold: its kind, whether it is found by its key and whether an update stands in it, its snapshots, how many versions it has, and their phases. Where none of its objects went it is as it was.
pub fn evictions_leave_the_use_of_a_chain()
    ensures kind { (id : ℕ) (went : List Member) (k : KeptChain) → (evicted_of id went k).chain.kind ≡ k.chain.kind }
    ensures attached { (id : ℕ) (went : List Member) (k : KeptChain) → (evicted_of id went k).chain.attached ≡ k.chain.attached }
    ensures updating { (id : ℕ) (went : List Member) (k : KeptChain) → (evicted_of id went k).chain.updating ≡ k.chain.updating }
    ensures pins { (id : ℕ) (went : List Member) (k : KeptChain) → (evicted_of id went k).chain.pins ≡ k.chain.pins }
    ensures passed { (id : ℕ) (went : List Member) (k : KeptChain) → (evicted_of id went k).passed ≡ k.passed }
    ensures count { (id : ℕ) (went : List Member) (k : KeptChain) → length (evicted_of id went k).chain.versions ≡ length k.chain.versions }
    ensures phases { (id : ℕ) (went : List Member) (k : KeptChain) → phases (evicted_of id went k).chain.versions ≡ phases k.chain.versions }
    ensures untouched { (id : ℕ) (went : List Member) (k : KeptChain) → ((w : Member) → Contains went w → w.chain ≢ id) → evicted_of id went k ≡ k }
{}

/// After evictions a chain is a chain still, and at each version each place is seen as before, or it is Unknown: what is known then was known, with the same content; and what is carried then was carried.
pub fn what_was_evicted_is_seen_as_before_or_lost()
    ensures form { (p : Place) (id : ℕ) (went : List Member) (k : KeptChain) → IsChain (at_place p k.chain) → IsChain (at_place p (evicted_of id went k).chain) }
    ensures seen { (p : Place) (id : ℕ) (went : List Member) (k : KeptChain) (j : ℕ) → IsChain (at_place p k.chain) → IsSameOrLost (upto k.chain.versions j) (upto (evicted_of id went k).chain.versions j) }
    ensures known { (p : Place) (id : ℕ) (went : List Member) (k : KeptChain) (j : ℕ) (x : Pos) → IsChain (at_place p k.chain) → IsKnown Cache (upto (evicted_of id went k).chain.versions j) x →
        IsKnown Cache (upto k.chain.versions j) x × (content (states_at (On x) (upto (evicted_of id went k).chain.versions j)) ≡ content (states_at (On x) (upto k.chain.versions j))) }
    ensures carried { (p : Place) (id : ℕ) (went : List Member) (k : KeptChain) (x : Pos) → IsChain (at_place p k.chain) → IsCarriedIn (at_place p (evicted_of id went k).chain) x → IsCarriedIn (at_place p k.chain) x }
{}

/// Evictions keep each chain continuous, where the recency list keeps its rule and the entry at an update's place is out of it; and out of it that stays.
pub fn evictions_keep_the_whole_chain()
    ensures chain { (below : ℕ → List Mutation) (p : Place) (went : List Member) (gone : List ℕ) (old new : Memory) (id : ℕ) (k : KeptChain) → IsRecency old → AreEvicted went gone old new → chain_at old id ≡ Some k →
        IsChain (at_place p k.chain) → IsPlaceUnlisted p id k.chain old.recency → IsChainContinuous below (at_place p k.chain) → IsChainContinuous below (at_place p (evicted_of id went k).chain) }
    ensures place { (p : Place) (went : List Member) (gone : List ℕ) (old new : Memory) (id : ℕ) (k : KeptChain) → AreEvicted went gone old new → IsPlaceUnlisted p id k.chain old.recency → IsPlaceUnlisted p id (evicted_of id went k).chain new.recency }
{}

/// Evictions touch no memtable's chain, where the recency list keeps its rule; and they drop no chain that a snapshot pins, or in which an update stands.
pub fn evictions_spare_memtables_and_readers()
    ensures memtable { (went : List Member) (gone : List ℕ) (old new : Memory) (id : ℕ) (k : KeptChain) → IsRecency old → AreEvicted went gone old new → chain_at old id ≡ Some k → k.chain.kind ≡ Memtable → chain_at new id ≡ Some k }
    ensures pinned { (went : List Member) (gone : List ℕ) (old new : Memory) (id j : ℕ) (k : KeptChain) → AreEvicted went gone old new → chain_at old id ≡ Some k → IsPinned k.chain.pins j → chain_at new id ≡ Some (evicted_of id went k) }
    ensures updating { (went : List Member) (gone : List ℕ) (old new : Memory) (id : ℕ) (k : KeptChain) → AreEvicted went gone old new → chain_at old id ≡ Some k → k.chain.updating ≢ false → chain_at new id ≡ Some (evicted_of id went k) }
    ensures absent { (went : List Member) (gone : List ℕ) (old new : Memory) (id : ℕ) → AreEvicted went gone old new → chain_at old id ≡ None → chain_at new id ≡ None }
    ensures none { (gone : List ℕ) (old new : Memory) (id : ℕ) → AreEvicted [] gone old new → chain_at new id ≡ chain_at old id }
{}

/// Where an idle chain is dropped nothing is lost: of each of its versions a head and an end dummy were left, of 152 bytes, where what is live is what all chains take.
pub fn a_chain_that_is_dropped_had_its_ends_alone()
    ensures { (S : ℕ) (old new : Memory) (id : ℕ) (list : List Member) (k : KeptChain) → chain_at old id ≡ Some k → IsRecency old → ((i j : ℕ) → OfVersion old i j (λ k v. IsVersion v)) → IsLiveInChains old → IsLiveInChains new →
        IsIdle old id k.chain → IsChainDropped id list old new → LosesWhereCrowded S 0 old new }
{}
