//! Snapshots, their release, and a chain that is detached: no state changes, and the whole chain stays continuous. Then the objects of a
//! chain that nobody finds or reads go, one at a time.

ghost use Rattle.std.specs.Prelude.{◌≡◌, ◌≢◌, ◌++◌, ◌∷◌, ◌⊎◌, ℕ, suc, true, List, None, Option, Some, length, map, option_map};
ghost use Rattle.rc_mutation.specs.declared.mutations.Mutation.{Mutation};
ghost use Rattle.rc_core.specs.Chains.{Chain, IsChainContinuous, IsMemtableChain, IsNeeded, IsPinned, with_versions};
ghost use Rattle.rc_position.specs.declared.positions.Pos.{Pos};
ghost use Rattle.rc_position.specs.Position.{IsBefore};
ghost use Rattle.rc_core.specs.declared.entries.ChainKind.{ChainKind};
ghost use Rattle.rc_core.specs.declared.entries.ChainKind.TheVariants.{Cache, Memtable};
ghost use Rattle.rc_core.specs.Free.{IsAbandoned, free_entry, free_statics, freed_mark};
ghost use Rattle.rc_core.specs.Version.{IsVersion, Spot, Version, state_at, state_of, end_position, finding_of};
ghost use Rattle.rc_core.specs.Steps.{IsChain, IsSnapshotOf, detach, free_number, number_after_removal, pin_at, pins_with, pins_without, release, snapshot, with_pins};

/// A snapshot gets a number that was free, and the numbers of others stay, then and while others are released. A version is pinned where some
/// number has it.
pub fn a_snapshots_number_stays()
    ensures free { (pins : List (Option ℕ)) → pin_at pins (free_number pins) ≡ None }
    ensures given { (version : ℕ) (pins : List (Option ℕ)) → pin_at (pins_with version pins) (free_number pins) ≡ Some version }
    ensures others { (version : ℕ) (pins : List (Option ℕ)) (i : ℕ) → i ≢ free_number pins → pin_at (pins_with version pins) i ≡ pin_at pins i }
    ensures released { (i : ℕ) (pins : List (Option ℕ)) → pin_at (pins_without i pins) i ≡ None }
    ensures kept { (i k : ℕ) (pins : List (Option ℕ)) → k ≢ i → pin_at (pins_without i pins) k ≡ pin_at pins k }
    ensures dropped { (n i : ℕ) (pins : List (Option ℕ)) → pin_at (map (option_map (number_after_removal n)) pins) i ≡ option_map (number_after_removal n) (pin_at pins i) }
    ensures pinned { (pins : List (Option ℕ)) (i j : ℕ) → pin_at pins i ≡ Some j → IsPinned pins j }
    ensures numbered { (pins : List (Option ℕ)) (j : ℕ) → IsPinned pins j → (i : ℕ) × (pin_at pins i ≡ Some j) }
{}

/// Pins that pin no other version than those of before keep all that is said of a chain.
pub fn fewer_pins_keep_the_whole_chain()
    ensures chain { (below : ℕ → List Mutation) (c : Chain) (pins : List (Option ℕ)) → ((j : ℕ) → IsPinned pins j → IsNeeded c j) →
        IsChainContinuous below c → IsChainContinuous below (with_pins pins c) }
    ensures form { (c : Chain) (pins : List (Option ℕ)) → ((j : ℕ) → IsPinned pins j → IsPinned c.pins j) → IsChain c → IsChain (with_pins pins c) }
    ensures memtable { (c : Chain) (pins : List (Option ℕ)) → ((j : ℕ) → IsPinned pins j → IsPinned c.pins j) →
        IsMemtableChain c → IsMemtableChain (with_pins pins c) }
{}

/// Pins that pin besides those of before the version which a snapshot pins keep all that is said of an attached chain.
pub fn one_more_pin_keeps_the_whole_chain()
    ensures chain { (below : ℕ → List Mutation) (c : Chain) (pins : List (Option ℕ)) (version : ℕ) → c.attached ≡ true → IsSnapshotOf c version →
        ((j : ℕ) → IsPinned pins j → IsPinned c.pins j ⊎ (j ≡ version)) → IsChainContinuous below c → IsChainContinuous below (with_pins pins c) }
    ensures form { (c : Chain) (pins : List (Option ℕ)) (version : ℕ) → IsSnapshotOf c version →
        ((j : ℕ) → IsPinned pins j → IsPinned c.pins j ⊎ (j ≡ version)) → IsChain c → IsChain (with_pins pins c) }
    ensures memtable { (c : Chain) (pins : List (Option ℕ)) (version : ℕ) → c.attached ≡ true → suc version ≡ length c.versions →
        ((j : ℕ) → IsPinned pins j → IsPinned c.pins j ⊎ (j ≡ version)) → IsMemtableChain c → IsMemtableChain (with_pins pins c) }
{}

/// A snapshot of an attached chain pins a version that was continuous before.
pub fn a_snapshot_keeps_the_whole_chain()
    ensures chain { (below : ℕ → List Mutation) (c : Chain) (pin : ℕ) → c.attached ≡ true → IsSnapshotOf c pin →
        IsChainContinuous below c → IsChainContinuous below (snapshot pin c) }
    ensures form { (c : Chain) (pin : ℕ) → IsSnapshotOf c pin → IsChain c → IsChain (snapshot pin c) }
{}

/// A released snapshot leaves the whole chain continuous.
pub fn a_release_keeps_the_whole_chain()
    ensures chain { (below : ℕ → List Mutation) (c : Chain) (i : ℕ) → IsChainContinuous below c → IsChainContinuous below (release i c) }
    ensures form { (c : Chain) (i : ℕ) → IsChain c → IsChain (release i c) }
{}

/// A detached chain stays continuous at each version that is pinned, also where an update stood in it.
pub fn a_detached_chain_stays_continuous()
    ensures chain { (below : ℕ → List Mutation) (c : Chain) → IsChain c → IsChainContinuous below c → IsChainContinuous below (detach c) }
    ensures form { (c : Chain) → IsChain c → IsChain (detach c) }
{}

/// Where an entry before the end is freed, each spot is as before, or it says what is said where an object was freed.
pub fn a_freed_entry_is_said_no_more()
    ensures { (kind : ChainKind) (v : Version) (x : Pos) → IsVersion v → IsBefore x end_position → (s : Spot) →
        (state_at s (free_entry kind x v) ≡ state_at s v) ⊎ (state_at s (free_entry kind x v) ≡ state_of (finding_of (freed_mark kind) None)) }
{}

/// One object freed of a cache chain that nobody finds or reads leaves it continuous: an entry before the end, a static row, a version.
pub fn a_freed_object_keeps_the_whole_chain()
    ensures entry { (below : ℕ → List Mutation) (c : Chain) (front back : List Version) (v : Version) (x : Pos) → c.versions ≡ front ++ v ∷ back →
        IsAbandoned c → IsVersion v → IsBefore x end_position →
        IsChainContinuous below c → IsChainContinuous below (with_versions (front ++ free_entry Cache x v ∷ back) c) }
    ensures statics { (below : ℕ → List Mutation) (c : Chain) (front back : List Version) (v : Version) → c.versions ≡ front ++ v ∷ back → IsAbandoned c →
        IsChainContinuous below c → IsChainContinuous below (with_versions (front ++ free_statics Cache v ∷ back) c) }
    ensures version { (below : ℕ → List Mutation) (c : Chain) (front back : List Version) (v : Version) → c.versions ≡ front ++ v ∷ back → IsAbandoned c →
        IsChainContinuous below c → IsChainContinuous below (with_versions (front ++ back) c) }
{}

/// One object freed of a dropped memtable's chain that nobody reads keeps its form.
pub fn a_freed_object_keeps_the_memtables_form()
    ensures entry { (c : Chain) (front back : List Version) (v : Version) (x : Pos) → c.versions ≡ front ++ v ∷ back → IsAbandoned c → IsVersion v →
        IsBefore x end_position → IsMemtableChain c → IsMemtableChain (with_versions (front ++ free_entry Memtable x v ∷ back) c) }
    ensures statics { (c : Chain) (front back : List Version) (v : Version) → c.versions ≡ front ++ v ∷ back → IsAbandoned c →
        IsMemtableChain c → IsMemtableChain (with_versions (front ++ free_statics Memtable v ∷ back) c) }
    ensures version { (c : Chain) (front back : List Version) (v : Version) → c.versions ≡ front ++ v ∷ back → IsAbandoned c →
        IsMemtableChain c → IsMemtableChain (with_versions (front ++ back) c) }
{}

/// A chain with another version in the place of one stays a chain.
pub fn a_replaced_version_leaves_a_chain()
    ensures { (c : Chain) (front back : List Version) (before now : Version) → c.versions ≡ front ++ before ∷ back → IsVersion now →
        IsChain c → IsChain (with_versions (front ++ now ∷ back) c) }
{}
