//! The laws of a shard's memory, each the contract of a function that does nothing.
ghost use Rattle.std.specs.Prelude.{◌≡◌, ◌≢◌, ◌⊎◌, ◌<◌, ◌≤◌, ◌/◌, ◌^◌, ℕ, suc, Bool, true, false, Option, length, map, List, [], ◌∷◌, ◌++◌, None, AllPairs, Contains, IsSomeAnd, Some, IsSome, IfSome, slice_index_or, sum_by};
ghost use Rattle.rc_position.specs.declared.positions.Pos.{Pos};
ghost use Rattle.rc_registry.specs.ChainKind.{ChainKind};
ghost use Rattle.lsa_region.specs.declared.end.Root.{Root};
ghost use Rattle.lsa_region.specs.declared.end.End.{End};
ghost use Rattle.lsa_region.specs.declared.end.End.TheVariants.{Obj};
ghost use Rattle.rc_partition.specs.Recency.{first, IsElsewhere, IsList};
ghost use Rattle.rc_registry.specs.Version.{Ascend, EndsWithDummy, Version, end_position};
ghost use Rattle.rc_registry.specs.Change.{drop_at, entry_changed, gap_split};
ghost use Rattle.rc_registry.specs.Continuity.{with_entries, without_statics};
ghost use Rattle.rc_cell.specs.declared.rows.Row.{Row};
ghost use Rattle.rc_partition.specs.Versions.{IsKeptBut, IsUnlisted, IsVersionOf, IsWeighed};
ghost use Rattle.rc_registry.specs.Steps.{join_pt, on_version, pins_with, pins_without, row_joined, set_flags, set_static_flag, set_tombs, version_of, with_phase};
ghost use Rattle.rc_registry.specs.Chains.{Shown, IsPinned};
ghost use Rattle.rc_registry.specs.ChainKind.TheVariants.{Cache, Memtable};
ghost use Rattle.rc_registry.specs.Mark.{Mark};
ghost use Rattle.lsa_pool.specs.Account.{IsSound};
ghost use Rattle.rc_registry.specs.Flag.{Flag};
ghost use Rattle.rc_cell.specs.declared.writes.Tomb.{Tomb};
ghost use Rattle.rc_rowcode.specs.Objects.{dummy_size};
ghost use Rattle.rc_partition.specs.Partitions.{PartitionEntry, StandingVersion, AreStanding, among, partition_of, standing};
ghost use Rattle.rc_registry.specs.declared.uses.Use.{Use};
ghost use Rattle.lsa_store.specs.declared.place.Ref.{Ref};
ghost use Rattle.lsa_region.specs.Region.{View, body, link_of, live_bytes, objects, slots_of, IsRootAdded, IsRootDropped, IsSummed, IsWell, Renamed, SameButRoots, SameObjects};
ghost use Rattle.rc_partition.specs.List.{List as Slots};
ghost use Rattle.rc_registry.specs.Registry.{Registry, detached_use, new_use, on_use, put_at_number, set_passed, set_updating, with_pin, with_use, without_pin, without_version};
ghost use Rattle.rc_memory.specs.declared.counts.Counts.{Counts};
ghost use Rattle.rc_memory.specs.Memory.{KeptChain, Member, Memory, HasChain, HasVersion, IsObjectAt, IsOfVersion, IsVersionAt, IsVersionObject, chain_at, chain_detached, chain_made, version_changed, without_chain, fewer_versions, listed_as, mark_passed, more_versions, under_new_names, on_chain, on_shown, on_version_of, with_new_chain, renumbered_member, shown_detached, shown_pinned, shown_updating, shown_with, shown_without, update_begun, update_ended, with_chains};
ghost use Rattle.rc_memory.specs.Changes.{AtAlone, CanDrop, FitsChanged, IsRenewed, IsRenewedWhereNone, IsUnmoved, IsVersionChanged, IsWithout, KeepsLast, KeepsRows, LastIsListed, NothingListed, Nowhere, OfVersion, StandStill, member_at};
ghost use Rattle.rc_memory.specs.Kept.{HoldMemory, IsMemory, IsSoundChain, chain_of_use, present};
ghost use Rattle.rc_memory.specs.Recency.{HasObject, IsLastInner, IsRecency, IsUnderUpdate, MayBeListed, MustBeListed};
ghost use Rattle.rc_memory.specs.Room.{FitTogether, chain_bytes, chain_objects};

/// Region, recency list, table and counts hold one memory.
pub fn they_hold_one_memory()
    ensures { (slots : Slots) (v : View) (registry : Registry) (counts : Counts) (m n : Memory) → HoldMemory slots v registry counts m → HoldMemory slots v registry counts n → m ≡ n }
{}

/// After objects moved, all is held as before, under new names.
pub fn objects_may_move()
    ensures { (slots : Slots) (old new : View) (registry : Registry) (counts : Counts) (m : Memory) (names : List (Ref × Ref)) → HoldMemory slots old registry counts m → Renamed old new names → IsWell new → HoldMemory slots new registry counts (under_new_names names new m) }
{}

/// What is done to the use of a chain, whose root slot stays, is done to the chain; as where it is detached, is under update or no longer, gets the cleaner's mark or loses it, and is pinned or no longer.
pub fn a_use_may_change()
    ensures changed { (slots : Slots) (v : View) (registry : Registry) (counts : Counts) (m : Memory) (id : ℕ) (f : Use → Use) (g : KeptChain → KeptChain) → HoldMemory slots v registry counts m → HasChain m id → ((u : Use) → (f u).root ≡ u.root) → ((u : Use) (p : PartitionEntry) → chain_of_use (f u) p ≡ g (chain_of_use u p)) → HoldMemory slots v (on_use id f registry) counts (with_chains (on_chain id g m.chains) m) }
    ensures detached { (slots : Slots) (v : View) (registry : Registry) (counts : Counts) (m : Memory) (id : ℕ) → HoldMemory slots v registry counts m → HasChain m id → HoldMemory slots v (on_use id detached_use registry) counts (with_chains (on_chain id (on_shown shown_detached) m.chains) m) }
    ensures updating { (slots : Slots) (v : View) (registry : Registry) (counts : Counts) (m : Memory) (id : ℕ) (updating : Bool) → HoldMemory slots v registry counts m → HasChain m id → HoldMemory slots v (on_use id (set_updating updating) registry) counts (with_chains (on_chain id (on_shown (shown_updating updating)) m.chains) m) }
    ensures passed { (slots : Slots) (v : View) (registry : Registry) (counts : Counts) (m : Memory) (id : ℕ) (passed : Bool) → HoldMemory slots v registry counts m → HasChain m id → HoldMemory slots v (on_use id (set_passed passed) registry) counts (with_chains (on_chain id (mark_passed passed) m.chains) m) }
    ensures pinned { (slots : Slots) (v : View) (registry : Registry) (counts : Counts) (m : Memory) (id : ℕ) (version : ℕ) → HoldMemory slots v registry counts m → HasChain m id → HoldMemory slots v (on_use id (with_pin version) registry) counts (with_chains (on_chain id (on_shown (λ c. shown_pinned (pins_with version c.pins) c)) m.chains) m) }
    ensures released { (slots : Slots) (v : View) (registry : Registry) (counts : Counts) (m : Memory) (id : ℕ) (pin : ℕ) → HoldMemory slots v registry counts m → HasChain m id → HoldMemory slots v (on_use id (without_pin pin) registry) counts (with_chains (on_chain id (on_shown (λ c. shown_pinned (pins_without pin c.pins) c)) m.chains) m) }
{}

/// The recency list may change: an object at a place is put at its back, taken out of it, or made the most recent one, and its place with it.
pub fn the_list_may_change()
    ensures pushed { (slots : Slots) (old new : View) (registry : Registry) (counts : Counts) (m : Memory) (r : Ref) (w : Member) → HoldMemory slots old registry counts m → ((e : End) → IsElsewhere slots old e → link_of new e ≡ link_of old e) → SameObjects old new → IsWell new → IsObjectAt old m.standing r w → ((xs : List Ref) → IsList slots old xs → IsList slots new (xs ++ (r ∷ []))) →
        ((e : End) → link_of old e ≡ None → e ≢ Obj r 0 → e ≢ Obj r 1 → link_of new e ≡ None) → HoldMemory slots new registry counts (listed_as (m.recency ++ (w ∷ [])) new m) }
    ensures taken { (slots : Slots) (old new : View) (registry : Registry) (counts : Counts) (m : Memory) (r : Ref) (front : List Member) (w : Member) (back : List Member) → HoldMemory slots old registry counts m → ((e : End) → IsElsewhere slots old e → link_of new e ≡ link_of old e) → SameObjects old new → IsWell new → m.recency ≡ front ++ (w ∷ back) → IsObjectAt old m.standing r w → ((xs ys : List Ref) → IsList slots old (xs ++ (r ∷ ys)) → IsList slots new (xs ++ ys)) →
        link_of new (Obj r 0) ≡ None → link_of new (Obj r 1) ≡ None → ((e : End) → link_of old e ≡ None → link_of new e ≡ None) → HoldMemory slots new registry counts (listed_as (front ++ back) new m) }
    ensures touched { (slots : Slots) (old new : View) (registry : Registry) (counts : Counts) (m : Memory) (r : Ref) (front : List Member) (w : Member) (back : List Member) → HoldMemory slots old registry counts m → ((e : End) → IsElsewhere slots old e → link_of new e ≡ link_of old e) → SameObjects old new → IsWell new → m.recency ≡ front ++ (w ∷ back) → IsObjectAt old m.standing r w → ((xs ys : List Ref) → IsList slots old (xs ++ (r ∷ ys)) → IsList slots new ((xs ++ ys) ++ (r ∷ []))) →
        ((e : End) → link_of old e ≡ None → link_of new e ≡ None) → HoldMemory slots new registry counts (listed_as ((front ++ back) ++ (w ∷ [])) new m) }
{}

/// An object is listed exactly where its place is in the recency list; where it is not, its links are unset. The first object of the list stands at the first place.
pub fn the_list_is_told_by_places()
    ensures listed { (slots : Slots) (v : View) (registry : Registry) (counts : Counts) (m : Memory) (r : Ref) (w : Member) (h : HoldMemory slots v registry counts m) → IsObjectAt v m.standing r w → Contains m.recency w → Contains h.listed r }
    ensures placed { (slots : Slots) (v : View) (registry : Registry) (counts : Counts) (m : Memory) (r : Ref) (w : Member) (h : HoldMemory slots v registry counts m) → IsObjectAt v m.standing r w → Contains h.listed r → Contains m.recency w }
    ensures unlisted { (slots : Slots) (v : View) (registry : Registry) (counts : Counts) (m : Memory) (r : Ref) (w : Member) → HoldMemory slots v registry counts m → IsObjectAt v m.standing r w → (Contains m.recency w → ⊥) → IsUnlisted v r }
    ensures split { (slots : Slots) (v : View) (registry : Registry) (counts : Counts) (m : Memory) (front : List Member) (w : Member) (back : List Member) (r : Ref) → HoldMemory slots v registry counts m → m.recency ≡ front ++ (w ∷ back) → IsObjectAt v m.standing r w → (xs : List Ref) × (ys : List Ref) × IsList slots v (xs ++ (r ∷ ys)) }
    ensures front { (slots : Slots) (v : View) (registry : Registry) (counts : Counts) (m : Memory) (r : Ref) (h : HoldMemory slots v registry counts m) → first h.listed ≡ Some r → (w : Member) × (back : List Member) × (m.recency ≡ w ∷ back) × IsObjectAt v m.standing r w }
    ensures empty { (slots : Slots) (v : View) (registry : Registry) (counts : Counts) (m : Memory) (h : HoldMemory slots v registry counts m) → first h.listed ≡ None → m.recency ≡ [] }
{}

/// At a place stands one object, and an object stands at one place.
pub fn an_object_stands_at_one_place()
    ensures place { (slots : Slots) (v : View) (registry : Registry) (counts : Counts) (m : Memory) (r : Ref) (w x : Member) → HoldMemory slots v registry counts m → IsObjectAt v m.standing r w → IsObjectAt v m.standing r x → w ≡ x }
    ensures object { (slots : Slots) (v : View) (registry : Registry) (counts : Counts) (m : Memory) (r q : Ref) (w : Member) → HoldMemory slots v registry counts m → IsObjectAt v m.standing r w → IsObjectAt v m.standing q w → r ≡ q }
{}

/// A version of a chain may change: all is held as before, with that version in its place, where the objects of it that are listed stand where they stood; of a static row it is enough that no entry came to be but of what was not there.
pub fn a_version_may_change()
    ensures changed { (slots : Slots) (old new : View) (registry : Registry) (counts : Counts) (m : Memory) (id j : ℕ) (p : PartitionEntry) (s : StandingVersion) (now : List Ref) (c : Version) → HoldMemory slots old registry counts m → IsSummed old → IsWell new → IsSummed new → slice_index_or m.standing id None ≡ Some p → IsVersionAt p.versions j s →
        IsKeptBut s.object old new → IsVersionOf new s.object now c → IsWeighed old new s.version c →
        ((w : Member) (r : Ref) → Contains m.recency w → w.chain ≡ id → w.version ≡ j → IsOfVersion old s w.position r → IsOfVersion new (standing s.object now c) w.position r) → HoldMemory slots new registry counts (version_changed id j (standing s.object now c) new m) }
    ensures entries { (slots : Slots) (old new : View) (registry : Registry) (counts : Counts) (m : Memory) (id j : ℕ) (p : PartitionEntry) (s : StandingVersion) (now : List Ref) (c : Version) → HoldMemory slots old registry counts m → IsSummed old → IsWell new → IsSummed new → slice_index_or m.standing id None ≡ Some p → IsVersionAt p.versions j s →
        IsKeptBut s.object old new → IsVersionOf new s.object now c → IsWeighed old new s.version c → ((q : Ref) → Contains now q → Contains s.entries q ⊎ (body old q ≡ None)) →
        ((x : Pos) (r : Ref) → Contains m.recency (record { chain = id; version = j; position = Some x }) → IsOfVersion old s (Some x) r → IsOfVersion new (standing s.object now c) (Some x) r) → HoldMemory slots new registry counts (version_changed id j (standing s.object now c) new m) }
{}

/// A version of its end dummy alone is put over those of a chain; and one that has no listed object is dropped, when the newer ones have numbers less by one, and their pins and listed objects with them.
pub fn a_version_comes_and_goes()
    ensures added { (slots : Slots) (old new : View) (registry : Registry) (counts : Counts) (m : Memory) (id : ℕ) (p : PartitionEntry) (n : Ref) (c : Version) → HoldMemory slots old registry counts m → IsWell new → slots_of new ≡ slots_of old → slice_index_or m.standing id None ≡ Some p →
        ((front : List PartitionEntry) (versions : List StandingVersion) (back : List PartitionEntry) (listed : List Ref) → AreStanding slots old (front ++ (partition_of p.root versions ∷ back)) listed →
        (end : Ref) × AreStanding slots new (front ++ (partition_of p.root (versions ++ (standing n (end ∷ []) c ∷ [])) ∷ back)) listed × IsUnlisted new end) →
        ((q : Ref) (refs : List Ref) (d : Version) → IsVersionOf old q refs d → link_of new (Obj q 3) ≡ link_of old (Obj q 3)) → (end : Ref) × HoldMemory slots new registry counts (more_versions id (standing n (end ∷ []) c) new m) × IsUnlisted new end }
    ensures dropped { (slots : Slots) (old new : View) (registry : Registry) (counts : Counts) (m : Memory) (id j : ℕ) (p : PartitionEntry) (s : StandingVersion) → HoldMemory slots old registry counts m → IsWell new → slots_of new ≡ slots_of old → slice_index_or m.standing id None ≡ Some p → IsVersionAt p.versions j s →
        ((front : List PartitionEntry) (older : List StandingVersion) (t : StandingVersion) (newer : List StandingVersion) (back : List PartitionEntry) (listed : List Ref) → t.object ≡ s.object →
        AreStanding slots old (among front p.root older t newer back) listed → AreStanding slots new (front ++ (partition_of p.root (older ++ newer) ∷ back)) listed) →
        ((q : Ref) (refs : List Ref) (d : Version) → q ≢ s.object → IsVersionOf old q refs d → link_of new (Obj q 3) ≡ link_of old (Obj q 3)) → HoldMemory slots new (on_use id (without_version j) registry) counts (fewer_versions id j new m) }
{}

/// A chain of no version comes with its root slot, and goes with it; its number is to be told then. Of a chain of no version nothing but its root slot stands.
pub fn a_chain_comes_and_goes()
    ensures opened { (slots : Slots) (old new : View) (registry : Registry) (counts : Counts) (m : Memory) (id : ℕ) (root : Root) (kind : ChainKind) → HoldMemory slots old registry counts m → IsRootAdded old new root → SameButRoots old new → IsWell new → slice_index_or registry.uses id None ≡ None → HoldMemory slots new (with_use id (Some (new_use root kind)) registry) counts (with_new_chain id root kind new m) }
    ensures closed { (slots : Slots) (old new : View) (registry : Registry) (counts : Counts) (m : Memory) (id : ℕ) (root : Root) → HoldMemory slots old registry counts m → IsRootDropped old new root → SameButRoots old new → IsWell new → slice_index_or m.standing id None ≡ Some (partition_of root []) →
        HoldMemory slots new (record { uses = put_at_number id None registry.uses; dropped = registry.dropped ++ (id ∷ []) }) counts (without_chain id new m) }
    ensures empty { (slots : Slots) (v : View) (registry : Registry) (counts : Counts) (m : Memory) (id : ℕ) (k : KeptChain) → HoldMemory slots v registry counts m → chain_at m id ≡ Some k → k.chain.versions ≡ [] → (u : Use) × (slice_index_or registry.uses id None ≡ Some u) × (slice_index_or m.standing id None ≡ Some (partition_of u.root [])) }
{}

/// Each object is a version of a chain, or stands at a place of one; what is live is what the chains take, and there are as many objects as they have.
pub fn each_object_is_of_a_chain()
    ensures each { (slots : Slots) (v : View) (registry : Registry) (counts : Counts) (m : Memory) (r : Ref) → HoldMemory slots v registry counts m → IsSummed v → IsSome (body v r) → ((id : ℕ) × (j : ℕ) × IsVersionObject m id j r) ⊎ ((w : Member) × IsObjectAt v m.standing r w) }
    ensures bytes { (slots : Slots) (v : View) (registry : Registry) (counts : Counts) (m : Memory) → HoldMemory slots v registry counts m → live_bytes v ≡ sum_by chain_bytes (present m.chains) }
    ensures objects { (slots : Slots) (v : View) (registry : Registry) (counts : Counts) (m : Memory) → HoldMemory slots v registry counts m → IsSummed v → objects v ≡ sum_by chain_objects (present m.chains) }
{}

/// A sound chain stays sound where it is pinned, released, detached, settled, begun to be updated, changed, and where a version comes or goes.
pub fn a_sound_chain_stays_sound()
    ensures pinned { (c : Shown) (version : ℕ) → IsSoundChain c → version < length c.versions → (c.updating ≡ true → suc version < length c.versions) → IsSoundChain (shown_pinned (pins_with version c.pins) c) }
    ensures released { (c : Shown) (pin : ℕ) → IsSoundChain c → IsSoundChain (shown_pinned (pins_without pin c.pins) c) }
    ensures detached { (c : Shown) → IsSoundChain c → IsSoundChain (shown_detached c) }
    ensures settled { (c : Shown) → IsSoundChain c → IsSoundChain (shown_updating false c) }
    ensures updating { (c : Shown) → IsSoundChain c → c.kind ≡ Cache → c.attached ≡ true → 2 ≤ length c.versions → ((j : ℕ) → IsPinned c.pins j → suc j < length c.versions) → IsSoundChain (shown_updating true c) }
    ensures changed { (c : Shown) (j : ℕ) (f : Version → Version) → IsSoundChain c → IsSoundChain (on_version_of j f c) }
    ensures more { (c : Shown) (v : Version) → IsSoundChain c → IsSoundChain (shown_with (c.versions ++ (v ∷ [])) c) }
    ensures fewer { (c : Shown) (j : ℕ) → IsSoundChain c → (IsPinned c.pins j → ⊥) → j < length c.versions → 2 ≤ length c.versions → (c.updating ≡ true → suc j < length c.versions) → (c.updating ≡ true → 3 ≤ length c.versions) → IsSoundChain (shown_without j c) }
{}

/// Rows that fit together still do where versions go, where one comes that has its end dummy alone, and where one is split at a position whose dummy fits.
pub fn rows_still_fit()
    ensures fewer { (S : ℕ) (vs ws : List Version) → ((v : Version) → Contains ws v → Contains vs v) → FitTogether S vs → FitTogether S ws }
    ensures none { (S : ℕ) → FitTogether S [] }
    ensures more { (S : ℕ) (vs : List Version) (flag : Flag) (pt : Option Tomb) (phase : ℕ) → dummy_size end_position ≤ S / 8 → FitTogether S vs → FitTogether S (vs ++ (version_of flag pt phase ∷ [])) }
    ensures split { (S j : ℕ) (x : Pos) (vs : List Version) → dummy_size x ≤ S / 8 → FitTogether S vs → FitTogether S (on_version j (λ c. with_entries (gap_split x c.entries) c) vs) }
{}

/// The recency list keeps its rule where neither it nor a chain changes, where an object that may be in it is put at its back, where one that need not be in it is taken out, and where one is made the most recent one.
pub fn the_recency_list_keeps_its_rule()
    ensures same { (m n : Memory) → n.chains ≡ m.chains → n.recency ≡ m.recency → IsRecency m → IsRecency n }
    ensures pushed { (m n : Memory) (w : Member) → n.chains ≡ m.chains → n.recency ≡ m.recency ++ (w ∷ []) → (Contains m.recency w → ⊥) → IsSomeAnd (chain_at m w.chain) (λ k. MayBeListed k.chain w.version w.position) → IsRecency m → IsRecency n }
    ensures taken { (m n : Memory) (front : List Member) (w : Member) (back : List Member) → n.chains ≡ m.chains → m.recency ≡ front ++ (w ∷ back) → n.recency ≡ front ++ back → (IsSomeAnd (chain_at m w.chain) (λ k. MustBeListed k.chain w.version w.position) → ⊥) → IsRecency m → IsRecency n }
    ensures touched { (m n : Memory) (front : List Member) (w : Member) (back : List Member) → n.chains ≡ m.chains → m.recency ≡ front ++ (w ∷ back) → n.recency ≡ (front ++ back) ++ (w ∷ []) → IsRecency m → IsRecency n }
{}

/// A chain may change under the recency list: whatever becomes of one that is no cache chain; where its kind, its versions and whether it is under update stay; where a version of its end dummy alone is put over those of one that was not under update; where it comes with such a version; and where it goes and has no listed object.
pub fn a_chain_may_change_under_the_recency_list()
    ensures alike { (m n : Memory) (id : ℕ) (g : KeptChain → KeptChain) → n.chains ≡ on_chain id g m.chains → n.recency ≡ m.recency →
        ((k : KeptChain) → ((g k).chain.kind ≡ k.chain.kind) × ((g k).chain.versions ≡ k.chain.versions) × ((g k).chain.updating ≡ k.chain.updating)) → IsRecency m → IsRecency n }
    ensures uncached { (m n : Memory) (id : ℕ) (g : KeptChain → KeptChain) → n.chains ≡ on_chain id g m.chains → n.recency ≡ m.recency → ((k : KeptChain) → chain_at m id ≡ Some k → (k.chain.kind ≢ Cache) × ((g k).chain.kind ≡ k.chain.kind)) → IsRecency m → IsRecency n }
    ensures more { (m n : Memory) (id : ℕ) (g : KeptChain → KeptChain) (flag : Flag) (pt : Option Tomb) (phase : ℕ) → n.chains ≡ on_chain id g m.chains → n.recency ≡ m.recency →
        ((k : KeptChain) → chain_at m id ≡ Some k → ((g k).chain.kind ≡ k.chain.kind) × ((g k).chain.versions ≡ k.chain.versions ++ (version_of flag pt phase ∷ [])) × (k.chain.updating ≡ false)) → IsRecency m → IsRecency n }
    ensures made { (m n : Memory) (id : ℕ) (k : KeptChain) (flag : Flag) (pt : Option Tomb) (phase : ℕ) → n.chains ≡ put_at_number id (Some k) m.chains → n.recency ≡ m.recency → chain_at m id ≡ None → k.chain.versions ≡ version_of flag pt phase ∷ [] → IsRecency m → IsRecency n }
    ensures gone { (m n : Memory) (id : ℕ) → n.chains ≡ put_at_number id None m.chains → n.recency ≡ m.recency → ((j : ℕ) (at : Option Pos) → Contains m.recency (record { chain = id; version = j; position = at }) → ⊥) → IsRecency m → IsRecency n }
{}

/// A version may change under the recency list: it is enough that of the objects that it has then all are listed that must be, and none that may not.
pub fn a_version_may_change_under_the_recency_list()
    ensures { (m n : Memory) (id j : ℕ) (f : Version → Version) (k : KeptChain) (v : Version) → chain_at m id ≡ Some k → IsVersionAt k.chain.versions j v → n.chains ≡ on_chain id (on_shown (on_version_of j f)) m.chains → AllPairs ◌≢◌ n.recency →
        ((w : Member) → (w.chain ≡ id → w.version ≡ j → ⊥) → Contains n.recency w → Contains m.recency w) → ((w : Member) → (w.chain ≡ id → w.version ≡ j → ⊥) → Contains m.recency w → Contains n.recency w) →
        ((at : Option Pos) → Contains n.recency (record { chain = id; version = j; position = at }) → (k.chain.kind ≡ Cache) × HasObject (f v) at × (IsUnderUpdate k.chain j → at ≢ Some end_position)) →
        ((at : Option Pos) → k.chain.kind ≡ Cache → HasObject (f v) at → at ≢ Some end_position → (IsUnderUpdate k.chain j → IsLastInner (f v) at → ⊥) → Contains n.recency (record { chain = id; version = j; position = at })) → IsRecency m → IsRecency n }
{}

/// A memory keeps its rules where a chain gets the cleaner's mark or loses it, is pinned, and is pinned no longer; after objects moved; and where the recency list changes as it may.
pub fn a_memory_keeps_its_rules()
    ensures passed { (S : ℕ) (slots : Slots) (v : View) (registry : Registry) (counts : Counts) (m : Memory) (id : ℕ) (passed : Bool) → IsMemory S slots v registry counts m → HasChain m id → IsMemory S slots v (on_use id (set_passed passed) registry) counts (with_chains (on_chain id (mark_passed passed) m.chains) m) }
    ensures pinned { (S : ℕ) (slots : Slots) (v : View) (registry : Registry) (counts : Counts) (m : Memory) (id : ℕ) (version : ℕ) → IsMemory S slots v registry counts m → HasChain m id → ((k : KeptChain) → chain_at m id ≡ Some k → version < length k.chain.versions) → ((k : KeptChain) → chain_at m id ≡ Some k → k.chain.updating ≡ true → suc version < length k.chain.versions) →
        IsMemory S slots v (on_use id (with_pin version) registry) counts (with_chains (on_chain id (on_shown (λ c. shown_pinned (pins_with version c.pins) c)) m.chains) m) }
    ensures released { (S : ℕ) (slots : Slots) (v : View) (registry : Registry) (counts : Counts) (m : Memory) (id : ℕ) (pin : ℕ) → IsMemory S slots v registry counts m → HasChain m id → IsMemory S slots v (on_use id (without_pin pin) registry) counts (with_chains (on_chain id (on_shown (λ c. shown_pinned (pins_without pin c.pins) c)) m.chains) m) }
    ensures moved { (S : ℕ) (slots : Slots) (old new : View) (registry : Registry) (counts : Counts) (m : Memory) (names : List (Ref × Ref)) → IsMemory S slots old registry counts m → Renamed old new names → IsWell new → IsMemory S slots new registry counts (under_new_names names new m) }
    ensures pushed { (S : ℕ) (slots : Slots) (old new : View) (registry : Registry) (counts : Counts) (m : Memory) (r : Ref) (w : Member) → IsMemory S slots old registry counts m → ((e : End) → IsElsewhere slots old e → link_of new e ≡ link_of old e) → SameObjects old new → IsWell new → IsObjectAt old m.standing r w → (Contains m.recency w → ⊥) → IsSomeAnd (chain_at m w.chain) (λ k. MayBeListed k.chain w.version w.position) →
        ((xs : List Ref) → IsList slots old xs → IsList slots new (xs ++ (r ∷ []))) → ((e : End) → link_of old e ≡ None → e ≢ Obj r 0 → e ≢ Obj r 1 → link_of new e ≡ None) → IsMemory S slots new registry counts (listed_as (m.recency ++ (w ∷ [])) new m) }
    ensures taken { (S : ℕ) (slots : Slots) (old new : View) (registry : Registry) (counts : Counts) (m : Memory) (r : Ref) (front : List Member) (w : Member) (back : List Member) → IsMemory S slots old registry counts m → ((e : End) → IsElsewhere slots old e → link_of new e ≡ link_of old e) → SameObjects old new → IsWell new → m.recency ≡ front ++ (w ∷ back) → IsObjectAt old m.standing r w → (IsSomeAnd (chain_at m w.chain) (λ k. MustBeListed k.chain w.version w.position) → ⊥) →
        ((xs ys : List Ref) → IsList slots old (xs ++ (r ∷ ys)) → IsList slots new (xs ++ ys)) → link_of new (Obj r 0) ≡ None → link_of new (Obj r 1) ≡ None → ((e : End) → link_of old e ≡ None → link_of new e ≡ None) → IsMemory S slots new registry counts (listed_as (front ++ back) new m) }
    ensures touched { (S : ℕ) (slots : Slots) (old new : View) (registry : Registry) (counts : Counts) (m : Memory) (r : Ref) (front : List Member) (w : Member) (back : List Member) → IsMemory S slots old registry counts m → ((e : End) → IsElsewhere slots old e → link_of new e ≡ link_of old e) → SameObjects old new → IsWell new → m.recency ≡ front ++ (w ∷ back) → IsObjectAt old m.standing r w → ((xs ys : List Ref) → IsList slots old (xs ++ (r ∷ ys)) → IsList slots new ((xs ++ ys) ++ (r ∷ []))) →
        ((e : End) → link_of old e ≡ None → link_of new e ≡ None) → IsMemory S slots new registry counts (listed_as ((front ++ back) ++ (w ∷ [])) new m) }
{}

/// A version of a cache chain has the same objects, or gets one that is pushed at the back, or loses one that is taken out: the list keeps its rule where the last entry before the end of a version under update is that still, or is listed. So it does where an update ends and that entry is listed.
pub fn an_objects_place_comes_and_goes()
    ensures same { (m n : Memory) (id j : ℕ) (f : Version → Version) (k : KeptChain) (v : Version) → chain_at m id ≡ Some k → IsVersionAt k.chain.versions j v → n.chains ≡ on_chain id (on_shown (on_version_of j f)) m.chains → IsRecency m → k.chain.kind ≡ Cache → n.recency ≡ m.recency → ((at : Option Pos) → HasObject v at → HasObject (f v) at) → ((at : Option Pos) → HasObject (f v) at → HasObject v at) → (IsUnderUpdate k.chain j → (at : Option Pos) → IsLastInner v at → IsLastInner (f v) at ⊎ Contains m.recency (record { chain = id; version = j; position = at })) → IsRecency n }
    ensures made { (m n : Memory) (id j : ℕ) (f : Version → Version) (k : KeptChain) (v : Version) (x : Option Pos) → chain_at m id ≡ Some k → IsVersionAt k.chain.versions j v → n.chains ≡ on_chain id (on_shown (on_version_of j f)) m.chains → IsRecency m → k.chain.kind ≡ Cache → n.recency ≡ m.recency ++ (record { chain = id; version = j; position = x } ∷ []) → ((at : Option Pos) → HasObject v at → HasObject (f v) at) → ((at : Option Pos) → HasObject (f v) at → HasObject v at ⊎ (at ≡ x)) →
        HasObject (f v) x → (HasObject v x → ⊥) → x ≢ Some end_position → (IsUnderUpdate k.chain j → (at : Option Pos) → IsLastInner v at → IsLastInner (f v) at ⊎ Contains m.recency (record { chain = id; version = j; position = at })) → IsRecency n }
    ensures lost { (m n : Memory) (id j : ℕ) (f : Version → Version) (k : KeptChain) (v : Version) (x : Option Pos) (front back : List Member) → chain_at m id ≡ Some k → IsVersionAt k.chain.versions j v → n.chains ≡ on_chain id (on_shown (on_version_of j f)) m.chains → IsRecency m → k.chain.kind ≡ Cache → m.recency ≡ front ++ (record { chain = id; version = j; position = x } ∷ back) → n.recency ≡ front ++ back → ((at : Option Pos) → at ≢ x → HasObject v at → HasObject (f v) at) →
        ((at : Option Pos) → HasObject (f v) at → HasObject v at × (at ≢ x)) → (IsUnderUpdate k.chain j → (at : Option Pos) → IsLastInner v at → IsLastInner (f v) at ⊎ Contains m.recency (record { chain = id; version = j; position = at })) → IsRecency n }
    ensures settled { (m n : Memory) (id : ℕ) (g : KeptChain → KeptChain) → n.chains ≡ on_chain id g m.chains → n.recency ≡ m.recency → IsRecency m →
        ((k : KeptChain) → ((g k).chain.kind ≡ k.chain.kind) × ((g k).chain.versions ≡ k.chain.versions) × ((g k).chain.updating ≡ false)) →
        ((k : KeptChain) → chain_at m id ≡ Some k → (j : ℕ) (v : Version) (at : Option Pos) → IsUnderUpdate k.chain j → IsVersionAt k.chain.versions j v → IsLastInner v at → Contains m.recency (record { chain = id; version = j; position = at })) → IsRecency n }
{}

/// A version of which nothing is listed, and over which the one under update stands where one does, may be dropped: the list keeps its rule with the objects of newer ones renumbered.
pub fn a_dropped_version_renumbers_the_recency_list()
    ensures { (m n : Memory) (id j : ℕ) (k : KeptChain) (v : Version) → chain_at m id ≡ Some k → IsVersionAt k.chain.versions j v → n.chains ≡ on_chain id (on_shown (shown_without j)) m.chains → n.recency ≡ map (renumbered_member id j) m.recency → IsRecency m →
        ((at : Option Pos) → Contains m.recency (record { chain = id; version = j; position = at }) → ⊥) → (k.chain.updating ≡ true → suc j < length k.chain.versions) → IsRecency n }
{}

/// A split and a joined row make at most an object at their position, which is there then; an entry that is dropped is one object less. All other objects stay.
pub fn each_change_makes_or_takes_one_object()
    ensures split { (v : Version) (x : Pos) → EndsWithDummy v.entries → HasObject (with_entries (gap_split x v.entries) v) (Some x) × ((at : Option Pos) → HasObject v at → HasObject (with_entries (gap_split x v.entries) v) at) × ((at : Option Pos) → HasObject (with_entries (gap_split x v.entries) v) at → HasObject v at ⊎ (at ≡ Some x)) }
    ensures joined { (v : Version) (x : Pos) (row : Row) → EndsWithDummy v.entries → HasObject (row_joined x row v) (Some x) × ((at : Option Pos) → HasObject v at → HasObject (row_joined x row v) at) × ((at : Option Pos) → HasObject (row_joined x row v) at → HasObject v at ⊎ (at ≡ Some x)) }
    ensures dropped { (v : Version) (x : Pos) → Ascend v.entries → ((at : Option Pos) → at ≢ Some x → HasObject v at → HasObject (with_entries (drop_at x v.entries) v) at) × ((at : Option Pos) → HasObject (with_entries (drop_at x v.entries) v) at → HasObject v at × (at ≢ Some x)) }
{}

/// There is room for one more root slot: each chain takes 152 bytes at least, and 4096 segments hold fewer than 2 ^ 32 - 2 of these.
pub fn there_is_room_for_a_chain()
    ensures { (S : ℕ) (slots : Slots) (v : View) (registry : Registry) (counts : Counts) (m : Memory) → HoldMemory slots v registry counts m → ((id : ℕ) → IfSome (chain_at m id) (λ k. IsSoundChain k.chain)) → IsSound S v.usages → length v.usages ≤ 4096 → S ≤ 2 ^ 27 → (slots_of v).there < 2 ^ 32 }
{}

/// Where one version of a chain changed and its objects stand where they stood, but at one place at most, so do those of all chains, and that version alone is another one. So it is where the recency list changed before it or after it, under which all objects stand still.
pub fn held_stands_still()
    ensures everywhere { (slots : Slots) (old new : View) (registry : Registry) (counts : Counts) (m : Memory) (id j : ℕ) (p : PartitionEntry) (s : StandingVersion) (now : List Ref) (c : Version) (f : Version → Version) → HoldMemory slots old registry counts m → slice_index_or m.standing id None ≡ Some p → IsVersionAt p.versions j s → IsKeptBut s.object old new → IsVersionOf new s.object now c → c ≡ f s.version →
        ((at : Option Pos) (r : Ref) → IsOfVersion old s at r → IsOfVersion new (standing s.object now c) at r) → IsVersionChanged id j f Nowhere m (version_changed id j (standing s.object now c) new m) }
    ensures beside { (slots : Slots) (old new : View) (registry : Registry) (counts : Counts) (m : Memory) (id j : ℕ) (p : PartitionEntry) (s : StandingVersion) (now : List Ref) (c : Version) (f : Version → Version) (place : Option Pos) → HoldMemory slots old registry counts m → slice_index_or m.standing id None ≡ Some p → IsVersionAt p.versions j s → IsKeptBut s.object old new → IsVersionOf new s.object now c → c ≡ f s.version →
        ((at : Option Pos) (r : Ref) → at ≢ place → IsOfVersion old s at r → IsOfVersion new (standing s.object now c) at r) → IsVersionChanged id j f (AtAlone (member_at id j place)) m (version_changed id j (standing s.object now c) new m) }
    ensures listed { (slots : Slots) (old new : View) (registry : Registry) (counts : Counts) (m : Memory) (list : List Member) → HoldMemory slots old registry counts m → ((e : End) → IsElsewhere slots old e → link_of new e ≡ link_of old e) → SameObjects old new → IsWell new →
        StandStill Nowhere m (listed_as list new m) × IsUnmoved m.region new }
    ensures before { (id j : ℕ) (f : Version → Version) (w : Member) (m n : Memory) (list : List Member) (region : View) → StandStill Nowhere m (listed_as list region m) → IsUnmoved m.region region → IsVersionChanged id j f (AtAlone w) (listed_as list region m) n → IsVersionChanged id j f (AtAlone w) m n }
    ensures behind { (id j : ℕ) (f : Version → Version) (w : Member) (m n : Memory) (list : List Member) (region : View) → IsVersionChanged id j f (AtAlone w) m n → StandStill Nowhere n (listed_as list region n) → IsUnmoved n.region region → IsVersionChanged id j f (AtAlone w) m (listed_as list region n) }
    ensures kept { (id j : ℕ) (f : Version → Version) (m n : Memory) (list : List Member) (region : View) → IsVersionChanged id j f Nowhere m n → StandStill Nowhere n (listed_as list region n) → IsUnmoved n.region region → IsVersionChanged id j f Nowhere m (listed_as list region n) }
{}

/// Flags and range tombstones at a position, or from one position on and before another, the partition tombstone, the flag of the static row and the phase are changed, and no row and no position is.
pub fn marks_change_no_row()
    ensures flags { (x : Pos) (at gap : Flag) → KeepsRows (set_flags x at gap) }
    ensures tombs { (x : Pos) (at gap : Option Tomb) → KeepsRows (set_tombs x at gap) }
    ensures stretch { (g : Mark → Mark) (from to : Pos) → KeepsRows (λ v. with_entries (map (entry_changed g from to) v.entries) v) }
    ensures head { (tomb : Tomb) → KeepsRows (join_pt tomb) }
    ensures static_flag { (flag : Flag) → KeepsRows (set_static_flag flag) }
    ensures phase { (phase : ℕ) → KeepsRows (with_phase phase) }
{}

/// A memory keeps its rules where a version of a chain changed: where no row did; where it was split, or a row or a static row joined, and what may be joined still fits; and where an entry before the end, or its static row, was taken out. In a cache chain what was made is the most recent one in the recency list, and what was taken out is out of it.
pub fn a_changed_version_keeps_the_rules()
    ensures marked { (S : ℕ) (slots : Slots) (old new : View) (registry : Registry) (counts : Counts) (m n : Memory) (id j : ℕ) (f : Version → Version) → IsMemory S slots old registry counts m → HoldMemory slots new registry counts n → n.chains ≡ on_chain id (on_shown (on_version_of j f)) m.chains → HasVersion m id j → n.recency ≡ m.recency → KeepsRows f → IsMemory S slots new registry counts n }
    ensures split { (S : ℕ) (slots : Slots) (old new : View) (registry : Registry) (counts : Counts) (m n : Memory) (id j : ℕ) (x : Pos) → IsMemory S slots old registry counts m → HoldMemory slots new registry counts n → n.chains ≡ on_chain id (on_shown (on_version_of j (λ c. with_entries (gap_split x c.entries) c))) m.chains → HasVersion m id j →
        OfVersion m id j (λ k v. IsRenewedWhereNone k.chain.kind v (member_at id j (Some x)) m.recency n.recency) → FitsChanged S id j (λ c. with_entries (gap_split x c.entries) c) m → KeepsLast id j (λ c. with_entries (gap_split x c.entries) c) m → IsMemory S slots new registry counts n }
    ensures joined { (S : ℕ) (slots : Slots) (old new : View) (registry : Registry) (counts : Counts) (m n : Memory) (id j : ℕ) (x : Pos) (row : Row) → IsMemory S slots old registry counts m → HoldMemory slots new registry counts n → n.chains ≡ on_chain id (on_shown (on_version_of j (row_joined x row))) m.chains → HasVersion m id j → x ≢ end_position →
        OfVersion m id j (λ k v. IsRenewed k.chain.kind (member_at id j (Some x)) m.recency n.recency) → FitsChanged S id j (row_joined x row) m → KeepsLast id j (row_joined x row) m → IsMemory S slots new registry counts n }
    ensures statics { (S : ℕ) (slots : Slots) (old new : View) (registry : Registry) (counts : Counts) (m n : Memory) (id j : ℕ) (f : Version → Version) → IsMemory S slots old registry counts m → HoldMemory slots new registry counts n → n.chains ≡ on_chain id (on_shown (on_version_of j f)) m.chains → HasVersion m id j → ((v : Version) → ((f v).entries ≡ v.entries) × IsSome (f v).statics) →
        OfVersion m id j (λ k v. IsRenewed k.chain.kind (member_at id j None) m.recency n.recency) → FitsChanged S id j f m → IsMemory S slots new registry counts n }
    ensures dropped { (S : ℕ) (slots : Slots) (old new : View) (registry : Registry) (counts : Counts) (m n : Memory) (id j : ℕ) (x : Pos) → IsMemory S slots old registry counts m → HoldMemory slots new registry counts n → n.chains ≡ on_chain id (on_shown (on_version_of j (λ c. with_entries (drop_at x c.entries) c))) m.chains → HasVersion m id j → x ≢ end_position →
        IsWithout (member_at id j (Some x)) m.recency n.recency → IsMemory S slots new registry counts n }
    ensures undone { (S : ℕ) (slots : Slots) (old new : View) (registry : Registry) (counts : Counts) (m n : Memory) (id j : ℕ) → IsMemory S slots old registry counts m → HoldMemory slots new registry counts n → n.chains ≡ on_chain id (on_shown (on_version_of j without_statics)) m.chains → HasVersion m id j → IsWithout (member_at id j None) m.recency n.recency → IsMemory S slots new registry counts n }
{}

/// A memory keeps its rules where a chain of a version of its end dummy comes with its root slot; where such a version is put over those of a memtable, or of a cache chain, which is under update then; where an update ends, or the chain is found no longer, and the last entry before the end of what was under update is listed; where a version is dropped; and where a chain goes with its last version and its root slot.
pub fn a_memory_keeps_its_rules_as_chains_change()
    ensures made { (S : ℕ) (slots : Slots) (old mid new : View) (registry : Registry) (counts : Counts) (m : Memory) (id : ℕ) (root : Root) (kind : ChainKind) (n : Ref) (flag : Flag) (pt : Option Tomb) (phase : ℕ) → IsMemory S slots old registry counts m → chain_at m id ≡ None → IsRootAdded old mid root → SameButRoots old mid → IsWell mid → IsWell new → slots_of new ≡ slots_of mid → dummy_size end_position ≤ S / 8 →
        ((front : List PartitionEntry) (versions : List StandingVersion) (back : List PartitionEntry) (listed : List Ref) → AreStanding slots mid (front ++ (partition_of root versions ∷ back)) listed →
        (end : Ref) × AreStanding slots new (front ++ (partition_of root (versions ++ (standing n (end ∷ []) (version_of flag pt phase) ∷ [])) ∷ back)) listed × IsUnlisted new end) →
        ((q : Ref) (refs : List Ref) (d : Version) → IsVersionOf mid q refs d → link_of new (Obj q 3) ≡ link_of mid (Obj q 3)) →
        (end : Ref) × IsMemory S slots new (with_use id (Some (new_use root kind)) registry) counts (chain_made id root kind (standing n (end ∷ []) (version_of flag pt phase)) new m) × IsUnlisted new end }
    ensures more { (S : ℕ) (slots : Slots) (old new : View) (registry : Registry) (counts : Counts) (m : Memory) (id : ℕ) (p : PartitionEntry) (n : Ref) (flag : Flag) (pt : Option Tomb) (phase : ℕ) → IsMemory S slots old registry counts m → slice_index_or m.standing id None ≡ Some p → ((k : KeptChain) → chain_at m id ≡ Some k → k.chain.kind ≡ Memtable) → IsWell new → slots_of new ≡ slots_of old → dummy_size end_position ≤ S / 8 →
        ((front : List PartitionEntry) (versions : List StandingVersion) (back : List PartitionEntry) (listed : List Ref) → AreStanding slots old (front ++ (partition_of p.root versions ∷ back)) listed →
        (end : Ref) × AreStanding slots new (front ++ (partition_of p.root (versions ++ (standing n (end ∷ []) (version_of flag pt phase) ∷ [])) ∷ back)) listed × IsUnlisted new end) →
        ((q : Ref) (refs : List Ref) (d : Version) → IsVersionOf old q refs d → link_of new (Obj q 3) ≡ link_of old (Obj q 3)) →
        (end : Ref) × IsMemory S slots new registry counts (more_versions id (standing n (end ∷ []) (version_of flag pt phase)) new m) × IsUnlisted new end }
    ensures begun { (S : ℕ) (slots : Slots) (old new : View) (registry : Registry) (counts : Counts) (m : Memory) (id : ℕ) (p : PartitionEntry) (n : Ref) (flag : Flag) (pt : Option Tomb) (phase : ℕ) → IsMemory S slots old registry counts m → slice_index_or m.standing id None ≡ Some p → ((k : KeptChain) → chain_at m id ≡ Some k → (k.chain.kind ≡ Cache) × (k.chain.attached ≡ true) × (k.chain.updating ≡ false)) → IsWell new → slots_of new ≡ slots_of old → dummy_size end_position ≤ S / 8 →
        ((front : List PartitionEntry) (versions : List StandingVersion) (back : List PartitionEntry) (listed : List Ref) → AreStanding slots old (front ++ (partition_of p.root versions ∷ back)) listed →
        (end : Ref) × AreStanding slots new (front ++ (partition_of p.root (versions ++ (standing n (end ∷ []) (version_of flag pt phase) ∷ [])) ∷ back)) listed × IsUnlisted new end) →
        ((q : Ref) (refs : List Ref) (d : Version) → IsVersionOf old q refs d → link_of new (Obj q 3) ≡ link_of old (Obj q 3)) →
        (end : Ref) × IsMemory S slots new (on_use id (set_updating true) registry) counts (update_begun id (standing n (end ∷ []) (version_of flag pt phase)) new m) × IsUnlisted new end }
    ensures ended { (S : ℕ) (slots : Slots) (v : View) (registry : Registry) (counts : Counts) (m : Memory) (id : ℕ) → IsMemory S slots v registry counts m → HasChain m id → LastIsListed id m → IsMemory S slots v (on_use id (set_updating false) registry) counts (update_ended id m) }
    ensures detached { (S : ℕ) (slots : Slots) (v : View) (registry : Registry) (counts : Counts) (m : Memory) (id : ℕ) → IsMemory S slots v registry counts m → HasChain m id → LastIsListed id m → IsMemory S slots v (on_use id detached_use registry) counts (chain_detached id m) }
    ensures fewer { (S : ℕ) (slots : Slots) (old new : View) (registry : Registry) (counts : Counts) (m : Memory) (id j : ℕ) (p : PartitionEntry) (s : StandingVersion) → IsMemory S slots old registry counts m → slice_index_or m.standing id None ≡ Some p → IsVersionAt p.versions j s → ((k : KeptChain) → chain_at m id ≡ Some k → CanDrop k.chain j) → NothingListed id j m → IsWell new → slots_of new ≡ slots_of old →
        ((front : List PartitionEntry) (older : List StandingVersion) (t : StandingVersion) (newer : List StandingVersion) (back : List PartitionEntry) (listed : List Ref) → t.object ≡ s.object → AreStanding slots old (among front p.root older t newer back) listed → AreStanding slots new (front ++ (partition_of p.root (older ++ newer) ∷ back)) listed) →
        ((q : Ref) (refs : List Ref) (d : Version) → q ≢ s.object → IsVersionOf old q refs d → link_of new (Obj q 3) ≡ link_of old (Obj q 3)) →
        IsMemory S slots new (on_use id (without_version j) registry) counts (fewer_versions id j new m) }
    ensures gone { (S : ℕ) (slots : Slots) (old mid new : View) (registry : Registry) (counts : Counts) (m : Memory) (id : ℕ) (root : Root) (s : StandingVersion) → IsMemory S slots old registry counts m → slice_index_or m.standing id None ≡ Some (partition_of root (s ∷ [])) → NothingListed id 0 m → IsWell mid → slots_of mid ≡ slots_of old →
        ((front : List PartitionEntry) (older : List StandingVersion) (t : StandingVersion) (newer : List StandingVersion) (back : List PartitionEntry) (listed : List Ref) → t.object ≡ s.object → AreStanding slots old (among front root older t newer back) listed → AreStanding slots mid (front ++ (partition_of root (older ++ newer) ∷ back)) listed) →
        ((q : Ref) (refs : List Ref) (d : Version) → q ≢ s.object → IsVersionOf old q refs d → link_of mid (Obj q 3) ≡ link_of old (Obj q 3)) → IsRootDropped mid new root → SameButRoots mid new → IsWell new →
        IsMemory S slots new (record { uses = put_at_number id None registry.uses; dropped = registry.dropped ++ (id ∷ []) }) counts (without_chain id new m) }
{}
