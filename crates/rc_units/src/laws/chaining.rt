//! Units of an update and of the cleaner on a whole chain: what each keeps.

ghost use Rattle.std.specs.declared.cmp.Ordering.TheVariants.{Less};
ghost use Rattle.std.specs.Prelude.{◌≡◌, ◌≢◌, ◌↔◌, ◌<◌, ◌++◌, ◌∷◌, [], Bool, ℕ, IsTrue, List, None, Option, Some, length, option_map, suc, true};
ghost use Rattle.rc_cell.specs.declared.writes.Tomb.{Tomb};
ghost use Rattle.rc_position.specs.declared.positions.Pos.{Pos};
ghost use Rattle.rc_position.specs.Position.{Head, IsBefore, Place, place_cmp};
ghost use Rattle.rc_mutation.specs.declared.fragments.Frag.{Frag};
ghost use Rattle.rc_mutation.specs.declared.fragments.Frag.TheVariants.{Start};
ghost use Rattle.rc_mutation.specs.declared.mutations.Mutation.{Mutation};
ghost use Rattle.rc_mutation.specs.Source.{SameSource};
ghost use Rattle.rc_core.specs.declared.entries.ChainKind.{ChainKind};
ghost use Rattle.rc_core.specs.declared.entries.ChainKind.TheVariants.{Cache};
ghost use Rattle.rc_core.specs.Version.{IsVersion, On, Version, end_position};
ghost use Rattle.rc_core.specs.AtPlace.{HasEntryAt};
ghost use Rattle.rc_core.specs.Chain.{IsKnown, states_at, content};
ghost use Rattle.rc_core.specs.Free.{IsAbandoned, free_entry, free_statics};
ghost use Rattle.rc_core.specs.Chains.{Chain, IsChainContinuous, IsMemtableChain, IsNeeded, IsUpdating, Shown, at_place, upto, with_versions};
ghost use Rattle.rc_core.specs.Merge.{IsSeenAlike, new_version};
ghost use Rattle.rc_core.specs.StandsFor.{StandsFor};
ghost use Rattle.rc_core.specs.Steps.{IsCarriedIn, IsChain, pin_at, with_updating};
ghost use Rattle.rc_units.specs.Chained.{Counts, IsKnownAsBefore, chain_left, number_left, objects_of, pins_left, units_counted};
ghost use Rattle.rc_units.specs.Clean.{MayMerge, cleaned_versions, cleaned_without_room};
ghost use Rattle.rc_units.specs.Update.{IsFragmentOf, lost_from, unit_place, updated_version};

/// The unit of the start, over an attached chain that is not under update, keeps the whole chain continuous, and carries what was carried. What the new
/// phase says counts by its source.
pub fn an_update_begins_on_the_whole_chain()
    ensures chain { (below : ℕ → List Mutation) (change : Mutation) (c : Chain) (front : List Version) (under : Version) (phase : ℕ) → c.versions ≡ front ++ under ∷ [] →
        IsChain c → c.attached ≡ true → c.updating ≡ None → SameSource (below under.phase ++ change ∷ []) (below phase) → IsChainContinuous below c →
        (pt : Option Tomb) (next : Place) → IsFragmentOf change None (Start pt) next →
        IsChainContinuous below (with_updating (Some next) (with_versions (front ++ under ∷ updated_version None (Start pt) next (new_version None phase) ∷ []) c)) }
    ensures form { (below : ℕ → List Mutation) (change : Mutation) (c : Chain) (front : List Version) (under : Version) (phase : ℕ) → c.versions ≡ front ++ under ∷ [] →
        IsChain c → c.attached ≡ true → c.updating ≡ None → SameSource (below under.phase ++ change ∷ []) (below phase) → IsChainContinuous below c →
        (pt : Option Tomb) (next : Place) → IsFragmentOf change None (Start pt) next →
        IsChain (with_updating (Some next) (with_versions (front ++ under ∷ updated_version None (Start pt) next (new_version None phase) ∷ []) c)) }
    ensures carried { (below : ℕ → List Mutation) (change : Mutation) (c : Chain) (front : List Version) (under : Version) (phase : ℕ) → c.versions ≡ front ++ under ∷ [] →
        IsChain c → c.attached ≡ true → c.updating ≡ None → SameSource (below under.phase ++ change ∷ []) (below phase) → IsChainContinuous below c →
        (pt : Option Tomb) (next : Place) → IsFragmentOf change None (Start pt) next → (x : Pos) → IsCarriedIn c x →
        IsCarriedIn (with_updating (Some next) (with_versions (front ++ under ∷ updated_version None (Start pt) next (new_version None phase) ∷ []) c)) x }
{}

/// A unit with room goes from the place of its fragment to the next one's: the whole chain stays continuous, and what was carried is carried.
pub fn a_unit_with_room_keeps_the_whole_chain()
    ensures chain { (below : ℕ → List Mutation) (change : Mutation) (c : Chain) (front : List Version) (under v : Version) → c.versions ≡ front ++ under ∷ v ∷ [] → IsChain c →
        (force : Option Tomb) (f : Frag) (next : Place) → c.updating ≡ Some (unit_place f) → IsFragmentOf change force f next → c.attached ≡ true →
        SameSource (below under.phase ++ change ∷ []) (below v.phase) → IsChainContinuous below c →
        IsChainContinuous below (with_updating (Some next) (with_versions (front ++ under ∷ updated_version force f next v ∷ []) c)) }
    ensures form { (below : ℕ → List Mutation) (change : Mutation) (c : Chain) (front : List Version) (under v : Version) → c.versions ≡ front ++ under ∷ v ∷ [] → IsChain c →
        (force : Option Tomb) (f : Frag) (next : Place) → c.updating ≡ Some (unit_place f) → IsFragmentOf change force f next →
        IsChain (with_updating (Some next) (with_versions (front ++ under ∷ updated_version force f next v ∷ []) c)) }
    ensures carried { (below : ℕ → List Mutation) (change : Mutation) (c : Chain) (front : List Version) (under v : Version) → c.versions ≡ front ++ under ∷ v ∷ [] → IsChain c →
        (force : Option Tomb) (f : Frag) (next : Place) → c.updating ≡ Some (unit_place f) → IsFragmentOf change force f next → IsChainContinuous below c →
        (x : Pos) → IsCarriedIn c x → IsCarriedIn (with_updating (Some next) (with_versions (front ++ under ∷ updated_version force f next v ∷ []) c)) x }
{}

/// A unit without room, its place behind the head, loses everything from the place on: the chain is no longer under update, and stays continuous.
pub fn a_unit_without_room_keeps_the_whole_chain()
    ensures chain { (below : ℕ → List Mutation) (c : Chain) (older : List Version) (v : Version) → c.versions ≡ older ++ v ∷ [] → IsChain c → (p : Place) →
        c.attached ≡ true → c.updating ≡ Some p → place_cmp Head p ≡ Less → IsChainContinuous below c →
        IsChainContinuous below (with_updating None (with_versions (older ++ lost_from p v ∷ []) c)) }
    ensures form { (below : ℕ → List Mutation) (c : Chain) (older : List Version) (v : Version) → c.versions ≡ older ++ v ∷ [] → IsChain c → (p : Place) →
        IsChain (with_updating None (with_versions (older ++ lost_from p v ∷ []) c)) }
{}

/// A unit of the cleaner with room, on a version that may be merged, keeps all that is said of a chain: that it is one, its continuity, what is carried, the form of
/// a memtable's chain and the writes that it stands for.
pub fn a_unit_of_the_cleaner_keeps_the_whole_chain()
    ensures chain { (c : Chain) (front back : List Version) (v w : Version) → c.versions ≡ front ++ v ∷ w ∷ back → MayMerge c (length front) → IsVersion v → IsVersion w →
        (below : ℕ → List Mutation) → IsChainContinuous below c → IsChainContinuous below (chain_left front (cleaned_versions v w) back c) }
    ensures form { (c : Chain) (front back : List Version) (v w : Version) → c.versions ≡ front ++ v ∷ w ∷ back → MayMerge c (length front) → IsVersion v → IsVersion w →
        IsChain c → IsChain (chain_left front (cleaned_versions v w) back c) }
    ensures carried { (c : Chain) (front back : List Version) (v w : Version) → c.versions ≡ front ++ v ∷ w ∷ back → MayMerge c (length front) → IsVersion v → IsVersion w →
        (x : Pos) → IsCarriedIn c x → IsCarriedIn (chain_left front (cleaned_versions v w) back c) x }
    ensures memtable { (c : Chain) (front back : List Version) (v w : Version) → c.versions ≡ front ++ v ∷ w ∷ back → MayMerge c (length front) → IsVersion v → IsVersion w →
        IsMemtableChain c → IsMemtableChain (chain_left front (cleaned_versions v w) back c) }
    ensures stands { (c : Chain) (front back : List Version) (v w : Version) → c.versions ≡ front ++ v ∷ w ∷ back → MayMerge c (length front) → IsVersion v → IsVersion w →
        (writes : List Mutation) → StandsFor writes c.versions → StandsFor writes (chain_left front (cleaned_versions v w) back c).versions }
{}

/// After a unit of the cleaner with room the same is seen at each version that is needed, under the number that it has then, and it is needed still. A
/// snapshot's own number stays: it pins the same version.
pub fn a_unit_of_the_cleaner_changes_nothing_that_is_read()
    ensures seen { (c : Chain) (front back : List Version) (v w : Version) → c.versions ≡ front ++ v ∷ w ∷ back → MayMerge c (length front) → IsVersion v → IsVersion w →
        (j : ℕ) → IsNeeded c j → IsSeenAlike (upto c.versions j) (upto (chain_left front (cleaned_versions v w) back c).versions (number_left (cleaned_versions v w) (length front) j)) }
    ensures needed { (c : Chain) (front back : List Version) (v w : Version) → c.versions ≡ front ++ v ∷ w ∷ back → MayMerge c (length front) → IsVersion v → IsVersion w →
        (j : ℕ) → IsNeeded c j → IsNeeded (chain_left front (cleaned_versions v w) back c) (number_left (cleaned_versions v w) (length front) j) }
    ensures pins { (left : List Version) (n i : ℕ) (pins : List (Option ℕ)) → pin_at (pins_left left n pins) i ≡ option_map (number_left left n) (pin_at pins i) }
{}

/// Without room a unit of the cleaner on a cache chain keeps it a chain and continuous; at each version that is needed what is known then was known before with the
/// same content, and the head stays.
pub fn a_unit_of_the_cleaner_without_room_keeps_the_whole_chain()
    ensures chain { (c : Chain) (front back : List Version) (v w : Version) → c.versions ≡ front ++ v ∷ w ∷ back → MayMerge c (length front) → IsVersion v → IsVersion w →
        (below : ℕ → List Mutation) → IsChainContinuous below c → IsChainContinuous below (chain_left front (cleaned_without_room Cache v w) back c) }
    ensures form { (c : Chain) (front back : List Version) (v w : Version) → c.versions ≡ front ++ v ∷ w ∷ back → MayMerge c (length front) → IsVersion v → IsVersion w →
        IsChain c → IsChain (chain_left front (cleaned_without_room Cache v w) back c) }
    ensures known { (c : Chain) (front back : List Version) (v w : Version) → c.versions ≡ front ++ v ∷ w ∷ back → MayMerge c (length front) → IsVersion v → IsVersion w →
        (j : ℕ) → IsNeeded c j →
        IsKnownAsBefore (upto c.versions j) (upto (chain_left front (cleaned_without_room Cache v w) back c).versions (number_left (cleaned_without_room Cache v w) (length front) j)) }
    ensures needed { (c : Chain) (front back : List Version) (v w : Version) → c.versions ≡ front ++ v ∷ w ∷ back → MayMerge c (length front) → IsVersion v → IsVersion w →
        (j : ℕ) → IsNeeded c j → IsNeeded (chain_left front (cleaned_without_room Cache v w) back c) (number_left (cleaned_without_room Cache v w) (length front) j) }
{}

/// Cleaning ends: where the newest version of a run that counts is merged, as the next newer one may not be, fewer objects count after the unit, with room and
/// without it on a cache chain. What the newer version took from it does not count.
pub fn a_unit_of_the_cleaner_leaves_less()
    ensures with_room { (c : Chain) (front back : List Version) (v w : Version) → c.versions ≡ front ++ v ∷ w ∷ back → MayMerge c (length front) → (MayMerge c (suc (length front)) → ⊥) →
        (counts : ℕ → Bool) → Counts c counts → IsVersion v → (after : ℕ → Bool) → Counts (chain_left front (cleaned_versions v w) back c) after →
        units_counted after (chain_left front (cleaned_versions v w) back c).versions < units_counted counts c.versions }
    ensures without_room { (c : Chain) (front back : List Version) (v w : Version) → c.versions ≡ front ++ v ∷ w ∷ back → MayMerge c (length front) → (MayMerge c (suc (length front)) → ⊥) →
        (counts : ℕ → Bool) → Counts c counts → IsVersion v → (after : ℕ → Bool) → Counts (chain_left front (cleaned_without_room Cache v w) back c) after →
        units_counted after (chain_left front (cleaned_without_room Cache v w) back c).versions < units_counted counts c.versions }
{}

/// Freeing ends: of a chain that nobody finds or reads there is one object less after each that is freed, an entry, a static row, or a version with its end dummy.
pub fn a_freed_object_leaves_less()
    ensures entry { (kind : ChainKind) (front back : List Version) (v : Version) (x : Pos) → HasEntryAt x v.entries →
        objects_of (front ++ free_entry kind x v ∷ back) < objects_of (front ++ v ∷ back) }
    ensures statics { (kind : ChainKind) (front back : List Version) (v : Version) → v.statics ≢ None →
        objects_of (front ++ free_statics kind v ∷ back) < objects_of (front ++ v ∷ back) }
    ensures version { (front back : List Version) (v : Version) → IsVersion v → objects_of (front ++ back) < objects_of (front ++ v ∷ back) }
{}

/// What is known as before was known at the position before, with the same content: it was flagged there, and where no row is seen the gap behind it was too.
pub fn what_is_known_as_before_was_known()
    ensures { (before now : List Version) (x : Pos) → IsKnownAsBefore before now → IsKnown Cache now x →
        IsKnown Cache before x × (content (states_at (On x) now) ≡ content (states_at (On x) before)) }
{}

/// An object freed of a chain leaves a chain: an entry before the end, a static row, and of one that nobody finds or reads a version.
pub fn a_freed_object_leaves_a_chain()
    ensures entry { (c : Chain) (front back : List Version) (v : Version) → c.versions ≡ front ++ v ∷ back → IsChain c → (kind : ChainKind) (x : Pos) → IsBefore x end_position →
        IsChain (with_versions (front ++ free_entry kind x v ∷ back) c) }
    ensures statics { (c : Chain) (front back : List Version) (v : Version) → c.versions ≡ front ++ v ∷ back → IsChain c → (kind : ChainKind) →
        IsChain (with_versions (front ++ free_statics kind v ∷ back) c) }
    ensures version { (c : Chain) (front back : List Version) (v : Version) → c.versions ≡ front ++ v ∷ back → IsChain c → IsAbandoned c → IsChain (with_versions (front ++ back) c) }
{}

/// What is put over versions is not seen below: a new version, that of an update, and what a unit makes of it leave what is seen at each older one.
pub fn what_is_put_over_is_not_seen_below()
    ensures { (versions over : List Version) (j : ℕ) → j < length versions → upto (versions ++ over) j ≡ upto versions j }
{}

/// A chain as it is shown says whether it is under update: so it is with the update's place beside it, wherever that is.
pub fn a_shown_chain_says_whether_it_is_under_update()
    ensures { (p : Place) (c : Shown) → IsTrue c.updating ↔ IsUpdating (at_place p c).updating }
{}
