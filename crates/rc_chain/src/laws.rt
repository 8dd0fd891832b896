//! The laws of chains as they are shown: what each call of a chain keeps, as the core says it of the chain with the update's place beside it. Each is the contract of a function that does nothing.

ghost use Rattle.std.specs.Prelude.{◌≡◌, ◌≢◌, ◌⊎◌, ◌↔◌, ◌<◌, ◌++◌, ◌∷◌, [], ℕ, suc, true, false, IsTrue, List, None, Option, Some, cond, drop, length, map, sum_by, option_map};
ghost use Rattle.std.specs.Option.{option_to_list};
ghost use Rattle.rc_cell.specs.declared.rows.Row.{Row};
ghost use Rattle.rc_cell.specs.declared.writes.Tomb.{Tomb};
ghost use Rattle.rc_cell.specs.Greatest.{greater};
ghost use Rattle.rc_cell.specs.Orders.{tomb_cmp};
ghost use Rattle.rc_cell.specs.Winner.{empty_row, greatest, joined_row};
ghost use Rattle.rc_position.specs.declared.comps.Comp.{Comp};
ghost use Rattle.rc_position.specs.declared.positions.Pos.{Pos};
ghost use Rattle.rc_position.specs.Position.{Clustered, End, Head, IsBefore, Place, covers};
ghost use Rattle.rc_mutation.specs.declared.mutations.Mutation.{Mutation};
ghost use Rattle.rc_mutation.specs.Source.{SameSource, source_at, source_at_head, source_at_static};
ghost use Rattle.rc_core.specs.declared.entries.ChainKind.{ChainKind};
ghost use Rattle.rc_core.specs.declared.entries.ChainKind.TheVariants.{Cache, Memtable};
ghost use Rattle.rc_core.specs.declared.entries.Entry.{Entry};
ghost use Rattle.rc_core.specs.declared.entries.Flag.{Flag};
ghost use Rattle.rc_core.specs.declared.entries.Flag.TheVariants.{Inherit, Known};
ghost use Rattle.rc_core.specs.declared.parts.Part.TheVariants as part;
ghost use Rattle.rc_core.specs.declared.parts.Part.TheVariants.{Gap};
ghost use Rattle.rc_core.specs.AtPlace.{EachEntry, HasEntryAt, IsAtPlace};
ghost use Rattle.rc_core.specs.Chain.{IsKnown, base, content, decides, first_flag, flag_over, has_flag, states_at};
ghost use Rattle.rc_core.specs.Chains.{IsChainContinuous, IsMemtableChain, IsNeeded, IsPinned, IsUpdating, Shown, at_place, phase_at, upto, with_versions};
ghost use Rattle.rc_core.specs.Change.{drop_at, dummy, gap_split, joined_onto, lost_mark, position_of, raised_mark, with_gap, with_mark, with_marks, with_row};
ghost use Rattle.rc_core.specs.Continuity.{EachOf, IsContinuous, IsEvicted, IsSameOrLost, static_states, version_tombs, with_entries, without_statics};
ghost use Rattle.rc_core.specs.Free.{IsAbandoned, free_entry, free_statics, freed_mark};
ghost use Rattle.rc_core.specs.Merge.{IsSeenAlike, IsSilent};
ghost use Rattle.rc_core.specs.Parts.{IsFirstPart};
ghost use Rattle.rc_core.specs.SpotState.{joined_state, through};
ghost use Rattle.rc_core.specs.StandsFor.{StandsFor};
ghost use Rattle.rc_core.specs.Steps.{IsCarriedIn, IsChain, IsSnapshotOf, MayPopulate, add_version, begin_update, detach, drop_version, free_number, join_flagged_statics, join_pt, new_chain, number_after_removal, on_newest, opened_version, pin_at, pins_with, pins_without, range_joined, release, row_joined, set_flags, set_static_flag, set_statics, set_tombs, snapshot, version_of, with_flags, with_newest, with_phase, with_tombs, with_updating, with_version};
ghost use Rattle.rc_core.specs.Version.{IsBeforeEnd, IsVersion, On, Spot, Version, end_position, finding_in, finding_of, state_at, state_of, static_state};
ghost use Rattle.rc_units.specs.Chained.{objects_of};
ghost use Rattle.rc_version.specs.Versions.{raised_between};
ghost use Rattle.rc_rowcode.specs.Spelling.{pos_code, row_code};
ghost use Rattle.rc_memory.specs.Kept.{IsSoundChain, present};
ghost use Rattle.rc_memory.specs.Room.{chain_bytes, chain_objects};
ghost use Rattle.rc_memory.specs.Memory.{KeptChain, Memory, on_version_of, shown_detached, shown_pinned, shown_updating, shown_with, shown_without, snapshot_number, with_snapshot, without_snapshot};
ghost use Rattle.rc_chain.specs.Lives.{chain_of_new, flag_of_new, relabelled_chain, with_version_over};

use rc_core::laws::carrying::{
    a_dropped_version_keeps_what_is_carried, an_update_keeps_what_is_carried,
};
use rc_core::laws::changes::{
    a_dropped_entry_is_same_or_lost, a_joined_partition_tombstone_raises_the_head,
    a_joined_range_raises_the_tombstone, a_joined_row_is_joined_at_its_position,
    a_split_changes_nothing, each_change_leaves_a_version,
};
use rc_core::laws::keeping::{
    a_dropped_version_keeps_the_whole_chain, a_new_phase_changes_nothing_that_is_seen,
    a_new_phase_keeps_the_whole_chain, an_opened_entry_is_continuous, what_leaves_a_chain,
    what_lies_below_counts_by_its_source,
};
use rc_core::laws::losing::{
    an_eviction_is_seen_as_same_or_lost, an_eviction_keeps_the_whole_chain, each_eviction_is_one,
    each_eviction_keeps_the_whole_chain,
};
use rc_core::laws::memtables::{
    a_memtable_stands_for_its_writes, a_new_memtable_has_the_form,
    a_new_version_keeps_the_memtables_form, merging_keeps_the_memtables_form,
    pinning_keeps_the_memtables_form,
};
use rc_core::laws::merging::{a_dropped_version_changes_nothing, a_new_version_says_nothing};
use rc_core::laws::pinning::{
    a_detached_chain_stays_continuous, a_freed_entry_is_said_no_more,
    a_freed_object_keeps_the_memtables_form, a_freed_object_keeps_the_whole_chain,
    a_release_keeps_the_whole_chain, a_replaced_version_leaves_a_chain,
    a_snapshot_keeps_the_whole_chain, a_snapshots_number_stays, fewer_pins_keep_the_whole_chain,
    one_more_pin_keeps_the_whole_chain,
};
use rc_core::laws::placing::a_new_version_stands_at_the_head;
use rc_core::laws::reading::a_known_part_is_the_source;
use rc_core::laws::seeing::{the_base_is_the_newest_that_decides, the_fold_is_what_is_seen};
use rc_core::laws::surgery::{
    a_change_goes_from_one_entry_to_another, a_split_makes_a_dummy_in_a_gap, one_entry_is_changed,
    one_entry_is_taken_out, one_version_is_changed, set_marks_leave_a_version,
};
use rc_core::laws::updating::{
    a_begun_update_keeps_the_whole_chain, an_ended_update_keeps_the_whole_chain,
    an_update_says_no_less,
};
use rc_units::laws::chaining::{
    a_freed_object_leaves_a_chain, a_freed_object_leaves_less,
    a_shown_chain_says_whether_it_is_under_update, what_is_put_over_is_not_seen_below,
};

/// A shown chain with the update's place beside it is a chain of the core, and what a call does to the one is an operation on the other. That it is a chain does not depend on the place; nor does whether a snapshot may populate, or whether anybody finds or reads it, or needs a version of it; and where no update stands in it nothing does.
pub fn a_shown_chain_is_a_chain_with_its_place()
    ensures sound { (p : Place) (c : Shown) → IsSoundChain c → EachOf IsVersion c.versions → IsChain (at_place p c) }
    ensures anywhere { (p q : Place) (c : Shown) → IsChain (at_place p c) → IsChain (at_place q c) }
    ensures settled { (p q : Place) (c : Shown) → c.updating ≡ false → at_place p c ≡ at_place q c }
    ensures fills { (p q : Place) (c : Shown) (pin : ℕ) → MayPopulate (at_place p c) pin → MayPopulate (at_place q c) pin }
    ensures abandoned { (p : Place) (c : Shown) → IsSoundChain c → c.attached ≡ false → ((j : ℕ) → IsPinned c.pins j → ⊥) → IsAbandoned (at_place p c) }
    ensures unneeded { (p : Place) (c : Shown) (j : ℕ) → (IsPinned c.pins j → ⊥) → suc j < length c.versions → (c.updating ≡ true → suc (suc j) < length c.versions) → IsNeeded (at_place p c) j → ⊥ }
    ensures updating { (p : Place) (c : Shown) → IsTrue c.updating ↔ IsUpdating (at_place p c).updating }
    ensures made { (p : Place) (kind : ChainKind) (pt : Option Tomb) (phase : ℕ) → at_place p (chain_of_new kind pt phase).chain ≡ new_chain kind (version_of (flag_of_new kind) pt phase) }
    ensures opened { (p : Place) (pt : Option Tomb) (statics : Option Row) (phase : ℕ) → at_place p (on_version_of 0 (set_statics statics Known) (chain_of_new Cache pt phase).chain) ≡ new_chain Cache (opened_version pt statics phase) }
    ensures added { (p : Place) (phase : ℕ) (c : Shown) → c.kind ≡ Memtable → c.updating ≡ false → at_place p (with_version_over phase c) ≡ add_version None phase (at_place p c) }
    ensures begun { (p : Place) (phase : ℕ) (c : Shown) → c.kind ≡ Cache → at_place Head (with_version_over phase c) ≡ begin_update phase (at_place p c) }
    ensures ended { (p q : Place) (c : Shown) → at_place q (shown_updating false c) ≡ with_updating None (at_place p c) }
    ensures relabelled { (p : Place) (phase : ℕ) (c : Shown) → at_place p (shown_with (on_newest (with_phase phase) c.versions) c) ≡ with_newest (with_phase phase) (at_place p c) }
    ensures pinned { (p : Place) (version : ℕ) (c : Shown) → at_place p (shown_pinned (pins_with version c.pins) c) ≡ snapshot version (at_place p c) }
    ensures released { (p : Place) (pin : ℕ) (c : Shown) → at_place p (shown_pinned (pins_without pin c.pins) c) ≡ release pin (at_place p c) }
    ensures detached { (p q : Place) (c : Shown) → at_place q (shown_detached c) ≡ detach (at_place p c) }
    ensures changed { (p : Place) (j : ℕ) (f : Version → Version) (c : Shown) → at_place p (on_version_of j f c) ≡ with_version j f (at_place p c) }
    ensures dropped { (p : Place) (j : ℕ) (c : Shown) → at_place p (shown_without j c) ≡ drop_version j (at_place p c) }
{
    a_shown_chain_says_whether_it_is_under_update();
}

/// A new chain is a chain of its kind. A memtable's has the form and stands for no writes; a cache chain is continuous where its partition tombstone is the source's, with nothing known else or with the source's static row.
pub fn a_new_chain_says_what_it_stands_for()
    ensures form { (p : Place) (kind : ChainKind) (pt : Option Tomb) (phase : ℕ) → IsChain (at_place p (chain_of_new kind pt phase).chain) }
    ensures memtable { (p : Place) (pt : Option Tomb) (phase : ℕ) → IsMemtableChain (at_place p (chain_of_new Memtable pt phase).chain) }
    ensures stands { (phase : ℕ) → StandsFor [] (chain_of_new Memtable None phase).chain.versions }
    ensures unknown { (below : ℕ → List Mutation) (p : Place) (pt : Option Tomb) (phase : ℕ) → pt ≡ source_at_head (below phase) → IsChainContinuous below (at_place p (chain_of_new Cache pt phase).chain) }
    ensures opened { (below : ℕ → List Mutation) (p : Place) (pt : Option Tomb) (statics : Option Row) (phase : ℕ) → pt ≡ source_at_head (below phase) → joined_row (option_to_list statics) ≡ source_at_static (below phase) →
        IsChainContinuous below (at_place p (on_version_of 0 (set_statics statics Known) (chain_of_new Cache pt phase).chain)) }
{
    an_opened_entry_is_continuous();
    a_new_memtable_has_the_form();
    a_memtable_stands_for_its_writes();
    a_replaced_version_leaves_a_chain();
    each_eviction_is_one();
    an_eviction_keeps_the_whole_chain();
}

/// A version put over those of a chain that is not under update leaves a chain. A memtable's keeps its form and stands for the same writes; a cache chain, where the new phase's mutations are those of the newest version with one more, stays continuous with its update's place at the head, and carries what it carried. At each older version the same is seen, and the new one says nothing.
pub fn a_version_put_over_keeps_what_is_said()
    ensures form { (p : Place) (c : Shown) (newest phase : ℕ) → suc newest ≡ length c.versions → c.updating ≡ false → IsChain (at_place p c) → IsChain (at_place Head (with_version_over phase c)) }
    ensures memtable { (p : Place) (c : Shown) (newest phase : ℕ) → suc newest ≡ length c.versions → c.kind ≡ Memtable → c.updating ≡ false → c.attached ≡ true → IsChain (at_place p c) →
        IsMemtableChain (at_place p c) → IsMemtableChain (at_place p (with_version_over phase c)) }
    ensures stands { (writes : List Mutation) (c : Shown) (phase : ℕ) → StandsFor writes c.versions → StandsFor writes (with_version_over phase c).versions }
    ensures chain { (below : ℕ → List Mutation) (p : Place) (c : Shown) (newest phase : ℕ) (change : Mutation) → suc newest ≡ length c.versions → c.kind ≡ Cache → c.updating ≡ false → c.attached ≡ true → IsChain (at_place p c) →
        SameSource (below (phase_at c.versions newest) ++ change ∷ []) (below phase) → IsChainContinuous below (at_place p c) → IsChainContinuous below (at_place Head (with_version_over phase c)) }
    ensures carried { (p : Place) (c : Shown) (phase : ℕ) (x : Pos) → c.kind ≡ Cache → c.updating ≡ false → IsCarriedIn (at_place p c) x → IsCarriedIn (at_place Head (with_version_over phase c)) x }
    ensures below { (c : Shown) (phase j : ℕ) → j < length c.versions → upto (with_version_over phase c).versions j ≡ upto c.versions j }
    ensures silent { (phase : ℕ) → IsSilent (version_of Inherit None phase) × IsAtPlace Head (version_of Inherit None phase) }
{
    what_leaves_a_chain();
    a_new_version_keeps_the_memtables_form();
    a_memtable_stands_for_its_writes();
    a_begun_update_keeps_the_whole_chain();
    an_update_says_no_less();
    an_update_keeps_what_is_carried();
    what_is_put_over_is_not_seen_below();
    a_new_version_says_nothing();
    a_new_version_stands_at_the_head();
}

/// A chain whose update reached the end, or in which none stood, stays continuous once it is no longer under update, and carries what it carried.
pub fn a_settled_chain_keeps_what_is_said()
    ensures chain { (below : ℕ → List Mutation) (p : Place) (c : Shown) (newest : ℕ) → suc newest ≡ length c.versions → (c.updating ≡ true → c.attached ≡ true) → IsChain (at_place End c) →
        IsChainContinuous below (at_place End c) → IsChainContinuous below (at_place p (shown_updating false c)) }
    ensures form { (p q : Place) (c : Shown) → IsChain (at_place p c) → IsChain (at_place q (shown_updating false c)) }
    ensures carried { (p : Place) (c : Shown) (x : Pos) → IsCarriedIn (at_place End c) x → IsCarriedIn (at_place p (shown_updating false c)) x }
{
    an_ended_update_keeps_the_whole_chain();
    an_update_keeps_what_is_carried();
}

/// A chain whose newest version gets another phase, which it does where it is found by its key, stays continuous where the mutations of that phase say the same; all is seen as before, and carried. What lies below counts by what it says at the phases of the chain's versions.
pub fn a_relabelled_chain_keeps_what_is_said()
    ensures chain { (below : ℕ → List Mutation) (p : Place) (k : KeptChain) (newest phase : ℕ) → suc newest ≡ length k.chain.versions → IsChain (at_place p k.chain) →
        (k.chain.attached ≡ true → SameSource (below (phase_at k.chain.versions newest)) (below phase)) →
        IsChainContinuous below (at_place p k.chain) → IsChainContinuous below (at_place p (relabelled_chain phase k).chain) }
    ensures form { (p : Place) (k : KeptChain) (newest phase : ℕ) → suc newest ≡ length k.chain.versions → IsChain (at_place p k.chain) → IsChain (at_place p (relabelled_chain phase k).chain) }
    ensures seen { (k : KeptChain) (newest phase : ℕ) → suc newest ≡ length k.chain.versions → IsSeenAlike k.chain.versions (relabelled_chain phase k).chain.versions }
    ensures carried { (p : Place) (k : KeptChain) (newest phase : ℕ) (x : Pos) → suc newest ≡ length k.chain.versions → IsCarriedIn (at_place p k.chain) x → IsCarriedIn (at_place p (relabelled_chain phase k).chain) x }
    ensures below { (below other : ℕ → List Mutation) (p : Place) (c : Shown) → IsChain (at_place p c) →
        ((j : ℕ) → j < length c.versions → SameSource (below (phase_at c.versions j)) (other (phase_at c.versions j))) →
        IsChainContinuous below (at_place p c) → IsChainContinuous other (at_place p c) }
{
    a_new_phase_keeps_the_whole_chain();
    a_new_phase_changes_nothing_that_is_seen();
    what_lies_below_counts_by_its_source();
}

/// A snapshot gets a number that was free and pins a version that the chain has; the numbers of others stay. A chain that is found by its key stays continuous with it, and keeps a memtable's form.
pub fn one_more_snapshot_keeps_what_is_said()
    ensures number { (p : Place) (c : Shown) → IsSoundChain c → IsSnapshotOf (at_place p c) (snapshot_number c) }
    ensures free { (pins : List (Option ℕ)) → pin_at pins (free_number pins) ≡ None }
    ensures given { (version : ℕ) (k : KeptChain) → pin_at (with_snapshot version k).chain.pins (free_number k.chain.pins) ≡ Some version }
    ensures others { (version pin : ℕ) (k : KeptChain) → pin ≢ free_number k.chain.pins → pin_at (with_snapshot version k).chain.pins pin ≡ pin_at k.chain.pins pin }
    ensures chain { (below : ℕ → List Mutation) (p : Place) (k : KeptChain) → IsSoundChain k.chain → k.chain.attached ≡ true →
        IsChainContinuous below (at_place p k.chain) → IsChainContinuous below (at_place p (with_snapshot (snapshot_number k.chain) k).chain) }
    ensures form { (p : Place) (k : KeptChain) → IsSoundChain k.chain → IsChain (at_place p k.chain) → IsChain (at_place p (with_snapshot (snapshot_number k.chain) k).chain) }
    ensures memtable { (p : Place) (k : KeptChain) → IsSoundChain k.chain → k.chain.kind ≡ Memtable → k.chain.attached ≡ true →
        IsMemtableChain (at_place p k.chain) → IsMemtableChain (at_place p (with_snapshot (snapshot_number k.chain) k).chain) }
    ensures carried { (p : Place) (version : ℕ) (k : KeptChain) (x : Pos) → IsCarriedIn (at_place p k.chain) x → IsCarriedIn (at_place p (with_snapshot version k).chain) x }
{
    a_snapshots_number_stays();
    a_snapshot_keeps_the_whole_chain();
    one_more_pin_keeps_the_whole_chain();
}

/// A snapshot that is taken back frees its number, and the numbers of others stay. The chain stays continuous, and keeps a memtable's form.
pub fn one_snapshot_less_keeps_what_is_said()
    ensures released { (pin : ℕ) (k : KeptChain) → pin_at (without_snapshot pin k).chain.pins pin ≡ None }
    ensures kept { (pin other : ℕ) (k : KeptChain) → other ≢ pin → pin_at (without_snapshot pin k).chain.pins other ≡ pin_at k.chain.pins other }
    ensures chain { (below : ℕ → List Mutation) (p : Place) (pin : ℕ) (k : KeptChain) → IsChainContinuous below (at_place p k.chain) → IsChainContinuous below (at_place p (without_snapshot pin k).chain) }
    ensures form { (p : Place) (pin : ℕ) (k : KeptChain) → IsChain (at_place p k.chain) → IsChain (at_place p (without_snapshot pin k).chain) }
    ensures memtable { (p : Place) (pin : ℕ) (k : KeptChain) → IsMemtableChain (at_place p k.chain) → IsMemtableChain (at_place p (without_snapshot pin k).chain) }
    ensures carried { (p : Place) (pin : ℕ) (k : KeptChain) (x : Pos) → IsCarriedIn (at_place p k.chain) x → IsCarriedIn (at_place p (without_snapshot pin k).chain) x }
{
    a_snapshots_number_stays();
    a_release_keeps_the_whole_chain();
    fewer_pins_keep_the_whole_chain();
}

/// A chain that is no longer found by its key, nor under update, stays continuous at each version that is pinned, and keeps a memtable's form.
pub fn a_chain_no_longer_found_keeps_what_is_said()
    ensures chain { (below : ℕ → List Mutation) (p q : Place) (c : Shown) → IsChain (at_place p c) → IsChainContinuous below (at_place p c) → IsChainContinuous below (at_place q (shown_detached c)) }
    ensures form { (p q : Place) (c : Shown) → IsChain (at_place p c) → IsChain (at_place q (shown_detached c)) }
    ensures memtable { (p q : Place) (c : Shown) → IsMemtableChain (at_place p c) → IsMemtableChain (at_place q (shown_detached c)) }
{
    a_detached_chain_stays_continuous();
    pinning_keeps_the_memtables_form();
}

/// What a snapshot of a cache chain knows is the source of the version that it pins: at the head, at the static row, at each position, and of each first part from a place on.
pub fn what_a_snapshot_knows_is_the_source()
    ensures continuous { (below : ℕ → List Mutation) (p : Place) (c : Shown) (j : ℕ) → IsChain (at_place p c) → IsChainContinuous below (at_place p c) → IsPinned c.pins j → IsContinuous None (below (phase_at c.versions j)) (upto c.versions j) }
    ensures head { (below : ℕ → List Mutation) (p : Place) (c : Shown) (j : ℕ) → IsChain (at_place p c) → IsChainContinuous below (at_place p c) → IsPinned c.pins j →
        greatest tomb_cmp (version_tombs (upto c.versions j)) ≡ source_at_head (below (phase_at c.versions j)) }
    ensures statics { (below : ℕ → List Mutation) (p : Place) (c : Shown) (j : ℕ) → IsChain (at_place p c) → IsChainContinuous below (at_place p c) → IsPinned c.pins j →
        IsTrue (has_flag Cache (static_states (upto c.versions j))) → content (static_states (upto c.versions j)) ≡ (source_at_static (below (phase_at c.versions j)), None) }
    ensures known { (below : ℕ → List Mutation) (p : Place) (c : Shown) (j : ℕ) → IsChain (at_place p c) → IsChainContinuous below (at_place p c) → IsPinned c.pins j → (x : Pos) →
        IsKnown Cache (upto c.versions j) x → content (states_at (On x) (upto c.versions j)) ≡ source_at (below (phase_at c.versions j)) x }
    ensures gap { (below : ℕ → List Mutation) (p : Place) (c : Shown) (j : ℕ) → IsChain (at_place p c) → IsChainContinuous below (at_place p c) → IsPinned c.pins j → (x bound to : Pos) (tomb : Option Tomb) →
        IsFirstPart Cache (upto c.versions j) x bound (Gap to tomb) → (y : Pos) → covers x to y ≡ true → source_at (below (phase_at c.versions j)) y ≡ (empty_row, tomb) }
    ensures row { (below : ℕ → List Mutation) (p : Place) (c : Shown) (j : ℕ) → IsChain (at_place p c) → IsChainContinuous below (at_place p c) → IsPinned c.pins j → (x bound : Pos) (key : List Comp) (row : Row) (tomb : Option Tomb) →
        IsFirstPart Cache (upto c.versions j) x bound (part.Row key row tomb) → source_at (below (phase_at c.versions j)) x ≡ (row, tomb) }
{
    a_known_part_is_the_source();
}

/// What a snapshot sees at a spot, or at the static row, is what the fold of the versions up to the one that it pins gives; its base is the newest of them that is Known or Unknown there.
pub fn what_a_snapshot_sees_is_the_fold()
    ensures flag { (c : Shown) (j : ℕ) (s : Spot) → has_flag c.kind (states_at s (upto c.versions j)) ≡ flag_over c.kind (through (states_at s (upto c.versions j))).flag }
    ensures content { (c : Shown) (j : ℕ) (s : Spot) → content (states_at s (upto c.versions j)) ≡ joined_state (through (states_at s (upto c.versions j))) }
    ensures static_flag { (c : Shown) (j : ℕ) → has_flag c.kind (static_states (upto c.versions j)) ≡ flag_over c.kind (through (static_states (upto c.versions j))).flag }
    ensures static_content { (c : Shown) (j : ℕ) → content (static_states (upto c.versions j)) ≡ joined_state (through (static_states (upto c.versions j))) }
    ensures decides { (c : Shown) (j i : ℕ) (s : Spot) → base (states_at s (upto c.versions j)) ≡ Some i → IsTrue (decides (first_flag (drop i (states_at s (upto c.versions j))))) }
    ensures newest { (c : Shown) (j i k : ℕ) (s : Spot) → base (states_at s (upto c.versions j)) ≡ Some i → i < k → decides (first_flag (drop k (states_at s (upto c.versions j)))) ≡ false }
    ensures none { (c : Shown) (j k : ℕ) (s : Spot) → base (states_at s (upto c.versions j)) ≡ None → decides (first_flag (drop k (states_at s (upto c.versions j)))) ≡ false }
{
    the_fold_is_what_is_seen();
    the_base_is_the_newest_that_decides();
}

/// What is done to the version of a number is done to that one alone. A chain is left where a version is; of the newest version it is the core's operation on that.
pub fn one_version_of_a_chain_is_changed()
    ensures replaced { (p : Place) (c : Shown) (older newer : List Version) (v : Version) (f : Version → Version) → c.versions ≡ older ++ v ∷ newer →
        at_place p (on_version_of (length older) f c) ≡ with_versions (older ++ f v ∷ newer) (at_place p c) }
    ensures form { (p : Place) (c : Shown) (j : ℕ) (f : Version → Version) → ((v : Version) → IsVersion v → IsVersion (f v)) → IsChain (at_place p c) → IsChain (at_place p (on_version_of j f c)) }
    ensures newest { (p : Place) (c : Shown) (j : ℕ) (f : Version → Version) → suc j ≡ length c.versions → ((v : Version) → IsVersion v → IsVersion (f v)) → IsChain (at_place p c) →
        (at_place p (on_version_of j f c) ≡ with_newest f (at_place p c)) × IsChain (with_newest f (at_place p c)) }
{
    one_version_is_changed();
    a_replaced_version_leaves_a_chain();
    what_leaves_a_chain();
}

/// Each change of a version of a chain leaves a chain: a split, a joined row, a joined range, a joined partition tombstone, flags and tombstones set, a static row set, joined, flagged or gone, another phase, an entry gone.
pub fn each_change_of_a_version_leaves_a_chain()
    ensures split { (p : Place) (c : Shown) (j : ℕ) (x : Pos) → IsChain (at_place p c) → IsChain (at_place p (on_version_of j (λ v. with_entries (gap_split x v.entries) v) c)) }
    ensures row { (p : Place) (c : Shown) (j : ℕ) (x : Pos) (row : Row) → IsBefore x end_position → IsChain (at_place p c) → IsChain (at_place p (on_version_of j (row_joined x row) c)) }
    ensures range { (p : Place) (c : Shown) (j : ℕ) (from to : Pos) (tomb : Tomb) → IsChain (at_place p c) → IsChain (at_place p (on_version_of j (range_joined from to tomb) c)) }
    ensures head { (p : Place) (c : Shown) (j : ℕ) (tomb : Tomb) → IsChain (at_place p c) → IsChain (at_place p (on_version_of j (join_pt tomb) c)) }
    ensures between { (p : Place) (c : Shown) (j : ℕ) (from to : Pos) (tomb : Tomb) → IsChain (at_place p c) → IsChain (at_place p (on_version_of j (raised_between from to tomb) c)) }
    ensures flags { (p : Place) (c : Shown) (j : ℕ) (x : Pos) (at gap : Flag) → IsChain (at_place p c) → IsChain (at_place p (on_version_of j (set_flags x at gap) c)) }
    ensures tombs { (p : Place) (c : Shown) (j : ℕ) (x : Pos) (at gap : Option Tomb) → IsChain (at_place p c) → IsChain (at_place p (on_version_of j (set_tombs x at gap) c)) }
    ensures statics { (p : Place) (c : Shown) (j : ℕ) (row : Option Row) (flag : Flag) → IsChain (at_place p c) → IsChain (at_place p (on_version_of j (set_statics row flag) c)) }
    ensures static_joined { (p : Place) (c : Shown) (j : ℕ) (row : Row) (flag : Flag) → IsChain (at_place p c) → IsChain (at_place p (on_version_of j (join_flagged_statics row flag) c)) }
    ensures static_flag { (p : Place) (c : Shown) (j : ℕ) (flag : Flag) → IsChain (at_place p c) → IsChain (at_place p (on_version_of j (set_static_flag flag) c)) }
    ensures static_gone { (p : Place) (c : Shown) (j : ℕ) → IsChain (at_place p c) → IsChain (at_place p (on_version_of j without_statics c)) }
    ensures phase { (p : Place) (c : Shown) (j phase : ℕ) → IsChain (at_place p c) → IsChain (at_place p (on_version_of j (with_phase phase) c)) }
    ensures entry_gone { (p : Place) (c : Shown) (j : ℕ) (x : Pos) → IsBefore x end_position → IsChain (at_place p c) → IsChain (at_place p (on_version_of j (λ v. with_entries (drop_at x v.entries) v) c)) }
{
    one_version_of_a_chain_is_changed();
    each_change_leaves_a_version();
    set_marks_leave_a_version();
}

/// Each change of a version is one of its entries, or of those of a stretch: all others stay. Between two entries none is made.
pub fn each_change_of_a_version_is_one_of_its_entries()
    ensures gap { (v : Version) (x : Pos) (front : List Entry) (e : Entry) (back : List Entry) → v.entries ≡ front ++ e ∷ back → EachEntry (λ f. IsBefore f.position x) front → IsBefore x e.position →
        with_entries (gap_split x v.entries) v ≡ with_entries (front ++ dummy x e.gap ∷ e ∷ back) v }
    ensures split { (v : Version) (front : List Entry) (e : Entry) (back : List Entry) → IsVersion v → v.entries ≡ front ++ e ∷ back → with_entries (gap_split e.position v.entries) v ≡ v }
    ensures row { (v : Version) (row : Row) (front : List Entry) (e : Entry) (back : List Entry) → IsVersion v → v.entries ≡ front ++ e ∷ back → row_joined e.position row v ≡ with_entries (front ++ with_row row e ∷ back) v }
    ensures range { (v : Version) (tomb : Tomb) (front : List Entry) (from : Entry) (between : List Entry) (to : Entry) (back : List Entry) → IsVersion v → v.entries ≡ front ++ from ∷ (between ++ to ∷ back) →
        range_joined from.position to.position tomb v ≡ with_entries (front ++ with_mark (raised_mark (Some tomb)) from ∷ (map (with_marks (raised_mark (Some tomb))) between ++ with_gap (raised_mark (Some tomb) to.gap) to ∷ back)) v }
    ensures between { (v : Version) (from to : Pos) (tomb : Tomb) → IsVersion v → HasEntryAt from v.entries → HasEntryAt to v.entries → raised_between from to tomb v ≡ range_joined from to tomb v }
    ensures flags { (v : Version) (at gap : Flag) (front : List Entry) (e : Entry) (back : List Entry) → IsVersion v → v.entries ≡ front ++ e ∷ back → set_flags e.position at gap v ≡ with_entries (front ++ with_flags at gap e ∷ back) v }
    ensures tombs { (v : Version) (at gap : Option Tomb) (front : List Entry) (e : Entry) (back : List Entry) → IsVersion v → v.entries ≡ front ++ e ∷ back → set_tombs e.position at gap v ≡ with_entries (front ++ with_tombs at gap e ∷ back) v }
    ensures entry_gone { (v : Version) (front : List Entry) (e next : Entry) (back : List Entry) → IsVersion v → v.entries ≡ front ++ e ∷ next ∷ back →
        with_entries (drop_at e.position v.entries) v ≡ with_entries (front ++ with_gap lost_mark next ∷ back) v }
{
    a_split_makes_a_dummy_in_a_gap();
    one_entry_is_changed();
    a_change_goes_from_one_entry_to_another();
    one_entry_is_taken_out();
}

/// What a version says after each change: a split changes nothing; a joined row is joined at its position alone; a joined range raises the tombstone inside; a joined partition tombstone raises that of the head; another static row, or another flag of it, changes nothing elsewhere; where an entry or the static row went all is as before, or lost.
pub fn each_change_of_a_version_is_said_at_its_place()
    ensures split { (v : Version) (x : Pos) (s : Spot) → state_at s (with_entries (gap_split x v.entries) v) ≡ state_at s v }
    ensures row { (v : Version) (x : Pos) (row : Row) → IsVersion v → state_at (On x) (row_joined x row v) ≡ state_of (finding_of (finding_in (On x) v.entries).mark (Some (joined_onto (finding_in (On x) v.entries).row row))) }
    ensures elsewhere { (v : Version) (x : Pos) (row : Row) (s : Spot) → s ≢ On x → state_at s (row_joined x row v) ≡ state_at s v }
    ensures range { (v : Version) (from to : Pos) (tomb : Tomb) (s : Spot) → IsBeforeEnd s v.entries →
        state_at s (range_joined from to tomb v) ≡ state_of (cond (covers from to (position_of s)) (finding_of (raised_mark (Some tomb) (finding_in s v.entries).mark) (finding_in s v.entries).row) (finding_in s v.entries)) }
    ensures head { (older newer : List Version) (v : Version) (tomb : Tomb) →
        greatest tomb_cmp (version_tombs (older ++ join_pt tomb v ∷ newer)) ≡ greater tomb_cmp (greatest tomb_cmp (version_tombs (older ++ v ∷ newer))) (Some tomb) }
    ensures head_alone { (v : Version) (tomb : Tomb) (s : Spot) → (state_at s (join_pt tomb v) ≡ state_at s v) × (static_state (join_pt tomb v) ≡ static_state v) }
    ensures statics { (v : Version) (row : Option Row) (flag : Flag) (s : Spot) → state_at s (set_statics row flag v) ≡ state_at s v }
    ensures entry_gone { (v : Version) (x : Pos) (s : Spot) → IsVersion v → IsBefore x end_position →
        (state_at s (with_entries (drop_at x v.entries) v) ≡ state_at s v) ⊎ (state_at s (with_entries (drop_at x v.entries) v) ≡ state_of (finding_of lost_mark None)) }
    ensures static_gone { (v : Version) → IsEvicted v (without_statics v) }
{
    a_split_changes_nothing();
    a_joined_row_is_joined_at_its_position();
    a_joined_range_raises_the_tombstone();
    a_joined_partition_tombstone_raises_the_head();
    a_dropped_entry_is_same_or_lost();
    each_eviction_is_one();
}

/// A split of a version that is not under update keeps a chain continuous, and nothing that is seen changes.
pub fn a_split_version_keeps_what_is_said()
    ensures chain { (below : ℕ → List Mutation) (p : Place) (c : Shown) (older newer : List Version) (v : Version) (x : Pos) → c.versions ≡ older ++ v ∷ newer → (newer ≡ [] → c.updating ≡ false) →
        IsChainContinuous below (at_place p c) → IsChainContinuous below (at_place p (on_version_of (length older) (λ w. with_entries (gap_split x w.entries) w) c)) }
    ensures seen { (c : Shown) (j : ℕ) (x : Pos) → IsSeenAlike c.versions (on_version_of j (λ w. with_entries (gap_split x w.entries) w) c).versions }
{
    a_split_changes_nothing();
    one_version_is_changed();
    an_eviction_keeps_the_whole_chain();
}

/// An entry or a static row that goes keeps a chain continuous: of the version under update not the entry at the update's place. All is seen as before, or it is Unknown. What is not the end dummy's position stands before the end.
pub fn an_object_gone_keeps_what_is_said()
    ensures entry { (below : ℕ → List Mutation) (p : Place) (c : Shown) (older newer : List Version) (v : Version) (x : Pos) → c.versions ≡ older ++ v ∷ newer → IsVersion v → HasEntryAt x v.entries → IsBefore x end_position →
        (newer ≡ [] → (at_place p c).updating ≢ Some (Clustered x)) → IsChainContinuous below (at_place p c) → IsChainContinuous below (at_place p (on_version_of (length older) (λ w. with_entries (drop_at x w.entries) w) c)) }
    ensures statics { (below : ℕ → List Mutation) (p : Place) (c : Shown) (older newer : List Version) (v : Version) → c.versions ≡ older ++ v ∷ newer → v.statics ≢ None →
        IsChainContinuous below (at_place p c) → IsChainContinuous below (at_place p (on_version_of (length older) without_statics c)) }
    ensures inner { (x : Pos) → x ≢ end_position → IsBefore x end_position }
    ensures entry_seen { (c : Shown) (older newer : List Version) (v : Version) (x : Pos) → c.versions ≡ older ++ v ∷ newer → IsVersion v → IsBefore x end_position →
        IsSameOrLost c.versions (on_version_of (length older) (λ w. with_entries (drop_at x w.entries) w) c).versions }
    ensures statics_seen { (c : Shown) (older newer : List Version) (v : Version) → c.versions ≡ older ++ v ∷ newer → IsSameOrLost c.versions (on_version_of (length older) without_statics c).versions }
{
    one_version_is_changed();
    each_eviction_is_one();
    each_eviction_keeps_the_whole_chain();
    an_eviction_is_seen_as_same_or_lost();
}

/// A version that says nothing, which nobody needs and whose partition tombstone is not above the next one's, may go: a chain is left, continuous and with a memtable's form, which stands for the same writes; at each version that is needed the same is seen, what was carried is carried, and each snapshot pins the version that it did.
pub fn a_version_gone_keeps_what_is_said()
    ensures chain { (below : ℕ → List Mutation) (p : Place) (c : Shown) (older newer : List Version) (v next : Version) → c.versions ≡ older ++ v ∷ next ∷ newer → (IsNeeded (at_place p c) (length older) → ⊥) → IsSilent v →
        greatest tomb_cmp (option_to_list v.pt ++ option_to_list next.pt) ≡ greatest tomb_cmp (option_to_list next.pt) →
        IsChainContinuous below (at_place p c) → IsChainContinuous below (at_place p (shown_without (length older) c)) }
    ensures form { (p : Place) (c : Shown) (older newer : List Version) (v next : Version) → c.versions ≡ older ++ v ∷ next ∷ newer → (IsNeeded (at_place p c) (length older) → ⊥) →
        IsChain (at_place p c) → IsChain (at_place p (shown_without (length older) c)) }
    ensures seen { (p : Place) (c : Shown) (older newer : List Version) (v next : Version) → c.versions ≡ older ++ v ∷ next ∷ newer → (IsNeeded (at_place p c) (length older) → ⊥) → IsSilent v →
        greatest tomb_cmp (option_to_list v.pt ++ option_to_list next.pt) ≡ greatest tomb_cmp (option_to_list next.pt) →
        (j : ℕ) → IsNeeded (at_place p c) j → IsSeenAlike (upto c.versions j) (upto (shown_without (length older) c).versions (number_after_removal (length older) j)) }
    ensures carried { (p : Place) (c : Shown) (older newer : List Version) (v next : Version) (x : Pos) → c.versions ≡ older ++ v ∷ next ∷ newer → (IsNeeded (at_place p c) (length older) → ⊥) → IsSilent v →
        greatest tomb_cmp (option_to_list v.pt ++ option_to_list next.pt) ≡ greatest tomb_cmp (option_to_list next.pt) →
        IsCarriedIn (at_place p c) x → IsCarriedIn (at_place p (shown_without (length older) c)) x }
    ensures memtable { (p : Place) (c : Shown) (older newer : List Version) (v next : Version) → c.versions ≡ older ++ v ∷ next ∷ newer → (IsNeeded (at_place p c) (length older) → ⊥) → IsSilent v →
        greatest tomb_cmp (option_to_list v.pt ++ option_to_list next.pt) ≡ greatest tomb_cmp (option_to_list next.pt) →
        IsMemtableChain (at_place p c) → IsMemtableChain (at_place p (shown_without (length older) c)) }
    ensures stands { (writes : List Mutation) (c : Shown) (older newer : List Version) (v next : Version) → c.versions ≡ older ++ v ∷ next ∷ newer → IsSilent v →
        greatest tomb_cmp (option_to_list v.pt ++ option_to_list next.pt) ≡ greatest tomb_cmp (option_to_list next.pt) → StandsFor writes c.versions → StandsFor writes (shown_without (length older) c).versions }
    ensures pins { (c : Shown) (j pin : ℕ) → pin_at (shown_without j c).pins pin ≡ option_map (number_after_removal j) (pin_at c.pins pin) }
{
    a_dropped_version_keeps_the_whole_chain();
    a_dropped_version_keeps_what_is_carried();
    merging_keeps_the_memtables_form();
    a_dropped_version_changes_nothing();
    a_memtable_stands_for_its_writes();
    a_snapshots_number_stays();
}

/// An entry before the end that is freed of a chain that nobody finds or reads leaves a chain of one object less: a cache chain continuous where all that it said is lost, and a memtable's in its form where nothing is said there. Each spot is as before, or it says what is said where an object was freed.
pub fn a_freed_entry_keeps_what_is_said()
    ensures chain { (below : ℕ → List Mutation) (p : Place) (c : Shown) (older newer : List Version) (v : Version) (x : Pos) → c.versions ≡ older ++ v ∷ newer → IsAbandoned (at_place p c) → IsVersion v → IsBefore x end_position →
        IsChainContinuous below (at_place p c) → IsChainContinuous below (at_place p (on_version_of (length older) (free_entry Cache x) c)) }
    ensures memtable { (p : Place) (c : Shown) (older newer : List Version) (v : Version) (x : Pos) → c.versions ≡ older ++ v ∷ newer → IsAbandoned (at_place p c) → IsVersion v → IsBefore x end_position →
        IsMemtableChain (at_place p c) → IsMemtableChain (at_place p (on_version_of (length older) (free_entry Memtable x) c)) }
    ensures form { (p : Place) (c : Shown) (older newer : List Version) (v : Version) (kind : ChainKind) (x : Pos) → c.versions ≡ older ++ v ∷ newer → IsBefore x end_position → IsChain (at_place p c) → IsChain (at_place p (on_version_of (length older) (free_entry kind x) c)) }
    ensures less { (c : Shown) (older newer : List Version) (v : Version) (kind : ChainKind) (x : Pos) → c.versions ≡ older ++ v ∷ newer → HasEntryAt x v.entries → objects_of (on_version_of (length older) (free_entry kind x) c).versions < objects_of c.versions }
    ensures said { (kind : ChainKind) (v : Version) (x : Pos) (s : Spot) → IsVersion v → IsBefore x end_position → (state_at s (free_entry kind x v) ≡ state_at s v) ⊎ (state_at s (free_entry kind x v) ≡ state_of (finding_of (freed_mark kind) None)) }
    ensures lost { (v : Version) (x : Pos) → free_entry Cache x v ≡ with_entries (drop_at x v.entries) v }
{
    one_version_is_changed();
    a_freed_object_keeps_the_whole_chain();
    a_freed_object_keeps_the_memtables_form();
    a_freed_object_leaves_a_chain();
    a_freed_object_leaves_less();
    a_freed_entry_is_said_no_more();
}

/// A static row that is freed of a chain that nobody finds or reads leaves a chain of one object less: a cache chain continuous where its flag is lost, and a memtable's in its form where nothing is said.
pub fn a_freed_static_row_keeps_what_is_said()
    ensures chain { (below : ℕ → List Mutation) (p : Place) (c : Shown) (older newer : List Version) (v : Version) → c.versions ≡ older ++ v ∷ newer → IsAbandoned (at_place p c) →
        IsChainContinuous below (at_place p c) → IsChainContinuous below (at_place p (on_version_of (length older) (free_statics Cache) c)) }
    ensures memtable { (p : Place) (c : Shown) (older newer : List Version) (v : Version) → c.versions ≡ older ++ v ∷ newer → IsAbandoned (at_place p c) →
        IsMemtableChain (at_place p c) → IsMemtableChain (at_place p (on_version_of (length older) (free_statics Memtable) c)) }
    ensures form { (p : Place) (c : Shown) (older newer : List Version) (v : Version) (kind : ChainKind) → c.versions ≡ older ++ v ∷ newer → IsChain (at_place p c) → IsChain (at_place p (on_version_of (length older) (free_statics kind) c)) }
    ensures less { (c : Shown) (older newer : List Version) (v : Version) (kind : ChainKind) → c.versions ≡ older ++ v ∷ newer → v.statics ≢ None → objects_of (on_version_of (length older) (free_statics kind) c).versions < objects_of c.versions }
    ensures lost { (v : Version) → free_statics Cache v ≡ without_statics v }
{
    one_version_is_changed();
    a_freed_object_keeps_the_whole_chain();
    a_freed_object_keeps_the_memtables_form();
    a_freed_object_leaves_a_chain();
    a_freed_object_leaves_less();
}

/// A version that is freed of a chain that nobody finds or reads leaves a chain of fewer objects, continuous or with a memtable's form. No pin has a number that could change.
pub fn a_freed_version_keeps_what_is_said()
    ensures same { (p : Place) (c : Shown) (older newer : List Version) (v : Version) → c.versions ≡ older ++ v ∷ newer → IsAbandoned (at_place p c) → at_place p (shown_without (length older) c) ≡ with_versions (older ++ newer) (at_place p c) }
    ensures chain { (below : ℕ → List Mutation) (p : Place) (c : Shown) (older newer : List Version) (v : Version) → c.versions ≡ older ++ v ∷ newer → IsAbandoned (at_place p c) →
        IsChainContinuous below (at_place p c) → IsChainContinuous below (at_place p (shown_without (length older) c)) }
    ensures memtable { (p : Place) (c : Shown) (older newer : List Version) (v : Version) → c.versions ≡ older ++ v ∷ newer → IsAbandoned (at_place p c) →
        IsMemtableChain (at_place p c) → IsMemtableChain (at_place p (shown_without (length older) c)) }
    ensures form { (p : Place) (c : Shown) (older newer : List Version) (v : Version) → c.versions ≡ older ++ v ∷ newer → IsAbandoned (at_place p c) → IsChain (at_place p c) → IsChain (at_place p (shown_without (length older) c)) }
    ensures less { (c : Shown) (older newer : List Version) (v : Version) → c.versions ≡ older ++ v ∷ newer → IsVersion v → objects_of (shown_without (length older) c).versions < objects_of c.versions }
{
    a_freed_object_keeps_the_whole_chain();
    a_freed_object_keeps_the_memtables_form();
    a_freed_object_leaves_a_chain();
    a_freed_object_leaves_less();
}

/// The worked numbers: where a memtable's only chain has one version with one row inserted, whose position and row have codes of 11 bytes each, three objects are there, its head, its entry and its end dummy, and 256 bytes are live.
pub fn one_inserted_row_takes_three_objects()
    ensures { (m : Memory) (k : KeptChain) (x : Pos) (row : Row) (phase : ℕ) → present m.chains ≡ k ∷ [] → k.chain.versions ≡ row_joined x row (version_of Inherit None phase) ∷ [] → IsBefore x end_position → length (pos_code x) ≡ 11 → length (row_code row) ≡ 11 →
        (sum_by chain_objects (present m.chains) ≡ 3) × (sum_by chain_bytes (present m.chains) ≡ 256) }
{}
