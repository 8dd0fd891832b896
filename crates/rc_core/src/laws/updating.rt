//! What keeps continuity where no state of an older version changes: the begin and the end of an update, a phase of the same source;
//! and what stays carried.

ghost use Rattle.std.specs.Prelude.{◌≡◌, ◌≢◌, ◌++◌, ◌∷◌, [], ℕ, suc, true, List, None, Option, Some, length};
ghost use Rattle.rc_cell.specs.declared.writes.Tomb.{Tomb};
ghost use Rattle.rc_position.specs.declared.positions.Pos.{Pos};
ghost use Rattle.rc_position.specs.Position.{End, Head, Place, place_cmp};
ghost use Rattle.std.specs.declared.cmp.Ordering.TheVariants.{Greater, Less};
ghost use Rattle.rc_core.specs.AtPlace.{IsAtPlace};
ghost use Rattle.rc_core.specs.Unit.{IsGivenUp, IsUnit};
ghost use Rattle.rc_core.specs.Steps.{IsChain, SaysNoLess, begin_update, with_updating};
ghost use Rattle.rc_mutation.specs.declared.mutations.Mutation.{Mutation};
ghost use Rattle.rc_mutation.specs.Source.{SameSource};
ghost use Rattle.rc_core.specs.Chains.{Chain, IsCarried, IsChainContinuous, phase_at, with_versions};
ghost use Rattle.rc_core.specs.Continuity.{HoldNoMore, IsContinuous};
ghost use Rattle.rc_core.specs.Merge.{IsSeenAlike, new_version};
ghost use Rattle.rc_core.specs.Version.{Version};

/// A phase whose mutations say the same at each place may be given to a version: it stays continuous.
pub fn a_phase_of_the_same_source_keeps_continuity()
    ensures { (reach : Option Place) (writes others : List Mutation) (versions : List Version) → SameSource writes others →
        IsContinuous reach writes versions → IsContinuous reach others versions }
{}

/// A new version under update is continuous before the update's first place, where no older version holds more than its source.
pub fn an_update_begins_with_a_new_version()
    ensures { (writes : List Mutation) (versions : List Version) (pt : Option Tomb) (phase : ℕ) → HoldNoMore writes versions →
        IsContinuous (Some Head) writes (versions ++ new_version pt phase ∷ []) }
{}

/// An update that reached the end leaves a version that is continuous everywhere.
pub fn an_update_ends_at_the_end()
    ensures { (writes : List Mutation) (versions : List Version) → IsContinuous (Some End) writes versions → IsContinuous None writes versions }
{}

/// What is seen alike carries the same positions.
pub fn what_is_seen_alike_is_carried_as_before()
    ensures { (updating : Option Place) (pinned all pinned_after all_after : List Version) (x : Pos) →
        IsSeenAlike pinned pinned_after → IsSeenAlike all all_after →
        IsCarried updating pinned all x → IsCarried updating pinned_after all_after x }
{}

/// A unit of an update leaves the version under update continuous before the next place, where the version below it is continuous, and
/// the new phase is the old one with the update's mutation; and it stands at the next place then.
pub fn a_unit_keeps_the_version_under_update()
    ensures continuous { (writes all : List Mutation) (change : Mutation) (older : List Version) (before now : Version) (p q : Place) →
        IsUnit p q change before now → IsContinuous None writes older → IsContinuous (Some p) all (older ++ before ∷ []) →
        SameSource (writes ++ change ∷ []) all → IsContinuous (Some q) all (older ++ now ∷ []) }
    ensures at_place { (change : Mutation) (p q : Place) (before now : Version) → IsUnit p q change before now → place_cmp p q ≢ Greater →
        IsAtPlace p before → IsAtPlace q now }
{}

/// An update without room that gives up the rest of the partition, its place behind the head, leaves a version that is continuous everywhere.
pub fn a_version_given_up_keeps_continuity()
    ensures { (writes : List Mutation) (older : List Version) (before now : Version) (p : Place) → IsGivenUp p before now →
        IsContinuous (Some p) writes (older ++ before ∷ []) → place_cmp Head p ≡ Less → IsContinuous None writes (older ++ now ∷ []) }
{}

/// Writes with an update's mutation say at each place no less than without it; so do any that say the same as these.
pub fn an_update_says_no_less()
    ensures { (writes others : List Mutation) (change : Mutation) → SameSource (writes ++ change ∷ []) others → SaysNoLess writes others }
{}

/// An update that begins on a chain keeps it continuous, where the new phase's mutations say at each place no less than the newest version's.
pub fn a_begun_update_keeps_the_whole_chain()
    ensures chain { (below : ℕ → List Mutation) (c : Chain) (newest phase : ℕ) → suc newest ≡ length c.versions → IsChain c →
        c.attached ≡ true → c.updating ≡ None → SaysNoLess (below (phase_at c.versions newest)) (below phase) →
        IsChainContinuous below c → IsChainContinuous below (begin_update phase c) }
    ensures form { (below : ℕ → List Mutation) (c : Chain) (newest phase : ℕ) → suc newest ≡ length c.versions → IsChain c → IsChain (begin_update phase c) }
{}

/// A unit of an update that goes from its place to the next one keeps the whole chain continuous, where the new phase is the old one with
/// the update's mutation.
pub fn a_unit_keeps_the_whole_chain()
    ensures { (below : ℕ → List Mutation) (c : Chain) (front : List Version) (under before now : Version) (change : Mutation) (p q : Place) →
        c.versions ≡ front ++ under ∷ before ∷ [] → IsChain c → c.attached ≡ true → c.updating ≡ Some p → place_cmp p q ≢ Greater →
        IsUnit p q change before now → now.phase ≡ before.phase → SameSource (below under.phase ++ change ∷ []) (below before.phase) →
        IsChainContinuous below c → IsChainContinuous below (with_updating (Some q) (with_versions (front ++ under ∷ now ∷ []) c)) }
{}

/// An update without room, its place behind the head, gives up the rest of the partition: the chain is no longer under update, and stays
/// continuous.
pub fn an_update_given_up_keeps_the_whole_chain()
    ensures { (below : ℕ → List Mutation) (c : Chain) (older : List Version) (before now : Version) (p : Place) → c.versions ≡ older ++ before ∷ [] →
        IsChain c → c.attached ≡ true → c.updating ≡ Some p → place_cmp Head p ≡ Less → IsGivenUp p before now → now.phase ≡ before.phase →
        IsChainContinuous below c → IsChainContinuous below (with_updating None (with_versions (older ++ now ∷ []) c)) }
{}

/// An update that reached the end is over: the chain is no longer under update, and stays continuous.
pub fn an_ended_update_keeps_the_whole_chain()
    ensures chain { (below : ℕ → List Mutation) (c : Chain) (newest : ℕ) → suc newest ≡ length c.versions → IsChain c → c.attached ≡ true → c.updating ≡ Some End →
        IsChainContinuous below c → IsChainContinuous below (with_updating None c) }
    ensures form { (c : Chain) → IsChain c → IsChain (with_updating None c) }
{}
