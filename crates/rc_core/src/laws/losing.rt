//! What eviction does to what is seen through a chain, and that it keeps continuity.

ghost use Rattle.std.specs.Prelude.{◌≡◌, ◌≢◌, ◌++◌, ◌∷◌, [], IsTrue, List, None, Option, Some, ℕ};
ghost use Rattle.rc_mutation.specs.declared.mutations.Mutation.{Mutation};
ghost use Rattle.rc_position.specs.Position.{Clustered, IsBefore, Place};
ghost use Rattle.rc_core.specs.declared.entries.ChainKind.TheVariants.{Cache};
ghost use Rattle.rc_core.specs.SpotState.{SpotState, through};
ghost use Rattle.rc_position.specs.declared.positions.Pos.{Pos};
ghost use Rattle.rc_core.specs.Version.{IsVersion, Version, end_position};
ghost use Rattle.rc_core.specs.Chain.{content, has_flag};
ghost use Rattle.rc_core.specs.Chains.{Chain, IsChainContinuous, IsUpdating, NewestIs, with_versions};
ghost use Rattle.rc_core.specs.AtPlace.{HasEntryAt, IsAtPlace};
ghost use Rattle.rc_core.specs.Continuity.{HoldNoMore, IsContinuous, IsEvicted, IsSameOrLost, SameOrLost, with_entries, without_statics};
ghost use Rattle.rc_core.specs.Change.{drop_at, lose_last_gap};

/// A state that is the same or lost leaves what is seen through the versions around it the same, or Unknown.
pub fn a_lost_state_is_seen_as_unknown_or_not_at_all()
    ensures { (older newer : List SpotState) (before now : SpotState) → SameOrLost before now →
        SameOrLost (through (older ++ before ∷ newer)) (through (older ++ now ∷ newer)) }
{}

/// What is known after a loss was known before, with the same content.
pub fn what_is_known_after_a_loss_was_known_before()
    ensures { (before now : List SpotState) → SameOrLost (through before) (through now) → IsTrue (has_flag Cache now) →
        IsTrue (has_flag Cache before) × (content now ≡ content before) }
{}

/// Where one version lost an object, every version above it is seen as before, or Unknown.
pub fn an_eviction_is_seen_as_same_or_lost()
    ensures { (older newer : List Version) (before now : Version) → IsEvicted before now →
        IsSameOrLost (older ++ before ∷ newer) (older ++ now ∷ newer) }
{}

/// Whatever is the same or lost keeps continuity, where no version holds more than the source.
pub fn a_loss_keeps_continuity()
    ensures { (reach : Option Place) (writes : List Mutation) (before now : List Version) → IsSameOrLost before now →
        HoldNoMore writes now → IsContinuous reach writes before → IsContinuous reach writes now }
{}

/// Each kind of eviction loses or leaves each place of its version: a row entry or an inner dummy taken out, the end dummy, the static row.
pub fn each_eviction_is_one()
    ensures entry { (v : Version) (x : Pos) → IsVersion v → IsBefore x end_position → IsEvicted v (with_entries (drop_at x v.entries) v) }
    ensures end_dummy { (v : Version) → IsEvicted v (with_entries (lose_last_gap v.entries) v) }
    ensures statics { (v : Version) → IsEvicted v (without_statics v) }
{}

/// Eviction from any version of a chain keeps the continuity of it and of each newer version.
pub fn an_eviction_keeps_continuity()
    ensures { (reach : Option Place) (writes : List Mutation) (older newer : List Version) (before now : Version) → IsEvicted before now →
        IsContinuous reach writes (older ++ before ∷ newer) → IsContinuous reach writes (older ++ now ∷ newer) }
{}

/// Whatever loses one object of a version, and leaves the version under update at the update's place, keeps the continuity of the whole chain.
pub fn an_eviction_keeps_the_whole_chain()
    ensures { (below : ℕ → List Mutation) (c : Chain) (front back : List Version) (before now : Version) → c.versions ≡ front ++ before ∷ back →
        IsEvicted before now → now.phase ≡ before.phase →
        ((p : Place) → c.updating ≡ Some p → NewestIs (IsAtPlace p) (front ++ now ∷ back)) →
        IsChainContinuous below c → IsChainContinuous below (with_versions (front ++ now ∷ back) c) }
{}

/// Each eviction that may happen keeps the continuity of the whole chain: of a row entry or an inner dummy, but for the dummy at the update's
/// place; of an end dummy, but for that of the version under update; of a static row.
pub fn each_eviction_keeps_the_whole_chain()
    ensures entry { (below : ℕ → List Mutation) (c : Chain) (front back : List Version) (v : Version) → c.versions ≡ front ++ v ∷ back → IsChainContinuous below c →
        (x : Pos) → IsVersion v → HasEntryAt x v.entries → IsBefore x end_position → (back ≡ [] → c.updating ≢ Some (Clustered x)) →
        IsChainContinuous below (with_versions (front ++ with_entries (drop_at x v.entries) v ∷ back) c) }
    ensures end_dummy { (below : ℕ → List Mutation) (c : Chain) (front back : List Version) (v : Version) → c.versions ≡ front ++ v ∷ back → IsChainContinuous below c →
        (back ≡ [] → IsUpdating c.updating → ⊥) → IsChainContinuous below (with_versions (front ++ with_entries (lose_last_gap v.entries) v ∷ back) c) }
    ensures statics { (below : ℕ → List Mutation) (c : Chain) (front back : List Version) (v : Version) → c.versions ≡ front ++ v ∷ back → IsChainContinuous below c →
        v.statics ≢ None → IsChainContinuous below (with_versions (front ++ without_statics v ∷ back) c) }
{}
