//! What the cleaner and an update do to what is seen.

ghost use Rattle.std.specs.Prelude.{◌≡◌, ◌++◌, ◌∷◌, [], ℕ, List, Option};
ghost use Rattle.std.specs.Option.{option_to_list};
ghost use Rattle.rc_cell.specs.declared.rows.Row.{Row};
ghost use Rattle.rc_cell.specs.declared.writes.Tomb.{Tomb};
ghost use Rattle.rc_cell.specs.Orders.{tomb_cmp};
ghost use Rattle.rc_cell.specs.Winner.{greatest, joined_row};
ghost use Rattle.rc_position.specs.declared.positions.Pos.{Pos};
ghost use Rattle.rc_position.specs.Position.{Place};
ghost use Rattle.rc_mutation.specs.declared.mutations.Mutation.{Mutation};
ghost use Rattle.rc_mutation.specs.Source.{source_at};
ghost use Rattle.rc_core.specs.declared.entries.ChainKind.{ChainKind};
ghost use Rattle.rc_core.specs.declared.entries.Flag.TheVariants.{Inherit};
ghost use Rattle.rc_core.specs.SpotState.{SpotState, spot_state};
ghost use Rattle.rc_core.specs.Version.{Spot, Version};
ghost use Rattle.rc_core.specs.Chain.{IsKnown, states_at, content, has_flag};
ghost use Rattle.rc_core.specs.Continuity.{HoldNoMore, IsContinuous};
ghost use Rattle.rc_core.specs.Merge.{IsMerged, IsSeenAlike, IsSilent, new_version};

/// A unit that puts states of a version down under those of the next newer one changes nothing that is seen through any newer version.
pub fn a_merged_unit_changes_nothing()
    ensures { (front back : List Version) (older newer older_after newer_after : Version) → IsMerged older newer older_after newer_after →
        IsSeenAlike (front ++ older ∷ newer ∷ back) (front ++ older_after ∷ newer_after ∷ back) }
{}

/// A version that says nothing may be dropped where the next newer one has its partition tombstone: nothing that is seen changes.
pub fn a_dropped_version_changes_nothing()
    ensures { (front back : List Version) (v next : Version) → IsSilent v →
        greatest tomb_cmp (option_to_list v.pt ++ option_to_list next.pt) ≡ greatest tomb_cmp (option_to_list next.pt) →
        IsSeenAlike (front ++ v ∷ next ∷ back) (front ++ next ∷ back) }
{}

/// A new version says nothing.
pub fn a_new_version_says_nothing()
    ensures { (pt : Option Tomb) (phase : ℕ) → IsSilent (new_version pt phase) }
{}

/// What is seen alike is known and contains what it did.
pub fn what_is_seen_alike_is_known_as_before()
    ensures known { (kind : ChainKind) (before now : List Version) (x : Pos) → IsSeenAlike before now → IsKnown kind before x → IsKnown kind now x }
    ensures content { (before now : List Version) (s : Spot) → IsSeenAlike before now → content (states_at s now) ≡ content (states_at s before) }
{}

/// What is seen alike keeps continuity, where no version holds more than the source.
pub fn what_is_seen_alike_keeps_continuity()
    ensures { (reach : Option Place) (writes : List Mutation) (before now : List Version) → IsSeenAlike before now →
        HoldNoMore writes now → IsContinuous reach writes before → IsContinuous reach writes now }
{}

/// Where the newest version says Inherit and holds what a further mutation says at a position, it is flagged as below, and its content is
/// the source of both where it was the source below.
pub fn an_update_joins_its_mutation()
    ensures flagged { (kind : ChainKind) (below : List SpotState) (rows : List Row) (tombs : List Tomb) →
        has_flag kind (below ++ spot_state Inherit rows tombs ∷ []) ≡ has_flag kind below }
    ensures content { (writes : List Mutation) (change : Mutation) (x : Pos) (below : List SpotState) (rows : List Row) (tombs : List Tomb) →
        content below ≡ source_at writes x → (joined_row rows, greatest tomb_cmp tombs) ≡ source_at (change ∷ []) x →
        content (below ++ spot_state Inherit rows tombs ∷ []) ≡ source_at (writes ++ change ∷ []) x }
{}

/// A unit of merging keeps the continuity of each version from the newer of the two on.
pub fn a_merged_unit_keeps_continuity()
    ensures { (reach : Option Place) (writes : List Mutation) (front back : List Version) (older newer older_after newer_after : Version) →
        IsMerged older newer older_after newer_after → IsContinuous reach writes (front ++ older ∷ newer ∷ back) →
        IsContinuous reach writes (front ++ older_after ∷ newer_after ∷ back) }
{}

/// Dropping a version that says nothing keeps the continuity of each newer version, where the next one has its partition tombstone.
pub fn a_dropped_version_keeps_continuity()
    ensures { (reach : Option Place) (writes : List Mutation) (front back : List Version) (v next : Version) → IsSilent v →
        greatest tomb_cmp (option_to_list v.pt ++ option_to_list next.pt) ≡ greatest tomb_cmp (option_to_list next.pt) →
        IsContinuous reach writes (front ++ v ∷ next ∷ back) → IsContinuous reach writes (front ++ next ∷ back) }
{}
