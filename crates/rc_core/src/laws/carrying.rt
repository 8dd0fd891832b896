//! Carried positions stay carried: those that are known in the version which a snapshot pins and, before the update's place, in the
//! newest too.

ghost use Rattle.std.specs.Prelude.{◌≡◌, ◌≢◌, ◌++◌, ◌∷◌, [], ℕ, true, List, None, Option, Some, length};
ghost use Rattle.std.specs.Option.{option_to_list};
ghost use Rattle.rc_cell.specs.declared.rows.Row.{Row};
ghost use Rattle.rc_cell.specs.declared.writes.Tomb.{Tomb};
ghost use Rattle.rc_cell.specs.Orders.{tomb_cmp};
ghost use Rattle.rc_cell.specs.Winner.{empty_row, greatest};
ghost use Rattle.rc_position.specs.declared.positions.Pos.{Pos};
ghost use Rattle.rc_position.specs.Position.{End, Place, covers};
ghost use Rattle.rc_mutation.specs.declared.mutations.Mutation.{Mutation};
ghost use Rattle.rc_mutation.specs.Source.{source_at};
ghost use Rattle.rc_core.specs.Chains.{Chain, IsChainContinuous, IsNeeded, phase_at, with_versions};
ghost use Rattle.rc_core.specs.Continuity.{fill_statics};
ghost use Rattle.rc_core.specs.Merge.{IsMerged, IsSilent};
ghost use Rattle.rc_core.specs.Steps.{IsCarriedIn, IsChain, MayPopulate, begin_update, drop_version, gap_filled, row_filled, with_newest, with_updating};
ghost use Rattle.rc_core.specs.Unit.{IsUnit};
ghost use Rattle.rc_core.specs.Version.{Version};

/// A filled gap is carried, and what was carried is carried after it.
pub fn a_filled_gap_is_carried()
    ensures filled { (c : Chain) (pin : ℕ) → MayPopulate c pin → IsChain c → (from to : Pos) (tomb : Option Tomb) (x : Pos) →
        covers from to x ≡ true → IsCarriedIn (with_newest (gap_filled from to tomb) c) x }
    ensures kept { (c : Chain) (pin : ℕ) → MayPopulate c pin → IsChain c → (from to : Pos) (tomb : Option Tomb) (x : Pos) →
        IsCarriedIn c x → IsCarriedIn (with_newest (gap_filled from to tomb) c) x }
{}

/// A filled row, not an empty one, is carried at its position, and what was carried is carried after it.
pub fn a_filled_row_is_carried()
    ensures filled { (c : Chain) (pin : ℕ) → MayPopulate c pin → IsChain c → (below : ℕ → List Mutation) (p : Pos) (row : Row) (tomb : Option Tomb) →
        source_at (below (phase_at c.versions pin)) p ≡ (row, tomb) → row ≢ empty_row → IsChainContinuous below c →
        IsCarriedIn (with_newest (row_filled p row tomb) c) p }
    ensures kept { (c : Chain) (pin : ℕ) → MayPopulate c pin → IsChain c → (below : ℕ → List Mutation) (p : Pos) (row : Row) (tomb : Option Tomb) →
        source_at (below (phase_at c.versions pin)) p ≡ (row, tomb) → row ≢ empty_row → IsChainContinuous below c →
        (x : Pos) → IsCarriedIn c x → IsCarriedIn (with_newest (row_filled p row tomb) c) x }
{}

/// What was carried is carried after a filled static row.
pub fn a_filled_static_row_keeps_what_is_carried()
    ensures { (c : Chain) (pin : ℕ) → MayPopulate c pin → IsChain c → (given : Option Row) (x : Pos) →
        IsCarriedIn c x → IsCarriedIn (with_newest (fill_statics given) c) x }
{}

/// What was carried is carried after a unit of merging.
pub fn a_merged_unit_keeps_what_is_carried()
    ensures { (c : Chain) (front back : List Version) (older newer older_after newer_after : Version) (x : Pos) →
        c.versions ≡ front ++ older ∷ newer ∷ back → (IsNeeded c (length front) → ⊥) → IsMerged older newer older_after newer_after →
        IsCarriedIn c x → IsCarriedIn (with_versions (front ++ older_after ∷ newer_after ∷ back) c) x }
{}

/// What was carried is carried after a version that says nothing was dropped.
pub fn a_dropped_version_keeps_what_is_carried()
    ensures { (c : Chain) (front back : List Version) (v next : Version) (x : Pos) →
        c.versions ≡ front ++ v ∷ next ∷ back → (IsNeeded c (length front) → ⊥) → IsSilent v →
        greatest tomb_cmp (option_to_list v.pt ++ option_to_list next.pt) ≡ greatest tomb_cmp (option_to_list next.pt) →
        IsCarriedIn c x → IsCarriedIn (drop_version (length front) c) x }
{}

/// What was carried is carried after each step of an update with room: its begin, a unit, its end.
pub fn an_update_keeps_what_is_carried()
    ensures begin { (c : Chain) (phase : ℕ) (x : Pos) → c.updating ≡ None → IsCarriedIn c x → IsCarriedIn (begin_update phase c) x }
    ensures unit { (c : Chain) (older : List Version) (before now : Version) (change : Mutation) (p q : Place) (x : Pos) →
        c.versions ≡ older ++ before ∷ [] → c.updating ≡ Some p → IsUnit p q change before now →
        IsCarriedIn c x → IsCarriedIn (with_updating (Some q) (with_versions (older ++ now ∷ []) c)) x }
    ensures end { (c : Chain) (x : Pos) → c.updating ≡ Some End → IsCarriedIn c x → IsCarriedIn (with_updating None c) x }
{}
