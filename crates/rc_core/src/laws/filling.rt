//! What a fill of the newest version does: what was filled is known, all else is seen as before, and continuity is kept.

ghost use Rattle.std.specs.Prelude.{◌≡◌, ◌≢◌, ◌++◌, ◌∷◌, [], IsTrue, List, None, Option, true, false};
ghost use Rattle.rc_cell.specs.declared.writes.Tomb.{Tomb};
ghost use Rattle.std.specs.Option.{option_to_list};
ghost use Rattle.rc_cell.specs.declared.rows.Row.{Row};
ghost use Rattle.rc_cell.specs.Winner.{empty_row, joined_row};
ghost use Rattle.rc_position.specs.declared.positions.Pos.{Pos};
ghost use Rattle.rc_position.specs.Position.{covers};
ghost use Rattle.rc_mutation.specs.declared.mutations.Mutation.{Mutation};
ghost use Rattle.rc_mutation.specs.Source.{source_at, source_at_static};
ghost use Rattle.rc_core.specs.declared.entries.ChainKind.TheVariants.{Cache};
ghost use Rattle.rc_core.specs.SpotState.{through};
ghost use Rattle.rc_core.specs.Version.{IsBeforeEnd, IsVersion, On, Spot, Version};
ghost use Rattle.rc_core.specs.Chain.{IsKnown, states_at, has_flag};
ghost use Rattle.rc_core.specs.Change.{fill_gap, fill_row, position_of};
ghost use Rattle.rc_core.specs.Continuity.{IsContinuous, fill_statics, static_states, with_entries};

/// A gap filled into the newest version: each position inside is known, and every spot outside is seen as before.
pub fn a_filled_gap_is_seen_as_known()
    ensures inside { (older : List Version) (v : Version) (from to : Pos) (tomb : Option Tomb) → IsVersion v →
        (x : Pos) → covers from to x ≡ true → IsKnown Cache (older ++ with_entries (fill_gap from to tomb v.entries) v ∷ []) x }
    ensures outside { (older : List Version) (v : Version) (from to : Pos) (tomb : Option Tomb) → IsVersion v →
        (s : Spot) → IsBeforeEnd s v.entries → covers from to (position_of s) ≡ false →
        through (states_at s (older ++ with_entries (fill_gap from to tomb v.entries) v ∷ [])) ≡ through (states_at s (older ++ v ∷ [])) }
{}

/// A gap filled into the newest version keeps its continuity, where the source has no row and this tombstone at each position inside.
pub fn a_filled_gap_keeps_continuity()
    ensures { (writes : List Mutation) (older : List Version) (v : Version) (from to : Pos) (tomb : Option Tomb) → IsVersion v →
        ((x : Pos) → covers from to x ≡ true → source_at writes x ≡ (empty_row, tomb)) →
        IsContinuous None writes (older ++ v ∷ []) →
        IsContinuous None writes (older ++ with_entries (fill_gap from to tomb v.entries) v ∷ []) }
{}

/// A row filled into the newest version, not an empty one: its position is known, and every other spot is seen as before.
pub fn a_filled_row_is_seen_as_known()
    ensures there { (writes : List Mutation) (older : List Version) (v : Version) (p : Pos) (row : Row) (tomb : Option Tomb) → IsVersion v →
        source_at writes p ≡ (row, tomb) → row ≢ empty_row → IsContinuous None writes (older ++ v ∷ []) →
        IsKnown Cache (older ++ with_entries (fill_row p row tomb v.entries) v ∷ []) p }
    ensures elsewhere { (older : List Version) (v : Version) (p : Pos) (row : Row) (tomb : Option Tomb) → IsVersion v → (s : Spot) → s ≢ On p →
        through (states_at s (older ++ with_entries (fill_row p row tomb v.entries) v ∷ [])) ≡ through (states_at s (older ++ v ∷ [])) }
{}

/// A row filled into the newest version keeps its continuity, where it and its tombstone are the source there and it is not empty.
pub fn a_filled_row_keeps_continuity()
    ensures { (writes : List Mutation) (older : List Version) (v : Version) (p : Pos) (row : Row) (tomb : Option Tomb) → IsVersion v →
        source_at writes p ≡ (row, tomb) → row ≢ empty_row → IsContinuous None writes (older ++ v ∷ []) →
        IsContinuous None writes (older ++ with_entries (fill_row p row tomb v.entries) v ∷ []) }
{}

/// A static row filled into the newest version is known, also where there is nothing to fill, and keeps its continuity.
pub fn a_filled_static_row_is_known_and_keeps_continuity()
    ensures known { (older : List Version) (v : Version) (given : Option Row) → IsTrue (has_flag Cache (static_states (older ++ fill_statics given v ∷ []))) }
    ensures kept { (writes : List Mutation) (older : List Version) (v : Version) (given : Option Row) →
        joined_row (option_to_list given) ≡ source_at_static writes → IsContinuous None writes (older ++ v ∷ []) →
        IsContinuous None writes (older ++ fill_statics given v ∷ []) }
{}
