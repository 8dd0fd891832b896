//! The version under update at the update's place: it holds of a new version, after a unit, and after each eviction that may happen, and it is
//! all that is asked of such a version.

ghost use Rattle.std.specs.declared.cmp.Ordering.TheVariants.{Less};
ghost use Rattle.std.specs.Prelude.{◌≡◌, ◌≢◌, ◌++◌, ◌∷◌, [], ℕ, List, None};
ghost use Rattle.rc_position.specs.declared.positions.Pos.{Pos};
ghost use Rattle.rc_position.specs.Position.{Clustered, Head, IsBefore, Place, place_cmp};
ghost use Rattle.rc_core.specs.AtPlace.{HasEntryAt, IsAtPlace};
ghost use Rattle.rc_core.specs.SpotState.{through};
ghost use Rattle.rc_core.specs.Chain.{states_at};
ghost use Rattle.rc_core.specs.Change.{drop_at, position_of};
ghost use Rattle.rc_core.specs.Continuity.{with_entries, without_statics};
ghost use Rattle.rc_core.specs.Merge.{new_version};
ghost use Rattle.rc_core.specs.Version.{IsVersion, Spot, Version, end_position};

/// A new version over the others stands at the head.
pub fn a_new_version_stands_at_the_head()
    ensures { (phase : ℕ) → IsAtPlace Head (new_version None phase) }
{}

/// A version at the update's place stays there where a row entry or an inner dummy goes, but for the dummy at the place, and where its static row goes.
pub fn an_eviction_leaves_a_version_at_its_place()
    ensures entry { (p : Place) (v : Version) (x : Pos) → IsVersion v → HasEntryAt x v.entries → IsBefore x end_position → p ≢ Clustered x →
        IsAtPlace p v → IsAtPlace p (with_entries (drop_at x v.entries) v) }
    ensures statics { (p : Place) (v : Version) → v.statics ≢ None → IsAtPlace p v → IsAtPlace p (without_statics v) }
{}

/// Behind the place no entry stands but the end dummy. So a dummy there, which could be evicted and would leave an Unknown, is refused.
pub fn no_dummy_stands_behind_the_place()
    ensures { (p x : Pos) (v : Version) → IsAtPlace (Clustered p) v → HasEntryAt x v.entries → IsBefore p x → x ≡ end_position }
{}

/// From the place on, over the gap right behind it too, the version under update is seen through. So a tombstone on a gap there is refused, also
/// where no position can stand in that gap.
pub fn from_the_place_on_the_older_versions_are_seen()
    ensures { (p : Place) (older : List Version) (v : Version) (s : Spot) → IsAtPlace p v → (place_cmp (Clustered (position_of s)) p ≡ Less → ⊥) →
        through (states_at s (older ++ v ∷ [])) ≡ through (states_at s older) }
{}
