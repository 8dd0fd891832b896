//! What each change of a version's entries does to what the version says of each spot.

ghost use Rattle.std.specs.declared.cmp.Ordering.TheVariants.{Less};
ghost use Rattle.std.specs.Prelude.{◌≡◌, ◌≢◌, ◌++◌, ◌∷◌, List, Option, None, Some, cond, ◌⊎◌};
ghost use Rattle.rc_cell.specs.declared.rows.Row.{Row};
ghost use Rattle.rc_cell.specs.Greatest.{greater};
ghost use Rattle.rc_cell.specs.Orders.{tomb_cmp};
ghost use Rattle.rc_cell.specs.Winner.{greatest};
ghost use Rattle.rc_core.specs.Continuity.{version_tombs, with_entries};
ghost use Rattle.rc_core.specs.Steps.{join_pt};
ghost use Rattle.rc_cell.specs.declared.writes.Tomb.{Tomb};
ghost use Rattle.rc_position.specs.declared.positions.Pos.{Pos};
ghost use Rattle.rc_position.specs.Position.{IsBefore, covers};
ghost use Rattle.rc_core.specs.declared.entries.Entry.{Entry};
ghost use Rattle.rc_core.specs.declared.entries.Flag.TheVariants.{Known};
ghost use Rattle.rc_core.specs.declared.entries.Mark.{Mark};
ghost use Rattle.rc_core.specs.Version.{Ascend, Behind, EndsWithDummy, IsBeforeEnd, IsVersion, On, Spot, Version, state_at, end_position, finding_of, finding_in, spot_cmp, static_state};
ghost use Rattle.rc_core.specs.Change.{change, drop_at, fill_gap, fill_row, gap_split, join_range, join_row_at, joined_onto, known_with, lose_last_gap, lost_mark, mark, position_of, raised_mark, take_out};

/// The entries of a version reach every position, and every gap behind a position before the end.
pub fn every_spot_is_reached()
    ensures position { (x : Pos) (entries : List Entry) → EndsWithDummy entries → IsBeforeEnd (On x) entries }
    ensures gap { (x : Pos) (entries : List Entry) → EndsWithDummy entries → IsBefore x end_position → IsBeforeEnd (Behind x) entries }
{}

/// A split changes nothing that is said anywhere.
pub fn a_split_changes_nothing()
    ensures { (s : Spot) (x : Pos) (entries : List Entry) → finding_in s (gap_split x entries) ≡ finding_in s entries }
{}

/// A change puts its function on the flag and the tombstone of each spot from its start on and before its end, and on no other.
pub fn a_change_is_its_function_inside()
    ensures { (f : Mark → Mark) (s : Spot) (from to : Pos) (entries : List Entry) → IsBeforeEnd s entries →
        finding_in s (change f from to entries) ≡ cond (covers from to (position_of s)) (finding_of (f (finding_in s entries).mark) (finding_in s entries).row) (finding_in s entries) }
{}

/// A joined range raises the tombstone inside, and leaves flags, rows and all outside.
pub fn a_joined_range_raises_the_tombstone()
    ensures { (s : Spot) (from to : Pos) (tomb : Tomb) (entries : List Entry) → IsBeforeEnd s entries →
        finding_in s (join_range from to tomb entries) ≡ cond (covers from to (position_of s)) (finding_of (raised_mark (Some tomb) (finding_in s entries).mark) (finding_in s entries).row) (finding_in s entries) }
{}

/// A filled gap is known inside with its tombstone, and all outside is as before.
pub fn a_filled_gap_is_known()
    ensures { (s : Spot) (from to : Pos) (tomb : Option Tomb) (entries : List Entry) → IsBeforeEnd s entries →
        finding_in s (fill_gap from to tomb entries) ≡ cond (covers from to (position_of s)) (finding_of (mark Known tomb) (finding_in s entries).row) (finding_in s entries) }
{}

/// A joined row is joined at its position, where flag and tombstone stay; at every other spot nothing changes.
pub fn a_joined_row_is_joined_at_its_position()
    ensures there { (x : Pos) (row : Row) (entries : List Entry) → EndsWithDummy entries →
        finding_in (On x) (join_row_at x row entries) ≡ finding_of (finding_in (On x) entries).mark (Some (joined_onto (finding_in (On x) entries).row row)) }
    ensures elsewhere { (s : Spot) (x : Pos) (row : Row) (entries : List Entry) → s ≢ On x → finding_in s (join_row_at x row entries) ≡ finding_in s entries }
{}

/// A filled row is joined at its position and known there, its tombstone joined; at every other spot nothing changes.
pub fn a_filled_row_is_known_at_its_position()
    ensures there { (x : Pos) (row : Row) (tomb : Option Tomb) (entries : List Entry) → EndsWithDummy entries →
        finding_in (On x) (fill_row x row tomb entries) ≡ finding_of (known_with tomb (finding_in (On x) entries).mark) (Some (joined_onto (finding_in (On x) entries).row row)) }
    ensures elsewhere { (s : Spot) (x : Pos) (row : Row) (tomb : Option Tomb) (entries : List Entry) → s ≢ On x → finding_in s (fill_row x row tomb entries) ≡ finding_in s entries }
{}

/// Where an entry before the end is taken out, each spot is as before, or it is Unknown with nothing held there. Lost are exactly the
/// spots from the entry before it on up to the next one, both not included.
pub fn a_dropped_entry_is_same_or_lost()
    ensures each { (s : Spot) (x : Pos) (entries : List Entry) → Ascend entries → EndsWithDummy entries → IsBefore x end_position →
        (finding_in s (drop_at x entries) ≡ finding_in s entries) ⊎ (finding_in s (drop_at x entries) ≡ finding_of lost_mark None) }
    ensures lost { (s : Spot) (front : List Entry) (e next : Entry) (back : List Entry) → Ascend (front ++ e ∷ next ∷ back) →
        (IsBeforeEnd s front → ⊥) → spot_cmp s next.position ≡ Less →
        finding_in s (drop_at e.position (front ++ e ∷ next ∷ back)) ≡ finding_of lost_mark None }
    ensures before { (s : Spot) (front : List Entry) (e next : Entry) (back : List Entry) → Ascend (front ++ e ∷ next ∷ back) →
        IsBeforeEnd s front → finding_in s (drop_at e.position (front ++ e ∷ next ∷ back)) ≡ finding_in s (front ++ e ∷ next ∷ back) }
    ensures behind { (s : Spot) (front : List Entry) (e next : Entry) (back : List Entry) → Ascend (front ++ e ∷ next ∷ back) →
        spot_cmp s next.position ≢ Less → finding_in s (drop_at e.position (front ++ e ∷ next ∷ back)) ≡ finding_in s (front ++ e ∷ next ∷ back) }
{}

/// Where an entry before the end is taken out, and the gap before the next one gets a mark, exactly the spots from the entry before it on
/// up to the next one, both not included, have this mark and no row.
pub fn a_taken_out_entry_leaves_the_mark()
    ensures between { (m : Mark) (s : Spot) (front : List Entry) (e next : Entry) (back : List Entry) → Ascend (front ++ e ∷ next ∷ back) →
        (IsBeforeEnd s front → ⊥) → spot_cmp s next.position ≡ Less →
        finding_in s (take_out m e.position (front ++ e ∷ next ∷ back)) ≡ finding_of m None }
    ensures before { (m : Mark) (s : Spot) (front : List Entry) (e next : Entry) (back : List Entry) → Ascend (front ++ e ∷ next ∷ back) →
        IsBeforeEnd s front → finding_in s (take_out m e.position (front ++ e ∷ next ∷ back)) ≡ finding_in s (front ++ e ∷ next ∷ back) }
    ensures behind { (m : Mark) (s : Spot) (front : List Entry) (e next : Entry) (back : List Entry) → Ascend (front ++ e ∷ next ∷ back) →
        spot_cmp s next.position ≢ Less → finding_in s (take_out m e.position (front ++ e ∷ next ∷ back)) ≡ finding_in s (front ++ e ∷ next ∷ back) }
{}

/// Each change of a version's entries leaves those of a version: they ascend, and the last one is the end dummy. A row stands before the end.
pub fn each_change_leaves_a_version()
    ensures stretch { (f : Mark → Mark) (from to : Pos) (v : Version) → IsVersion v → IsVersion (with_entries (change f from to v.entries) v) }
    ensures split { (x : Pos) (v : Version) → IsVersion v → IsVersion (with_entries (gap_split x v.entries) v) }
    ensures joined { (x : Pos) (row : Row) (v : Version) → IsBefore x end_position → IsVersion v → IsVersion (with_entries (join_row_at x row v.entries) v) }
    ensures filled { (x : Pos) (row : Row) (tomb : Option Tomb) (v : Version) → IsBefore x end_position → IsVersion v →
        IsVersion (with_entries (fill_row x row tomb v.entries) v) }
    ensures taken_out { (m : Mark) (x : Pos) (v : Version) → IsBefore x end_position → IsVersion v → IsVersion (with_entries (take_out m x v.entries) v) }
    ensures end_dummy { (v : Version) → IsVersion v → IsVersion (with_entries (lose_last_gap v.entries) v) }
{}

/// A joined partition tombstone raises that of each newer version, and changes nothing that is said elsewhere.
pub fn a_joined_partition_tombstone_raises_the_head()
    ensures head { (older newer : List Version) (v : Version) (tomb : Tomb) →
        greatest tomb_cmp (version_tombs (older ++ join_pt tomb v ∷ newer)) ≡ greater tomb_cmp (greatest tomb_cmp (version_tombs (older ++ v ∷ newer))) (Some tomb) }
    ensures elsewhere { (v : Version) (tomb : Tomb) (s : Spot) → state_at s (join_pt tomb v) ≡ state_at s v }
    ensures statics { (v : Version) (tomb : Tomb) → static_state (join_pt tomb v) ≡ static_state v }
{}

/// Where the gap before the end dummy is lost, each spot is as before, or it is Unknown with nothing held there.
pub fn an_evicted_end_dummy_is_same_or_lost()
    ensures { (s : Spot) (entries : List Entry) →
        (finding_in s (lose_last_gap entries) ≡ finding_in s entries) ⊎ (finding_in s (lose_last_gap entries) ≡ finding_of lost_mark None) }
{}
