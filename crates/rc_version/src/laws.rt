//! The laws of versions in a region, each the contract of a function that does nothing.
ghost use Rattle.std.specs.Prelude.{◌≡◌, ◌≢◌, ◌↔◌, ◌∷◌, ◌++◌, List, Option, map, Contains};
ghost use Rattle.rc_position.specs.declared.positions.Pos.{Pos};
ghost use Rattle.lsa_store.specs.declared.place.Ref.{Ref};
ghost use Rattle.lsa_region.specs.declared.end.End.{End};
ghost use Rattle.lsa_region.specs.Ends.{named_as};
ghost use Rattle.lsa_region.specs.Region.{View, body, link_of, IsWell, Renamed};
ghost use Rattle.rc_cell.specs.declared.writes.Tomb.{Tomb};
ghost use Rattle.rc_core.specs.AtPlace.{HasEntryAt};
ghost use Rattle.rc_core.specs.Change.{drop_at, gap_split};
ghost use Rattle.rc_core.specs.Continuity.{with_entries};
ghost use Rattle.rc_core.specs.declared.entries.Entry.{Entry};
ghost use Rattle.rc_core.specs.Steps.{range_joined};
ghost use Rattle.rc_core.specs.Version.{Behind, On, Spot, Version, IsBeforeEnd, IsVersion, finding_in, spot_cmp};
ghost use Rattle.std.specs.Prelude.{ℕ};
ghost use Rattle.std.specs.declared.cmp.Ordering.TheVariants.{Less};
ghost use Rattle.rc_object.specs.Objects.{IsMade};
ghost use Rattle.rc_version.specs.Versions.{IsKeptBeside, IsOutward, IsSplit, IsVersionOf, raised_between};

/// An object is one version, and these objects hold its entries.
pub fn an_object_is_one_version()
    ensures objects { (v : View) (n : Ref) (refs others : List Ref) (c d : Version) → IsVersionOf v n refs c → IsVersionOf v n others d → refs ≡ others }
    ensures value { (v : View) (n : Ref) (refs others : List Ref) (c d : Version) → IsVersionOf v n refs c → IsVersionOf v n others d → c ≡ d }
{}

/// Two versions have no entry in common.
pub fn two_versions_share_no_entry()
    ensures { (v : View) (m n : Ref) (refs others : List Ref) (c d : Version) (r : Ref) → IsWell v → m ≢ n → IsVersionOf v m refs c → IsVersionOf v n others d → Contains refs r → Contains others r → ⊥ }
{}

/// After objects moved, a version is the same one under new names.
pub fn a_moved_version_is_the_same_one()
    ensures { (old new : View) (names : List (Ref × Ref)) (n : Ref) (refs : List Ref) (c : Version) → Renamed old new names → IsWell old → IsVersionOf old n refs c → IsVersionOf new (named_as names n) (map (named_as names) refs) c }
{}

/// A version stays where links outward change, as those of lists and chains are, and where an object is made.
pub fn a_version_stays_beside_other_changes()
    ensures links { (old new : View) (n : Ref) (refs : List Ref) (c : Version) → ((e : End) → (IsOutward e → ⊥) → link_of new e ≡ link_of old e) → ((r : Ref) → body new r ≡ body old r) → IsVersionOf old n refs c → IsVersionOf new n refs c }
    ensures made { (S : ℕ) (old new : View) (r : Ref) (size : ℕ) (n : Ref) (refs : List Ref) (c : Version) → IsMade S old new r size → IsVersionOf old n refs c → IsVersionOf new n refs c }
{}

/// What two changes of a version keep, both together keep.
pub fn what_each_change_keeps_all_keep()
    ensures { (n : Ref) (old mid new : View) (these : List Ref) → IsKeptBeside (Contains these) n old mid → IsKeptBeside (Contains these) n mid new → IsKeptBeside (Contains these) n old new }
{}

/// A split changes no answer at any position, and over no gap.
pub fn a_split_changes_no_answer()
    ensures { (S : ℕ) (old new : View) (n : Ref) (x : Pos) (r : Ref) (refs : List Ref) (c : Version) → IsSplit S old new n x r → IsVersionOf old n refs c →
        (now : List Ref) × (d : Version) × IsVersionOf new n now d × ((s : Spot) → finding_in s d.entries ≡ finding_in s c.entries) }
{}

/// An entry that is dropped changes no answer before the one in front of it, nor at it, and none from the next one on.
pub fn a_dropped_entry_changes_answers_between_its_neighbours()
    ensures before { (c : Version) (s : Spot) (front : List Entry) (e next : Entry) (back : List Entry) (v : View) (n : Ref) (refs : List Ref) → IsVersionOf v n refs c → c.entries ≡ front ++ (e ∷ next ∷ back) → IsBeforeEnd s front → finding_in s (drop_at e.position c.entries) ≡ finding_in s c.entries }
    ensures behind { (c : Version) (s : Spot) (front : List Entry) (e next : Entry) (back : List Entry) (v : View) (n : Ref) (refs : List Ref) → IsVersionOf v n refs c → c.entries ≡ front ++ (e ∷ next ∷ back) → spot_cmp s next.position ≢ Less → finding_in s (drop_at e.position c.entries) ≡ finding_in s c.entries }
{}

/// To join a range tombstone is to split at both of its ends, and to raise the tombstones between the entries that stand there then.
pub fn a_joined_range_is_split_and_raised()
    ensures { (from to : Pos) (tomb : Tomb) (c : Version) → range_joined from to tomb c ≡ raised_between from to tomb (with_entries (gap_split to (gap_split from c.entries)) c) }
{}

/// An entry of a version stands at a position exactly where a split there makes none.
pub fn an_entry_stands_where_a_split_makes_none()
    ensures { (c : Version) (x : Pos) → IsVersion c → HasEntryAt x c.entries ↔ (gap_split x c.entries ≡ c.entries) }
{}
