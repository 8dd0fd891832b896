//! What a unit of the cleaner leaves: it changes nothing that is seen, and without room it loses what it takes out.

ghost use Rattle.std.specs.declared.cmp.Ordering.TheVariants.{Greater, Less};
ghost use Rattle.std.specs.Prelude.{◌≡◌, ◌≢◌, ◌++◌, ◌∷◌, [], ℕ, List, None, length};
ghost use Rattle.rc_position.specs.Position.{IsBefore, pos_cmp};
ghost use Rattle.rc_core.specs.declared.entries.ChainKind.{ChainKind};
ghost use Rattle.rc_core.specs.declared.entries.ChainKind.TheVariants.{Memtable};
ghost use Rattle.rc_core.specs.declared.entries.Entry.{Entry};
ghost use Rattle.rc_core.specs.SpotState.{under};
ghost use Rattle.rc_core.specs.Version.{Ascend, EndsWithDummy, Finding, IsVersion, Spot, Version, state_of, finding_of, finding_in, spot_cmp};
ghost use Rattle.rc_core.specs.Change.{lose_first_gap, lost_mark};
ghost use Rattle.rc_core.specs.Continuity.{EachOf, with_entries};
ghost use Rattle.rc_core.specs.Merge.{Alike, IsMerged, IsSeenAlike, IsSilent};
ghost use Rattle.rc_units.specs.Clean.{clean_times, cleaned_versions, cleaned_without_room, emptied_version, end_merged, entry_onto, gap_said, merge_entry, statics_onto, statics_said, units_of};
ghost use Rattle.rc_core.specs.Plain.{found_under, no_mark};

/// What two versions say of a spot, the older one's put under the newer one's, says what is seen through both.
pub fn one_state_goes_under_another()
    ensures { (older newer : Finding) → Alike (state_of (found_under older newer)) (under (state_of older) (state_of newer)) }
{}

/// With the first entry of the older version, each spot before its successor is put under the newer version's, and says nothing more in the
/// older one; from the successor on both are as before.
pub fn a_merged_entry_goes_under_up_to_its_successor()
    ensures newer { (s : Spot) (e n : Entry) (back newer : List Entry) → Ascend (e ∷ n ∷ back) → EndsWithDummy newer → spot_cmp s n.position ≡ Less →
        finding_in s (merge_entry e n newer) ≡ found_under (finding_in s (e ∷ n ∷ back)) (finding_in s newer) }
    ensures older { (s : Spot) (n : Entry) (back : List Entry) → spot_cmp s n.position ≡ Less → finding_in s (gap_said n ∷ back) ≡ finding_of no_mark None }
    ensures behind { (s : Spot) (e n : Entry) (back newer : List Entry) → Ascend (e ∷ n ∷ back) → spot_cmp s n.position ≢ Less →
        (finding_in s (merge_entry e n newer) ≡ finding_in s newer) × (finding_in s (gap_said n ∷ back) ≡ finding_in s (e ∷ n ∷ back)) }
{}

/// Each sort of unit puts states down: the static row; a first entry with its gap and the gap behind it, be it a row or a dummy; and the end
/// dummy, after which the older version says nothing.
pub fn each_sort_of_unit_puts_states_down()
    ensures statics { (v w : Version) → IsMerged v w (statics_said v) (statics_onto v w) }
    ensures entry { (v w : Version) (e n : Entry) (back : List Entry) → v.entries ≡ e ∷ n ∷ back → IsVersion v → IsVersion w →
        IsMerged v w (with_entries (gap_said n ∷ back) v) (with_entries (merge_entry e n w.entries) w) }
    ensures end_dummy { (v w : Version) (e : Entry) → v.entries ≡ e ∷ [] → IsVersion v → IsVersion w → IsMerged v w (emptied_version e v) (end_merged e v w) }
    ensures silent { (e : Entry) (v : Version) → IsSilent (emptied_version e v) }
{}

/// A unit leaves versions.
pub fn a_unit_leaves_versions()
    ensures { (v w : Version) → IsVersion v → IsVersion w → EachOf IsVersion (cleaned_versions v w) }
{}

/// A unit changes nothing that is seen through any newer version.
pub fn a_unit_changes_nothing()
    ensures { (front back : List Version) (v w : Version) → IsVersion v → IsVersion w →
        IsSeenAlike (front ++ v ∷ w ∷ back) (front ++ (cleaned_versions v w ++ back)) }
{}

/// A gap that says nothing changes nothing: no entry of the newer version before a merged entry whose gap says nothing, none between it and its successor where
/// the successor's gap says nothing, and none behind the successor. So a merge walks no further than it must.
pub fn a_gap_that_says_nothing_changes_nothing()
    ensures spot { (newer : Finding) → found_under (finding_of no_mark None) newer ≡ newer }
    ensures before { (e n y : Entry) → e.gap ≡ no_mark → pos_cmp y.position e.position ≡ Less → entry_onto e n y ≡ y }
    ensures between { (e n y : Entry) → n.gap ≡ no_mark → pos_cmp y.position e.position ≡ Greater → entry_onto e n y ≡ y }
    ensures behind { (e n y : Entry) → IsBefore e.position n.position → pos_cmp y.position n.position ≡ Greater → entry_onto e n y ≡ y }
{}

/// After a unit for the static row, if there is one, and one for each entry the older version is dropped, and nothing that is seen has changed;
/// nor has it after any number of them.
pub fn a_whole_merge_drops_the_older_version()
    ensures alone { (v w : Version) → IsVersion v → IsVersion w → length (clean_times (units_of v) v w) ≡ 1 }
    ensures seen { (n : ℕ) (front back : List Version) (v w : Version) → IsVersion v → IsVersion w →
        IsSeenAlike (front ++ v ∷ w ∷ back) (front ++ (clean_times n v w ++ back)) }
{}

/// Without room a memtable stays as it is. Of a cache what lies around the first entry is lost.
pub fn without_room_a_unit_loses_what_it_takes_out()
    ensures memtable { (v w : Version) → cleaned_without_room Memtable v w ≡ v ∷ w ∷ [] }
    ensures lost { (s : Spot) (n : Entry) (back : List Entry) → spot_cmp s n.position ≡ Less → finding_in s (lose_first_gap (n ∷ back)) ≡ finding_of lost_mark None }
    ensures versions { (kind : ChainKind) (v w : Version) → IsVersion v → IsVersion w → EachOf IsVersion (cleaned_without_room kind v w) }
{}
