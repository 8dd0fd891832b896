//! The laws of partitions in a region, each the contract of a function that does nothing.
ghost use Rattle.std.specs.Prelude.{◌≡◌, ◌≢◌, ◌⊎◌, List, [], ◌∷◌, ◌++◌, map, sum_by, Option, None, IsSome, Contains};
ghost use Rattle.lsa_store.specs.declared.place.Ref.{Ref};
ghost use Rattle.lsa_region.specs.declared.end.End.{End};
ghost use Rattle.lsa_region.specs.declared.end.End.TheVariants.{Obj, Slot};
ghost use Rattle.lsa_region.specs.declared.end.Root.{Root};
ghost use Rattle.lsa_region.specs.Ends.{named_as};
ghost use Rattle.lsa_region.specs.Region.{View, body, link_of, objects, IsRootAdded, IsRootDropped, IsSummed, IsWell, Renamed, SameButRoots, SameObjects};
ghost use Rattle.lsa_list.specs.declared.recency.List.{List as Slots};
ghost use Rattle.lsa_list.specs.Recency.{IsElsewhere, IsList};
ghost use Rattle.rc_cell.specs.declared.writes.Tomb.{Tomb};
ghost use Rattle.rc_position.specs.declared.positions.Pos.{Pos};
ghost use Rattle.rc_core.specs.declared.entries.Flag.{Flag};
ghost use Rattle.rc_core.specs.Steps.{join_pt, set_flags, set_static_flag, set_tombs};
ghost use Rattle.rc_core.specs.Version.{Version};
ghost use Rattle.rc_version.specs.Objects.{IsRewritten};
ghost use Rattle.rc_version.specs.Versions.{IsKeptBut, IsUnlisted, IsVersionOf, IsWeighed, version_bytes};
ghost use Rattle.rc_partition.specs.Partitions.{PartitionEntry, StandingVersion, AreStanding, IsRowOfVersion, IsRowOfAny, among, partition_as, partition_objects, partition_of, roots_of, standing};

/// Where one version of a partition changed, all stand as before with it in its place, and so where bytes of it were changed alone.
pub fn a_changed_version_changes_nothing_else()
    ensures changed { (slots : Slots) (old new : View) (front : List PartitionEntry) (root : Root) (older : List StandingVersion) (s : StandingVersion) (newer : List StandingVersion) (back : List PartitionEntry) (listed now : List Ref) (c : Version) → IsWell old → IsSummed old → IsKeptBut s.object old new →
        AreStanding slots old (among front root older s newer back) listed → IsVersionOf new s.object now c → IsWeighed old new s.version c → ((r : Ref) → Contains listed r → IsRowOfVersion old s r → IsRowOfVersion new (standing s.object now c) r) →
        ((r : Ref) → body old r ≡ None → IsUnlisted new r) → AreStanding slots new (among front root older (standing s.object now c) newer back) listed }
    ensures settled { (slots : Slots) (old new : View) (front : List PartitionEntry) (root : Root) (older : List StandingVersion) (s : StandingVersion) (newer : List StandingVersion) (back : List PartitionEntry) (listed now : List Ref) (c : Version) → IsWell old → IsSummed old → IsWell new → IsSummed new → IsKeptBut s.object old new →
        AreStanding slots old (among front root older s newer back) listed → IsVersionOf new s.object now c → IsWeighed old new s.version c → AreStanding slots new (among front root older (standing s.object now c) newer back) listed }
    ensures rewritten { (slots : Slots) (old new : View) (front : List PartitionEntry) (root : Root) (older : List StandingVersion) (s : StandingVersion) (newer : List StandingVersion) (back : List PartitionEntry) (listed : List Ref) (c : Version) (r : Ref) → IsWell old → IsSummed old → IsKeptBut s.object old new →
        AreStanding slots old (among front root older s newer back) listed → IsVersionOf new s.object s.entries c → IsRewritten old new r → version_bytes c ≡ version_bytes s.version → AreStanding slots new (among front root older (standing s.object s.entries c) newer back) listed }
{}

/// Other flags and tombstones take no bytes.
pub fn marks_take_no_bytes()
    ensures flags { (x : Pos) (at gap : Flag) (c : Version) → version_bytes (set_flags x at gap c) ≡ version_bytes c }
    ensures tombs { (x : Pos) (at gap : Option Tomb) (c : Version) → version_bytes (set_tombs x at gap c) ≡ version_bytes c }
    ensures static_flag { (flag : Flag) (c : Version) → version_bytes (set_static_flag flag c) ≡ version_bytes c }
    ensures head { (tomb : Tomb) (c : Version) → version_bytes (join_pt tomb c) ≡ version_bytes c }
{}

/// Where the recency list changed, and nothing but it, all stand as before with it; as where a row is put at the back, taken out, or made the most recent one.
pub fn the_list_may_change_beside_partitions()
    ensures listed { (slots : Slots) (old new : View) (partitions : List PartitionEntry) (xs ys : List Ref) → AreStanding slots old partitions xs → ((e : End) → IsElsewhere slots old e → link_of new e ≡ link_of old e) → SameObjects old new → IsList slots new ys →
        ((r : Ref) → Contains ys r → IsRowOfAny old partitions r) → ((r : Ref) → IsRowOfAny old partitions r → (Contains ys r → ⊥) → IsUnlisted new r) → AreStanding slots new partitions ys }
    ensures pushed { (slots : Slots) (old new : View) (partitions : List PartitionEntry) (xs : List Ref) (r : Ref) → AreStanding slots old partitions xs → ((e : End) → IsElsewhere slots old e → link_of new e ≡ link_of old e) → SameObjects old new → IsList slots new (xs ++ (r ∷ [])) → IsRowOfAny old partitions r →
        ((e : End) → link_of old e ≡ None → e ≢ Obj r 0 → e ≢ Obj r 1 → link_of new e ≡ None) → AreStanding slots new partitions (xs ++ (r ∷ [])) }
    ensures removed { (slots : Slots) (old new : View) (partitions : List PartitionEntry) (xs : List Ref) (r : Ref) (ys : List Ref) → AreStanding slots old partitions (xs ++ (r ∷ ys)) → ((e : End) → IsElsewhere slots old e → link_of new e ≡ link_of old e) → SameObjects old new → IsList slots new (xs ++ ys) →
        link_of new (Obj r 0) ≡ None → link_of new (Obj r 1) ≡ None → ((e : End) → link_of old e ≡ None → link_of new e ≡ None) → AreStanding slots new partitions (xs ++ ys) }
    ensures touched { (slots : Slots) (old new : View) (partitions : List PartitionEntry) (xs : List Ref) (r : Ref) (ys : List Ref) → AreStanding slots old partitions (xs ++ (r ∷ ys)) → ((e : End) → IsElsewhere slots old e → link_of new e ≡ link_of old e) → SameObjects old new → IsList slots new ((xs ++ ys) ++ (r ∷ [])) →
        ((e : End) → link_of old e ≡ None → link_of new e ≡ None) → AreStanding slots new partitions ((xs ++ ys) ++ (r ∷ [])) }
{}

/// After objects moved, all stand as before under new names.
pub fn moved_partitions_are_the_same_under_new_names()
    ensures { (slots : Slots) (old new : View) (names : List (Ref × Ref)) (partitions : List PartitionEntry) (listed : List Ref) → Renamed old new names → IsWell old → AreStanding slots old partitions listed → AreStanding slots new (map (partition_as names) partitions) (map (named_as names) listed) }
{}

/// Which partitions stand in a region, and what is listed, is determined by their root slots.
pub fn what_stands_is_determined()
    ensures { (slots : Slots) (v : View) (ps qs : List PartitionEntry) (xs ys : List Ref) → AreStanding slots v ps xs → AreStanding slots v qs ys → roots_of ps ≡ roots_of qs → (ps ≡ qs) × (xs ≡ ys) }
{}

/// A partition without versions comes with its root slot, which names nothing, and goes with it.
pub fn an_empty_partition_comes_and_goes()
    ensures added { (slots : Slots) (old new : View) (front : List PartitionEntry) (r : Root) (back : List PartitionEntry) (listed : List Ref) → IsRootAdded old new r → SameButRoots old new → IsWell old → AreStanding slots old (front ++ back) listed → AreStanding slots new (front ++ (partition_of r [] ∷ back)) listed }
    ensures dropped { (slots : Slots) (old new : View) (front : List PartitionEntry) (r : Root) (back : List PartitionEntry) (listed : List Ref) → IsRootDropped old new r → SameButRoots old new → AreStanding slots old (front ++ (partition_of r [] ∷ back)) listed → AreStanding slots new (front ++ back) listed }
    ensures unset { (slots : Slots) (v : View) (front : List PartitionEntry) (r : Root) (back : List PartitionEntry) (listed : List Ref) → AreStanding slots v (front ++ (partition_of r [] ∷ back)) listed → link_of v (Slot r) ≡ None }
{}

/// Each object is a version that stands there, or an entry or a static row of one; and so many there are.
pub fn nothing_else_is_there()
    ensures each { (slots : Slots) (v : View) (partitions : List PartitionEntry) (listed : List Ref) (r : Ref) → IsWell v → IsSummed v → AreStanding slots v partitions listed → IsSome (body v r) →
        ((p : PartitionEntry) × (s : StandingVersion) × Contains partitions p × Contains p.versions s × (s.object ≡ r)) ⊎ IsRowOfAny v partitions r }
    ensures counted { (slots : Slots) (v : View) (partitions : List PartitionEntry) (listed : List Ref) → IsWell v → IsSummed v → AreStanding slots v partitions listed → objects v ≡ sum_by partition_objects partitions }
{}

/// An object is an entry or the static row of one version only, and a version is one object of one partition.
pub fn two_rows_are_rows_of_two_versions()
    ensures row { (v : View) (s t : StandingVersion) (r : Ref) → IsWell v → IsVersionOf v s.object s.entries s.version → IsVersionOf v t.object t.entries t.version → IsRowOfVersion v s r → IsRowOfVersion v t r → s.object ≡ t.object }
    ensures place { (slots : Slots) (v : View) (front us : List PartitionEntry) (root other : Root) (older olds : List StandingVersion) (s t : StandingVersion) (newer news : List StandingVersion) (back vs : List PartitionEntry) (listed xs : List Ref) → IsWell v →
        AreStanding slots v (among front root older s newer back) listed → AreStanding slots v (among us other olds t news vs) xs → s.object ≡ t.object → (root ≡ other) × (older ≡ olds) × (s ≡ t) × (newer ≡ news) }
{}

/// A version of partitions, and so an entry or a static row of one, has a place among them.
pub fn a_version_has_a_place()
    ensures version { (partitions : List PartitionEntry) (p : PartitionEntry) (s : StandingVersion) → Contains partitions p → Contains p.versions s →
        (front : List PartitionEntry) × (older : List StandingVersion) × (newer : List StandingVersion) × (back : List PartitionEntry) × (partitions ≡ among front p.root older s newer back) }
    ensures row { (v : View) (partitions : List PartitionEntry) (r : Ref) → IsRowOfAny v partitions r →
        (front : List PartitionEntry) × (root : Root) × (older : List StandingVersion) × (s : StandingVersion) × (newer : List StandingVersion) × (back : List PartitionEntry) × (partitions ≡ among front root older s newer back) × IsRowOfVersion v s r }
{}

/// An entry or a static row that is not listed is in no list, and what is listed is an entry or a static row.
pub fn an_unlisted_row_is_in_no_list()
    ensures unlisted { (slots : Slots) (v : View) (partitions : List PartitionEntry) (listed : List Ref) (r : Ref) → AreStanding slots v partitions listed → IsRowOfAny v partitions r → (Contains listed r → ⊥) → IsUnlisted v r }
    ensures listed { (slots : Slots) (v : View) (partitions : List PartitionEntry) (listed : List Ref) (r : Ref) → IsWell v → AreStanding slots v partitions listed → IsUnlisted v r → Contains listed r → ⊥ }
{}
