//! The laws of ordered entries, each the contract of a function that does nothing. Users of a tree go by them, and not by how it is linked.
ghost use Rattle.std.specs.Prelude.{◌≡◌, ◌≢◌, ◌↔◌, ℕ, ◌+◌, ◌*◌, ◌^◌, ◌<◌, ◌≤◌, List, [], ◌∷◌, ◌++◌, length, map, drop, Option, Some, None, IsSome, IsSomeAnd, Contains, AllPairs};
ghost use Rattle.std.specs.Option.{option_map};
ghost use Rattle.rc_position.specs.declared.positions.Pos.{Pos};
ghost use Rattle.lsa_kinds.specs.declared.kind.Kind.{Kind};
ghost use Rattle.lsa_kinds.specs.declared.kind.Kind.TheVariants.{Version};
ghost use Rattle.lsa_kinds.specs.Fields.{number_at, IsApart, IsPut};
ghost use Rattle.lsa_region.specs.Ref.{Ref};
ghost use Rattle.lsa_region.specs.declared.end.End.{End};
ghost use Rattle.lsa_region.specs.declared.end.End.TheVariants.{Obj};
ghost use Rattle.lsa_region.specs.Ends.{named_as};
ghost use Rattle.lsa_region.specs.Region.{View, body, link_of, IsEnd, IsWell, IsSummed, IsAdded, IsFreed, IsWritten, Renamed, objects};
ghost use Rattle.lsa_shape.specs.Readings.{LeadsUp};
ghost use Rattle.lsa_tree.specs.declared.tree.Tree.{Tree};
ghost use Rattle.lsa_tree.specs.declared.tree.Place.{Place};
ghost use Rattle.lsa_tree.specs.Entries.{IsEntryKind, IsEntryAtPosition, BelongsBetween, AreAscending, IsAlike, IsReadAlike};
ghost use Rattle.lsa_tree.specs.Tree.{IsTop, IsTree, IsLoose, IsOfTree, tree_as};
ghost use Rattle.lsa_tree.specs.Search.{IsFound};

/// A tree holds these entries and no others.
pub fn a_tree_is_determined_by_its_version()
    ensures { (tree : Tree) (v : View) (xs ys : List Ref) → IsTree tree v xs → IsTree tree v ys → xs ≡ ys }
{}

/// A tree is that of a version, whose entries stand in ascending order of their positions: each at one position, with those before it before and those
/// behind it behind that.
pub fn entries_stand_in_order()
    ensures top { (tree : Tree) (v : View) (refs : List Ref) → IsTree tree v refs → IsTop v tree.top }
    ensures ascending { (tree : Tree) (v : View) (refs : List Ref) → IsTree tree v refs → AreAscending v refs }
    ensures stands { (tree : Tree) (v : View) (refs : List Ref) (r : Ref) → IsTree tree v refs → Contains refs r → (x : Pos) × IsEntryAtPosition v r x }
    ensures once { (v : View) (r : Ref) (x y : Pos) → IsEntryAtPosition v r x → IsEntryAtPosition v r y → x ≡ y }
    ensures beside { (tree : Tree) (v : View) (front back : List Ref) (r : Ref) (x : Pos) → IsTree tree v (front ++ (r ∷ back)) → IsEntryAtPosition v r x → BelongsBetween v x front back }
{}

/// Each entry is in a tree once, and there are at most as many as the region has objects.
pub fn a_tree_has_each_entry_once()
    ensures once { (tree : Tree) (v : View) (refs : List Ref) → IsWell v → IsTree tree v refs → AllPairs ◌≢◌ refs }
    ensures beside { (tree : Tree) (v : View) (front back : List Ref) (r : Ref) → IsWell v → IsTree tree v (front ++ (r ∷ back)) → Contains (front ++ back) r → ⊥ }
    ensures few { (tree : Tree) (v : View) (refs : List Ref) → IsWell v → IsSummed v → IsTree tree v refs → length refs ≤ objects v }
{}

/// A tree is balanced, and stays so: from an entry to the top of its tree are at most 2 d links, where 2 ^ d is greater than the number of entries and one.
pub fn a_tree_is_shallow()
    ensures { (tree : Tree) (v : View) (refs : List Ref) (r : Ref) → IsWell v → IsTree tree v refs → Contains refs r → (up : List Ref) × LeadsUp (link_of v) tree.top r up × ((d : ℕ) → length refs + 1 < 2 ^ d → length (r ∷ up) ≤ 2 * d) }
{}

/// The trees of two versions have no entry in common.
pub fn trees_of_two_versions_share_no_entry()
    ensures { (tree other : Tree) (v : View) (xs ys : List Ref) (r : Ref) → IsWell v → other.top ≢ tree.top → IsTree tree v xs → IsTree other v ys → Contains xs r → Contains ys r → ⊥ }
{}

/// An entry stands in one tree only.
pub fn an_entry_stands_in_one_tree()
    ensures { (tree other : Tree) (v : View) (xs ys : List Ref) (r : Ref) → IsWell v → IsTree tree v xs → IsTree other v ys → Contains xs r → Contains ys r → tree ≡ other }
{}

/// A loose entry is in no tree.
pub fn a_loose_entry_is_in_no_tree()
    ensures { (tree : Tree) (v : View) (refs : List Ref) (r : Ref) → IsWell v → IsTree tree v refs → IsLoose v r → Contains refs r → ⊥ }
{}

/// A version of which the link to its entries is unset has an empty tree, and only such a version has.
pub fn an_empty_tree_is_an_unset_link()
    ensures { (tree : Tree) (v : View) → IsTop v tree.top → IsTree tree v [] ↔ (link_of v tree.top ≡ None) }
{}

/// What is found at a position is determined by the entries.
pub fn one_place_is_found()
    ensures found { (tree : Tree) (v : View) (refs : List Ref) (x : Pos) (p q : Place) → IsWell v → IsTree tree v refs → IsFound v refs x p → IsFound v refs x q → p ≡ q }
    ensures belongs { (v : View) (x : Pos) (front back others rest : List Ref) → front ++ back ≡ others ++ rest → BelongsBetween v x front back → BelongsBetween v x others rest → front ≡ others }
{}

/// After objects moved, a tree is the tree of their new names, and entries stand where they stood.
pub fn a_moved_tree_is_the_renamed_one()
    ensures tree { (old new : View) (names : List (Ref × Ref)) (tree : Tree) (refs : List Ref) → Renamed old new names → IsWell old → IsTree tree old refs → IsTree (tree_as names tree) new (map (named_as names) refs) }
    ensures loose { (old new : View) (names : List (Ref × Ref)) (r : Ref) → Renamed old new names → IsWell old → IsLoose old r → IsLoose new (named_as names r) }
    ensures stands { (old new : View) (names : List (Ref × Ref)) (r : Ref) (x : Pos) → Renamed old new names → IsWell old → IsEntryAtPosition old r x → IsEntryAtPosition new (named_as names r) x }
{}

/// A tree stays where its version's link to it and its entries' links to entries name what they did, and what is read of its entries stays; so does a loose entry.
pub fn a_tree_stays_where_its_links_and_entries_stay()
    ensures tree { (tree : Tree) (old new : View) (refs : List Ref) → IsTree tree old refs → IsTop new tree.top → link_of new tree.top ≡ link_of old tree.top →
        ((r : Ref) → Contains refs r → IsReadAlike (body old r) (body new r)) → ((r : Ref) → Contains refs r → (field : ℕ) → 2 ≤ field → field ≤ 4 → link_of new (Obj r field) ≡ link_of old (Obj r field)) → IsTree tree new refs }
    ensures loose { (old new : View) (r : Ref) → IsLoose old r → IsReadAlike (body old r) (body new r) → ((field : ℕ) → 2 ≤ field → field ≤ 4 → link_of new (Obj r field) ≡ link_of old (Obj r field)) → IsLoose new r }
{}

/// A tree stays where links of other roles change and bodies stay, and so does a loose entry.
pub fn a_tree_stays_under_links_of_other_roles()
    ensures tree { (tree : Tree) (old new : View) (refs : List Ref) → IsTree tree old refs → ((e : End) → IsOfTree old e → link_of new e ≡ link_of old e) → ((r : Ref) → body new r ≡ body old r) → IsTree tree new refs }
    ensures loose { (old new : View) (r : Ref) → IsLoose old r → ((e : End) → IsOfTree old e → link_of new e ≡ link_of old e) → ((q : Ref) → body new q ≡ body old q) → IsLoose new r }
{}

/// A tree stays where an object is made, and so do other loose entries; entries stand where they stood. What is made as an entry with the balance 0 is loose.
pub fn a_tree_stays_where_an_object_is_made()
    ensures tree { (tree : Tree) (old new : View) (refs : List Ref) (r : Ref) (kind : Kind) (bytes : List ℕ) → IsTree tree old refs → IsAdded old new r kind bytes → IsTree tree new refs }
    ensures others { (old new : View) (q r : Ref) (kind : Kind) (bytes : List ℕ) → IsLoose old q → IsAdded old new r kind bytes → IsLoose new q }
    ensures stands { (old new : View) (q r : Ref) (kind : Kind) (bytes : List ℕ) (x : Pos) → IsEntryAtPosition old q x → IsAdded old new r kind bytes → IsEntryAtPosition new q x }
    ensures loose { (old new : View) (r : Ref) (kind : Kind) (bytes : List ℕ) → IsAdded old new r kind bytes → IsEntryKind kind → number_at 1 1 bytes ≡ 0 → IsLoose new r }
{}

/// A tree stays where an object is freed that is neither its version nor one of its entries, and so do other loose entries; other entries stand where they stood.
pub fn a_tree_stays_where_an_object_is_freed()
    ensures tree { (tree : Tree) (old new : View) (refs : List Ref) (r : Ref) → IsTree tree old refs → IsFreed old new r → (Contains refs r → ⊥) → tree.top ≢ Obj r 2 → IsTree tree new refs }
    ensures loose { (old new : View) (q r : Ref) → IsLoose old q → IsFreed old new r → q ≢ r → IsLoose new q }
    ensures stands { (old new : View) (q r : Ref) (x : Pos) → IsEntryAtPosition old q x → IsFreed old new r → q ≢ r → IsEntryAtPosition new q x }
{}

/// A tree stays where bytes of an object are written: of any other object than its entries, and of an entry a field before the length of its position
/// other than its balance, as its flags and tombstones are. So does a loose entry.
pub fn a_tree_stays_where_bytes_are_written()
    ensures other { (tree : Tree) (old new : View) (refs : List Ref) (r : Ref) (change : List ℕ → List ℕ) → IsTree tree old refs → IsWritten old new r change → (Contains refs r → ⊥) → IsTree tree new refs }
    ensures field { (tree : Tree) (old new : View) (refs : List Ref) (r : Ref) (change : List ℕ → List ℕ) (offset width value : ℕ) → IsTree tree old refs → IsWritten old new r change → offset + width ≤ 28 → IsApart offset width 1 1 →
        IsSomeAnd (body old r) (λ b. IsPut b.1 (change b.1) offset width value) → IsTree tree new refs }
    ensures loose { (old new : View) (q r : Ref) (change : List ℕ → List ℕ) (offset width value : ℕ) → IsLoose old q → IsWritten old new r change → offset + width ≤ 28 → IsApart offset width 1 1 →
        IsSomeAnd (body old r) (λ b. IsPut b.1 (change b.1) offset width value) → IsLoose new q }
{}

/// Entries that are alike but for the balance stand at the same position, and so do those of which a tree reads the same. So where a position belongs stays.
pub fn alike_entries_stand_alike()
    ensures alike { (old new : View) (r : Ref) (x : Pos) → IsEntryAtPosition old r x → IsAlike (body old r) (body new r) → IsEntryAtPosition new r x }
    ensures read { (old new : View) (r : Ref) (x : Pos) → IsEntryAtPosition old r x → IsReadAlike (body old r) (body new r) → IsEntryAtPosition new r x }
    ensures belongs { (old new : View) (x : Pos) (front back : List Ref) → BelongsBetween old x front back → ((r : Ref) → Contains (front ++ back) r → (at : Pos) → IsEntryAtPosition old r at → IsEntryAtPosition new r at) → BelongsBetween new x front back }
{}
