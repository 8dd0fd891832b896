//! The laws of recency lists, each the contract of a function that does nothing.
ghost use Rattle.std.specs.Prelude.{◌≡◌, ◌≢◌, ℕ, List, Option, Some, None, IsSomeAnd, IfSome, Contains, map};
ghost use Rattle.lsa_kinds.specs.declared.kind.Kind.{Kind};
ghost use Rattle.lsa_region.specs.Ref.{Ref};
ghost use Rattle.lsa_region.specs.declared.end.End.{End};
ghost use Rattle.lsa_region.specs.declared.end.End.TheVariants.{Obj, Slot};
ghost use Rattle.lsa_region.specs.Ends.{named_as};
ghost use Rattle.lsa_region.specs.Paired.{IsExchanged};
ghost use Rattle.lsa_region.specs.Region.{View, body, link_of, IsWell, SameObjects, IsAdded, IsFreed, Renamed};
ghost use Rattle.lsa_path.specs.Path.{IsPath, AllOnward, IsInserted, IsTakenOut};
ghost use Rattle.lsa_path.specs.Roles.{role_at, MoreRecent};
ghost use Rattle.lsa_list.specs.declared.recency.List.{List as Slots};
ghost use Rattle.lsa_list.specs.Recency.{IsList, IsElsewhere, kind_of};

/// After objects moved, a list is the list of their new names.
pub fn a_moved_list_is_the_renamed_one()
    ensures { (slots : Slots) (old new : View) (names : List (Ref × Ref)) (refs : List Ref) → Renamed old new names → IsWell old → IsList slots old refs → IsList slots new (map (named_as names) refs) }
{}

/// A list stays where an object that is in no recency list is freed.
pub fn a_list_stays_where_an_object_is_freed()
    ensures { (slots : Slots) (old new : View) (r : Ref) (refs : List Ref) → IsFreed old new r → IsWell old → link_of old (Obj r 0) ≡ None → IsList slots old refs → IsList slots new refs }
{}

/// A list stays where an object is made.
pub fn a_list_stays_where_an_object_is_made()
    ensures { (slots : Slots) (old new : View) (r : Ref) (kind : Kind) (bytes : List ℕ) (refs : List Ref) → IsAdded old new r kind bytes → IsList slots old refs → IsList slots new refs }
{}

/// A list stays where its front slot and the links to more recent objects of its members name what they did, and its members keep their kinds.
pub fn a_list_stays_where_its_links_and_kinds_stay()
    ensures { (slots : Slots) (old new : View) (refs : List Ref) → IsList slots old refs → link_of new (Slot slots.front) ≡ link_of old (Slot slots.front) → AllOnward 1 (λ e. link_of new e ≡ link_of old e) refs →
        ((r : Ref) → Contains refs r → kind_of new r ≡ kind_of old r) → IsList slots new refs }
{}

/// A list stays where no link changes and its members keep their kinds: as where bytes are written over those of an object, or a root slot comes or goes.
pub fn a_list_stays_where_no_link_changes()
    ensures stays { (slots : Slots) (old new : View) (refs : List Ref) → IsList slots old refs → ((e : End) → link_of new e ≡ link_of old e) → ((r : Ref) → Contains refs r → kind_of new r ≡ kind_of old r) → IsList slots new refs }
    ensures written { (slots : Slots) (old new : View) (refs : List Ref) (r : Ref) (bytes : Kind × List ℕ → List ℕ) → IsList slots old refs → ((e : End) → link_of new e ≡ link_of old e) →
        IsSomeAnd (body old r) (λ b. body new r ≡ Some (b.0, bytes b)) → ((q : Ref) → q ≢ r → body new q ≡ body old q) → IsList slots new refs }
{}

/// A list stays where links of other roles change: where every link to a more recent object names what it did, or where an object is put among ends elsewhere, or taken out of such.
pub fn a_list_stays_under_links_of_other_roles()
    ensures stays { (slots : Slots) (old new : View) (refs : List Ref) → IsList slots old refs → link_of new (Slot slots.front) ≡ link_of old (Slot slots.front) → ((e : End) → role_at old e ≡ MoreRecent → link_of new e ≡ link_of old e) →
        ((r : Ref) → Contains refs r → kind_of new r ≡ kind_of old r) → IsList slots new refs }
    ensures inserted { (slots : Slots) (old new : View) (refs : List Ref) (a first second : End) → IsList slots old refs → IsInserted (link_of old) (link_of new) a first second → SameObjects old new →
        IsElsewhere slots old a → IsElsewhere slots old first → IsElsewhere slots old second → IfSome (link_of old a) (IsElsewhere slots old) → IsList slots new refs }
    ensures taken { (slots : Slots) (old new : View) (refs : List Ref) (first second : End) → IsList slots old refs → IsTakenOut (link_of old) (link_of new) first second → SameObjects old new →
        IsElsewhere slots old first → IsElsewhere slots old second → IfSome (link_of old first) (IsElsewhere slots old) → IfSome (link_of old second) (IsElsewhere slots old) → IsList slots new refs }
{}

/// A list stays where two ends elsewhere change places.
pub fn a_list_stays_under_an_exchange_elsewhere()
    ensures { (slots : Slots) (old new : View) (refs : List Ref) (a b : End) → IsList slots old refs → IsExchanged (link_of old) (link_of new) a b → SameObjects old new → IsElsewhere slots old a → IsElsewhere slots old b → IsList slots new refs }
{}

/// A path whose ends are elsewhere stays beside a list that changes.
pub fn a_path_elsewhere_stays_beside_a_list()
    ensures { (slots : Slots) (old new : View) (toward onward : ℕ) (start : End) (refs : List Ref) (finish : Option End) → ((e : End) → IsElsewhere slots old e → link_of new e ≡ link_of old e) → IsElsewhere slots old start →
        AllOnward onward (IsElsewhere slots old) refs → IsPath toward onward (link_of old) start refs finish → IsPath toward onward (link_of new) start refs finish }
{}
