//! The laws of paths, each the contract of a function that does nothing.
ghost use Rattle.std.specs.Prelude.{◌≡◌, ◌≢◌, ℕ, ◌≤◌, List, ◌∷◌, ◌++◌, length, sum_by, map, reverse, Option, Some, None, IsSome, IfSome, Contains, AllPairs};
ghost use Rattle.std.specs.Option.{option_map};
ghost use Rattle.lsa_region.specs.Ref.{Ref};
ghost use Rattle.lsa_region.specs.declared.end.End.{End};
ghost use Rattle.lsa_region.specs.declared.end.End.TheVariants.{Obj};
ghost use Rattle.lsa_region.specs.Ends.{named_as, end_as};
ghost use Rattle.lsa_region.specs.Paired.{WellPaired, IsExchanged};
ghost use Rattle.lsa_region.specs.Layout.{object_extent};
ghost use Rattle.lsa_region.specs.Region.{View, body, link_of, IsEnd, IsWell, IsSummed, Renamed, objects, live_bytes};
ghost use Rattle.lsa_path.specs.Path.{IsPath, IsOutside, IsOutsideOrUnset, IsOfLive, IsInserted, IsTakenOut, AllOnward, behind, entered_object, walk};
ghost use Rattle.lsa_path.specs.Roles.{Role, role_at};

/// A path stays where each end by which it leaves an object names what it did, and so does its start.
pub fn a_path_stays_under_changes_elsewhere()
    ensures { (toward onward : ℕ) (old new : End → Option End) (start : End) (refs : List Ref) (finish : Option End) → new start ≡ old start → AllOnward onward (λ e. new e ≡ old e) refs → IsPath toward onward old start refs finish → IsPath toward onward new start refs finish }
{}

/// A path stays where no link changes, as where an object is made or freed, bytes are written, or a root slot comes or goes.
pub fn a_path_stays_where_no_link_changes()
    ensures { (toward onward : ℕ) (old new : End → Option End) (start : End) (refs : List Ref) (finish : Option End) → ((e : End) → new e ≡ old e) → IsPath toward onward old start refs finish → IsPath toward onward new start refs finish }
{}

/// A path whose objects are left by links of one role stays where these name what they did, and so does its start. They do where an object is put among links of other
/// roles, or taken out of such.
pub fn a_path_stays_under_links_of_other_roles()
    ensures stays { (v : View) (new : End → Option End) (role : Role) (toward onward : ℕ) (start : End) (refs : List Ref) (finish : Option End) → ((e : End) → role_at v e ≡ role → new e ≡ link_of v e) → new start ≡ link_of v start →
        AllOnward onward (λ e. role_at v e ≡ role) refs → IsPath toward onward (link_of v) start refs finish → IsPath toward onward new start refs finish }
    ensures inserted { (v : View) (new : End → Option End) (role : Role) (a first second : End) → IsInserted (link_of v) new a first second → role_at v a ≢ role → role_at v first ≢ role → role_at v second ≢ role →
        IfSome (link_of v a) (λ mate. role_at v mate ≢ role) → (e : End) → role_at v e ≡ role → new e ≡ link_of v e }
    ensures taken { (v : View) (new : End → Option End) (role : Role) (first second : End) → IsTakenOut (link_of v) new first second → role_at v first ≢ role → role_at v second ≢ role →
        IfSome (link_of v first) (λ mate. role_at v mate ≢ role) → IfSome (link_of v second) (λ mate. role_at v mate ≢ role) → (e : End) → role_at v e ≡ role → new e ≡ link_of v e }
{}

/// A path stays where two ends change places by which it neither enters nor leaves an object, and which it neither begins nor ends at; as where both are other links than the path's.
pub fn a_path_stays_under_an_exchange_elsewhere()
    ensures elsewhere { (toward onward : ℕ) (old new : End → Option End) (a b : End) (start : End) (refs : List Ref) (finish : Option End) → IsExchanged old new a b → start ≢ a → start ≢ b → finish ≢ Some a → finish ≢ Some b →
        AllOnward toward (λ e. (e ≢ a) × (e ≢ b)) refs → AllOnward onward (λ e. (e ≢ a) × (e ≢ b)) refs → IsPath toward onward old start refs finish → IsPath toward onward new start refs finish }
    ensures outside { (toward onward : ℕ) (old new : End → Option End) (a b : End) (start : End) (refs : List Ref) (finish : Option End) → IsExchanged old new a b → start ≢ a → start ≢ b → finish ≢ Some a → finish ≢ Some b →
        IsOutside toward onward a → IsOutside toward onward b → IsPath toward onward old start refs finish → IsPath toward onward new start refs finish }
{}

/// A path stays where objects changed places in two other links than the path's, `first` and `second`: each end but such links names what it did, unless that is such a link.
pub fn a_path_stays_where_objects_change_places_in_other_links()
    ensures { (first second toward onward : ℕ) (old new : End → Option End) (start : End) (refs : List Ref) (finish : Option End) → ((e : End) → IsOutside first second e → IsOutsideOrUnset first second (old e) → new e ≡ old e) →
        toward ≢ first → toward ≢ second → onward ≢ first → onward ≢ second → IsOutside first second start → IsOutsideOrUnset first second finish → IsPath toward onward old start refs finish → IsPath toward onward new start refs finish }
{}

/// Two paths from different starts leave no object by the same end, and have no object in common.
pub fn paths_from_different_starts_share_no_end()
    ensures ends { (toward onward : ℕ) (named : End → Option End) (s t : End) (xs ys : List Ref) (f g : Option End) → toward ≢ onward → WellPaired named → IsOutside toward onward s → IsOutside toward onward t → t ≢ s →
        IsPath toward onward named s xs f → IsPath toward onward named t ys g → AllOnward onward (λ e. AllOnward onward (λ d. d ≢ e) ys) xs }
    ensures objects { (toward onward : ℕ) (named : End → Option End) (s t : End) (xs ys : List Ref) (f g : Option End) → toward ≢ onward → WellPaired named → IsOutside toward onward s → IsOutside toward onward t → t ≢ s →
        IsPath toward onward named s xs f → IsPath toward onward named t ys g → (r : Ref) → Contains xs r → Contains ys r → ⊥ }
{}

/// After objects moved, a path from an end that is there is the path of the new names, from the end's new name.
pub fn a_moved_path_is_the_renamed_one()
    ensures moved { (old new : View) (names : List (Ref × Ref)) (toward onward : ℕ) (start : End) (refs : List Ref) (finish : Option End) → Renamed old new names → IsWell old → IsOfLive old start →
        IsPath toward onward (link_of old) start refs finish → IsPath toward onward (link_of new) (end_as names start) (map (named_as names) refs) (option_map (end_as names) finish) }
    ensures there { (v : View) (e : End) → IsEnd v e → IsOfLive v e }
{}

/// The links determine the objects of a path and its finish, where it enters no object any more.
pub fn a_path_is_determined_by_its_links()
    ensures { (toward onward : ℕ) (named : End → Option End) (start : End) (xs ys : List Ref) (f g : Option End) → entered_object toward f ≡ None → entered_object toward g ≡ None →
        IsPath toward onward named start xs f → IsPath toward onward named start ys g → (xs ≡ ys) × (f ≡ g) }
{}

/// No object stands twice on a path.
pub fn a_path_passes_no_object_twice()
    ensures once { (toward onward : ℕ) (named : End → Option End) (start : End) (refs : List Ref) (finish : Option End) → toward ≢ onward → WellPaired named → IsOutside toward onward start →
        IsPath toward onward named start refs finish → AllPairs ◌≢◌ refs }
    ensures beside { (toward onward : ℕ) (named : End → Option End) (start : End) (r : Ref) (xs ys : List Ref) (finish : Option End) → toward ≢ onward → WellPaired named → IsOutside toward onward start →
        IsPath toward onward named start (xs ++ (r ∷ ys)) finish → Contains (xs ++ ys) r → ⊥ }
{}

/// An object of a path has the link toward the start set; it names the end before the object, and never the object's own link onward. Where the path
/// ends in an end, that names the last end of the path, and each object has the link onward set.
pub fn an_object_of_a_path_has_both_links_set()
    ensures toward { (toward onward : ℕ) (named : End → Option End) (start : End) (refs : List Ref) (finish : Option End) → WellPaired named →
        IsPath toward onward named start refs finish → (r : Ref) → Contains refs r → IsSome (named (Obj r toward)) }
    ensures onward { (toward onward : ℕ) (named : End → Option End) (start finish : End) (refs : List Ref) →
        IsPath toward onward named start refs (Some finish) → (r : Ref) → Contains refs r → IsSome (named (Obj r onward)) }
    ensures before { (toward onward : ℕ) (named : End → Option End) (start : End) (r : Ref) (xs ys : List Ref) (finish : Option End) → WellPaired named →
        IsPath toward onward named start (xs ++ (r ∷ ys)) finish → named (Obj r toward) ≡ Some (behind onward start xs) }
    ensures last { (toward onward : ℕ) (named : End → Option End) (start finish : End) (refs : List Ref) → WellPaired named →
        IsPath toward onward named start refs (Some finish) → named finish ≡ Some (behind onward start refs) }
    ensures apart { (toward onward : ℕ) (named : End → Option End) (start : End) (refs : List Ref) (finish : Option End) → toward ≢ onward → WellPaired named → IsOutside toward onward start →
        IsPath toward onward named start refs finish → (r : Ref) → Contains refs r → named (Obj r toward) ≢ Some (Obj r onward) }
{}

/// Where a path ends in an end, the links lead back from there through the same objects; and back from an object to the start.
pub fn a_path_leads_back()
    ensures whole { (toward onward : ℕ) (named : End → Option End) (start finish : End) (refs : List Ref) → WellPaired named →
        IsPath toward onward named start refs (Some finish) → IsPath onward toward named finish (reverse refs) (Some start) }
    ensures before { (toward onward : ℕ) (named : End → Option End) (start : End) (r : Ref) (xs ys : List Ref) (finish : Option End) → WellPaired named →
        IsPath toward onward named start (xs ++ (r ∷ ys)) finish → IsPath onward toward named (Obj r toward) (reverse xs) (Some start) }
{}

/// A walk of at least as many steps as a path has objects finds these.
pub fn a_walk_finds_the_path()
    ensures { (most toward onward : ℕ) (named : End → Option End) (start : End) (refs : List Ref) (finish : Option End) → length refs ≤ most → entered_object toward finish ≡ None →
        IsPath toward onward named start refs finish → walk most toward onward named start ≡ refs }
{}

/// A path has at most as many objects as there are, and these take at most as many bytes as are live. So a walk of as many steps as there are objects finds it.
pub fn a_path_has_at_most_the_objects()
    ensures few { (v : View) (toward onward : ℕ) (start : End) (refs : List Ref) (finish : Option End) → toward ≢ onward → IsWell v → IsSummed v → IsOutside toward onward start →
        IsPath toward onward (link_of v) start refs finish → length refs ≤ objects v }
    ensures bytes { (v : View) (toward onward : ℕ) (start : End) (refs : List Ref) (finish : Option End) → toward ≢ onward → IsWell v → IsSummed v → IsOutside toward onward start →
        IsPath toward onward (link_of v) start refs finish → sum_by (λ r. object_extent (body v r)) refs ≤ live_bytes v }
    ensures walked { (v : View) (toward onward : ℕ) (start : End) (refs : List Ref) (finish : Option End) → toward ≢ onward → IsWell v → IsSummed v → IsOutside toward onward start → entered_object toward finish ≡ None →
        IsPath toward onward (link_of v) start refs finish → walk (objects v) toward onward (link_of v) start ≡ refs }
{}
