//! Steps of one structure beside the others.
ghost use Rattle.std.specs.Prelude.{◌≡◌, ◌≢◌, List as Sequence, [], ◌∷◌, ◌++◌, Option, Some, None, Contains};
ghost use Rattle.lsa_store.specs.declared.place.Ref.{Ref as Name};
ghost use Rattle.lsa_region.specs.declared.end.Root.{Root as Place};
ghost use Rattle.lsa_region.specs.Region.{link_of, IsEnd, IsWell, SameObjects};
ghost use Rattle.std.specs.Option.{option_map};
ghost use Rattle.lsa_path.specs.Path.{behind, exchanged_end, IsInserted, IsTakenOut};
ghost use Rattle.lsa_list.specs.declared.recency.List.{List as Slots};
ghost use Rattle.lsa_list.specs.Recency.{kind_of};
ghost use Rattle.lsa_rooms.specs.Room.{StandsInRegion};

use lsa_kinds::Kind;
use lsa_path::{exchange_objects, insert_behind, take_out};
use lsa_region::{End, Ref, Region, Root};

/// Makes a version, whose links to others are unset, the newest one of a chain.
pub fn add_version<const S: usize>(region: &mut Region<S>, chain: Root, r: Ref)
    requires there { IsEnd region.old (End.Slot chain) }
    requires version { kind_of region.old r ≡ Some Kind.Version }
    requires older { link_of region.old (End.Obj r 0) ≡ None }
    requires newer { link_of region.old (End.Obj r 1) ≡ None }
    ensures added { (slots : Slots) (versions : Sequence Name) (top : Name) (entries listed : Sequence Name) → StandsInRegion chain slots region.old versions top entries listed → StandsInRegion chain slots region.new (r ∷ versions) top entries listed }
    ensures links { IsInserted (link_of region.old) (link_of region.new) (End.Slot chain) (End.Obj r 1) (End.Obj r 0) }
    ensures objects { SameObjects region.old region.new }
    ensures well { IsWell region.new }
{
    region.known();
    insert_behind(region, End::Slot(chain), r, 1, 0);
}

/// Takes a version out of a chain.
pub fn drop_version<const S: usize>(region: &mut Region<S>, chain: Root, r: Ref)
    requires { (slots : Slots) × (xs : Sequence Name) × (ys : Sequence Name) × (top : Name) × (entries : Sequence Name) × (listed : Sequence Name) × StandsInRegion chain slots region.old (xs ++ (r ∷ ys)) top entries listed }
    ensures dropped { (slots : Slots) (xs ys : Sequence Name) (top : Name) (entries listed : Sequence Name) → StandsInRegion chain slots region.old (xs ++ (r ∷ ys)) top entries listed → StandsInRegion chain slots region.new (xs ++ ys) top entries listed }
    ensures links { IsTakenOut (link_of region.old) (link_of region.new) (End.Obj r 1) (End.Obj r 0) }
    ensures older { link_of region.new (End.Obj r 0) ≡ None }
    ensures newer { link_of region.new (End.Obj r 1) ≡ None }
    ensures objects { SameObjects region.old region.new }
    ensures well { IsWell region.new }
{
    region.known();
    take_out(region, r, 1, 0);
}

/// Puts an entry, whose links to the left and the right are unset, behind an end of the ordered list.
pub fn insert<const S: usize>(region: &mut Region<S>, _top: Ref, at: End, r: Ref)
    requires there { IsEnd region.old at }
    requires dummy { kind_of region.old r ≡ Some Kind.Dummy }
    requires left { link_of region.old (End.Obj r 3) ≡ None }
    requires right { link_of region.old (End.Obj r 4) ≡ None }
    requires apart { at ≢ End.Obj r 3 }
    requires other { at ≢ End.Obj r 4 }
    ensures inserted { (chain : Place) (slots : Slots) (versions xs ys listed : Sequence Name) → StandsInRegion chain slots region.old versions _top (xs ++ ys) listed → behind 4 (End.Obj _top 2) xs ≡ at → StandsInRegion chain slots region.new versions _top (xs ++ (r ∷ ys)) listed }
    ensures links { IsInserted (link_of region.old) (link_of region.new) at (End.Obj r 3) (End.Obj r 4) }
    ensures objects { SameObjects region.old region.new }
    ensures well { IsWell region.new }
{
    region.known();
    insert_behind(region, at, r, 3, 4);
}

/// Takes an entry out of the ordered list of a version.
pub fn take<const S: usize>(region: &mut Region<S>, _top: Ref, r: Ref)
    requires { (chain : Place) × (slots : Slots) × (versions : Sequence Name) × (xs : Sequence Name) × (ys : Sequence Name) × (listed : Sequence Name) × StandsInRegion chain slots region.old versions _top (xs ++ (r ∷ ys)) listed }
    ensures taken { (chain : Place) (slots : Slots) (versions xs ys listed : Sequence Name) → StandsInRegion chain slots region.old versions _top (xs ++ (r ∷ ys)) listed → StandsInRegion chain slots region.new versions _top (xs ++ ys) listed }
    ensures links { IsTakenOut (link_of region.old) (link_of region.new) (End.Obj r 3) (End.Obj r 4) }
    ensures left { link_of region.new (End.Obj r 3) ≡ None }
    ensures right { link_of region.new (End.Obj r 4) ≡ None }
    ensures objects { SameObjects region.old region.new }
    ensures well { IsWell region.new }
{
    region.known();
    take_out(region, r, 3, 4);
}

/// Puts another entry, that is in no ordered list, in the place of one.
pub fn replace<const S: usize>(region: &mut Region<S>, _top: Ref, r: Ref, q: Ref)
    requires stands { (chain : Place) × (slots : Slots) × (versions : Sequence Name) × (xs : Sequence Name) × (ys : Sequence Name) × (listed : Sequence Name) × StandsInRegion chain slots region.old versions _top (xs ++ (r ∷ ys)) listed }
    requires dummy { kind_of region.old q ≡ Some Kind.Dummy }
    requires left { link_of region.old (End.Obj q 3) ≡ None }
    requires right { link_of region.old (End.Obj q 4) ≡ None }
    requires apart { r ≢ q }
    ensures replaced { (chain : Place) (slots : Slots) (versions xs ys listed : Sequence Name) → StandsInRegion chain slots region.old versions _top (xs ++ (r ∷ ys)) listed → StandsInRegion chain slots region.new versions _top (xs ++ (q ∷ ys)) listed }
    ensures links { (e : End) → link_of region.new (exchanged_end 3 4 r q e) ≡ option_map (exchanged_end 3 4 r q) (link_of region.old e) }
    ensures left { link_of region.new (End.Obj r 3) ≡ None }
    ensures right { link_of region.new (End.Obj r 4) ≡ None }
    ensures objects { SameObjects region.old region.new }
    ensures well { IsWell region.new }
{
    region.known();
    exchange_objects(region, r, q, 3, 4);
}

/// The newest version of a chain; None exactly where there is none.
pub fn newest<const S: usize>(region: &Region<S>, chain: Root) -> Option<Ref>
    requires { IsEnd region.now (End.Slot chain) }
    ensures none { (slots : Slots) (top : Name) (entries listed : Sequence Name) → StandsInRegion chain slots region.now [] top entries listed → result ≡ None }
    ensures some { (slots : Slots) (newer : Name) (versions : Sequence Name) (top : Name) (entries listed : Sequence Name) → StandsInRegion chain slots region.now (newer ∷ versions) top entries listed → result ≡ Some newer }
{
    match region.root(chain) {
        Some(End::Obj(r, _)) => Some(r),
        Some(End::Slot(_)) => None,
        None => None,
    }
}

/// The first entry of the ordered list of a version; None exactly where there is none.
pub fn first_entry<const S: usize>(region: &Region<S>, top: Ref) -> Option<Ref>
    requires { IsEnd region.now (End.Obj top 2) }
    ensures none { (chain : Place) (slots : Slots) (versions listed : Sequence Name) → StandsInRegion chain slots region.now versions top [] listed → result ≡ None }
    ensures some { (chain : Place) (slots : Slots) (versions : Sequence Name) (first : Name) (entries listed : Sequence Name) → StandsInRegion chain slots region.now versions top (first ∷ entries) listed → result ≡ Some first }
{
    match region.link_of(End::Obj(top, 2)) {
        Some(End::Obj(r, _)) => Some(r),
        Some(End::Slot(_)) => None,
        None => None,
    }
}
