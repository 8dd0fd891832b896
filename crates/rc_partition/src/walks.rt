//! Walks along the versions of a partition.
ghost use Rattle.std.specs.Prelude.{◌≡◌, ◌≤◌, List, ◌∷◌, ◌++◌, length, Some, None, IsSome, Contains};
ghost use Rattle.lsa_store.specs.declared.place.Ref.{Ref as Name};
ghost use Rattle.lsa_region.specs.declared.end.Root.{Root as Place};
ghost use Rattle.lsa_region.specs.Region.{link_of, objects, IsEnd};
ghost use Rattle.lsa_list.specs.calls.Recency.{object_of};
ghost use Rattle.lsa_path.specs.Path.{IsPath};
ghost use Rattle.rc_version.specs.Versions.{IsStaticsOf, IsVersionOf};
ghost use Rattle.rc_partition.specs.Partitions.{StandingVersion, IsRowOfVersion};

use lsa_kinds::Kind;
use lsa_region::{End, Ref, Region, Root};
use rc_version::top_of;

// The object that an end names; None where it names a root slot, or nothing.
fn object_at<const S: usize>(region: &Region<S>, at: End) -> Option<Ref>
    requires { IsEnd region.now at }
    ensures { result ≡ object_of (link_of region.now at) }
{
    match region.link_of(at) {
        Some(End::Obj(r, _field)) => Some(r),
        Some(End::Slot(_root)) => None,
        None => None,
    }
}

// The object that an end names.
fn named<const S: usize>(region: &Region<S>, at: End) -> Ref
    requires there { IsEnd region.now at }
    requires set { IsSome (object_of (link_of region.now at)) }
    ensures { object_of (link_of region.now at) ≡ Some result }
{
    match object_at(region, at) {
        Some(r) => r,
        None => unreachable!(),
    }
}

// The object of an end that is an object's.
fn object(end: End) -> Ref
    requires { IsSome (object_of (Some end)) }
    ensures { object_of (Some end) ≡ Some result }
{
    match end {
        End::Obj(r, _field) => r,
        End::Slot(_root) => unreachable!(),
    }
}

/// How many versions the chain leads through from an end.
pub(crate) fn chained<const S: usize>(region: &Region<S>, start: End) -> u64
    requires there { IsEnd region.now start }
    requires path { (xs : List Name) × IsPath 1 0 (link_of region.now) start xs None × (length xs ≤ objects region.now) }
    ensures { (xs : List Name) → IsPath 1 0 (link_of region.now) start xs None → result ≡ length xs }
{
    region.known();
    let most = region.objects();
    let mut at = start;
    for passed in 0..most {
        match object_at(region, at) {
            Some(r) => at = End::Obj(r, 0),
            None => return passed,
        }
    }
    most
}

/// The version of a chain over which so many newer ones stand.
pub(crate) fn below_newer<const S: usize>(region: &Region<S>, root: Root, newer: u64) -> Ref
    requires there { IsEnd region.now (End.Slot root) }
    requires path { (xs : List Name) × (n : Name) × (ys : List Name) × IsPath 1 0 (link_of region.now) (End.Slot root) (xs ++ (n ∷ ys)) None × (length xs ≡ newer) }
    ensures { (xs : List Name) (n : Name) (ys : List Name) → IsPath 1 0 (link_of region.now) (End.Slot root) (xs ++ (n ∷ ys)) None → length xs ≡ newer → result ≡ n }
{
    region.known();
    let mut at = End::Slot(root);
    for _passed in 0..newer {
        at = End::Obj(named(region, at), 0);
    }
    named(region, at)
}

/// The root slot of the chain in which a version stands.
pub(crate) fn root_over<const S: usize>(region: &Region<S>, n: Ref) -> Root
    requires { (root : Place) × (xs : List Name) × (ys : List Name) × IsPath 1 0 (link_of region.now) (End.Slot root) (xs ++ (n ∷ ys)) None }
    ensures { (root : Place) (xs ys : List Name) → IsPath 1 0 (link_of region.now) (End.Slot root) (xs ++ (n ∷ ys)) None → result ≡ root }
{
    region.known();
    let mut at = n;
    let most = region.objects();
    for _passed in 0..most {
        match region.link_of(End::Obj(at, 1)) {
            Some(End::Obj(newer, _field)) => at = newer,
            Some(End::Slot(root)) => return root,
            None => unreachable!(),
        }
    }
    unreachable!()
}

// The version of which an object is an entry.
fn owner_of_entry<const S: usize>(region: &Region<S>, r: Ref) -> Ref
    requires { (s : StandingVersion) × IsVersionOf region.now s.object s.entries s.version × Contains s.entries r }
    ensures { (s : StandingVersion) → IsVersionOf region.now s.object s.entries s.version → Contains s.entries r → result ≡ s.object }
{
    object(top_of(region, r))
}

// The version of which an object is the static row.
fn owner_of_static<const S: usize>(region: &Region<S>, r: Ref) -> Ref
    requires { (n : Name) × IsStaticsOf region.now n r }
    ensures { (n : Name) → IsStaticsOf region.now n r → result ≡ n }
{
    region.known();
    named(region, End::Obj(r, 2))
}

/// The version of which an object is an entry or the static row.
pub(crate) fn owner<const S: usize>(region: &Region<S>, r: Ref) -> Ref
    requires { (s : StandingVersion) × IsVersionOf region.now s.object s.entries s.version × IsRowOfVersion region.now s r }
    ensures { (s : StandingVersion) → IsVersionOf region.now s.object s.entries s.version → IsRowOfVersion region.now s r → result ≡ s.object }
{
    match region.kind(r) {
        Kind::RowEntry => owner_of_entry(region, r),
        Kind::Dummy => owner_of_entry(region, r),
        Kind::Static => owner_of_static(region, r),
        Kind::Version => unreachable!(),
    }
}
