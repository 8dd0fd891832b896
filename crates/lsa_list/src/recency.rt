//! Objects by recency of use.
ghost use Rattle.std.specs.Prelude.{◌≡◌, ◌≢◌, ℕ, List as Sequence, [], ◌∷◌, ◌++◌, None};
ghost use Rattle.lsa_region.specs.Ref.{Ref as Name};
ghost use Rattle.lsa_region.specs.Region.{link_of, IsWell, SameObjects};
ghost use Rattle.lsa_list.specs.Recency.{HasRecency, IsList, IsElsewhere, first};
ghost use Rattle.lsa_list.specs.calls.Recency.{object_of};

use lsa_path::{insert_behind, take_out};
use lsa_region::{End, Ref, Region, Root};

/// The recency list between two root slots: a list of references, the least recent first. Where it is empty, the slots name each other.
#[derive(Clone, Copy, Debug, PartialEq, Eq)]
pub struct List {
    /// The slot before the least recent object.
    pub front: Root,
    /// The slot behind the most recent object.
    pub back: Root,
}

impl List {
    /// Puts an object that is in no recency list at the back, as the most recent one.
    pub fn push_back<const S: usize>(&self, region: &mut Region<S>, r: Ref)
        requires list { (xs : Sequence Name) × IsList self.now region.old xs }
        requires recency { HasRecency region.old r }
        requires first_unset { link_of region.old (End.Obj r 0) ≡ None }
        requires second_unset { link_of region.old (End.Obj r 1) ≡ None }
        ensures pushed { (xs : Sequence Name) → IsList self.now region.old xs → IsList self.now region.new (xs ++ (r ∷ [])) }
        ensures elsewhere { (e : End) → IsElsewhere self.now region.old e → link_of region.new e ≡ link_of region.old e }
        ensures unset { (e : End) → link_of region.old e ≡ None → e ≢ End.Obj r 0 → e ≢ End.Obj r 1 → link_of region.new e ≡ None }
        ensures objects { SameObjects region.old region.new }
        ensures well { IsWell region.new }
    {
        region.known();
        match region.root(self.back) {
            Some(last) => insert_behind(region, last, r, 0, 1),
            None => unreachable!(),
        }
    }

    /// Takes an object of the list out. It is in no recency list then.
    pub fn remove<const S: usize>(&self, region: &mut Region<S>, r: Ref)
        requires { (xs : Sequence Name) × (ys : Sequence Name) × IsList self.now region.old (xs ++ (r ∷ ys)) }
        ensures removed { (xs ys : Sequence Name) → IsList self.now region.old (xs ++ (r ∷ ys)) → IsList self.now region.new (xs ++ ys) }
        ensures first_unset { link_of region.new (End.Obj r 0) ≡ None }
        ensures second_unset { link_of region.new (End.Obj r 1) ≡ None }
        ensures elsewhere { (e : End) → IsElsewhere self.now region.old e → link_of region.new e ≡ link_of region.old e }
        ensures unset { (e : End) → link_of region.old e ≡ None → link_of region.new e ≡ None }
        ensures objects { SameObjects region.old region.new }
        ensures well { IsWell region.new }
    {
        region.known();
        take_out(region, r, 0, 1);
    }

    /// Makes an object of the list the most recent one.
    pub fn touch<const S: usize>(&self, region: &mut Region<S>, r: Ref)
        requires { (xs : Sequence Name) × (ys : Sequence Name) × IsList self.now region.old (xs ++ (r ∷ ys)) }
        ensures touched { (xs ys : Sequence Name) → IsList self.now region.old (xs ++ (r ∷ ys)) → IsList self.now region.new ((xs ++ ys) ++ (r ∷ [])) }
        ensures elsewhere { (e : End) → IsElsewhere self.now region.old e → link_of region.new e ≡ link_of region.old e }
        ensures unset { (e : End) → link_of region.old e ≡ None → link_of region.new e ≡ None }
        ensures objects { SameObjects region.old region.new }
        ensures well { IsWell region.new }
    {
        region.known();
        self.remove(region, r);
        self.push_back(region, r);
    }

    /// The least recent object; None exactly where the list is empty.
    pub fn front<const S: usize>(&self, region: &Region<S>) -> Option<Ref>
        requires { (xs : Sequence Name) × IsList self.now region.now xs }
        ensures { (xs : Sequence Name) → IsList self.now region.now xs → result ≡ first xs }
    {
        region.known();
        object(region.root(self.front))
    }

    /// The object that is next more recent than an object of the list; None exactly where that is the most recent one.
    pub fn next<const S: usize>(&self, region: &Region<S>, r: Ref) -> Option<Ref>
        requires { (xs : Sequence Name) × (ys : Sequence Name) × IsList self.now region.now (xs ++ (r ∷ ys)) }
        ensures { (xs ys : Sequence Name) → IsList self.now region.now (xs ++ (r ∷ ys)) → result ≡ first ys }
    {
        region.known();
        object(region.link_of(End::Obj(r, 1)))
    }
}

// The object of which a link is named, if one is.
fn object(named: Option<End>) -> Option<Ref>
    ensures { result ≡ object_of named }
{
    match named {
        Some(End::Obj(r, _)) => Some(r),
        Some(End::Slot(_)) => None,
        None => None,
    }
}
