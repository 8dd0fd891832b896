//! Walks along links, without comparisons: to the outermost entry below an end, and to the next one above an entry.
ghost use Rattle.std.specs.Prelude.{◌≡◌, ◌++◌, ◌∷◌, List, Some, None};
ghost use Rattle.lsa_region.specs.Ref.{Ref as Name};
ghost use Rattle.lsa_region.specs.declared.end.End.TheVariants.{Obj};
ghost use Rattle.lsa_region.specs.Region.{link_of};
ghost use Rattle.lsa_shape.specs.Flanks.{near_link};
ghost use Rattle.lsa_tree.specs.declared.tree.Tree.{Tree as Ordered};
ghost use Rattle.lsa_tree.specs.Tree.{IsTree};
ghost use Rattle.lsa_tree.specs.calls.Placing.{PlaceIn, outermost};
ghost use Rattle.lsa_tree.specs.calls.Walking.{neighbour_on};

use crate::links::{below, door, owner};
use lsa_region::{End, Ref, Region};
use lsa_shape::Flank;

/// The last entry on this side below an end. Nothing hangs on that side of it.
pub(crate) fn edge<const S: usize>(region: &Region<S>, side: Flank, start: End) -> Option<Ref>
    requires { PlaceIn region.now start }
    ensures found { (p : PlaceIn region.now start) → result ≡ outermost side None p.shape }
    ensures last { (r : Name) → result ≡ Some r → link_of region.now (Obj r (near_link side)) ≡ None }
{
    region.known();
    let mut found = None;
    let mut at = start;
    loop {
        match below(region, at) {
            None => return found,
            Some(r) => {
                found = Some(r);
                at = End::Obj(r, side.near());
            }
        }
    }
}

/// The first entry on the way up from an entry of which that one is on the other side.
fn above<const S: usize>(region: &Region<S>, side: Flank, start: Ref) -> Option<Ref>
    requires { (tree : Ordered) × (front : List Name) × (back : List Name) × IsTree tree region.now (front ++ (start ∷ back)) }
    ensures { (tree : Ordered) (front back : List Name) → IsTree tree region.now (front ++ (start ∷ back)) → link_of region.now (Obj start (near_link side)) ≡ None → result ≡ neighbour_on side front back }
{
    region.known();
    let mut r = start;
    loop {
        match owner(door(region, r)) {
            None => return None,
            Some((on, p)) => {
                if on.near() == side.near() {
                    r = p;
                } else {
                    return Some(p);
                }
            }
        }
    }
}

/// The next entry on this side of one of the entries of a tree.
pub(crate) fn neighbour<const S: usize>(region: &Region<S>, side: Flank, r: Ref) -> Option<Ref>
    requires { (tree : Ordered) × (front : List Name) × (back : List Name) × IsTree tree region.now (front ++ (r ∷ back)) }
    ensures { (tree : Ordered) (front back : List Name) → IsTree tree region.now (front ++ (r ∷ back)) → result ≡ neighbour_on side front back }
{
    region.known();
    match edge(region, side.other(), End::Obj(r, side.near())) {
        Some(q) => Some(q),
        None => above(region, side, r),
    }
}
