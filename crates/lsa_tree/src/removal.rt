//! An entry taken out of its tree.
ghost use Rattle.std.specs.Prelude.{◌≡◌, ◌++◌, ◌∷◌, ℕ, List};
ghost use Rattle.lsa_region.specs.Ref.{Ref as Name};
ghost use Rattle.lsa_region.specs.Region.{IsWell};
ghost use Rattle.lsa_shape.specs.Shapes.{TreeShape};
ghost use Rattle.lsa_shape.specs.Ways.{Fork};
ghost use Rattle.lsa_tree.specs.declared.tree.Tree.{Tree as Ordered};
ghost use Rattle.lsa_tree.specs.Tree.{IsTree};
ghost use Rattle.lsa_tree.specs.calls.Placing.{Loosened, IsCut, IsOut};

use crate::links::{LEFT, PARENT, RIGHT, below, door, trade};
use crate::walk::edge;
use lsa_region::{End, Ref, Region};
use lsa_shape::Flank;

// Cuts an entry off with nothing on its far side: what is on its near side comes into its place, whose end is the answer.
fn cut<const S: usize>(region: &mut Region<S>, side: Flank, r: Ref) -> End
    requires { Loosened region.old side r }
    ensures cut { (w : Loosened region.old side r) → IsCut region.old region.new side r w result }
    ensures well { IsWell region.new }
{
    region.known();
    let at = door(region, r);
    region.exchange(at, End::Obj(r, side.near()));
    region.unlink(End::Obj(r, PARENT));
    at
}

/// Takes an entry out of its tree, and gives the end from which on it is to be balanced: what hangs there is less deep by one. An entry with others on both
/// sides first changes places with the next one, which has none before it.
pub(crate) fn pluck<const S: usize>(region: &mut Region<S>, r: Ref) -> End
    requires { (tree : Ordered) × (front : List Name) × (back : List Name) × IsTree tree region.old (front ++ (r ∷ back)) }
    ensures out { (tree : Ordered) (front back : List Name) → IsTree tree region.old (front ++ (r ∷ back)) →
        (way : List Fork) × (shape : TreeShape) × (here : ℕ) × (depth : ℕ) × IsOut region.old region.new tree (front ++ (r ∷ back)) (front ++ back) r result way shape here depth }
    ensures well { IsWell region.new }
{
    region.known();
    match below(region, End::Obj(r, LEFT)) {
        None => cut(region, Flank::High, r),
        Some(_) => match edge(region, Flank::Low, End::Obj(r, RIGHT)) {
            None => cut(region, Flank::Low, r),
            Some(next) => {
                trade(region, r, next);
                cut(region, Flank::High, r)
            }
        },
    }
}
