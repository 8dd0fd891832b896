//! Objects on a path.
ghost use Rattle.std.specs.Prelude.{◌≡◌, ◌≢◌, ℕ, List, ◌∷◌, ◌++◌, map, Option, Some, None, IsSome, Contains};
ghost use Rattle.std.specs.Option.{option_map};
ghost use Rattle.lsa_region.specs.Ref.{Ref as Name};
ghost use Rattle.lsa_region.specs.Ends.{named_as};
ghost use Rattle.lsa_region.specs.Region.{link_of, IsEnd, IsWell, SameObjects};
ghost use Rattle.lsa_path.specs.Path.{IsPath, IsOutside, IsOutsideOrUnset, behind, IsInserted, IsTakenOut, exchanged_end, each_other};

use lsa_region::{End, Ref, Region};

/// Puts an object, whose links `toward` and `onward` are unset, behind an end: the end and the link `toward` name each other, and what
/// the end named is the mate of the link `onward`. So a path that passes the end has the object there. Ends beside such a path stay as they are.
pub fn insert_behind<const S: usize>(region: &mut Region<S>, a: End, r: Ref, toward: u8, onward: u8)
    requires there { IsEnd region.old a }
    requires first { IsEnd region.old (End.Obj r toward) }
    requires second { IsEnd region.old (End.Obj r onward) }
    requires first_unset { link_of region.old (End.Obj r toward) ≡ None }
    requires second_unset { link_of region.old (End.Obj r onward) ≡ None }
    requires differ { toward ≢ onward }
    requires apart { a ≢ End.Obj r toward }
    requires other { a ≢ End.Obj r onward }
    ensures inserted { IsInserted (link_of region.old) (link_of region.new) a (End.Obj r toward) (End.Obj r onward) }
    ensures path { (start : End) (xs ys : List Name) (finish : Option End) → IsOutside toward onward start → IsOutsideOrUnset toward onward finish → IsPath toward onward (link_of region.old) start (xs ++ ys) finish → behind onward start xs ≡ a → IsPath toward onward (link_of region.new) start (xs ++ (r ∷ ys)) finish }
    ensures beside { (start : End) (xs ys : List Name) (finish : Option End) → IsPath toward onward (link_of region.old) start (xs ++ ys) finish → behind onward start xs ≡ a → (e : End) → IsOutside toward onward e → start ≢ e → finish ≢ Some e → link_of region.new e ≡ link_of region.old e }
    ensures objects { SameObjects region.old region.new }
    ensures well { IsWell region.new }
{
    region.known();
    let (first, second) = (End::Obj(r, toward), End::Obj(r, onward));
    match region.link_of(a) {
        Some(_) => {
            let mate = region.unlink(a);
            region.link(a, first);
            region.link(second, mate);
        }
        None => region.link(a, first),
    }
}

/// Takes an object out: the mates of its links `toward` and `onward` name each other, and these links are unset. So a path that
/// passes the object goes on without it. Ends beside such a path stay as they are.
pub fn take_out<const S: usize>(region: &mut Region<S>, r: Ref, toward: u8, onward: u8)
    requires first { IsEnd region.old (End.Obj r toward) }
    requires second { IsEnd region.old (End.Obj r onward) }
    requires set { IsSome (link_of region.old (End.Obj r toward)) }
    requires differ { toward ≢ onward }
    requires apart { link_of region.old (End.Obj r toward) ≢ Some (End.Obj r onward) }
    ensures taken { IsTakenOut (link_of region.old) (link_of region.new) (End.Obj r toward) (End.Obj r onward) }
    ensures path { (start : End) (xs ys : List Name) (finish : Option End) → IsOutside toward onward start → IsOutsideOrUnset toward onward finish → IsPath toward onward (link_of region.old) start (xs ++ (r ∷ ys)) finish → IsPath toward onward (link_of region.new) start (xs ++ ys) finish }
    ensures beside { (start : End) (xs ys : List Name) (finish : Option End) → IsPath toward onward (link_of region.old) start (xs ++ (r ∷ ys)) finish → (e : End) → IsOutside toward onward e → start ≢ e → finish ≢ Some e → link_of region.new e ≡ link_of region.old e }
    ensures objects { SameObjects region.old region.new }
    ensures well { IsWell region.new }
{
    region.known();
    let second = End::Obj(r, onward);
    let mate = region.unlink(End::Obj(r, toward));
    match region.link_of(second) {
        Some(_) => {
            let next = region.unlink(second);
            region.link(mate, next);
        }
        None => {}
    }
}

/// Lets two objects change places in the links `toward` and `onward`: what named a link of one names the same link of the other. So each stands on
/// paths where the other stood.
pub fn exchange_objects<const S: usize>(
    region: &mut Region<S>,
    r: Ref,
    q: Ref,
    toward: u8,
    onward: u8,
)
    requires first { IsEnd region.old (End.Obj r toward) }
    requires second { IsEnd region.old (End.Obj r onward) }
    requires third { IsEnd region.old (End.Obj q toward) }
    requires fourth { IsEnd region.old (End.Obj q onward) }
    requires differ { toward ≢ onward }
    requires apart { r ≢ q }
    ensures exchanged { (e : End) → link_of region.new (exchanged_end toward onward r q e) ≡ option_map (exchanged_end toward onward r q) (link_of region.old e) }
    ensures paths { (start : End) (refs : List Name) (finish : Option End) → IsOutside toward onward start → IsOutsideOrUnset toward onward finish → IsPath toward onward (link_of region.old) start refs finish → IsPath toward onward (link_of region.new) start (map (named_as (each_other r q)) refs) finish }
    ensures path { (start : End) (xs ys : List Name) (finish : Option End) → IsOutside toward onward start → IsOutsideOrUnset toward onward finish → (Contains (xs ++ ys) q → ⊥) → IsPath toward onward (link_of region.old) start (xs ++ (r ∷ ys)) finish → IsPath toward onward (link_of region.new) start (xs ++ (q ∷ ys)) finish }
    ensures beside { (e : End) → IsOutside toward onward e → IsOutsideOrUnset toward onward (link_of region.old e) → link_of region.new e ≡ link_of region.old e }
    ensures objects { SameObjects region.old region.new }
    ensures well { IsWell region.new }
{
    region.known();
    region.exchange(End::Obj(r, toward), End::Obj(q, toward));
    region.exchange(End::Obj(r, onward), End::Obj(q, onward));
}
