//! Entries in the order of their positions.
ghost use Rattle.std.specs.Prelude.{◌≡◌, ◌≢◌, ◌+◌, ◌*◌, ◌^◌, ◌<◌, ◌≤◌, ℕ, List, ◌∷◌, ◌++◌, length, Contains};
ghost use Rattle.rc_position.specs.declared.positions.Pos.{Pos as Position};
ghost use Rattle.rc_position.specs.Position.{row_pos};
ghost use Rattle.lsa_region.specs.Ref.{Ref as Name};
ghost use Rattle.lsa_region.specs.declared.end.End.{End as Link};
ghost use Rattle.lsa_region.specs.Region.{body, link_of, IsWell};
ghost use Rattle.lsa_tree.specs.declared.tree.Tree.{Tree as Ordered};
ghost use Rattle.lsa_tree.specs.Entries.{IsEntryAtPosition, BelongsBetween, balance_of};
ghost use Rattle.lsa_tree.specs.Tree.{IsTree, IsLoose, IsOffTree, SameButBalances};
ghost use Rattle.lsa_tree.specs.Search.{IsFound, first_entry, last_entry};

use crate::links::{LEFT, PARENT, RIGHT, below, door, owner, set_balance, trade};
use crate::mending::{fall, grow};
use crate::removal::pluck;
use crate::search::{Sought, next_place, position, seek};
use crate::walk::{edge, neighbour};
use lsa_region::{End, Ref, Region};
use lsa_shape::Flank;
use rc_position::{Key, Pos, Steps};
use rc_rowcode::compare_code_with_pos_counted;
use std::cmp::Ordering;
use std::sync::ledger::Ledger;

/// The entries of a version, ascending by their positions: the link of the version to them.
#[derive(Clone, Copy, Debug, PartialEq, Eq)]
pub struct Tree {
    /// The version's link to its entries.
    pub top: End,
}

/// What a search for a position finds.
#[derive(Clone, Copy, Debug, PartialEq, Eq)]
pub enum Place {
    /// The entry at the position.
    Here(Ref),
    /// The next entry behind it, where none is at it.
    Before(Ref),
    /// Neither an entry at it nor one behind it.
    Last,
}

impl Tree {
    /// What stands at a position: the entry there, or else the next one, or none. It compares the position with each entry once at most, and
    /// with no more than 2 d of them where 2 ^ d is greater than their number and one, and counts these comparisons.
    pub fn find<const S: usize, L: Ledger>(
        &self,
        region: &Region<S>,
        x: &Pos,
        steps: &mut Steps<L>,
    ) -> Place
        requires { (refs : List Name) × IsTree self.now region.now refs }
        ensures found { (refs : List Name) → IsTree self.now region.now refs → IsFound region.now refs x.now result }
        ensures most { (refs : List Name) → IsTree self.now region.now refs → steps.new ≤ steps.old + length refs }
        ensures bounded { (refs : List Name) (d : ℕ) → IsTree self.now region.now refs → length refs + 1 < 2 ^ d → steps.new ≤ steps.old + 2 * d }
        ensures counted { (refs : List Name) → IsTree self.now region.now refs → 0 < length refs → steps.old < steps.new }
    {
        region.known();
        let mut at = self.top;
        let mut next = None;
        loop {
            match below(region, at) {
                None => return next_place(next),
                Some(r) => match compare_code_with_pos_counted(position(region, r), x, steps) {
                    Ordering::Less => at = End::Obj(r, RIGHT),
                    Ordering::Equal => return Place::Here(r),
                    Ordering::Greater => {
                        next = Some(r);
                        at = End::Obj(r, LEFT);
                    }
                },
            }
        }
    }

    /// The same as `find`, without counting.
    pub fn locate<const S: usize>(&self, region: &Region<S>, x: &Pos) -> Place
        requires { (refs : List Name) × IsTree self.now region.now refs }
        ensures { (refs : List Name) → IsTree self.now region.now refs → IsFound region.now refs x.now result }
    {
        seek(region, *self, Sought::Bound(x)).1
    }

    /// The same for the position of the row of a key.
    pub fn locate_key<const S: usize>(&self, region: &Region<S>, key: &Key) -> Place
        requires { (refs : List Name) × IsTree self.now region.now refs }
        ensures { (refs : List Name) → IsTree self.now region.now refs → IsFound region.now refs (row_pos key.now) result }
    {
        seek(region, *self, Sought::Row(key)).1
    }

    /// The same for the position of an entry of any tree, or of none.
    pub fn find_like<const S: usize>(&self, region: &Region<S>, e: Ref) -> Place
        requires tree { (refs : List Name) × IsTree self.now region.now refs }
        requires entry { (x : Position) × IsEntryAtPosition region.now e x }
        ensures { (refs : List Name) (x : Position) → IsTree self.now region.now refs → IsEntryAtPosition region.now e x → IsFound region.now refs x result }
    {
        seek(region, *self, Sought::Code(position(region, e))).1
    }

    /// The first entry; None exactly where there is none.
    pub fn first<const S: usize>(&self, region: &Region<S>) -> Option<Ref>
        requires { (refs : List Name) × IsTree self.now region.now refs }
        ensures { (refs : List Name) → IsTree self.now region.now refs → result ≡ first_entry refs }
    {
        region.known();
        edge(region, Flank::Low, self.top)
    }

    /// The entry behind one of the entries; None exactly where that is the last one.
    pub fn next<const S: usize>(&self, region: &Region<S>, r: Ref) -> Option<Ref>
        requires { (front : List Name) × (back : List Name) × IsTree self.now region.now (front ++ (r ∷ back)) }
        ensures { (front back : List Name) → IsTree self.now region.now (front ++ (r ∷ back)) → result ≡ first_entry back }
    {
        neighbour(region, Flank::High, r)
    }

    /// The entry before one of the entries; None exactly where that is the first one.
    pub fn prev<const S: usize>(&self, region: &Region<S>, r: Ref) -> Option<Ref>
        requires { (front : List Name) × (back : List Name) × IsTree self.now region.now (front ++ (r ∷ back)) }
        ensures { (front back : List Name) → IsTree self.now region.now (front ++ (r ∷ back)) → result ≡ last_entry front }
    {
        neighbour(region, Flank::Low, r)
    }

    /// Puts a loose entry where it belongs: none of the entries stands at its position.
    pub fn insert<const S: usize>(&self, region: &mut Region<S>, r: Ref)
        requires loose { IsLoose region.old r }
        requires belongs { (front : List Name) × (back : List Name) × (x : Position) × IsTree self.now region.old (front ++ back) × IsEntryAtPosition region.old r x × BelongsBetween region.old x front back }
        ensures inserted { (front back : List Name) (x : Position) → IsTree self.now region.old (front ++ back) → IsEntryAtPosition region.old r x → BelongsBetween region.old x front back → IsTree self.now region.new (front ++ (r ∷ back)) }
        ensures others { (other : Ordered) (refs : List Name) → other.top ≢ self.now.top → IsTree other region.old refs → IsTree other region.new refs }
        ensures loose { (q : Name) → q ≢ r → IsLoose region.old q → IsLoose region.new q }
        ensures elsewhere { (e : Link) → IsOffTree region.old e → link_of region.new e ≡ link_of region.old e }
        ensures objects { (refs : List Name) → IsTree self.now region.old refs → SameButBalances region.old region.new refs }
        ensures well { IsWell region.new }
    {
        region.known();
        let (at, _) = seek(region, *self, Sought::Code(position(region, r)));
        region.link(at, End::Obj(r, PARENT));
        grow(region, at);
    }

    /// Takes one of the entries out. It is loose then.
    pub fn remove<const S: usize>(&self, region: &mut Region<S>, r: Ref)
        requires { (front : List Name) × (back : List Name) × IsTree self.now region.old (front ++ (r ∷ back)) }
        ensures removed { (front back : List Name) → IsTree self.now region.old (front ++ (r ∷ back)) → IsTree self.now region.new (front ++ back) }
        ensures others { (other : Ordered) (refs : List Name) → other.top ≢ self.now.top → IsTree other region.old refs → IsTree other region.new refs }
        ensures out { IsLoose region.new r }
        ensures loose { (q : Name) → IsLoose region.old q → IsLoose region.new q }
        ensures elsewhere { (e : Link) → IsOffTree region.old e → link_of region.new e ≡ link_of region.old e }
        ensures objects { (refs : List Name) → IsTree self.now region.old refs → SameButBalances region.old region.new refs }
        ensures well { IsWell region.new }
    {
        region.known();
        let at = pluck(region, r);
        set_balance(region, r, 0);
        fall(region, at);
    }

    /// Puts a loose entry into the place of one of the entries, at whose position it stands: no search. It has that one's balance then, and that one is loose.
    pub fn replace<const S: usize>(&self, region: &mut Region<S>, old: Ref, new: Ref)
        requires stands { (front : List Name) × (back : List Name) × IsTree self.now region.old (front ++ (old ∷ back)) }
        requires loose { IsLoose region.old new }
        requires alike { (x : Position) × IsEntryAtPosition region.old old x × IsEntryAtPosition region.old new x }
        ensures replaced { (front back : List Name) → IsTree self.now region.old (front ++ (old ∷ back)) → IsTree self.now region.new (front ++ (new ∷ back)) }
        ensures others { (other : Ordered) (refs : List Name) → other.top ≢ self.now.top → IsTree other region.old refs → IsTree other region.new refs }
        ensures out { IsLoose region.new old }
        ensures loose { (q : Name) → q ≢ new → IsLoose region.old q → IsLoose region.new q }
        ensures balance { balance_of region.new new ≡ balance_of region.old old }
        ensures elsewhere { (e : Link) → IsOffTree region.old e → link_of region.new e ≡ link_of region.old e }
        ensures objects { (refs : List Name) → IsTree self.now region.old refs → SameButBalances region.old region.new (new ∷ refs) }
        ensures well { IsWell region.new }
    {
        region.known();
        trade(region, old, new);
    }
}

/// The top of the tree in which an entry stands.
pub fn top_of<const S: usize>(region: &Region<S>, r: Ref) -> End
    requires { (tree : Ordered) × (refs : List Name) × IsTree tree region.now refs × Contains refs r }
    ensures { (tree : Ordered) (refs : List Name) → IsTree tree region.now refs → Contains refs r → result ≡ tree.top }
{
    region.known();
    let mut at = r;
    loop {
        let end = door(region, at);
        match owner(end) {
            None => return end,
            Some((_, q)) => at = q,
        }
    }
}
