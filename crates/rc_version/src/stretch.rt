//! The marks of a stretch of entries that stand there, each changed in the same way.
ghost use Rattle.std.specs.Prelude.{◌≡◌, ◌+◌, ◌≤◌, ◌↔◌, List, [], ◌∷◌, ◌++◌, Some, None, Contains, IsTrue};
ghost use Rattle.rc_position.specs.Position.{IsBefore};
ghost use Rattle.lsa_pool.specs.Room.{spare_of};
ghost use Rattle.lsa_store.specs.declared.place.Ref.{Ref as Name};
ghost use Rattle.lsa_region.specs.declared.end.End.{End as Link};
ghost use Rattle.lsa_region.specs.Region.{link_of, live_bytes, objects, IsWell};
ghost use Rattle.lsa_tree.specs.Entries.{IsEntryAtPosition};
ghost use Rattle.rc_core.specs.AtPlace.{HasEntryAt};
ghost use Rattle.rc_core.specs.Change.{with_gap, with_mark};
ghost use Rattle.rc_core.specs.Continuity.{with_entries};
ghost use Rattle.rc_core.specs.declared.entries.Entry.{Entry};
ghost use Rattle.rc_core.specs.Version.{Version};
ghost use Rattle.rc_version.specs.Versions.{IsVersionOf, IsKeptBeside, IsKeptBut, IsNoneMade, IsPartOf, mark_after, marked_between};
ghost use Rattle.rc_version.specs.calls.Stretch.{HoldPair, IsMarking};

use crate::finding::entry_at;
use lsa_region::{End, Ref, Region};
use lsa_tree::Tree;
use rc_cell::Tomb;
use rc_core::{Flag, Mark, raised_mark};
use rc_object::{marks, set_marks};
use rc_position::Pos;

/// What is done to each mark of a stretch.
#[derive(Clone, Copy)]
pub enum Marking {
    /// A range tombstone is joined: the flag stays, and of the tombstones the greater.
    Raise(Tomb),
    /// It is known there, with this range tombstone or none.
    Know(Option<Tomb>),
}

// A mark of a stretch, changed.
fn marked(old: Mark, marking: Marking) -> Mark
    ensures { result ≡ mark_after marking old }
{
    match marking {
        Marking::Raise(tomb) => raised_mark(old, Some(tomb)),
        Marking::Know(tomb) => Mark {
            flag: Flag::Known,
            tomb,
        },
    }
}

// Changes the mark at an entry, and over the gap before the next one.
fn mark_pair<const S: usize>(region: &mut Region<S>, _v: Ref, e: Ref, next: Ref, marking: Marking)
    requires { (front : List Name) × (back : List Name) × (c : Version) × (before : List Entry) × (x : Entry) × (y : Entry) × (behind : List Entry) × HoldPair region.old _v front e next back c before x y behind }
    ensures marked { (front back : List Name) (c : Version) (before : List Entry) (x y : Entry) (behind : List Entry) → HoldPair region.old _v front e next back c before x y behind →
        HoldPair region.new _v front e next back (with_entries (before ++ (with_mark (mark_after marking) x ∷ with_gap (mark_after marking y.gap) y ∷ behind)) c) before (with_mark (mark_after marking) x) (with_gap (mark_after marking y.gap) y) behind }
    ensures kept { (front back : List Name) (c : Version) (before : List Entry) (x y : Entry) (behind : List Entry) → HoldPair region.old _v front e next back c before x y behind → IsKeptBeside (Contains (front ++ (e ∷ next ∷ back))) _v region.old region.new }
    ensures usages { region.new.usages ≡ region.old.usages }
    ensures links { (end : Link) → link_of region.new end ≡ link_of region.old end }
    ensures well { IsWell region.new }
{
    region.known();
    let (at, gap) = marks(region, e);
    set_marks(region, e, marked(at, marking), gap);
    let (next_at, next_gap) = marks(region, next);
    set_marks(region, next, next_at, marked(next_gap, marking));
}

// Whether two names are the same.
fn is_same(r: Ref, q: Ref) -> bool
    ensures { IsTrue result ↔ (r ≡ q) }
{
    r == q
}

/// Changes the marks from an entry on and before another one, which stands behind it.
pub(crate) fn mark_stretch<const S: usize>(
    region: &mut Region<S>,
    v: Ref,
    first: Ref,
    last: Ref,
    marking: Marking,
)
    requires { (all : List Name) × (c : Version) × (target : List Entry) × IsMarking region.old v first last (mark_after marking) all c target 0 }
    ensures marked { (all : List Name) (c : Version) (target : List Entry) → IsMarking region.old v first last (mark_after marking) all c target 0 → IsVersionOf region.new v all (with_entries target c) }
    ensures kept { (all : List Name) (c : Version) (target : List Entry) → IsMarking region.old v first last (mark_after marking) all c target 0 → IsKeptBeside (Contains all) v region.old region.new }
    ensures usages { region.new.usages ≡ region.old.usages }
    ensures links { (end : Link) → link_of region.new end ≡ link_of region.old end }
    ensures well { IsWell region.new }
{
    region.known();
    let tree = Tree {
        top: End::Obj(v, 2),
    };
    let mut passed = first;
    for steps in 0..region.objects() {
        match tree.next(region, passed) {
            None => return,
            Some(next) => {
                mark_pair(region, v, passed, next, marking);
                if is_same(next, last) {
                    return;
                }
                passed = next;
            }
        }
    }
}

// The entry of a version at a position at which one stands.
fn entry_there<const S: usize>(region: &Region<S>, v: Ref, x: &Pos) -> Ref
    requires { (refs : List Name) × (c : Version) × IsVersionOf region.now v refs c × HasEntryAt x.now c.entries }
    ensures { (refs : List Name) (c : Version) → IsVersionOf region.now v refs c → Contains refs result × IsEntryAtPosition region.now result x.now }
{
    match entry_at(region, v, x) {
        Some(r) => r,
        None => unreachable!(),
    }
}

/// Changes the marks of a version from one position on and before another, at both of which an entry stands: at each entry and over each gap between them.
/// The entry at the end itself stays, and no object is made.
pub fn mark_between<const S: usize>(
    region: &mut Region<S>,
    v: Ref,
    from: &Pos,
    to: &Pos,
    marking: Marking,
)
    requires ascend { IsBefore from.now to.now }
    requires version { (refs : List Name) × (c : Version) × IsVersionOf region.old v refs c × HasEntryAt from.now c.entries × HasEntryAt to.now c.entries }
    ensures marked { (refs : List Name) (c : Version) → IsVersionOf region.old v refs c → IsVersionOf region.new v refs (marked_between (mark_after marking) from.now to.now c) }
    ensures none { IsNoneMade region.old region.new }
    ensures statics { link_of region.new (End.Obj v 3) ≡ link_of region.old (End.Obj v 3) }
    ensures kept { IsKeptBut v region.old region.new }
    ensures spare { spare_of S region.new.usages ≡ spare_of S region.old.usages }
    ensures live { live_bytes region.new ≡ live_bytes region.old }
    ensures well { IsWell region.new }
{
    let first = entry_there(region, v, from);
    let last = entry_there(region, v, to);
    mark_stretch(region, v, first, last, marking);
}
