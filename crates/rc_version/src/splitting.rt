//! An entry at a position: found, or made with what the gap there says; and taken out.
ghost use Rattle.std.specs.Prelude.{◌≡◌, ◌+◌, ◌≤◌, List, [], ◌∷◌, ◌++◌, None, Contains};
ghost use Rattle.rc_position.specs.declared.positions.Pos.{Pos as Position};
ghost use Rattle.rc_rowcode.specs.Objects.{dummy_size};
ghost use Rattle.rc_rowcode.specs.Spelling.{KeyFits};
ghost use Rattle.lsa_pool.specs.Room.{spare_of};
ghost use Rattle.lsa_store.specs.declared.place.Ref.{Ref as Name};
ghost use Rattle.lsa_region.specs.Region.{body, link_of, IsWell};
ghost use Rattle.lsa_tree.specs.Entries.{IsEntryAtPosition};
ghost use Rattle.lsa_tree.specs.Search.{IsFound};
ghost use Rattle.rc_core.specs.Change.{drop_at};
ghost use Rattle.rc_core.specs.Continuity.{with_entries};
ghost use Rattle.rc_core.specs.declared.entries.Entry.{Entry};
ghost use Rattle.rc_core.specs.Version.{Version, end_position};
ghost use Rattle.rc_object.specs.Objects.{HasRoomFor, HoldsEntry, entry_length};
ghost use Rattle.rc_version.specs.Versions.{IsVersionOf, IsUnlisted, IsKeptBut, IsNoneMade, IsSplit, IsWeighed};

use lsa_region::{End, Ref, Region};
use lsa_tree::{Place, Tree};
use rc_core::mark_of_lost;
use rc_object::{make_dummy, make_dummy_like, marks, set_marks};
use rc_position::Pos;
use rc_rowcode::Scratch;

// Makes a dummy in the gap before an entry, with what the gap says.
fn split_before<const S: usize>(
    region: &mut Region<S>,
    v: Ref,
    next: Ref,
    x: &Pos,
    sc: &mut Scratch,
) -> Ref
    requires limits { KeyFits x.now.prefix }
    requires room { HasRoomFor S region.old (dummy_size x.now) sc.old.size (entry_length x.now None) }
    requires version { (refs : List Name) × (c : Version) × IsVersionOf region.old v refs c }
    requires found { (refs : List Name) (c : Version) → IsVersionOf region.old v refs c → IsFound region.old refs x.now (Place.Before next) }
    ensures split { IsSplit S region.old region.new v x.now result }
    ensures size { sc.new.size ≡ sc.old.size }
    ensures well { IsWell region.new }
{
    region.known();
    let (_at, gap) = marks(region, next);
    let r = make_dummy(region, x, gap, sc);
    let tree = Tree {
        top: End::Obj(v, 2),
    };
    tree.insert(region, r);
    r
}

/// The entry of a version at a position. Where there is none, a dummy is made with the flag and the tombstone of the gap there, so that no answer at any
/// position changes.
pub fn split<const S: usize>(region: &mut Region<S>, v: Ref, x: &Pos, sc: &mut Scratch) -> Ref
    requires limits { KeyFits x.now.prefix }
    requires room { HasRoomFor S region.old (dummy_size x.now) sc.old.size (entry_length x.now None) }
    requires version { (refs : List Name) × (c : Version) × IsVersionOf region.old v refs c }
    ensures split { IsSplit S region.old region.new v x.now result }
    ensures size { sc.new.size ≡ sc.old.size }
    ensures well { IsWell region.new }
{
    region.known();
    let tree = Tree {
        top: End::Obj(v, 2),
    };
    match tree.locate(region, x) {
        Place::Here(r) => r,
        Place::Before(next) => split_before(region, v, next, x, sc),
        Place::Last => unreachable!(),
    }
}

// Makes a dummy at the position of an entry of another version, in the gap before one of this version, with what the gap says.
fn split_like_before<const S: usize>(
    region: &mut Region<S>,
    v: Ref,
    next: Ref,
    e: Ref,
    sc: &mut Scratch,
) -> Ref
    requires room { (y : Entry) × HoldsEntry region.old e y × HasRoomFor S region.old (dummy_size y.position) sc.old.size (entry_length y.position None) }
    requires version { (refs : List Name) × (c : Version) × IsVersionOf region.old v refs c }
    requires found { (refs : List Name) (c : Version) (y : Entry) → IsVersionOf region.old v refs c → HoldsEntry region.old e y → IsFound region.old refs y.position (Place.Before next) }
    ensures split { (y : Entry) → HoldsEntry region.old e y → IsSplit S region.old region.new v y.position result }
    ensures size { sc.new.size ≡ sc.old.size }
    ensures well { IsWell region.new }
{
    region.known();
    let (_at, gap) = marks(region, next);
    let r = make_dummy_like(region, e, gap, sc);
    let tree = Tree {
        top: End::Obj(v, 2),
    };
    tree.insert(region, r);
    r
}

/// The entry of a version at the position of an entry of another version. Where there is none, a dummy is made with the flag and the tombstone of the gap
/// there, so that no answer at any position changes.
pub fn split_like<const S: usize>(region: &mut Region<S>, v: Ref, e: Ref, sc: &mut Scratch) -> Ref
    requires room { (y : Entry) × HoldsEntry region.old e y × HasRoomFor S region.old (dummy_size y.position) sc.old.size (entry_length y.position None) }
    requires version { (refs : List Name) × (c : Version) × IsVersionOf region.old v refs c }
    ensures split { (y : Entry) → HoldsEntry region.old e y → IsSplit S region.old region.new v y.position result }
    ensures size { sc.new.size ≡ sc.old.size }
    ensures well { IsWell region.new }
{
    region.known();
    let tree = Tree {
        top: End::Obj(v, 2),
    };
    match tree.find_like(region, e) {
        Place::Here(r) => r,
        Place::Before(next) => split_like_before(region, v, next, e, sc),
        Place::Last => unreachable!(),
    }
}

/// Takes an entry of a version out and frees it, which is not the end dummy and in no list: the gap before the next one is Unknown then, and without a
/// tombstone.
pub fn drop_entry<const S: usize>(region: &mut Region<S>, v: Ref, e: Ref)
    requires version { (front : List Name) × (back : List Name) × (c : Version) × IsVersionOf region.old v (front ++ (e ∷ back)) c }
    requires inner { IsEntryAtPosition region.old e end_position → ⊥ }
    requires unlisted { IsUnlisted region.old e }
    ensures dropped { (front back : List Name) (c : Version) (x : Position) → IsVersionOf region.old v (front ++ (e ∷ back)) c → IsEntryAtPosition region.old e x → IsVersionOf region.new v (front ++ back) (with_entries (drop_at x c.entries) c) }
    ensures gone { body region.new e ≡ None }
    ensures none { IsNoneMade region.old region.new }
    ensures statics { link_of region.new (End.Obj v 3) ≡ link_of region.old (End.Obj v 3) }
    ensures kept { IsKeptBut v region.old region.new }
    ensures spare { spare_of S region.new.usages ≡ spare_of S region.old.usages }
    ensures live { (front back : List Name) (c : Version) (x : Position) → IsVersionOf region.old v (front ++ (e ∷ back)) c → IsEntryAtPosition region.old e x → IsWeighed region.old region.new c (with_entries (drop_at x c.entries) c) }
    ensures well { IsWell region.new }
{
    region.known();
    let tree = Tree {
        top: End::Obj(v, 2),
    };
    match tree.next(region, e) {
        Some(next) => {
            tree.remove(region, e);
            region.free_obj(e);
            let (at, _gap) = marks(region, next);
            set_marks(region, next, at, mark_of_lost());
        }
        None => unreachable!(),
    }
}
