//! A row, or a range tombstone, joined to a version.
ghost use Rattle.std.specs.Prelude.{◌≡◌, ◌+◌, ◌≤◌, List, [], ◌∷◌, ◌++◌, None, Some, Contains};
ghost use Rattle.rc_cell.specs.declared.rows.Row.{Row};
ghost use Rattle.rc_position.specs.declared.positions.Pos.{Pos as Position};
ghost use Rattle.rc_position.specs.Position.{IsBefore, row_pos};
ghost use Rattle.rc_rowcode.specs.Objects.{dummy_size};
ghost use Rattle.rc_rowcode.specs.Spelling.{KeyFits};
ghost use Rattle.lsa_pool.specs.Room.{spare_of};
ghost use Rattle.lsa_store.specs.declared.place.Ref.{Ref as Name};
ghost use Rattle.lsa_region.specs.Region.{body, link_of, IsWell};
ghost use Rattle.lsa_tree.specs.Search.{IsFound};
ghost use Rattle.rc_core.specs.declared.entries.Entry.{Entry};
ghost use Rattle.rc_core.specs.Steps.{range_joined};
ghost use Rattle.rc_core.specs.Version.{Version, end_position};
ghost use Rattle.rc_object.specs.Objects.{HasRoomFor, HoldsEntry, HoldsStatic, IsRowCode, entry_length};
ghost use Rattle.rc_version.specs.Versions.{IsVersionOf, CanJoin, CanJoinLike, IsJoined, IsKeptBut, IsStaticsJoined, IsUnlisted, IsWeighed, HasWhatWasMade};

use crate::splitting::split;
use crate::statics::join_statics_like;
use crate::stretch::{Marking, mark_stretch};
use lsa_kinds::Kind;
use lsa_region::{End, Ref, Region};
use lsa_tree::{Place, Tree};
use rc_cell::Tomb;
use rc_object::{make_joined, make_joined_like, make_row, make_row_like, marks};
use rc_position::{Key, Pos};
use rc_rowcode::Scratch;

// Makes the entry of a row in the gap before an entry, with what the gap says.
fn join_row_before<const S: usize>(
    region: &mut Region<S>,
    v: Ref,
    next: Ref,
    key: &Key,
    code: &[u8],
    sc: &mut Scratch,
) -> Ref
    requires limits { KeyFits key.now }
    requires row { (row : Row) × (refs : List Name) × (c : Version) × IsRowCode code.now row × CanJoin S region.old sc.old.size v (row_pos key.now) row refs c }
    requires found { (refs : List Name) (c : Version) → IsVersionOf region.old v refs c → IsFound region.old refs (row_pos key.now) (Place.Before next) }
    ensures joined { (row : Row) → IsRowCode code.now row → IsJoined S region.old region.new v (row_pos key.now) row result }
    ensures size { sc.new.size ≡ sc.old.size }
    ensures well { IsWell region.new }
{
    region.known();
    let (_at, gap) = marks(region, next);
    let r = make_row(region, key, code, gap, gap, sc);
    let tree = Tree {
        top: End::Obj(v, 2),
    };
    tree.insert(region, r);
    r
}

// Makes the entry at a key anew with a row joined, in the place of the one that stands there.
fn join_row_onto<const S: usize>(
    region: &mut Region<S>,
    v: Ref,
    old: Ref,
    _key: &Key,
    code: &[u8],
    sc: &mut Scratch,
) -> Ref
    requires row { (row : Row) × (refs : List Name) × (c : Version) × IsRowCode code.now row × CanJoin S region.old sc.old.size v (row_pos _key.now) row refs c }
    requires found { (refs : List Name) (c : Version) → IsVersionOf region.old v refs c → IsFound region.old refs (row_pos _key.now) (Place.Here old) }
    ensures joined { (row : Row) → IsRowCode code.now row → IsJoined S region.old region.new v (row_pos _key.now) row result }
    ensures size { sc.new.size ≡ sc.old.size }
    ensures well { IsWell region.new }
{
    region.known();
    let r = make_joined(region, old, code, sc);
    let tree = Tree {
        top: End::Obj(v, 2),
    };
    tree.replace(region, old, r);
    region.free_obj(old);
    r
}

/// Joins a row to what a version has at a key. The entry there is made anew and keeps its flags and tombstones; where there is none, it takes those of the gap.
pub fn join_row<const S: usize>(
    region: &mut Region<S>,
    v: Ref,
    key: &Key,
    code: &[u8],
    sc: &mut Scratch,
) -> Ref
    requires limits { KeyFits key.now }
    requires row { (row : Row) × (refs : List Name) × (c : Version) × IsRowCode code.now row × CanJoin S region.old sc.old.size v (row_pos key.now) row refs c }
    ensures joined { (row : Row) → IsRowCode code.now row → IsJoined S region.old region.new v (row_pos key.now) row result }
    ensures size { sc.new.size ≡ sc.old.size }
    ensures well { IsWell region.new }
{
    let tree = Tree {
        top: End::Obj(v, 2),
    };
    match tree.locate_key(region, key) {
        Place::Here(old) => join_row_onto(region, v, old, key, code, sc),
        Place::Before(next) => join_row_before(region, v, next, key, code, sc),
        Place::Last => unreachable!(),
    }
}

// Makes the entry of the row of an entry of another version in the gap before one of this version, with what the gap says.
fn join_like_before<const S: usize>(
    region: &mut Region<S>,
    v: Ref,
    next: Ref,
    e: Ref,
    sc: &mut Scratch,
) -> Ref
    requires row { (y : Entry) × (row : Row) × (refs : List Name) × (c : Version) × HoldsEntry region.old e y × (y.row ≡ Some row) × IsBefore y.position end_position × CanJoin S region.old sc.old.size v y.position row refs c }
    requires found { (refs : List Name) (c : Version) (y : Entry) → IsVersionOf region.old v refs c → HoldsEntry region.old e y → IsFound region.old refs y.position (Place.Before next) }
    ensures joined { (y : Entry) (row : Row) → HoldsEntry region.old e y → y.row ≡ Some row → IsJoined S region.old region.new v y.position row result }
    ensures size { sc.new.size ≡ sc.old.size }
    ensures well { IsWell region.new }
{
    region.known();
    let (_at, gap) = marks(region, next);
    let r = make_row_like(region, e, gap, gap, sc);
    let tree = Tree {
        top: End::Obj(v, 2),
    };
    tree.insert(region, r);
    r
}

// Makes an entry anew with the row of an entry of another version joined, in the place of the one that stands there.
fn join_like_onto<const S: usize>(
    region: &mut Region<S>,
    v: Ref,
    there: Ref,
    e: Ref,
    sc: &mut Scratch,
) -> Ref
    requires row { (y : Entry) × (row : Row) × (refs : List Name) × (c : Version) × HoldsEntry region.old e y × (y.row ≡ Some row) × IsBefore y.position end_position × CanJoin S region.old sc.old.size v y.position row refs c }
    requires found { (refs : List Name) (c : Version) (y : Entry) → IsVersionOf region.old v refs c → HoldsEntry region.old e y → IsFound region.old refs y.position (Place.Here there) }
    ensures joined { (y : Entry) (row : Row) → HoldsEntry region.old e y → y.row ≡ Some row → IsJoined S region.old region.new v y.position row result }
    ensures size { sc.new.size ≡ sc.old.size }
    ensures well { IsWell region.new }
{
    region.known();
    let r = make_joined_like(region, there, e, sc);
    let tree = Tree {
        top: End::Obj(v, 2),
    };
    tree.replace(region, there, r);
    region.free_obj(there);
    r
}

// Joins the row of an entry of another version at its position.
fn join_entry_like<const S: usize>(region: &mut Region<S>, v: Ref, e: Ref, sc: &mut Scratch) -> Ref
    requires { (y : Entry) × (row : Row) × (refs : List Name) × (c : Version) × HoldsEntry region.old e y × (y.row ≡ Some row) × IsBefore y.position end_position × CanJoin S region.old sc.old.size v y.position row refs c }
    ensures joined { (y : Entry) (row : Row) → HoldsEntry region.old e y → y.row ≡ Some row → IsJoined S region.old region.new v y.position row result }
    ensures size { sc.new.size ≡ sc.old.size }
    ensures well { IsWell region.new }
{
    let tree = Tree {
        top: End::Obj(v, 2),
    };
    match tree.find_like(region, e) {
        Place::Here(old) => join_like_onto(region, v, old, e, sc),
        Place::Before(next) => join_like_before(region, v, next, e, sc),
        Place::Last => unreachable!(),
    }
}

/// Joins the row of an object of another version to what a version has in its place: the row of an entry at its position, or a static row to the static
/// row, whose flag stays.
pub fn join_like<const S: usize>(region: &mut Region<S>, v: Ref, e: Ref, sc: &mut Scratch) -> Ref
    requires { CanJoinLike S region.old sc.old.size v e }
    ensures entry { (y : Entry) (row : Row) → HoldsEntry region.old e y → y.row ≡ Some row → IsJoined S region.old region.new v y.position row result }
    ensures statics { (row : Row) → HoldsStatic region.old e row → IsStaticsJoined S region.old region.new v row result }
    ensures size { sc.new.size ≡ sc.old.size }
    ensures well { IsWell region.new }
{
    match region.kind(e) {
        Kind::RowEntry => join_entry_like(region, v, e, sc),
        Kind::Static => join_statics_like(region, v, e, sc),
        Kind::Version => unreachable!(),
        Kind::Dummy => unreachable!(),
    }
}

/// Joins a range tombstone to what a version says from a position on and before another one: it is split at both, and the greater tombstone stands at each
/// entry and over each gap between them. The entry at the end itself stays.
pub fn join_range<const S: usize>(
    region: &mut Region<S>,
    v: Ref,
    from: &Pos,
    to: &Pos,
    tomb: Tomb,
    sc: &mut Scratch,
)
    requires from { KeyFits from.now.prefix }
    requires to { KeyFits to.now.prefix }
    requires ascend { IsBefore from.now to.now }
    requires from_room { HasRoomFor S region.old (dummy_size from.now) sc.old.size (entry_length from.now None) }
    requires to_room { HasRoomFor S region.old (dummy_size to.now) sc.old.size (entry_length to.now None) }
    requires spare { dummy_size from.now + dummy_size to.now ≤ spare_of S region.old.usages }
    requires version { (refs : List Name) × (c : Version) × IsVersionOf region.old v refs c }
    ensures joined { (refs : List Name) (c : Version) → IsVersionOf region.old v refs c → (now : List Name) × ((r : Name) → Contains refs r → Contains now r) × IsVersionOf region.new v now (range_joined from.now to.now tomb c) }
    ensures unlisted { (r : Name) → body region.old r ≡ None → IsUnlisted region.new r }
    ensures own { HasWhatWasMade v region.old region.new }
    ensures statics { link_of region.new (End.Obj v 3) ≡ link_of region.old (End.Obj v 3) }
    ensures kept { IsKeptBut v region.old region.new }
    ensures spare { spare_of S region.old.usages ≤ spare_of S region.new.usages + (dummy_size from.now + dummy_size to.now) }
    ensures live { (refs : List Name) (c : Version) → IsVersionOf region.old v refs c → IsWeighed region.old region.new c (range_joined from.now to.now tomb c) }
    ensures size { sc.new.size ≡ sc.old.size }
    ensures well { IsWell region.new }
{
    region.known();
    let first = split(region, v, from, sc);
    let last = split(region, v, to, sc);
    mark_stretch(region, v, first, last, Marking::Raise(tomb));
}
