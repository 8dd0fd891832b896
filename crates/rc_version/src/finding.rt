//! The objects of a version that are asked for: an entry by its position, the first entry, and the static row.
ghost use Rattle.std.specs.Prelude.{◌≡◌, ◌↔◌, List, ◌∷◌, Some};
ghost use Rattle.rc_position.specs.declared.positions.Pos.{Pos as Position};
ghost use Rattle.rc_position.specs.Position.{row_pos};
ghost use Rattle.lsa_store.specs.declared.place.Ref.{Ref as Name};
ghost use Rattle.lsa_region.specs.Region.{View};
ghost use Rattle.lsa_tree.specs.Entries.{IsEntryAtPosition};
ghost use Rattle.lsa_tree.specs.Search.{IsFound};
ghost use Rattle.rc_core.specs.Version.{Version};
ghost use Rattle.rc_version.specs.Versions.{IsVersionOf, IsEntryFound, IsStaticRowFound, IsStaticsOf};

use lsa_region::{End, Ref, Region};
use lsa_tree::{Place, Tree};
use rc_position::{Key, Pos};

// The entry of a place; None where none stands at the position that was looked for.
fn here(place: Place) -> Option<Ref>
    ensures { (v : View) (n : Name) (refs : List Name) (c : Version) (x : Position) → IsVersionOf v n refs c → IsFound v refs x place → IsEntryFound v refs c x result }
{
    match place {
        Place::Here(r) => Some(r),
        Place::Before(_next) => None,
        Place::Last => None,
    }
}

/// The entry of a version at a position; None exactly where there is none.
pub fn entry_at<const S: usize>(region: &Region<S>, v: Ref, x: &Pos) -> Option<Ref>
    requires { (refs : List Name) × (c : Version) × IsVersionOf region.now v refs c }
    ensures { (refs : List Name) (c : Version) → IsVersionOf region.now v refs c → IsEntryFound region.now refs c x.now result }
{
    let tree = Tree {
        top: End::Obj(v, 2),
    };
    here(tree.locate(region, x))
}

/// The entry of a version at the position of the row of a key; None exactly where there is none.
pub fn entry_at_key<const S: usize>(region: &Region<S>, v: Ref, key: &Key) -> Option<Ref>
    requires { (refs : List Name) × (c : Version) × IsVersionOf region.now v refs c }
    ensures { (refs : List Name) (c : Version) → IsVersionOf region.now v refs c → IsEntryFound region.now refs c (row_pos key.now) result }
{
    let tree = Tree {
        top: End::Obj(v, 2),
    };
    here(tree.locate_key(region, key))
}

/// The entry of a version at the position of an entry of any version, or of none; None exactly where there is none.
pub fn entry_like<const S: usize>(region: &Region<S>, v: Ref, e: Ref) -> Option<Ref>
    requires version { (refs : List Name) × (c : Version) × IsVersionOf region.now v refs c }
    requires entry { (x : Position) × IsEntryAtPosition region.now e x }
    ensures { (refs : List Name) (c : Version) (x : Position) → IsVersionOf region.now v refs c → IsEntryAtPosition region.now e x → IsEntryFound region.now refs c x result }
{
    let tree = Tree {
        top: End::Obj(v, 2),
    };
    here(tree.find_like(region, e))
}

/// The first entry of a version. Each version has one: its end dummy, if no other.
pub fn first_entry<const S: usize>(region: &Region<S>, v: Ref) -> Ref
    requires { (refs : List Name) × (c : Version) × IsVersionOf region.now v refs c }
    ensures { (refs : List Name) (c : Version) → IsVersionOf region.now v refs c → (rest : List Name) × (refs ≡ result ∷ rest) }
{
    let tree = Tree {
        top: End::Obj(v, 2),
    };
    match tree.first(region) {
        Some(e) => e,
        None => unreachable!(),
    }
}

/// The object of the static row of a version; None exactly where it has no static row.
pub fn static_row<const S: usize>(region: &Region<S>, v: Ref) -> Option<Ref>
    requires { (refs : List Name) × (c : Version) × IsVersionOf region.now v refs c }
    ensures named { (s : Name) → (result ≡ Some s) ↔ IsStaticsOf region.now v s }
    ensures held { (refs : List Name) (c : Version) → IsVersionOf region.now v refs c → IsStaticRowFound region.now c result }
{
    match region.link_of(End::Obj(v, 3)) {
        Some(End::Obj(s, _field)) => Some(s),
        Some(End::Slot(_root)) => unreachable!(),
        None => None,
    }
}
