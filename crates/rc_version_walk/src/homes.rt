//! Two versions in a region, each named by a root slot, by which it is found again after a move.

ghost use Rattle.std.specs.Prelude.{◌≡◌, ◌≢◌, ◌+◌, ◌≤◌, true, None, IfSome};
ghost use Rattle.rc_cell.specs.declared.rows.Row.{Row};
ghost use Rattle.rc_object.specs.Objects.{HoldsStatic};
ghost use Rattle.lsa_pool.specs.Room.{spare_of};
ghost use Rattle.lsa_store.specs.declared.place.Ref.{Ref as Name};
ghost use Rattle.lsa_region.specs.declared.end.End.{End as Link};
ghost use Rattle.lsa_region.specs.Region.{link_of, IsEnd};
ghost use Rattle.rc_version.specs.Versions as versions;
ghost use Rattle.rc_version_walk.specs.Walking.{IsPair, IsPairOf, IsHalf, IsSomeVersion, IsEntryOf};

use lsa_move::{Ensured, compact_one, ensure};
use lsa_region::{End, Ref, Region, Root};
use lsa_tree::{Place, Tree};
use rc_cell::Tomb;
use rc_core::Flag;
use rc_position::Pos;
use rc_version::new_version;

/// The size of a segment. An eighth of it is more than any object takes.
pub(crate) const SEGMENT: usize = 131_072;

/// More than all that a call makes takes.
pub(crate) const ROOM: usize = 17_904;

/// The size of the scratch space.
pub(crate) const SPACE: usize = 16_384;

/// The version that the first of two slots names.
pub(crate) fn version_in(region: &Region<SEGMENT>, this: Root, _other: Root) -> Ref
    requires { IsPair this _other region.now }
    ensures { (m : Name) × IsPairOf this _other region.now result m }
{
    region.known();
    match region.root(this) {
        Some(End::Obj(v, _field)) => v,
        Some(End::Slot(_root)) => unreachable!(),
        None => unreachable!(),
    }
}

/// The tree of its entries.
pub(crate) fn tree_of(v: Ref) -> Tree
    ensures { result ≡ versions.tree_of v }
{
    Tree {
        top: End::Obj(v, 2),
    }
}

/// The entry of a version at a position, or else the next one; there is one, since the last entry stands behind all.
pub(crate) fn entry_from(region: &Region<SEGMENT>, v: Ref, x: &Pos) -> Option<Ref>
    requires { IsSomeVersion region.now v }
    ensures { IsEntryOf region.now v result }
{
    match tree_of(v).locate(region, x) {
        Place::Here(e) => Some(e),
        Place::Before(e) => Some(e),
        Place::Last => None,
    }
}

/// The static row of a version, where it has one.
pub(crate) fn statics_of(region: &Region<SEGMENT>, v: Ref) -> Option<Ref>
    requires { IsSomeVersion region.now v }
    ensures { IfSome result (λ s. (row : Row) × HoldsStatic region.now s row) }
{
    region.known();
    match region.link_of(End::Obj(v, 3)) {
        Some(End::Obj(s, _field)) => Some(s),
        Some(End::Slot(_root)) => None,
        None => None,
    }
}

/// Makes room for what a call makes, by moves where it must; false where there is none.
pub(crate) fn has_room(region: &mut Region<SEGMENT>, _this: Root, _other: Root) -> bool
    requires { IsPair _this _other region.old }
    ensures pair { IsPair _this _other region.new }
    ensures room { result ≡ true → 17904 ≤ spare_of 131072 region.new.usages }
{
    region.known();
    match ensure(region, ROOM) {
        Ensured::Ready => true,
        Ensured::Full => false,
    }
}

/// Empties a segment, so that its objects move; false where none is sparse.
pub(crate) fn empty_one(region: &mut Region<SEGMENT>, _this: Root, _other: Root) -> bool
    requires { IsPair _this _other region.old }
    ensures { IsPair _this _other region.new }
{
    region.known();
    compact_one(region)
}

/// Makes the first version in a region, which the second of two slots names then.
pub(crate) fn settle_first(region: &mut Region<SEGMENT>, this: Root, other: Root, flag: Flag)
    requires there { IsEnd region.old (End.Slot this) }
    requires other_there { IsEnd region.old (End.Slot other) }
    requires differ { this ≢ other }
    requires unset { (e : Link) → link_of region.old e ≡ None }
    requires room { 152 ≤ spare_of 131072 region.old.usages }
    ensures half { IsHalf this other region.new }
    ensures spare { spare_of 131072 region.old.usages ≤ spare_of 131072 region.new.usages + 152 }
{
    let v = new_version(region, flag, None, 1);
    region.known();
    region.link(End::Slot(other), End::Obj(v, 1));
}

/// Makes a version, which a slot names then.
pub(crate) fn settle(
    region: &mut Region<SEGMENT>,
    this: Root,
    _other: Root,
    flag: Flag,
    pt: Option<Tomb>,
    phase: u64,
)
    requires half { IsHalf this _other region.old }
    requires room { 152 ≤ spare_of 131072 region.old.usages }
    ensures { IsPair this _other region.new }
{
    let v = new_version(region, flag, pt, phase);
    region.known();
    region.link(End::Slot(this), End::Obj(v, 1));
}
