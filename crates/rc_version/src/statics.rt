//! The static row of a version.
ghost use Rattle.std.specs.Prelude.{◌≡◌, ◌≢◌, ◌+◌, ◌/◌, ◌≤◌, ℕ, List, [], Option, Some, None};
ghost use Rattle.rc_cell.specs.declared.rows.Row.{Row};
ghost use Rattle.rc_rowcode.specs.Objects.{static_size};
ghost use Rattle.lsa_pool.specs.Room.{spare_of};
ghost use Rattle.lsa_store.specs.declared.place.Ref.{Ref as Name};
ghost use Rattle.lsa_region.specs.declared.end.End.{End as Link};
ghost use Rattle.lsa_region.specs.Region.{body, link_of, live_bytes, IsWell};
ghost use Rattle.rc_core.specs.Change.{joined_onto};
ghost use Rattle.rc_core.specs.Continuity.{without_statics};
ghost use Rattle.rc_core.specs.Steps.{set_statics};
ghost use Rattle.rc_core.specs.Version.{Version};
ghost use Rattle.rc_object.specs.Objects.{HoldsStatic, IsMade, IsRowCode};
ghost use Rattle.rc_version.specs.Versions.{CanJoinStatics, IsStaticsJoined, IsVersionOf, IsUnlisted, IsKeptBeside, IsKeptBut, IsStaticsOf, IsWeighed, IsNoneMade, HasWhatWasMade};

use crate::versions::set_static_flag;
use lsa_region::{End, Ref, Region};
use rc_core::Flag;
use rc_object::{make_joined_static, make_static, make_static_like};
use rc_rowcode::Scratch;

// Takes the static row of a version out and frees it, where there is one. Its flag stays.
fn take_statics<const S: usize>(region: &mut Region<S>, v: Ref)
    requires version { (refs : List Name) × (c : Version) × IsVersionOf region.old v refs c }
    requires unlisted { (s : Name) → IsStaticsOf region.old v s → IsUnlisted region.old s }
    ensures taken { (refs : List Name) (c : Version) → IsVersionOf region.old v refs c → IsVersionOf region.new v refs (set_statics None c.static_flag c) }
    ensures links { (e : Link) → e ≢ End.Obj v 3 → link_of region.old (End.Obj v 3) ≢ Some e → link_of region.new e ≡ link_of region.old e }
    ensures gone { (s : Name) → IsStaticsOf region.old v s → body region.new s ≡ None }
    ensures none { IsNoneMade region.old region.new }
    ensures kept { IsKeptBeside (IsStaticsOf region.old v) v region.old region.new }
    ensures spare { spare_of S region.new.usages ≡ spare_of S region.old.usages }
    ensures live { (refs : List Name) (c : Version) → IsVersionOf region.old v refs c → IsWeighed region.old region.new c (set_statics None c.static_flag c) }
    ensures well { IsWell region.new }
{
    region.known();
    match region.link_of(End::Obj(v, 3)) {
        Some(End::Obj(s, _field)) => {
            region.unlink(End::Obj(v, 3));
            region.free_obj(s);
        }
        Some(End::Slot(_root)) => unreachable!(),
        None => {}
    }
}

/// Gives a version a static row, whose code this is, in place of the one that it has, which is in no list and is freed; and the flag of the static row.
/// An empty row has no object, so none is handed in.
pub fn set_static<const S: usize>(region: &mut Region<S>, v: Ref, code: &[u8], flag: Flag)
    requires version { (refs : List Name) × (c : Version) × IsVersionOf region.old v refs c }
    requires unlisted { (s : Name) → IsStaticsOf region.old v s → IsUnlisted region.old s }
    requires row { (row : Row) × IsRowCode code.now row × (static_size row ≤ S / 8) × (static_size row ≤ spare_of S region.old.usages) }
    ensures set { (refs : List Name) (c : Version) (row : Row) → IsVersionOf region.old v refs c → IsRowCode code.now row → IsVersionOf region.new v refs (set_statics (Some row) flag c) }
    ensures gone { (s : Name) → IsStaticsOf region.old v s → body region.new s ≡ None }
    ensures unlisted { (q : Name) → body region.old q ≡ None → IsUnlisted region.new q }
    ensures own { HasWhatWasMade v region.old region.new }
    ensures kept { IsKeptBut v region.old region.new }
    ensures spare { (row : Row) → IsRowCode code.now row → spare_of S region.old.usages ≤ spare_of S region.new.usages + static_size row }
    ensures live { (refs : List Name) (c : Version) (row : Row) → IsVersionOf region.old v refs c → IsRowCode code.now row → IsWeighed region.old region.new c (set_statics (Some row) flag c) }
    ensures well { IsWell region.new }
{
    region.known();
    let s = make_static(region, code);
    take_statics(region, v);
    region.link(End::Obj(v, 3), End::Obj(s, 2));
    set_static_flag(region, v, flag);
}

/// Takes the static row of a version out and frees it, which is in no list; its flag is Unknown then, also where there was none.
pub fn drop_static<const S: usize>(region: &mut Region<S>, v: Ref)
    requires version { (refs : List Name) × (c : Version) × IsVersionOf region.old v refs c }
    requires unlisted { (s : Name) → IsStaticsOf region.old v s → IsUnlisted region.old s }
    ensures dropped { (refs : List Name) (c : Version) → IsVersionOf region.old v refs c → IsVersionOf region.new v refs (without_statics c) }
    ensures gone { (s : Name) → IsStaticsOf region.old v s → body region.new s ≡ None }
    ensures none { IsNoneMade region.old region.new }
    ensures kept { IsKeptBut v region.old region.new }
    ensures spare { spare_of S region.new.usages ≡ spare_of S region.old.usages }
    ensures live { (refs : List Name) (c : Version) → IsVersionOf region.old v refs c → IsWeighed region.old region.new c (without_statics c) }
    ensures well { IsWell region.new }
{
    take_statics(region, v);
    set_static_flag(region, v, Flag::Unknown);
}

// Makes a static row of that of a version with the static row of another version joined, or of that one alone.
fn make_statics_like<const S: usize>(
    region: &mut Region<S>,
    v: Ref,
    e: Ref,
    sc: &mut Scratch,
) -> Ref
    requires { (row : Row) × (refs : List Name) × (c : Version) × HoldsStatic region.old e row × CanJoinStatics S region.old sc.old.size v row refs c }
    ensures holds { (row : Row) (refs : List Name) (c : Version) → HoldsStatic region.old e row → IsVersionOf region.old v refs c → HoldsStatic region.new result (joined_onto c.statics row) }
    ensures made { (row : Row) (refs : List Name) (c : Version) → HoldsStatic region.old e row → IsVersionOf region.old v refs c → IsMade S region.old region.new result (static_size (joined_onto c.statics row)) }
    ensures size { sc.new.size ≡ sc.old.size }
    ensures well { IsWell region.new }
{
    match region.link_of(End::Obj(v, 3)) {
        Some(End::Obj(s, _field)) => make_joined_static(region, s, e, sc),
        Some(End::Slot(_root)) => unreachable!(),
        None => make_static_like(region, e, sc),
    }
}

/// Joins the static row of another version to that of a version, whose flag stays.
pub(crate) fn join_statics_like<const S: usize>(
    region: &mut Region<S>,
    v: Ref,
    e: Ref,
    sc: &mut Scratch,
) -> Ref
    requires { (row : Row) × (refs : List Name) × (c : Version) × HoldsStatic region.old e row × CanJoinStatics S region.old sc.old.size v row refs c }
    ensures joined { (row : Row) → HoldsStatic region.old e row → IsStaticsJoined S region.old region.new v row result }
    ensures size { sc.new.size ≡ sc.old.size }
    ensures well { IsWell region.new }
{
    region.known();
    let s = make_statics_like(region, v, e, sc);
    take_statics(region, v);
    region.link(End::Obj(v, 3), End::Obj(s, 2));
    s
}
