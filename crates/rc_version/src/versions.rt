//! A version as a whole: made, freed, and what its head says.
ghost use Rattle.std.specs.Prelude.{◌≡◌, ◌+◌, ◌/◌, ◌≤◌, List, [], ◌∷◌, None};
ghost use Rattle.lsa_pool.specs.Room.{spare_of};
ghost use Rattle.lsa_store.specs.declared.place.Ref.{Ref as Name};
ghost use Rattle.lsa_region.specs.Region.{body, link_of, live_bytes, IsWell};
ghost use Rattle.rc_core.specs.Steps as steps;
ghost use Rattle.rc_core.specs.Version.{Version};
ghost use Rattle.rc_object.specs.Objects.{IsRewritten};
ghost use Rattle.rc_version.specs.Versions.{IsVersionOf, IsPartOf, IsUnlisted, IsKeptBut, IsNoneMade, HasWhatWasMade};

use lsa_region::{End, Ref, Region};
use lsa_tree::Tree;
use rc_cell::Tomb;
use rc_core::{Flag, Mark, greater_tomb};
use rc_object::{Head, head_of, make_end, make_head, set_head};

/// Makes a version of its end dummy alone, whose flags are all this one. It takes 152 bytes.
pub fn new_version<const S: usize>(
    region: &mut Region<S>,
    flag: Flag,
    pt: Option<Tomb>,
    phase: u64,
) -> Ref
    requires fits { 88 ≤ S / 8 }
    requires spare { 152 ≤ spare_of S region.old.usages }
    ensures made { (end : Name) × IsVersionOf region.new result (end ∷ []) (steps.version_of flag pt phase) }
    ensures fresh { body region.old result ≡ None }
    ensures unlisted { (r : Name) → body region.old r ≡ None → IsUnlisted region.new r }
    ensures own { HasWhatWasMade result region.old region.new }
    ensures parts { (r : Name) → IsPartOf region.new result r → body region.old r ≡ None }
    ensures kept { IsKeptBut result region.old region.new }
    ensures spare { spare_of S region.old.usages ≤ spare_of S region.new.usages + 152 }
    ensures live { live_bytes region.new ≡ live_bytes region.old + 152 }
    ensures well { IsWell region.new }
{
    region.known();
    let v = make_head(
        region,
        Head {
            partition_tombstone: pt,
            static_flag: flag,
            phase,
        },
    );
    let end = make_end(region, Mark { flag, tomb: None });
    let tree = Tree {
        top: End::Obj(v, 2),
    };
    tree.insert(region, end);
    v
}

/// Gives the static row of a version another flag, also where there is no static row.
pub fn set_static_flag<const S: usize>(region: &mut Region<S>, v: Ref, flag: Flag)
    requires { (refs : List Name) × (c : Version) × IsVersionOf region.old v refs c }
    ensures set { (refs : List Name) (c : Version) → IsVersionOf region.old v refs c → IsVersionOf region.new v refs (steps.set_static_flag flag c) }
    ensures kept { IsKeptBut v region.old region.new }
    ensures rewritten { IsRewritten region.old region.new v }
    ensures well { IsWell region.new }
{
    let head = head_of(region, v);
    let now = Head {
        partition_tombstone: head.partition_tombstone,
        static_flag: flag,
        phase: head.phase,
    };
    set_head(region, v, now);
}

/// Gives a version another phase.
pub fn set_phase<const S: usize>(region: &mut Region<S>, v: Ref, phase: u64)
    requires { (refs : List Name) × (c : Version) × IsVersionOf region.old v refs c }
    ensures set { (refs : List Name) (c : Version) → IsVersionOf region.old v refs c → IsVersionOf region.new v refs (steps.with_phase phase c) }
    ensures kept { IsKeptBut v region.old region.new }
    ensures rewritten { IsRewritten region.old region.new v }
    ensures well { IsWell region.new }
{
    let head = head_of(region, v);
    let phased = Head {
        partition_tombstone: head.partition_tombstone,
        static_flag: head.static_flag,
        phase,
    };
    set_head(region, v, phased);
}

/// Joins a partition tombstone to that of a version: the greater one stands.
pub fn join_pt<const S: usize>(region: &mut Region<S>, v: Ref, tomb: Tomb)
    requires { (refs : List Name) × (c : Version) × IsVersionOf region.old v refs c }
    ensures joined { (refs : List Name) (c : Version) → IsVersionOf region.old v refs c → IsVersionOf region.new v refs (steps.join_pt tomb c) }
    ensures kept { IsKeptBut v region.old region.new }
    ensures rewritten { IsRewritten region.old region.new v }
    ensures well { IsWell region.new }
{
    let head = head_of(region, v);
    let now = Head {
        partition_tombstone: greater_tomb(head.partition_tombstone, Some(tomb)),
        static_flag: head.static_flag,
        phase: head.phase,
    };
    set_head(region, v, now);
}

/// Frees a version that has nothing but its end dummy, which is in no list, and that is in no chain.
pub fn free_version<const S: usize>(region: &mut Region<S>, v: Ref)
    requires version { (end : Name) × (c : Version) × IsVersionOf region.old v (end ∷ []) c × (c.statics ≡ None) × IsUnlisted region.old end }
    requires unlisted { IsUnlisted region.old v }
    ensures head { body region.new v ≡ None }
    ensures end { (end : Name) (c : Version) → IsVersionOf region.old v (end ∷ []) c → body region.new end ≡ None }
    ensures none { IsNoneMade region.old region.new }
    ensures kept { IsKeptBut v region.old region.new }
    ensures spare { spare_of S region.new.usages ≡ spare_of S region.old.usages }
    ensures live { live_bytes region.new + 152 ≡ live_bytes region.old }
    ensures well { IsWell region.new }
{
    region.known();
    let tree = Tree {
        top: End::Obj(v, 2),
    };
    match tree.first(region) {
        Some(end) => {
            tree.remove(region, end);
            region.free_obj(end);
            region.free_obj(v);
        }
        None => unreachable!(),
    }
}
