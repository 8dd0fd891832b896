//! The work on links: two links are paired and parted.
ghost use Rattle.std.specs.Prelude.{◌≡◌, ◌≢◌, ◌↔◌, ◌≤◌, true, None};
ghost use Rattle.lsa_pool.specs.Room.{spare_of};
ghost use Rattle.lsa_region.specs.Region.{link_of, IsEnd};

use crate::works::DUMMY;
use lsa_kinds::Kind;
use lsa_region::{End, Region};

// Pairs two ends and parts them again.
fn change(region: &mut Region<4096>, a: End, b: End)
    requires first { IsEnd region.old a }
    requires second { IsEnd region.old b }
    requires first_unset { link_of region.old a ≡ None }
    requires second_unset { link_of region.old b ≡ None }
    requires differ { a ≢ b }
    ensures links { (e : End) → link_of region.new e ≡ link_of region.old e }
    ensures ends { (e : End) → IsEnd region.old e → IsEnd region.new e }
{
    region.link(a, b);
    region.unlink(a);
}

// The same, so many times.
fn change_often(region: &mut Region<4096>, a: End, b: End, times: u64)
    requires first { IsEnd region.old a }
    requires second { IsEnd region.old b }
    requires first_unset { link_of region.old a ≡ None }
    requires second_unset { link_of region.old b ≡ None }
    requires differ { a ≢ b }
    ensures links { (e : End) → link_of region.new e ≡ link_of region.old e }
{
    for changed in 0..times {
        change(region, a, b);
    }
}

/// Makes two dummies, and pairs a link of each and parts them so many times; false where there is no room for them. Nothing shows afterwards
/// that this was done but the time that it took.
pub fn change_links(region: &mut Region<4096>, times: u64) -> bool
    ensures room { result ≡ true ↔ (176 ≤ spare_of 4096 region.old.usages) }
    ensures links { (e : End) → link_of region.new e ≡ link_of region.old e }
{
    if region.spare() < 176 {
        return false;
    }
    let first = region.alloc_obj(Kind::Dummy, &DUMMY);
    let second = region.alloc_obj(Kind::Dummy, &DUMMY);
    let (a, b) = (End::Obj(first, 0), End::Obj(second, 0));
    change_often(region, a, b, times);
    true
}
