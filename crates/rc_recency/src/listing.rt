//! The recency list where an object leaves it, and where one comes to it.
ghost use Rattle.std.specs.Prelude.{◌≡◌, List as Sequence, [], ◌∷◌, ◌++◌, Some, None, Contains};
ghost use Rattle.lsa_region.specs.Region.{IsWell};
ghost use Rattle.rc_registry.specs.Registry.{Registry};
ghost use Rattle.rc_memory.specs.declared.counts.Counts.{Counts};
ghost use Rattle.rc_memory.specs.Memory.{Member, Memory, IsMemberObject, listed_as};
ghost use Rattle.rc_memory.specs.Kept.{HoldMemory};
ghost use Rattle.rc_version.specs.Versions.{IsUnlisted};
ghost use Rattle.rc_recency.specs.Holding.{IsRelisted, IsTakenOff};
ghost use Rattle.rc_recency.specs.calls.Holding.{IsFoundAt};
ghost use Rattle.rc_recency.specs.calls.Holding.{list_with};

use lsa_list::List;
use lsa_region::{End, Ref, Region};
use rc_core::ChainKind;

/// Takes an object at a place out of the recency list, where it is in it. It is in no list then.
pub fn take<const S: usize>(region: &mut Region<S>, list: &List, r: Ref)
    requires { (registry : Registry) × (counts : Counts) × (m : Memory) × (w : Member) × HoldMemory list.now region.old registry counts m × IsMemberObject m r w }
    ensures taken { (registry : Registry) (counts : Counts) (m : Memory) (w : Member) → HoldMemory list.now region.old registry counts m → IsMemberObject m r w → IsTakenOff list.now region.new registry counts m w }
    ensures unlisted { IsUnlisted region.new r }
    ensures relisted { IsRelisted list.now region.old region.new }
    ensures well { IsWell region.new }
{
    region.known();
    match region.link_of(End::Obj(r, 0)) {
        Some(_less) => list.remove(region, r),
        None => {}
    }
}

/// Takes the object that is found at a place out of the recency list, where there is one and it is in it.
pub(crate) fn take_found<const S: usize>(region: &mut Region<S>, list: &List, found: Option<Ref>)
    requires { (registry : Registry) × (counts : Counts) × (m : Memory) × (w : Member) × HoldMemory list.now region.old registry counts m × IsFoundAt m w found }
    ensures taken { (registry : Registry) (counts : Counts) (m : Memory) (w : Member) → HoldMemory list.now region.old registry counts m → IsFoundAt m w found → IsTakenOff list.now region.new registry counts m w }
    ensures relisted { IsRelisted list.now region.old region.new }
    ensures well { IsWell region.new }
{
    match found {
        Some(r) => take(region, list, r),
        None => region.known(),
    }
}

/// Puts an object at a place that is not in the recency list at its back, as the most recent one.
pub fn push<const S: usize>(region: &mut Region<S>, list: &List, r: Ref)
    requires { (registry : Registry) × (counts : Counts) × (m : Memory) × (w : Member) × HoldMemory list.now region.old registry counts m × IsMemberObject m r w × (Contains m.recency w → ⊥) }
    ensures pushed { (registry : Registry) (counts : Counts) (m : Memory) (w : Member) → HoldMemory list.now region.old registry counts m → IsMemberObject m r w → HoldMemory list.now region.new registry counts (listed_as (m.recency ++ (w ∷ [])) region.new m) }
    ensures relisted { IsRelisted list.now region.old region.new }
    ensures well { IsWell region.new }
{
    list.push_back(region, r);
}

/// Puts an object that was made at the back of the recency list, where its chain is a cache chain's.
pub(crate) fn push_cached<const S: usize>(
    region: &mut Region<S>,
    list: &List,
    kind: ChainKind,
    r: Ref,
)
    requires { (registry : Registry) × (counts : Counts) × (m : Memory) × (w : Member) × HoldMemory list.now region.old registry counts m × IsMemberObject m r w × (Contains m.recency w → ⊥) }
    ensures pushed { (registry : Registry) (counts : Counts) (m : Memory) (w : Member) → HoldMemory list.now region.old registry counts m → IsMemberObject m r w → HoldMemory list.now region.new registry counts (listed_as (list_with kind w m.recency) region.new m) }
    ensures relisted { IsRelisted list.now region.old region.new }
    ensures well { IsWell region.new }
{
    match kind {
        ChainKind::Cache => push(region, list, r),
        ChainKind::Memtable => region.known(),
    }
}
