//! The static row of a version, given and taken.
ghost use Rattle.std.specs.Prelude.{◌≡◌, ◌+◌, ◌/◌, ◌≤◌, ℕ, Some, None, Contains};
ghost use Rattle.rc_cell.specs.declared.rows.Row.{Row};
ghost use Rattle.rc_rowcode.specs.Objects.{static_size};
ghost use Rattle.lsa_pool.specs.Room.{spare_of};
ghost use Rattle.lsa_region.specs.Region.{IsWell};
ghost use Rattle.rc_core.specs.Continuity.{without_statics};
ghost use Rattle.rc_core.specs.Steps.{set_statics};
ghost use Rattle.rc_core.specs.Version.{Version};
ghost use Rattle.rc_object.specs.Objects.{IsRowCode};
ghost use Rattle.rc_registry.specs.Registry.{Registry};
ghost use Rattle.rc_memory.specs.declared.counts.Counts.{Counts};
ghost use Rattle.rc_memory.specs.Memory.{KeptChain, Memory};
ghost use Rattle.rc_memory.specs.Changes.{AtAlone, IsRenewed, IsVersionChanged, IsWithout, member_at};
ghost use Rattle.rc_recency.specs.Holding.{HoldsAfter, IsHeldVersion, IsOffMemtable};
ghost use Rattle.rc_recency.specs.calls.Holding.{list_with};

use crate::listing::{push_cached, take_found};
use lsa_list::List;
use lsa_region::{Ref, Region};
use rc_core::{ChainKind, Flag};
use rc_version::static_row;

/// Gives a version a static row, whose code this is, in place of the one that it has, which leaves the recency list; and the flag of the static row. In a
/// cache chain it is the most recent one then. An empty row has no object, so none is handed in.
pub fn set_static<const S: usize>(
    region: &mut Region<S>,
    list: &List,
    kind: ChainKind,
    v: Ref,
    code: &[u8],
    flag: Flag,
)
    requires { (registry : Registry) × (counts : Counts) × (m : Memory) × (id : ℕ) × (j : ℕ) × (k : KeptChain) × (c : Version) × (row : Row) × IsHeldVersion list.now region.old registry counts m id j k c v × IsRowCode code.now row × (static_size row ≤ S / 8) × (static_size row ≤ spare_of S region.old.usages) }
    ensures changed { (registry : Registry) (counts : Counts) (m : Memory) (id j : ℕ) (k : KeptChain) (c : Version) (row : Row) → IsHeldVersion list.now region.old registry counts m id j k c v → IsRowCode code.now row → IsOffMemtable kind (member_at id j None) m →
        HoldsAfter list.now region.new registry counts (λ n. IsVersionChanged id j (set_statics (Some row) flag) (AtAlone (member_at id j None)) m n × IsRenewed kind (member_at id j None) m.recency n.recency) }
    ensures spare { (row : Row) → IsRowCode code.now row → spare_of S region.old.usages ≤ spare_of S region.new.usages + static_size row }
    ensures well { IsWell region.new }
{
    take_found(region, list, static_row(region, v));
    region.known();
    rc_version::set_static(region, v, code, flag);
    region.known();
    match static_row(region, v) {
        Some(s) => push_cached(region, list, kind, s),
        None => unreachable!(),
    }
}

/// Takes the static row of a version out and frees it, where there is one; it leaves the recency list first. Its flag is Unknown then, also where there was
/// none.
pub fn drop_static<const S: usize>(region: &mut Region<S>, list: &List, v: Ref)
    requires { (registry : Registry) × (counts : Counts) × (m : Memory) × (id : ℕ) × (j : ℕ) × (k : KeptChain) × (c : Version) × IsHeldVersion list.now region.old registry counts m id j k c v }
    ensures changed { (registry : Registry) (counts : Counts) (m : Memory) (id j : ℕ) (k : KeptChain) (c : Version) → IsHeldVersion list.now region.old registry counts m id j k c v →
        HoldsAfter list.now region.new registry counts (λ n. IsVersionChanged id j without_statics (AtAlone (member_at id j None)) m n × IsWithout (member_at id j None) m.recency n.recency) }
    ensures spare { spare_of S region.new.usages ≡ spare_of S region.old.usages }
    ensures well { IsWell region.new }
{
    take_found(region, list, static_row(region, v));
    region.known();
    rc_version::drop_static(region, v);
    region.known();
}
