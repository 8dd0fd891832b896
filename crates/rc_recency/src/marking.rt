//! The marks and the head of a version. No object comes or goes, so the recency list stays.
ghost use Rattle.std.specs.Prelude.{◌≡◌, ℕ, Some};
ghost use Rattle.rc_position.specs.declared.positions.Pos.{Pos as Position};
ghost use Rattle.rc_position.specs.Position.{IsBefore};
ghost use Rattle.lsa_pool.specs.Room.{spare_of};
ghost use Rattle.lsa_store.specs.declared.place.Ref.{Ref as Name};
ghost use Rattle.lsa_region.specs.Region.{IsWell};
ghost use Rattle.lsa_list.specs.declared.recency.List.{List as Slots};
ghost use Rattle.rc_core.specs.AtPlace.{HasEntryAt};
ghost use Rattle.rc_core.specs.Steps as steps;
ghost use Rattle.rc_core.specs.Version.{Version};
ghost use Rattle.rc_object.specs.Objects.{IsRewritten};
ghost use Rattle.rc_version.specs.Versions.{mark_after, marked_between};
ghost use Rattle.rc_registry.specs.Registry.{Registry};
ghost use Rattle.rc_memory.specs.declared.counts.Counts.{Counts};
ghost use Rattle.rc_memory.specs.Memory.{KeptChain, Memory, IsMemberObject};
ghost use Rattle.rc_memory.specs.Kept.{HoldMemory};
ghost use Rattle.rc_memory.specs.Changes.{IsVersionChanged, Nowhere, member_at};
ghost use Rattle.rc_recency.specs.Holding.{HoldsAfter, IsHeldVersion};

use lsa_region::{Ref, Region};
use rc_cell::Tomb;
use rc_core::Flag;
use rc_position::Pos;
use rc_version::Marking;

/// Gives an entry of a version other flags, at it and over the gap before it. Its tombstones stay.
pub fn set_flags<const S: usize>(region: &mut Region<S>, e: Ref, at: Flag, gap: Flag)
    requires { (slots : Slots) × (registry : Registry) × (counts : Counts) × (m : Memory) × (id : ℕ) × (j : ℕ) × (x : Position) × HoldMemory slots region.old registry counts m × IsMemberObject m e (member_at id j (Some x)) }
    ensures changed { (slots : Slots) (registry : Registry) (counts : Counts) (m : Memory) (id j : ℕ) (x : Position) → HoldMemory slots region.old registry counts m → IsMemberObject m e (member_at id j (Some x)) →
        HoldsAfter slots region.new registry counts (λ n. IsVersionChanged id j (steps.set_flags x at gap) Nowhere m n × (n.recency ≡ m.recency)) }
    ensures rewritten { IsRewritten region.old region.new e }
    ensures well { IsWell region.new }
{
    region.known();
    rc_version::set_flags(region, e, at, gap);
    region.known();
}

/// Gives an entry of a version other range tombstones, at it and over the gap before it. Its flags stay.
pub fn set_tombs<const S: usize>(
    region: &mut Region<S>,
    e: Ref,
    at: Option<Tomb>,
    gap: Option<Tomb>,
)
    requires { (slots : Slots) × (registry : Registry) × (counts : Counts) × (m : Memory) × (id : ℕ) × (j : ℕ) × (x : Position) × HoldMemory slots region.old registry counts m × IsMemberObject m e (member_at id j (Some x)) }
    ensures changed { (slots : Slots) (registry : Registry) (counts : Counts) (m : Memory) (id j : ℕ) (x : Position) → HoldMemory slots region.old registry counts m → IsMemberObject m e (member_at id j (Some x)) →
        HoldsAfter slots region.new registry counts (λ n. IsVersionChanged id j (steps.set_tombs x at gap) Nowhere m n × (n.recency ≡ m.recency)) }
    ensures rewritten { IsRewritten region.old region.new e }
    ensures well { IsWell region.new }
{
    region.known();
    rc_version::set_tombs(region, e, at, gap);
    region.known();
}

/// Gives the static row of a version another flag, also where there is no static row.
pub fn set_static_flag<const S: usize>(region: &mut Region<S>, v: Ref, flag: Flag)
    requires { (slots : Slots) × (registry : Registry) × (counts : Counts) × (m : Memory) × (id : ℕ) × (j : ℕ) × (k : KeptChain) × (c : Version) × IsHeldVersion slots region.old registry counts m id j k c v }
    ensures changed { (slots : Slots) (registry : Registry) (counts : Counts) (m : Memory) (id j : ℕ) (k : KeptChain) (c : Version) → IsHeldVersion slots region.old registry counts m id j k c v →
        HoldsAfter slots region.new registry counts (λ n. IsVersionChanged id j (steps.set_static_flag flag) Nowhere m n × (n.recency ≡ m.recency)) }
    ensures rewritten { IsRewritten region.old region.new v }
    ensures well { IsWell region.new }
{
    region.known();
    rc_version::set_static_flag(region, v, flag);
    region.known();
}

/// Joins a partition tombstone to that of a version: the greater one stands.
pub fn join_pt<const S: usize>(region: &mut Region<S>, v: Ref, tomb: Tomb)
    requires { (slots : Slots) × (registry : Registry) × (counts : Counts) × (m : Memory) × (id : ℕ) × (j : ℕ) × (k : KeptChain) × (c : Version) × IsHeldVersion slots region.old registry counts m id j k c v }
    ensures changed { (slots : Slots) (registry : Registry) (counts : Counts) (m : Memory) (id j : ℕ) (k : KeptChain) (c : Version) → IsHeldVersion slots region.old registry counts m id j k c v →
        HoldsAfter slots region.new registry counts (λ n. IsVersionChanged id j (steps.join_pt tomb) Nowhere m n × (n.recency ≡ m.recency)) }
    ensures rewritten { IsRewritten region.old region.new v }
    ensures well { IsWell region.new }
{
    region.known();
    rc_version::join_pt(region, v, tomb);
    region.known();
}

/// Gives a version another phase.
pub fn set_phase<const S: usize>(region: &mut Region<S>, v: Ref, phase: u64)
    requires { (slots : Slots) × (registry : Registry) × (counts : Counts) × (m : Memory) × (id : ℕ) × (j : ℕ) × (k : KeptChain) × (c : Version) × IsHeldVersion slots region.old registry counts m id j k c v }
    ensures changed { (slots : Slots) (registry : Registry) (counts : Counts) (m : Memory) (id j : ℕ) (k : KeptChain) (c : Version) → IsHeldVersion slots region.old registry counts m id j k c v →
        HoldsAfter slots region.new registry counts (λ n. IsVersionChanged id j (steps.with_phase phase) Nowhere m n × (n.recency ≡ m.recency)) }
    ensures rewritten { IsRewritten region.old region.new v }
    ensures well { IsWell region.new }
{
    region.known();
    rc_version::set_phase(region, v, phase);
    region.known();
}

/// Changes the marks of a version from one position on and before another, at both of which an entry stands: at each entry and over each gap between them.
pub fn mark_between<const S: usize>(
    region: &mut Region<S>,
    v: Ref,
    from: &Pos,
    to: &Pos,
    marking: Marking,
)
    requires ascend { IsBefore from.now to.now }
    requires version { (slots : Slots) × (registry : Registry) × (counts : Counts) × (m : Memory) × (id : ℕ) × (j : ℕ) × (k : KeptChain) × (c : Version) × IsHeldVersion slots region.old registry counts m id j k c v × HasEntryAt from.now c.entries × HasEntryAt to.now c.entries }
    ensures changed { (slots : Slots) (registry : Registry) (counts : Counts) (m : Memory) (id j : ℕ) (k : KeptChain) (c : Version) → IsHeldVersion slots region.old registry counts m id j k c v →
        HoldsAfter slots region.new registry counts (λ n. IsVersionChanged id j (marked_between (mark_after marking) from.now to.now) Nowhere m n × (n.recency ≡ m.recency)) }
    ensures spare { spare_of S region.new.usages ≡ spare_of S region.old.usages }
    ensures well { IsWell region.new }
{
    region.known();
    rc_version::mark_between(region, v, from, to, marking);
    region.known();
}
