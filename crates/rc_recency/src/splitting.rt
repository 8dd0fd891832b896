//! An entry of a version at a position, made where there is none; and one that is taken out.
ghost use Rattle.std.specs.Prelude.{◌≡◌, ◌≢◌, ◌+◌, ◌≤◌, ℕ, Some, None};
ghost use Rattle.rc_position.specs.declared.positions.Pos.{Pos as Position};
ghost use Rattle.rc_rowcode.specs.Objects.{dummy_size};
ghost use Rattle.rc_rowcode.specs.Spelling.{KeyFits};
ghost use Rattle.lsa_pool.specs.Room.{spare_of};
ghost use Rattle.lsa_region.specs.Region.{body, IsWell};
ghost use Rattle.rc_core.specs.Change as change;
ghost use Rattle.rc_core.specs.Continuity.{with_entries};
ghost use Rattle.rc_core.specs.declared.entries.Entry.{Entry};
ghost use Rattle.rc_core.specs.Version.{Version, end_position};
ghost use Rattle.rc_object.specs.Objects.{HasRoomFor, HoldsEntry, entry_length};
ghost use Rattle.rc_registry.specs.Registry.{Registry};
ghost use Rattle.rc_memory.specs.declared.counts.Counts.{Counts};
ghost use Rattle.rc_memory.specs.Memory.{KeptChain, Memory, IsMemberObject};
ghost use Rattle.rc_memory.specs.Changes.{AtAlone, IsRenewedWhereNone, IsVersionChanged, IsWithout, Nowhere, member_at};
ghost use Rattle.rc_recency.specs.Holding.{HoldsAfter, IsHeldVersion};

use crate::listing::{push_cached, take};
use lsa_list::List;
use lsa_region::{Ref, Region};
use rc_core::ChainKind;
use rc_position::Pos;
use rc_rowcode::Scratch;
use rc_version::{entry_at, entry_like};

/// The entry of a version at a position. Where there is none, a dummy is made with the flag and the tombstone of the gap there, so that no answer at any
/// position changes; in a cache chain it is the most recent one then.
pub fn split<const S: usize>(
    region: &mut Region<S>,
    list: &List,
    kind: ChainKind,
    v: Ref,
    x: &Pos,
    sc: &mut Scratch,
) -> Ref
    requires limits { KeyFits x.now.prefix }
    requires room { HasRoomFor S region.old (dummy_size x.now) sc.old.size (entry_length x.now None) }
    requires version { (registry : Registry) × (counts : Counts) × (m : Memory) × (id : ℕ) × (j : ℕ) × (k : KeptChain) × (c : Version) × IsHeldVersion list.now region.old registry counts m id j k c v }
    ensures changed { (registry : Registry) (counts : Counts) (m : Memory) (id j : ℕ) (k : KeptChain) (c : Version) → IsHeldVersion list.now region.old registry counts m id j k c v →
        HoldsAfter list.now region.new registry counts (λ n. IsVersionChanged id j (λ d. with_entries (change.gap_split x.now d.entries) d) Nowhere m n × IsRenewedWhereNone kind c (member_at id j (Some x.now)) m.recency n.recency × IsMemberObject n result (member_at id j (Some x.now))) }
    ensures spare { spare_of S region.old.usages ≤ spare_of S region.new.usages + dummy_size x.now }
    ensures size { sc.new.size ≡ sc.old.size }
    ensures well { IsWell region.new }
{
    region.known();
    match entry_at(region, v, x) {
        Some(r) => r,
        None => {
            let r = rc_version::split(region, v, x, sc);
            region.known();
            push_cached(region, list, kind, r);
            r
        }
    }
}

/// The entry of a version at the position of an entry of another version, made as `split` makes it where there is none.
pub fn split_like<const S: usize>(
    region: &mut Region<S>,
    list: &List,
    kind: ChainKind,
    v: Ref,
    e: Ref,
    sc: &mut Scratch,
) -> Ref
    requires room { (y : Entry) × HoldsEntry region.old e y × HasRoomFor S region.old (dummy_size y.position) sc.old.size (entry_length y.position None) }
    requires version { (registry : Registry) × (counts : Counts) × (m : Memory) × (id : ℕ) × (j : ℕ) × (k : KeptChain) × (c : Version) × IsHeldVersion list.now region.old registry counts m id j k c v }
    ensures changed { (registry : Registry) (counts : Counts) (m : Memory) (id j : ℕ) (k : KeptChain) (c : Version) (y : Entry) → IsHeldVersion list.now region.old registry counts m id j k c v → HoldsEntry region.old e y →
        HoldsAfter list.now region.new registry counts (λ n. IsVersionChanged id j (λ d. with_entries (change.gap_split y.position d.entries) d) Nowhere m n × IsRenewedWhereNone kind c (member_at id j (Some y.position)) m.recency n.recency × IsMemberObject n result (member_at id j (Some y.position))) }
    ensures spare { (y : Entry) → HoldsEntry region.old e y → spare_of S region.old.usages ≤ spare_of S region.new.usages + dummy_size y.position }
    ensures size { sc.new.size ≡ sc.old.size }
    ensures well { IsWell region.new }
{
    region.known();
    match entry_like(region, v, e) {
        Some(r) => r,
        None => {
            let made = rc_version::split_like(region, v, e, sc);
            region.known();
            push_cached(region, list, kind, made);
            made
        }
    }
}

/// Takes an entry of a version out, which is not its end dummy, and frees it. It leaves the recency list first, where it is in it. The gap before the next
/// entry is Unknown then, and without a tombstone.
pub fn drop_entry<const S: usize>(region: &mut Region<S>, list: &List, v: Ref, e: Ref)
    requires { (registry : Registry) × (counts : Counts) × (m : Memory) × (id : ℕ) × (j : ℕ) × (k : KeptChain) × (c : Version) × (x : Position) × IsHeldVersion list.now region.old registry counts m id j k c v × IsMemberObject m e (member_at id j (Some x)) × (x ≢ end_position) }
    ensures changed { (registry : Registry) (counts : Counts) (m : Memory) (id j : ℕ) (k : KeptChain) (c : Version) (x : Position) → IsHeldVersion list.now region.old registry counts m id j k c v → IsMemberObject m e (member_at id j (Some x)) →
        HoldsAfter list.now region.new registry counts (λ n. IsVersionChanged id j (λ d. with_entries (change.drop_at x d.entries) d) (AtAlone (member_at id j (Some x))) m n × IsWithout (member_at id j (Some x)) m.recency n.recency) }
    ensures gone { body region.new e ≡ None }
    ensures spare { spare_of S region.new.usages ≡ spare_of S region.old.usages }
    ensures well { IsWell region.new }
{
    take(region, list, e);
    region.known();
    rc_version::drop_entry(region, v, e);
    region.known();
}
