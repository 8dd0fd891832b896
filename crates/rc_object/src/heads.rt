//! The head of a version: its partition tombstone, the flag of its static row, and its phase.
ghost use Rattle.std.specs.Prelude.{◌≡◌, ◌/◌, ◌≤◌};
ghost use Rattle.lsa_kinds.specs.Fields.{number_at};
ghost use Rattle.lsa_pool.specs.Room.{spare_of};
ghost use Rattle.lsa_region.specs.Region.{IsWell};
ghost use Rattle.rc_object.specs.declared.heads.Head.{Head as HeadValue};
ghost use Rattle.rc_object.specs.Objects.{SpellsHead, HoldsHead, IsMade, IsRewritten};

use crate::bytes::{flag_bits, flag_from, tomb_from, tomb_parts};
use crate::makers::make;
use lsa_kinds::Kind;
use lsa_kinds::layout::version;
use lsa_region::{Ref, Region};
use rc_cell::Tomb;
use rc_core::Flag;

/// What a version says beside its entries and its static row.
#[derive(Clone, Copy)]
pub struct Head {
    /// The partition tombstone.
    pub partition_tombstone: Option<Tomb>,
    /// The flag of the static row.
    pub static_flag: Flag,
    /// The phase: the count of the cache's updates that the version belongs to.
    pub phase: u64,
}

// The bytes behind the links of a version with this head.
fn head_bytes(head: Head) -> [u8; 24]
    ensures spells { SpellsHead (Kind.Version, result) head }
    ensures level { number_at 1 1 result ≡ 0 }
{
    let (present, timestamp, deletion) = tomb_parts(head.partition_tombstone);
    let mut bytes = [0; 24];
    version::Flags::put(&mut bytes, present + 2 * flag_bits(head.static_flag));
    version::TombstoneDeletionTime::put(&mut bytes, deletion);
    version::TombstoneTimestamp::put(&mut bytes, timestamp);
    version::Phase::put(&mut bytes, head.phase);
    bytes
}

/// The head of a version.
pub fn head_of<const S: usize>(region: &Region<S>, v: Ref) -> Head
    requires { (h : HeadValue) × HoldsHead region.now v h }
    ensures { (h : HeadValue) → HoldsHead region.now v h → result ≡ h }
{
    let bytes = region.bytes(v);
    let flags = version::Flags::get(bytes);
    let timestamp = version::TombstoneTimestamp::get(bytes);
    let deletion = version::TombstoneDeletionTime::get(bytes);
    Head {
        partition_tombstone: tomb_from(flags % 2, timestamp, deletion),
        static_flag: flag_from(flags / 2),
        phase: version::Phase::get(bytes),
    }
}

/// Gives a version another head.
pub fn set_head<const S: usize>(region: &mut Region<S>, v: Ref, head: Head)
    requires { (h : HeadValue) × HoldsHead region.old v h }
    ensures holds { HoldsHead region.new v head }
    ensures rewritten { IsRewritten region.old region.new v }
    ensures well { IsWell region.new }
{
    region.write(v, 0, &head_bytes(head));
}

/// Makes a version of this head, which takes 64 bytes. It has no entries and no static row yet, and is in no chain.
pub fn make_head<const S: usize>(region: &mut Region<S>, head: Head) -> Ref
    requires fits { 64 ≤ S / 8 }
    requires spare { 64 ≤ spare_of S region.old.usages }
    ensures holds { HoldsHead region.new result head }
    ensures made { IsMade S region.old region.new result 64 }
    ensures well { IsWell region.new }
{
    make(region, Kind::Version, &head_bytes(head))
}
