//! A row joined to a version. The object of it is made anew, so it is the most recent one of a cache chain.
ghost use Rattle.std.specs.Prelude.{◌≡◌, ◌⊎◌, ◌↔◌, ◌+◌, ◌≤◌, ℕ, List as Sequence, Some, None};
ghost use Rattle.rc_cell.specs.declared.rows.Row.{Row};
ghost use Rattle.rc_position.specs.Position.{row_pos};
ghost use Rattle.rc_rowcode.specs.Objects.{static_size};
ghost use Rattle.rc_rowcode.specs.Spelling.{KeyFits};
ghost use Rattle.lsa_pool.specs.Room.{spare_of};
ghost use Rattle.lsa_store.specs.declared.place.Ref.{Ref as Name};
ghost use Rattle.lsa_region.specs.Region.{IsWell};
ghost use Rattle.rc_core.specs.Change.{joined_onto};
ghost use Rattle.rc_core.specs.declared.entries.Entry.{Entry};
ghost use Rattle.rc_core.specs.Steps.{join_statics, row_joined};
ghost use Rattle.rc_core.specs.Version.{Version};
ghost use Rattle.rc_object.specs.Objects.{HoldsEntry, HoldsStatic, IsRowCode};
ghost use Rattle.rc_version.specs.Versions.{IsEntryFound, IsStaticsOf, IsVersionOf, joined_bytes};
ghost use Rattle.rc_registry.specs.Registry.{Registry};
ghost use Rattle.rc_memory.specs.declared.counts.Counts.{Counts};
ghost use Rattle.rc_memory.specs.Memory.{KeptChain, Memory, IsMemberObject};
ghost use Rattle.rc_memory.specs.Changes.{AtAlone, IsRenewed, IsVersionChanged, member_at};
ghost use Rattle.rc_recency.specs.Holding.{HasRoomLike, HasRoomToJoin, HoldsAfter, IsHeldVersion, IsOffMemtable};

use crate::listing::{push_cached, take_found};
use lsa_kinds::Kind;
use lsa_list::List;
use lsa_region::{Ref, Region};
use rc_core::ChainKind;
use rc_position::Key;
use rc_rowcode::Scratch;
use rc_version::{entry_at_key, entry_like, static_row};

/// Joins a row to what a version has at a key. The entry there is made anew and keeps its flags and tombstones; where there is none, it takes those of the gap.
/// In a cache chain it is the most recent one then.
pub fn join_row<const S: usize>(
    region: &mut Region<S>,
    list: &List,
    kind: ChainKind,
    v: Ref,
    key: &Key,
    code: &[u8],
    sc: &mut Scratch,
) -> Ref
    requires limits { KeyFits key.now }
    requires row { (registry : Registry) × (counts : Counts) × (m : Memory) × (id : ℕ) × (j : ℕ) × (k : KeptChain) × (c : Version) × (row : Row) × IsHeldVersion list.now region.old registry counts m id j k c v × IsRowCode code.now row × HasRoomToJoin S region.old sc.old.size (row_pos key.now) row c }
    ensures changed { (registry : Registry) (counts : Counts) (m : Memory) (id j : ℕ) (k : KeptChain) (c : Version) (row : Row) → IsHeldVersion list.now region.old registry counts m id j k c v → IsRowCode code.now row → IsOffMemtable kind (member_at id j (Some (row_pos key.now))) m →
        HoldsAfter list.now region.new registry counts (λ n. IsVersionChanged id j (row_joined (row_pos key.now) row) (AtAlone (member_at id j (Some (row_pos key.now)))) m n × IsRenewed kind (member_at id j (Some (row_pos key.now))) m.recency n.recency × IsMemberObject n result (member_at id j (Some (row_pos key.now)))) }
    ensures spare { (registry : Registry) (counts : Counts) (m : Memory) (id j : ℕ) (k : KeptChain) (c : Version) (row : Row) → IsHeldVersion list.now region.old registry counts m id j k c v → IsRowCode code.now row → spare_of S region.old.usages ≤ spare_of S region.new.usages + joined_bytes (row_pos key.now) row c }
    ensures size { sc.new.size ≡ sc.old.size }
    ensures well { IsWell region.new }
{
    take_found(region, list, entry_at_key(region, v, key));
    region.known();
    let r = rc_version::join_row(region, v, key, code, sc);
    region.known();
    push_cached(region, list, kind, r);
    r
}

// The object of a version in the place of an object of another one: the entry at its position, or the static row.
fn found_like<const S: usize>(region: &Region<S>, v: Ref, e: Ref) -> Option<Ref>
    requires version { (refs : Sequence Name) × (c : Version) × IsVersionOf region.now v refs c }
    requires there { ((y : Entry) × HoldsEntry region.now e y) ⊎ ((row : Row) × HoldsStatic region.now e row) }
    ensures entry { (refs : Sequence Name) (c : Version) (y : Entry) → IsVersionOf region.now v refs c → HoldsEntry region.now e y → IsEntryFound region.now refs c y.position result }
    ensures statics { (row : Row) (s : Name) → HoldsStatic region.now e row → (result ≡ Some s) ↔ IsStaticsOf region.now v s }
{
    match region.kind(e) {
        Kind::RowEntry => entry_like(region, v, e),
        Kind::Dummy => entry_like(region, v, e),
        Kind::Static => static_row(region, v),
        Kind::Version => unreachable!(),
    }
}

/// Joins the row of an object of another version to what a version has in its place: the row of an entry at its position, or a static row to the static
/// row, whose flag stays. What is made is the most recent one of a cache chain then.
pub fn join_like<const S: usize>(
    region: &mut Region<S>,
    list: &List,
    kind: ChainKind,
    v: Ref,
    e: Ref,
    sc: &mut Scratch,
) -> Ref
    requires { (registry : Registry) × (counts : Counts) × (m : Memory) × (id : ℕ) × (j : ℕ) × (k : KeptChain) × (c : Version) × IsHeldVersion list.now region.old registry counts m id j k c v × HasRoomLike S region.old sc.old.size e c }
    ensures entry { (registry : Registry) (counts : Counts) (m : Memory) (id j : ℕ) (k : KeptChain) (c : Version) (y : Entry) (row : Row) → IsHeldVersion list.now region.old registry counts m id j k c v → HoldsEntry region.old e y → y.row ≡ Some row → IsOffMemtable kind (member_at id j (Some y.position)) m →
        HoldsAfter list.now region.new registry counts (λ n. IsVersionChanged id j (row_joined y.position row) (AtAlone (member_at id j (Some y.position))) m n × IsRenewed kind (member_at id j (Some y.position)) m.recency n.recency × IsMemberObject n result (member_at id j (Some y.position))) }
    ensures entry_spare { (registry : Registry) (counts : Counts) (m : Memory) (id j : ℕ) (k : KeptChain) (c : Version) (y : Entry) (row : Row) → IsHeldVersion list.now region.old registry counts m id j k c v → HoldsEntry region.old e y → y.row ≡ Some row → spare_of S region.old.usages ≤ spare_of S region.new.usages + joined_bytes y.position row c }
    ensures statics { (registry : Registry) (counts : Counts) (m : Memory) (id j : ℕ) (k : KeptChain) (c : Version) (row : Row) → IsHeldVersion list.now region.old registry counts m id j k c v → HoldsStatic region.old e row → IsOffMemtable kind (member_at id j None) m →
        HoldsAfter list.now region.new registry counts (λ n. IsVersionChanged id j (join_statics row) (AtAlone (member_at id j None)) m n × IsRenewed kind (member_at id j None) m.recency n.recency × IsMemberObject n result (member_at id j None)) }
    ensures statics_spare { (registry : Registry) (counts : Counts) (m : Memory) (id j : ℕ) (k : KeptChain) (c : Version) (row : Row) → IsHeldVersion list.now region.old registry counts m id j k c v → HoldsStatic region.old e row → spare_of S region.old.usages ≤ spare_of S region.new.usages + static_size (joined_onto c.statics row) }
    ensures size { sc.new.size ≡ sc.old.size }
    ensures well { IsWell region.new }
{
    take_found(region, list, found_like(region, v, e));
    region.known();
    let made = rc_version::join_like(region, v, e, sc);
    region.known();
    push_cached(region, list, kind, made);
    made
}
