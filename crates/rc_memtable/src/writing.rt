//! What is written into one chain: one thing at a time, into its newest version, which nobody pins.
ghost use Rattle.std.specs.Prelude.{◌≡◌, true, ◌+◌, ◌*◌, ◌/◌, ◌≤◌, ℕ, List as Sequence, Some};
ghost use Rattle.lsa_pool.specs.Room.{spare_of};
ghost use Rattle.lsa_region.specs.Region.{live_bytes};
ghost use Rattle.rc_cell.specs.Winner.{IsRow};
ghost use Rattle.rc_position.specs.Position.{IsBefore};
ghost use Rattle.rc_schema.specs.SchemaValue.{SchemaValue};
ghost use Rattle.rc_schema.specs.Largest.{largest_entry, largest_static};
ghost use Rattle.rc_mutation.specs.declared.mutations.Mutation.{Mutation as Change};
ghost use Rattle.rc_mutation.specs.Fragments.{is_written};
ghost use Rattle.rc_writes.specs.Allowed.{ChangeFits, IsRangeBound, IsRowOf, IsStaticOf};
ghost use Rattle.rc_writes.specs.Single.{IsSingle};
ghost use Rattle.rc_core.specs.StandsFor.{written_pt, written_range, written_row, written_statics};
ghost use Rattle.rc_memory.specs.Memory.{KeptChain, chain_at};
ghost use Rattle.rc_memtable.specs.Changes.{KeepsChanges};
ghost use Rattle.rc_memtable.specs.Writes.{IsNewestPinned, joined_need};
ghost use Rattle.rc_memtable.specs.calls.Steps.{IsChangeWritten, chains_bytes};
ghost use Rattle.rc_memtable.specs.calls.Writing.{CanWrite, IsOpened, CanJoinNewest};

use rc_cell::{Row, Tomb};
use rc_chain::Chains;
use rc_core::Flag;
use rc_mutation::Mutation;
use rc_position::{Key, Pos};

// A partition tombstone into the newest version of a chain.
fn write_tomb<const S: usize>(chains: &mut Chains<S>, id: u64, number: u64, tomb: Tomb)
    requires { (schema : SchemaValue) × CanJoinNewest S schema chains.old id number 0 }
    ensures { (schema : SchemaValue) → IsChangeWritten S schema id (written_pt tomb) 512 chains.old chains.new }
{
    chains.known();
    chains.join_pt(id, number, tomb);
}

// A static row into the newest version of a chain.
fn write_static<const S: usize>(chains: &mut Chains<S>, id: u64, number: u64, row: &Row)
    requires { (schema : SchemaValue) × CanJoinNewest S schema chains.old id number (largest_static schema) × IsStaticOf schema row.now × IsRow row.now }
    ensures { (schema : SchemaValue) → IsStaticOf schema row.now → IsRow row.now → is_written row.now ≡ true → IsChangeWritten S schema id (written_statics row.now) 512 chains.old chains.new }
{
    chains.known();
    chains.join_static(id, number, row, Flag::Inherit);
}

// A row into the newest version of a chain.
fn write_row<const S: usize>(chains: &mut Chains<S>, id: u64, number: u64, key: &Key, row: &Row)
    requires { (schema : SchemaValue) × CanJoinNewest S schema chains.old id number (largest_entry schema) × IsRowOf schema key.now row.now × IsRow row.now }
    ensures { (schema : SchemaValue) → IsRowOf schema key.now row.now → IsRow row.now → IsChangeWritten S schema id (written_row key.now row.now) 512 chains.old chains.new }
{
    chains.known();
    chains.join_row(id, number, key, row);
}

// A range tombstone into the newest version of a chain.
fn write_range<const S: usize>(
    chains: &mut Chains<S>,
    id: u64,
    number: u64,
    from: &Pos,
    to: &Pos,
    tomb: Tomb,
)
    requires { (schema : SchemaValue) × CanJoinNewest S schema chains.old id number (2 * largest_entry schema) × IsRangeBound schema from.now × IsRangeBound schema to.now × IsBefore from.now to.now }
    ensures { (schema : SchemaValue) → IsRangeBound schema from.now → IsRangeBound schema to.now → IsChangeWritten S schema id (written_range from.now to.now tomb) 512 chains.old chains.new }
{
    chains.known();
    chains.join_range(id, number, from, to, tomb);
}

// Sees to it that nobody pins the newest version of a chain: a version is put over it where a snapshot does. Gives its number.
fn open_newest<const S: usize>(chains: &mut Chains<S>, id: u64) -> u64
    requires kept { (schema : SchemaValue) × (changes : Sequence Change) × (k : KeptChain) × (chain_at chains.old id ≡ Some k) × KeepsChanges schema k.chain changes }
    requires fits { 88 ≤ S / 8 }
    requires spare { IsNewestPinned chains.old id → 152 ≤ spare_of S chains.old.region.usages }
    ensures opened { IsOpened id result chains.old chains.new }
    ensures spare { (bytes : ℕ) → bytes ≤ spare_of S chains.old.region.usages → (IsNewestPinned chains.old id → 152 + bytes ≤ spare_of S chains.old.region.usages) → bytes ≤ spare_of S chains.new.region.usages }
{
    chains.known();
    let newest = chains.versions(id) - 1;
    if !chains.is_pinned(id, newest) {
        return newest;
    }
    chains.add_version(id, 0);
    newest + 1
}

// What a write says of its partition into the newest version of a chain.
fn write_newest<const S: usize>(chains: &mut Chains<S>, id: u64, number: u64, change: &Mutation)
    requires { (schema : SchemaValue) × CanJoinNewest S schema chains.old id number (joined_need schema change.now) × IsSingle change.now × ChangeFits schema change.now }
    ensures { (schema : SchemaValue) → ChangeFits schema change.now → IsChangeWritten S schema id change.now 512 chains.old chains.new }
{
    change.holds_together();
    if let Some(tomb) = change.pt {
        return write_tomb(chains, id, number, tomb);
    }
    if let [entry, _rest @ ..] = change.rows.as_slice() {
        return write_row(chains, id, number, &entry.0, &entry.1);
    }
    if let [range, _rest @ ..] = change.ranges.as_slice() {
        return write_range(chains, id, number, &range.from, &range.to, range.tomb);
    }
    write_static(chains, id, number, change.statics.as_row());
}

/// Writes what a write says of its partition into a chain: into its newest version, over which another one, of 152 bytes, is put first where a snapshot pins it.
pub(crate) fn write_into<const S: usize>(chains: &mut Chains<S>, id: u64, change: &Mutation)
    requires { (schema : SchemaValue) × CanWrite S schema chains.old id change.now }
    ensures written { (schema : SchemaValue) → ChangeFits schema change.now → IsChangeWritten S schema id change.now 360 chains.old chains.new }
    ensures live { live_bytes chains.new.region ≡ chains_bytes chains.new }
{
    let number = open_newest(chains, id);
    write_newest(chains, id, number, change);
    chains.known();
}
