//! The partition: a memtable's chain, to which rows are joined, and which is read at single keys.
ghost use Rattle.std.specs.Prelude.{◌≡◌, ◌<◌, ◌≤◌, true, false, IfOk, IfSome};
ghost use Rattle.lsa_move.specs.Room.{Tight};
ghost use Rattle.lsa_pool.specs.Room.{spare_of};
ghost use Rattle.rc_memory.specs.Memory.{HasPin, IsUntouched};
ghost use Rattle.rc_rowcode.specs.Spelling.{IsCodedRow, KeyFits};
ghost use Rattle.rc_chain_bench.specs.Partition.{IsCovered, IsPartition, IsRowJoined};

use lsa_move::Ensured;
use rc_cell::Row;
use rc_chain::{ChainKind, Chains, Snap};
use rc_position::{Key, Pos, Weight};
use rc_rowcode::laws::joined_row_has_a_code;
use std::alloc::AllocError;

/// The size of a segment. An eighth of it is more than any object takes.
pub(crate) const SEGMENT: usize = 131_072;

/// As much as the largest entry takes.
const ROOM: usize = 8_952;

// Makes room for what a call makes, by moves where it must; false where there is none.
fn has_room(chains: &mut Chains<SEGMENT>) -> bool
    ensures ready { result ≡ true → 8952 ≤ spare_of 131072 chains.new.region.usages }
    ensures full { result ≡ false → spare_of 131072 chains.new.region.usages < 8952 }
    ensures tight { result ≡ false → Tight 131072 chains.new.region.usages }
    ensures untouched { IsUntouched chains.old chains.new }
{
    match chains.ensure(ROOM) {
        Ensured::Ready => true,
        Ensured::Full => false,
    }
}

/// A partition of no row; None where there is no room.
pub(crate) fn new_partition(chains: &mut Chains<SEGMENT>) -> Result<Option<u64>, AllocError>
    ensures { IfOk result (λ made. IfSome made (λ id. IsPartition chains.new id)) }
{
    if !has_room(chains) {
        return Ok(None);
    }
    let id = chains.new_chain(ChainKind::Memtable, 0, None)?;
    Ok(Some(id))
}

/// Joins a row to the newest version of a partition; false where there is no room.
pub(crate) fn join(chains: &mut Chains<SEGMENT>, id: u64, key: &Key, row: &Row) -> bool
    requires key { KeyFits key.now }
    requires row { IsCodedRow row.now }
    requires partition { IsPartition chains.old id }
    ensures partition { IsPartition chains.new id }
    ensures joined { result ≡ true → IsRowJoined id key.now row.now chains.old chains.new }
    ensures full { result ≡ false → IsUntouched chains.old chains.new }
{
    if !has_room(chains) {
        return false;
    }
    chains.known();
    joined_row_has_a_code();
    let newest = chains.versions(id) - 1;
    let _entry = chains.join_row(id, newest, key, row);
    true
}

/// Puts a version over those of a partition; false where there is no room.
pub(crate) fn cover(chains: &mut Chains<SEGMENT>, id: u64) -> bool
    requires { IsPartition chains.old id }
    ensures partition { IsPartition chains.new id }
    ensures covered { result ≡ true → IsCovered id chains.old chains.new }
    ensures full { result ≡ false → IsUntouched chains.old chains.new }
{
    if !has_room(chains) {
        return false;
    }
    chains.add_version(id, 0);
    true
}

/// Whether a snapshot sees a row at a key.
pub(crate) fn is_seen(chains: &Chains<SEGMENT>, snap: &Snap, key: Key) -> Result<bool, AllocError>
    requires { HasPin chains.now snap.now.chain snap.now.pin }
{
    let at = Pos {
        prefix: key,
        weight: Weight::At,
    };
    let read = chains.at(snap, &at)?;
    Ok(read.known && read.row.is_some())
}
