//! Room for what is filled.
ghost use Rattle.std.specs.Prelude.{◌≡◌, ◌↔◌, ◌*◌, ◌/◌, ◌≤◌, false, IsTrue};
ghost use Rattle.lsa_pool.specs.Room.{spare_of};
ghost use Rattle.rc_memory.specs.Memory.{HasPin, counts_raised};
ghost use Rattle.rc_populate.specs.Filling.{MayFill};
ghost use Rattle.rc_stream.specs.Snapshot.{most_counted};
ghost use Rattle.rc_filler.specs.Fills.{IsSkipCounted};
ghost use Rattle.rc_evict.specs.Evictions.{IsRoomMade};
ghost use Rattle.rc_filler.specs.calls.Coming.{AreCountsInRange, IsSkipped};

use rc_chain::{Chains, Snap};
use rc_evict::{Room, make_room};
use rc_stream::Fill;

/// Whether a snapshot may be filled.
pub(crate) fn may_be_filled<const S: usize>(chains: &Chains<S>, s: &Snap) -> bool
    requires { HasPin chains.now s.now.chain s.now.pin }
    ensures { IsTrue result ↔ MayFill chains.now s.now.chain s.now.pin }
{
    chains.may_fill(s)
}

/// One more skipped fill is counted.
pub(crate) fn skip<const S: usize>(chains: &mut Chains<S>) -> Fill
    ensures answer { result ≡ Fill.Skipped }
    ensures counted { IsSkipCounted chains.old chains.new }
{
    chains.count(0, 1, 0);
    Fill::Skipped
}

/// Makes room for so many bytes. False where there is none, and then one more skipped fill is counted.
pub(crate) fn room_or_skip<const S: usize>(chains: &mut Chains<S>, need: usize) -> bool
    requires { need ≤ 7 * S / 8 }
    ensures room { IsTrue result → IsRoomMade S chains.old chains.new × (need ≤ spare_of S chains.new.region.usages) }
    ensures none { result ≡ false → IsSkipped S chains.old chains.new }
{
    match make_room(chains, need) {
        Room::Room => true,
        Room::NoRoom => {
            chains.count(0, 1, 0);
            false
        }
    }
}

// A count of 64 bits.
fn in_range(_count: u64)
    ensures { _count ≤ most_counted }
{}

/// What is counted is counted by numbers of 64 bits.
pub(crate) fn counts_in_range<const S: usize>(chains: &Chains<S>)
    ensures { AreCountsInRange chains.now.counts }
{
    let counts = chains.counts();
    in_range(counts.evicted);
    in_range(counts.skipped);
}

/// So is by how many bytes chains became smaller.
pub(crate) fn shrunk_in_range<const S: usize>(chains: &Chains<S>)
    ensures { chains.now.counts.shrunk ≤ most_counted }
{
    let counts = chains.counts();
    in_range(counts.shrunk);
}
