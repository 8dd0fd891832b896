//! Room, by moves and by evictions.
ghost use Rattle.std.specs.Prelude.{◌≡◌, ◌⊎◌, ◌∷◌, ◌*◌, ◌/◌, ◌<◌, ◌≤◌, ℕ, true, false, List as Sequence, [], length};
ghost use Rattle.lsa_move.specs.Room.{Tight};
ghost use Rattle.lsa_pool.specs.Room.{spare_of};
ghost use Rattle.lsa_region.specs.Region.{live_bytes};
ghost use Rattle.rc_memory.specs.Memory.{Member};
ghost use Rattle.rc_evict.specs.Crowding.{IsCrowded, IsNearlyFull, versions_of};
ghost use Rattle.rc_evict.specs.Evictions.{AreEvicted, IsRoomMade};

use crate::evicting::evict_one;
use lsa_move::{Ensured, a_tight_region_is_nearly_full};
use rc_chain::Chains;

/// Whether there is room.
#[derive(Clone, Copy, Debug, PartialEq, Eq)]
pub enum Room {
    /// There is.
    Room,
    /// There is not, and none can be made.
    NoRoom,
}

/// Makes room for `need` bytes, 7S/8 at most: objects move out of sparse segments, and where none is sparse and too few bytes are spare, the least recently used objects are evicted. `Room` exactly where so much is spare then; `NoRoom` only where nothing is left to be evicted and no segment is sparse. Where so much is spare at once nothing is changed; and where something was evicted the region is crowded: more than three quarters of all but two segments are live, but for an object and the chains that were dropped. Where no room can be made so much is live at any rate. No more is live, and no count falls.
pub fn make_room<const S: usize>(chains: &mut Chains<S>, need: usize) -> Room
    requires few { need ≤ 7 * S / 8 }
    ensures room { result ≡ Room.Room → need ≤ spare_of S chains.new.region.usages }
    ensures none { result ≡ Room.NoRoom → (chains.new.recency ≡ []) × Tight S chains.new.region.usages × (spare_of S chains.new.region.usages < need) × IsNearlyFull S chains.new }
    ensures evicted { (went : Sequence Member) × (gone : Sequence ℕ) × AreEvicted went gone chains.old chains.new × ((went ≡ []) ⊎ IsCrowded S (S / 8) 0 chains.old chains.new) }
    ensures idle { need ≤ spare_of S chains.old.region.usages → chains.new ≡ chains.old }
    ensures budget { length chains.new.region.usages ≡ length chains.old.region.usages }
    ensures made { IsRoomMade S chains.old chains.new }
{
    while let Ensured::Full = chains.ensure(need) {
        if !evict_where_full(chains, need) {
            return Room::NoRoom;
        }
    }
    Room::Room
}

// Evicts an object where no segment is sparse and fewer bytes are spare than needed; false exactly where there is none.
fn evict_where_full<const S: usize>(chains: &mut Chains<S>, need: usize) -> bool
    requires few { need ≤ 7 * S / 8 }
    requires tight { Tight S chains.old.region.usages }
    requires full { spare_of S chains.old.region.usages < need }
    ensures none { result ≡ false → (chains.old.recency ≡ []) × (chains.new ≡ chains.old) }
    ensures one { result ≡ true → (place : Member) × (gone : Sequence ℕ) × AreEvicted (place ∷ []) gone chains.old chains.new }
    ensures nearly { IsNearlyFull S chains.old }
    ensures crowded { IsCrowded S (S / 8) 0 chains.old chains.new }
    ensures versions { versions_of chains.new ≤ versions_of chains.old }
    ensures shrunk { chains.new.counts.shrunk ≡ chains.old.counts.shrunk }
    ensures budget { length chains.new.region.usages ≡ length chains.old.region.usages }
    ensures moved { chains.new.region.moved ≡ chains.old.region.moved }
    ensures less { live_bytes chains.new.region ≤ live_bytes chains.old.region }
    ensures counted { chains.old.counts.evicted ≤ chains.new.counts.evicted }
{
    a_tight_region_is_nearly_full(chains.region(), need);
    evict_one(chains).is_some()
}
