//! Cache chains that are opened once there is room.
ghost use Rattle.std.specs.Prelude.{◌*◌, ◌/◌, ◌≤◌, IfNone, IfOk, IfSome, OnErr};
ghost use Rattle.rc_memory.specs.Memory.{Memory};
ghost use Rattle.rc_rowcode.specs.Spelling.{RowFits};
ghost use Rattle.rc_version.specs.Versions.{statics_bytes};
ghost use Rattle.rc_chain.specs.Lives.{IsSameButSlots};
ghost use Rattle.rc_populate.specs.Filling.{IsEntryOpened, filled_statics};
ghost use Rattle.rc_filler.specs.Fills.{IsOutOfRoom, IsSkipCounted};
ghost use Rattle.rc_evict.specs.Evictions.{IsRoomMade};

use crate::rooms::room_or_skip;
use rc_chain::Chains;
use rc_mutation::Head;
use rc_populate::{open_entry, static_need};
use std::alloc::AllocError;

/// Opens a cache chain of one version of a phase by the head of its partition, as rc_populate's `open_entry` does, once room was made for it by moves and evictions: 152 bytes and what `static_need` says. Gives its number; none where no room can be made, and then one more skipped opening is counted. The only error is want of memory, after which room was made and all chains are as they were then.
pub fn open_with_room<const S: usize>(
    chains: &mut Chains<S>,
    phase: u64,
    head: &Head,
) -> Result<Option<u64>, AllocError>
    requires roomy { 8952 ≤ 7 * S / 8 }
    requires row { RowFits head.now.statics }
    requires small { statics_bytes (filled_statics head.now.statics) ≤ S / 8 }
    ensures opened { IfOk result (λ o. IfSome o (λ id. (mid : Memory) × IsRoomMade S chains.old mid × IsEntryOpened id head.now.pt (filled_statics head.now.statics) phase mid chains.new)) }
    ensures none { IfOk result (λ o. IfNone o ((mid : Memory) × IsRoomMade S chains.old mid × IsOutOfRoom S mid × IsSkipCounted mid chains.new)) }
    ensures err { OnErr result ((mid : Memory) × IsRoomMade S chains.old mid × IsSameButSlots mid chains.new) }
{
    let need = 152 + static_need(&head.statics);
    if !room_or_skip(chains, need) {
        return Ok(None);
    }
    match open_entry(chains, phase, head) {
        Ok(id) => Ok(Some(id)),
        Err(error) => Err(error),
    }
}
