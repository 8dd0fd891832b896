//! Cache chains that are opened by what stands at the head of a partition: as in ScyllaDB's row cache the partition tombstone is complete from then on, and the static row known.
ghost use Rattle.std.specs.Prelude.{◌≡◌, ◌+◌, ◌/◌, ◌≤◌, IfOk, OnErr};
ghost use Rattle.lsa_pool.specs.Room.{spare_of};
ghost use Rattle.rc_rowcode.specs.Spelling.{RowFits};
ghost use Rattle.rc_version.specs.Versions.{statics_bytes};
ghost use Rattle.rc_chain.specs.Lives.{IsSameButSlots};
ghost use Rattle.rc_populate.specs.Filling.{IsEntryOpened, filled_statics};

use crate::fills::put_static;
use rc_chain::{ChainKind, Chains};
use rc_mutation::Head;
use rc_rowcode::row_in_range;
use std::alloc::AllocError;

/// A new cache chain, found by its key and pinned by nobody: one version of a phase, with this partition tombstone and this static row, which is known, also where nothing is written in it; all else is Unknown. Its end dummy and then its static row are the most recent objects. It takes 152 bytes and what `static_need` says, and gives the chain's number, which is no other chain's, and none that is still to be told. The only error is want of memory, after which all chains are as they were.
pub fn open_entry<const S: usize>(
    chains: &mut Chains<S>,
    phase: u64,
    head: &Head,
) -> Result<u64, AllocError>
    requires fits { 88 ≤ S / 8 }
    requires row { RowFits head.now.statics }
    requires small { statics_bytes (filled_statics head.now.statics) ≤ S / 8 }
    requires spare { 152 + statics_bytes (filled_statics head.now.statics) ≤ spare_of S chains.old.region.usages }
    ensures opened { IfOk result (λ id. IsEntryOpened id head.now.pt (filled_statics head.now.statics) phase chains.old chains.new) }
    ensures spare { IfOk result (λ id. spare_of S chains.old.region.usages ≤ spare_of S chains.new.region.usages + (152 + statics_bytes (filled_statics head.now.statics))) }
    ensures err { OnErr result (IsSameButSlots chains.old chains.new) }
{
    row_in_range(&head.statics);
    let id = chains.new_chain(ChainKind::Cache, phase, head.pt)?;
    chains.known();
    put_static(chains, id, 0, &head.statics);
    Ok(id)
}
