//! What is filled into the newest version of a chain. As in ScyllaDB's row cache a snapshot fills the newest version alone, which has its source; there one flag says it of a row and of the gap before it, here each has its own.
ghost use Rattle.std.specs.Prelude.{◌≡◌, ◌+◌, ◌-◌, ◌/◌, ◌≤◌, ℕ, None};
ghost use Rattle.lsa_pool.specs.Room.{spare_of};
ghost use Rattle.lsa_region.specs.Region.{live_bytes};
ghost use Rattle.rc_rowcode.specs.Spelling.{RowFits};
ghost use Rattle.rc_core.specs.Continuity.{IsWithin, fill_statics};
ghost use Rattle.rc_core.specs.Steps.{on_newest};
ghost use Rattle.rc_core.specs.Version.{static_state};
ghost use Rattle.rc_version.specs.Versions.{statics_bytes};
ghost use Rattle.rc_memory.specs.Memory.{HasVersion, counts_raised};
ghost use Rattle.rc_memory.specs.Room.{FitTogether};
ghost use Rattle.rc_memory.specs.Changes.{AtAlone, FitsChanged, IsVersionChanged, OfVersion, member_at};
ghost use Rattle.rc_populate.specs.Filling.{IsFilled, IsGivenListed, MayFill, OfPinned, filled_statics};

use rc_cell::Row;
use rc_chain::{Chains, Snap};
use rc_core::Flag;
use rc_rowcode::row_in_range;

// Joins a row to the static row of a version, whose flag is Known then, also where nothing is written in the row.
pub(crate) fn put_static<const S: usize>(chains: &mut Chains<S>, id: u64, number: u64, row: &Row)
    requires row { RowFits row.now }
    requires small { statics_bytes (filled_statics row.now) ≤ S / 8 }
    requires version { HasVersion chains.old id number }
    requires source { OfVersion chains.old id number (λ k v. IsWithin (static_state v) (row.now, None)) }
    requires fits { FitsChanged S id number (fill_statics (filled_statics row.now)) chains.old }
    requires spare { statics_bytes (filled_statics row.now) ≤ spare_of S chains.old.region.usages }
    ensures filled { IsVersionChanged id number (fill_statics (filled_statics row.now)) (AtAlone (member_at id number None)) chains.old chains.new }
    ensures listed { OfVersion chains.old id number (λ k v. IsGivenListed k.chain.kind (filled_statics row.now) (member_at id number None) chains.old.recency chains.new.recency) }
    ensures spare { spare_of S chains.old.region.usages ≤ spare_of S chains.new.region.usages + statics_bytes (filled_statics row.now) }
{
    if row.is_empty() {
        chains.set_static_flag(id, number, Flag::Known);
    } else {
        chains.join_static(id, number, row, Flag::Known);
    }
}

// Counts the bytes by which less is live than there was before.
pub(crate) fn count_shrunk<const S: usize>(chains: &mut Chains<S>, before: usize)
    ensures { chains.new ≡ counts_raised 0 0 (before - live_bytes chains.old.region) chains.old }
{
    let now = chains.region().live();
    chains.count(0, 0, before.saturating_sub(now) as u64);
}

/// Fills the static row of a partition, as what lies below has it, into the newest version of a chain: it is joined to the one there and known then, also where nothing is written in it. In a cache chain it is the most recent object. What is spare is less by at most what `static_need` says.
pub fn fill_static<const S: usize>(chains: &mut Chains<S>, s: &Snap, row: &Row)
    requires may { MayFill chains.old s.now.chain s.now.pin }
    requires row { RowFits row.now }
    requires small { statics_bytes (filled_statics row.now) ≤ S / 8 }
    requires source { OfPinned chains.old s.now.chain s.now.pin (λ k j v. IsWithin (static_state v) (row.now, None)) }
    requires fits { OfPinned chains.old s.now.chain s.now.pin (λ k j v. FitTogether S (on_newest (fill_statics (filled_statics row.now)) k.chain.versions)) }
    requires spare { statics_bytes (filled_statics row.now) ≤ spare_of S chains.old.region.usages }
    ensures filled { OfPinned chains.old s.now.chain s.now.pin (λ k j v. IsFilled s.now.chain (fill_statics (filled_statics row.now)) (AtAlone (member_at s.now.chain j None)) chains.old chains.new) }
    ensures listed { OfPinned chains.old s.now.chain s.now.pin (λ k j v. IsGivenListed k.chain.kind (filled_statics row.now) (member_at s.now.chain j None) chains.old.recency chains.new.recency) }
    ensures spare { spare_of S chains.old.region.usages ≤ spare_of S chains.new.region.usages + statics_bytes (filled_statics row.now) }
{
    let before = chains.region().live();
    let newest = chains.pinned_at(s);
    put_static(chains, s.chain, newest, row);
    count_shrunk(chains, before);
}
