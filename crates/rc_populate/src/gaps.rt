//! Gaps that are filled.
ghost use Rattle.std.specs.Prelude.{◌≡◌, ◌+◌, ◌/◌, ◌≤◌, ℕ, false, List as Sequence, Some};
ghost use Rattle.lsa_pool.specs.Room.{spare_of};
ghost use Rattle.rc_position.specs.Position.{IsBefore};
ghost use Rattle.rc_rowcode.specs.Objects.{dummy_size};
ghost use Rattle.rc_rowcode.specs.Spelling.{KeyFits};
ghost use Rattle.rc_core.specs.Steps.{gap_filled};
ghost use Rattle.rc_memory.specs.Memory.{KeptChain, HasVersion, Member, chain_at};
ghost use Rattle.rc_memory.specs.Changes.{IsRenewedWhereNone, IsVersionChanged, Nowhere, OfVersion, member_at};
ghost use Rattle.rc_populate.specs.Filling.{AreBoundsListed, IsFilled, MayFill, OfPinned, gap_need};

use crate::fills::count_shrunk;
use rc_cell::Tomb;
use rc_chain::{Chains, Snap};
use rc_position::Pos;

// Makes a stretch of a version known, with a range tombstone, where no update stands in the chain: dummies are made at both ends where no entries stand there.
fn know_gap<const S: usize>(
    chains: &mut Chains<S>,
    id: u64,
    number: u64,
    from: &Pos,
    to: &Pos,
    tomb: Option<Tomb>,
)
    requires ascend { IsBefore from.now to.now }
    requires limits { KeyFits from.now.prefix × KeyFits to.now.prefix }
    requires version { HasVersion chains.old id number }
    requires settled { (k : KeptChain) → chain_at chains.old id ≡ Some k → k.chain.updating ≡ false }
    requires small { (dummy_size from.now ≤ S / 8) × (dummy_size to.now ≤ S / 8) }
    requires spare { gap_need from.now to.now ≤ spare_of S chains.old.region.usages }
    ensures known { IsVersionChanged id number (gap_filled from.now to.now tomb) Nowhere chains.old chains.new }
    ensures listed { OfVersion chains.old id number (λ k v. AreBoundsListed k.chain.kind v (member_at id number (Some from.now)) (member_at id number (Some to.now)) chains.old.recency chains.new.recency) }
    ensures spare { spare_of S chains.old.region.usages ≤ spare_of S chains.new.region.usages + gap_need from.now to.now }
{
    chains.known();
    chains.split(id, number, from);
    chains.split(id, number, to);
    chains.know_between(id, number, from, to, tomb);
}

/// Fills a gap of a partition, as what lies below has it, into the newest version of a chain: from one position on and before another it is known then that no row stands there, and that this range tombstone is in force. Where no entries stand at the two, dummies are made there, which are the most recent objects of a cache chain. What is spare is less by at most what `gap_need` says.
pub fn fill_gap<const S: usize>(
    chains: &mut Chains<S>,
    s: &Snap,
    from: &Pos,
    to: &Pos,
    tomb: Option<Tomb>,
)
    requires may { MayFill chains.old s.now.chain s.now.pin }
    requires ascend { IsBefore from.now to.now }
    requires limits { KeyFits from.now.prefix × KeyFits to.now.prefix }
    requires small { (dummy_size from.now ≤ S / 8) × (dummy_size to.now ≤ S / 8) }
    requires spare { gap_need from.now to.now ≤ spare_of S chains.old.region.usages }
    ensures filled { OfPinned chains.old s.now.chain s.now.pin (λ k j v. IsFilled s.now.chain (gap_filled from.now to.now tomb) Nowhere chains.old chains.new) }
    ensures listed { OfPinned chains.old s.now.chain s.now.pin (λ k j v. AreBoundsListed k.chain.kind v (member_at s.now.chain j (Some from.now)) (member_at s.now.chain j (Some to.now)) chains.old.recency chains.new.recency) }
    ensures spare { spare_of S chains.old.region.usages ≤ spare_of S chains.new.region.usages + gap_need from.now to.now }
{
    let before = chains.region().live();
    let newest = chains.pinned_at(s);
    know_gap(chains, s.chain, newest, from, to, tomb);
    count_shrunk(chains, before);
}
