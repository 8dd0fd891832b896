//! Rows that are filled.
ghost use Rattle.std.specs.Prelude.{◌≡◌, ◌+◌, ◌/◌, ◌≤◌, ℕ, Some};
ghost use Rattle.lsa_pool.specs.Room.{spare_of};
ghost use Rattle.rc_position.specs.declared.positions.Pos.{Pos as Position};
ghost use Rattle.rc_position.specs.Position.{row_pos};
ghost use Rattle.rc_rowcode.specs.Objects.{entry_size};
ghost use Rattle.rc_rowcode.specs.Spelling.{KeyFits, RowFits};
ghost use Rattle.rc_core.specs.Continuity.{IsWithin};
ghost use Rattle.rc_core.specs.Steps.{on_newest, row_filled, row_joined};
ghost use Rattle.rc_core.specs.Version.{On, state_at};
ghost use Rattle.rc_memory.specs.Memory.{Member, IsMemberObject};
ghost use Rattle.rc_memory.specs.Room.{FitTogether};
ghost use Rattle.rc_memory.specs.Changes.{AtAlone, IsRenewed, IsVersionChanged, Nowhere, member_at};
ghost use Rattle.rc_populate.specs.Filling.{IsFilled, MayFill, OfPinned};
ghost use Rattle.rc_populate.specs.calls.Marked.{known_at};

use crate::fills::count_shrunk;
use lsa_region::Ref;
use rc_cell::{Row, Tomb};
use rc_chain::{Chains, Snap};
use rc_core::filled_mark;
use rc_position::Key;

// Makes the position of an entry known, with a range tombstone joined. The gap before it stays.
fn know<const S: usize>(chains: &mut Chains<S>, e: Ref, tomb: Option<Tomb>)
    requires { (w : Member) × (x : Position) × (w.position ≡ Some x) × IsMemberObject chains.old e w }
    ensures known { (w : Member) (x : Position) → w.position ≡ Some x → IsMemberObject chains.old e w → IsVersionChanged w.chain w.version (known_at x tomb) Nowhere chains.old chains.new }
    ensures recency { chains.new.recency ≡ chains.old.recency }
    ensures spare { spare_of S chains.new.region.usages ≡ spare_of S chains.old.region.usages }
{
    chains.known();
    let (at, gap) = chains.marks(e);
    let known = filled_mark(at, tomb);
    chains.set_flags(e, known.flag, gap.flag);
    chains.set_tombs(e, known.tomb, gap.tomb);
}

/// Fills a row of a partition, as what lies below has it, into the newest version of a chain: it is joined, whole, to the one there; its position is known then, and the range tombstone joined at it. The gap before it stays. In a cache chain its entry is the most recent object. What is spare is less by at most what `row_need` says.
pub fn fill_row<const S: usize>(
    chains: &mut Chains<S>,
    s: &Snap,
    key: &Key,
    row: &Row,
    tomb: Option<Tomb>,
)
    requires may { MayFill chains.old s.now.chain s.now.pin }
    requires key { KeyFits key.now }
    requires row { RowFits row.now }
    requires small { entry_size key.now row.now ≤ S / 8 }
    requires source { OfPinned chains.old s.now.chain s.now.pin (λ k j v. IsWithin (state_at (On (row_pos key.now)) v) (row.now, tomb)) }
    requires fits { OfPinned chains.old s.now.chain s.now.pin (λ k j v. FitTogether S (on_newest (row_joined (row_pos key.now) row.now) k.chain.versions)) }
    requires spare { entry_size key.now row.now ≤ spare_of S chains.old.region.usages }
    ensures filled { OfPinned chains.old s.now.chain s.now.pin (λ k j v. IsFilled s.now.chain (row_filled (row_pos key.now) row.now tomb) (AtAlone (member_at s.now.chain j (Some (row_pos key.now)))) chains.old chains.new) }
    ensures listed { OfPinned chains.old s.now.chain s.now.pin (λ k j v. IsRenewed k.chain.kind (member_at s.now.chain j (Some (row_pos key.now))) chains.old.recency chains.new.recency) }
    ensures spare { spare_of S chains.old.region.usages ≤ spare_of S chains.new.region.usages + entry_size key.now row.now }
{
    let before = chains.region().live();
    let newest = chains.pinned_at(s);
    let e = chains.join_row(s.chain, newest, key, row);
    know(chains, e, tomb);
    count_shrunk(chains, before);
}
