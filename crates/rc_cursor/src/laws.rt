//! What is read by parts: each part is what is seen, and which snapshots can be read so.
ghost use Rattle.std.specs.Prelude.{◌≡◌, ℕ, List, Some};
ghost use Rattle.rc_position.specs.declared.positions.Pos.{Pos};
ghost use Rattle.rc_position.specs.Position.{Place};
ghost use Rattle.rc_mutation.specs.declared.mutations.Mutation.{Mutation};
ghost use Rattle.rc_core.specs.Chains.{IsChainContinuous, IsMemtableChain, IsPinned, Shown, at_place, upto};
ghost use Rattle.rc_core.specs.declared.entries.ChainKind.{ChainKind};
ghost use Rattle.rc_core.specs.declared.entries.ChainKind.TheVariants.{Cache, Memtable};
ghost use Rattle.rc_core.specs.declared.parts.Part.{Part};
ghost use Rattle.rc_core.specs.Parts.{IsFirstPart};
ghost use Rattle.rc_core.specs.StandsFor.{StandsFor};
ghost use Rattle.rc_core.specs.Steps.{IsChain, pin_at};
ghost use Rattle.rc_core.specs.Version.{Version};
ghost use Rattle.rc_chain.specs.declared.chains.Snap.{Snap};
ghost use Rattle.rc_chain.specs.Memory.{HasPin, IsSnapshotTaken, IsUntouched, KeptChain, Memory, chain_at, snapshot_number};
ghost use Rattle.rc_stream.specs.Snapshot.{IsPartFrom};
ghost use Rattle.rc_cursor.specs.Snapshots.{AreReadable, IsKnownAs, kind_seen, versions_seen};

use rc_chain::laws::what_a_snapshot_knows_is_the_source;
use rc_core::laws::memtables::a_memtable_is_known_everywhere;
use rc_core::laws::pinning::a_snapshots_number_stays;
use rc_core::laws::reading::a_gap_is_seen_alike;

/// A first part of versions that can be read by their parts is what they say: a row at its key, over a gap no row and its tombstone at each position, and where the place is not known nothing.
pub fn a_first_part_is_what_is_seen()
    ensures { (kind : ChainKind) (versions : List Version) (x bound : Pos) (p : Part) → AreReadable kind versions → IsFirstPart kind versions x bound p → IsPartFrom (IsKnownAs kind versions) x bound p }
{
    a_gap_is_seen_alike();
}

/// A snapshot that is there sees the versions of its chain up to the one that it pins.
pub fn a_snapshot_sees_up_to_its_version()
    ensures there { (m : Memory) (s : Snap) → HasPin m s.chain s.pin → (k : KeptChain) × (j : ℕ) × (chain_at m s.chain ≡ Some k) × (pin_at k.chain.pins s.pin ≡ Some j) }
    ensures versions { (m : Memory) (s : Snap) (k : KeptChain) (j : ℕ) → chain_at m s.chain ≡ Some k → pin_at k.chain.pins s.pin ≡ Some j → versions_seen m s ≡ upto k.chain.versions j }
    ensures kind { (m : Memory) (s : Snap) (k : KeptChain) → chain_at m s.chain ≡ Some k → kind_seen m s ≡ k.chain.kind }
{}

/// Where objects moved a snapshot is there as before and sees what it saw, so it knows the same and can be read as before.
pub fn a_snapshot_stays_where_objects_move()
    ensures pin { (m n : Memory) (s : Snap) → IsUntouched m n → HasPin m s.chain s.pin → HasPin n s.chain s.pin }
    ensures versions { (m n : Memory) (s : Snap) → IsUntouched m n → versions_seen n s ≡ versions_seen m s }
    ensures kind { (m n : Memory) (s : Snap) → IsUntouched m n → kind_seen n s ≡ kind_seen m s }
{}

/// A snapshot can be read by its parts: of a cache chain that is continuous, and of a memtable's chain with its form that stands for its writes.
pub fn a_snapshot_can_be_read()
    ensures cache { (below : ℕ → List Mutation) (p : Place) (c : Shown) (j : ℕ) → c.kind ≡ Cache → IsChain (at_place p c) → IsChainContinuous below (at_place p c) → IsPinned c.pins j → AreReadable c.kind (upto c.versions j) }
    ensures memtable { (writes : List Mutation) (p : Place) (c : Shown) (j : ℕ) → c.kind ≡ Memtable → IsMemtableChain (at_place p c) → StandsFor writes (upto c.versions j) → IsPinned c.pins j → AreReadable c.kind (upto c.versions j) }
{
    what_a_snapshot_knows_is_the_source();
    a_memtable_is_known_everywhere();
}

/// A snapshot that was taken is there. It sees the versions of its chain up to the newest one, or up to the one below it while an update stands in the newest.
pub fn a_taken_snapshot_is_there()
    ensures pin { (m n : Memory) (s : Snap) (k : KeptChain) → chain_at m s.chain ≡ Some k → IsSnapshotTaken m n s.chain s.pin s.phase → HasPin n s.chain s.pin }
    ensures versions { (m n : Memory) (s : Snap) (k : KeptChain) → chain_at m s.chain ≡ Some k → IsSnapshotTaken m n s.chain s.pin s.phase → versions_seen n s ≡ upto k.chain.versions (snapshot_number k.chain) }
    ensures kind { (m n : Memory) (s : Snap) (k : KeptChain) → chain_at m s.chain ≡ Some k → IsSnapshotTaken m n s.chain s.pin s.phase → kind_seen n s ≡ k.chain.kind }
{
    a_snapshots_number_stays();
}
