//! The laws of fills, each the contract of a function that does nothing.
ghost use Rattle.std.specs.Prelude.{◌≡◌, ◌≢◌, ◌⊎◌, ◌<◌, ◌≤◌, ◌^◌, ℕ, suc, true, All, IsTrue, List, None, Some, length};
ghost use Rattle.rc_cell.specs.declared.rows.Row.{Row};
ghost use Rattle.rc_cell.specs.Orders.{tomb_cmp};
ghost use Rattle.rc_cell.specs.Winner.{greatest};
ghost use Rattle.rc_position.specs.declared.positions.Pos.{Pos};
ghost use Rattle.rc_mutation.specs.declared.mutations.Mutation.{Mutation};
ghost use Rattle.rc_position.specs.Position.{Place};
ghost use Rattle.rc_schema.specs.SchemaValue.{SchemaValue, is_schema};
ghost use Rattle.rc_mutation.specs.Source.{SameSource, source_at_head, source_at_static};
ghost use Rattle.rc_writes.specs.Allowed.{ChangeFits};
ghost use Rattle.rc_core.specs.declared.entries.ChainKind.TheVariants.{Cache, Memtable};
ghost use Rattle.rc_core.specs.Chains.{IsChainContinuous, IsPinned, at_place, phase_at, upto};
ghost use Rattle.rc_core.specs.Continuity.{EachOf, IsSameOrLost, version_tombs};
ghost use Rattle.rc_core.specs.Steps.{IsChain, pin_at};
ghost use Rattle.rc_registry.specs.Registry.{IsNumberIn};
ghost use Rattle.rc_memory.specs.Memory.{HasPin, IsSnapshotTaken, KeptChain, Memory, chain_at, snapshot_number};
ghost use Rattle.rc_memory.specs.Kept.{IsSoundChain};
ghost use Rattle.rc_memtable.specs.Writes.{AreSmall};
ghost use Rattle.rc_memory.specs.Recency.{IsRecency};
ghost use Rattle.rc_chain.specs.declared.chains.Snap.{Snap as Snapshot};
ghost use Rattle.rc_evict.specs.Evictions.{IsPlaceUnlisted};
ghost use Rattle.rc_populate.specs.Filling.{IsEntryOpened, MayFill, filled_statics};
ghost use Rattle.rc_cursor.specs.Snapshots.{AreReadable, kind_seen, versions_seen};
ghost use Rattle.rc_stream.specs.declared.fillers.Fill.{Fill};
ghost use Rattle.rc_stream.specs.Snapshot.{Answers, NoneLost, SayThere, There, Unlost, most_counted};
ghost use Rattle.rc_filler.specs.declared.fillers.CacheFiller.{CacheFiller};
ghost use Rattle.rc_filler.specs.Stands.{HasCacheSnapshot, HoldsRowsOf, StandsForWrites};
ghost use Rattle.rc_filler.specs.Fillers.{FillerKnows, FillerKnowsStatics, kind_filled, losses, versions_filled};
ghost use Rattle.rc_filler.specs.Fills.{IsCacheFill, IsFillDone, IsUnfit, IsUsedAsBefore, Portion, SayPortion};
ghost use Rattle.rc_evict.specs.Crowding.{LosesWhereCrowded};
ghost use Rattle.rc_evict.specs.Evictions.{IsRoomMade};
ghost use Rattle.rc_filler.specs.calls.Coming.{AreCountsInRange, CameOf, KnowsPortion};

use rc_chain::laws::{one_more_snapshot_keeps_what_is_said, what_a_snapshot_knows_is_the_source};
use rc_cursor::laws::a_snapshot_can_be_read;
use rc_evict::laws::{
    evictions_keep_the_whole_chain, evictions_leave_the_use_of_a_chain,
    evictions_spare_memtables_and_readers, what_was_evicted_is_seen_as_before_or_lost,
};
use rc_populate::laws::{
    a_fill_changes_the_newest_version_alone, a_filled_gap_keeps_what_is_said,
    a_filled_row_keeps_what_is_said, a_filled_static_row_keeps_what_is_said,
    an_opened_chain_says_what_is_handed_in, what_the_source_says_may_be_filled,
};

/// Where room is made, by moves and evictions, a snapshot of a cache chain is there still, may be filled if it could be, and stands for the same writes.
pub fn room_leaves_a_snapshot()
    ensures there { (S : ℕ) (old new : Memory) (id pin : ℕ) → IsRoomMade S old new → HasCacheSnapshot old id pin → HasCacheSnapshot new id pin }
    ensures may { (S : ℕ) (old new : Memory) (id pin : ℕ) → IsRoomMade S old new → MayFill old id pin → MayFill new id pin }
    ensures stands { (S : ℕ) (old new : Memory) (id pin : ℕ) (writes : List Mutation) → IsRecency old → IsRoomMade S old new → StandsForWrites S old id pin writes → StandsForWrites S new id pin writes }
{
    evictions_keep_the_whole_chain();
    evictions_leave_the_use_of_a_chain();
    evictions_spare_memtables_and_readers();
    what_was_evicted_is_seen_as_before_or_lost();
}

/// A snapshot that stands for writes knows what they say: at each position, and of the static row. Their partition tombstone is at its head, and it is there and can be read by its parts.
pub fn a_snapshot_knows_the_writes_it_stands_for()
    ensures there { (S : ℕ) (m : Memory) (f : CacheFiller) (writes : List Mutation) → StandsForWrites S m f.chain f.pin writes → (x : Pos) (v : There) → FillerKnows m f x v → SayThere writes x v }
    ensures statics { (S : ℕ) (m : Memory) (f : CacheFiller) (writes : List Mutation) → StandsForWrites S m f.chain f.pin writes → (row : Row) → FillerKnowsStatics m f row → source_at_static writes ≡ row }
    ensures head { (S : ℕ) (m : Memory) (f : CacheFiller) (writes : List Mutation) → StandsForWrites S m f.chain f.pin writes → greatest tomb_cmp (version_tombs (versions_filled m f)) ≡ source_at_head writes }
    ensures readable { (S : ℕ) (m : Memory) (f : CacheFiller) (writes : List Mutation) → StandsForWrites S m f.chain f.pin writes → HasPin m f.chain f.pin × AreReadable (kind_filled m f) (versions_filled m f) }
{
    what_a_snapshot_knows_is_the_source();
    a_snapshot_can_be_read();
}

/// What came of a fill, by its answer. Where the portion can stand in a version, something was lost only where the region was crowded.
pub fn what_came_of_a_fill()
    ensures answers { (S : ℕ) (f : CacheFiller) (portion : Portion) (fill : Fill) (m n : Memory) → AreCountsInRange m.counts → CameOf S fill portion f.chain f.pin m n → Answers fill (MayFill m f.chain f.pin) (losses m) (losses n) }
    ensures known { (S : ℕ) (f : CacheFiller) (portion : Portion) (fill : Fill) (m n : Memory) (writes : List Mutation) → AreCountsInRange m.counts → IsRecency m → CameOf S fill portion f.chain f.pin m n → StandsForWrites S m f.chain f.pin writes → SayPortion writes portion →
        Unlost (MayFill m f.chain f.pin) (losses m) (losses n) (KnowsPortion n f portion) }
    ensures keeps { (S : ℕ) (f : CacheFiller) (portion : Portion) (fill : Fill) (m n : Memory) (writes : List Mutation) → AreCountsInRange m.counts → IsRecency m → CameOf S fill portion f.chain f.pin m n → StandsForWrites S m f.chain f.pin writes → SayPortion writes portion →
        Unlost (MayFill m f.chain f.pin) (losses m) (losses n) ((x : Pos) (v : There) → FillerKnows m f x v → FillerKnows n f x v) }
    ensures stands { (S : ℕ) (f : CacheFiller) (portion : Portion) (fill : Fill) (m n : Memory) (writes : List Mutation) → IsRecency m → CameOf S fill portion f.chain f.pin m n → StandsForWrites S m f.chain f.pin writes → SayPortion writes portion → StandsForWrites S n f.chain f.pin writes }
    ensures sound { (S : ℕ) (m : Memory) (f : CacheFiller) (writes : List Mutation) → StandsForWrites S m f.chain f.pin writes → (x : Pos) (v : There) → FillerKnows m f x v → SayThere writes x v }
    ensures may { (S id pin : ℕ) (portion : Portion) (fill : Fill) (m n : Memory) → CameOf S fill portion id pin m n → MayFill m id pin → MayFill n id pin }
    ensures there { (S id pin : ℕ) (portion : Portion) (fill : Fill) (m n : Memory) → CameOf S fill portion id pin m n → HasCacheSnapshot m id pin → HasCacheSnapshot n id pin }
    ensures done { (S id pin : ℕ) (portion : Portion) (fill : Fill) (m n : Memory) → CameOf S fill portion id pin m n → IsFillDone S id pin m n }
    ensures loses { (S id pin : ℕ) (portion : Portion) (fill : Fill) (m n : Memory) → AreCountsInRange m.counts → m.counts.shrunk ≤ most_counted → CameOf S fill portion id pin m n → (IsUnfit portion → ⊥) → LosesWhereCrowded S 0 m n }
{
    room_leaves_a_snapshot();
    a_snapshot_knows_the_writes_it_stands_for();
    what_a_snapshot_knows_is_the_source();
    evictions_spare_memtables_and_readers();
    a_fill_changes_the_newest_version_alone();
    a_filled_gap_keeps_what_is_said();
    a_filled_row_keeps_what_is_said();
    a_filled_static_row_keeps_what_is_said();
    what_the_source_says_may_be_filled();
}

/// A fill touches no memtable's chain, so what a snapshot of one sees is as it was. Each chain that a snapshot pins is there still, with all its snapshots and versions of the same phases; so is each other chain, or it is gone and its number is to be told. No chain comes to be, and numbers that were to be told still are.
pub fn a_fill_spares_memtables_and_readers()
    ensures memtable { (S : ℕ) (f g : CacheFiller) (m n : Memory) (id : ℕ) (k : KeptChain) → IsRecency m → IsCacheFill S f m g n → chain_at m id ≡ Some k → k.chain.kind ≡ Memtable → chain_at n id ≡ Some k }
    ensures sees { (S : ℕ) (f g : CacheFiller) (m n : Memory) (s : Snapshot) → IsRecency m → IsCacheFill S f m g n → HasPin m s.chain s.pin → kind_seen m s ≡ Memtable → (versions_seen n s ≡ versions_seen m s) × (kind_seen n s ≡ kind_seen m s) }
    ensures pins { (S : ℕ) (f g : CacheFiller) (m n : Memory) (id pin : ℕ) → IsCacheFill S f m g n → HasPin m id pin → HasPin n id pin }
    ensures pinned { (S : ℕ) (f g : CacheFiller) (m n : Memory) (id j : ℕ) (k : KeptChain) → IsCacheFill S f m g n → chain_at m id ≡ Some k → IsPinned k.chain.pins j → (now : KeptChain) × (chain_at n id ≡ Some now) × IsUsedAsBefore k now }
    ensures told { (S : ℕ) (f g : CacheFiller) (m n : Memory) (id : ℕ) (k : KeptChain) → IsCacheFill S f m g n → chain_at m id ≡ Some k → ((now : KeptChain) × (chain_at n id ≡ Some now) × IsUsedAsBefore k now) ⊎ ((chain_at n id ≡ None) × IsNumberIn n.dropped id) }
    ensures still { (S : ℕ) (f g : CacheFiller) (m n : Memory) (id : ℕ) → IsCacheFill S f m g n → IsNumberIn m.dropped id → IsNumberIn n.dropped id }
    ensures absent { (S : ℕ) (f g : CacheFiller) (m n : Memory) (id : ℕ) → IsCacheFill S f m g n → chain_at m id ≡ None → chain_at n id ≡ None }
{
    evictions_keep_the_whole_chain();
    evictions_leave_the_use_of_a_chain();
    evictions_spare_memtables_and_readers();
    what_was_evicted_is_seen_as_before_or_lost();
    a_fill_changes_the_newest_version_alone();
}

/// Of each chain but the one that is filled, and of the older versions of that one, where it is there still, each place is seen as before, or it is Unknown. Each other chain is a chain still, and continuous, where the entry at the place of an update that stands in it is out of the recency list, as it is then.
pub fn a_fill_leaves_other_chains()
    ensures seen { (S : ℕ) (f g : CacheFiller) (m n : Memory) (p : Place) (id j : ℕ) (k now : KeptChain) → IsCacheFill S f m g n → id ≢ f.chain → chain_at m id ≡ Some k → chain_at n id ≡ Some now → IsChain (at_place p k.chain) → IsSameOrLost (upto k.chain.versions j) (upto now.chain.versions j) }
    ensures older { (S : ℕ) (f g : CacheFiller) (m n : Memory) (p : Place) (j : ℕ) (k now : KeptChain) → IsCacheFill S f m g n → chain_at m f.chain ≡ Some k → chain_at n f.chain ≡ Some now → IsChain (at_place p k.chain) → suc j < length k.chain.versions → IsSameOrLost (upto k.chain.versions j) (upto now.chain.versions j) }
    ensures form { (S : ℕ) (f g : CacheFiller) (m n : Memory) (p : Place) (id : ℕ) (k now : KeptChain) → IsCacheFill S f m g n → id ≢ f.chain → chain_at m id ≡ Some k → chain_at n id ≡ Some now → IsChain (at_place p k.chain) → IsChain (at_place p now.chain) }
    ensures place { (S : ℕ) (f g : CacheFiller) (m n : Memory) (p : Place) (id : ℕ) (k now : KeptChain) → IsCacheFill S f m g n → id ≢ f.chain → chain_at m id ≡ Some k → chain_at n id ≡ Some now → IsPlaceUnlisted p id k.chain m.recency → IsPlaceUnlisted p id now.chain n.recency }
    ensures chain { (S : ℕ) (below : ℕ → List Mutation) (f g : CacheFiller) (m n : Memory) (p : Place) (id : ℕ) (k now : KeptChain) → IsRecency m → IsCacheFill S f m g n → id ≢ f.chain → chain_at m id ≡ Some k → chain_at n id ≡ Some now →
        IsChain (at_place p k.chain) → IsPlaceUnlisted p id k.chain m.recency → IsChainContinuous below (at_place p k.chain) → IsChainContinuous below (at_place p now.chain) }
{
    evictions_keep_the_whole_chain();
    evictions_leave_the_use_of_a_chain();
    evictions_spare_memtables_and_readers();
    what_was_evicted_is_seen_as_before_or_lost();
    a_fill_changes_the_newest_version_alone();
}

/// A fill leaves the region as many segments, and no count of evictions or of skipped fills is less than it was.
pub fn a_fill_takes_no_segment()
    ensures budget { (S : ℕ) (f g : CacheFiller) (m n : Memory) → IsCacheFill S f m g n → length n.region.usages ≡ length m.region.usages }
    ensures counts { (S : ℕ) (f g : CacheFiller) (m n : Memory) → IsCacheFill S f m g n → m.counts.evicted < 2 ^ 64 → m.counts.skipped < 2 ^ 64 → (m.counts.evicted ≤ n.counts.evicted) × (m.counts.skipped ≤ n.counts.skipped) }
{
    a_fill_changes_the_newest_version_alone();
}

/// What may be filled still may be after a fill; and where nothing was lost, a static row that was known still is.
pub fn a_fill_keeps_the_static_row_known()
    ensures may { (S : ℕ) (f g : CacheFiller) (m n : Memory) → IsCacheFill S f m g n → MayFill m f.chain f.pin → MayFill n g.chain g.pin }
    ensures known { (S : ℕ) (f g : CacheFiller) (m n : Memory) → IsCacheFill S f m g n → m.counts.evicted < 2 ^ 64 → m.counts.skipped < 2 ^ 64 → NoneLost (losses m) (losses n) → (row : Row) → FillerKnowsStatics m f row → (now : Row) × FillerKnowsStatics n g now }
{
    room_leaves_a_snapshot();
    evictions_spare_memtables_and_readers();
    a_fill_changes_the_newest_version_alone();
    a_filled_gap_keeps_what_is_said();
    a_filled_row_keeps_what_is_said();
    a_filled_static_row_keeps_what_is_said();
}

/// The chain that is filled, where it is there still, stays continuous for whatever lies below it, if the snapshot stands then for what lies below the version that it pins; the update's place beside it.
pub fn a_filled_chain_stays_continuous()
    ensures { (S : ℕ) (below : ℕ → List Mutation) (f g : CacheFiller) (m n : Memory) (p : Place) (k now : KeptChain) (j : ℕ) → IsRecency m → IsCacheFill S f m g n → chain_at m f.chain ≡ Some k → chain_at n f.chain ≡ Some now → pin_at k.chain.pins f.pin ≡ Some j →
        IsChain (at_place p k.chain) → IsPlaceUnlisted p f.chain k.chain m.recency → IsChainContinuous below (at_place p k.chain) → StandsForWrites S n f.chain f.pin (below (phase_at k.chain.versions j)) → IsChainContinuous below (at_place p now.chain) }
{
    evictions_keep_the_whole_chain();
    evictions_leave_the_use_of_a_chain();
    evictions_spare_memtables_and_readers();
    what_was_evicted_is_seen_as_before_or_lost();
    a_fill_changes_the_newest_version_alone();
    what_a_snapshot_knows_is_the_source();
}

/// A snapshot that is taken of a continuous cache chain, whose rows are of a schema, stands for what lies below the version that it pins; so does one of a chain that was opened by the head of what lies below.
pub fn a_taken_snapshot_stands_for_what_lies_below()
    ensures taken { (S : ℕ) (schema : SchemaValue) (below : ℕ → List Mutation) (p : Place) (m n : Memory) (id pin phase : ℕ) (k : KeptChain) (writes : List Mutation) → IsTrue (is_schema schema) → AreSmall S schema → All (ChangeFits schema) writes →
        chain_at m id ≡ Some k → k.chain.kind ≡ Cache → k.chain.attached ≡ true → IsSoundChain k.chain → IsChain (at_place p k.chain) → IsChainContinuous below (at_place p k.chain) → IsPlaceUnlisted p id k.chain m.recency → EachOf (HoldsRowsOf schema) k.chain.versions →
        SameSource (below (phase_at k.chain.versions (snapshot_number k.chain))) writes → IsSnapshotTaken m n id pin phase → StandsForWrites S n id pin writes }
    ensures opened { (S : ℕ) (schema : SchemaValue) (writes : List Mutation) (old mid new : Memory) (id pin phase of_pin : ℕ) → IsTrue (is_schema schema) → AreSmall S schema → All (ChangeFits schema) writes →
        IsEntryOpened id (source_at_head writes) (filled_statics (source_at_static writes)) phase old mid → IsSnapshotTaken mid new id pin of_pin → StandsForWrites S new id pin writes }
{
    one_more_snapshot_keeps_what_is_said();
    an_opened_chain_says_what_is_handed_in();
    a_fill_changes_the_newest_version_alone();
    what_the_source_says_may_be_filled();
}
