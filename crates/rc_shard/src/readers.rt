//! The open readers of a shard.
ghost use Rattle.std.specs.Prelude.{◌≡◌, ◌<◌, AllPairs, List, None, Some, IfOk, OnErr, map};
ghost use Rattle.std.specs.List.{AllByRecursion};
ghost use Rattle.rc_mutation.specs.declared.mutations.Mutation.{Mutation as Change};
ghost use Rattle.rc_mutation.specs.declared.mutations.Write.{Write as Written};
ghost use Rattle.rc_mutation.specs.Source.{changes_to};
ghost use Rattle.rc_schema.specs.SchemaValue.{SchemaValue};
ghost use Rattle.rc_memory.specs.Memory.{HasPin};
ghost use Rattle.rc_chain.specs.declared.chains.Snap.{Snap as Snapshot};
ghost use Rattle.rc_snapshots.specs.Seeing.{SeesAllOf};
ghost use Rattle.rc_lookup.specs.Memtables.{HaveWrites, in_chains};
ghost use Rattle.rc_lookup.specs.Readers.{IsNoneOf};
ghost use Rattle.rc_opened.specs.Opened.{AreChangesOf};
ghost use Rattle.rc_paging.specs.Forms.{held_by};
ghost use Rattle.rc_shard.specs.Opening.{PinsPartition};
ghost use Rattle.rc_shard.specs.Readers.{AreHeldThere, AreOfTwo, AreTwo, IsCachedThere, cached_of, holding, written_snaps_of};
ghost use Rattle.rc_shard.specs.Releasing.{IsSnapGivenBack};
ghost use Rattle.rc_shard.specs.calls.Looking.{source_snap};
ghost use Rattle.rc_shard.specs.calls.Opened.{AreBothReleased, AreHeldReleased, IsOpenedOver, IsReadSource, IsReadWhole, IsSourceLetGo, TellsBelow};
ghost use Rattle.rc_shard.specs.calls.Storing.{KeepsUnstored};

use crate::leaving::what_calls_leave_of_the_cache;
use crate::releasing::{give_back, release_cached};
use rc_chain::Snap;
use rc_lookup::snapshots_laws::a_snapshot_sees_what_it_saw;
use rc_lookup::unstored_laws::{
    what_a_call_leaves_of_the_room, what_a_snapshot_of_a_key_sees,
    what_leaves_the_chains_of_both_leaves_their_writes,
};
use rc_lookup::{Chains, Unstored};
use rc_opened::OpenedBehind;
use rc_opened::laws::writes_have_a_join;
use rc_paging::{HeldSnaps, LeavesOver, OpenReader, PartReader};
use rc_position::{PartKey, Slice};
use rc_query::laws::answer_of_joined_writes;
use rc_snapshots::Snaps;
use rc_stream::ListFrags;
use rc_tables::TableSet;
use std::alloc::{AllocError, Global};

/// An open reader of a shard: the partition that it reads, what reads it, and the tables that it was opened over, which are those of the folder from the first one on.
pub struct PartitionReader {
    pub(crate) key: PartKey,
    pub(crate) reader: PartReader,
    pub(crate) tables: TableSet,
}

/// What a reader is opened by: copies of its partition's key and of its slice, and the tables of its opening.
#[derive(Drop)]
pub(crate) struct Opening {
    pub(crate) key: PartKey,
    pub(crate) slice: Slice,
    pub(crate) tables: TableSet,
}

/// What tells a reader that is opened what the tables say of its partition.
pub(crate) enum Source {
    /// A snapshot of the row cache, which knew all of it, or was filled with it.
    Cached(Snap),
    /// What was read of the tables, for which the row cache has no room.
    Read(ListFrags),
}

// A reader over what tells what the tables say of its partition, and snapshots of what is written of it. The only error is want of memory: then a snapshot of the row cache that was handed in is taken back.
pub(crate) fn open_in(
    alloc: Global,
    unstored: &mut Unstored<131_072>,
    opening: Opening,
    source: Source,
) -> Result<PartitionReader, AllocError>
    requires kept { (schema : SchemaValue) × (writes : List Written) × (later : List Written) × HaveWrites schema unstored.old writes later × AreChangesOf schema (changes_to opening.key writes) × AreChangesOf schema (changes_to opening.key later) }
    requires there { IsCachedThere unstored.old.chains (source_snap source) }
    requires read { IsReadWhole source }
    ensures gives { (schema : SchemaValue) (writes later : List Written) (below said : List Change) → HaveWrites schema unstored.old writes later → AreChangesOf schema (changes_to opening.key writes) → AreChangesOf schema (changes_to opening.key later) → AreChangesOf schema below → TellsBelow unstored.new.chains source below said →
        IfOk result (IsOpenedOver ⟦<PartReader as LeavesOver<Chains<131_072>>>⟧.lines schema unstored.new.chains opening.slice below said (changes_to opening.key writes) (changes_to opening.key later)) }
    ensures held { IfOk result (λ o. AreHeldThere unstored.new.chains (held_by o.reader)) }
    ensures snap { IfOk result (λ o. cached_of o ≡ source_snap source) }
    ensures pins { IfOk result (PinsPartition opening.key unstored.old unstored.new) }
    ensures key { IfOk result (λ o. o.key ≡ opening.key) }
    ensures tables { IfOk result (λ o. o.tables ≡ opening.tables) }
    ensures fresh { IfOk result (λ o. (s : Snapshot) → HasPin unstored.old.chains s.chain s.pin → IsNoneOf (written_snaps_of o) s) }
    ensures kept { IfOk result (λ _. (schema : SchemaValue) → KeepsUnstored schema unstored.old unstored.new) }
    ensures err { OnErr result ((schema : SchemaValue) → IsSourceLetGo (source_snap source) schema unstored.old unstored.new) }
{
    what_a_call_leaves_of_the_room();
    what_calls_leave_of_the_cache();
    what_a_snapshot_of_a_key_sees();
    a_snapshot_sees_what_it_saw();
    match unstored.snapshot(&opening.key) {
        Ok(snaps) => open_with(alloc, unstored, opening, source, snaps),
        Err(error) => {
            let_go(unstored, source);
            Err(error)
        }
    }
}

// A reader over what tells what the tables say of its partition, and these snapshots of what is written of it. The only error is want of memory: then all snapshots that were handed in are taken back.
pub(crate) fn open_with(
    alloc: Global,
    unstored: &mut Unstored<131_072>,
    opening: Opening,
    source: Source,
    snaps: Snaps,
) -> Result<PartitionReader, AllocError>
    requires sees { (schema : SchemaValue) × (writes : List Change) × (later : List Change) × AreChangesOf schema writes × AreChangesOf schema later × SeesAllOf writes unstored.old.chains snaps.sealed × SeesAllOf later unstored.old.chains snaps.active }
    requires two { AreOfTwo snaps }
    requires there { IsCachedThere unstored.old.chains (source_snap source) }
    requires read { IsReadWhole source }
    ensures gives { (schema : SchemaValue) (writes later below said : List Change) → AreChangesOf schema writes → AreChangesOf schema later → AreChangesOf schema below → SeesAllOf writes unstored.old.chains snaps.sealed → SeesAllOf later unstored.old.chains snaps.active → TellsBelow unstored.new.chains source below said →
        IfOk result (IsOpenedOver ⟦<PartReader as LeavesOver<Chains<131_072>>>⟧.lines schema unstored.new.chains opening.slice below said writes later) }
    ensures held { IfOk result (λ o. held_by o.reader ≡ record { cached = source_snap source; written = snaps }) }
    ensures key { IfOk result (λ o. o.key ≡ opening.key) }
    ensures tables { IfOk result (λ o. o.tables ≡ opening.tables) }
    ensures same { IfOk result (λ _. unstored.new ≡ unstored.old) }
    ensures back { OnErr result (IsReadSource source × AreBothReleased snaps unstored.old unstored.new) }
{
    answer_of_joined_writes();
    writes_have_a_join();
    let Opening { key, slice, tables } = opening;
    match source {
        Source::Cached(snap) => {
            let held = HeldSnaps {
                cached: Some(snap),
                written: snaps,
            };
            let reader = PartReader::Cached(OpenReader::open(held, slice));
            Ok(PartitionReader {
                key,
                reader,
                tables,
            })
        }
        Source::Read(list) => {
            match OpenedBehind::open(alloc, &mut unstored.chains, None, snaps, list, &key, &slice) {
                Ok(past) => Ok(PartitionReader {
                    key,
                    reader: PartReader::Past(past),
                    tables,
                }),
                Err((snaps, error)) => {
                    unstored.release_both(snaps);
                    Err(error)
                }
            }
        }
    }
}

// The snapshot of the row cache that was to tell what the tables say is taken back, if it is one.
pub(crate) fn let_go(unstored: &mut Unstored<131_072>, source: Source)
    requires { IsCachedThere unstored.old.chains (source_snap source) }
    ensures { IsSnapGivenBack (source_snap source) unstored.old.chains unstored.new.chains × (unstored.new ≡ in_chains unstored.new.chains unstored.old) }
{
    match source {
        Source::Cached(snap) => release_cached(&mut unstored.chains, snap),
        Source::Read(_list) => {}
    }
}

// The snapshots of a reader that is done with.
pub(crate) fn held_of(opened: PartitionReader) -> HeldSnaps
    ensures { result ≡ held_by opened.reader }
{
    let PartitionReader {
        key: _key,
        reader,
        tables: _tables,
    } = opened;
    reader.into_held()
}

// The snapshots of a reader are taken back.
pub(crate) fn release_held(unstored: &mut Unstored<131_072>, held: HeldSnaps)
    requires { AreHeldThere unstored.old.chains held }
    ensures { AreHeldReleased held unstored.old unstored.new }
{
    what_a_call_leaves_of_the_room();
    what_calls_leave_of_the_cache();
    what_leaves_the_chains_of_both_leaves_their_writes();
    let HeldSnaps { cached, written } = held;
    give_back(&mut unstored.chains, cached);
    unstored.release_both(written);
}

// Takes the snapshots of all readers back.
pub(crate) fn close_all(unstored: Unstored<131_072>, readers: Vec<(u32, PartitionReader)>)
    requires held { AllByRecursion (λ o. AreHeldThere unstored.chains (held_by o.1.reader)) readers.items }
    requires two { AllPairs AreTwo (map holding readers.items) }
{
    what_leaves_the_chains_of_both_leaves_their_writes();
    let mut unstored = unstored;
    let mut readers = readers;
    while let Some((_id, opened)) = readers.pop() {
        release_held(&mut unstored, held_of(opened));
    }
    readers.destroy_empty();
}
