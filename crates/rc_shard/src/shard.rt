//! The shard.
ghost use Rattle.std.specs.Prelude.{◌≡◌, ◌⊎◌, ◌+◌, ◌*◌, ◌≤◌, ◌<◌, ◌==◌, ◌++◌, ◌∷◌, [], ℕ, List, Option, None, Some, IsSome, IsTrue, IfErr, IfOk, IfSome, OnErr, OnOk, length, position};
ghost use Rattle.std.specs.FinMap.{values};
ghost use Rattle.std.specs.Vec.{vec_capacity};
ghost use Rattle.rc_outside.specs.Files.{Files, HoldsSameFiles};
ghost use Rattle.rc_outside.specs.Faults.{RisesIfFault, Rose};
ghost use Rattle.rc_mutation.specs.declared.mutations.Mutation.{Mutation as Change};
ghost use Rattle.rc_mutation.specs.Fragments.{fragments};
ghost use Rattle.rc_mutation.specs.Source.{IsJoinOf, IsMutation};
ghost use Rattle.rc_writes.specs.Allowed.{ChangeFits};
ghost use Rattle.rc_stream.specs.Causes.{Caused};
ghost use Rattle.rc_stream.specs.Snapshot.{NoneLost};
ghost use Rattle.rc_stream.specs.Stream.{stream_of};
ghost use Rattle.rc_lookup.specs.Crowding.{LosesWhereCrowded};
ghost use Rattle.rc_lookup.specs.Fillers.{losses};
ghost use Rattle.rc_lookup.specs.Known.{KnowsStaticRow};
ghost use Rattle.rc_tables.specs.Tables.{IsDamageOf, listing};
ghost use Rattle.rc_lines.specs.Fits.{CommandFits};
ghost use Rattle.rc_machine.specs.Built.{is_built};
ghost use Rattle.rc_machine.specs.Serving.{FaultsAreCounted, OnFaulty, Stops, Takes, checks_of, most_asks};
ghost use Rattle.rc_machine.specs.State.{State, Table, opened_state};
ghost use Rattle.rc_machine.specs.Tables.{AreListed, AreTables};
ghost use Rattle.rc_machine.specs.Steps.{IsSaid, reader_with};
ghost use Rattle.rc_tfile.specs.declared.info.TableInfo.{TableInfo};
ghost use Rattle.rc_folder.specs.Counting.{AreCounted, AreFresh, figures_in};
ghost use Rattle.rc_folder.specs.Opening.{IsOpeningRefused, OnOpenFault};
ghost use Rattle.rc_folder.specs.Tabled.{IsNextNumber};
ghost use Rattle.rc_shard.specs.Counting.{figures_of};
ghost use Rattle.rc_shard.specs.Compacting.{IsCompactedAsTold};
ghost use Rattle.rc_shard.specs.Evicting.{IsEvictedAsTold, IsLostAsTold};
ghost use Rattle.rc_shard.specs.Losing.{IsLostInCrowd, LosesForWrite, LosesInCrowd};
ghost use Rattle.rc_shard.specs.Knowing.{AreEndsRecent, AsksNothingWhereKnown, IsCachedWhole, IsKnownStill, IsRecentOnceHit, IsStaticCached, IsTouchedAsGiven, StaysKnown};
ghost use Rattle.rc_shard.specs.Filling.{IsCachedByReader, IsFilledAsTold, IsHeldByReader, IsPassedAsTold, NoneSkipped, StaysLatest};
ghost use Rattle.rc_shard.specs.Opening.{IsOpenedAsTold};
ghost use Rattle.rc_shard.specs.Readers.{number_of_snaps};
ghost use Rattle.rc_shard.specs.Stands.{IsFullAsTold, StandsBeside};
ghost use Rattle.rc_shard.specs.calls.Keeping.{CountsStay, StandsForTheSame};
ghost use Rattle.rc_shard.specs.calls.Looking.{AreKnownStill, IsCacheLeft, IsCacheUsed, IsEntrySnapshot, IsSourceIn, IsSourceKnown, KeepsOver, UnlessMemory, source_snap, snap_taken, source_taken};
ghost use Rattle.rc_shard.specs.calls.Opened.{IsReaderPinned};
ghost use Rattle.rc_shard.specs.calls.Storing.{IsFlushAnswered, KeepsUnstored};

use crate::compacting::compact;
use crate::evicting::evict;
use crate::forgetting::forget_all;
use crate::leaving::{what_calls_leave_of_the_cache, what_is_live_is_of_memtables};
use crate::putting::put_in;
use crate::readers::{Opening, PartitionReader, Source, close_all, held_of, open_in, release_held};
use crate::reading::{not_read, place_of};
use crate::staying::a_reader_stays;
use rc_census::census;
use rc_chain::Snap;
use rc_folder::{Answered, Folder, MOST_READERS, Machine, OpenErr};
use rc_lines::{Command, Figures, Refusal, Reply};
use rc_lookup::footprint::what_is_let_go_counts_nothing;
use rc_lookup::row_cache_laws::the_cache_says_what_lies_below;
use rc_lookup::unstored_laws::{
    both_say_what_was_written, what_a_call_leaves_of_the_room,
    what_leaves_the_chains_of_both_leaves_their_writes,
};
use rc_lookup::{Chains, RowCache, Unstored, take_known, take_populated};
use rc_machine::readers_are_fixed;
use rc_mutation::laws::a_join_says_what_the_writes_say;
use rc_mutation::{Mutation, Write};
use rc_outside::Store;
use rc_paging::{LeavesOver, PartReader};
use rc_position::{PartKey, Slice};
use rc_schema::Schema;
use rc_stream::{ListFrags, StreamErr};
use rc_tfile::WriteErr;
use rc_writes::laws::what_says_the_same_fits;
use std::alloc::{AllocError, Global};

/// One shard: it takes one step of the machine after another. What is written and stands in no table lies in version chains, in a region
/// of segments of 131,072 bytes, and so does what the row cache knows of the tables. An open reader pins the versions that it sees, of what is
/// written and of what the row cache has of its partition, which is filled with it where it does not know its static row; where it does not know
/// what a read needs, as it was evicted, the tables that the reader was opened over are read, what they say is put into the row cache again, and
/// the reader goes on past that.
pub struct Shard {
    pub(crate) folder: Folder,
    pub(crate) unstored: Unstored<131_072>,
    pub(crate) cache: RowCache,
    pub(crate) readers: Vec<(u32, PartitionReader)>,
    answered: Answered,
    segments: u32,
    asked: u64,
}

impl Machine for Shard {
    ghost use Rattle.rc_shard.specs.Counting.{figures_of};
    ghost use Rattle.rc_shard.specs.Stands.{Stands};

    ghost stands = { Stands ⟦<PartReader as LeavesOver<Chains<131_072>>>⟧.lines };

    ghost folder = { λ k. k.folder };

    ghost figures = { figures_of };

    ghost over = { λ told k m s. s.over };

    /// A shard over a folder of tables of a schema, each of which is checked, with a budget of so many segments, all of which are taken
    /// now: it stands for the machine as it is opened over them. `OpenErr::Damaged` and `OpenErr::OtherSchema` name the first file that is
    /// no table of the schema; `OpenErr::Fault` comes when the store fails, and only then; `OpenErr::NoMemory` when memory is refused.
    fn open<W: Store>(
        alloc: Global,
        store: &mut W,
        schema: Schema,
        segments: u32,
    ) -> Result<Self, OpenErr>
        requires few { segments ≤ 4096 }
        requires some { 4 ≤ segments }
        ensures stands { IfOk result (λ shard. (tables : List Table) × (infos : List TableInfo) × AreTables (W.files store.old) schema tables × AreListed (W.files store.old) schema tables infos
            × ⟦<Shard as Machine>⟧.stands (W.files store.new) shard (opened_state segments (W.files store.old) schema tables infos)) }
        ensures figures { IfOk result (λ shard. AreFresh (W.asks store.new) (figures_of shard)) }
        ensures refused { IfErr result (IsOpeningRefused (W.files store.old) schema) }
        ensures faults { RisesIfFault OnOpenFault result (W.faults store.old) (W.faults store.new) }
        ensures store { HoldsSameFiles W.files W.building store.old store.new }
        ensures asks { IfSome (W.files store.old) (λ told. W.asks store.new ≤ W.asks store.old + checks_of (values told)) }
    {
        what_is_live_is_of_memtables();
        the_cache_says_what_lies_below();
        let folder = Folder::open(alloc, store, schema)?;
        let schema = folder.schema();
        let _columns = schema.cols();
        let _entry = schema.largest_entry();
        let _statics = schema.largest_static();
        let cache = RowCache::new(alloc);
        match Unstored::open(alloc, segments) {
            Ok(unstored) => Ok(Shard {
                folder,
                unstored,
                cache,
                readers: Vec::new(alloc),
                answered: Answered::none(),
                segments,
                asked: store.asks(),
            }),
            Err(_) => Err(OpenErr::NoMemory),
        }
    }

    /// The schema of the tables.
    fn schema(&self) -> &Schema
        ensures { result.now ≡ self.now.folder.schema }
    {
        self.folder.schema()
    }

    /// Takes the step of a command that fits the schema and is one of those that are built, and gives its reply, which may be a refusal.
    /// The only error is want of memory, which leaves the machine's state as it was, but that a flush may have sealed the writes, and a read
    /// may have told its reader anew what the tables say.
    fn serve<W: Store>(
        &mut self,
        alloc: Global,
        store: &mut W,
        command: &Command,
    ) -> Result<Reply, AllocError>
        requires fits { CommandFits self.old.folder.schema command.now }
        requires built { IsTrue (is_built command.now) }
        requires stands { (m : State) × ⟦<Shard as Machine>⟧.stands (W.files store.old) self.old m }
        ensures step { IfOk result (λ reply. Takes ⟦<Shard as Machine>⟧.stands (W.files store.old) self.old command.now reply (W.files store.new) self.new) }
        ensures err { OnErr result (Stops ⟦<Shard as Machine>⟧.stands (W.files store.old) self.old command.now (W.files store.new) self.new) }
        ensures faults { FaultsAreCounted result (W.faults store.old) (W.faults store.new) }
        ensures asks { (m : State) → ⟦<Shard as Machine>⟧.stands (W.files store.old) self.old m → W.asks store.new ≤ W.asks store.old + most_asks m command.now }
        ensures full { IfOk result (λ reply. IsFullAsTold command.now reply self.old.folder.schema self.new.unstored) }
        ensures pins { IfOk result (λ reply. IsOpenedAsTold command.now reply self.old.readers.items self.old.unstored self.new.readers.items self.new.unstored) }
        ensures known { (m : State) → ⟦<Shard as Machine>⟧.stands (W.files store.old) self.old m → AsksNothingWhereKnown m command.now self.old (W.asks store.old) (W.asks store.new) }
        ensures filled { IfOk result (λ reply. IsFilledAsTold command.now reply (W.asks store.old) (W.asks store.new) self.old self.new) }
        ensures passes { (m : State) → ⟦<Shard as Machine>⟧.stands (W.files store.old) self.old m → IfOk result (λ reply. IsPassedAsTold m command.now reply self.old self.new) }
        ensures recent { IfOk result (λ reply. IsRecentOnceHit command.now reply self.old self.new) }
        ensures touches { IfOk result (λ reply. IsTouchedAsGiven command.now reply self.old self.new) }
        ensures latest { OnOk result (StaysLatest self.old self.new) }
        ensures stays { OnOk result (StaysKnown command.now self.old self.new) }
        ensures evicts { IsEvictedAsTold command.now self.old.unstored.chains self.new.unstored.chains }
        ensures compacts { IsCompactedAsTold command.now self.old.unstored.chains self.new.unstored.chains }
        ensures loses { OnOk result (IsLostAsTold command.now self.old.unstored.chains self.new.unstored.chains) }
        ensures crowds { OnOk result (IsLostInCrowd command.now self.old.unstored.chains self.new.unstored.chains) }
        ensures figures { IfOk result (λ reply. AreCounted command.now reply (W.asks store.old) (W.asks store.new) (figures_of self.old) (figures_of self.new)) }
    {
        readers_are_fixed();
        let before = store.asks();
        let reply = self.step(alloc, store, command)?;
        self.answered = self.answered.count(command, &reply, before, store.asks());
        Ok(reply)
    }

    /// Takes every snapshot of the open readers back, and lets the shard go.
    fn close(self)
        requires { (told : Option Files) × (m : State) × ⟦<Shard as Machine>⟧.stands told self m }
    {
        let Shard {
            folder: _folder,
            unstored,
            cache: _cache,
            readers,
            answered: _answered,
            segments: _segments,
            asked: _asked,
        } = self;
        close_all(unstored, readers);
    }
}

impl Shard {
    /// What the shard tells of itself, where the store was asked so often: its segments and objects, how many answers were had with and
    /// without asking the store, and how often it was asked since the shard was opened; and what the row cache has, counted.
    pub fn figures<W: Store>(&self, store: &W) -> Figures
        ensures { result ≡ figures_of self.now (W.asks store.now) }
    {
        let region = self.unstored.chains.region();
        let counts = self.unstored.chains.counts();
        let cached = census(&self.unstored.chains);
        let free = u64::from(region.free());
        Figures {
            segments: u64::from(self.segments).saturating_sub(free),
            free,
            objects: region.objects(),
            live: region.live() as u64,
            partitions: cached.partitions,
            rows: cached.rows,
            dummies: cached.dummies,
            hits: self.answered.hits,
            misses: self.answered.misses,
            evicted: counts.evicted,
            moved: region.moved(),
            skipped: counts.skipped,
            asks: store.asks().saturating_sub(self.asked),
        }
    }

    // Takes the step of a command, without counting it.
    fn step<W: Store>(
        &mut self,
        alloc: Global,
        store: &mut W,
        command: &Command,
    ) -> Result<Reply, AllocError>
        requires fits { CommandFits self.old.folder.schema command.now }
        requires built { IsTrue (is_built command.now) }
        requires stands { (m : State) × ⟦<Shard as Machine>⟧.stands (W.files store.old) self.old m }
        ensures step { IfOk result (λ reply. Takes ⟦<Shard as Machine>⟧.stands (W.files store.old) self.old command.now reply (W.files store.new) self.new) }
        ensures err { OnErr result (Stops ⟦<Shard as Machine>⟧.stands (W.files store.old) self.old command.now (W.files store.new) self.new) }
        ensures faults { FaultsAreCounted result (W.faults store.old) (W.faults store.new) }
        ensures asks { (m : State) → ⟦<Shard as Machine>⟧.stands (W.files store.old) self.old m → W.asks store.new ≤ W.asks store.old + most_asks m command.now }
        ensures full { IfOk result (λ reply. IsFullAsTold command.now reply self.old.folder.schema self.new.unstored) }
        ensures pins { IfOk result (λ reply. IsOpenedAsTold command.now reply self.old.readers.items self.old.unstored self.new.readers.items self.new.unstored) }
        ensures known { (m : State) → ⟦<Shard as Machine>⟧.stands (W.files store.old) self.old m → AsksNothingWhereKnown m command.now self.old (W.asks store.old) (W.asks store.new) }
        ensures filled { IfOk result (λ reply. IsFilledAsTold command.now reply (W.asks store.old) (W.asks store.new) self.old self.new) }
        ensures passes { (m : State) → ⟦<Shard as Machine>⟧.stands (W.files store.old) self.old m → IfOk result (λ reply. IsPassedAsTold m command.now reply self.old self.new) }
        ensures recent { IfOk result (λ reply. IsRecentOnceHit command.now reply self.old self.new) }
        ensures touches { IfOk result (λ reply. IsTouchedAsGiven command.now reply self.old self.new) }
        ensures stays { OnOk result (StaysKnown command.now self.old self.new) }
        ensures evicts { IsEvictedAsTold command.now self.old.unstored.chains self.new.unstored.chains }
        ensures compacts { IsCompactedAsTold command.now self.old.unstored.chains self.new.unstored.chains }
        ensures loses { OnOk result (IsLostAsTold command.now self.old.unstored.chains self.new.unstored.chains) }
        ensures crowds { OnOk result (IsLostInCrowd command.now self.old.unstored.chains self.new.unstored.chains) }
        ensures counts { CountsStay self.old self.new }
        ensures told { IfOk result (λ reply. IfSome (figures_in command.now reply) (λ figures. figures ≡ figures_of self.old (W.asks store.old))) }
    {
        self.unstored.chains.known();
        match command {
            Command::Nothing => Ok(Reply::Nothing),
            Command::SetSchema(schema) => Ok(self.set_schema(schema)),
            Command::Put(write) => self.put(alloc, write),
            Command::OpenRead { id, key, slice } => self.open_read(alloc, store, *id, key, slice),
            Command::Read { id, count } => self.read(alloc, store, *id, *count),
            Command::Close { id } => Ok(self.close_reader(*id)),
            Command::Flush => self.flush(alloc, store),
            Command::Evict { count } => {
                a_reader_stays();
                evict(&mut self.unstored, *count);
                Ok(Reply::Fine)
            }
            Command::Compact { count } => {
                a_reader_stays();
                compact(&mut self.unstored, *count);
                Ok(Reply::Fine)
            }
            Command::Stats => Ok(Reply::Stats(self.figures(store))),
            Command::FlushBegin | Command::FlushStep { .. } | Command::Clean { .. } => {
                unreachable!()
            }
        }
    }

    // The reply to a schema line: fine where it is the same schema again.
    fn set_schema(&self, schema: &Schema) -> Reply
        ensures step { (files : Option Files) → Takes ⟦<Shard as Machine>⟧.stands files self.now (Command.SetSchema schema.now) result files self.now }
        ensures faultless { (n : ℕ) → OnFaulty result (Rose n n) }
    {
        if self.folder.schema().is_same(schema) {
            Reply::Fine
        } else {
            Reply::Refused(Refusal::SchemaDiffers)
        }
    }

    // Puts a write behind the others, where there is room for it.
    fn put(&mut self, alloc: Global, write: &Write) -> Result<Reply, AllocError>
        requires fits { CommandFits self.old.folder.schema (Command.Put write.now) }
        requires stands { (files : Option Files) × (m : State) × ⟦<Shard as Machine>⟧.stands files self.old m }
        ensures step { (files : Option Files) → IfOk result (λ reply. Takes ⟦<Shard as Machine>⟧.stands files self.old (Command.Put write.now) reply files self.new) }
        ensures faultless { (n : ℕ) → IfOk result (λ reply. OnFaulty reply (Rose n n)) }
        ensures full { IfOk result (λ reply. IsFullAsTold (Command.Put write.now) reply self.old.folder.schema self.new.unstored) }
        ensures skips { OnOk result (self.new.unstored.chains.counts.skipped ≡ self.old.unstored.chains.counts.skipped) }
        ensures crowds { OnOk result (LosesForWrite self.old.unstored.chains self.new.unstored.chains) }
        ensures left { IsCacheLeft self.old self.new }
        ensures err { OnErr result (StandsForTheSame ⟦<Shard as Machine>⟧.stands self.old self.new) }
        ensures counts { CountsStay self.old self.new }
    {
        a_reader_stays();
        write.change.holds_together();
        let schema = self.folder.schema();
        let _entry = schema.largest_entry();
        let _statics = schema.largest_static();
        if put_in(alloc, &mut self.unstored, schema, write)? {
            Ok(Reply::Fine)
        } else {
            Ok(Reply::Refused(Refusal::Full))
        }
    }

    // Opens a reader: its answer is fixed now.
    fn open_read<W: Store>(
        &mut self,
        alloc: Global,
        store: &mut W,
        id: u32,
        key: &PartKey,
        slice: &Slice,
    ) -> Result<Reply, AllocError>
        requires { (m : State) × ⟦<Shard as Machine>⟧.stands (W.files store.old) self.old m }
        ensures step { IfOk result (λ reply. Takes ⟦<Shard as Machine>⟧.stands (W.files store.old) self.old (Command.OpenRead id key.now slice.now) reply (W.files store.new) self.new) }
        ensures err { OnErr result (KeepsOver ⟦<Shard as Machine>⟧.stands (W.files store.old) self.old self.new) }
        ensures faults { FaultsAreCounted result (W.faults store.old) (W.faults store.new) }
        ensures store { HoldsSameFiles W.files W.building store.old store.new }
        ensures asks { W.asks store.new ≤ W.asks store.old + 2 * listing key.now self.old.folder.infos }
        ensures pins { IfOk result (λ reply. IsOpenedAsTold (Command.OpenRead id key.now slice.now) reply self.old.readers.items self.old.unstored self.new.readers.items self.new.unstored) }
        ensures known { IsStaticCached self.old key.now → W.asks store.new ≡ W.asks store.old }
        ensures filled { IfOk result (λ reply. IsFilledAsTold (Command.OpenRead id key.now slice.now) reply (W.asks store.old) (W.asks store.new) self.old self.new) }
        ensures recent { IfOk result (λ reply. IsRecentOnceHit (Command.OpenRead id key.now slice.now) reply self.old self.new) }
        ensures stays { OnOk result (AreKnownStill self.old self.new) }
        ensures crowds { OnOk result (LosesInCrowd self.old.unstored.chains self.new.unstored.chains) }
        ensures counts { CountsStay self.old self.new }
    {
        if place_of(self.readers.as_slice(), id).is_some() {
            return Ok(Reply::Refused(Refusal::ReaderInUse));
        }
        if self.readers.len() >= MOST_READERS {
            return Ok(Reply::Refused(Refusal::TooManyReaders));
        }
        self.readers.reserve(1)?;
        let opening = self.opening(alloc, key, slice)?;
        match self.source_of(alloc, store, key) {
            Ok(source) => self.open_over(alloc, id, opening, source),
            Err(error) => not_read(error),
        }
    }

    // What a reader is opened by. The only error is want of memory.
    fn opening(&self, alloc: Global, key: &PartKey, slice: &Slice) -> Result<Opening, AllocError>
        ensures { IfOk result (λ opening. opening ≡ record { key = key.now; slice = slice.now; tables = self.now.folder.infos }) }
    {
        Ok(Opening {
            key: key.copy(alloc)?,
            slice: slice.copy(alloc)?,
            tables: self.folder.tables()?,
        })
    }

    // What tells what the tables say of a partition: a snapshot of the row cache, where that knows its static row; else they are read, and the cache is filled.
    fn source_of<W: Store>(
        &mut self,
        alloc: Global,
        store: &mut W,
        key: &PartKey,
    ) -> Result<Source, StreamErr>
        requires { (m : State) × ⟦<Shard as Machine>⟧.stands (W.files store.old) self.old m }
        ensures says { (m : State) → ⟦<Shard as Machine>⟧.stands (W.files store.old) self.old m → IfOk result (IsSourceIn self.new m key.now) }
        ensures known { IsStaticCached self.old key.now → W.asks store.new ≡ W.asks store.old }
        ensures caught { IfOk result (λ source. NoneSkipped self.old self.new → IsSome (source_snap source)) }
        ensures held { IfOk result (λ source. NoneLost (losses self.old.unstored.chains) (losses self.new.unstored.chains) → IsSourceKnown self.new.unstored.chains source) }
        ensures whole { OnOk result (NoneLost (losses self.old.unstored.chains) (losses self.new.unstored.chains) → IsStaticCached self.old key.now ⊎ IsCachedWhole self.new key.now) }
        ensures stays { UnlessMemory result (AreKnownStill self.old self.new) }
        ensures hit { OnOk result (IsStaticCached self.old key.now → AreEndsRecent key.now self.old self.new) }
        ensures keeps { (m : State) → ⟦<Shard as Machine>⟧.stands (W.files store.old) self.old m → StandsBeside ⟦<PartReader as LeavesOver<Chains<131_072>>>⟧.lines (number_of_snaps (source_taken result)) (W.files store.old) self.new m }
        ensures loses { LosesWhereCrowded 131072 1 self.old.unstored.chains self.new.unstored.chains }
        ensures beside { IsCacheUsed (source_taken result) self.old self.new }
        ensures damaged { IfErr result (IsDamageOf self.old.folder.schema key.now self.old.folder.infos) }
        ensures cause { Caused result (W.files store.old) (W.faults store.old) (W.faults store.new) }
        ensures store { HoldsSameFiles W.files W.building store.old store.new }
        ensures asks { W.asks store.new ≤ W.asks store.old + 2 * listing key.now self.old.folder.infos }
    {
        match self.look_up(alloc, key) {
            Ok(Some(snap)) => Ok(Source::Cached(snap)),
            Ok(None) => self.read_tables(alloc, store, key),
            Err(_) => Err(StreamErr::NoMemory),
        }
    }

    // A snapshot of what the row cache has of a partition, where it knows its static row. The only error is want of memory.
    fn look_up(&mut self, alloc: Global, key: &PartKey) -> Result<Option<Snap>, AllocError>
        requires { (files : Option Files) × (m : State) × ⟦<Shard as Machine>⟧.stands files self.old m }
        ensures says { (files : Option Files) (m : State) → ⟦<Shard as Machine>⟧.stands files self.old m → IfOk result (λ o. IfSome o (IsEntrySnapshot self.new key.now)) }
        ensures known { IsStaticCached self.old key.now → IfOk result IsSome }
        ensures head { IfOk result (λ o. IfSome o (λ s. KnowsStaticRow self.new.unstored.chains s × IsStaticCached self.old key.now)) }
        ensures stays { (q : List ℕ) → IsKnownStill q self.old self.new }
        ensures hit { IfOk result (λ o. IfSome o (λ _. AreEndsRecent key.now self.old self.new)) }
        ensures keeps { (files : Option Files) (m : State) → ⟦<Shard as Machine>⟧.stands files self.old m → StandsBeside ⟦<PartReader as LeavesOver<Chains<131_072>>>⟧.lines (number_of_snaps (snap_taken result)) files self.new m }
        ensures loses { LosesWhereCrowded 131072 0 self.old.unstored.chains self.new.unstored.chains }
        ensures beside { IsCacheUsed (snap_taken result) self.old self.new }
    {
        a_reader_stays();
        what_leaves_the_chains_of_both_leaves_their_writes();
        self.unstored.chains.known();
        take_known(alloc, &mut self.cache, &mut self.unstored.chains, key)
    }

    // What tells what the tables say of a partition, once they are read: the row cache is filled, whether they say anything or not.
    fn read_tables<W: Store>(
        &mut self,
        alloc: Global,
        store: &mut W,
        key: &PartKey,
    ) -> Result<Source, StreamErr>
        requires { (m : State) × ⟦<Shard as Machine>⟧.stands (W.files store.old) self.old m }
        ensures says { (m : State) → ⟦<Shard as Machine>⟧.stands (W.files store.old) self.old m → IfOk result (IsSourceIn self.new m key.now) }
        ensures caught { IfOk result (λ source. NoneSkipped self.old self.new → IsSome (source_snap source)) }
        ensures held { IfOk result (λ source. NoneLost (losses self.old.unstored.chains) (losses self.new.unstored.chains) → IsSourceKnown self.new.unstored.chains source) }
        ensures whole { OnOk result (NoneLost (losses self.old.unstored.chains) (losses self.new.unstored.chains) → IsCachedWhole self.new key.now) }
        ensures stays { UnlessMemory result (AreKnownStill self.old self.new) }
        ensures keeps { (m : State) → ⟦<Shard as Machine>⟧.stands (W.files store.old) self.old m → StandsBeside ⟦<PartReader as LeavesOver<Chains<131_072>>>⟧.lines (number_of_snaps (source_taken result)) (W.files store.old) self.new m }
        ensures loses { LosesWhereCrowded 131072 1 self.old.unstored.chains self.new.unstored.chains }
        ensures beside { IsCacheUsed (source_taken result) self.old self.new }
        ensures damaged { IfErr result (IsDamageOf self.old.folder.schema key.now self.old.folder.infos) }
        ensures cause { Caused result (W.files store.old) (W.faults store.old) (W.faults store.new) }
        ensures store { HoldsSameFiles W.files W.building store.old store.new }
        ensures asks { W.asks store.new ≤ W.asks store.old + 2 * listing key.now self.old.folder.infos }
    {
        a_join_says_what_the_writes_say();
        what_says_the_same_fits();
        match self.folder.read(alloc, store, key) {
            Ok(read) => self.fill(alloc, key, &read),
            Err(error) => Err(error),
        }
    }

    // What was read of a partition, put into the row cache, as a snapshot of that; as a stream, where there is no room for it. The only error is want of memory.
    fn fill(&mut self, alloc: Global, key: &PartKey, read: &Mutation) -> Result<Source, StreamErr>
        requires stands { (files : Option Files) × (m : State) × ⟦<Shard as Machine>⟧.stands files self.old m }
        requires mutation { IsMutation read.now }
        requires fits { ChangeFits self.old.folder.schema read.now }
        ensures says { (files : Option Files) (m : State) (said : List Change) → ⟦<Shard as Machine>⟧.stands files self.old m → IsSaid m key.now said → IsJoinOf read.now said → IfOk result (IsSourceIn self.new m key.now) }
        ensures refused { IfErr result (λ error. error ≡ StreamErr.NoMemory) }
        ensures caught { IfOk result (λ source. NoneSkipped self.old self.new → IsSome (source_snap source)) }
        ensures held { IfOk result (λ source. NoneLost (losses self.old.unstored.chains) (losses self.new.unstored.chains) → IsSourceKnown self.new.unstored.chains source) }
        ensures whole { OnOk result (NoneLost (losses self.old.unstored.chains) (losses self.new.unstored.chains) → IsCachedWhole self.new key.now) }
        ensures stays { OnOk result (AreKnownStill self.old self.new) }
        ensures keeps { (files : Option Files) (m : State) (said : List Change) → ⟦<Shard as Machine>⟧.stands files self.old m → IsSaid m key.now said → IsJoinOf read.now said → StandsBeside ⟦<PartReader as LeavesOver<Chains<131_072>>>⟧.lines (number_of_snaps (source_taken result)) files self.new m }
        ensures loses { LosesWhereCrowded 131072 1 self.old.unstored.chains self.new.unstored.chains }
        ensures beside { IsCacheUsed (source_taken result) self.old self.new }
    {
        a_reader_stays();
        what_leaves_the_chains_of_both_leaves_their_writes();
        self.unstored.chains.known();
        match take_populated(alloc, &mut self.cache, &mut self.unstored.chains, key, read) {
            Ok(Some(snap)) => Ok(Source::Cached(snap)),
            Ok(None) => stream_read(alloc, read),
            Err(_) => Err(StreamErr::NoMemory),
        }
    }

    // Opens a reader of an id that is not open, for which there is a place, over what tells what the tables say.
    fn open_over(
        &mut self,
        alloc: Global,
        id: u32,
        opening: Opening,
        source: Source,
    ) -> Result<Reply, AllocError>
        requires stands { (files : Option Files) × (m : State) × StandsBeside ⟦<PartReader as LeavesOver<Chains<131_072>>>⟧.lines (number_of_snaps (source_snap source)) files self.old m × IsSourceIn self.old m opening.key source }
        requires tables { opening.tables ≡ self.old.folder.infos }
        requires place { length self.old.readers.items < vec_capacity self.old.readers }
        requires unused { position (λ reader. reader.0 == id) self.old.readers.items ≡ None }
        ensures fine { IfOk result (λ reply. reply ≡ Reply.Fine) }
        ensures pins { IfOk result (λ _. IsReaderPinned id opening.key source self.old.readers.items self.old.unstored self.new.readers.items self.new.unstored) }
        ensures opened { (files : Option Files) (m : State) → StandsBeside ⟦<PartReader as LeavesOver<Chains<131_072>>>⟧.lines (number_of_snaps (source_snap source)) files self.old m → IsSourceIn self.old m opening.key source →
            (said : List Change) × IsSaid m opening.key said × IfOk result (λ _. ⟦<Shard as Machine>⟧.stands files self.new (record m { readers = m.readers ++ (id, reader_with m opening.key opening.slice said) ∷ [] })) }
        ensures caught { (m : State) → IsSourceIn self.old m opening.key source → IfOk result (λ _. IsSome (source_snap source) → IsCachedByReader id opening.key self.new) }
        ensures held { (m : State) → IsSourceIn self.old m opening.key source → IfOk result (λ _. IsSourceKnown self.old.unstored.chains source → IsHeldByReader id opening.key self.new) }
        ensures stays { IfOk result (λ _. (q : List ℕ) → IsKnownStill q self.old self.new) }
        ensures recency { IfOk result (λ _. (self.new.cache.entries ≡ self.old.cache.entries) × (self.new.unstored.chains.recency ≡ self.old.unstored.chains.recency)) }
        ensures loses { OnOk result (LosesWhereCrowded 131072 0 self.old.unstored.chains self.new.unstored.chains) }
        ensures err { (files : Option Files) (m : State) → StandsBeside ⟦<PartReader as LeavesOver<Chains<131_072>>>⟧.lines (number_of_snaps (source_snap source)) files self.old m → IsSourceIn self.old m opening.key source → OnErr result (⟦<Shard as Machine>⟧.stands files self.new m) }
        ensures counts { CountsStay self.old self.new }
    {
        a_reader_stays();
        both_say_what_was_written();
        what_leaves_the_chains_of_both_leaves_their_writes();
        let opened = open_in(alloc, &mut self.unstored, opening, source)?;
        match self.readers.push((id, opened)) {
            Ok(()) => Ok(Reply::Fine),
            Err(_) => unreachable!(),
        }
    }

    // Closes a reader: its snapshots are taken back.
    fn close_reader(&mut self, id: u32) -> Reply
        requires { (files : Option Files) × (m : State) × ⟦<Shard as Machine>⟧.stands files self.old m }
        ensures step { (files : Option Files) → Takes ⟦<Shard as Machine>⟧.stands files self.old (Command.Close id) result files self.new }
        ensures same { self.new.unstored.chains.counts ≡ self.old.unstored.chains.counts }
        ensures stays { StaysKnown (Command.Close id) self.old self.new }
        ensures faultless { (n : ℕ) → OnFaulty result (Rose n n) }
        ensures counts { CountsStay self.old self.new }
    {
        a_reader_stays();
        what_leaves_the_chains_of_both_leaves_their_writes();
        self.unstored.chains.known();
        match place_of(self.readers.as_slice(), id) {
            None => Reply::Refused(Refusal::NoReader),
            Some(at) => {
                let (_id, opened) = self.readers.remove(at);
                release_held(&mut self.unstored, held_of(opened));
                Reply::Fine
            }
        }
    }

    // Writes the sealed writes as the next table; all writes are sealed before, unless some are.
    fn flush<W: Store>(&mut self, alloc: Global, store: &mut W) -> Result<Reply, AllocError>
        requires { (m : State) × ⟦<Shard as Machine>⟧.stands (W.files store.old) self.old m }
        ensures step { IfOk result (λ reply. Takes ⟦<Shard as Machine>⟧.stands (W.files store.old) self.old Command.Flush reply (W.files store.new) self.new) }
        ensures stays { OnOk result (StaysKnown Command.Flush self.old self.new) }
        ensures err { OnErr result (Stops ⟦<Shard as Machine>⟧.stands (W.files store.old) self.old Command.Flush (W.files store.new) self.new) }
        ensures faults { FaultsAreCounted result (W.faults store.old) (W.faults store.new) }
        ensures asks { W.asks store.new ≡ W.asks store.old }
        ensures same { OnOk result (self.new.unstored.chains.counts ≡ self.old.unstored.chains.counts) }
        ensures counts { CountsStay self.old self.new }
    {
        a_reader_stays();
        self.unstored.chains.known();
        if self.unstored.is_empty() {
            return Ok(Reply::Refused(Refusal::NothingToFlush));
        }
        match self.folder.next_number() {
            None => Ok(Reply::Refused(Refusal::NoNumber)),
            Some(number) => {
                self.unstored.seal();
                self.write_sealed(alloc, store, number)
            }
        }
    }

    // Writes the sealed writes as a table of this number, which is the next one, and lets them go. Their partitions leave the row cache.
    fn write_sealed<W: Store>(
        &mut self,
        alloc: Global,
        store: &mut W,
        number: u32,
    ) -> Result<Reply, AllocError>
        requires stands { (m : State) × ⟦<Shard as Machine>⟧.stands (W.files store.old) self.old m }
        requires number { IsNextNumber self.old.folder.infos (Some number) }
        ensures written { IfOk result (IsFlushAnswered (W.files store.old) self.old number (W.files store.new) self.new) }
        ensures err { OnErr result ((self.new.folder ≡ self.old.folder) × (self.new.cache ≡ self.old.cache) × KeepsUnstored self.old.folder.schema self.old.unstored self.new.unstored × (W.files store.new ≡ W.files store.old)) }
        ensures faults { FaultsAreCounted result (W.faults store.old) (W.faults store.new) }
        ensures asks { W.asks store.new ≡ W.asks store.old }
        ensures readers { self.new.readers ≡ self.old.readers }
        ensures same { OnOk result (self.new.unstored.chains.counts ≡ self.old.unstored.chains.counts) }
        ensures counts { CountsStay self.old self.new }
    {
        what_is_let_go_counts_nothing();
        what_a_call_leaves_of_the_room();
        what_calls_leave_of_the_cache();
        self.unstored.sealed.known();
        let parts = self.unstored.sealed_partitions(alloc)?;
        let written = parts.as_slice();
        match self.folder.add(alloc, store, number, written) {
            Ok(()) => {
                self.unstored.drop_sealed();
                forget_all(&mut self.cache, &mut self.unstored, written);
                Ok(Reply::Fine)
            }
            Err(error) => not_written(error),
        }
    }
}

// What was read of a partition, as the stream of its fragments. The only error is want of memory.
fn stream_read(alloc: Global, read: &Mutation) -> Result<Source, StreamErr>
    ensures stream { IfOk result (λ source. source ≡ Source.Read (stream_of (fragments read.now))) }
    ensures refused { IfErr result (λ error. error ≡ StreamErr.NoMemory) }
{
    match read.fragments(alloc) {
        Ok(list) => Ok(Source::Read(ListFrags::new(list))),
        Err(_) => Err(StreamErr::NoMemory),
    }
}

// The reply to a flush that the store refused.
fn not_written(error: WriteErr) -> Result<Reply, AllocError>
    ensures { IfOk result (λ reply. (error ≡ WriteErr.Fault) × (reply ≡ Reply.Refused Refusal.WriteFault)) }
{
    match error {
        WriteErr::Fault => Ok(Reply::Refused(Refusal::WriteFault)),
        WriteErr::NoMemory => Err(AllocError),
    }
}
