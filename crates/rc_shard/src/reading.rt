//! A reader's next lines, over the row cache and past it.
ghost use Rattle.std.specs.Prelude.{true, false, ◌≡◌, ◌+◌, ◌++◌, ◌≤◌, ◌<◌, ◌==◌, ℕ, List, Option, None, Some, IsSome, IfErr, IfOk, OnErr, OnOk, get_or, position};
ghost use Rattle.rc_outside.specs.Files.{Files};
ghost use Rattle.rc_outside.specs.Faults.{Rose};
ghost use Rattle.rc_mutation.specs.declared.mutations.Mutation.{Mutation as Change};
ghost use Rattle.rc_mutation.specs.Source.{IsJoinOf, IsMutation};
ghost use Rattle.rc_writes.specs.Allowed.{ChangeFits};
ghost use Rattle.rc_lookup.specs.Crowding.{LosesWhereCrowded};
ghost use Rattle.rc_stream.specs.Snapshot.{NoneLost};
ghost use Rattle.rc_lookup.specs.Fillers.{losses};
ghost use Rattle.rc_lookup.specs.Found.{entry_number};
ghost use Rattle.rc_lookup.specs.Touched.{AreTouched, IsEntryOfGiven};
ghost use Rattle.rc_machine.specs.Serving.{FaultsAreCounted, OnFaulty, Stops, Takes, most_asks};
ghost use Rattle.rc_machine.specs.Standing.{IsOver};
ghost use Rattle.rc_machine.specs.State.{Reader, State, reader_of};
ghost use Rattle.rc_machine.specs.Steps.{IsSaid};
ghost use Rattle.rc_tfile.specs.declared.info.TableInfo.{TableInfo};
ghost use Rattle.rc_folder.specs.Tabled.{IsSaidByFirst};
ghost use Rattle.rc_shard.specs.Losing.{LosesInCrowd};
ghost use Rattle.rc_shard.specs.Knowing.{AsksNothingWhereKnown, IsReadCached, IsKnownStill, IsTouchedAsGiven, StaysKnown};
ghost use Rattle.rc_shard.specs.Filling.{IsFilledAsTold, IsPassedAsTold, MayRefill};
ghost use Rattle.rc_shard.specs.Readers.{cached_of};
ghost use Rattle.rc_shard.specs.calls.Caching.{LeavesCache};
ghost use Rattle.rc_shard.specs.calls.Keeping.{CountsStay, StandsForTheSame, TellsOf};
ghost use Rattle.rc_shard.specs.calls.Looking.{AreKnownStill, IsCacheUsed};
ghost use Rattle.rc_shard.specs.calls.Reading.{IsSparedPast, IsBesideChains, IsGonePastAt, IsPaged, IsPagedBeside, IsGoneOn, IsPutPast, IsReadOfFirst, IsRefilled, IsTouchedPast};

use crate::readers::PartitionReader;
use crate::releasing::give_back;
use crate::resaying::what_is_told_anew;
use crate::shard::Shard;
use crate::staying::a_reader_stays;
use rc_folder::{Folder, Machine};
use rc_lines::{Command, Refusal, Reply};
use rc_lookup::unstored_laws::what_leaves_the_chains_of_both_leaves_their_writes;
use rc_lookup::{keep_recent, populate};
use rc_mutation::Mutation;
use rc_mutation::laws::a_join_says_what_the_writes_say;
use rc_outside::Store;
use rc_paging::PageErr;
use rc_query::Lines;
use rc_stream::StreamErr;
use rc_writes::laws::what_says_the_same_fits;
use std::alloc::{AllocError, Global};

impl Shard {
    // Gives a reader's next lines, whose rows become the most recent ones of the row cache. Where its snapshot of the row cache does not know what is needed the tables of its opening are read, what was read is put into the row cache, and the reader goes on past that.
    pub(crate) fn read<W: Store>(
        &mut self,
        alloc: Global,
        store: &mut W,
        id: u32,
        count: u32,
    ) -> Result<Reply, AllocError>
        requires { (m : State) × ⟦<Shard as Machine>⟧.stands (W.files store.old) self.old m }
        ensures step { IfOk result (λ reply. Takes ⟦<Shard as Machine>⟧.stands (W.files store.old) self.old (Command.Read id count) reply (W.files store.new) self.new) }
        ensures err { OnErr result (Stops ⟦<Shard as Machine>⟧.stands (W.files store.old) self.old (Command.Read id count) (W.files store.new) self.new) }
        ensures faults { FaultsAreCounted result (W.faults store.old) (W.faults store.new) }
        ensures asks { (m : State) → ⟦<Shard as Machine>⟧.stands (W.files store.old) self.old m → W.asks store.new ≤ W.asks store.old + most_asks m (Command.Read id count) }
        ensures known { (m : State) → ⟦<Shard as Machine>⟧.stands (W.files store.old) self.old m → AsksNothingWhereKnown m (Command.Read id count) self.old (W.asks store.old) (W.asks store.new) }
        ensures filled { IfOk result (λ reply. IsFilledAsTold (Command.Read id count) reply (W.asks store.old) (W.asks store.new) self.old self.new) }
        ensures passes { (m : State) → ⟦<Shard as Machine>⟧.stands (W.files store.old) self.old m → IfOk result (λ reply. IsPassedAsTold m (Command.Read id count) reply self.old self.new) }
        ensures crowds { OnOk result (LosesInCrowd self.old.unstored.chains self.new.unstored.chains) }
        ensures stays { OnOk result (StaysKnown (Command.Read id count) self.old self.new) }
        ensures touches { IfOk result (λ reply. IsTouchedAsGiven (Command.Read id count) reply self.old self.new) }
        ensures counts { CountsStay self.old self.new }
    {
        self.unstored.chains.known();
        match place_of(self.readers.as_slice(), id) {
            None => Ok(Reply::Refused(Refusal::NoReader)),
            Some(at) => match self.page(alloc, at, count) {
                Ok((lines, more)) => Ok(self.give(at, lines, more)),
                Err(PageErr::Missing) => self.read_past(alloc, store, at, count),
                Err(PageErr::NoMemory) => Err(AllocError),
            },
        }
    }

    // Gives a reader's next lines, where what is needed is in memory; else nothing changes.
    fn page(&mut self, alloc: Global, at: usize, count: u32) -> Result<(Lines, bool), PageErr>
        requires { (id : ℕ) × (files : Option Files) × (m : State) × ⟦<Shard as Machine>⟧.stands files self.old m × (position (λ reader. reader.0 == id) self.old.readers.items ≡ Some at) }
        ensures gives { (id : ℕ) (files : Option Files) (m : State) → ⟦<Shard as Machine>⟧.stands files self.old m → position (λ reader. reader.0 == id) self.old.readers.items ≡ Some at → IfOk result (λ gave. IsPaged ⟦<Shard as Machine>⟧.stands files id count m gave self.new) }
        ensures err { OnErr result (StandsForTheSame ⟦<Shard as Machine>⟧.stands self.old self.new) }
        ensures known { (id : ℕ) (files : Option Files) (m : State) (o : ℕ × PartitionReader) (r : Reader) → ⟦<Shard as Machine>⟧.stands files self.old m → position (λ reader. reader.0 == id) self.old.readers.items ≡ Some at → get_or self.old.readers.items at o ≡ o → reader_of id m ≡ Some r → IsReadCached self.old count o.1 r → IfErr result (λ e. e ≡ PageErr.NoMemory) }
        ensures passed { (id : ℕ) (files : Option Files) (m : State) (o : ℕ × PartitionReader) (r : Reader) → ⟦<Shard as Machine>⟧.stands files self.old m → position (λ reader. reader.0 == id) self.old.readers.items ≡ Some at → get_or self.old.readers.items at o ≡ o → reader_of id m ≡ Some r → OnOk result (IsReadCached self.old count o.1 r) }
        ensures beside { IsPagedBeside at self.old self.new }
    {
        a_reader_stays();
        let reader = &mut self.readers[at].1;
        reader
            .reader
            .read(alloc, &mut self.unstored.chains, None, count)
    }

    // The reply of lines that a reader gave, whose rows become the most recent ones of the row cache.
    fn give(&mut self, at: usize, lines: Lines, more: bool) -> Reply
        requires { (id : ℕ) × (files : Option Files) × (m : State) × ⟦<Shard as Machine>⟧.stands files self.old m × (position (λ reader. reader.0 == id) self.old.readers.items ≡ Some at) }
        ensures reply { result ≡ Reply.Given lines more }
        ensures keeps { StandsForTheSame ⟦<Shard as Machine>⟧.stands self.old self.new }
        ensures touches { (o : ℕ × PartitionReader) → get_or self.old.readers.items at o ≡ o → AreTouched (IsEntryOfGiven (entry_number self.old.cache.entries o.1.key) lines) self.old.unstored.chains self.new.unstored.chains }
        ensures beside { IsBesideChains self.old self.new }
        ensures left { LeavesCache self.old.unstored.chains self.new.unstored.chains }
    {
        a_reader_stays();
        what_leaves_the_chains_of_both_leaves_their_writes();
        let key = &self.readers[at].1.key;
        let chains = &mut self.unstored.chains;
        keep_recent(&self.cache, chains, key, lines.as_slice());
        Reply::Given { lines, more }
    }

    // Reads a reader's partition from the tables of its opening, puts that into the row cache, where it may, and gives the reader's next lines past it.
    fn read_past<W: Store>(
        &mut self,
        alloc: Global,
        store: &mut W,
        at: usize,
        count: u32,
    ) -> Result<Reply, AllocError>
        requires { (id : ℕ) × (m : State) × ⟦<Shard as Machine>⟧.stands (W.files store.old) self.old m × (position (λ reader. reader.0 == id) self.old.readers.items ≡ Some at) }
        ensures step { (id : ℕ) → position (λ reader. reader.0 == id) self.old.readers.items ≡ Some at → IfOk result (λ reply. Takes ⟦<Shard as Machine>⟧.stands (W.files store.old) self.old (Command.Read id count) reply (W.files store.new) self.new) }
        ensures err { (id : ℕ) → position (λ reader. reader.0 == id) self.old.readers.items ≡ Some at → OnErr result (Stops ⟦<Shard as Machine>⟧.stands (W.files store.old) self.old (Command.Read id count) (W.files store.new) self.new) }
        ensures faults { FaultsAreCounted result (W.faults store.old) (W.faults store.new) }
        ensures asks { (id : ℕ) (m : State) → position (λ reader. reader.0 == id) self.old.readers.items ≡ Some at → ⟦<Shard as Machine>⟧.stands (W.files store.old) self.old m → W.asks store.new ≤ W.asks store.old + most_asks m (Command.Read id count) }
        ensures filled { (o : ℕ × PartitionReader) → get_or self.old.readers.items at o ≡ o → IfOk result (λ reply. IsPutPast o.1 reply self.old self.new) }
        ensures crowds { OnOk result (LosesInCrowd self.old.unstored.chains self.new.unstored.chains) }
        ensures stays { (id : ℕ) → OnOk result (StaysKnown (Command.Read id count) self.old self.new) }
        ensures touches { (id : ℕ) → position (λ reader. reader.0 == id) self.old.readers.items ≡ Some at → (o : ℕ × PartitionReader) → get_or self.old.readers.items at o ≡ o → IfOk result (λ reply. IsTouchedPast id o.1 reply self.new) }
        ensures counts { CountsStay self.old self.new }
    {
        a_join_says_what_the_writes_say();
        what_says_the_same_fits();
        self.unstored.chains.known();
        let reader = &self.readers[at].1;
        match self
            .folder
            .read_first(alloc, store, &reader.key, &reader.tables)
        {
            Ok(read) => {
                self.refill(alloc, at, &read)?;
                self.pass(alloc, at, read, count)
            }
            Err(error) => not_read(error),
        }
    }

    // Puts what was read of the tables of a reader's opening into the row cache, in place of what that has of the partition, where the reader has a snapshot of the row cache and no table was written with the partition since it was opened. The only error is want of memory.
    fn refill(&mut self, alloc: Global, at: usize, read: &Mutation) -> Result<(), AllocError>
        requires place { (id : ℕ) × (files : Option Files) × (m : State) × ⟦<Shard as Machine>⟧.stands files self.old m × (position (λ reader. reader.0 == id) self.old.readers.items ≡ Some at) }
        requires mutation { IsMutation read.now }
        requires fits { ChangeFits self.old.folder.schema read.now }
        ensures keeps { (id : ℕ) (files : Option Files) (m : State) (o : ℕ × PartitionReader) (said : List Change) → ⟦<Shard as Machine>⟧.stands files self.old m → position (λ reader. reader.0 == id) self.old.readers.items ≡ Some at → get_or self.old.readers.items at o ≡ o → IsSaidByFirst m o.1.tables o.1.key said → IsJoinOf read.now said →
            ⟦<Shard as Machine>⟧.stands files self.new m }
        ensures refilled { (o : ℕ × PartitionReader) → get_or self.old.readers.items at o ≡ o → OnOk result (IsRefilled o.1 self.old self.new) }
        ensures stays { OnOk result (AreKnownStill self.old self.new) }
        ensures loses { LosesWhereCrowded 131072 1 self.old.unstored.chains self.new.unstored.chains }
        ensures beside { IsCacheUsed None self.old self.new }
    {
        a_reader_stays();
        what_leaves_the_chains_of_both_leaves_their_writes();
        self.unstored.chains.known();
        let reader = &self.readers[at].1;
        if may_refill(&self.folder, reader) {
            let chains = &mut self.unstored.chains;
            populate(alloc, &mut self.cache, chains, &reader.key, read)
        } else {
            Ok(())
        }
    }

    // A reader goes on past the row cache, over what was read of the tables of its opening, and gives its next lines. The only error is want of memory.
    fn pass(
        &mut self,
        alloc: Global,
        at: usize,
        read: Mutation,
        count: u32,
    ) -> Result<Reply, AllocError>
        requires { (id : ℕ) × (files : Option Files) × (m : State) × (o : ℕ × PartitionReader) × ⟦<Shard as Machine>⟧.stands files self.old m × (position (λ reader. reader.0 == id) self.old.readers.items ≡ Some at) × (get_or self.old.readers.items at o ≡ o) × IsReadOfFirst files self.old.folder o.1 read }
        ensures step { (id : ℕ) (files : Option Files) (o : ℕ × PartitionReader) → position (λ reader. reader.0 == id) self.old.readers.items ≡ Some at → get_or self.old.readers.items at o ≡ o → IsReadOfFirst files self.old.folder o.1 read → IfOk result (λ reply. Takes ⟦<Shard as Machine>⟧.stands files self.old (Command.Read id count) reply files self.new) }
        ensures err { (id : ℕ) (files : Option Files) (o : ℕ × PartitionReader) → position (λ reader. reader.0 == id) self.old.readers.items ≡ Some at → get_or self.old.readers.items at o ≡ o → IsReadOfFirst files self.old.folder o.1 read → OnErr result (Stops ⟦<Shard as Machine>⟧.stands files self.old (Command.Read id count) files self.new) }
        ensures faultless { (before now : ℕ) → IfOk result (λ reply. OnFaulty reply (Rose before now)) }
        ensures same { self.new.unstored.chains.counts ≡ self.old.unstored.chains.counts }
        ensures loses { OnOk result (LosesWhereCrowded 131072 0 self.old.unstored.chains self.new.unstored.chains) }
        ensures stays { (o : ℕ × PartitionReader) (key : List ℕ) → get_or self.old.readers.items at o ≡ o → IsSparedPast (cached_of o.1) self.old key → NoneLost (losses self.old.unstored.chains) (losses self.new.unstored.chains) → IsKnownStill key self.old self.new }
        ensures touches { (id : ℕ) (o : ℕ × PartitionReader) → position (λ reader. reader.0 == id) self.old.readers.items ≡ Some at → get_or self.old.readers.items at o ≡ o → IfOk result (λ reply. IsTouchedPast id o.1 reply self.new) }
        ensures counts { CountsStay self.old self.new }
    {
        self.unstored.chains.known();
        self.go_past(alloc, at, read)?;
        match self.page(alloc, at, count) {
            Ok((lines, more)) => Ok(self.give(at, lines, more)),
            Err(_) => Err(AllocError),
        }
    }

    // A reader goes on past the row cache, over what was read of the tables of its opening; its snapshot of the row cache is taken back. The only error is want of memory: then it is as it was.
    fn go_past(&mut self, alloc: Global, at: usize, read: Mutation) -> Result<(), AllocError>
        requires { (id : ℕ) × (files : Option Files) × (m : State) × ⟦<Shard as Machine>⟧.stands files self.old m × (position (λ reader. reader.0 == id) self.old.readers.items ≡ Some at) }
        ensures past { (id : ℕ) (files : Option Files) (m : State) (o : ℕ × PartitionReader) (said : List Change) → ⟦<Shard as Machine>⟧.stands files self.old m → position (λ reader. reader.0 == id) self.old.readers.items ≡ Some at → get_or self.old.readers.items at o ≡ o → IsSaidByFirst m o.1.tables o.1.key said → IsJoinOf read said → IsMutation read → ChangeFits self.old.folder.schema read →
            OnOk result (IsGoneOn ⟦<Shard as Machine>⟧.stands files id m self.new) }
        ensures err { OnErr result (StandsForTheSame ⟦<Shard as Machine>⟧.stands self.old self.new × IsPagedBeside at self.old self.new) }
        ensures gone { (o : ℕ × PartitionReader) → get_or self.old.readers.items at o ≡ o → OnOk result (IsGonePastAt at o self.old self.new) }
        ensures loses { LosesWhereCrowded 131072 0 self.old.unstored.chains self.new.unstored.chains }
    {
        a_reader_stays();
        what_is_told_anew();
        what_leaves_the_chains_of_both_leaves_their_writes();
        let reader = &mut self.readers[at].1;
        let chains = &mut self.unstored.chains;
        let snap = reader.reader.go_past(alloc, chains, read, &reader.key)?;
        give_back(chains, snap);
        Ok(())
    }
}

// The place of the reader with an id.
pub(crate) fn place_of(readers: &[(u32, PartitionReader)], id: u32) -> Option<usize>
    ensures { result ≡ position (λ reader. reader.0 == id) readers.now }
{
    readers.iter().position(|reader| reader.0 == id)
}

// The reply to an opening or a read, where what the tables say could not be read.
pub(crate) fn not_read(error: StreamErr) -> Result<Reply, AllocError>
    ensures { IfOk result (TellsOf error) }
{
    match error {
        StreamErr::Fault => Ok(Reply::Refused(Refusal::ReadFault)),
        StreamErr::Damaged { file, offset } => {
            Ok(Reply::Refused(Refusal::Damaged { file, offset }))
        }
        StreamErr::NoMemory => Err(AllocError),
    }
}

// Whether a reader may put what it misses into the row cache: it has a snapshot of that, and no table behind those of its opening lists its partition, so what they say is what all tables say.
fn may_refill(folder: &Folder, reader: &PartitionReader) -> bool
    ensures held { result ≡ true → IsSome (cached_of reader.now) }
    ensures latest { result ≡ true → (files : Option Files) (m : State) (later : List TableInfo) (said : List Change) → IsOver files folder.now.schema folder.now.infos m → folder.now.infos ≡ reader.now.tables ++ later → IsSaidByFirst m reader.now.tables reader.now.key said → IsSaid m reader.now.key said }
    ensures no { result ≡ false → MayRefill folder.now.infos reader.now → ⊥ }
{
    reader.reader.cached_chain().is_some() && !folder.lists_since(&reader.tables, &reader.key)
}
