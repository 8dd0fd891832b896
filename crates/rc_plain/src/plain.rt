//! The plain program.

ghost use Rattle.std.specs.Prelude.{◌≡◌, ◌+◌, ◌*◌, ◌≤◌, ◌++◌, ℕ, List, Option, Some, IsTrue, MatchBool, length, IfErr, IfOk, IfSome, OnErr};
ghost use Rattle.std.specs.FinMap.{values};
ghost use Rattle.rc_outside.specs.Files.{HoldsSameFiles, Files};
ghost use Rattle.rc_outside.specs.Faults.{Rose, RisesIfFault};
ghost use Rattle.rc_mutation.specs.declared.mutations.Mutation.{Mutation};
ghost use Rattle.rc_mutation.specs.Source.{changes_to, IsJoinOf};
ghost use Rattle.rc_query.specs.Answer.{answer};
ghost use Rattle.rc_stream.specs.Causes.{Caused};
ghost use Rattle.rc_tfile.specs.declared.info.TableInfo.{TableInfo};
ghost use Rattle.rc_tables.specs.Tables.{IsDamageOf, listing};
ghost use Rattle.rc_lines.specs.Fits.{CommandFits};
ghost use Rattle.rc_machine.specs.State.{State, Table, opened_state};
ghost use Rattle.rc_machine.specs.Tables.{AreListed, AreTables};
ghost use Rattle.rc_machine.specs.Built.{is_built};
ghost use Rattle.rc_machine.specs.Serving.{FaultsAreCounted, OnFaulty, Stops, Takes, most_asks, checks_of};
ghost use Rattle.rc_folder.specs.Counting.{figures_in};
ghost use Rattle.rc_folder.specs.Tabled.{IsNextNumber};
ghost use Rattle.rc_plain.specs.calls.Answering.{IsAnswer};
ghost use Rattle.rc_plain.specs.Stands.{PlainStands, plain_figures};
ghost use Rattle.rc_plain.specs.calls.Counting.{AreSameCounts};
ghost use Rattle.rc_plain.specs.calls.Storing.{IsFlushKept, sealed_all};

use crate::memtable::Memtable;
use crate::readers::{Rest, place_of};
use rc_folder::{Answered, Folder, MOST_READERS, Machine, OpenErr};
use rc_lines::{Command, Figures, Refusal, Reply};
use rc_mutation::{Mutation, Write};
use rc_outside::Store;
use rc_position::{PartKey, Slice};
use rc_query::{Lines, answer_of};
use rc_schema::Schema;
use rc_stream::StreamErr;
use rc_tfile::WriteErr;
use std::alloc::{AllocError, Global};
use std::marker::Model;
use std::mem;

/// A plain, slow program that takes one step of the machine after another. It knows of each table of the folder where the directory
/// lists its partitions, keeps the writes that stand in no table, and makes the whole answer of a reader when it is opened. A contract
/// sees these as `Keeping`.
#[derive(Drop)]
pub struct Plain {
    folder: Folder,
    sealed: Memtable,
    active: Memtable,
    readers: Vec<(u32, Rest)>,
    segments: u32,
    answered: Answered,
    asked: u64,
}

impl Model for Plain {
    ghost use Rattle.rc_plain.specs.Stands.{Keeping};

    ghost Value = { Keeping };

    ghost view = { λ m. record { schema = m.folder.schema; infos = m.folder.infos; sealed = m.sealed; active = m.active; readers = m.readers.items; segments = m.segments; answered = m.answered; asked = m.asked } };
}

impl Machine for Plain {
    ghost use Rattle.rc_folder.specs.Tabled.{Tabled};
    ghost use Rattle.rc_plain.specs.Stands.{PlainStands, plain_figures};

    ghost stands = { PlainStands };

    ghost folder = { λ k. record { schema = k.schema; infos = k.infos } };

    ghost figures = { plain_figures };

    ghost over = { λ told k m s. s.over };

    fn open<W: Store>(
        alloc: Global,
        store: &mut W,
        schema: Schema,
        segments: u32,
    ) -> Result<Self, OpenErr> {
        let folder = Folder::open(alloc, store, schema)?;
        Ok(Plain {
            folder,
            sealed: Memtable::new(alloc),
            active: Memtable::new(alloc),
            readers: Vec::new(alloc),
            segments,
            answered: Answered::none(),
            asked: store.asks(),
        })
    }

    fn schema(&self) -> &Schema {
        self.folder.schema()
    }

    fn serve<W: Store>(
        &mut self,
        alloc: Global,
        store: &mut W,
        command: &Command,
    ) -> Result<Reply, AllocError> {
        let before = store.asks();
        let reply = self.step(alloc, store, command)?;
        self.answered = self.answered.count(command, &reply, before, store.asks());
        Ok(reply)
    }

    fn close(self) {}
}

impl Plain {
    // What it tells of itself, where the store was asked so often: all of its budget is free, and it has no cache.
    fn figures<W: Store>(&self, store: &W) -> Figures
        ensures { result ≡ plain_figures self.now (W.asks store.now) }
    {
        Figures {
            segments: 0,
            free: u64::from(self.segments),
            objects: 0,
            live: 0,
            partitions: 0,
            rows: 0,
            dummies: 0,
            hits: self.answered.hits,
            misses: self.answered.misses,
            evicted: 0,
            moved: 0,
            skipped: 0,
            asks: store.asks().saturating_sub(self.asked),
        }
    }

    // Takes the step of a command, without counting it.
    fn step<W: Store>(
        &mut self,
        alloc: Global,
        store: &mut W,
        command: &Command,
    ) -> Result<Reply, AllocError>
        requires fits { CommandFits self.old.schema command.now }
        requires built { IsTrue (is_built command.now) }
        requires stands { (m : State) × PlainStands (W.files store.old) self.old m }
        ensures step { IfOk result (λ reply. Takes PlainStands (W.files store.old) self.old command.now reply (W.files store.new) self.new) }
        ensures err { OnErr result (Stops PlainStands (W.files store.old) self.old command.now (W.files store.new) self.new) }
        ensures faults { FaultsAreCounted result (W.faults store.old) (W.faults store.new) }
        ensures asks { (m : State) → PlainStands (W.files store.old) self.old m → W.asks store.new ≤ W.asks store.old + most_asks m command.now }
        ensures counts { AreSameCounts self.old self.new }
        ensures told { IfOk result (λ reply. IfSome (figures_in command.now reply) (λ figures. figures ≡ plain_figures self.old (W.asks store.old))) }
    {
        match command {
            Command::Nothing => Ok(Reply::Nothing),
            Command::SetSchema(schema) => Ok(self.set_schema(schema)),
            Command::Put(write) => self.put(alloc, write),
            Command::OpenRead { id, key, slice } => self.open_read(alloc, store, *id, key, slice),
            Command::Read { id, count } => self.read(alloc, *id, *count),
            Command::Close { id } => Ok(self.close_reader(*id)),
            Command::Flush => self.flush(alloc, store),
            Command::Evict { .. } | Command::Compact { .. } => Ok(Reply::Fine),
            Command::Stats => Ok(Reply::Stats(self.figures(store))),
            Command::FlushBegin | Command::FlushStep { .. } | Command::Clean { .. } => {
                unreachable!()
            }
        }
    }

    // The reply to a schema line: fine where it is the same schema again.
    fn set_schema(&self, schema: &Schema) -> Reply
        ensures step { (files : Option Files) → Takes PlainStands files self.now (Command.SetSchema schema.now) result files self.now }
        ensures faultless { (n : ℕ) → OnFaulty result (Rose n n) }
    {
        if self.folder.schema().is_same(schema) {
            Reply::Fine
        } else {
            Reply::Refused(Refusal::SchemaDiffers)
        }
    }

    // Puts a write behind the others.
    fn put(&mut self, alloc: Global, write: &Write) -> Result<Reply, AllocError>
        requires { CommandFits self.old.schema (Command.Put write.now) }
        ensures step { (files : Option Files) → IfOk result (λ reply. Takes PlainStands files self.old (Command.Put write.now) reply files self.new) }
        ensures fine { IfOk result (λ reply. reply ≡ Reply.Fine) }
        ensures err { OnErr result (self.new ≡ self.old) }
        ensures counts { AreSameCounts self.old self.new }
    {
        let write = write.copy(alloc)?;
        self.active.put(alloc, write)?;
        Ok(Reply::Fine)
    }

    // Opens a reader: its answer is fixed now.
    fn open_read<W: Store>(
        &mut self,
        alloc: Global,
        store: &mut W,
        id: u32,
        key: &PartKey,
        slice: &Slice,
    ) -> Result<Reply, AllocError>
        requires { (m : State) × PlainStands (W.files store.old) self.old m }
        ensures step { IfOk result (λ reply. Takes PlainStands (W.files store.old) self.old (Command.OpenRead id key.now slice.now) reply (W.files store.new) self.new) }
        ensures err { OnErr result (self.new ≡ self.old) }
        ensures faults { FaultsAreCounted result (W.faults store.old) (W.faults store.new) }
        ensures store { HoldsSameFiles W.files W.building store.old store.new }
        ensures asks { W.asks store.new ≤ W.asks store.old + 2 * listing key.now self.old.infos }
        ensures counts { AreSameCounts self.old self.new }
    {
        if place_of(self.readers.as_slice(), id).is_some() {
            return Ok(Reply::Refused(Refusal::ReaderInUse));
        }
        if self.readers.len() >= MOST_READERS {
            return Ok(Reply::Refused(Refusal::TooManyReaders));
        }
        match self.answer(alloc, store, key, slice) {
            Ok(lines) => {
                self.readers.push((id, Rest::new(lines)))?;
                Ok(Reply::Fine)
            }
            Err(StreamErr::Fault) => Ok(Reply::Refused(Refusal::ReadFault)),
            Err(StreamErr::Damaged { file, offset }) => {
                Ok(Reply::Refused(Refusal::Damaged { file, offset }))
            }
            Err(StreamErr::NoMemory) => Err(AllocError),
        }
    }

    // The lines of the answer in a slice to what the tables, and the writes that stand in none, say of the partition of a key.
    fn answer<W: Store>(
        &self,
        alloc: Global,
        store: &mut W,
        key: &PartKey,
        slice: &Slice,
    ) -> Result<Lines, StreamErr>
        requires { (m : State) × PlainStands (W.files store.old) self.now m }
        ensures lines { IfOk result (λ lines. (m : State) → PlainStands (W.files store.old) self.now m → IsAnswer m key.now slice.now lines) }
        ensures damaged { IfErr result (IsDamageOf self.now.schema key.now self.now.infos) }
        ensures cause { Caused result (W.files store.old) (W.faults store.old) (W.faults store.new) }
        ensures store { HoldsSameFiles W.files W.building store.old store.new }
        ensures asks { W.asks store.new ≤ W.asks store.old + 2 * listing key.now self.now.infos }
    {
        let change = self.folder.read(alloc, store, key)?;
        match self.answer_with(alloc, change, key, slice) {
            Ok(lines) => Ok(lines),
            Err(_) => Err(StreamErr::NoMemory),
        }
    }

    // The lines of the answer in a slice to some changes of the partition of a key, of which their join is given, and the writes to it
    // that stand in no table.
    fn answer_with(
        &self,
        alloc: Global,
        change: Mutation,
        key: &PartKey,
        slice: &Slice,
    ) -> Result<Lines, AllocError>
        ensures { (changes : List Mutation) → IsJoinOf change changes
            → IfOk result (λ lines. lines ≡ answer (changes ++ changes_to key.now (self.now.sealed ++ self.now.active)) slice.now) }
    {
        let mut change = change;
        let sealed = self.sealed.said(alloc, key)?;
        change.join(alloc, &sealed)?;
        let active = self.active.said(alloc, key)?;
        change.join(alloc, &active)?;
        answer_of(alloc, &change, slice)
    }

    // Gives a reader's next lines.
    fn read(&mut self, alloc: Global, id: u32, count: u32) -> Result<Reply, AllocError>
        ensures step { (files : Option Files) → IfOk result (λ reply. Takes PlainStands files self.old (Command.Read id count) reply files self.new) }
        ensures faultless { (n : ℕ) → IfOk result (λ reply. OnFaulty reply (Rose n n)) }
        ensures err { OnErr result (self.new ≡ self.old) }
        ensures counts { AreSameCounts self.old self.new }
    {
        match place_of(self.readers.as_slice(), id) {
            None => Ok(Reply::Refused(Refusal::NoReader)),
            Some(at) => {
                let reader = &mut self.readers[at];
                let (lines, more) = reader.1.give(alloc, count)?;
                Ok(Reply::Given { lines, more })
            }
        }
    }

    // Closes a reader.
    fn close_reader(&mut self, id: u32) -> Reply
        ensures step { (files : Option Files) → Takes PlainStands files self.old (Command.Close id) result files self.new }
        ensures faultless { (n : ℕ) → OnFaulty result (Rose n n) }
        ensures counts { AreSameCounts self.old self.new }
    {
        if place_of(self.readers.as_slice(), id).is_none() {
            return Reply::Refused(Refusal::NoReader);
        }
        self.readers.retain(|reader| reader.0 != id);
        Reply::Fine
    }

    // Writes the sealed writes as the next table; all writes are sealed before, unless some are.
    fn flush<W: Store>(&mut self, alloc: Global, store: &mut W) -> Result<Reply, AllocError>
        requires { (m : State) × PlainStands (W.files store.old) self.old m }
        ensures step { IfOk result (λ reply. Takes PlainStands (W.files store.old) self.old Command.Flush reply (W.files store.new) self.new) }
        ensures err { OnErr result (Stops PlainStands (W.files store.old) self.old Command.Flush (W.files store.new) self.new) }
        ensures faults { FaultsAreCounted result (W.faults store.old) (W.faults store.new) }
        ensures asks { W.asks store.new ≡ W.asks store.old }
        ensures counts { AreSameCounts self.old self.new }
    {
        if self.is_flushed() {
            return Ok(Reply::Refused(Refusal::NothingToFlush));
        }
        match self.folder.next_number() {
            None => Ok(Reply::Refused(Refusal::NoNumber)),
            Some(number) => {
                self.seal(alloc);
                self.write_sealed(alloc, store, number)
            }
        }
    }

    // Whether all writes stand in tables.
    fn is_flushed(&self) -> bool
        ensures { MatchBool result (length self.now.sealed + length self.now.active ≡ 0) (1 ≤ length self.now.sealed + length self.now.active) }
    {
        self.sealed.is_empty() && self.active.is_empty()
    }

    // Seals the writes, unless some are.
    fn seal(&mut self, alloc: Global)
        ensures { self.new ≡ sealed_all self.old }
    {
        if self.sealed.is_empty() {
            self.sealed = mem::replace(&mut self.active, Memtable::new(alloc));
        }
    }

    // Writes the sealed writes as a table of this number, which is the next one.
    fn write_sealed<W: Store>(
        &mut self,
        alloc: Global,
        store: &mut W,
        number: u32,
    ) -> Result<Reply, AllocError>
        requires stands { (m : State) × PlainStands (W.files store.old) self.old m }
        requires number { IsNextNumber self.old.infos (Some number) }
        ensures written { IfOk result (IsFlushKept (W.files store.old) self.old number (W.files store.new) self.new) }
        ensures err { OnErr result ((self.new ≡ self.old) × (W.files store.new ≡ W.files store.old)) }
        ensures faults { FaultsAreCounted result (W.faults store.old) (W.faults store.new) }
        ensures asks { W.asks store.new ≡ W.asks store.old }
        ensures counts { AreSameCounts self.old self.new }
    {
        let parts = self.sealed.parts(alloc)?;
        match self.folder.add(alloc, store, number, parts.as_slice()) {
            Ok(()) => {
                self.sealed = Memtable::new(alloc);
                Ok(Reply::Fine)
            }
            Err(error) => not_written(error),
        }
    }
}

// The reply to a flush that the store refused.
fn not_written(error: WriteErr) -> Result<Reply, AllocError>
    ensures { IfOk result (λ reply. (error ≡ WriteErr.Fault) × (reply ≡ Reply.Refused Refusal.WriteFault)) }
{
    match error {
        WriteErr::Fault => Ok(Reply::Refused(Refusal::WriteFault)),
        WriteErr::NoMemory => Err(AllocError),
    }
}
