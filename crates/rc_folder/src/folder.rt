//! The tables of a folder, of one schema.

ghost use Rattle.std.specs.Prelude.{◌≡◌, ◌+◌, ◌*◌, ◌≤◌, ◌<◌, ◌++◌, [], ◌∷◌, true, false, ℕ, List, Option, All, IfErr, IfOk, IfSome, OnErr, OnOk, drop, length};
ghost use Rattle.std.specs.List.{AllByRecursion};
ghost use Rattle.std.specs.FinMap.{values};
ghost use Rattle.rc_outside.specs.Files.{Files, HoldsSameFiles, IsNoFile};
ghost use Rattle.rc_outside.specs.Faults.{RisesIfFault};
ghost use Rattle.rc_mutation.specs.declared.mutations.Mutation.{Mutation};
ghost use Rattle.rc_mutation.specs.Source.{IsJoinOf, IsMutation};
ghost use Rattle.rc_stream.specs.Causes.{Caused};
ghost use Rattle.rc_tfile.specs.declared.info.TableInfo.{TableInfo};
ghost use Rattle.rc_tfile.specs.Info.{info_of};
ghost use Rattle.rc_tfile.specs.Items.{IsItem};
ghost use Rattle.rc_tfile.specs.Stored.{OnWriteFault};
ghost use Rattle.rc_tfile.specs.TableText.{PartsFit, whole_table};
ghost use Rattle.rc_tables.specs.Tables.{IsDamageOf, IsSomeJoin, listing};
ghost use Rattle.rc_machine.specs.State.{State, Table};
ghost use Rattle.rc_machine.specs.Tables.{AreListed, AreTables};
ghost use Rattle.rc_machine.specs.Standing.{IsOver};
ghost use Rattle.rc_machine.specs.Steps.{IsSaid};
ghost use Rattle.rc_machine.specs.Serving.{checks_of};
ghost use Rattle.rc_folder.specs.Opening.{IsOpeningRefused, OnOpenFault};
ghost use Rattle.rc_folder.specs.Tabled.{IsSaidByFirst, IsTableAdded, IsNextNumber};

use crate::opening::{OpenErr, check_tables};
use rc_mutation::{Mutation, Partition};
use rc_outside::Store;
use rc_position::PartKey;
use rc_schema::Schema;
use rc_stream::StreamErr;
use rc_tables::{TableSet, lists_behind, read_joined};
use rc_tfile::{WriteErr, plan_table, write_table};
use std::alloc::{AllocError, Global};
use std::marker::Model;

/// The tables of a folder, of one schema: of each is known where its directory lists its partitions, by ascending number. A contract
/// sees these as `Tabled`.
#[derive(Drop)]
pub struct Folder {
    schema: Schema,
    tables: TableSet,
}

impl Model for Folder {
    ghost use Rattle.rc_folder.specs.Tabled.{Tabled};

    ghost Value = { Tabled };

    ghost view = { λ f. record { schema = f.schema; infos = f.tables } };
}

impl Folder {
    /// A folder of tables of a schema, each of which is checked. `OpenErr::Damaged` and `OpenErr::OtherSchema` name the first file that
    /// is no table of the schema; `OpenErr::Fault` comes when the store fails, and only then; `OpenErr::NoMemory` when memory is refused.
    pub fn open<W: Store>(alloc: Global, store: &mut W, schema: Schema) -> Result<Self, OpenErr>
        ensures schema { IfOk result (λ folder. folder.schema ≡ schema) }
        ensures tables { IfOk result (λ folder. (tables : List Table) × AreTables (W.files store.old) schema tables × AreListed (W.files store.old) schema tables folder.infos) }
        ensures refused { IfErr result (IsOpeningRefused (W.files store.old) schema) }
        ensures faults { RisesIfFault OnOpenFault result (W.faults store.old) (W.faults store.new) }
        ensures store { HoldsSameFiles W.files W.building store.old store.new }
        ensures asks { IfSome (W.files store.old) (λ told. W.asks store.new ≤ W.asks store.old + checks_of (values told)) }
    {
        let tables = check_tables(alloc, store, &schema)?;
        Ok(Folder { schema, tables })
    }

    /// The schema of the tables.
    pub fn schema(&self) -> &Schema
        ensures { result.now ≡ self.now.schema }
    {
        &self.schema
    }

    /// What the tables say of the partition of a key, joined: for each state of the machine over these tables, something that they say
    /// there; of each table that lists the key at most one change that a table of the schema can hold. `StreamErr::Fault` comes when the store
    /// fails, `StreamErr::Damaged` where bytes that were read of a file contradict the table that is known, `StreamErr::NoMemory` when memory
    /// is refused.
    pub fn read<W: Store>(
        &self,
        alloc: Global,
        store: &mut W,
        key: &PartKey,
    ) -> Result<Mutation, StreamErr>
        requires { (m : State) × IsOver (W.files store.old) self.now.schema self.now.infos m }
        ensures said { (m : State) → IsOver (W.files store.old) self.now.schema self.now.infos m
            → IfOk result (λ change. (said : List Mutation) × IsSaid m key.now said × IsJoinOf change said) }
        ensures mutation { IfOk result IsMutation }
        ensures some { IfOk result (IsSomeJoin self.now.schema self.now.infos key.now) }
        ensures damaged { IfErr result (IsDamageOf self.now.schema key.now self.now.infos) }
        ensures cause { Caused result (W.files store.old) (W.faults store.old) (W.faults store.new) }
        ensures store { HoldsSameFiles W.files W.building store.old store.new }
        ensures asks { W.asks store.new ≤ W.asks store.old + 2 * listing key.now self.now.infos }
    {
        self.read_first(alloc, store, key, &self.tables)
    }

    /// What the first tables of the folder, those that a reader kept (`tables`), say of the partition of a key, joined; as `read`, but of
    /// these tables alone.
    pub fn read_first<W: Store>(
        &self,
        alloc: Global,
        store: &mut W,
        key: &PartKey,
        first: &TableSet,
    ) -> Result<Mutation, StreamErr>
        requires { (m : State) × (later : List TableInfo) × IsOver (W.files store.old) self.now.schema self.now.infos m × (self.now.infos ≡ first.now ++ later) }
        ensures said { (m : State) (later : List TableInfo) → IsOver (W.files store.old) self.now.schema self.now.infos m → self.now.infos ≡ first.now ++ later
            → IfOk result (λ change. (said : List Mutation) × IsSaidByFirst m first.now key.now said × IsJoinOf change said) }
        ensures mutation { IfOk result IsMutation }
        ensures some { IfOk result (IsSomeJoin self.now.schema first.now key.now) }
        ensures damaged { IfErr result (IsDamageOf self.now.schema key.now first.now) }
        ensures cause { Caused result (W.files store.old) (W.faults store.old) (W.faults store.new) }
        ensures store { HoldsSameFiles W.files W.building store.old store.new }
        ensures asks { W.asks store.new ≤ W.asks store.old + 2 * listing key.now first.now }
    {
        read_joined(alloc, store, first, &self.schema, key)
    }

    /// Whether one of the tables behind the first ones, those that a reader kept (`tables`), lists a key. Where none does, the first ones say
    /// of its partition what all say. Each directory is searched by halves; nothing is read, and no memory is taken.
    pub fn lists_since(&self, first: &TableSet, key: &PartKey) -> bool
        ensures listed { result ≡ true → 0 < listing key.now (drop (length first.now) self.now.infos) }
        ensures none { result ≡ false → (files : Option Files) (m : State) (later : List TableInfo) (said : List Mutation) → IsOver files self.now.schema self.now.infos m → self.now.infos ≡ first.now ++ later → IsSaidByFirst m first.now key.now said → IsSaid m key.now said }
    {
        lists_behind(&self.tables, first, key)
    }

    /// The tables that the folder has now, shared. Tables are only added, so these stay the first ones: who keeps them can read what they
    /// say whatever is flushed meanwhile (`read_first`). No memory is taken. The only error is a full count of those who share them, which
    /// is answered as want of memory.
    pub fn tables(&self) -> Result<TableSet, AllocError>
        ensures { IfOk result (λ tables. tables ≡ self.now.infos) }
    {
        self.tables.share()
    }

    /// The number of the next table: one more than the last one's, or 1; none behind the greatest.
    pub fn next_number(&self) -> Option<u32>
        ensures { IsNextNumber self.now.infos result }
    {
        match self.tables.last_number() {
            None => Some(1),
            Some(number) => number.checked_add(1),
        }
    }

    /// Writes partitions as one more table, of this number. `WriteErr::Fault` comes when the store fails, `WriteErr::NoMemory` when memory
    /// is refused: both leave the folder and the files as they were, since what is known of the table is set out before it is written.
    pub fn add<W: Store>(
        &mut self,
        alloc: Global,
        store: &mut W,
        number: u32,
        parts: &[Partition],
    ) -> Result<(), WriteErr>
        requires fit { PartsFit self.old.schema parts.now }
        requires mutations { All (λ p. IsMutation p.change) parts.now }
        requires fresh { IsNoFile (W.files store.old) number }
        ensures added { OnOk result (IsTableAdded (W.files store.old) self.old number parts.now (W.files store.new) self.new) }
        ensures refused { OnErr result ((self.new ≡ self.old) × (W.files store.new ≡ W.files store.old)) }
        ensures faults { RisesIfFault OnWriteFault result (W.faults store.old) (W.faults store.new) }
        ensures asks { W.asks store.new ≡ W.asks store.old }
    {
        let Ok(tables) = self.tables_with(alloc, number, parts) else {
            return Err(WriteErr::NoMemory);
        };
        match write_table(alloc, parts, &self.schema, store, number) {
            Ok(()) => {
                self.tables = tables;
                Ok(())
            }
            Err(error) => Err(error),
        }
    }

    // The tables, and behind them the one that is written of partitions as file `number`.
    fn tables_with(
        &self,
        alloc: Global,
        number: u32,
        parts: &[Partition],
    ) -> Result<TableSet, AllocError>
        requires { PartsFit self.now.schema parts.now }
        ensures known { IfOk result (λ infos. infos ≡ self.now.infos ++ info_of number self.now.schema parts.now ∷ []) }
        ensures items { IfOk result (λ _. AllByRecursion IsItem (whole_table self.now.schema parts.now)) }
    {
        let info = plan_table(alloc, parts, &self.schema, number)?;
        self.tables.with(alloc, info)
    }
}
