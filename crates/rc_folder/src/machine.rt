//! What serves the machine over a folder of tables.

ghost use Rattle.std.specs.Prelude.{◌≡◌, ◌+◌, ◌≤◌, ℕ, List, Option, IsTrue, IfErr, IfOk, IfSome, OnErr};
ghost use Rattle.std.specs.FinMap.{values};
ghost use Rattle.rc_outside.specs.Files.{Files, HoldsSameFiles};
ghost use Rattle.rc_outside.specs.Faults.{RisesIfFault};
ghost use Rattle.rc_tfile.specs.declared.info.TableInfo.{TableInfo};
ghost use Rattle.rc_lines.specs.Fits.{CommandFits};
ghost use Rattle.rc_lines.specs.declared.commands.Figures.{Figures};
ghost use Rattle.rc_machine.specs.Built.{is_built};
ghost use Rattle.rc_machine.specs.Serving.{FaultsAreCounted, Stops, Takes, checks_of, most_asks};
ghost use Rattle.rc_machine.specs.Standing.{IsOver};
ghost use Rattle.rc_machine.specs.State.{State, Table, opened_state};
ghost use Rattle.rc_machine.specs.Tables.{AreListed, AreTables};
ghost use Rattle.rc_folder.specs.Counting.{AreCounted, AreFresh};
ghost use Rattle.rc_folder.specs.Opening.{IsOpeningRefused, OnOpenFault};
ghost use Rattle.rc_folder.specs.Tabled.{Tabled};

use crate::opening::OpenErr;
use rc_lines::{Command, Reply};
use rc_outside::Store;
use rc_schema::Schema;
use std::alloc::{AllocError, Global};

/// Something that serves the machine over a folder of tables, one step after another. It may hold what has to be given back, so it is
/// closed at its end.
pub trait Machine: Sized {
    /// Over a store with these files it stands for the state.
    ghost stands: { Option Files → Self → State → Type 0 };

    /// The schema, and what it knows of each table.
    ghost folder: { Self → Tabled };

    /// What it tells of itself, where the store was asked so often.
    ghost figures: { Self → ℕ → Figures };

    /// The machine over a folder of tables of a schema, each of which is checked, with a budget of so many segments: it stands for the
    /// state in which the machine is opened over them. `OpenErr::Damaged` and `OpenErr::OtherSchema` name the first file that is no table
    /// of the schema; `OpenErr::Fault` comes when the store fails, and only then; `OpenErr::NoMemory` when memory is refused.
    fn open<W: Store>(
        alloc: Global,
        store: &mut W,
        schema: Schema,
        segments: u32,
    ) -> Result<Self, OpenErr>
        requires few { segments ≤ 4096 }
        requires some { 4 ≤ segments }
        ensures stands { IfOk result (λ machine. (tables : List Table) × (infos : List TableInfo) × AreTables (W.files store.old) schema tables × AreListed (W.files store.old) schema tables infos
            × stands (W.files store.new) machine (opened_state segments (W.files store.old) schema tables infos)) }
        ensures figures { IfOk result (λ machine. AreFresh (W.asks store.new) (figures machine)) }
        ensures refused { IfErr result (IsOpeningRefused (W.files store.old) schema) }
        ensures faults { RisesIfFault OnOpenFault result (W.faults store.old) (W.faults store.new) }
        ensures store { HoldsSameFiles W.files W.building store.old store.new }
        ensures asks { IfSome (W.files store.old) (λ told. W.asks store.new ≤ W.asks store.old + checks_of (values told)) };

    /// The schema of the tables.
    fn schema(&self) -> &Schema
        ensures { result.now ≡ (folder self.now).schema };

    /// Takes the step of a command that fits the schema and is one of those that are built, and gives its reply, which may be a refusal;
    /// what it tells of itself goes on from there. The only error is want of memory, which leaves the state as it was, but that a flush may
    /// have sealed the writes, and a read may have told its reader anew what the tables say.
    fn serve<W: Store>(
        &mut self,
        alloc: Global,
        store: &mut W,
        command: &Command,
    ) -> Result<Reply, AllocError>
        requires fits { CommandFits (folder self.old).schema command.now }
        requires built { IsTrue (is_built command.now) }
        requires stands { (m : State) × stands (W.files store.old) self.old m }
        ensures step { IfOk result (λ reply. Takes stands (W.files store.old) self.old command.now reply (W.files store.new) self.new) }
        ensures err { OnErr result (Stops stands (W.files store.old) self.old command.now (W.files store.new) self.new) }
        ensures faults { FaultsAreCounted result (W.faults store.old) (W.faults store.new) }
        ensures asks { (m : State) → stands (W.files store.old) self.old m → W.asks store.new ≤ W.asks store.old + most_asks m command.now }
        ensures figures { IfOk result (λ reply. AreCounted command.now reply (W.asks store.old) (W.asks store.new) (figures self.old) (figures self.new)) };

    /// Lets it go, with what it holds.
    fn close(self)
        requires { (told : Option Files) × (m : State) × stands told self m };

    /// The machine that it stands for is one over the folder, of this schema, and over what is known of the tables.
    ghost over: { (told : Option Files) (k : Self) (m : State) → stands told k m → IsOver told (folder k).schema (folder k).infos m };
}
