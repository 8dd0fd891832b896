//! The program's server: a machine that the first schema line opens.

ghost use Rattle.std.specs.Prelude.{◌≡◌, ℕ, List, ◌++◌, Option, None, Some, Ok, OnOk, IfOk, decimal, IsTrue};
ghost use Rattle.std.specs.Option.{option_copied};
ghost use Rattle.rc_lines.specs.declared.commands.Command.TheVariants.{SetSchema};
ghost use Rattle.rc_lines.specs.Grammar.{parse, ReadsLine};
ghost use Rattle.rc_outside.specs.Files.{Files};
ghost use Rattle.rc_machine.specs.State.{State};
ghost use Rattle.rc_machine.specs.Built.{is_built};
ghost use Rattle.rc_shell.specs.calls.Feed.{Answered};
ghost use Rattle.rc_machine.specs.Built.{served_meaning};
ghost use Rattle.rc_shell.specs.Step.{Moment, LineStep, EndsRun, LeavesStore, bad_table};
ghost use Rattle.rc_shell.specs.Late.{IsBudget, KeepsMoment, ServesAt, WaitsAt};
ghost use Rattle.rc_shell.specs.calls.Late.{schema_set};
ghost use Rattle.rc_shell.specs.calls.Standing.{MayClose};

use crate::server::Server;
use crate::status::Ending;
use itoa::Buffer;
use rc_folder::{Machine, OpenErr, is_built};
use rc_lines::{Command, LineErr, Refusal, Reply, print_refusal, print_reply, read_line};
use rc_outside::Store;
use rc_schema::Schema;
use std::alloc::{AllocError, Global};
use std::mem;

/// The last line of a run whose store failed while its tables were checked.
const STORE_FAULT: &[u8] = b"! store fault\n";

/// A machine that the first schema line opens over the store, with a budget of memory in segments.
pub(crate) struct LateMachine<M> {
    machine: Option<M>,
    segments: u32,
}

impl<M: Machine> Server for LateMachine<M> {
    ghost use Rattle.rc_shell.specs.Late.{KeepsMoment};
    ghost use Rattle.rc_shell.specs.calls.Standing.{MayClose};
    ghost use Rattle.rc_shell.specs.laws.Late.{stood_closes, stood_leaves};

    ghost stands = { λ server store now. KeepsMoment M.stands M.figures server.segments server.machine store now };

    ghost closes = { λ server. MayClose M.stands server.machine };

    ghost stood = { λ server. stood_closes M.stands M.figures server.segments server.machine };

    ghost leaves = { λ server. stood_leaves M.stands M.figures M.folder M.over server.segments server.machine };

    fn answer<W: Store>(
        &mut self,
        alloc: Global,
        store: &mut W,
        line: &[u8],
        text: &mut Vec<u8>,
    ) -> Result<Option<Ending>, AllocError> {
        match &mut self.machine {
            Some(machine) => serve(alloc, machine, store, line, text),
            None => begin(alloc, &mut self.machine, self.segments, store, line, text),
        }
    }

    fn close(self) {
        let LateMachine {
            machine,
            segments: _segments,
        } = self;
        match machine {
            Some(machine) => machine.close(),
            None => {}
        }
    }
}

impl<M> LateMachine<M> {
    /// Before the first line.
    pub(crate) fn new(segments: u32) -> Self
        ensures machine { result.machine ≡ None }
        ensures segments { result.segments ≡ segments }
    {
        LateMachine {
            machine: None,
            segments,
        }
    }
}

/// The command of a line, under the schema that was taken, where the program serves it: a line of any other command is a bad line.
fn read_served(alloc: Global, schema: Option<&Schema>, line: &[u8]) -> Result<Command, LineErr>
    ensures reads { ReadsLine result (served_meaning (parse (option_copied schema.entry) line.now)) }
    ensures built { IfOk result (λ command. IsTrue (is_built command)) }
{
    match read_line(alloc, schema, line) {
        Ok(command) => {
            if is_built(&command) {
                Ok(command)
            } else {
                Err(LineErr::Refused(Refusal::BadLine))
            }
        }
        Err(error) => Err(error),
    }
}

/// Answers a line before a schema line was taken.
fn begin<M: Machine, W: Store>(
    alloc: Global,
    place: &mut Option<M>,
    segments: u32,
    store: &mut W,
    line: &[u8],
    text: &mut Vec<u8>,
) -> Result<Option<Ending>, AllocError>
    requires free { place.old ≡ None }
    requires budget { IsBudget segments }
    ensures answered { (old : Moment) → WaitsAt segments (W.files store.old, W.faults store.old, W.asks store.old) old →
        Answered LineStep EndsRun LeavesStore old line.now (KeepsMoment M.stands M.figures segments place.new (W.files store.new, W.faults store.new, W.asks store.new)) (W.files store.new, W.faults store.new, W.asks store.new) text.old.items text.new.items result }
    ensures closes { MayClose M.stands place.new }
{
    match read_served(alloc, None, line) {
        Ok(command) => match schema_set(command) {
            Some(schema) => open(alloc, place, segments, store, schema, text),
            None => Ok(None),
        },
        Err(LineErr::Refused(early)) => {
            print_refusal(alloc, early, text)?;
            Ok(None)
        }
        Err(LineErr::NoMemory) => Err(AllocError),
    }
}

/// The schema of a schema line.
fn schema_set(command: Command) -> Option<Schema>
    ensures { result ≡ schema_set command }
{
    match command {
        Command::SetSchema(schema) => Some(schema),
        Command::Nothing
        | Command::Put(_)
        | Command::OpenRead { .. }
        | Command::Read { .. }
        | Command::Close { .. }
        | Command::Flush
        | Command::FlushBegin
        | Command::FlushStep { .. }
        | Command::Evict { .. }
        | Command::Compact { .. }
        | Command::Clean { .. }
        | Command::Stats => None,
    }
}

/// Opens the machine by the first schema line.
fn open<M: Machine, W: Store>(
    alloc: Global,
    place: &mut Option<M>,
    segments: u32,
    store: &mut W,
    schema: Schema,
    text: &mut Vec<u8>,
) -> Result<Option<Ending>, AllocError>
    requires free { place.old ≡ None }
    requires budget { IsBudget segments }
    ensures answered { (old : Moment) (line : List ℕ) → WaitsAt segments (W.files store.old, W.faults store.old, W.asks store.old) old → parse None line ≡ Ok (SetSchema schema) →
        Answered LineStep EndsRun LeavesStore old line (KeepsMoment M.stands M.figures segments place.new (W.files store.new, W.faults store.new, W.asks store.new)) (W.files store.new, W.faults store.new, W.asks store.new) text.old.items text.new.items result }
    ensures closes { MayClose M.stands place.new }
{
    match M::open(alloc, store, schema, segments) {
        Ok(machine) => match print_reply(alloc, machine.schema(), &Reply::Fine, text) {
            Ok(()) => {
                put(place, machine);
                Ok(None)
            }
            Err(error) => {
                machine.close();
                Err(error)
            }
        },
        Err(OpenErr::Damaged { table, offset }) => {
            print_damaged(table, offset, text)?;
            Ok(Some(Ending::BadTable))
        }
        Err(OpenErr::OtherSchema { table }) => {
            print_other_schema(table, text)?;
            Ok(Some(Ending::BadTable))
        }
        Err(OpenErr::Fault) => {
            text.extend_from_slice(STORE_FAULT)?;
            Ok(Some(Ending::StoreFault))
        }
        Err(OpenErr::NoMemory) => Err(AllocError),
    }
}

/// Puts a machine where none is.
fn put<M>(place: &mut Option<M>, machine: M)
    requires { place.old ≡ None }
    ensures { place.new ≡ Some machine }
{
    match mem::replace(place, Some(machine)) {
        None => {}
        Some(_) => unreachable!(),
    }
}

/// Appends a decimal number.
fn print_number(number: u64, text: &mut Vec<u8>) -> Result<(), AllocError>
    ensures { OnOk result (text.new.items ≡ text.old.items ++ decimal number) }
{
    let mut buffer = Buffer::new();
    text.extend_from_slice(buffer.format(number).as_bytes())
}

/// Appends the last line of a run that met a damaged table.
#[tactic(auto, unfolding(crate::specs::Step::bad_table))]
fn print_damaged(table: u32, offset: u64, text: &mut Vec<u8>) -> Result<(), AllocError>
    ensures { OnOk result (text.new.items ≡ text.old.items ++ bad_table table (Some offset)) }
{
    text.extend_from_slice(b"! table ")?;
    print_number(u64::from(table), text)?;
    text.extend_from_slice(b" damaged at ")?;
    print_number(offset, text)?;
    text.extend_from_slice(b"\n")
}

/// Appends the last line of a run that met a table of another schema.
#[tactic(auto, unfolding(crate::specs::Step::bad_table))]
fn print_other_schema(table: u32, text: &mut Vec<u8>) -> Result<(), AllocError>
    ensures { OnOk result (text.new.items ≡ text.old.items ++ bad_table table None) }
{
    text.extend_from_slice(b"! table ")?;
    print_number(u64::from(table), text)?;
    text.extend_from_slice(b" other schema\n")
}

/// Answers a line once the machine is open.
fn serve<M: Machine, W: Store>(
    alloc: Global,
    machine: &mut M,
    store: &mut W,
    line: &[u8],
    text: &mut Vec<u8>,
) -> Result<Option<Ending>, AllocError>
    requires { (m : State) × M.stands (W.files store.old) machine.old m }
    ensures answered { (old : Moment) → ServesAt M.stands M.figures machine.old (W.files store.old, W.faults store.old, W.asks store.old) old →
        Answered LineStep EndsRun LeavesStore old line.now (ServesAt M.stands M.figures machine.new (W.files store.new, W.faults store.new, W.asks store.new)) (W.files store.new, W.faults store.new, W.asks store.new) text.old.items text.new.items result }
    ensures closes { (told : Option Files) × (m : State) × M.stands told machine.new m }
{
    match read_served(alloc, Some(machine.schema()), line) {
        Ok(command) => {
            let reply = machine.serve(alloc, store, &command)?;
            print_reply(alloc, machine.schema(), &reply, text)?;
            Ok(None)
        }
        Err(LineErr::Refused(refusal)) => {
            print_refusal(alloc, refusal, text)?;
            Ok(None)
        }
        Err(LineErr::NoMemory) => Err(AllocError),
    }
}
