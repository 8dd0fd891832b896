// The trusted edge: the folder of table files. It counts its faults in 64 bits and tells nothing of the files that stand there.
ghost use Rattle.std.specs.Prelude.{◌≡◌, ◌≤◌, ℕ, None, Some, IsSome, IfOk, OnOk, OnErr, option_map, string_bytes};
ghost use Rattle.std.specs.Io.KnownBytes.{Appends};
ghost use Rattle.std.specs.List.Sorted.{IsStrictlyIncreasing};
ghost use Rattle.rc_outside.specs.Faults.{raised_count, RisesIfFailed, RisesIfFault, OnFault, Rose};
ghost use Rattle.rc_outside.specs.Host.{StandsIn, bytes_of_draft};
ghost use Rattle.rc_outside.specs.calls.Host.{Heard, HeardOrFailed, IsToldAs};
ghost use Rattle.rc_outside.specs.calls.TableNames.{table_name};
ghost use Rattle.rc_outside.specs.calls.TableNames.{in_folder, draft_name};

use super::counts::raise;
use super::host::{append_whole, draft_options, read_range, told_as};
use super::names::{FOLDER, draft_path, in_order, table_path, take_name};
use super::sources::Failed;
use super::stores::{Store, StoreErr};
use std::alloc::Global;
use std::fs::{self, File, ReadDir};
use std::io::{self, Error, ErrorKind, Read, Seek, Write};
use std::rt::Files;

/// The most names that a listing of the folder may have.
const MOST_NAMES: u64 = 1 << 32;

/// A file that is being built. It is written under a name of its own, and has the table's name once it is finished.
#[derive(Drop)]
struct Draft<F> {
    file: F,
    written: String,
    finished: String,
}

/// The folder `tables` under the working directory, with a count of its faults. Table `n` is the file `n.tbl`; other
/// names are ignored. It tells nothing of what the folder holds.
#[derive(Drop)]
pub struct FolderStore<'a, R: Files> {
    rt: &'a R,
    building: Option<Draft<R::File>>,
    asks: u64,
    faults: u64,
}

impl<'a, R: Files + AllocGlobal + Clone + Drop> FolderStore<'a, R> {
    /// The folder, as the runtime that `main` has reaches it: nothing is being built, nothing was asked, and there was no
    /// fault so far. The folder need not be there.
    pub fn new(rt: &'a R) -> FolderStore<'a, R>
        ensures building { ⟦<FolderStore<'a, R> as Store>⟧.building result ≡ None }
        ensures faults { ⟦<FolderStore<'a, R> as Store>⟧.faults result ≡ 0 }
        ensures asks { ⟦<FolderStore<'a, R> as Store>⟧.asks result ≡ 0 }
    {
        FolderStore {
            rt,
            building: None,
            asks: 0,
            faults: 0,
        }
    }
}

impl<'a, R: Files + AllocGlobal + Clone + Drop> Store for FolderStore<'a, R> {
    ghost use Rattle.rc_outside.specs.Files.{AreBytesOf, HoldsSameFiles, unless_refused, grown_draft};

    ghost files = { λ _. None };

    ghost building = { λ s. option_map (λ _. None) s.building };

    ghost faults = { λ s. s.faults };

    ghost asks = { λ s. s.asks };

    fn numbers(&mut self, alloc: Global) -> Result<Vec<u32>, StoreErr> {
        heard(&mut self.faults, table_numbers(self.rt, alloc))
    }

    fn size(&mut self, n: u32) -> Result<u64, Failed> {
        heard_or_failed(&mut self.faults, table_size(self.rt, n))
    }

    /// Fills `into` with what stands at the offset in one file, the one that was opened. `Failed` where the host's call fails, also for want of memory,
    /// and where fewer bytes stand there.
    fn read_at(&mut self, n: u32, off: u64, into: &mut [u8]) -> Result<(), Failed>
        ensures place { OnOk result ((file : R.File) × StandsIn ⟦<R::File as Read>⟧.remaining ⟦<R::File as Seek>⟧.stream_position ⟦<R::File as Seek>⟧.stream_bytes file off into.new) }
        ensures bytes { OnOk result (AreBytesOf None n off into.new) }
        ensures building { self.new.building ≡ self.old.building }
        ensures store { HoldsSameFiles ⟦<FolderStore<'a, R> as Store>⟧.files ⟦<FolderStore<'a, R> as Store>⟧.building self.old self.new }
        ensures faults { RisesIfFailed result self.old.faults self.new.faults }
        ensures asks { self.new.asks ≡ raised_count self.old.asks }
    {
        raise(&mut self.asks);
        heard_or_failed(&mut self.faults, read_table(self.rt, n, off, into))
    }

    fn begin(&mut self, alloc: Global, n: u32) -> Result<(), StoreErr> {
        self.building = Some(heard(&mut self.faults, new_draft(self.rt, alloc, n))?);
        Ok(())
    }

    /// Writes the whole piece behind what the draft has. `StoreErr::NoMemory` where the host says so. Where it is refused the draft is removed.
    fn append(&mut self, _alloc: Global, piece: &[u8]) -> Result<(), StoreErr>
        requires { IsSome (⟦<FolderStore<'a, R> as Store>⟧.building self.old) }
        ensures building { let building = ⟦<FolderStore<'a, R> as Store>⟧.building in
            building self.new ≡ unless_refused result (grown_draft (building self.old) piece.now) }
        ensures faults { RisesIfFault OnFault result self.old.faults self.new.faults }
        ensures asks { self.new.asks ≡ self.old.asks }
        ensures whole { let contents = bytes_of_draft ⟦<R::File as Write>⟧.contents in
            OnOk result (Appends (contents self.old.building) (contents self.new.building) piece.now) }
    {
        let Some(mut draft) = self.building.take() else {
            unreachable!()
        };
        match append_whole(&mut draft.file, piece) {
            Ok(()) => {
                self.building = Some(draft);
                Ok(())
            }
            Err(error) => Err(refuse(self.rt, &mut self.faults, draft, error)),
        }
    }

    fn finish(&mut self, _alloc: Global) -> Result<(), StoreErr> {
        let Some(draft) = self.building.take() else {
            unreachable!()
        };
        match fs::rename(self.rt, draft.written.as_str(), draft.finished.as_str()) {
            Ok(()) => Ok(()),
            Err(error) => Err(refuse(self.rt, &mut self.faults, draft, error)),
        }
    }

    fn abandon(&mut self) {
        if let Some(draft) = self.building.take() {
            give_up(self.rt, &mut self.faults, draft);
        }
    }

    fn asks(&self) -> u64 {
        self.asks
    }
}

/// What the host answered, as a store tells it. A fault is counted, and nothing else.
fn heard<T>(faults: &mut u64, answer: io::Result<T>) -> Result<T, StoreErr>
    ensures answer { Heard answer result faults.old faults.new }
    ensures faults { RisesIfFault OnFault result faults.old faults.new }
{
    match answer {
        Ok(value) => Ok(value),
        Err(error) => Err(counted(faults, error)),
    }
}

/// What the host's error is told as. A fault is counted, and nothing else.
fn counted(faults: &mut u64, error: Error) -> StoreErr
    ensures told { IsToldAs error result faults.old faults.new }
    ensures cause { OnFault result (Rose faults.old faults.new) }
    ensures grown { faults.old ≤ faults.new }
{
    match told_as(&error) {
        StoreErr::NoMemory => StoreErr::NoMemory,
        StoreErr::Fault => {
            raise(faults);
            StoreErr::Fault
        }
    }
}

/// What the host answered, where each of its errors is a fault, which is counted.
fn heard_or_failed<T>(faults: &mut u64, answer: io::Result<T>) -> Result<T, Failed>
    ensures answer { HeardOrFailed answer result faults.old faults.new }
    ensures faults { RisesIfFailed result faults.old faults.new }
{
    match answer {
        Ok(value) => Ok(value),
        Err(_) => {
            raise(faults);
            Err(Failed)
        }
    }
}

/// Gives up a draft at an error of the host, and answers what that is told as.
fn refuse<R: Files>(rt: &R, faults: &mut u64, draft: Draft<R::File>, error: Error) -> StoreErr
    ensures told { (removed : ℕ) × (faults.old ≤ removed) × IsToldAs error result removed faults.new }
    ensures cause { OnFault result (Rose faults.old faults.new) }
    ensures grown { faults.old ≤ faults.new }
{
    give_up(rt, faults, draft);
    counted(faults, error)
}

/// Removes what was written of a file that is given up. An error of the host is counted as a fault.
fn give_up<R: Files>(rt: &R, faults: &mut u64, draft: Draft<R::File>)
    ensures { faults.old ≤ faults.new }
{
    if fs::remove_file(rt, draft.written.as_str()).is_err() {
        raise(faults);
    }
}

/// The numbers of the tables in the folder, ascending; none where the folder is not there.
fn table_numbers<R: Files + AllocGlobal + Clone + Drop>(
    rt: &R,
    alloc: Global,
) -> io::Result<Vec<u32>>
    ensures { IfOk result (λ v. IsStrictlyIncreasing v.items) }
{
    match fs::read_dir(rt, FOLDER) {
        Ok(entries) => Ok(in_order(listed_numbers(entries, alloc)?)),
        Err(error) if error.kind() == ErrorKind::NotFound => Ok(Vec::new(alloc)),
        Err(error) => Err(error),
    }
}

/// The numbers of the tables in a listing, in its order. An error too where the listing has more than 2^32 names.
fn listed_numbers<R: Files + Clone + Drop>(
    entries: ReadDir<R, Global>,
    alloc: Global,
) -> io::Result<Vec<u32>> {
    let mut numbers = Vec::new(alloc);
    let mut names = 0;
    for entry in entries {
        if names == MOST_NAMES {
            return Err(Error::new(ErrorKind::Other, "too many names"));
        }
        names += 1;
        take_name(&mut numbers, entry?.file_name())?;
    }
    Ok(numbers)
}

/// The length of table `n`.
fn table_size<R: Files + AllocGlobal>(rt: &R, n: u32) -> io::Result<u64> {
    let path = table_path(rt.alloc(), n)?;
    Ok(fs::metadata(rt, path.as_str())?.len())
}

/// Fills `into` with the bytes of table `n` from the offset on.
fn read_table<R: Files + AllocGlobal>(rt: &R, n: u32, off: u64, into: &mut [u8]) -> io::Result<()>
    ensures { OnOk result ((file : R.File) × StandsIn ⟦<R::File as Read>⟧.remaining ⟦<R::File as Seek>⟧.stream_position ⟦<R::File as Seek>⟧.stream_bytes file off into.new) }
{
    let path = table_path(rt.alloc(), n)?;
    let mut file = File::open(rt, path.as_str())?;
    read_range(&mut file, off, into)
}

/// Makes the folder, where it is not there, and an empty file that is to become table `n`.
fn new_draft<R: Files>(rt: &R, alloc: Global, n: u32) -> io::Result<Draft<R::File>>
    ensures written { IfOk result (λ draft. string_bytes draft.written ≡ in_folder (draft_name n)) }
    ensures finished { IfOk result (λ draft. string_bytes draft.finished ≡ in_folder (table_name n)) }
{
    match fs::create_dir(rt, FOLDER) {
        Ok(()) => {}
        Err(error) if error.kind() == ErrorKind::AlreadyExists => {}
        Err(error) => return Err(error),
    }
    let written = draft_path(alloc, n)?;
    let finished = table_path(alloc, n)?;
    let file = draft_options().open(rt, written.as_str())?;
    Ok(Draft {
        file,
        written,
        finished,
    })
}
