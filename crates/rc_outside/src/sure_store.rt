// A store in memory that never fails: its count of faults is the constant 0.
ghost use Rattle.std.specs.Prelude.{◌≡◌, ◌≢◌, ℕ, ◌≤◌, [], List, None, Some, Ok, Err, length, IsSome, IsOk, IfOk, OnOk, OnErr, MatchResult, option_map};
ghost use Rattle.std.specs.FinMap as map;
ghost use Rattle.rc_outside.specs.Files.{IsNoFile};
ghost use Rattle.rc_outside.specs.Faults.{raised_count, no_faults};

use super::counts::raise;
use super::files::{Contents, Shelf};
use super::sources::Failed;
use super::stores::{Store, StoreErr};
use std::alloc::{AllocError, Global};
use std::marker::Model;

/// A store in memory that never fails, but for want of memory.
#[derive(Drop)]
pub struct SureStore {
    files: Shelf,
    building: Option<(u32, Contents)>,
    asks: u64,
}

impl Model for SureStore {
    ghost use Rattle.rc_outside.specs.States.{StoreState, store_code};

    ghost Value = { StoreState };

    ghost coded = { store_code };

    ghost view = { λ s. record { files = s.files; building = s.building; asks = s.asks } };
}

impl SureStore {
    /// A store with no files, in which nothing is being built and of which nothing was asked. No memory is taken yet, so
    /// it is never `AllocError`.
    pub fn new(alloc: Global) -> Result<SureStore, AllocError>
        ensures { result ≡ Ok (record { files = map.empty; building = None; asks = 0 }) }
    {
        Ok(SureStore {
            files: Shelf::new(alloc),
            building: None,
            asks: 0,
        })
    }

    /// File `n` has these bytes from now on, whether it was there or not. `AllocError` when memory is refused: then the
    /// store is as it was.
    pub fn put_file(&mut self, n: u32, bytes: Vec<u8>) -> Result<(), AllocError>
        ensures ok { OnOk result (self.new ≡ record self.old { files = map.insert self.old.files n bytes.items }) }
        ensures err { OnErr result (self.new ≡ self.old) }
    {
        self.files.put(n, Contents::new(bytes))
    }

    /// The bytes of file `n`; none where it is not there.
    pub fn file(&self, n: u32) -> Option<&[u8]>
        ensures { option_map (λ bytes. bytes.now) result ≡ map.get self.now.files n }
    {
        self.files.get(n)
    }

    /// Counts a range of a file as asked for.
    pub(crate) fn count_ask(&mut self)
        ensures { self.new ≡ record self.old { asks = raised_count self.old.asks } }
    {
        raise(&mut self.asks);
    }
}

impl Store for SureStore {
    ghost files = { λ s. Some s.files };

    ghost building = { λ s. option_map Some s.building };

    ghost faults = { λ _. no_faults };

    ghost asks = { λ s. s.asks };

    fn numbers(&mut self, alloc: Global) -> Result<Vec<u32>, StoreErr> {
        self.files.numbers(alloc).map_err(|_| StoreErr::NoMemory)
    }

    fn size(&mut self, n: u32) -> Result<u64, Failed> {
        let Some(bytes) = self.files.get(n) else {
            unreachable!()
        };
        Ok(bytes.len() as u64)
    }

    fn read_at(&mut self, n: u32, off: u64, into: &mut [u8]) -> Result<(), Failed> {
        self.count_ask();
        let Some(bytes) = self.files.get(n) else {
            unreachable!()
        };
        let from = off as usize;
        into.copy_from_slice(&bytes[from..from + into.len()]);
        Ok(())
    }

    /// No memory is taken, so it is never refused.
    fn begin(&mut self, alloc: Global, n: u32) -> Result<(), StoreErr>
        requires idle { self.old.building ≡ None }
        requires fresh { IsNoFile (Some self.old.files) n }
        ensures never { IsOk result }
        ensures state { self.new ≡ record self.old { building = Some (n, []) } }
    {
        self.building = Some((n, Contents::new(Vec::new(alloc))));
        Ok(())
    }

    fn append(&mut self, _alloc: Global, piece: &[u8]) -> Result<(), StoreErr> {
        let Some((n, mut contents)) = self.building.take() else {
            unreachable!()
        };
        contents.append(piece).map_err(|_| StoreErr::NoMemory)?;
        self.building = Some((n, contents));
        Ok(())
    }

    fn finish(&mut self, _alloc: Global) -> Result<(), StoreErr> {
        let Some((n, contents)) = self.building.take() else {
            unreachable!()
        };
        self.files.put(n, contents).map_err(|_| StoreErr::NoMemory)
    }

    fn abandon(&mut self) {
        self.building = None;
    }

    fn asks(&self) -> u64 {
        self.asks
    }
}
