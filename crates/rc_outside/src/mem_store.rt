// A store in memory, whose calls fail where their maker lists it.
ghost use Rattle.std.specs.Prelude.{◌≡◌, ◌≢◌, ◌++◌, ◌∷◌, ℕ, ◌≤◌, [], List, None, Some, Ok, Err, length, is_err, IsSome, IfOk, OnOk, OnErr, MatchResult, option_map, if◌then◌else◌};
ghost use Rattle.std.specs.FinMap as map;
ghost use Rattle.rc_outside.specs.Files.{IsFile, IsNoFile, LiesInFile, AreNumbers, IsSizeOf, AreBytesOf};
ghost use Rattle.rc_outside.specs.Faults.{RisesIfFailed, RisesIfFault, OnFault};

use super::calls::{StoreCall, draw_nearer, is_listed};
use super::counts::raise;
use super::sources::Failed;
use super::stores::{Store, StoreErr};
use super::sure_store::SureStore;
use std::alloc::{AllocError, Global};
use std::marker::Model;

/// A store in memory, whose listed calls fail.
#[derive(Drop)]
pub struct MemStore {
    store: SureStore,
    fails: Vec<(StoreCall, u64)>,
    faults: u64,
}

impl Model for MemStore {
    ghost use Rattle.rc_outside.specs.Failures.{MemState, mem_code};

    ghost Value = { MemState };

    ghost coded = { mem_code };

    ghost view = { λ s. record {
      files = s.store.files;
      building = s.store.building;
      asks = s.store.asks;
      fails = s.fails.items;
      faults = s.faults;
    } };
}

impl MemStore {
    ghost use Rattle.rc_outside.specs.Failures.{is_due, store_after_call};

    /// A store with no files, in which nothing is being built, of which nothing was asked and no call is to fail.
    /// No memory is taken yet, so it is never `AllocError`.
    pub fn new(alloc: Global) -> Result<MemStore, AllocError>
        ensures { result ≡ Ok (record { files = map.empty; building = None; asks = 0; fails = []; faults = 0 }) }
    {
        Ok(MemStore {
            store: SureStore::new(alloc)?,
            fails: Vec::new(alloc),
            faults: 0,
        })
    }

    /// File `n` has these bytes from now on, whether it was there or not. `AllocError` when memory is refused: then the
    /// store is as it was.
    pub fn put_file(&mut self, n: u32, bytes: Vec<u8>) -> Result<(), AllocError>
        ensures ok { OnOk result (self.new ≡ record self.old { files = map.insert self.old.files n bytes.items }) }
        ensures err { OnErr result (self.new ≡ self.old) }
    {
        self.store.put_file(n, bytes)
    }

    /// The bytes of file `n`; none where it is not there.
    pub fn file(&self, n: u32) -> Option<&[u8]>
        ensures { option_map (λ bytes. bytes.now) result ≡ map.get self.now.files n }
    {
        self.store.file(n)
    }

    /// The `nth` call of this kind is to fail once, counted from now: 1 is the next one, and at 0 none is to.
    /// `AllocError` when memory is refused: then the store is as it was.
    pub fn fail_nth(&mut self, call: StoreCall, nth: u64) -> Result<(), AllocError>
        ensures ok { OnOk result (self.new ≡ record self.old { fails = self.old.fails ++ (call, nth) ∷ [] }) }
        ensures err { OnErr result (self.new ≡ self.old) }
    {
        self.fails.push((call, nth))?;
        Ok(())
    }

    /// Counts a call of this kind. `Failed` exactly where it is to fail.
    fn count(&mut self, call: StoreCall) -> Result<(), Failed>
        ensures faults { RisesIfFailed result self.old.faults self.new.faults }
        ensures state { self.new ≡ store_after_call call self.old }
        ensures due { is_err result ≡ is_due call self.old.fails }
    {
        let due = is_listed(&self.fails, call);
        draw_nearer(&mut self.fails, call);
        if due {
            raise(&mut self.faults);
            return Err(Failed);
        }
        Ok(())
    }

    /// Counts a call of this kind. `StoreErr::Fault` exactly where it is to fail: then nothing is being built any more.
    fn count_building(&mut self, call: StoreCall) -> Result<(), StoreErr>
        ensures ok { OnOk result (self.new ≡ store_after_call call self.old) }
        ensures err { OnErr result (let now = store_after_call call self.old in self.new ≡ record now { building = None }) }
        ensures faults { RisesIfFault OnFault result self.old.faults self.new.faults }
        ensures due { result ≡ (if is_due call self.old.fails then Err StoreErr.Fault else Ok tt) }
    {
        match self.count(call) {
            Ok(()) => Ok(()),
            Err(Failed) => {
                self.store.abandon();
                Err(StoreErr::Fault)
            }
        }
    }
}

impl Store for MemStore {
    ghost use Rattle.rc_outside.specs.Failures.{store_after_call, is_due, is_fault, after_read_at, after_begin, after_append, after_finish};

    ghost files = { λ s. Some s.files };

    ghost building = { λ s. option_map Some s.building };

    ghost faults = { λ s. s.faults };

    ghost asks = { λ s. s.asks };

    fn numbers(&mut self, alloc: Global) -> Result<Vec<u32>, StoreErr>
        ensures numbers { IfOk result (λ v. AreNumbers (Some self.old.files) v.items) }
        ensures faults { RisesIfFault OnFault result self.old.faults self.new.faults }
        ensures listed { is_fault result ≡ is_due StoreCall.Numbers self.old.fails }
        ensures state { self.new ≡ store_after_call StoreCall.Numbers self.old }
    {
        match self.count(StoreCall::Numbers) {
            Ok(()) => self.store.numbers(alloc),
            Err(Failed) => Err(StoreErr::Fault),
        }
    }

    fn size(&mut self, n: u32) -> Result<u64, Failed>
        requires { IsFile (Some self.old.files) n }
        ensures size { IfOk result (λ k. IsSizeOf (Some self.old.files) n k) }
        ensures faults { RisesIfFailed result self.old.faults self.new.faults }
        ensures listed { is_err result ≡ is_due StoreCall.Size self.old.fails }
        ensures state { self.new ≡ store_after_call StoreCall.Size self.old }
    {
        self.count(StoreCall::Size)?;
        self.store.size(n)
    }

    fn read_at(&mut self, n: u32, off: u64, into: &mut [u8]) -> Result<(), Failed>
        requires { LiesInFile (Some self.old.files) n off (length into.old) }
        ensures bytes { OnOk result (AreBytesOf (Some self.old.files) n off into.new) }
        ensures faults { RisesIfFailed result self.old.faults self.new.faults }
        ensures listed { is_err result ≡ is_due StoreCall.ReadAt self.old.fails }
        ensures state { self.new ≡ after_read_at self.old }
    {
        if let Err(Failed) = self.count(StoreCall::ReadAt) {
            self.store.count_ask();
            return Err(Failed);
        }
        self.store.read_at(n, off, into)
    }

    fn begin(&mut self, alloc: Global, n: u32) -> Result<(), StoreErr>
        requires idle { self.old.building ≡ None }
        requires fresh { IsNoFile (Some self.old.files) n }
        ensures faults { RisesIfFault OnFault result self.old.faults self.new.faults }
        ensures listed { is_fault result ≡ is_due StoreCall.Begin self.old.fails }
        ensures state { self.new ≡ after_begin self.old n result }
        ensures never_memory { result ≢ Err StoreErr.NoMemory }
    {
        self.count_building(StoreCall::Begin)?;
        self.store.begin(alloc, n)
    }

    fn append(&mut self, alloc: Global, piece: &[u8]) -> Result<(), StoreErr>
        requires { IsSome self.old.building }
        ensures faults { RisesIfFault OnFault result self.old.faults self.new.faults }
        ensures listed { is_fault result ≡ is_due StoreCall.Append self.old.fails }
        ensures state { self.new ≡ after_append self.old piece.now result }
    {
        self.count_building(StoreCall::Append)?;
        self.store.append(alloc, piece)
    }

    fn finish(&mut self, alloc: Global) -> Result<(), StoreErr>
        requires { IsSome self.old.building }
        ensures faults { RisesIfFault OnFault result self.old.faults self.new.faults }
        ensures listed { is_fault result ≡ is_due StoreCall.Finish self.old.fails }
        ensures state { self.new ≡ after_finish self.old result }
    {
        self.count_building(StoreCall::Finish)?;
        self.store.finish(alloc)
    }

    fn abandon(&mut self)
        ensures state { self.new ≡ record self.old { building = None } }
    {
        self.store.abandon();
    }

    fn asks(&self) -> u64 {
        self.store.asks()
    }
}
