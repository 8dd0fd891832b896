// A store of no files.
ghost use Rattle.std.specs.Prelude.{◌≡◌};

use rc_outside::{Failed, Store, StoreErr};
use std::alloc::Global;

/// A store of no files, in which none can be built, and whose calls are refused for want of memory: over it streams of what lies in memory are read, which ask nothing of a store.
#[derive(Clone, Copy, Debug)]
pub struct NoFiles {
    /// Whether a file is being built, which none that is made here is, since each `begin` is refused.
    pub begun: bool,
}

impl Store for NoFiles {
    ghost use Rattle.std.specs.Prelude.{None, Some, cond};
    ghost use Rattle.std.specs.FinMap as map;

    ghost files = { λ _. Some map.empty };

    ghost building = { λ s. cond s.begun (Some None) None };

    ghost faults = { λ _. 0 };

    ghost asks = { λ _. 0 };

    fn numbers(&mut self, _alloc: Global) -> Result<Vec<u32>, StoreErr> {
        Err(StoreErr::NoMemory)
    }

    fn size(&mut self, _n: u32) -> Result<u64, Failed> {
        unreachable!()
    }

    fn read_at(&mut self, _n: u32, _off: u64, _into: &mut [u8]) -> Result<(), Failed> {
        unreachable!()
    }

    fn begin(&mut self, _alloc: Global, _n: u32) -> Result<(), StoreErr> {
        Err(StoreErr::NoMemory)
    }

    fn append(&mut self, _alloc: Global, _piece: &[u8]) -> Result<(), StoreErr> {
        self.begun = false;
        Err(StoreErr::NoMemory)
    }

    fn finish(&mut self, _alloc: Global) -> Result<(), StoreErr> {
        self.begun = false;
        Err(StoreErr::NoMemory)
    }

    fn abandon(&mut self) {
        self.begun = false;
    }

    fn asks(&self) -> u64 {
        0
    }
}
