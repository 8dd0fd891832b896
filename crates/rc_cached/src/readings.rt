//! What was read of the tables of a partition, to be handed to its stream.
ghost use Rattle.std.specs.Prelude.{◌≡◌, Some};
ghost use Rattle.rc_cached.specs.Below.{nothing_read};

use rc_outside::{Failed, Store, StoreErr};
use rc_stream::ListFrags;
use std::alloc::Global;

/// What was read of the tables of one partition, outside of its stream, and is handed to the stream at a call. It is the store over which a cached stream is called: one of no files, in which none can be built, and whose own calls are refused for want of memory.
#[derive(Drop)]
pub struct Readings {
    /// What was read, from the beginning of the partition, until a call takes it.
    pub list: Option<ListFrags>,
    /// Whether a call needed what was not read.
    pub missed: bool,
    /// Whether a file is being built, which none that is made here is, since each `begin` is refused.
    pub begun: bool,
}

impl Readings {
    /// Nothing was read, and nothing missed yet.
    pub fn none() -> Self
        ensures { result ≡ nothing_read }
    {
        Readings {
            list: None,
            missed: false,
            begun: false,
        }
    }

    /// This was read of the partition, from its beginning, and nothing was missed.
    pub fn of(list: ListFrags) -> Self
        ensures { result ≡ record nothing_read { list = Some list } }
    {
        Readings {
            list: Some(list),
            missed: false,
            begun: false,
        }
    }

    /// Whether a call needed what was not read.
    pub fn missed(&self) -> bool
        ensures { result ≡ self.now.missed }
    {
        self.missed
    }
}

impl Store for Readings {
    ghost use Rattle.std.specs.Prelude.{None, Some, cond};
    ghost use Rattle.std.specs.FinMap as map;

    ghost files = { λ _. Some map.empty };

    ghost building = { λ s. cond s.begun (Some None) None };

    ghost faults = { λ _. 0 };

    ghost asks = { λ _. 0 };

    fn numbers(&mut self, _alloc: Global) -> Result<Vec<u32>, StoreErr> {
        Err(StoreErr::NoMemory)
    }

    fn size(&mut self, _n: u32) -> Result<u64, Failed> {
        unreachable!()
    }

    fn read_at(&mut self, _n: u32, _off: u64, _into: &mut [u8]) -> Result<(), Failed> {
        unreachable!()
    }

    fn begin(&mut self, _alloc: Global, _n: u32) -> Result<(), StoreErr> {
        Err(StoreErr::NoMemory)
    }

    fn append(&mut self, _alloc: Global, _piece: &[u8]) -> Result<(), StoreErr> {
        self.begun = false;
        Err(StoreErr::NoMemory)
    }

    fn finish(&mut self, _alloc: Global) -> Result<(), StoreErr> {
        self.begun = false;
        Err(StoreErr::NoMemory)
    }

    fn abandon(&mut self) {
        self.begun = false;
    }

    fn asks(&self) -> u64 {
        0
    }
}
