//! The stores of a case: each machine has its own.

use rc_outside::{MemStore, StoreCall};
use std::alloc::{AllocError, Global};

/// A machine that a case is run on.
#[derive(Clone, Copy)]
pub(crate) enum Runner {
    /// The shard, which the program runs on.
    Shard,
    /// The plain program.
    Plain,
}

impl Runner {
    /// What it is called.
    pub(crate) fn name(self) -> &'static str {
        match self {
            Runner::Shard => "the shard",
            Runner::Plain => "the plain program",
        }
    }
}

/// A store for each machine.
#[derive(Drop)]
pub(crate) struct Stores {
    /// That of the shard.
    pub(crate) shard: MemStore,
    /// That of the plain program.
    pub(crate) plain: MemStore,
}

impl Stores {
    /// Empty ones.
    pub(crate) fn new(alloc: Global) -> Result<Self, AllocError> {
        let shard = MemStore::new(alloc)?;
        let plain = MemStore::new(alloc)?;
        Ok(Stores { shard, plain })
    }

    /// Both have such a file.
    pub(crate) fn put_file(
        &mut self,
        alloc: Global,
        number: u32,
        bytes: &[u8],
    ) -> Result<(), AllocError> {
        self.shard.put_file(number, Vec::from_slice(alloc, bytes)?)?;
        self.plain.put_file(number, Vec::from_slice(alloc, bytes)?)
    }

    /// In both the call of a kind with such a number, counted from now, fails.
    pub(crate) fn fail_nth(&mut self, call: StoreCall, number: u64) -> Result<(), AllocError> {
        self.shard.fail_nth(call, number)?;
        self.plain.fail_nth(call, number)
    }
}
