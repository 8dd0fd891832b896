//! A store that keeps which ranges were asked for.

ghost use Rattle.std.specs.Prelude.{length};
ghost use Rattle.rc_outside.specs.Files.{LiesInFile};

use rc_outside::{Failed, FolderStore, Store, StoreErr};
use std::alloc::Global;

/// A range of a table.
#[derive(Clone, Copy)]
pub(crate) struct Range {
    /// The table's number.
    pub(crate) table: u32,
    /// The offset of its first byte.
    pub(crate) from: u64,
    /// How many bytes.
    pub(crate) count: usize,
}

/// A store that hands each call on to another one, and keeps which ranges were asked for. What the other one tells, it tells too.
#[derive(Drop)]
pub(crate) struct Watched<W> {
    inner: W,
    asked: Vec<Range>,
}

/// The folder of tables, watched.
pub(crate) type Folder<'a> = Watched<FolderStore<'a, HostRuntime>>;

impl<W> Watched<W> {
    /// The store that hands on to this one, of which nothing was asked.
    pub(crate) fn new(alloc: Global, inner: W) -> Watched<W> {
        Watched {
            inner,
            asked: Vec::new(alloc),
        }
    }

    /// The ranges that were asked for since they were last forgotten, in order. One for which memory is refused is not among them.
    pub(crate) fn asked(&self) -> &[Range] {
        self.asked.as_slice()
    }

    /// Forgets them.
    pub(crate) fn forget(&mut self, alloc: Global) {
        self.asked = Vec::new(alloc);
    }
}

impl<W: Store> Watched<W> {
    /// Reads a range aside, which is not kept.
    pub(crate) fn read_aside(&mut self, n: u32, off: u64, into: &mut [u8]) -> Result<(), Failed>
        requires { LiesInFile (W.files self.old.inner) n off (length into.old) }
    {
        self.inner.read_at(n, off, into)
    }
}

impl<W: Store> Store for Watched<W> {
    ghost files = { λ s. W.files s.inner };

    ghost building = { λ s. W.building s.inner };

    ghost faults = { λ s. W.faults s.inner };

    ghost asks = { λ s. W.asks s.inner };

    fn numbers(&mut self, alloc: Global) -> Result<Vec<u32>, StoreErr> {
        self.inner.numbers(alloc)
    }

    fn size(&mut self, n: u32) -> Result<u64, Failed> {
        self.inner.size(n)
    }

    fn read_at(&mut self, n: u32, off: u64, into: &mut [u8]) -> Result<(), Failed> {
        let _kept = self.asked.push(Range {
            table: n,
            from: off,
            count: into.len(),
        });
        self.inner.read_at(n, off, into)
    }

    fn begin(&mut self, alloc: Global, n: u32) -> Result<(), StoreErr> {
        self.inner.begin(alloc, n)
    }

    fn append(&mut self, alloc: Global, piece: &[u8]) -> Result<(), StoreErr> {
        self.inner.append(alloc, piece)
    }

    fn finish(&mut self, alloc: Global) -> Result<(), StoreErr> {
        self.inner.finish(alloc)
    }

    fn abandon(&mut self) {
        self.inner.abandon();
    }

    fn asks(&self) -> u64 {
        self.inner.asks()
    }
}
