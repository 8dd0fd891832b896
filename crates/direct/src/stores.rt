//! A store of the program's own: it hands each call on to another one, and counts the files that were written.

ghost use Rattle.std.specs.Prelude.{◌≡◌, ℕ, None, IsSome, OnOk, MatchResult};
ghost use Rattle.rc_outside.specs.Files.{with_draft};
ghost use Rattle.rc_outside.specs.Faults.{raised_count};

use rc_outside::{Failed, Store, StoreErr};
use std::alloc::Global;

/// A store that hands each call on to another one, and counts the files that were finished. What the other one tells, it tells too.
#[derive(Drop)]
pub struct Written<W> {
    inner: W,
    written: u64,
}

impl<W> Written<W> {
    /// The store that hands on to this one. No file was finished so far.
    pub fn new(inner: W) -> Written<W>
        ensures inner { result.inner ≡ inner }
        ensures written { result.written ≡ 0 }
    {
        Written { inner, written: 0 }
    }

    /// How many files were finished; the count stays at 2^64 - 1.
    pub fn written(&self) -> u64
        ensures { result ≡ self.now.written }
    {
        self.written
    }
}

impl<W: Store> Store for Written<W> {
    ghost use Rattle.rc_outside.specs.Faults.{RisesIfFault, OnFault};

    ghost files = { λ s. W.files s.inner };

    ghost building = { λ s. W.building s.inner };

    ghost faults = { λ s. W.faults s.inner };

    ghost asks = { λ s. W.asks s.inner };

    fn numbers(&mut self, alloc: Global) -> Result<Vec<u32>, StoreErr> {
        self.inner.numbers(alloc)
    }

    fn size(&mut self, n: u32) -> Result<u64, Failed> {
        self.inner.size(n)
    }

    fn read_at(&mut self, n: u32, off: u64, into: &mut [u8]) -> Result<(), Failed> {
        self.inner.read_at(n, off, into)
    }

    fn begin(&mut self, alloc: Global, n: u32) -> Result<(), StoreErr> {
        self.inner.begin(alloc, n)
    }

    fn append(&mut self, alloc: Global, piece: &[u8]) -> Result<(), StoreErr> {
        self.inner.append(alloc, piece)
    }

    /// Finishes the other store's file, which is counted.
    fn finish(&mut self, alloc: Global) -> Result<(), StoreErr>
        requires { IsSome (W.building self.old.inner) }
        ensures files { MatchResult result
            (λ _. W.files self.new.inner ≡ with_draft (W.files self.old.inner) (W.building self.old.inner))
            (λ _. W.files self.new.inner ≡ W.files self.old.inner) }
        ensures building { W.building self.new.inner ≡ None }
        ensures faults { RisesIfFault OnFault result (W.faults self.old.inner) (W.faults self.new.inner) }
        ensures asks { W.asks self.new.inner ≡ W.asks self.old.inner }
        ensures counted { OnOk result (self.new.written ≡ raised_count self.old.written) }
    {
        self.inner.finish(alloc)?;
        if self.written < u64::MAX {
            self.written += 1;
        }
        Ok(())
    }

    fn abandon(&mut self) {
        self.inner.abandon();
    }

    fn asks(&self) -> u64 {
        self.inner.asks()
    }
}
