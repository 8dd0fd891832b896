//! Ends of the program's own: they hand each call on to another end, and count.

ghost use Rattle.std.specs.Prelude.{◌≡◌, ◌≤◌, ℕ, ◌<◌, length, drop, IfOk, OnOk, MatchResult};
ghost use Rattle.std.specs.Io.KnownBytes.{ReadConsumes};
ghost use Rattle.rc_outside.specs.Faults.{raised_count, Rose};

use rc_outside::{Failed, Sink, SinkErr, Source};

/// An end that hands each call on to another one, and counts those that were answered by Ok. What the other one tells, it tells too.
#[derive(Drop)]
pub struct Counted<T> {
    inner: T,
    answered: u64,
}

impl<T> Counted<T> {
    /// The end that hands on to this one. None of its calls was answered so far.
    pub fn new(inner: T) -> Counted<T>
        ensures inner { result.inner ≡ inner }
        ensures answered { result.answered ≡ 0 }
    {
        Counted { inner, answered: 0 }
    }

    /// How many calls were answered by Ok; the count stays at 2^64 - 1.
    pub fn answered(&self) -> u64
        ensures { result ≡ self.now.answered }
    {
        self.answered
    }

    /// Counts one more call.
    fn count(&mut self)
        ensures inner { self.new.inner ≡ self.old.inner }
        ensures answered { self.new.answered ≡ raised_count self.old.answered }
    {
        if self.answered < u64::MAX {
            self.answered += 1;
        }
    }
}

impl<I: Source> Source for Counted<I> {
    ghost left = { λ s. I.left s.inner };

    ghost faults = { λ s. I.faults s.inner };

    /// Takes what the other source gives.
    fn pull(&mut self, into: &mut [u8]) -> Result<usize, Failed>
        requires { 0 < length into.old }
        ensures within { IfOk result (λ k. k ≤ length into.new) }
        ensures taken { ReadConsumes (I.left self.old.inner) (I.left self.new.inner) result into.new }
        ensures untouched { MatchResult result
            (λ k. drop k into.new ≡ drop k into.old)
            (λ _. into.new ≡ into.old) }
        ensures cause { MatchResult result
            (λ _. I.faults self.new.inner ≡ I.faults self.old.inner)
            (λ _. Rose (I.faults self.old.inner) (I.faults self.new.inner)) }
        ensures counted { OnOk result (self.new.answered ≡ raised_count self.old.answered) }
    {
        let count = self.inner.pull(into)?;
        self.count();
        Ok(count)
    }
}

impl<K: Sink> Sink for Counted<K> {
    ghost use Rattle.rc_outside.specs.Pushed.{Pushed};

    ghost written = { λ s. K.written s.inner };

    ghost faults = { λ s. K.faults s.inner };

    /// Writes the piece to the other sink.
    fn push(&mut self, piece: &[u8]) -> Result<(), SinkErr>
        ensures pushed { Pushed (K.written self.old.inner) (K.written self.new.inner) (K.faults self.old.inner) (K.faults self.new.inner) piece.now result }
        ensures counted { OnOk result (self.new.answered ≡ raised_count self.old.answered) }
    {
        self.inner.push(piece)?;
        self.count();
        Ok(())
    }
}
