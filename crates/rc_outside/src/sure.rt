// Ends that never fail: their count of faults is the constant 0.
ghost use Rattle.std.specs.Prelude.{◌≡◌, ◌≢◌, ◌++◌, ℕ, ◌<◌, ◌≤◌, [], List, Some, Ok, Err, length, min, take, drop, IfOk, MatchResult};
ghost use Rattle.std.specs.Io.KnownBytes.{ReadConsumes};
ghost use Rattle.rc_outside.specs.Faults.{Rose, no_faults};

use super::sinks::{Sink, SinkErr};
use super::sources::{Failed, Source};
use std::alloc::{AllocError, Global};
use std::marker::Model;

/// A source of given bytes that never fails. A contract sees it as the bytes that are left.
#[derive(Drop)]
pub struct SureSource {
    bytes: Vec<u8>,
    taken: usize,
}

impl Model for SureSource {
    ghost Value = { List ℕ };

    ghost view = { λ s. drop s.taken s.bytes.items };

    ghost invariant = { λ s. s.taken ≤ length s.bytes.items };
}

impl SureSource {
    /// A source of these bytes.
    pub fn new(bytes: Vec<u8>) -> SureSource
        ensures { result ≡ bytes.items }
    {
        SureSource { bytes, taken: 0 }
    }
}

impl Source for SureSource {
    ghost left = { λ s. Some s };

    ghost faults = { λ _. no_faults };

    /// Takes as many bytes as fit into `into`. Never `Failed`.
    fn pull(&mut self, into: &mut [u8]) -> Result<usize, Failed>
        requires { 0 < length into.old }
        ensures within { IfOk result (λ k. k ≤ length into.new) }
        ensures taken { ReadConsumes (Some self.old) (Some self.new) result into.new }
        ensures untouched { MatchResult result
            (λ k. drop k into.new ≡ drop k into.old)
            (λ _. into.new ≡ into.old) }
        ensures cause { MatchResult result
            (λ _. no_faults ≡ no_faults)
            (λ _. Rose no_faults no_faults) }
        ensures gives { result ≡ Ok (min (length into.old) (length self.old)) }
    {
        let count = fill_front(into, &self.bytes[self.taken..]);
        self.taken += count;
        Ok(count)
    }
}

/// Copies as many bytes as fit to the front of `into`, and answers how many. The rest of `into` stays.
fn fill_front(into: &mut [u8], from: &[u8]) -> usize
    ensures count { result ≡ min (length into.old) (length from.now) }
    ensures front { take result into.new ≡ take result from.now }
    ensures rest { drop result into.new ≡ drop result into.old }
{
    let count = into.len().min(from.len());
    into[..count].copy_from_slice(&from[..count]);
    count
}

/// A sink that keeps what is written, and fails by want of memory alone. A contract sees it as the bytes written.
#[derive(Drop)]
pub struct SureSink {
    written: Vec<u8>,
}

impl Model for SureSink {
    ghost Value = { List ℕ };

    ghost view = { λ s. s.written.items };
}

impl SureSink {
    /// A sink in which nothing is written. No memory is taken yet, so it is never `AllocError`.
    pub fn new(alloc: Global) -> Result<SureSink, AllocError>
        ensures { result ≡ Ok [] }
    {
        Ok(SureSink {
            written: Vec::new(alloc),
        })
    }

    /// The bytes that were written.
    pub fn bytes(&self) -> &[u8]
        ensures { result.now ≡ self.now }
    {
        self.written.as_slice()
    }
}

impl Sink for SureSink {
    ghost use Rattle.rc_outside.specs.Pushed.{Pushed};

    ghost written = { λ s. Some s };

    ghost faults = { λ _. no_faults };

    /// Writes the piece after what was written before. Never `SinkErr::Failed`. `SinkErr::NoMemory` when memory is
    /// refused: then nothing was written.
    fn push(&mut self, piece: &[u8]) -> Result<(), SinkErr>
        ensures pushed { Pushed (Some self.old) (Some self.new) no_faults no_faults piece.now result }
        ensures sure { result ≢ Err SinkErr.Failed }
    {
        self.written
            .extend_from_slice(piece)
            .map_err(|_| SinkErr::NoMemory)
    }
}
