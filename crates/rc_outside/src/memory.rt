// Ends in memory, whose calls fail where their maker lists them.
ghost use Rattle.std.specs.Prelude.{◌≡◌, ◌↔◌, ℕ, ◌<◌, ◌≤◌, [], List, Some, Ok, Err, IsErr, Contains, length, min, take, drop, IfOk, MatchResult};
ghost use Rattle.std.specs.Io.KnownBytes.{ReadConsumes};
ghost use Rattle.rc_outside.specs.Faults.{raised_count, Rose};

use super::counts::raise;
use super::sinks::{Sink, SinkErr};
use super::sources::{Failed, Source};
use super::sure::{SureSink, SureSource};
use std::alloc::{AllocError, Global};
use std::marker::Model;

/// A source of given bytes, whose listed calls fail.
#[derive(Drop)]
pub struct MemSource {
    bytes: SureSource,
    fails: Vec<u64>,
    calls: u64,
    faults: u64,
}

impl Model for MemSource {
    ghost use Rattle.rc_outside.specs.States.{SourceState};

    ghost Value = { SourceState };

    ghost view = { λ s. record {
      left = s.bytes;
      fails = s.fails.items;
      calls = s.calls;
      faults = s.faults;
    } };
}

impl MemSource {
    /// A source of these bytes. The pulls whose numbers `fails` lists, counted from 1, are to fail.
    pub fn new(bytes: Vec<u8>, fails: Vec<u64>) -> MemSource
        ensures { result ≡ record { left = bytes.items; fails = fails.items; calls = 0; faults = 0 } }
    {
        MemSource {
            bytes: SureSource::new(bytes),
            fails,
            calls: 0,
            faults: 0,
        }
    }
}

impl Source for MemSource {
    ghost use Rattle.rc_outside.specs.States.{after_pull};

    ghost left = { λ s. Some s.left };

    ghost faults = { λ s. s.faults };

    /// Takes as many bytes as fit into `into`. `Failed` exactly where the number of this call is listed: then nothing
    /// is taken.
    fn pull(&mut self, into: &mut [u8]) -> Result<usize, Failed>
        requires { 0 < length into.old }
        ensures within { IfOk result (λ k. k ≤ length into.new) }
        ensures taken { ReadConsumes (Some self.old.left) (Some self.new.left) result into.new }
        ensures untouched { MatchResult result
            (λ k. drop k into.new ≡ drop k into.old)
            (λ _. into.new ≡ into.old) }
        ensures cause { MatchResult result
            (λ _. self.new.faults ≡ self.old.faults)
            (λ _. Rose self.old.faults self.new.faults) }

        ensures listed { IsErr result ↔ Contains self.old.fails (raised_count self.old.calls) }
        ensures gives { IfOk result (λ k. k ≡ min (length into.old) (length self.old.left)) }
        ensures state { self.new ≡ after_pull self.old result }
    {
        raise(&mut self.calls);
        if self.fails.contains(&self.calls) {
            raise(&mut self.faults);
            return Err(Failed);
        }
        self.bytes.pull(into)
    }
}

/// A sink that keeps what is written, and whose listed calls fail.
#[derive(Drop)]
pub struct MemSink {
    written: SureSink,
    fails: Vec<u64>,
    calls: u64,
    faults: u64,
}

impl Model for MemSink {
    ghost use Rattle.rc_outside.specs.States.{SinkState};

    ghost Value = { SinkState };

    ghost view = { λ s. record {
      written = s.written;
      fails = s.fails.items;
      calls = s.calls;
      faults = s.faults;
    } };
}

impl MemSink {
    /// A sink in which nothing is written. The pushes whose numbers `fails` lists, counted from 1, are to fail.
    /// No memory is taken yet, so it is never `AllocError`.
    pub fn new(alloc: Global, fails: Vec<u64>) -> Result<MemSink, AllocError>
        ensures { result ≡ Ok (record { written = []; fails = fails.items; calls = 0; faults = 0 }) }
    {
        Ok(MemSink {
            written: SureSink::new(alloc)?,
            fails,
            calls: 0,
            faults: 0,
        })
    }

    /// The bytes that were written.
    pub fn bytes(&self) -> &[u8]
        ensures { result.now ≡ self.now.written }
    {
        self.written.bytes()
    }
}

impl Sink for MemSink {
    ghost use Rattle.rc_outside.specs.Pushed.{Pushed};
    ghost use Rattle.rc_outside.specs.States.{after_push};

    ghost written = { λ s. Some s.written };

    ghost faults = { λ s. s.faults };

    /// Writes the piece after what was written before. `SinkErr::Failed` exactly where the number of this call is
    /// listed: then nothing is written. `SinkErr::NoMemory` when memory is refused: then the sink is as it was, and
    /// the call is not counted.
    fn push(&mut self, piece: &[u8]) -> Result<(), SinkErr>
        ensures pushed { Pushed (Some self.old.written) (Some self.new.written) self.old.faults self.new.faults
            piece.now result }
        ensures listed { (result ≡ Err SinkErr.Failed) ↔ Contains self.old.fails (raised_count self.old.calls) }
        ensures state { self.new ≡ after_push self.old piece.now result }
    {
        let call = self.calls.saturating_add(1);
        if self.fails.contains(&call) {
            self.calls = call;
            raise(&mut self.faults);
            return Err(SinkErr::Failed);
        }
        self.written.push(piece)?;
        self.calls = call;
        Ok(())
    }
}
