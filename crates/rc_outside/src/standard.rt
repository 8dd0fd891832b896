// The trusted edge: standard input and standard output. Each counts its faults in 64 bits.
ghost use Rattle.std.specs.Prelude.{◌≡◌, ◌≢◌, ◌<◌, ◌≤◌, Err, length, drop, IfOk, OnErr, MatchResult};
ghost use Rattle.std.specs.Io.KnownBytes.{Appends, ReadConsumes};
ghost use Rattle.rc_outside.specs.Faults.{Rose, raised_count};
ghost use Rattle.rc_outside.specs.Pushed.{AppendsFront, Pushed};

use super::counts::raise;
use super::sinks::{Sink, SinkErr};
use super::sources::{Failed, Source};
use std::io::{self, Input, Print, Printer, Read, Write};

/// The most bytes that one pull of standard input takes.
const BLOCK: usize = 4096;

/// Standard input, with a count of its faults. It tells the bytes that are left where its reader does; a terminal, a
/// pipe and a file do not.
#[derive(Drop)]
pub struct StdSource<R> {
    reader: R,
    faults: u64,
}

impl<R: Read> StdSource<R> {
    /// The standard input of the runtime that `main` has, with no fault so far.
    pub fn new<I: Input<Reader = R>>(rt: &I) -> StdSource<R>
        ensures { ⟦<StdSource<R> as Source>⟧.faults result ≡ 0 }
    {
        StdSource {
            reader: rt.reader(),
            faults: 0,
        }
    }
}

impl<R: Read> Source for StdSource<R> {
    ghost left = { λ s. R.remaining s.reader };

    ghost faults = { λ s. s.faults };

    /// Takes what one read gives, at most 4,096 bytes, without waiting for more. `Failed` where the read fails, also for
    /// want of memory or by an interruption.
    fn pull(&mut self, into: &mut [u8]) -> Result<usize, Failed>
        requires { 0 < length into.old }
        ensures within { IfOk result (λ k. k ≤ length into.new) }
        ensures taken { let left = ⟦<StdSource<R> as Source>⟧.left in
            ReadConsumes (left self.old) (left self.new) result into.new }
        ensures untouched { MatchResult result
            (λ k. drop k into.new ≡ drop k into.old)
            (λ _. into.new ≡ into.old) }
        ensures cause { let faults = ⟦<StdSource<R> as Source>⟧.faults in
            MatchResult result
            (λ _. faults self.new ≡ faults self.old)
            (λ _. Rose (faults self.old) (faults self.new)) }
        ensures counted { let faults = ⟦<StdSource<R> as Source>⟧.faults in
            OnErr result (faults self.new ≡ raised_count (faults self.old)) }
    {
        let mut block = [0; BLOCK];
        let room = into.len().min(BLOCK);
        match self.reader.read(&mut block[..room]) {
            Ok(count) => {
                into[..count].copy_from_slice(&block[..count]);
                Ok(count)
            }
            Err(_) => {
                raise(&mut self.faults);
                Err(Failed)
            }
        }
    }
}

/// Standard output, with a count of its faults. It tells the bytes that were written where its writer does; a
/// terminal, a pipe and a file do not.
#[derive(Drop)]
pub struct StdSink<W> {
    writer: W,
    faults: u64,
}

impl<'a, P: Print> StdSink<Printer<'a, P>> {
    /// The standard output of the runtime that `main` has, with no fault so far.
    pub fn new(rt: &'a P) -> StdSink<Printer<'a, P>>
        ensures { ⟦<StdSink<Printer<'a, P>> as Sink>⟧.faults result ≡ 0 }
    {
        StdSink {
            writer: io::writer(rt),
            faults: 0,
        }
    }
}

impl<W: Write> Sink for StdSink<W> {
    ghost written = { λ s. W.contents s.writer };

    ghost faults = { λ s. s.faults };

    /// Writes the whole piece and flushes. `SinkErr::Failed` where a write or the flush fails, also for want of memory or
    /// by an interruption, and where a write takes nothing. Never `SinkErr::NoMemory`.
    fn push(&mut self, piece: &[u8]) -> Result<(), SinkErr>
        ensures pushed { let written = ⟦<StdSink<W> as Sink>⟧.written in
            let faults = ⟦<StdSink<W> as Sink>⟧.faults in
            Pushed (written self.old) (written self.new) (faults self.old) (faults self.new)
            piece.now result }
        ensures counted { let faults = ⟦<StdSink<W> as Sink>⟧.faults in
            OnErr result (faults self.new ≡ raised_count (faults self.old)) }
        ensures memory { result ≢ Err SinkErr.NoMemory }
    {
        match write_whole(&mut self.writer, piece) {
            Ok(()) => Ok(()),
            Err(Failed) => {
                raise(&mut self.faults);
                Err(SinkErr::Failed)
            }
        }
    }
}

/// Writes the whole piece and flushes. `Failed` at the first error, and where a write takes nothing.
fn write_whole<W: Write>(writer: &mut W, piece: &[u8]) -> Result<(), Failed>
    ensures { MatchResult result
        (λ _. Appends (W.contents writer.old) (W.contents writer.new) piece.now)
        (λ _. AppendsFront (W.contents writer.old) (W.contents writer.new) piece.now) }
{
    let mut rest = piece;
    while !rest.is_empty() {
        match writer.write(rest) {
            Ok(0) | Err(_) => return Err(Failed),
            Ok(count) => rest = &rest[count..],
        }
    }
    match writer.flush() {
        Ok(()) => Ok(()),
        Err(_) => Err(Failed),
    }
}
