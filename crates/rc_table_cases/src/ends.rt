//! Sources and sinks in memory: those of which some calls fail, and those that never fail.

ghost use Rattle.std.specs.Prelude.{◌≤◌, ◌<◌};

use rc_outside::{Failed, MemSink, MemSource, Sink, SinkErr, Source, SureSink, SureSource};
use std::alloc::{AllocError, Global};

/// The bytes of each source.
const BYTES: &[u8] = b"abcde";

/// The most bytes that are pulled at once.
const MOST: usize = 4;

// The numbers between commas; none where one is no number.
fn numbers_of(alloc: Global, text: &str) -> Result<Option<Vec<u64>>, AllocError> {
    let mut numbers = Vec::new(alloc);
    for word in text.split(',') {
        let Ok(number) = word.parse::<u64>() else {
            return Ok(None);
        };
        numbers.push(number)?;
    }
    Ok(Some(numbers))
}

// Tells what a pull of so many bytes gives: its bytes, or `!` for a fault, and then a bar.
fn tell_pull<S: Source>(source: &mut S, room: usize, text: &mut String) -> Result<(), AllocError>
    requires some { 0 < room }
    requires fits { room ≤ 4 }
{
    let mut block = [0; MOST];
    match source.pull(&mut block[..room]) {
        Ok(count) => {
            for byte in &block[..count] {
                text.push(char::from(*byte))?;
            }
        }
        Err(Failed) => text.push('!')?,
    }
    text.push('|')
}

// Tells what a push answers: `k` for Ok, `!` for a fault, `m` for want of memory.
fn tell_push<S: Sink>(sink: &mut S, piece: &[u8], text: &mut String) -> Result<(), AllocError> {
    text.push(match sink.push(piece) {
        Ok(()) => 'k',
        Err(SinkErr::Failed) => '!',
        Err(SinkErr::NoMemory) => 'm',
    })
}

// Tells what four pulls of so many bytes give.
fn tell_pulls<S: Source>(source: &mut S, room: usize, text: &mut String) -> Result<(), AllocError>
    requires some { 0 < room }
    requires fits { room ≤ 4 }
{
    tell_pull(source, room, text)?;
    tell_pull(source, room, text)?;
    tell_pull(source, room, text)?;
    tell_pull(source, room, text)?;
    text.push('\n')
}

// Tells what the pushes of `ab`, nothing and `cd` answer.
fn tell_pushes<S: Sink>(sink: &mut S, text: &mut String) -> Result<(), AllocError> {
    tell_push(sink, b"ab", text)?;
    tell_push(sink, b"", text)?;
    tell_push(sink, b"cd", text)?;
    text.push(' ')
}

// Tells the bytes that a sink has.
fn tell_taken(bytes: &[u8], text: &mut String) -> Result<(), AllocError> {
    for byte in bytes {
        text.push(char::from(*byte))?;
    }
    text.push('\n')
}

// Tells what four pulls of a source give, of which these are to fail; whether the word says which.
fn tell_failing(
    alloc: Global,
    room: usize,
    fails: &str,
    text: &mut String,
) -> Result<bool, AllocError>
    requires some { 0 < room }
    requires fits { room ≤ 4 }
{
    let Some(fails) = numbers_of(alloc, fails)? else {
        return Ok(false);
    };
    let mut source = MemSource::new(Vec::from_slice(alloc, BYTES)?, fails);
    tell_pulls(&mut source, room, text)?;
    Ok(true)
}

// Tells what four pulls of a source give that never fails.
fn tell_sure(alloc: Global, room: usize, text: &mut String) -> Result<bool, AllocError>
    requires some { 0 < room }
    requires fits { room ≤ 4 }
{
    let mut source = SureSource::new(Vec::from_slice(alloc, BYTES)?);
    tell_pulls(&mut source, room, text)?;
    Ok(true)
}

/// Tells what four pulls of a source give, of which these are to fail, or which never fails; whether the words say so.
pub(crate) fn pull(
    alloc: Global,
    room: &str,
    fails: &str,
    text: &mut String,
) -> Result<bool, AllocError> {
    let Ok(room) = room.parse::<usize>() else {
        return Ok(false);
    };
    if room == 0 || room > MOST {
        return Ok(false);
    }
    if fails == "never" {
        return tell_sure(alloc, room, text);
    }
    tell_failing(alloc, room, fails, text)
}

// The same of a sink that never fails.
fn push_sure(alloc: Global, text: &mut String) -> Result<bool, AllocError> {
    let mut sink = SureSink::new(alloc)?;
    tell_pushes(&mut sink, text)?;
    tell_taken(sink.bytes(), text)?;
    Ok(true)
}

/// Tells what the pushes of `ab`, nothing and `cd` to a sink answer, of which these are to fail, or which never fails, and what it then has; whether
/// the words say so.
pub(crate) fn push(alloc: Global, fails: &str, text: &mut String) -> Result<bool, AllocError> {
    if fails == "never" {
        return push_sure(alloc, text);
    }
    let Some(fails) = numbers_of(alloc, fails)? else {
        return Ok(false);
    };
    let mut sink = MemSink::new(alloc, fails)?;
    tell_pushes(&mut sink, text)?;
    tell_taken(sink.bytes(), text)?;
    Ok(true)
}
