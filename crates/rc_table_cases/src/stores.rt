//! Stores in memory: one of which a call fails, and one that never fails.

ghost use Rattle.std.specs.Prelude.{◌≡◌, None};
ghost use Rattle.rc_outside.specs.Files.{IsNoFile};

use rc_outside::{Failed, MemStore, Store, StoreCall, StoreErr, SureStore};
use std::alloc::{AllocError, Global};
use std::fmt::Write;

/// A call that fails.
#[derive(Clone, Copy, Debug)]
pub(crate) struct Failing {
    /// Its kind.
    pub(crate) call: StoreCall,
    /// Which of this kind, counted from 1.
    pub(crate) nth: u64,
}

// `k` for Ok, `!` for a fault, `m` for want of memory.
fn said<T: Drop>(answer: Result<T, StoreErr>) -> char {
    match answer {
        Ok(_) => 'k',
        Err(StoreErr::Fault) => '!',
        Err(StoreErr::NoMemory) => 'm',
    }
}

// `k` for Ok, `!` for a fault.
fn told<T: Drop>(answer: Result<T, Failed>) -> char {
    match answer {
        Ok(_) => 'k',
        Err(Failed) => '!',
    }
}

// Builds file `n` of two pieces. `k` where each of the four calls did, else what the first did that was refused.
fn build<S: Store>(store: &mut S, alloc: Global, n: u32, one: &[u8], two: &[u8]) -> char
    requires idle { S.building store.old ≡ None }
    requires fresh { IsNoFile (S.files store.old) n }
    ensures { S.building store.new ≡ None }
{
    let begun = store.begin(alloc, n);
    if begun.is_err() {
        return said(begun);
    }
    let appended = store.append(alloc, one);
    if appended.is_err() {
        return said(appended);
    }
    let grown = store.append(alloc, two);
    if grown.is_err() {
        return said(grown);
    }
    said(store.finish(alloc))
}

// What the begin of file `n` answers, which is given up.
fn begin<S: Store>(store: &mut S, alloc: Global, n: u32) -> char
    requires idle { S.building store.old ≡ None }
    requires fresh { IsNoFile (S.files store.old) n }
    ensures { S.building store.new ≡ None }
{
    let answer = said(store.begin(alloc, n));
    store.abandon();
    answer
}

// What the append of a piece to file `n` answers, which is given up; `-` where it was not begun.
fn append<S: Store>(store: &mut S, alloc: Global, n: u32) -> char
    requires idle { S.building store.old ≡ None }
    requires fresh { IsNoFile (S.files store.old) n }
    ensures { S.building store.new ≡ None }
{
    if store.begin(alloc, n).is_err() {
        return '-';
    }
    let answer = said(store.append(alloc, b"a"));
    store.abandon();
    answer
}

// What a call on a store answers that has file 1 and no file `n`; a call that builds is one of those that build file `n`.
fn attempt(store: &mut MemStore, alloc: Global, call: StoreCall, n: u32) -> char
    requires { store.old.building ≡ None }
    ensures { store.new.building ≡ None }
{
    if store.file(1).is_none() || store.file(n).is_some() {
        return '-';
    }
    match call {
        StoreCall::Numbers => said(store.numbers(alloc)),
        StoreCall::Size => told(store.size(1)),
        StoreCall::ReadAt => told(store.read_at(1, 0, &mut [])),
        StoreCall::Begin => begin(store, alloc, n),
        StoreCall::Append => append(store, alloc, n),
        StoreCall::Finish => build(store, alloc, n, b"a", b"b"),
    }
}

// The call of a name.
fn call_of(name: &str) -> Option<StoreCall> {
    match name {
        "numbers" => Some(StoreCall::Numbers),
        "size" => Some(StoreCall::Size),
        "read_at" => Some(StoreCall::ReadAt),
        "begin" => Some(StoreCall::Begin),
        "append" => Some(StoreCall::Append),
        "finish" => Some(StoreCall::Finish),
        _ => None,
    }
}

/// The call that a name and a number say, with a space between them.
pub(crate) fn failing_of(text: &str) -> Option<Failing> {
    let (name, nth) = text.split_once(' ')?;
    let call = call_of(name)?;
    let nth = nth.parse::<u64>().ok()?;
    Some(Failing { call, nth })
}

// A store that has file 1, and of which a call is to fail.
fn prepare(alloc: Global, store: &mut MemStore, failing: Failing) -> Result<(), AllocError>
    ensures { store.new.building ≡ store.old.building }
{
    store.put_file(1, Vec::from_slice(alloc, b"one")?)?;
    store.fail_nth(failing.call, failing.nth)
}

// Tells what three calls of a kind answer, one after another.
fn tell_attempts(
    alloc: Global,
    store: &mut MemStore,
    call: StoreCall,
    text: &mut String,
) -> Result<(), AllocError>
    requires { store.old.building ≡ None }
{
    text.push(attempt(store, alloc, call, 2))?;
    text.push(attempt(store, alloc, call, 3))?;
    text.push(attempt(store, alloc, call, 4))?;
    text.push('\n')
}

/// Tells what three calls of a kind answer, one after another, of which one is to fail.
pub(crate) fn tell_calls(
    alloc: Global,
    failing: Failing,
    text: &mut String,
) -> Result<(), AllocError> {
    let mut store = MemStore::new(alloc)?;
    prepare(alloc, &mut store, failing)?;
    tell_attempts(alloc, &mut store, failing.call, text)
}

// A number and what stands behind it.
fn number_and_rest(text: &str) -> Option<(u32, &str)> {
    let (number, rest) = text.split_once(' ')?;
    let number = number.parse::<u32>().ok()?;
    Some((number, rest))
}

// A file has these bytes from now on; whether the words say which.
fn keep(alloc: Global, store: &mut SureStore, text: &str) -> Result<bool, AllocError> {
    let Some((n, bytes)) = number_and_rest(text) else {
        return Ok(false);
    };
    store.put_file(n, Vec::from_slice(alloc, bytes.as_bytes())?)?;
    Ok(true)
}

// Tells what a new file of two pieces answers; whether the words say which.
fn tell_built(
    alloc: Global,
    store: &mut SureStore,
    words: &str,
    text: &mut String,
) -> Result<bool, AllocError> {
    let Some((n, pieces)) = number_and_rest(words) else {
        return Ok(false);
    };
    let (one, two) = pieces.split_once(' ').unwrap_or((pieces, ""));
    store.abandon();
    if store.file(n).is_some() {
        return Ok(false);
    }
    text.push(build(store, alloc, n, one.as_bytes(), two.as_bytes()))?;
    text.push('\n')?;
    Ok(true)
}

// Tells the bytes of a file; whether the word says which.
fn tell_file(store: &SureStore, word: &str, text: &mut String) -> Result<bool, AllocError> {
    let Ok(n) = word.parse::<u32>() else {
        return Ok(false);
    };
    match store.file(n) {
        Some(bytes) => {
            for byte in bytes {
                text.push(char::from(*byte))?;
            }
        }
        None => text.push_str("no file")?,
    }
    text.push('\n')?;
    Ok(true)
}

// Tells the numbers of the files.
fn tell_numbers(
    alloc: Global,
    store: &mut SureStore,
    text: &mut String,
) -> Result<bool, AllocError> {
    let Ok(numbers) = store.numbers(alloc) else {
        return Ok(false);
    };
    for n in numbers {
        write!(text, "{n},")?;
    }
    text.push('\n')?;
    Ok(true)
}

/// Does what a line says to a store that never fails, and tells what it answers; whether the line says what.
pub(crate) fn serve(
    alloc: Global,
    store: &mut SureStore,
    line: &str,
    text: &mut String,
) -> Result<bool, AllocError> {
    let (kind, words) = line.split_once(' ').unwrap_or((line, ""));
    match kind {
        "keep" => keep(alloc, store, words),
        "build" => tell_built(alloc, store, words, text),
        "show" => tell_file(store, words, text),
        "numbers" => tell_numbers(alloc, store, text),
        "asks" => {
            let asks = store.asks();
            write!(text, "{asks}\n")?;
            Ok(true)
        }
        _ => Ok(false),
    }
}
