//! The program `rowcache`: the real ends, the words behind its name, and the exit status.
#![tactic(auto)]

ghost use Rattle.std.specs.Prelude.{◌≡◌, ◌≢◌, IfErr, map, string_bytes};
ghost use Rattle.std.specs.IoError.{error_kind};
ghost use Rattle.std.specs.Process.{exit_status};
ghost use Rattle.rc_shell.specs.Status.{exit_code};
ghost use Rattle.rowcache.specs.Serving.{IsStatus, RunsBy};

use rc_outside::{FolderStore, Sink, Source, StdSink, StdSource, Store};
use rc_shell::{Status, run};
use std::alloc::Global;
use std::env;
use std::io::{self, ErrorKind};
use std::process::ExitCode;

fn main(rt: HostRuntime) -> ExitCode {
    serve_words(&rt, words_of(&rt))
}

/// Serves as the words ask for; as none do where one of them is not UTF-8. Where memory for the words was refused nothing is served.
fn serve_words(rt: &HostRuntime, words: io::Result<Vec<String>>) -> ExitCode
    ensures status { IsStatus (exit_status result) }
    ensures memory { IfErr words (λ e. error_kind e ≢ ErrorKind.InvalidData → exit_status result ≡ exit_code Status.NoMemory) }
{
    match words {
        Ok(words) => serve_host(rt, words.as_slice()),
        Err(error) if error.kind() == ErrorKind::InvalidData => serve_host(rt, &[]),
        Err(_) => ending(Status::NoMemory),
    }
}

/// The words behind the program's name. `InvalidData` where one is not UTF-8; the only other error is want of memory.
fn words_of(rt: &HostRuntime) -> io::Result<Vec<String>> {
    Ok(env::args(rt)?.skip(1).collect::<Vec<String>>(rt.alloc())?)
}

/// Serves standard input to standard output over the folder of tables, as the words ask for.
fn serve_host(rt: &HostRuntime, words: &[String]) -> ExitCode
    ensures { IsStatus (exit_status result) }
{
    let mut store = FolderStore::new(rt);
    let mut input = StdSource::new(rt);
    let mut out = StdSink::new(rt);
    serve(rt.alloc(), words, &mut store, &mut input, &mut out)
}

/// Runs over these ends by these words, and ends with the status of that run.
fn serve<W: Store, I: Source, K: Sink>(
    alloc: Global,
    words: &[String],
    store: &mut W,
    input: &mut I,
    out: &mut K,
) -> ExitCode
    ensures run { RunsBy (map string_bytes words.now) (exit_status result) (W.files store.old, W.faults store.old, W.asks store.old) (W.files store.new, W.faults store.new, W.asks store.new)
        (I.left input.old) (I.left input.new) (I.faults input.old) (I.faults input.new) (K.written out.old) (K.written out.new) (K.faults out.old) (K.faults out.new) }
    ensures status { IsStatus (exit_status result) }
{
    ending(run(alloc, words, store, input, out))
}

/// The exit status of a status.
fn ending(status: Status) -> ExitCode
    ensures { exit_status result ≡ exit_code status }
{
    ExitCode::from(status.code())
}
