//! An example for embedders: runs over ends of its own, in a program of its own.
//!
//! A script that lies in the program is served over a store in memory. Its replies go to standard output through an end that counts the pieces, and behind
//! them stand how many there were and the status of the run. Then the same with a limit of four bytes, which ends the run at its limit.
#![tactic(auto)]

mod ends;

use ends::Counted;
use rc_outside::{Sink, SinkErr, StdSink, SureSource, SureStore};
use rc_shell::{Status, run_with};
use std::alloc::{AllocError, Global};
use std::process::ExitCode;

/// What is served.
const SCRIPT: &[u8] =
    b"schema ck=int static=s cols=a\ninsert p 1 ts=1 a=5\nupdate p 2 ts=1 a=6\nflush\ndelete p 2 ts=2 dt=0\nopen 1 p\nread 1 9\n";

fn main(rt: HostRuntime) -> ExitCode {
    let alloc = rt.alloc();
    let mut out = Counted::new(StdSink::new(&rt));
    let whole = serve(alloc, 1 << 40, &mut out);
    let cut = serve(alloc, 4, &mut out);
    match (whole, cut) {
        (Ok(Status::Done), Ok(Status::InputLimit)) => ExitCode::SUCCESS,
        _ => ExitCode::FAILURE,
    }
}

/// Serves the script over an empty store in memory, at most so many bytes of it, and writes how many pieces were written so far, and the run's status.
/// `AllocError` when memory is refused before the run begins; a failure of the output is passed over.
fn serve<K: Sink>(alloc: Global, limit: u64, out: &mut Counted<K>) -> Result<Status, AllocError> {
    let mut words = Vec::new(alloc);
    words.push(String::from_str(alloc, "run")?)?;
    let mut input = Counted::new(SureSource::new(Vec::from_slice(alloc, SCRIPT)?));
    let mut store = SureStore::new(alloc)?;
    let status = run_with(alloc, words.as_slice(), &mut store, &mut input, out, limit);
    let line = format!(in alloc;
        "{} pieces so far, status {}\n",
        out.answered(),
        status.code()
    )?;
    let _ = out.push(line.as_bytes());
    Ok(status)
}
