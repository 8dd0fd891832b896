//! A run of a case, and what it came to.

use crate::case::{Case, Stored};
use crate::slow::OneByte;
use crate::stores::Runner;
use rc_outside::{MemSink, MemSource, MemStore, Source, SureSource};
use rc_plain::Plain;
use rc_shell::{Status, run, run_on, run_with};
use std::alloc::{AllocError, Global};

// The most input that a run takes where a case says nothing: 2^40 bytes.
const INPUT_LIMIT: u64 = 1 << 40;

/// What a run came to.
#[derive(Drop)]
pub(crate) struct Outcome {
    /// The status of the program.
    pub(crate) status: u64,
    /// What was written, without what is not compared.
    pub(crate) text: Vec<u8>,
    /// How many lines told a fault of the store, where these are not compared.
    pub(crate) faults: Option<u64>,
}

impl Outcome {
    /// Nothing yet.
    pub(crate) fn new(alloc: Global) -> Self {
        Outcome {
            status: 0,
            text: Vec::new(alloc),
            faults: None,
        }
    }
}

// The output of a case.
fn sink_of(alloc: Global, case: &Case) -> Result<MemSink, AllocError> {
    let pushes = Vec::from_slice(alloc, case.pushes.as_slice())?;
    MemSink::new(alloc, pushes)
}

// The input of a case.
fn source_of(alloc: Global, case: &Case) -> Result<MemSource, AllocError> {
    let pulls = Vec::from_slice(alloc, case.pulls.as_slice())?;
    let bytes = Vec::from_slice(alloc, case.input.as_slice())?;
    Ok(MemSource::new(bytes, pulls))
}

// The status of a run on the shard.
fn shard_status<I: Source>(
    alloc: Global,
    case: &Case,
    store: &mut MemStore,
    input: &mut I,
    out: &mut MemSink,
) -> Status {
    let words = case.words.as_slice();
    match case.limit {
        None => run(alloc, words, store, input, out),
        Some(limit) => run_with(alloc, words, store, input, out, limit),
    }
}

// The status of a run on the plain program.
fn plain_status<I: Source>(
    alloc: Global,
    case: &Case,
    store: &mut MemStore,
    input: &mut I,
    out: &mut MemSink,
) -> Status {
    let words = case.words.as_slice();
    let limit = case.limit.unwrap_or(INPUT_LIMIT);
    run_on::<Plain, MemStore, I, MemSink>(alloc, words, store, input, out, limit)
}

// The status of a run on a machine.
fn status_by<I: Source>(
    alloc: Global,
    by: Runner,
    case: &Case,
    store: &mut MemStore,
    input: &mut I,
    out: &mut MemSink,
) -> Status {
    match by {
        Runner::Shard => shard_status(alloc, case, store, input, out),
        Runner::Plain => plain_status(alloc, case, store, input, out),
    }
}

// The status of a run whose input is given a byte at a time.
fn slow_status(
    alloc: Global,
    by: Runner,
    case: &Case,
    store: &mut MemStore,
    out: &mut MemSink,
) -> Result<Status, AllocError> {
    let bytes = Vec::from_slice(alloc, case.input.as_slice())?;
    let bytes = SureSource::new(bytes);
    let mut input = OneByte { bytes };
    Ok(status_by(alloc, by, case, store, &mut input, out))
}

// The status of a run over a store.
fn status_of(
    alloc: Global,
    by: Runner,
    case: &Case,
    store: &mut MemStore,
    out: &mut MemSink,
) -> Result<Status, AllocError> {
    if case.slow {
        return slow_status(alloc, by, case, store, out);
    }
    let mut input = source_of(alloc, case)?;
    Ok(status_by(alloc, by, case, store, &mut input, out))
}

// The status of a run over a store; what it writes is appended.
fn served(
    alloc: Global,
    by: Runner,
    case: &Case,
    store: &mut MemStore,
    text: &mut Vec<u8>,
) -> Result<u64, AllocError> {
    let mut out = sink_of(alloc, case)?;
    let status = status_of(alloc, by, case, store, &mut out)?;
    text.extend_from_slice(out.bytes())?;
    Ok(u64::from(status.code()))
}

// A line that tells a fault of the store.
fn tells_fault(line: &[u8]) -> bool {
    line == b"? read fault".as_slice() || line == b"? write fault".as_slice()
}

// A line that a command gets which is sent again after it was done.
fn tells_repeat(line: &[u8]) -> bool {
    line == b"? nothing to flush".as_slice() || line == b"? reader in use".as_slice()
}

// How many lines tell a fault; the lines but those and those of commands that are sent again are appended.
fn append_others(text: &[u8], kept: &mut Vec<u8>) -> Result<u64, AllocError> {
    let mut faults = 0u64;
    for line in text.split_inclusive(|byte| *byte == b'\n') {
        let said = line.strip_suffix(b"\n").unwrap_or(line);
        if tells_fault(said) {
            faults = faults.saturating_add(1);
        } else if !tells_repeat(said) {
            kept.extend_from_slice(line)?;
        }
    }
    Ok(faults)
}

/// What a run of a case on a machine, over a store, comes to, where there was nothing yet.
pub(crate) fn run_case(
    alloc: Global,
    by: Runner,
    case: &Case,
    store: &mut MemStore,
    outcome: &mut Outcome,
) -> Result<(), AllocError> {
    match case.wanted.faults {
        None => {
            outcome.status = served(alloc, by, case, store, &mut outcome.text)?;
            Ok(())
        }
        Some(_) => run_with_faults(alloc, by, case, store, outcome),
    }
}

// The same, with the faults that are told counted.
fn run_with_faults(
    alloc: Global,
    by: Runner,
    case: &Case,
    store: &mut MemStore,
    outcome: &mut Outcome,
) -> Result<(), AllocError> {
    let mut text = Vec::new(alloc);
    outcome.status = served(alloc, by, case, store, &mut text)?;
    outcome.faults = Some(append_others(text.as_slice(), &mut outcome.text)?);
    Ok(())
}

/// Whether a run came to what a case wants, and left such a store.
pub(crate) fn is_wanted(case: &Case, found: &Outcome, store: &MemStore) -> bool {
    found.status == case.wanted.status
        && found.text == case.wanted.text
        && found.faults == case.wanted.faults
        && has_files(case, store)
}

// Whether the store has the files that a case wants.
fn has_files(case: &Case, store: &MemStore) -> bool {
    for pair in &case.wanted.files {
        let found = store.file(pair.0);
        let same = match &pair.1 {
            Stored::Nothing => found.is_none(),
            Stored::Something => found.is_some(),
            Stored::Bytes(bytes) => found == Some(bytes.as_slice()),
        };
        if !same {
            return false;
        }
    }
    true
}
