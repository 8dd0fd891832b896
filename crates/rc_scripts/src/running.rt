//! A script on the shard and on the plain program, each over a store of its own.

use crate::script::Script;
use rc_folder::Machine;
use rc_outside::{SureSink, SureSource, SureStore};
use rc_plain::Plain;
use rc_shard::Shard;
use rc_shell::run_on;
use std::alloc::{AllocError, Global};
use std::fmt::Write;

/// The most input that a run takes: 2^40 bytes.
const INPUT_LIMIT: u64 = 1 << 40;

/// No script makes a table of this number.
const BEHIND_TABLES: u32 = 5000;

/// What a run came to.
#[derive(Drop)]
struct Ended {
    status: u8,
    out: SureSink,
    store: SureStore,
}

// The words of a run with a budget.
fn words_of(alloc: Global, segments: u32) -> Result<Vec<String>, AllocError> {
    let mut number = String::new(alloc);
    write!(number, "{segments}")?;
    let mut words = Vec::new(alloc);
    words.push(String::from_str(alloc, "run")?)?;
    words.push(String::from_str(alloc, "--segments")?)?;
    words.push(number)?;
    Ok(words)
}

// A run of a script on a machine.
fn run_of<M: Machine>(alloc: Global, script: &Script) -> Result<Ended, AllocError> {
    let words = words_of(alloc, script.segments)?;
    let bytes = Vec::from_slice(alloc, script.text.as_bytes())?;
    let mut input = SureSource::new(bytes);
    let mut out = SureSink::new(alloc)?;
    let mut store = SureStore::new(alloc)?;
    let status = run_on::<M, SureStore, SureSource, SureSink>(
        alloc,
        words.as_slice(),
        &mut store,
        &mut input,
        &mut out,
        INPUT_LIMIT,
    );
    Ok(Ended {
        status: status.code(),
        out,
        store,
    })
}

// Whether two stores have the same files.
fn have_same_files(one: &SureStore, other: &SureStore) -> bool {
    for number in 0..BEHIND_TABLES {
        if one.file(number) != other.file(number) {
            return false;
        }
    }
    true
}

// Whether two runs wrote the same bytes and files, and ended alike, at the end of the input.
fn are_alike(one: &Ended, other: &Ended) -> bool {
    one.status == 0
        && other.status == 0
        && one.out.bytes() == other.out.bytes()
        && have_same_files(&one.store, &other.store)
}

/// Whether a script comes to the same on both machines.
pub(crate) fn is_same_on_both(alloc: Global, script: &Script) -> Result<bool, AllocError> {
    let shard = run_of::<Shard>(alloc, script)?;
    let plain = run_of::<Plain>(alloc, script)?;
    Ok(are_alike(&shard, &plain))
}
