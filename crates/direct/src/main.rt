//! The plain machine as a program: called directly, with no run around it. It is an example for embedders, and what `kit/conform` compares the program
//! `rowcache` with.
//!
//! It has a loop, a store and replies of its own. All of its input is read first. The first schema line opens the machine over the tables of the folder;
//! each line behind it is one call of the machine, whose reply comes back as a value, of which the rows are counted, and is printed. At the end it says
//! on standard error how many rows were given and how many tables written. The status is 0, or 3 where the tables cannot be opened.
#![tactic(auto)]

mod calls;
mod early;
mod stores;

ghost use Rattle.rc_machine.specs.State.{State};
ghost use Rattle.rc_plain.specs.Stands.{PlainStands};

use anyhow::Result;
use calls::answer;
use early::{last_line, schema_of};
use rc_lines::{Reply, print_reply};
use rc_outside::{FolderStore, Sink, StdSink, Store};
use rc_plain::{Machine, Plain};
use rc_schema::Schema;
use std::alloc::Global;
use std::io::{BufRead, BufReader};
use std::process::ExitCode;
use stores::Written;

/// The budget that the machine is opened with, of which the plain one takes no heed.
const SEGMENTS: u32 = 32;

/// The status where a table of the folder is damaged, or of another schema.
const BAD_TABLE: u8 = 3;

fn main(rt: HostRuntime) -> Result<ExitCode> {
    let alloc = rt.alloc();
    let lines = BufReader::new(alloc, rt.stdin())?
        .split(alloc, b'\n')
        .collect::<std::io::Result<Vec<Vec<u8>>>>(alloc)??;
    let mut out = StdSink::new(&rt);
    let Some((schema, rest)) = schema_of(alloc, lines.as_slice(), &mut out)? else {
        return Ok(ExitCode::SUCCESS);
    };
    let mut store = Written::new(FolderStore::new(&rt));
    let Some(rows) = run(alloc, &mut store, schema, rest, &mut out)? else {
        return Ok(ExitCode::from(BAD_TABLE));
    };
    eprintln!(rt; "{rows} rows given, {} tables written", store.written())?;
    Ok(ExitCode::SUCCESS)
}

/// Opens the machine and answers the lines behind the first schema line; None where the tables cannot be opened.
fn run<W: Store, K: Sink>(
    alloc: Global,
    store: &mut W,
    schema: Schema,
    lines: &[Vec<u8>],
    out: &mut K,
) -> Result<Option<u64>> {
    match Plain::open(alloc, store, schema, SEGMENTS) {
        Ok(mut machine) => {
            out.push(b"ok\n")?;
            Ok(Some(serve(alloc, &mut machine, store, lines, out)?))
        }
        Err(error) => {
            out.push(last_line(alloc, &error)?.as_bytes())?;
            Ok(None)
        }
    }
}

/// Answers the lines behind the first schema line, and gives the number of rows in all replies. Ends where memory runs out or the output fails.
fn serve<W: Store, K: Sink>(
    alloc: Global,
    machine: &mut Plain,
    store: &mut W,
    lines: &[Vec<u8>],
    out: &mut K,
) -> Result<u64>
    requires { (m : State) × PlainStands (W.files store.old) machine.old m }
{
    let mut rows = 0u64;
    for line in lines {
        let reply = answer(alloc, machine, store, line.as_slice())?;
        rows = rows.saturating_add(rows_of(&reply));
        push_reply(alloc, machine.schema(), &reply, out)?;
    }
    Ok(rows)
}

/// Writes the text of a reply.
fn push_reply<K: Sink>(alloc: Global, schema: &Schema, reply: &Reply, out: &mut K) -> Result<()> {
    let mut text = Vec::new(alloc);
    print_reply(alloc, schema, reply, &mut text)?;
    out.push(text.as_slice())?;
    Ok(())
}

/// How many lines of rows a reply has, the static one too.
fn rows_of(reply: &Reply) -> u64 {
    match reply {
        Reply::Given { lines, .. } => lines.as_slice().len() as u64,
        _ => 0,
    }
}
