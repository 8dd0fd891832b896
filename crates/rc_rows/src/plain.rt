//! A plain computation of partitions' rows beside the program, over scripts that seeds make.

use crate::case::Case;
use crate::running::{Outcome, run_case};
use crate::stores::Runner;
use rc_outside::MemStore;
use std::alloc::{AllocError, Global};
use std::fmt::Write;

/// The partitions of these scripts.
const NAMES: [u8; 3] = [b'p', b'q', b'r'];

/// A row's value at a timestamp, or no row.
#[derive(Clone, Copy)]
struct Change {
    name: u8,
    number: i64,
    ts: i64,
    byte: Option<u8>,
}

/// The next number of a row of numbers without order.
fn after(seed: u32) -> u32 {
    seed.wrapping_mul(1_664_525).wrapping_add(1_013_904_223)
}

/// The change that a number stands for: one of three partitions, four rows, eight timestamps and eight values or none.
fn made(number: u32) -> Change {
    let bits = number >> 8;
    let value = (bits >> 7) & 7;
    Change {
        name: b'p' + (bits % 3) as u8,
        number: i64::from((bits >> 2) & 3),
        ts: i64::from((bits >> 4) & 7),
        byte: if value < 2 {
            None
        } else {
            Some(b'a' + (value & 7) as u8)
        },
    }
}

/// The greatest timestamp at which the row was deleted.
fn deleted(changes: &[Change], name: u8, number: i64) -> i64 {
    let mut at = i64::MIN;
    for change in changes {
        if change.name == name && change.number == number && change.byte.is_none() {
            at = at.max(change.ts);
        }
    }
    at
}

/// The value of the row that no other beats, if it stands above what was deleted.
fn value(changes: &[Change], name: u8, number: i64) -> Option<u8> {
    let mut above = deleted(changes, name, number);
    let mut found = None;
    for change in changes {
        if change.name == name && change.number == number {
            if let Some(byte) = change.byte {
                if change.ts > above
                    || (change.ts == above && found.is_some_and(|old| old < byte))
                {
                    above = change.ts;
                    found = Some(byte);
                }
            }
        }
    }
    found
}

/// The changes of a seed.
fn changes(alloc: Global, seed: u32) -> Result<Vec<Change>, AllocError> {
    let mut changes = Vec::new(alloc);
    let mut number = seed;
    for _ in 0..60u8 {
        number = after(number);
        changes.push(made(number))?;
    }
    Ok(changes)
}

/// The line of a change.
fn append_change(change: &Change, script: &mut String) -> Result<(), AllocError> {
    let (name, number, ts) = (char::from(change.name), change.number, change.ts);
    match change.byte {
        Some(byte) => {
            let value = char::from(byte);
            write!(script, "update {name} {number} ts={ts} a={value}\n")
        }
        None => write!(script, "delete {name} {number} ts={ts} dt=7\n"),
    }
}

/// A row that a reader is given.
fn append_row(number: i64, byte: u8, text: &mut String) -> Result<(), AllocError> {
    let value = char::from(byte);
    write!(text, "row {number} a={value}\n")
}

/// What a reader of a partition is given, from its opening to its closing.
fn append_given(changes: &[Change], name: u8, text: &mut String) -> Result<(), AllocError> {
    text.push_str("ok\n")?;
    for number in 0..4i64 {
        if let Some(byte) = value(changes, name, number) {
            append_row(number, byte, text)?;
        }
    }
    text.push_str("end\nok\n")
}

/// The lines of changes, with a flush behind each sixteenth.
fn append_changes(changes: &[Change], script: &mut String) -> Result<(), AllocError> {
    let mut written = 0u8;
    for change in changes {
        append_change(change, script)?;
        written = written.wrapping_add(1) & 15;
        if written == 0 {
            script.push_str("flush\n")?;
        }
    }
    Ok(())
}

/// A reader of each partition.
fn append_readers(script: &mut String) -> Result<(), AllocError> {
    for name in NAMES {
        let key = char::from(name);
        write!(script, "open 1 {key}\nread 1 9\nclose 1\n")?;
    }
    Ok(())
}

/// The script of changes, and then a reader of each partition.
fn append_script(changes: &[Change], script: &mut String) -> Result<(), AllocError> {
    script.push_str("schema ck=int static=- cols=a\n")?;
    append_changes(changes, script)?;
    append_readers(script)
}

/// `ok` for each change and each flush.
fn append_oks(changes: &[Change], text: &mut String) -> Result<(), AllocError> {
    let mut written = 0u8;
    for _ in changes {
        text.push_str("ok\n")?;
        written = written.wrapping_add(1) & 15;
        if written == 0 {
            text.push_str("ok\n")?;
        }
    }
    Ok(())
}

/// What the program must print for it: `ok` for the schema line, for each change and each flush, and the rows of each partition.
fn append_wanted(changes: &[Change], text: &mut String) -> Result<(), AllocError> {
    text.push_str("ok\n")?;
    append_oks(changes, text)?;
    for name in NAMES {
        append_given(changes, name, text)?;
    }
    Ok(())
}

/// Whether a machine gives this text for a script.
fn gives(alloc: Global, by: Runner, script: &str, wanted: &str) -> Result<bool, AllocError> {
    let mut case = Case::new(alloc);
    case.begin(alloc, "a seed")?;
    case.input.extend_from_slice(script.as_bytes())?;
    gives_case(alloc, by, &case, wanted)
}

/// Whether a case on a machine, over an empty store, gives this text.
fn gives_case(alloc: Global, by: Runner, case: &Case, wanted: &str) -> Result<bool, AllocError> {
    let mut store = MemStore::new(alloc)?;
    let mut found = Outcome::new(alloc);
    run_case(alloc, by, case, &mut store, &mut found)?;
    Ok(found.status == 0 && found.text.as_slice() == wanted.as_bytes())
}

/// Whether a machine gives for the script of changes what the plain computation does.
fn agrees(alloc: Global, by: Runner, changes: &[Change]) -> Result<bool, AllocError> {
    let mut script = String::new(alloc);
    append_script(changes, &mut script)?;
    let mut wanted = String::new(alloc);
    append_wanted(changes, &mut wanted)?;
    gives(alloc, by, script.as_str(), wanted.as_str())
}

/// The same for the script of a seed.
pub(crate) fn is_agreed(alloc: Global, by: Runner, seed: u32) -> Result<bool, AllocError> {
    let changes = changes(alloc, seed)?;
    agrees(alloc, by, changes.as_slice())
}
