//! Cases of words, lines and replies: a line of standard input is a case, and what is printed for it is its answer.
//! The answers were worked out by hand from the grammar. The head of standard input says how a case is written.
#![tactic(auto)]

mod cutting;
mod described;
mod lines;
mod replies;
mod spelled;

use cutting::first_word;
use described::schema_of;
use rc_schema::Schema;
use rc_spelling::read_bytes;
use std::alloc::{AllocError, Global};
use std::io;

/// Tells the answer to a case of a line under a schema, or under none; whether it is one.
fn line_told(
    alloc: Global,
    schema: Option<&Schema>,
    kind: &[u8],
    text: &[u8],
    told: &mut Vec<u8>,
) -> Result<bool, AllocError> {
    let mut line = Vec::new(alloc);
    if lines::push_line(kind, text, &mut line)? {
        described::tell_line(alloc, schema, line.as_slice(), told)?;
        return Ok(true);
    }
    Ok(false)
}

/// Tells the answer to a case.
fn answer(
    alloc: Global,
    schema: Option<&Schema>,
    case: &[u8],
    told: &mut Vec<u8>,
) -> Result<(), AllocError> {
    let (kind, text) = first_word(case);
    if line_told(alloc, schema, kind, text, told)?
        || replies::reply_told(alloc, schema, kind, text, told)?
        || spelled::word_told(alloc, kind, text, told)?
    {
        return Ok(());
    }
    told.extend_from_slice(b"no case")
}

/// Tells the answer to a case that may itself be spelled.
fn answer_of_either(
    alloc: Global,
    schema: Option<&Schema>,
    case: &[u8],
    told: &mut Vec<u8>,
) -> Result<(), AllocError> {
    let Some(word) = case.strip_prefix(b"% ") else {
        return answer(alloc, schema, case, told);
    };
    match read_bytes(alloc, word)? {
        Some(case) => answer(alloc, schema, case.as_slice(), told),
        None => told.extend_from_slice(b"no case"),
    }
}

/// Tells what is printed for a line; nothing of one that is no case, as one that says under which schema the others stand. Whether it is one.
fn take(
    alloc: Global,
    schema: &mut Option<Schema>,
    line: &[u8],
    told: &mut Vec<u8>,
) -> Result<bool, AllocError> {
    if line.is_empty() || line.starts_with(b"#") {
        return Ok(false);
    }
    if let Some(text) = line.strip_prefix(b"under ") {
        *schema = schema_of(alloc, text)?;
        return Ok(false);
    }
    answer_of_either(alloc, schema.as_ref(), line, told)?;
    Ok(true)
}

fn main(rt: HostRuntime) -> io::Result<()> {
    let alloc = rt.alloc();
    let mut schema = None;
    for line in rt.lines(alloc) {
        let line = line?;
        let mut told = Vec::new(alloc);
        if take(alloc, &mut schema, line.as_bytes(), &mut told)? {
            let text = str::from_utf8(told.as_slice()).unwrap_or("no text");
            println!(rt; "{text}")?;
        }
    }
    Ok(())
}
