//! Cases of schemas, keys, rows and answers: a line of standard input is a case, and what is printed for it is its answer.
//! The answers were worked out by hand from the rules. An empty line or one that begins with `#` is no case.
#![tactic(auto)]

mod answers;
mod keys;
mod rows;
mod schemas;
mod shown;

use answers::{NO_CASE, says};
use std::alloc::{AllocError, Global};
use std::io;

/// Tells the answer to a case.
fn answer(alloc: Global, line: &[u8], text: &mut String) -> Result<(), AllocError> {
    if let Some(spelled) = line.strip_prefix(b"schema ") {
        return schemas::reads(alloc, spelled, text);
    }
    let words = rc_spelling::words(alloc, line)?;
    answer_of(alloc, words.as_slice(), text)
}

/// Tells the answer to a case of these words.
fn answer_of(alloc: Global, words: &[&[u8]], text: &mut String) -> Result<(), AllocError> {
    match words {
        [kind, word] if says(kind, "slice") => shown::slice(alloc, word, text),
        [kind, first, second] if says(kind, "wins") => rows::wins(alloc, first, second, text),
        [kind, first, second] if says(kind, "shows") => shown::shows(alloc, first, second, text),
        [kind, kinds, full, key] if says(kind, "key") => {
            schemas::checks_key(alloc, kinds, full, key, text)
        }
        [kind, place, column, cell] if says(kind, "row") => {
            schemas::checks_row(alloc, place, column, cell, text)
        }
        [kind, marker, tomb, cell, cover] if says(kind, "life") => {
            rows::life(alloc, marker, tomb, cell, cover, text)
        }
        _ => text.push_str(NO_CASE),
    }
}

/// Whether a line is a case.
fn is_case(line: &[u8]) -> bool {
    !line.is_empty() && !line.starts_with(b"#")
}

fn main(rt: HostRuntime) -> io::Result<()> {
    let alloc = rt.alloc();
    for line in rt.lines(alloc) {
        let line = line?;
        if is_case(line.as_bytes()) {
            let mut text = String::new(alloc);
            answer(alloc, line.as_bytes(), &mut text)?;
            println!(rt; "{text}")?;
        }
    }
    Ok(())
}
