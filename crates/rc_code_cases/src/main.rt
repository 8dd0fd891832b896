//! Cases of positions, ranges, range tombstones and codes: a line of standard input is a case, and what is printed for it is its answer.
//! The answers were worked out by hand from the rules. An empty line or one that begins with `#` is no case.
#![tactic(auto)]

mod answers;
mod codes;
mod positions;
mod ranges;

use answers::{NO_CASE, says};
use std::alloc::{AllocError, Global};
use std::io;

/// Tells the answer to a case.
fn answer(alloc: Global, line: &[u8], text: &mut String) -> Result<(), AllocError> {
    let words = rc_spelling::words(alloc, line)?;
    answer_of(alloc, words.as_slice(), text)
}

/// Tells the answer to a case of these words.
fn answer_of(alloc: Global, words: &[&[u8]], text: &mut String) -> Result<(), AllocError> {
    match words {
        [kind, spans @ ..] if says(kind, "adds") => ranges::adds(alloc, spans, text),
        [kind, number, weight, spans @ ..] if says(kind, "over") => {
            ranges::over(alloc, number, weight, spans, text)
        }
        [kind, word] if says(kind, "many") => ranges::many(alloc, word, text),
        [kind, first, second] => coded(alloc, kind, first, second, text),
        [kind, from, to, key] if says(kind, "within") => {
            positions::within(alloc, from, to, key, text)
        }
        [kind, left, left_weight, right, right_weight] if says(kind, "order") => {
            positions::order(alloc, left, left_weight, right, right_weight, text)
        }
        _ => text.push_str(NO_CASE),
    }
}

/// Tells the answer to a case of codes.
fn coded(
    alloc: Global,
    kind: &[u8],
    first: &[u8],
    second: &[u8],
    text: &mut String,
) -> Result<(), AllocError> {
    if says(kind, "code") {
        return codes::reads(alloc, first, second, text);
    }
    if says(kind, "join") {
        return codes::joins(alloc, first, second, text);
    }
    if says(kind, "weighs") {
        return codes::weighs(alloc, first, second, text);
    }
    if says(kind, "entry") {
        return codes::entry(alloc, first, second, text);
    }
    text.push_str(NO_CASE)
}

/// Whether a line is a case.
fn is_case(line: &[u8]) -> bool {
    !line.is_empty() && !line.starts_with(b"#")
}

fn main(rt: HostRuntime) -> io::Result<()> {
    let alloc = rt.alloc();
    for line in rt.lines(alloc) {
        let line = line?;
        if is_case(line.as_bytes()) {
            let mut text = String::new(alloc);
            answer(alloc, line.as_bytes(), &mut text)?;
            println!(rt; "{text}")?;
        }
    }
    Ok(())
}
