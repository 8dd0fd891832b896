//! What is printed of a reading.

use crate::watched::Range;
use rc_cell::Tomb;
use rc_mutation::{Frag, Head};
use rc_position::{Comp, Key, Weight};
use rc_stream::StreamErr;
use std::alloc::AllocError;
use std::fmt::Write;

// The number that a key is.
fn number_of(key: &Key) -> i64 {
    match key.as_slice().first() {
        Some(Comp::Int(number)) => *number,
        Some(Comp::Text(_)) | None => i64::MIN,
    }
}

// The word of a weight.
fn word_of(weight: Weight) -> &'static str {
    match weight {
        Weight::Before => "before",
        Weight::At => "at",
        Weight::After => "after",
    }
}

// A number with its sign.
fn tell_number(number: i64, text: &mut String) -> Result<(), AllocError> {
    if number < 0 {
        text.push('-')?;
    }
    let size = number.unsigned_abs();
    write!(text, "{size}")
}

// A tombstone, at the end of a line.
fn tell_tomb(tomb: Option<Tomb>, text: &mut String) -> Result<(), AllocError> {
    match tomb {
        Some(tomb) => {
            text.push_str("deleted@")?;
            tell_number(tomb.ts, text)?;
            text.push('\n')
        }
        None => text.push_str("not deleted\n"),
    }
}

/// The head of a partition.
pub(crate) fn tell_head(head: &Head, text: &mut String) -> Result<(), AllocError> {
    text.push_str("head: ")?;
    tell_tomb(head.pt, text)
}

/// A row, or a change of the tombstone in force.
pub(crate) fn tell_frag(frag: &Frag, text: &mut String) -> Result<(), AllocError> {
    match frag {
        Frag::Row(key, row) => {
            text.push_str("row ")?;
            tell_number(number_of(key), text)?;
            text.push('@')?;
            tell_number(row.marker.unwrap_or(i64::MIN), text)?;
            text.push('\n')
        }
        Frag::Change(from, tomb) => {
            text.push_str("from ")?;
            text.push_str(word_of(from.weight))?;
            text.push(' ')?;
            tell_number(number_of(&from.prefix), text)?;
            text.push_str(": ")?;
            tell_tomb(*tomb, text)
        }
        Frag::Start(_) | Frag::Static(_) | Frag::End => text.push_str(
            "neither a row nor a change\n",
        ),
    }
}

/// Why a call was refused.
pub(crate) fn tell_refusal(error: &StreamErr, text: &mut String) -> Result<(), AllocError> {
    match error {
        StreamErr::Fault => text.push_str("? the store failed\n"),
        StreamErr::Damaged { file, offset } => {
            write!(text, "? table {file} is damaged at {offset}\n")
        }
        StreamErr::NoMemory => text.push_str("? out of memory\n"),
    }
}

/// How many ranges were asked for, and which.
pub(crate) fn tell_asked(ranges: &[Range], text: &mut String) -> Result<(), AllocError> {
    let count = ranges.len();
    write!(text, "asked {count}")?;
    for range in ranges {
        let (table, from, count) = (range.table, range.from, range.count);
        write!(text, ", {table}:{from}+{count}")?;
    }
    text.push_str("\n")
}

/// For how many ranges was asked at the head, and in all.
pub(crate) fn tell_counts(at_head: u64, in_all: u64, text: &mut String) -> Result<(), AllocError> {
    write!(text, "{at_head} at the head, {in_all} in all\n")
}
