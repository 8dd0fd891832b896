//! Cases of range tombstones. `adds SPAN..` adds them one after another, and joins the others and the first one too; its answer is what they come to.
//! `over NUMBER WEIGHT SPAN..` asks for the tombstone at a position. A span is FROM:TO@TS, from one number on and before another. `many WORD` joins
//! 10,000 spans over ten numbers each, two lists at a time: their timestamps rise, fall or are the same.

use crate::answers::{NO_CASE, says};
use crate::positions::weight_of;
use rc_cell::Tomb;
use rc_position::{Comp, Key, Pos, Weight};
use rc_ranges::{Piece, Ranges};
use rc_spelling::signed;
use std::alloc::{AllocError, Global};
use std::fmt::Write;

// From one number on, before another, with a timestamp.
#[derive(Clone, Copy)]
struct Span {
    from: i64,
    to: i64,
    ts: i64,
}

fn pos(alloc: Global, number: i64, weight: Weight) -> Result<Pos, AllocError> {
    Ok(Pos {
        prefix: Key::from_slice(alloc, &[Comp::Int(number)])?,
        weight,
    })
}

// What stands before the first such byte, and behind it.
fn cut_at(word: &[u8], mark: u8) -> Option<(&[u8], &[u8])> {
    let place = word.iter().position(|byte| *byte == mark)?;
    if word.len() <= place {
        return None;
    }
    let (before, rest) = word.split_at(place);
    let (_mark, behind) = rest.split_first()?;
    Some((before, behind))
}

fn span_of(word: &[u8]) -> Option<Span> {
    let (from, rest) = cut_at(word, b':')?;
    let (to, ts) = cut_at(rest, b'@')?;
    Some(Span {
        from: signed(from)?,
        to: signed(to)?,
        ts: signed(ts)?,
    })
}

// Adds the tombstone of a span; nothing where it is empty.
fn add_span(alloc: Global, ranges: &mut Ranges, span: Span) -> Result<(), AllocError> {
    let from = pos(alloc, span.from, Weight::Before)?;
    let to = pos(alloc, span.to, Weight::Before)?;
    add_between(alloc, ranges, &from, &to, span.ts)
}

fn add_between(
    alloc: Global,
    ranges: &mut Ranges,
    from: &Pos,
    to: &Pos,
    ts: i64,
) -> Result<(), AllocError> {
    if *from < *to {
        return ranges.add(alloc, from, to, Tomb { ts, dt: 7 });
    }
    Ok(())
}

// The tombstones of spans, added one after another.
fn ranges_of(alloc: Global, spans: &[&[u8]]) -> Result<Ranges, AllocError> {
    let mut ranges = Ranges::empty(alloc);
    for word in spans {
        if let Some(span) = span_of(word) {
            add_span(alloc, &mut ranges, span)?;
        }
    }
    Ok(ranges)
}

// The number of a position before a row, or of no such one -1.
fn number_of(x: &Pos) -> i64 {
    match (x.prefix.as_slice(), x.weight) {
        ([Comp::Int(number)], Weight::Before) => *number,
        _ => -1,
    }
}

// A piece as a span; a deletion time other than 7 is told.
fn tell_piece(piece: &Piece, text: &mut String) -> Result<(), AllocError> {
    let (from, to) = (number_of(&piece.from), number_of(&piece.to));
    let Tomb { ts, dt } = piece.tomb;
    let other = if dt == 7 { "" } else { " of another time" };
    write!(text, "{from}:{to}@{ts}{other}")
}

// Spans, with spaces between them.
fn tell_pieces(pieces: &[Piece], text: &mut String) -> Result<(), AllocError> {
    for piece in pieces {
        if !text.is_empty() {
            text.push_str(" ")?;
        }
        tell_piece(piece, text)?;
    }
    Ok(())
}

// The tombstones of spans, the first one joined last.
fn joined_of(alloc: Global, first: &[u8], others: &[&[u8]]) -> Result<Ranges, AllocError> {
    let mut joined = ranges_of(alloc, others)?;
    join_first(alloc, &mut joined, first)?;
    Ok(joined)
}

fn join_first(alloc: Global, joined: &mut Ranges, first: &[u8]) -> Result<(), AllocError> {
    let one = ranges_of(alloc, &[first])?;
    joined.join(alloc, &one)
}

fn tell_joined(
    alloc: Global,
    first: &[u8],
    others: &[&[u8]],
    text: &mut String,
) -> Result<(), AllocError> {
    let joined = joined_of(alloc, first, others)?;
    tell_pieces(joined.as_slice(), text)
}

fn tell_added(alloc: Global, spans: &[&[u8]], text: &mut String) -> Result<(), AllocError> {
    let added = ranges_of(alloc, spans)?;
    tell_pieces(added.as_slice(), text)
}

// Tells what spans added one after another come to, or that it is not this.
fn tell_added_as(
    alloc: Global,
    spans: &[&[u8]],
    joined: &str,
    text: &mut String,
) -> Result<(), AllocError> {
    tell_added(alloc, spans, text)?;
    if text.as_str() == joined {
        return Ok(());
    }
    text.clear();
    text.push_str("differs")
}

/// Tells what spans come to, added one after another or joined to the first one, or that these differ.
pub(crate) fn adds(alloc: Global, spans: &[&[u8]], text: &mut String) -> Result<(), AllocError> {
    let [first, others @ ..] = spans else {
        return text.push_str(NO_CASE);
    };
    let mut joined = String::new(alloc);
    tell_joined(alloc, first, others, &mut joined)?;
    tell_added_as(alloc, spans, joined.as_str(), text)
}

fn stamp(tomb: Option<Tomb>) -> Option<i64> {
    match tomb {
        Some(tomb) => Some(tomb.ts),
        None => None,
    }
}

/// Tells the timestamp of the tombstone at a position, in a list, in its copy and at a row, or that these differ.
pub(crate) fn over(
    alloc: Global,
    number: &[u8],
    weight: &[u8],
    spans: &[&[u8]],
    text: &mut String,
) -> Result<(), AllocError> {
    let (Some(number), Some(weight)) = (signed(number), weight_of(weight)) else {
        return text.push_str(NO_CASE);
    };
    let x = pos(alloc, number, weight)?;
    over_position(alloc, spans, &x, text)
}

fn over_position(
    alloc: Global,
    spans: &[&[u8]],
    x: &Pos,
    text: &mut String,
) -> Result<(), AllocError> {
    let ranges = ranges_of(alloc, spans)?;
    let copy = copy_of(alloc, &ranges)?;
    tell_stamp(found(&ranges, &copy, x), text)
}

fn tell_stamp(found: Option<Option<i64>>, text: &mut String) -> Result<(), AllocError> {
    match found {
        None => text.push_str("differs"),
        Some(None) => text.push_str("none"),
        Some(Some(ts)) => write!(text, "{ts}"),
    }
}

// The timestamp of the tombstone at a position; none where a copy of the list, or the list at the row, has another.
fn found(ranges: &Ranges, copy: &Ranges, x: &Pos) -> Option<Option<i64>> {
    let found = stamp(ranges.at(x));
    if stamp(copy.at(x)) == found && at_row(ranges, x) == found {
        Some(found)
    } else {
        None
    }
}

fn copy_of(alloc: Global, ranges: &Ranges) -> Result<Ranges, AllocError> {
    let copy = ranges.copy(alloc)?;
    Ranges::from_slice(alloc, copy.as_slice())
}

fn at_row(ranges: &Ranges, x: &Pos) -> Option<i64> {
    match x.weight {
        Weight::At => stamp(ranges.at_row(&x.prefix)),
        Weight::Before | Weight::After => stamp(ranges.at(x)),
    }
}

// One list and the others joined.
fn both_of(alloc: Global, first: &Ranges, others: &[Ranges]) -> Result<Ranges, AllocError> {
    let mut both = first.copy(alloc)?;
    join_others(alloc, &mut both, others)?;
    Ok(both)
}

fn join_others(alloc: Global, both: &mut Ranges, others: &[Ranges]) -> Result<(), AllocError> {
    for other in others {
        both.join(alloc, other)?;
    }
    Ok(())
}

// Two at a time, and the last alone where their count is odd.
fn in_pairs(alloc: Global, all: &[Ranges]) -> Result<Vec<Ranges>, AllocError> {
    let mut pairs = Vec::new(alloc);
    push_pairs(alloc, all, &mut pairs)?;
    Ok(pairs)
}

fn push_pairs(alloc: Global, all: &[Ranges], pairs: &mut Vec<Ranges>) -> Result<(), AllocError> {
    for pair in all.chunks(2) {
        if let [first, others @ ..] = pair {
            pairs.push(both_of(alloc, first, others)?)?;
        }
    }
    Ok(())
}

fn stamp_of(word: &[u8], from: i64) -> i64 {
    if says(word, "rise") {
        return from;
    }
    if says(word, "fall") {
        return !from;
    }
    5
}

// 10,000 lists of one span over ten numbers each, which begin one number after another.
fn push_many(alloc: Global, word: &[u8], all: &mut Vec<Ranges>) -> Result<(), AllocError> {
    for from in 0..10_000i64 {
        let to = from.saturating_add(10);
        let ts = stamp_of(word, from);
        all.push(range_of(alloc, Span { from, to, ts })?)?;
    }
    Ok(())
}

fn range_of(alloc: Global, span: Span) -> Result<Ranges, AllocError> {
    let mut ranges = Ranges::empty(alloc);
    add_span(alloc, &mut ranges, span)?;
    Ok(ranges)
}

/// Tells how many pieces many spans come to.
pub(crate) fn many(alloc: Global, word: &[u8], text: &mut String) -> Result<(), AllocError> {
    let mut all = Vec::new(alloc);
    join_many(alloc, word, &mut all)?;
    tell_count(all.as_slice(), text)
}

// Many spans, two lists at a time until one is left.
fn join_many(alloc: Global, word: &[u8], all: &mut Vec<Ranges>) -> Result<(), AllocError> {
    push_many(alloc, word, all)?;
    for _round in 0..14 {
        join_pairs(alloc, all)?;
    }
    Ok(())
}

fn join_pairs(alloc: Global, all: &mut Vec<Ranges>) -> Result<(), AllocError> {
    *all = in_pairs(alloc, all.as_slice())?;
    Ok(())
}

// Tells how many pieces the one list has.
fn tell_count(all: &[Ranges], text: &mut String) -> Result<(), AllocError> {
    match all {
        [one] => {
            let count = one.as_slice().len();
            write!(text, "{count}")
        }
        _ => text.push_str("differs"),
    }
}
