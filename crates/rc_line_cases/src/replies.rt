//! Cases of replies, which are printed behind a `>`. `reply WORD` is a short one; `refused WHY` a refusal, `refused Damaged FILE OFFSET` one of them;
//! `stats N..` the figures in their order; `more LINE..` and `end LINE..` a reader's lines, each of which is `static` or a key, and for each
//! value `:COLUMN=VALUE`.

use crate::cutting::{cut_at, first_word, says};
use crate::spelled::comps_of;
use rc_cell::Value;
use rc_lines::{Figures, Refusal, Reply, print_refusal, print_reply};
use rc_position::Key;
use rc_query::{Lines, OutLine, Shown};
use rc_schema::Schema;
use rc_spelling::{number, read_bytes, words};
use std::alloc::{AllocError, Global};

/// Tells the reply of a case; whether it is a case of a reply.
pub(crate) fn reply_told(
    alloc: Global,
    schema: Option<&Schema>,
    kind: &[u8],
    text: &[u8],
    told: &mut Vec<u8>,
) -> Result<bool, AllocError> {
    if says(kind, "reply") {
        return plain_told(alloc, schema, &short(text), told);
    }
    if says(kind, "refused") {
        return refused_told(alloc, schema, text, told);
    }
    if says(kind, "stats") {
        return figures_told(alloc, schema, text, told);
    }
    if says(kind, "more") {
        return given_told(alloc, schema, text, true, told);
    }
    if says(kind, "end") {
        return given_told(alloc, schema, text, false, told);
    }
    Ok(false)
}

// Whether a refusal has this text where it is printed alone.
fn is_alone(alloc: Global, refusal: Refusal, text: &[u8]) -> Result<bool, AllocError> {
    let mut same = Vec::from_slice(alloc, b">")?;
    print_refusal(alloc, refusal, &mut same)?;
    Ok(same.as_slice() == text)
}

// Whether a reply has this text too where it is a refusal, which is printed alone.
fn is_same(alloc: Global, reply: &Reply, text: &[u8]) -> Result<bool, AllocError> {
    match reply {
        Reply::Refused(refusal) => is_alone(alloc, *refusal, text),
        _ => Ok(true),
    }
}

// Tells a reply behind what was there before, without its last newline; a refusal is printed alone, too.
fn tell_reply(
    alloc: Global,
    schema: &Schema,
    reply: &Reply,
    told: &mut Vec<u8>,
) -> Result<(), AllocError> {
    told.push(b'>')?;
    print_reply(alloc, schema, reply, told)?;
    if !is_same(alloc, reply, told.as_slice())? {
        told.clear();
        return told.extend_from_slice(b"differs");
    }
    if let Some(b'\n') = told.as_slice().last() {
        let _newline = told.pop();
    }
    Ok(())
}

// Tells a reply under a schema, and under none that it is no case. It is a case of a reply.
fn plain_told(
    alloc: Global,
    schema: Option<&Schema>,
    reply: &Reply,
    told: &mut Vec<u8>,
) -> Result<bool, AllocError> {
    match schema {
        Some(schema) => tell_reply(alloc, schema, reply, told)?,
        None => told.extend_from_slice(b"no case")?,
    }
    Ok(true)
}

fn short(text: &[u8]) -> Reply {
    if says(text, "Fine") {
        return Reply::Fine;
    }
    if says(text, "Going") {
        return Reply::Going;
    }
    if says(text, "Done") {
        return Reply::Done;
    }
    Reply::Nothing
}

// The refusals that say nothing but why.
const REFUSALS: [(&str, Refusal); 16] = [
    ("BadLine", Refusal::BadLine),
    ("NoSchema", Refusal::NoSchema),
    ("SchemaDiffers", Refusal::SchemaDiffers),
    ("WrongKey", Refusal::WrongKey),
    ("UnknownColumn", Refusal::UnknownColumn),
    ("TooLong", Refusal::TooLong),
    ("NoReader", Refusal::NoReader),
    ("ReaderInUse", Refusal::ReaderInUse),
    ("TooManyReaders", Refusal::TooManyReaders),
    ("FlushInProgress", Refusal::FlushInProgress),
    ("NothingToFlush", Refusal::NothingToFlush),
    ("NoFlush", Refusal::NoFlush),
    ("Full", Refusal::Full),
    ("ReadFault", Refusal::ReadFault),
    ("WriteFault", Refusal::WriteFault),
    ("NoNumber", Refusal::NoNumber),
];

fn refused(text: &[u8]) -> Option<Refusal> {
    for (name, refusal) in &REFUSALS {
        if says(text, name) {
            return Some(*refusal);
        }
    }
    damaged(text)
}

fn refused_told(
    alloc: Global,
    schema: Option<&Schema>,
    text: &[u8],
    told: &mut Vec<u8>,
) -> Result<bool, AllocError> {
    match refused(text) {
        Some(refusal) => plain_told(alloc, schema, &Reply::Refused(refusal), told),
        None => Ok(false),
    }
}

fn damaged(text: &[u8]) -> Option<Refusal> {
    let (file, offset) = first_word(text.strip_prefix(b"Damaged ")?);
    let file = number(file, 4_294_967_295)?;
    let offset = number(offset, u64::MAX)?;
    Some(Refusal::Damaged {
        file: u32::try_from(file).ok()?,
        offset,
    })
}

fn numbers_of(alloc: Global, words: &[&[u8]]) -> Result<Vec<u64>, AllocError> {
    let mut all = Vec::new(alloc);
    for word in words {
        all.push(number(word, u64::MAX).unwrap_or(0))?;
    }
    Ok(all)
}

fn figures_told(
    alloc: Global,
    schema: Option<&Schema>,
    text: &[u8],
    told: &mut Vec<u8>,
) -> Result<bool, AllocError> {
    let words = words(alloc, text)?;
    let all = numbers_of(alloc, words.as_slice())?;
    plain_told(
        alloc,
        schema,
        &Reply::Stats(figures_of(all.as_slice())),
        told,
    )
}

// The number at a place; 0 where there is none.
fn at(all: &[u64], place: usize) -> u64 {
    match all.get(place) {
        Some(number) => *number,
        None => 0,
    }
}

fn figures_of(all: &[u64]) -> Figures {
    Figures {
        segments: at(all, 0),
        free: at(all, 1),
        objects: at(all, 2),
        live: at(all, 3),
        partitions: at(all, 4),
        rows: at(all, 5),
        dummies: at(all, 6),
        hits: at(all, 7),
        misses: at(all, 8),
        evicted: at(all, 9),
        moved: at(all, 10),
        skipped: at(all, 11),
        asks: at(all, 12),
    }
}

// The lines of some words.
fn lines_of(alloc: Global, words: &[&[u8]]) -> Result<Vec<OutLine>, AllocError> {
    let mut lines = Vec::new(alloc);
    for word in words {
        lines.push(line_of(alloc, word)?)?;
    }
    Ok(lines)
}

// The lines of a text; none of an empty one.
fn lines_in(alloc: Global, text: &[u8]) -> Result<Vec<OutLine>, AllocError> {
    if text.is_empty() {
        return Ok(Vec::new(alloc));
    }
    let words = words(alloc, text)?;
    lines_of(alloc, words.as_slice())
}

// The reply of the lines of a text.
fn given(alloc: Global, text: &[u8], more: bool) -> Result<Reply, AllocError> {
    let lines = lines_in(alloc, text)?;
    let lines = Lines::from_slice(alloc, lines.as_slice())?;
    Ok(Reply::Given { lines, more })
}

fn given_told(
    alloc: Global,
    schema: Option<&Schema>,
    text: &[u8],
    more: bool,
    told: &mut Vec<u8>,
) -> Result<bool, AllocError> {
    let reply = given(alloc, text, more)?;
    plain_told(alloc, schema, &reply, told)
}

// The line of a word.
fn line_of(alloc: Global, word: &[u8]) -> Result<OutLine, AllocError> {
    let (name, values) = cut_at(word, b':');
    if says(name, "static") {
        return Ok(OutLine::Static(shown_of(alloc, values)?));
    }
    let key = Key::from_vec(comps_of(alloc, name)?);
    Ok(OutLine::Row(key, shown_of(alloc, values)?))
}

// Values with `:` between them.
fn shown_of(alloc: Global, text: &[u8]) -> Result<Shown, AllocError> {
    let values = values_of(alloc, text)?;
    Shown::from_slice(alloc, values.as_slice())
}

fn values_of(alloc: Global, text: &[u8]) -> Result<Vec<(u8, Value)>, AllocError> {
    let mut all = Vec::new(alloc);
    let mut left = text;
    for _ in 0..text.len() {
        if left.is_empty() {
            break;
        }
        let (value, rest) = cut_at(left, b':');
        push_value(alloc, value, &mut all)?;
        left = rest;
    }
    Ok(all)
}

// Appends a column and its value, where the text is that of one.
fn push_value(alloc: Global, text: &[u8], all: &mut Vec<(u8, Value)>) -> Result<(), AllocError> {
    let (column, spelled) = cut_at(text, b'=');
    let Some(column) = number(column, 255).and_then(|column| u8::try_from(column).ok()) else {
        return Ok(());
    };
    match read_bytes(alloc, spelled)? {
        Some(bytes) => all.push((column, Value::from_vec(bytes)))?,
        None => {}
    }
    Ok(())
}
