//! Commands and refusals in short words.

use rc_cell::{Cell, Row, Tomb, Value};
use rc_lines::{Command, LineErr, Refusal, read_line};
use rc_mutation::{Mutation, Write};
use rc_position::{Key, PartKey, Pos, Slice, Weight};
use rc_ranges::Piece;
use rc_schema::{Schema, SchemaTextErr};
use rc_spelling::{print_bytes, print_key};
use std::alloc::{AllocError, Global};

/// The schema of a text; none where it is the text of none.
pub(crate) fn schema_of(alloc: Global, text: &[u8]) -> Result<Option<Schema>, AllocError> {
    match Schema::read(alloc, text) {
        Ok(schema) => Ok(Some(schema)),
        Err(SchemaTextErr::Malformed) => Ok(None),
        Err(SchemaTextErr::NoMemory) => Err(AllocError),
    }
}

// Appends a word and a number, as `evict 20`.
fn add_counted(
    alloc: Global,
    word: &str,
    number: u32,
    text: &mut Vec<u8>,
) -> Result<(), AllocError> {
    text.extend_from_slice(format!(in alloc; "{word} {number}")?.as_bytes())
}

// Appends a timestamp and a deletion time, as ` 10/7`.
fn add_tomb(alloc: Global, tomb: &Tomb, text: &mut Vec<u8>) -> Result<(), AllocError> {
    text.extend_from_slice(format!(in alloc; " {}/{}", tomb.ts, tomb.dt)?.as_bytes())
}

// Appends a live cell, as ` 0@10=5`.
fn add_live(
    alloc: Global,
    column: u8,
    ts: i64,
    value: &Value,
    text: &mut Vec<u8>,
) -> Result<(), AllocError> {
    text.extend_from_slice(format!(in alloc; " {column}@{ts}=")?.as_bytes())?;
    print_bytes(value.as_slice(), text)
}

// Appends a dead cell, as ` 0@10!7`.
fn add_dead(
    alloc: Global,
    column: u8,
    ts: i64,
    dt: u32,
    text: &mut Vec<u8>,
) -> Result<(), AllocError> {
    text.extend_from_slice(format!(in alloc; " {column}@{ts}!{dt}")?.as_bytes())
}

// Appends each cell.
fn add_cells(alloc: Global, row: &Row, text: &mut Vec<u8>) -> Result<(), AllocError> {
    for (column, cell) in row.cells.as_slice() {
        match cell {
            Cell::Live { ts, value } => add_live(alloc, *column, *ts, value, text)?,
            Cell::Dead { ts, dt } => add_dead(alloc, *column, *ts, *dt, text)?,
        }
    }
    Ok(())
}

// Appends ` <`, ` =` or ` >`, and the prefix.
fn add_pos(pos: &Pos, text: &mut Vec<u8>) -> Result<(), AllocError> {
    text.extend_from_slice(match pos.weight {
        Weight::Before => b" <",
        Weight::At => b" =",
        Weight::After => b" >",
    })?;
    print_key(pos.prefix.as_slice(), text)
}

// Appends a marker, as ` marker 10`.
fn add_marker(alloc: Global, ts: i64, text: &mut Vec<u8>) -> Result<(), AllocError> {
    text.extend_from_slice(format!(in alloc; " marker {ts}")?.as_bytes())
}

// Appends a row.
fn add_row(alloc: Global, key: &Key, row: &Row, text: &mut Vec<u8>) -> Result<(), AllocError> {
    text.extend_from_slice(b" row ")?;
    print_key(key.as_slice(), text)?;
    if let Some(ts) = row.marker {
        add_marker(alloc, ts, text)?;
    }
    if let Some(tomb) = &row.tomb {
        add_tomb(alloc, tomb, text)?;
    }
    add_cells(alloc, row, text)
}

// Appends a range tombstone.
fn add_piece(alloc: Global, piece: &Piece, text: &mut Vec<u8>) -> Result<(), AllocError> {
    text.extend_from_slice(b" range")?;
    add_pos(&piece.from, text)?;
    add_pos(&piece.to, text)?;
    add_tomb(alloc, &piece.tomb, text)
}

// Appends a partition tombstone and a static row, each if there is one.
fn add_head(alloc: Global, change: &Mutation, text: &mut Vec<u8>) -> Result<(), AllocError> {
    if let Some(tomb) = &change.pt {
        text.extend_from_slice(b" all")?;
        add_tomb(alloc, tomb, text)?;
    }
    let statics = change.statics.as_row();
    if !statics.is_empty() {
        text.extend_from_slice(b" static")?;
        add_cells(alloc, statics, text)?;
    }
    Ok(())
}

// Appends a write: its key, and each part of it that is not empty.
fn add_write(alloc: Global, write: &Write, text: &mut Vec<u8>) -> Result<(), AllocError> {
    text.extend_from_slice(b"put ")?;
    print_bytes(write.key.as_slice(), text)?;
    add_head(alloc, &write.change, text)?;
    for (key, row) in write.change.rows.as_slice() {
        add_row(alloc, key, row, text)?;
    }
    for piece in write.change.ranges.as_slice() {
        add_piece(alloc, piece, text)?;
    }
    Ok(())
}

// Appends a schema line.
fn add_schema(alloc: Global, schema: &Schema, text: &mut Vec<u8>) -> Result<(), AllocError> {
    text.extend_from_slice(b"schema ")?;
    text.extend_from_slice(schema.text(alloc)?.as_slice())
}

// Appends the opening of a reader.
fn add_open(
    alloc: Global,
    id: u32,
    key: &PartKey,
    slice: &Slice,
    text: &mut Vec<u8>,
) -> Result<(), AllocError> {
    add_counted(alloc, "open", id, text)?;
    text.push(b' ')?;
    print_bytes(key.as_slice(), text)?;
    add_pos(&slice.from, text)?;
    add_pos(&slice.to, text)
}

// Appends the reading of a reader.
fn add_read(alloc: Global, id: u32, count: u32, text: &mut Vec<u8>) -> Result<(), AllocError> {
    add_counted(alloc, "read", id, text)?;
    add_counted(alloc, "", count, text)
}

// Appends a command.
fn add_command(alloc: Global, command: &Command, text: &mut Vec<u8>) -> Result<(), AllocError> {
    match command {
        Command::Nothing => text.extend_from_slice(b"nothing"),
        Command::SetSchema(schema) => add_schema(alloc, schema, text),
        Command::Put(write) => add_write(alloc, write, text),
        Command::OpenRead { id, key, slice } => add_open(alloc, *id, key, slice, text),
        Command::Read { id, count } => add_read(alloc, *id, *count, text),
        Command::Close { id } => add_counted(alloc, "close", *id, text),
        Command::Flush => text.extend_from_slice(b"flush"),
        Command::FlushBegin => text.extend_from_slice(b"flush begin"),
        Command::FlushStep { count } => add_counted(alloc, "flush step", *count, text),
        Command::Evict { count } => add_counted(alloc, "evict", *count, text),
        Command::Compact { count } => add_counted(alloc, "compact", *count, text),
        Command::Clean { count } => add_counted(alloc, "clean", *count, text),
        Command::Stats => text.extend_from_slice(b"stats"),
    }
}

// Appends the name of a refusal.
fn add_refusal(alloc: Global, refusal: Refusal, text: &mut Vec<u8>) -> Result<(), AllocError> {
    let name = format!(in alloc; "{refusal:?}")?;
    text.extend_from_slice(name.as_bytes())
}

// Appends the copy of a command.
fn add_copy(alloc: Global, command: &Command, text: &mut Vec<u8>) -> Result<(), AllocError> {
    let same = command.copy(alloc)?;
    add_command(alloc, &same, text)
}

/// Tells what a line means: the copy of its command, or its refusal.
pub(crate) fn tell_line(
    alloc: Global,
    schema: Option<&Schema>,
    line: &[u8],
    text: &mut Vec<u8>,
) -> Result<(), AllocError> {
    match read_line(alloc, schema, line) {
        Ok(command) => add_copy(alloc, &command, text),
        Err(LineErr::Refused(refusal)) => add_refusal(alloc, refusal, text),
        Err(LineErr::NoMemory) => Err(AllocError),
    }
}
