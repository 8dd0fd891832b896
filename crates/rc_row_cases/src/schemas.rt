//! Cases of schemas. `schema TEXT` reads a schema's text; `key KINDS full KEY` and `key KINDS prefix KEY` check a key;
//! `row regular COLUMN CELL` and `row static COLUMN CELL` check a row of one cell under one static and two regular columns.

use crate::answers::{NO_CASE, says, tell_either};
use crate::keys::key_of;
use crate::rows::cell_of;
use rc_cell::{Cell, Cells, Row};
use rc_position::Key;
use rc_schema::{Schema, SchemaErr, SchemaTextErr};
use rc_spelling::number;
use std::alloc::{AllocError, Global};

/// Tells whether a text gives a schema, whose own text and whose copy's it then is.
pub(crate) fn reads(alloc: Global, spelled: &[u8], text: &mut String) -> Result<(), AllocError> {
    match Schema::read(alloc, spelled) {
        Ok(schema) => tell_copied(alloc, &schema, spelled, text),
        Err(error) => tell_unread(error, "no schema", text),
    }
}

// Tells that a text is no schema.
fn tell_unread(error: SchemaTextErr, what: &str, text: &mut String) -> Result<(), AllocError> {
    match error {
        SchemaTextErr::Malformed => text.push_str(what),
        SchemaTextErr::NoMemory => Err(AllocError),
    }
}

fn tell_copied(
    alloc: Global,
    schema: &Schema,
    spelled: &[u8],
    text: &mut String,
) -> Result<(), AllocError> {
    let copy = schema.copy(alloc)?;
    tell_same(alloc, schema, &copy, spelled, text)
}

fn tell_same(
    alloc: Global,
    schema: &Schema,
    copy: &Schema,
    spelled: &[u8],
    text: &mut String,
) -> Result<(), AllocError> {
    let same = schema.is_same(copy)
        && has_text(alloc, schema, spelled)?
        && has_text(alloc, copy, spelled)?;
    tell_either(same, "a schema", "differs", text)
}

fn has_text(alloc: Global, schema: &Schema, spelled: &[u8]) -> Result<bool, AllocError> {
    let made = schema.text(alloc)?;
    Ok(made.as_slice() == spelled)
}

fn tell_checked(found: Result<(), SchemaErr>, text: &mut String) -> Result<(), AllocError> {
    text.push_str(match found {
        Ok(()) => "fits",
        Err(SchemaErr::WrongKey) => "wrong key",
        Err(SchemaErr::UnknownColumn) => "unknown column",
        Err(SchemaErr::TooLong) => "too long",
    })
}

// The text of the schema with these kinds of components, one static and two regular columns.
fn spelled_with(alloc: Global, kinds: &[u8]) -> Result<Vec<u8>, AllocError> {
    let mut spelled = Vec::from_slice(alloc, b"ck=")?;
    push_kinds(kinds, &mut spelled)?;
    Ok(spelled)
}

fn push_kinds(kinds: &[u8], spelled: &mut Vec<u8>) -> Result<(), AllocError> {
    spelled.extend_from_slice(kinds)?;
    spelled.extend_from_slice(b" static=s cols=a,b")
}

/// Tells what is wrong with a key, or with a prefix of one.
pub(crate) fn checks_key(
    alloc: Global,
    kinds: &[u8],
    full: &[u8],
    key: &[u8],
    text: &mut String,
) -> Result<(), AllocError> {
    match key_of(alloc, key)? {
        Some(key) => {
            let spelled = spelled_with(alloc, kinds)?;
            checks_prefix(alloc, spelled.as_slice(), &key, says(full, "full"), text)
        }
        None => text.push_str(NO_CASE),
    }
}

fn checks_prefix(
    alloc: Global,
    spelled: &[u8],
    key: &Key,
    full: bool,
    text: &mut String,
) -> Result<(), AllocError> {
    match Schema::read(alloc, spelled) {
        Ok(schema) => tell_checked(schema.check_prefix(key, full), text),
        Err(error) => tell_unread(error, NO_CASE, text),
    }
}

/// Tells what is wrong with a row of one cell.
pub(crate) fn checks_row(
    alloc: Global,
    place: &[u8],
    column: &[u8],
    cell: &[u8],
    text: &mut String,
) -> Result<(), AllocError> {
    match row_of(alloc, column, cell)? {
        Some(row) => checks_cell(alloc, &row, says(place, "static"), text),
        None => text.push_str(NO_CASE),
    }
}

fn checks_cell(
    alloc: Global,
    row: &Row,
    is_static: bool,
    text: &mut String,
) -> Result<(), AllocError> {
    match Schema::read(alloc, b"ck=int static=s cols=a,b") {
        Ok(schema) => tell_checked(schema.check_row(row, is_static), text),
        Err(error) => tell_unread(error, NO_CASE, text),
    }
}

// A row of one cell.
fn row_of(alloc: Global, column: &[u8], cell: &[u8]) -> Result<Option<Row>, AllocError> {
    let Some(column) = number(column, 255) else {
        return Ok(None);
    };
    match cell_of(alloc, cell)? {
        Some(cell) => Ok(Some(row_with(alloc, column as u8, cell)?)),
        None => Ok(None),
    }
}

/// The row of one cell.
pub(crate) fn row_with(alloc: Global, column: u8, cell: Cell) -> Result<Row, AllocError> {
    Ok(Row {
        marker: None,
        tomb: None,
        cells: Cells::from_vec(Vec::from_array(alloc, [(column, cell)])?),
    })
}
