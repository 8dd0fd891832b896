//! Cases of codes, in hexadecimal with `_` where it helps. `code KIND HEX` reads a code at the front of bytes and writes it
//! again; its answer is the code's length, or `none`. `join HEX HEX` joins two rows by their codes. `weighs static HEX` tells what the static row of a code
//! takes in memory, `weighs dummy HEX` what the dummy of a position's does, and `entry HEX HEX` what the entry of a key and a row does.

ghost use Rattle.std.specs.Prelude.{IfOk, IfSome};
ghost use Rattle.rc_rowcode.specs.Spelling.{row_code, IsCode, IsCodedRow, KeyFits, RowFits};

use crate::answers::{NO_CASE, says};
use rc_cell::Row;
use rc_position::{Key, Pos};
use rc_rowcode::{
    Scratch, dummy_size, entry_size, join_codes, join_size, key_size, pos_size, read_key, read_pos,
    read_row, read_tomb, row_size, static_size, write_key, write_pos, write_row, write_tomb,
};
use std::alloc::{AllocError, Global};
use std::fmt::Write;

// A word without its `_`.
fn digits_of(alloc: Global, word: &[u8]) -> Result<Vec<u8>, AllocError> {
    let mut digits = Vec::new(alloc);
    for byte in word {
        if *byte != b'_' {
            digits.push(*byte)?;
        }
    }
    Ok(digits)
}

// The bytes of a hexadecimal word, without its `_`.
fn bytes_of(alloc: Global, word: &[u8]) -> Result<Option<Vec<u8>>, AllocError> {
    match hex::decode(alloc, digits_of(alloc, word)?.as_slice()) {
        Ok(bytes) => Ok(Some(bytes)),
        Err(_) => Ok(None),
    }
}

// Tells a number of bytes.
fn tell_size(size: usize, text: &mut String) -> Result<(), AllocError> {
    write!(text, "{size}")
}

// Tells the length of what was read, if it was written again as it was read.
fn tell_again(
    bytes: &[u8],
    written: &[u8],
    sizes: (usize, usize),
    text: &mut String,
) -> Result<(), AllocError> {
    if sizes.0 != sizes.1 || !bytes.starts_with(written) || written.len() != sizes.0 {
        return text.push_str("differs");
    }
    tell_size(sizes.0, text)
}

/// Tells the length of the code at the front of bytes.
pub(crate) fn reads(
    alloc: Global,
    kind: &[u8],
    word: &[u8],
    text: &mut String,
) -> Result<(), AllocError> {
    match bytes_of(alloc, word)? {
        Some(bytes) => reads_bytes(alloc, kind, bytes.as_slice(), text),
        None => text.push_str(NO_CASE),
    }
}

fn reads_bytes(
    alloc: Global,
    kind: &[u8],
    bytes: &[u8],
    text: &mut String,
) -> Result<(), AllocError> {
    if says(kind, "row") {
        return reads_row(alloc, bytes, text);
    }
    if says(kind, "key") {
        return reads_key(alloc, bytes, text);
    }
    if says(kind, "position") {
        return reads_pos(alloc, bytes, text);
    }
    if says(kind, "tombstone") {
        return reads_tomb(alloc, bytes, text);
    }
    text.push_str(NO_CASE)
}

fn reads_row(alloc: Global, bytes: &[u8], text: &mut String) -> Result<(), AllocError> {
    match read_row(alloc, bytes)? {
        Some((row, size)) => tell_row(alloc, bytes, &row, size, text),
        None => text.push_str("none"),
    }
}

fn tell_row(
    alloc: Global,
    bytes: &[u8],
    row: &Row,
    size: usize,
    text: &mut String,
) -> Result<(), AllocError>
    requires { RowFits row.now }
{
    let mut out = Vec::new(alloc);
    write_row(alloc, row, &mut out)?;
    tell_again(bytes, out.as_slice(), (size, row_size(row)), text)
}

fn reads_key(alloc: Global, bytes: &[u8], text: &mut String) -> Result<(), AllocError> {
    match read_key(alloc, bytes)? {
        Some((key, size)) => tell_key(alloc, bytes, &key, size, text),
        None => text.push_str("none"),
    }
}

fn tell_key(
    alloc: Global,
    bytes: &[u8],
    key: &Key,
    size: usize,
    text: &mut String,
) -> Result<(), AllocError>
    requires { KeyFits key.now }
{
    let mut out = Vec::new(alloc);
    write_key(alloc, key, &mut out)?;
    tell_again(bytes, out.as_slice(), (size, key_size(key)), text)
}

fn reads_pos(alloc: Global, bytes: &[u8], text: &mut String) -> Result<(), AllocError> {
    match read_pos(alloc, bytes)? {
        Some((x, size)) => tell_pos(alloc, bytes, &x, size, text),
        None => text.push_str("none"),
    }
}

fn tell_pos(
    alloc: Global,
    bytes: &[u8],
    x: &Pos,
    size: usize,
    text: &mut String,
) -> Result<(), AllocError>
    requires { KeyFits x.now.prefix }
{
    let mut out = Vec::new(alloc);
    write_pos(alloc, x, &mut out)?;
    tell_again(bytes, out.as_slice(), (size, pos_size(x)), text)
}

fn reads_tomb(alloc: Global, bytes: &[u8], text: &mut String) -> Result<(), AllocError> {
    let Some((tomb, size)) = read_tomb(alloc, bytes)? else {
        return text.push_str("none");
    };
    let mut out = Vec::new(alloc);
    write_tomb(alloc, &tomb, &mut out)?;
    tell_again(bytes, out.as_slice(), (size, 12), text)
}

/// Tells what a static row, or a dummy, takes in memory of which this is the row's code, or the position's.
pub(crate) fn weighs(
    alloc: Global,
    kind: &[u8],
    word: &[u8],
    text: &mut String,
) -> Result<(), AllocError> {
    match bytes_of(alloc, word)? {
        Some(bytes) if says(kind, "static") => weighs_static(alloc, bytes.as_slice(), text),
        Some(bytes) if says(kind, "dummy") => weighs_dummy(alloc, bytes.as_slice(), text),
        _ => text.push_str(NO_CASE),
    }
}

fn weighs_static(alloc: Global, bytes: &[u8], text: &mut String) -> Result<(), AllocError> {
    match read_row(alloc, bytes)? {
        Some((row, _)) => tell_size(static_size(&row), text),
        None => text.push_str("none"),
    }
}

fn weighs_dummy(alloc: Global, bytes: &[u8], text: &mut String) -> Result<(), AllocError> {
    match read_pos(alloc, bytes)? {
        Some((x, _)) => tell_size(dummy_size(&x), text),
        None => text.push_str("none"),
    }
}

/// Tells what an entry takes in memory, of which these are the key's and the row's code.
pub(crate) fn entry(
    alloc: Global,
    key: &[u8],
    row: &[u8],
    text: &mut String,
) -> Result<(), AllocError> {
    match bytes_of(alloc, key)? {
        Some(bytes) => weighs_keyed(alloc, bytes.as_slice(), row, text),
        None => text.push_str(NO_CASE),
    }
}

// The same of the key's code and the row's word.
fn weighs_keyed(
    alloc: Global,
    key: &[u8],
    row: &[u8],
    text: &mut String,
) -> Result<(), AllocError> {
    match read_key(alloc, key)? {
        Some((key, _)) => weighs_entry(alloc, &key, row, text),
        None => text.push_str("none"),
    }
}

fn weighs_entry(alloc: Global, key: &Key, row: &[u8], text: &mut String) -> Result<(), AllocError>
    requires { KeyFits key.now }
{
    match bytes_of(alloc, row)? {
        Some(bytes) => tell_entry(alloc, key, bytes.as_slice(), text),
        None => text.push_str(NO_CASE),
    }
}

fn tell_entry(alloc: Global, key: &Key, row: &[u8], text: &mut String) -> Result<(), AllocError>
    requires { KeyFits key.now }
{
    match read_row(alloc, row)? {
        Some((row, _)) => tell_size(entry_size(key, &row), text),
        None => text.push_str("none"),
    }
}

// The code of the row that begins with the bytes of a word; none where there is no such row.
fn row_coded(alloc: Global, word: &[u8]) -> Result<Option<Vec<u8>>, AllocError>
    ensures { IfOk result (λ found. IfSome found (λ code. IsCode row_code IsCodedRow code.items)) }
{
    let Some(bytes) = bytes_of(alloc, word)? else {
        return Ok(None);
    };
    let Some((row, _)) = read_row(alloc, bytes.as_slice())? else {
        return Ok(None);
    };
    let mut code = Vec::new(alloc);
    write_row(alloc, &row, &mut code)?;
    Ok(Some(code))
}

// Tells the code of two rows joined, by their codes alone.
fn joined(alloc: Global, a: &[u8], b: &[u8], text: &mut String) -> Result<(), AllocError>
    requires ours { IsCode row_code IsCodedRow a.now }
    requires theirs { IsCode row_code IsCodedRow b.now }
{
    let mut out = Scratch::new(alloc, 8599)?;
    let size = join_size(a, b);
    join_codes(a, b, &mut out);
    tell_joined(alloc, out.bytes(), size, text)
}

// Tells a code of this length.
fn tell_joined(
    alloc: Global,
    code: &[u8],
    size: usize,
    text: &mut String,
) -> Result<(), AllocError> {
    if code.len() != size {
        return text.push_str("differs");
    }
    let digits = hex::encode(alloc, code)?;
    text.push_str(digits.as_str())
}

// The same of a row's code and the row of a word.
fn joined_with(alloc: Global, a: &[u8], word: &[u8], text: &mut String) -> Result<(), AllocError>
    requires { IsCode row_code IsCodedRow a.now }
{
    match row_coded(alloc, word)? {
        Some(b) => joined(alloc, a, b.as_slice(), text),
        None => text.push_str("none"),
    }
}

/// Tells the code of two rows joined.
pub(crate) fn joins(
    alloc: Global,
    first: &[u8],
    second: &[u8],
    text: &mut String,
) -> Result<(), AllocError> {
    match row_coded(alloc, first)? {
        Some(a) => joined_with(alloc, a.as_slice(), second, text),
        None => text.push_str("none"),
    }
}
