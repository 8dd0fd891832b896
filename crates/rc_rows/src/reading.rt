//! The lines of a case.

use crate::case::{Case, Stored};
use crate::stores::Stores;
use rc_outside::StoreCall;
use rc_spelling::{read_bytes, read_components};
use std::alloc::{AllocError, Global};
use std::fmt::Write;

/// Bytes with names.
pub(crate) type Named = Vec<(String, Vec<u8>)>;

/// Appends bytes and the name that stands before them, none where there are none.
pub(crate) fn push_named(alloc: Global, names: &mut Named, text: &str) -> Result<(), AllocError> {
    let (name, word) = text.split_once(' ').unwrap_or((text, ""));
    match read_bytes(alloc, word.as_bytes())? {
        Some(bytes) => push_pair(alloc, names, name, bytes),
        None => push_pair(alloc, names, name, Vec::new(alloc)),
    }
}

fn push_pair(
    alloc: Global,
    names: &mut Named,
    name: &str,
    bytes: Vec<u8>,
) -> Result<(), AllocError> {
    let name = String::from_str(alloc, name)?;
    names.push((name, bytes))?;
    Ok(())
}

// The bytes of a name.
fn bytes_of<'a>(names: &'a Named, name: &str) -> Option<&'a [u8]> {
    for pair in names {
        if pair.0.as_str() == name {
            return Some(pair.1.as_slice());
        }
    }
    None
}

fn call_of(name: &str) -> Option<StoreCall> {
    match name {
        "numbers" => Some(StoreCall::Numbers),
        "size" => Some(StoreCall::Size),
        "read_at" => Some(StoreCall::ReadAt),
        "begin" => Some(StoreCall::Begin),
        "append" => Some(StoreCall::Append),
        "finish" => Some(StoreCall::Finish),
        _ => None,
    }
}

// A call of the store and a number.
fn call_and_number(text: &str) -> Option<(StoreCall, u64)> {
    let (name, number) = text.split_once(' ')?;
    let call = call_of(name)?;
    let number = number.parse::<u64>().ok()?;
    Some((call, number))
}

// A number and what stands behind it.
fn number_and_rest(text: &str) -> Option<(u32, &str)> {
    let (number, rest) = text.split_once(' ')?;
    let number = number.parse::<u32>().ok()?;
    Some((number, rest))
}

// Appends the lines that stand with ` / ` between them.
fn append_lines(text: &mut Vec<u8>, lines: &str, number: u32) -> Result<(), AllocError> {
    for line in lines.split(" / ") {
        append_line(text, line, number)?;
    }
    Ok(())
}

// Appends a line, with a number at its `#`.
fn append_line(text: &mut Vec<u8>, line: &str, number: u32) -> Result<(), AllocError> {
    let mut made = String::new(*text.allocator());
    match line.split_once('#') {
        Some((before, behind)) => write!(made, "{before}{number}{behind}\n")?,
        None => write!(made, "{line}\n")?,
    }
    text.extend_from_slice(made.as_bytes())
}

// The words of a line; whether it gives some.
fn take_words(alloc: Global, case: &mut Case, text: &str) -> Result<bool, AllocError> {
    case.words.clear();
    match read_components(alloc, text.as_bytes(), 5)? {
        Some(components) => push_words(&mut case.words, components),
        None => Ok(text.is_empty()),
    }
}

fn push_words(words: &mut Vec<String>, components: Vec<Vec<u8>>) -> Result<bool, AllocError> {
    for bytes in components {
        match String::from_utf8(bytes) {
            Ok(word) => words.push(word)?,
            Err(_) => return Ok(false),
        }
    }
    Ok(true)
}

// A file of the stores: its number, its name and how many of its first bytes; whether the line gives one.
fn take_file(
    alloc: Global,
    names: &Named,
    stores: &mut Stores,
    text: &str,
) -> Result<bool, AllocError> {
    let Some((number, rest)) = number_and_rest(text) else {
        return Ok(false);
    };
    let (name, count) = match rest.split_once(' ') {
        Some((name, count)) => (name, count.parse::<usize>().unwrap_or(0)),
        None => (rest, usize::MAX),
    };
    let Some(bytes) = bytes_of(names, name) else {
        return Ok(false);
    };
    let count = count.min(bytes.len());
    stores.put_file(alloc, number, &bytes[..count])?;
    Ok(true)
}

// What the store must have under a number, of a name.
fn stored_of(alloc: Global, names: &Named, name: &str) -> Result<Option<Stored>, AllocError> {
    match (name, bytes_of(names, name)) {
        ("any", _) => Ok(Some(Stored::Something)),
        ("none", _) => Ok(Some(Stored::Nothing)),
        (_, Some(bytes)) => Ok(Some(Stored::Bytes(Vec::from_slice(alloc, bytes)?))),
        (_, None) => Ok(None),
    }
}

// What the store must have; whether the line says it.
fn take_stored(
    alloc: Global,
    names: &Named,
    case: &mut Case,
    text: &str,
) -> Result<bool, AllocError> {
    let Some((number, name)) = number_and_rest(text) else {
        return Ok(false);
    };
    match stored_of(alloc, names, name)? {
        Some(stored) => {
            case.wanted.files.push((number, stored))?;
            Ok(true)
        }
        None => Ok(false),
    }
}

// So many times the same lines of the input or of what is written; whether it gives some.
fn take_lines(case: &mut Case, count: u32, text: &str) -> Result<bool, AllocError> {
    let Some((mark, line)) = text.split_once(' ') else {
        return Ok(false);
    };
    for number in 0..count {
        let number = number.saturating_add(1);
        match mark {
            "<" => append_lines(&mut case.input, line, number)?,
            ">" => append_lines(&mut case.wanted.text, line, number)?,
            _ => return Ok(false),
        }
    }
    Ok(true)
}

// A number of a case; whether the line gives one.
fn take_number(case: &mut Case, kind: &str, number: u64) -> Result<bool, AllocError> {
    match kind {
        "pull" => case.pulls.push(number)?,
        "push" => case.pushes.push(number)?,
        "limit" => case.limit = Some(number),
        "status" => case.wanted.status = number,
        "faults" => case.wanted.faults = Some(number),
        _ => return Ok(false),
    }
    Ok(true)
}

// A failing call of the stores, or one in turn; whether the line gives one.
fn take_call(
    case: &mut Case,
    stores: &mut Stores,
    kind: &str,
    text: &str,
) -> Result<bool, AllocError> {
    let Some((call, number)) = call_and_number(text) else {
        return Ok(false);
    };
    match kind {
        "fail" => stores.fail_nth(call, number)?,
        _ => case.turns.push((call, number))?,
    }
    Ok(true)
}

/// A line of a case; whether it is one.
pub(crate) fn take_line(
    alloc: Global,
    names: &Named,
    case: &mut Case,
    stores: &mut Stores,
    line: &str,
) -> Result<bool, AllocError> {
    let (kind, text) = line.split_once(' ').unwrap_or((line, ""));
    match kind {
        "<" => take_bytes(&mut case.input, text, "\n"),
        "<-" => take_bytes(&mut case.input, text, ""),
        ">" => take_bytes(&mut case.wanted.text, text, "\n"),
        "slow" => {
            case.slow = true;
            Ok(true)
        }
        "shard" => {
            case.alone = true;
            Ok(true)
        }
        "words" => take_words(alloc, case, text),
        "file" => take_file(alloc, names, stores, text),
        "stored" => take_stored(alloc, names, case, text),
        "fail" | "each" => take_call(case, stores, kind, text),
        _ => take_counted(case, kind, text),
    }
}

// A line that begins with a count, or ends with a number; whether it is one.
fn take_counted(case: &mut Case, kind: &str, text: &str) -> Result<bool, AllocError> {
    match (kind.parse::<u32>(), text.parse::<u64>()) {
        (Ok(count), _) => take_lines(case, count, text),
        (_, Ok(number)) => take_number(case, kind, number),
        _ => Ok(false),
    }
}

// A line of the input or of what is written, and its end: it is one.
fn take_bytes(bytes: &mut Vec<u8>, line: &str, end: &str) -> Result<bool, AllocError> {
    bytes.extend_from_slice(line.as_bytes())?;
    bytes.extend_from_slice(end.as_bytes())?;
    Ok(true)
}
