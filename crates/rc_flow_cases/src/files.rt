//! The files of tables: written, replaced, cut and changed.

ghost use Rattle.std.specs.Prelude.{IsTrue};
ghost use Rattle.rc_tfile.specs.TableText.{PartsFit};

use crate::watched::Folder;
use crate::words::push_partitions;
use rc_mutation::Partition;
use rc_outside::Store;
use rc_schema::Schema;
use rc_tfile::{part_fits, write_table};
use std::alloc::{AllocError, Global};

// Whether a table of the schema can hold the partitions, of which there are one or two.
fn fit(parts: &[Partition], schema: &Schema) -> bool
    ensures { IsTrue result → PartsFit schema.now parts.now }
{
    match parts {
        [one] => part_fits(one, schema),
        [one, two] => {
            one.key.cmp(&two.key).is_lt() && part_fits(one, schema) && part_fits(two, schema)
        }
        _ => false,
    }
}

// Writes the table of the partitions; whether they fit the schema and the table was written.
fn write_parts(
    alloc: Global,
    folder: &mut Folder<'_>,
    schema: &Schema,
    number: u32,
    parts: &[Partition],
) -> bool {
    fit(parts, schema) && write_table(alloc, parts, schema, folder, number).is_ok()
}

// Writes the table of the partitions of a text; whether they are such, and it was written.
fn write_text(
    alloc: Global,
    folder: &mut Folder<'_>,
    schema: &Schema,
    number: u32,
    text: &str,
) -> Result<bool, AllocError> {
    let mut parts = Vec::new(alloc);
    let read = push_partitions(alloc, &mut parts, text)?;
    Ok(read && write_parts(alloc, folder, schema, number, parts.as_slice()))
}

/// The bytes of a file; none where the folder does not give them.
pub(crate) fn bytes_of(
    alloc: Global,
    folder: &mut Folder<'_>,
    number: u32,
) -> Result<Option<Vec<u8>>, AllocError> {
    let Ok(size) = folder.size(number) else {
        return Ok(None);
    };
    let mut bytes = vec![in alloc; 0u8; size as usize]?;
    match folder.read_aside(number, 0, bytes.as_mut_slice()) {
        Ok(()) => Ok(Some(bytes)),
        Err(_) => Ok(None),
    }
}

/// A file has these bytes from now on; whether it was written.
pub(crate) fn put_bytes(alloc: Global, folder: &mut Folder<'_>, number: u32, bytes: &[u8]) -> bool {
    folder.abandon();
    folder.begin(alloc, number).is_ok()
        && folder.append(alloc, bytes).is_ok()
        && folder.finish(alloc).is_ok()
}

// Bytes are cut to as many of the first as a text says, and are a file's; whether they are.
fn put_cut(
    alloc: Global,
    folder: &mut Folder<'_>,
    number: u32,
    bytes: &mut Vec<u8>,
    text: &str,
) -> bool {
    match text.parse::<usize>() {
        Ok(count) => {
            bytes.truncate(count);
            put_bytes(alloc, folder, number, bytes.as_slice())
        }
        Err(_) => false,
    }
}

// One of some bytes is another, as `OFFSET BYTE` says; whether it is.
fn change_byte(bytes: &mut [u8], text: &str) -> Option<()> {
    let (offset, byte) = number_and_rest(text)?;
    let byte = byte.parse::<u8>().ok()?;
    let place = bytes.get_mut(offset as usize)?;
    *place = byte;
    Some(())
}

// The bytes of a file are others, as the word of a kind and a text say; whether they are.
fn put_changed(
    alloc: Global,
    folder: &mut Folder<'_>,
    number: u32,
    kind: &str,
    text: &str,
) -> Result<bool, AllocError> {
    match bytes_of(alloc, folder, number)? {
        Some(mut bytes) if kind == "cut" => { Ok(put_cut(alloc, folder, number, &mut bytes, text)) }
        Some(mut bytes) => Ok(
            change_byte(bytes.as_mut_slice(), text).is_some()
                && put_bytes(alloc, folder, number, bytes.as_slice()),
        ),
        None => Ok(false),
    }
}

/// A number and what stands behind it.
pub(crate) fn number_and_rest(text: &str) -> Option<(u32, &str)> {
    let (number, rest) = text.split_once(' ')?;
    let number = number.parse::<u32>().ok()?;
    Some((number, rest))
}

/// The file of a number is written or changed, as `table` or `now NUMBER PARTITION ..`, `cut NUMBER COUNT` or `byte NUMBER OFFSET BYTE` says;
/// whether it is.
pub(crate) fn change_file(
    alloc: Global,
    folder: &mut Folder<'_>,
    schema: &Schema,
    line: &str,
) -> Result<bool, AllocError> {
    let (kind, text) = line.split_once(' ').unwrap_or((line, ""));
    let Some((number, rest)) = number_and_rest(text) else {
        return Ok(false);
    };
    match kind {
        "table" | "now" => write_text(alloc, folder, schema, number, rest),
        "cut" | "byte" => put_changed(alloc, folder, number, kind, rest),
        _ => Ok(false),
    }
}
