//! Before the machine is there: the lines before the first schema line, and what is said where the tables cannot be opened.

use anyhow::Result;
use rc_lines::{Command, LineErr, Refusal, print_refusal, read_line};
use rc_outside::Sink;
use rc_plain::OpenErr;
use rc_schema::Schema;
use std::alloc::Global;

/// Answers the lines before the first schema line, and gives the schema and the lines behind it; None where no line is one.
pub(crate) fn schema_of<'a, K: Sink>(
    alloc: Global,
    lines: &'a [Vec<u8>],
    out: &mut K,
) -> Result<Option<(Schema, &'a [Vec<u8>])>> {
    let mut rest = lines;
    while let Some((line, behind)) = rest.split_first() {
        rest = behind;
        match read_line(alloc, None, line.as_slice()) {
            Ok(Command::SetSchema(schema)) => return Ok(Some((schema, rest))),
            Ok(_) => {}
            Err(LineErr::Refused(refusal)) => push_refusal(alloc, refusal, out)?,
            Err(error) => return Err(error.into()),
        }
    }
    Ok(None)
}

// Writes the text of a refusal.
fn push_refusal<K: Sink>(alloc: Global, refusal: Refusal, out: &mut K) -> Result<()> {
    let mut text = Vec::new(alloc);
    print_refusal(alloc, refusal, &mut text)?;
    out.push(text.as_slice())?;
    Ok(())
}

/// The last line where the tables of the folder cannot be opened. The only error is want of memory.
pub(crate) fn last_line(alloc: Global, error: &OpenErr) -> Result<String> {
    let line = match error {
        OpenErr::Damaged { table, offset } => format!(in alloc;
            "! table {table} damaged at {offset}\n"
        ),
        OpenErr::OtherSchema { table } => format!(in alloc; "! table {table} other schema\n"),
        OpenErr::Fault | OpenErr::NoMemory => format!(in alloc; "! {error}\n"),
    };
    Ok(line?)
}
