//! Cases of lines. `line LINE` asks what a line commands; `long N LINE` asks it of the line with so many `x` at its `#`, and `names N LINE` of the
//! line with so many cells there, of names that no schema has.

use crate::cutting::{cut_at, first_word, says};
use rc_spelling::count;
use std::alloc::AllocError;

/// Appends the line of a case; whether it is a case of a line.
pub(crate) fn push_line(kind: &[u8], text: &[u8], line: &mut Vec<u8>) -> Result<bool, AllocError> {
    if says(kind, "line") {
        line.extend_from_slice(text)?;
        return Ok(true);
    }
    if says(kind, "long") || says(kind, "names") {
        return push_filled(kind, text, line);
    }
    Ok(false)
}

// Appends the line with so many of what its kind says at its `#`; whether it says how many.
fn push_filled(kind: &[u8], text: &[u8], line: &mut Vec<u8>) -> Result<bool, AllocError> {
    let (number, spelled) = first_word(text);
    let Some(number) = count(number, 100_000) else {
        return Ok(false);
    };
    let (before, behind) = cut_at(spelled, b'#');
    line.extend_from_slice(before)?;
    push_many(kind, number, line)?;
    line.extend_from_slice(behind)?;
    Ok(true)
}

fn push_many(kind: &[u8], number: u32, line: &mut Vec<u8>) -> Result<(), AllocError> {
    if says(kind, "long") {
        return push_letters(number, line);
    }
    push_names(number, line)
}

fn push_letters(number: u32, line: &mut Vec<u8>) -> Result<(), AllocError> {
    for _ in 0..number {
        line.push(b'x')?;
    }
    Ok(())
}

// Cells of many names, as ` c0=1 c1=1`.
fn push_names(number: u32, line: &mut Vec<u8>) -> Result<(), AllocError> {
    for n in 0..number {
        push_name(n, line)?;
    }
    Ok(())
}

fn push_name(number: u32, line: &mut Vec<u8>) -> Result<(), AllocError> {
    let cell = format!(in *line.allocator(); " c{number}=1")?;
    line.extend_from_slice(cell.as_bytes())
}
