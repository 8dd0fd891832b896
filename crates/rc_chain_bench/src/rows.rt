//! The rows of the partition: small ones, at scattered keys.
ghost use Rattle.std.specs.Prelude.{◌<◌, IfOk};
ghost use Rattle.rc_rowcode.specs.Spelling.{IsCodedRow, KeyFits};

use rc_cell::{Cell, Cells, Row, Value};
use rc_position::{Comp, Key};
use std::alloc::{AllocError, Global};

/// A prime above the number of rows, so that each number has another one of its own.
const STEP: u64 = 2_654_435_761;

/// Another number of a row for each number below that of all rows: numbers that follow one another have others far apart.
pub(crate) fn other(number: u32, rows: u32) -> u32
    requires { 0 < rows }
    ensures { result < rows }
{
    let far = u64::from(number) * STEP % u64::from(rows);
    far as u32
}

/// The key of a row by its number. Numbers that follow one another have keys far apart, and no two have the same.
pub(crate) fn key_of(alloc: Global, number: u32) -> Result<Key, AllocError>
    ensures { IfOk result (λ key. KeyFits key) }
{
    let mixed = number.wrapping_mul(2_654_435_769);
    let scattered = (mixed ^ (mixed >> 15)).wrapping_mul(2_246_822_519);
    Key::from_slice(alloc, &[Comp::Int(i64::from(scattered))])
}

/// A row of one cell of eight bytes.
pub(crate) fn short_row(alloc: Global) -> Result<Row, AllocError>
    ensures { IfOk result (λ row. IsCodedRow row) }
{
    let value = Value::from_slice(alloc, &[7; 8])?;
    Ok(Row {
        marker: None,
        tomb: None,
        cells: Cells::from_slice(alloc, &[(0, Cell::Live { ts: 1, value })])?,
    })
}

/// A newer row of one cell, which is longer.
pub(crate) fn newer_row(alloc: Global) -> Result<Row, AllocError>
    ensures { IfOk result (λ row. IsCodedRow row) }
{
    let value = Value::from_slice(alloc, &[8; 24])?;
    Ok(Row {
        marker: None,
        tomb: None,
        cells: Cells::from_slice(alloc, &[(0, Cell::Live { ts: 2, value })])?,
    })
}
