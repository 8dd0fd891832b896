//! The columns of a line under a schema.

ghost use Rattle.std.specs.Prelude.{◌≡◌, ◌≤◌, IfOk, IsTrue, length, nat_lt};
ghost use Rattle.std.specs.List.{list_all};
ghost use Rattle.std.specs.Option.{option_copied, is_some};
ghost use Rattle.rc_schema.specs.Checks.{column_of, column_count};
ghost use Rattle.rc_lines.specs.calls.ShapeMeaning.{cell_named, by_column, columns_said, are_columns};

use crate::parts::is_word;
use rc_cell::{Cell, Cells};
use rc_position::Text;
use rc_schema::Schema;
use std::alloc::{AllocError, Global};

/// The names of the static columns, or of the regular ones.
pub(crate) fn column_names(schema: &Schema, is_static: bool) -> &[Text]
    ensures value { result.now ≡ columns_said is_static schema.now }
    ensures few { length result.now ≤ 32 }
{
    if is_static {
        schema.statics()
    } else {
        schema.cols()
    }
}

/// Whether a name is that of a column.
fn is_column(schema: &Schema, is_static: bool, name: &[u8]) -> bool
    ensures { result ≡ is_some (column_of name.now (columns_said is_static schema.now)) }
{
    if is_static {
        schema.static_col(name).is_some()
    } else {
        schema.col(name).is_some()
    }
}

/// Whether each name is that of a column.
pub(crate) fn are_columns(schema: &Schema, is_static: bool, cells: &[(Text, Cell)]) -> bool
    ensures { result ≡ are_columns (columns_said is_static schema.now) cells.now }
{
    cells
        .iter()
        .all(|cell| is_column(schema, is_static, cell.0.as_slice()))
}

/// The cell of a name.
fn cell_named<'a>(cells: &'a [(Text, Cell)], name: &[u8]) -> Option<&'a Cell>
    ensures { option_copied result ≡ cell_named name.now cells.now }
{
    let mut left = cells;
    loop {
        match left {
            [] => return None,
            [cell, rest @ ..] => {
                if is_word(cell.0.as_slice(), name) {
                    return Some(&cell.1);
                }
                left = rest;
            }
        }
    }
}

/// Of each column the cell of its name, in order.
fn by_column(
    alloc: Global,
    names: &[Text],
    cells: &[(Text, Cell)],
) -> Result<Vec<(u8, Cell)>, AllocError>
    requires { length names.now ≤ 32 }
    ensures { IfOk result (λ made. made.items ≡ by_column names.now cells.now) }
{
    let mut made = Vec::new(alloc);
    for (column, name) in names.iter().enumerate() {
        if let Some(cell) = cell_named(cells, name.as_slice()) {
            made.push((column as u8, cell.copy(alloc)?))?;
        }
    }
    Ok(made)
}

/// The cells of a line, by column.
#[tactic(auto, using(crate::specs::laws::Fitting::columns_ascend, crate::specs::laws::Fitting::columns_are_known))]
pub(crate) fn cells_by_column(
    alloc: Global,
    schema: &Schema,
    is_static: bool,
    cells: &[(Text, Cell)],
) -> Result<Cells, AllocError>
    ensures value { IfOk result (λ made. made ≡ by_column (columns_said is_static schema.now) cells.now) }
    ensures known { IfOk result (λ made. IsTrue (list_all (λ e. nat_lt e.0 (column_count is_static schema.now)) made)) }
{
    let items = by_column(alloc, column_names(schema, is_static), cells)?;
    Ok(Cells::from_vec(items))
}
