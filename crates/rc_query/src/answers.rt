//! The answer that a reader is given of one partition.

ghost use Rattle.std.specs.Prelude.{◌≡◌, ◌||◌, [], ◌∷◌, ◌++◌, IfOk, OnOk};
ghost use Rattle.std.specs.Option.{option_to_list};
ghost use Rattle.std.specs.List.{cons_option, filter_map, list_any};
ghost use Rattle.rc_cell.specs.Deletion.{survives};
ghost use Rattle.rc_mutation.specs.Rows.{IsRows};
ghost use Rattle.rc_mutation.specs.Fragments.{has_any};
ghost use Rattle.rc_query.specs.Answer.{answer, in_slice, live_value, live_values, rows_alone, static_line, whole_slice};
ghost use Rattle.rc_query.specs.laws.Answers.{own_line, row_line};

use crate::lines::{Lines, OutLine};
use crate::shown::Shown;
use rc_cell::{Cell, Row, Tomb, Value, is_above};
use rc_mutation::{Mutation, Rows, Statics, greater_tomb};
use rc_position::{Key, Slice, end_pos, start_pos};
use rc_ranges::Ranges;
use std::alloc::{AllocError, Global};

/// The lines that a reader of a slice is given of what all writes to a partition say: the static line, whatever the slice,
/// if a value of the static row is live; then by ascending key the line of each row in the slice that has a live value, or a
/// marker, above its cover. The only error is want of memory.
pub fn answer_of(alloc: Global, change: &Mutation, slice: &Slice) -> Result<Lines, AllocError>
    ensures { IfOk result (λ lines. lines ≡ answer (change.now ∷ []) slice.now) }
{
    let mut lines = Vec::new(alloc);
    push_line(
        &mut lines,
        line_of_statics(alloc, change.pt, change.statics.as_row())?,
    )?;
    append_lines(alloc, &mut lines, change, slice)?;
    Ok(Lines::of(lines))
}

/// The lines that a reader of a whole partition is given of rows, where nothing else was written. The only error is want of
/// memory.
pub fn shown_rows(alloc: Global, rows: &Rows) -> Result<Lines, AllocError>
    ensures { IfOk result (λ lines. lines ≡ answer (rows_alone rows.now ∷ []) whole_slice) }
{
    let none = Key::empty(alloc);
    let slice = Slice {
        from: start_pos(alloc, &none, true)?,
        to: end_pos(alloc, &none, true)?,
    };
    let change = Mutation {
        pt: None,
        statics: Statics::empty(alloc),
        rows: rows.copy(alloc)?,
        ranges: Ranges::empty(alloc),
    };
    answer_of(alloc, &change, &slice)
}

// Puts a line behind the others, if there is one.
pub(crate) fn push_line(lines: &mut Vec<OutLine>, line: Option<OutLine>) -> Result<(), AllocError>
    ensures { OnOk result (lines.new.items ≡ lines.old.items ++ option_to_list line) }
{
    match line {
        Some(line) => Ok(lines.push(line)?),
        None => Ok(()),
    }
}

// Appends the lines of the rows in the slice.
fn append_lines(
    alloc: Global,
    lines: &mut Vec<OutLine>,
    change: &Mutation,
    slice: &Slice,
) -> Result<(), AllocError>
    ensures value { OnOk result (lines.new.items ≡ lines.old.items ++ filter_map (own_line change.now slice.now) change.now.rows) }
    ensures rows { IsRows change.now.rows }
{
    for item in change.rows.as_slice() {
        push_line(lines, line_in(alloc, change, slice, &item.0, &item.1)?)?;
    }
    Ok(())
}

// The line of a row, if it stands in the slice and has one.
fn line_in(
    alloc: Global,
    change: &Mutation,
    slice: &Slice,
    key: &Key,
    row: &Row,
) -> Result<Option<OutLine>, AllocError>
    ensures { IfOk result (λ line. line ≡ own_line change.now slice.now (key.now, row.now)) }
{
    if has_row(slice, key) {
        let outer = greater_tomb(change.pt, change.ranges.at_row(key));
        line_of_row(alloc, outer, key, row)
    } else {
        Ok(None)
    }
}

// Whether the row of the key stands in the slice.
#[tactic(auto, using(crate::proofs::Steps::turned_ge))]
fn has_row(slice: &Slice, key: &Key) -> bool
    ensures { result ≡ in_slice slice.now key.now }
{
    key.compare_with_pos(&slice.from).is_ge() && key.compare_with_pos(&slice.to).is_lt()
}

// The static line under the partition tombstone, if it has one.
pub(crate) fn line_of_statics(
    alloc: Global,
    head: Option<Tomb>,
    statics: &Row,
) -> Result<Option<OutLine>, AllocError>
    ensures { IfOk result (λ line. line ≡ static_line head (statics.now ∷ [])) }
{
    let values = values_of(alloc, statics.cells.as_slice(), head)?;
    if has_value(&values) {
        Ok(Some(OutLine::Static(Shown::of(values))))
    } else {
        Ok(None)
    }
}

// The line of a row under a cover from outside it, if it has one.
pub(crate) fn line_of_row(
    alloc: Global,
    outer: Option<Tomb>,
    key: &Key,
    row: &Row,
) -> Result<Option<OutLine>, AllocError>
    ensures { IfOk result (λ line. line ≡ row_line outer key.now row.now) }
{
    let cover = greater_tomb(outer, row.tomb);
    let values = values_of(alloc, row.cells.as_slice(), cover)?;
    if has_line(&values, row.marker, cover) {
        let key = key.copy(alloc)?;
        Ok(Some(OutLine::Row(key, Shown::of(values))))
    } else {
        Ok(None)
    }
}

// Whether a row of these live values and this marker has a line: it has a value, or the marker survives the cover.
fn has_line(values: &[(u8, Value)], marker: Option<i64>, cover: Option<Tomb>) -> bool
    ensures { result ≡ (has_any values.now || list_any (survives cover) (cons_option marker [])) }
{
    has_value(values) || marker_survives(marker, cover)
}

// Whether there is a value.
fn has_value(values: &[(u8, Value)]) -> bool
    ensures { result ≡ has_any values.now }
{
    !values.is_empty()
}

// The live values that the tombstone leaves of the cells.
fn values_of(
    alloc: Global,
    cells: &[(u8, Cell)],
    tomb: Option<Tomb>,
) -> Result<Vec<(u8, Value)>, AllocError>
    ensures { IfOk result (λ values. values.items ≡ live_values tomb cells.now) }
{
    let mut values = Vec::new(alloc);
    for cell in cells {
        if let Some(value) = value_of(alloc, &cell.1, tomb)? {
            values.push((cell.0, value))?;
        }
    }
    Ok(values)
}

// The value of the cell, if it is live and survives the tombstone.
fn value_of(alloc: Global, cell: &Cell, tomb: Option<Tomb>) -> Result<Option<Value>, AllocError>
    ensures { IfOk result (λ value. value ≡ live_value tomb cell.now) }
{
    match cell {
        Cell::Live { ts, value } if is_above(tomb, *ts) => Ok(Some(value.copy(alloc)?)),
        _ => Ok(None),
    }
}

// Whether there is a marker that survives the tombstone.
fn marker_survives(marker: Option<i64>, tomb: Option<Tomb>) -> bool
    ensures { result ≡ list_any (survives tomb) (cons_option marker []) }
{
    match marker {
        Some(ts) => is_above(tomb, ts),
        None => false,
    }
}
