//! What the walk takes by chance: positions of a small partition, rows, tombstones and flags.

ghost use Rattle.std.specs.Prelude.{IfOk};
ghost use Rattle.std.specs.List.{All};
ghost use Rattle.rc_rowcode.specs.Spelling.{CellFits, EntryFits, KeyFits, RowFits};

use crate::chance::Chance;
use rc_cell::{Cell, Cells, Row, Tomb, Value};
use rc_core::Flag;
use rc_position::{Comp, Key, Pos, Weight};
use std::alloc::{AllocError, Global};

/// The weights.
const WEIGHTS: &[Weight] = &[Weight::Before, Weight::At, Weight::After];

/// All positions at the keys of at most two components, each below three.
pub(crate) fn all_positions(alloc: Global) -> Result<Vec<Pos>, AllocError> {
    let mut all = Vec::new(alloc);
    for weight in WEIGHTS {
        push_positions(alloc, &mut all, *weight)?;
    }
    Ok(all)
}

// Those of one weight.
fn push_positions(alloc: Global, all: &mut Vec<Pos>, weight: Weight) -> Result<(), AllocError> {
    push_position(all, Key::empty(alloc), weight)?;
    for first in 0..3 {
        push_longer(alloc, all, first, weight)?;
    }
    Ok(())
}

// Those at keys with this first component.
fn push_longer(
    alloc: Global,
    all: &mut Vec<Pos>,
    first: u32,
    weight: Weight,
) -> Result<(), AllocError> {
    push_position(all, short_key(alloc, first)?, weight)?;
    for second in 0..3 {
        push_position(all, long_key(alloc, first, second)?, weight)?;
    }
    Ok(())
}

// One of them.
fn push_position(all: &mut Vec<Pos>, prefix: Key, weight: Weight) -> Result<(), AllocError> {
    all.push(Pos { prefix, weight })?;
    Ok(())
}

// A key of one component.
fn short_key(alloc: Global, first: u32) -> Result<Key, AllocError>
    ensures { IfOk result (λ key. KeyFits key) }
{
    Key::from_slice(alloc, &[Comp::Int(i64::from(first))])
}

// A key of two.
fn long_key(alloc: Global, first: u32, second: u32) -> Result<Key, AllocError>
    ensures { IfOk result (λ key. KeyFits key) }
{
    Key::from_slice(
        alloc,
        &[Comp::Int(i64::from(first)), Comp::Int(i64::from(second))],
    )
}

// Some key.
fn some_key(alloc: Global, chance: &mut Chance) -> Result<Key, AllocError>
    ensures { IfOk result (λ key. KeyFits key) }
{
    let (first, second) = (chance.below(3), chance.below(3));
    match chance.below(8) {
        0 => Ok(Key::empty(alloc)),
        1 | 2 | 3 => short_key(alloc, first),
        _ => long_key(alloc, first, second),
    }
}

// Some weight.
fn some_weight(chance: &mut Chance) -> Weight {
    match chance.below(3) {
        0 => Weight::Before,
        1 => Weight::At,
        _ => Weight::After,
    }
}

/// Some position.
pub(crate) fn some_position(alloc: Global, chance: &mut Chance) -> Result<Pos, AllocError>
    ensures { IfOk result (λ x. KeyFits x.prefix) }
{
    let weight = some_weight(chance);
    Ok(Pos {
        prefix: some_key(alloc, chance)?,
        weight,
    })
}

/// Some position of a row.
pub(crate) fn some_place(alloc: Global, chance: &mut Chance) -> Result<Pos, AllocError>
    ensures { IfOk result (λ x. KeyFits x.prefix) }
{
    Ok(Pos {
        prefix: some_key(alloc, chance)?,
        weight: Weight::At,
    })
}

/// Some tombstone; some are equal, and some have one timestamp and two deletion times.
pub(crate) fn some_tomb(chance: &mut Chance) -> Tomb {
    Tomb {
        ts: i64::from(chance.below(7)) - 2,
        dt: chance.below(3),
    }
}

/// Some tombstone, or none.
pub(crate) fn some_tomb_or_none(chance: &mut Chance) -> Option<Tomb> {
    if chance.happens(40) {
        Some(some_tomb(chance))
    } else {
        None
    }
}

/// Some flag.
pub(crate) fn some_flag(chance: &mut Chance) -> Flag {
    match chance.below(3) {
        0 => Flag::Known,
        1 => Flag::Unknown,
        _ => Flag::Inherit,
    }
}

// One cell.
fn some_cell(alloc: Global, chance: &mut Chance) -> Result<Cell, AllocError>
    ensures { IfOk result (λ cell. CellFits cell) }
{
    let ts = i64::from(chance.below(7)) - 2;
    if chance.happens(30) {
        return Ok(Cell::Dead {
            ts,
            dt: chance.below(3),
        });
    }
    let byte = if chance.happens(50) { 65 } else { 66 };
    let value = if chance.happens(50) {
        Value::from_slice(alloc, &[byte; 250])?
    } else {
        Value::from_slice(alloc, &[byte])?
    };
    Ok(Cell::Live { ts, value })
}

// The cells of one column.
fn some_cells(alloc: Global, chance: &mut Chance) -> Result<Cells, AllocError>
    ensures { IfOk result (λ cells. All EntryFits cells) }
{
    let column = if chance.happens(50) { 0 } else { 7 };
    Cells::from_slice(alloc, &[(column, some_cell(alloc, chance)?)])
}

/// Some row, in which something is written: a marker, a tombstone or a cell.
pub(crate) fn some_row(alloc: Global, chance: &mut Chance) -> Result<Row, AllocError>
    ensures { IfOk result (λ row. RowFits row) }
{
    let marker = Some(i64::from(chance.below(7)) - 2);
    match chance.below(4) {
        0 => Ok(Row {
            marker: None,
            tomb: Some(some_tomb(chance)),
            cells: Cells::empty(alloc),
        }),
        1 => Ok(Row {
            marker,
            tomb: None,
            cells: Cells::empty(alloc),
        }),
        _ => Ok(Row {
            marker: None,
            tomb: None,
            cells: some_cells(alloc, chance)?,
        }),
    }
}
