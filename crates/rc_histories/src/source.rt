//! What writes say of a partition, as a plain table: at each position of the universe a row and a range tombstone.

use crate::chance::Chance;
use crate::universe::{KEYS, Universe, position};
use rc_cell::{Cell, Cells, Row, Tomb};
use rc_mutation::{Mutation, Statics, greater_tomb};
use rc_position::{Key, Pos, Weight};
use std::alloc::{AllocError, Global};
use std::cmp::Ordering;

/// What writes say of one position.
#[derive(Drop)]
pub(crate) struct Said {
    /// Where.
    pub(crate) position: Pos,
    /// The rows as one.
    pub(crate) row: Row,
    /// The greatest range tombstone.
    pub(crate) tomb: Option<Tomb>,
}

/// What writes say of a partition.
#[derive(Drop)]
pub(crate) struct Source {
    /// The greatest partition tombstone.
    pub(crate) pt: Option<Tomb>,
    /// The static rows as one.
    pub(crate) statics: Row,
    /// At each position of the universe, in order.
    pub(crate) places: Vec<Said>,
}

impl Source {
    /// Of no writes.
    pub(crate) fn empty(alloc: Global, universe: &Universe) -> Result<Self, AllocError> {
        let places = empty_places(alloc, universe)?;
        Ok(Source {
            pt: None,
            statics: Row::empty(alloc),
            places,
        })
    }

    /// An equal table.
    pub(crate) fn copy(&self, alloc: Global) -> Result<Self, AllocError> {
        let statics = self.statics.copy(alloc)?;
        Ok(Source {
            pt: self.pt,
            statics,
            places: copy_places(alloc, self.places.as_slice())?,
        })
    }

    /// One more row written.
    pub(crate) fn add_row(&mut self, alloc: Global, at: &Pos, row: &Row) -> Result<(), AllocError> {
        for said in self.places.iter_mut() {
            if said.position == *at {
                said.row.join(alloc, row)?;
            }
        }
        Ok(())
    }

    // One more row of a key written.
    fn add_row_of(&mut self, alloc: Global, key: &Key, row: &Row) -> Result<(), AllocError> {
        let at = Pos {
            prefix: key.copy(alloc)?,
            weight: Weight::At,
        };
        self.add_row(alloc, &at, row)
    }

    /// One more range tombstone written, from one position on and before another.
    pub(crate) fn add_range(&mut self, from: &Pos, to: &Pos, tomb: Tomb) {
        for said in self.places.iter_mut() {
            if *from <= said.position && said.position < *to {
                said.tomb = greater_tomb(said.tomb, Some(tomb));
            }
        }
    }

    /// Another mutation written.
    pub(crate) fn add(&mut self, alloc: Global, change: &Mutation) -> Result<(), AllocError> {
        self.pt = greater_tomb(self.pt, change.pt);
        self.add_ranges(change);
        self.statics.join(alloc, change.statics.as_row())?;
        self.add_rows(alloc, change)
    }

    fn add_rows(&mut self, alloc: Global, change: &Mutation) -> Result<(), AllocError> {
        for (key, row) in change.rows.as_slice() {
            self.add_row_of(alloc, key, row)?;
        }
        Ok(())
    }

    fn add_ranges(&mut self, change: &Mutation) {
        for piece in change.ranges.as_slice() {
            self.add_range(&piece.from, &piece.to, piece.tomb);
        }
    }

    /// What is said at a position of the universe.
    pub(crate) fn at(&self, x: &Pos) -> Option<&Said> {
        for said in &self.places {
            if said.position == *x {
                return Some(said);
            }
        }
        None
    }
}

fn empty_places(alloc: Global, universe: &Universe) -> Result<Vec<Said>, AllocError> {
    let mut places = Vec::new(alloc);
    for x in &universe.all {
        let position = x.copy(alloc)?;
        places.push(Said {
            position,
            row: Row::empty(alloc),
            tomb: None,
        })?;
    }
    Ok(places)
}

fn copy_said(alloc: Global, said: &Said) -> Result<Said, AllocError> {
    let position = said.position.copy(alloc)?;
    Ok(Said {
        position,
        row: said.row.copy(alloc)?,
        tomb: said.tomb,
    })
}

fn copy_places(alloc: Global, said: &[Said]) -> Result<Vec<Said>, AllocError> {
    let mut places = Vec::new(alloc);
    for one in said {
        places.push(copy_said(alloc, one)?)?;
    }
    Ok(places)
}

/// Whether two rows are one.
pub(crate) fn is_same_row(row: &Row, other: &Row) -> bool {
    row.marker == other.marker
        && row.tomb == other.tomb
        && row.cells.as_slice() == other.cells.as_slice()
}

/// A tombstone of some timestamp.
pub(crate) fn some_tomb(chance: &mut Chance) -> Tomb {
    Tomb {
        ts: 1 + i64::from(chance.below(5)),
        dt: chance.below(2),
    }
}

/// One cell, which deletes a column.
pub(crate) fn some_cells(alloc: Global, chance: &mut Chance) -> Result<Cells, AllocError> {
    let column = if chance.happens(50) { 0 } else { 1 };
    let ts = 1 + i64::from(chance.below(5));
    Cells::from_slice(alloc, &[(column, Cell::Dead { ts, dt: 0 })])
}

/// A row of which something is written: a marker, a tombstone, or a cell.
pub(crate) fn some_row(alloc: Global, chance: &mut Chance) -> Result<Row, AllocError> {
    let marker = 1 + i64::from(chance.below(5));
    let mut row = Row::empty(alloc);
    match chance.below(4) {
        0 => row.tomb = Some(some_tomb(chance)),
        1 => row.cells = some_cells(alloc, chance)?,
        _ => row.marker = Some(marker),
    }
    Ok(row)
}

/// Two bounds of the universe, the lesser first; none where chance takes one twice.
pub(crate) fn some_bounds<'a>(
    chance: &mut Chance,
    bounds: &'a [Pos],
) -> Option<(&'a Pos, &'a Pos)> {
    let first = bounds.get(chance.index(bounds.len()))?;
    let second = bounds.get(chance.index(bounds.len()))?;
    match first.cmp(second) {
        Ordering::Less => Some((first, second)),
        Ordering::Equal => None,
        Ordering::Greater => Some((second, first)),
    }
}

/// What an update writes: at the head, of the static row, rows and range tombstones, each or none.
pub(crate) fn some_mutation(
    alloc: Global,
    universe: &Universe,
    chance: &mut Chance,
) -> Result<Mutation, AllocError> {
    let mut change = Mutation::empty(alloc);
    write_all(alloc, &mut change, universe, chance)?;
    Ok(change)
}

fn write_all(
    alloc: Global,
    change: &mut Mutation,
    universe: &Universe,
    chance: &mut Chance,
) -> Result<(), AllocError> {
    write_head(alloc, change, chance)?;
    write_rows(alloc, change, chance)?;
    write_ranges(alloc, change, universe, chance)
}

fn write_head(alloc: Global, change: &mut Mutation, chance: &mut Chance) -> Result<(), AllocError> {
    if chance.happens(25) {
        change.pt = Some(some_tomb(chance));
    }
    if chance.happens(50) {
        change.statics = Statics::from_cells(some_cells(alloc, chance)?);
    }
    Ok(())
}

fn write_rows(alloc: Global, change: &mut Mutation, chance: &mut Chance) -> Result<(), AllocError> {
    for number in KEYS {
        if chance.happens(40) {
            write_row(alloc, change, *number, chance)?;
        }
    }
    Ok(())
}

fn write_row(
    alloc: Global,
    change: &mut Mutation,
    number: i64,
    chance: &mut Chance,
) -> Result<(), AllocError> {
    let at = position(alloc, number, Weight::At)?;
    add_row(alloc, change, &at, chance)
}

fn write_ranges(
    alloc: Global,
    change: &mut Mutation,
    universe: &Universe,
    chance: &mut Chance,
) -> Result<(), AllocError> {
    for _ in 0..chance.below(3) {
        add_range(alloc, change, universe, chance)?;
    }
    Ok(())
}

// Some row at a position.
fn add_row(
    alloc: Global,
    change: &mut Mutation,
    at: &Pos,
    chance: &mut Chance,
) -> Result<(), AllocError> {
    let row = some_row(alloc, chance)?;
    if !row.is_empty() {
        change.rows.join_row(alloc, &at.prefix, &row)?;
    }
    Ok(())
}

// Some range tombstone.
fn add_range(
    alloc: Global,
    change: &mut Mutation,
    universe: &Universe,
    chance: &mut Chance,
) -> Result<(), AllocError> {
    let tomb = some_tomb(chance);
    let Some((from, to)) = some_bounds(chance, universe.bounds.as_slice()) else {
        return Ok(());
    };
    match from.cmp(to) {
        Ordering::Less => change.ranges.add(alloc, from, to, tomb),
        Ordering::Equal | Ordering::Greater => Ok(()),
    }
}
