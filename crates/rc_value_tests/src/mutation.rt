//! Writes of many rows joined, and each copy once.

ghost use Rattle.std.specs.Prelude.{◌≢◌};
ghost use Rattle.rc_cell.specs.Winner.{empty_row};

use rc_cell::{Cell, Cells, Row, Tomb};
use rc_mutation::{FragList, Head, HeadAt, Mutation, Partition, Statics, Write};
use rc_position::{Comp, Key, PartKey, Pos, Weight};
use rc_ranges::{Piece, Ranges};
use std::alloc::{AllocError, Global};
use std::test::Fail;

fn key(alloc: Global, number: i64) -> Result<Key, AllocError> {
    Key::from_slice(alloc, &[Comp::Int(number)])
}

fn marked(alloc: Global, ts: i64) -> Row
    ensures { result ≢ empty_row }
{
    Row {
        marker: Some(ts),
        tomb: None,
        cells: Cells::empty(alloc),
    }
}

// 10,000 rows, at each `step`th number.
fn every(alloc: Global, step: i16) -> Result<Mutation, AllocError> {
    let mut made = Mutation::empty(alloc);
    for n in 0..10_000i64 {
        let key = key(alloc, i64::from(step).wrapping_mul(n))?;
        made.rows.join_row(alloc, &key, &marked(alloc, n))?;
    }
    Ok(made)
}

// 10,000 of each, of which 3,334 are both: the multiples of 6 below 20,000.
fn both(alloc: Global) -> Result<Mutation, AllocError> {
    let mut ours = every(alloc, 2)?;
    join_every(alloc, &mut ours, 3)?;
    Ok(ours)
}

fn join_every(alloc: Global, ours: &mut Mutation, step: i16) -> Result<(), AllocError> {
    let theirs = every(alloc, step)?;
    ours.join(alloc, &theirs)
}

// How many fragments a mutation has, a start and an end among them.
fn fragments_of(alloc: Global, change: &Mutation) -> Result<usize, AllocError> {
    let list = change.fragments(alloc)?;
    Ok(list.as_slice().len())
}

#[test]
fn joins_ten_thousand_rows(rt: HostRuntime) -> Result<(), Fail> {
    let both = both(rt.alloc())?;
    assert!(rt; fragments_of(rt.alloc(), &both)? == 16_668);
    Ok(())
}

const TOMB: Tomb = Tomb { ts: 4, dt: 7 };

// Before or behind the row of the key 1.
fn beside(alloc: Global, weight: Weight) -> Result<Pos, AllocError> {
    Ok(Pos {
        prefix: key(alloc, 1)?,
        weight,
    })
}

// Each part of a mutation: a partition tombstone, a dead static value, a row, and a range tombstone.
fn write_parts(alloc: Global, change: &mut Mutation) -> Result<(), AllocError> {
    change.pt = Some(TOMB);
    change.statics = Statics::from_cells(Cells::from_slice(alloc, &[(0, DEAD)])?);
    change
        .rows
        .join_row(alloc, &key(alloc, 1)?, &marked(alloc, 5))?;
    add_range(alloc, &mut change.ranges)
}

const DEAD: Cell = Cell::Dead { ts: 4, dt: 7 };

fn add_range(alloc: Global, ranges: &mut Ranges) -> Result<(), AllocError> {
    let from = beside(alloc, Weight::Before)?;
    let to = beside(alloc, Weight::After)?;
    if from < to {
        ranges.add(alloc, &from, &to, TOMB)?;
    }
    Ok(())
}

fn written(alloc: Global) -> Result<Mutation, AllocError> {
    let mut change = Mutation::empty(alloc);
    write_parts(alloc, &mut change)?;
    Ok(change)
}

// Whether a key is that of 1.
fn is_key(key: &Key) -> bool {
    match key.as_slice() {
        [Comp::Int(number)] => *number == 1,
        _ => false,
    }
}

// Whether these are the dead static value.
fn are_statics(row: &Row) -> bool {
    match row.cells.as_slice() {
        [(column, cell)] => *column == 0 && *cell == DEAD,
        _ => false,
    }
}

// Whether these are the one row.
fn are_rows(rows: &[(Key, Row)]) -> bool {
    match rows {
        [(key, row)] => is_key(key) && row.marker == Some(5),
        _ => false,
    }
}

// Whether these are the one range tombstone.
fn are_ranges(pieces: &[Piece]) -> bool {
    match pieces {
        [piece] => is_key(&piece.from.prefix) && piece.from < piece.to && piece.tomb == TOMB,
        _ => false,
    }
}

// Whether a mutation has each part, as it was written.
fn is_written(change: &Mutation) -> bool {
    change.pt == Some(TOMB)
        && are_statics(change.statics.as_row())
        && are_rows(change.rows.as_slice())
        && are_ranges(change.ranges.as_slice())
}

// Whether a partition's key is `p`.
fn is_name(key: &PartKey) -> bool {
    key.as_slice() == b"p".as_slice()
}

fn write_of(alloc: Global) -> Result<Write, AllocError> {
    let key = PartKey::from_slice(alloc, b"p")?;
    Ok(Write {
        key,
        change: written(alloc)?,
    })
}

#[test]
fn copies_writes(rt: HostRuntime) -> Result<(), Fail> {
    let write = write_of(rt.alloc())?;
    let same = write.copy(rt.alloc())?;
    assert!(rt; is_name(&same.key) && is_written(&same.change));
    Ok(())
}

fn partition_of(alloc: Global) -> Result<Partition, AllocError> {
    let key = PartKey::from_slice(alloc, b"p")?;
    Ok(Partition {
        key,
        change: written(alloc)?,
    })
}

#[test]
fn copies_partitions(rt: HostRuntime) -> Result<(), Fail> {
    let part = partition_of(rt.alloc())?;
    let same = part.copy(rt.alloc())?;
    assert!(rt; is_name(&same.key) && is_written(&same.change));
    Ok(())
}

// How many fragments a copy of a copy has.
fn copied_twice(alloc: Global, list: &FragList) -> Result<usize, AllocError> {
    let same = list.copy(alloc)?;
    let again = FragList::from_slice(alloc, same.as_slice())?;
    Ok(again.as_slice().len())
}

#[test]
fn copies_fragments(rt: HostRuntime) -> Result<(), Fail> {
    let change = written(rt.alloc())?;
    let list = change.fragments(rt.alloc())?;
    assert!(rt; copied_twice(rt.alloc(), &list)? == 6);
    Ok(())
}

#[test]
fn copies_heads(rt: HostRuntime) -> Result<(), Fail> {
    let head = Head {
        pt: None,
        statics: marked(rt.alloc(), 5),
    };
    let at = HeadAt { head, known: true };
    let same = at.copy(rt.alloc())?;
    assert!(rt; same.known);
    Ok(())
}
