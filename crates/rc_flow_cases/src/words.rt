//! What the words of a line spell. A partition is `KEY:ITEM,ITEM`; an item is `ROW@TS`, the range tombstone `FROM-TO@TS` from before the one row up to
//! behind the other, `FROM..TO@TS`, which is a range tombstone over each row alone, or the partition tombstone `all@TS`.

use rc_cell::{Cells, Row, Tomb};
use rc_mutation::{Mutation, Partition};
use rc_position::{Comp, Key, LONGEST_PARTITION_KEY, PartKey, Pos, Weight};
use std::alloc::{AllocError, Global};

/// The deletion time of every tombstone here.
const DELETED: u32 = 7;

// The position of a row, or before or behind it.
fn position(alloc: Global, number: i64, weight: Weight) -> Result<Pos, AllocError> {
    Ok(Pos {
        prefix: Key::from_slice(alloc, &[Comp::Int(number)])?,
        weight,
    })
}

// The partition key of a word.
fn key_of(alloc: Global, word: &str) -> Result<Option<PartKey>, AllocError> {
    let bytes = word.as_bytes();
    if bytes.is_empty() || bytes.len() > LONGEST_PARTITION_KEY {
        return Ok(None);
    }
    Ok(Some(PartKey::from_slice(alloc, bytes)?))
}

// Joins a row with a marker; whether the word is one.
fn join_row(alloc: Global, change: &mut Mutation, word: &str, ts: i64) -> Result<bool, AllocError> {
    let Ok(number) = word.parse::<i64>() else {
        return Ok(false);
    };
    let key = Key::from_slice(alloc, &[Comp::Int(number)])?;
    let row = Row {
        marker: Some(ts),
        tomb: None,
        cells: Cells::empty(alloc),
    };
    change.rows.join_row(alloc, &key, &row)?;
    Ok(true)
}

// Joins a range tombstone from before the one row up to behind the other; whether they are the ends of one.
fn join_range(
    alloc: Global,
    change: &mut Mutation,
    first: i64,
    last: i64,
    tomb: Tomb,
) -> Result<bool, AllocError> {
    let from = position(alloc, first, Weight::Before)?;
    let to = position(alloc, last, Weight::After)?;
    if from < to {
        change.ranges.add(alloc, &from, &to, tomb)?;
        return Ok(true);
    }
    Ok(false)
}

// Joins a range tombstone over each of some rows alone.
fn join_each(
    alloc: Global,
    change: &mut Mutation,
    first: i64,
    last: i64,
    tomb: Tomb,
) -> Result<bool, AllocError> {
    for number in first..=last {
        if !join_range(alloc, change, number, number, tomb)? {
            return Ok(false);
        }
    }
    Ok(true)
}

// The numbers of two words.
fn numbers_of((first, last): (&str, &str)) -> Option<(i64, i64)> {
    let first = first.parse::<i64>().ok()?;
    let last = last.parse::<i64>().ok()?;
    Some((first, last))
}

// Joins a row, a range tombstone or some; whether the word is a place of such.
fn join_place(
    alloc: Global,
    change: &mut Mutation,
    place: &str,
    tomb: Tomb,
) -> Result<bool, AllocError> {
    if let Some((first, last)) = place.split_once("..").and_then(numbers_of) {
        return join_each(alloc, change, first, last, tomb);
    }
    match place.split_once('-').and_then(numbers_of) {
        Some((first, last)) => join_range(alloc, change, first, last, tomb),
        None => join_row(alloc, change, place, tomb.ts),
    }
}

// Joins an item; whether the word is one.
fn join_item(alloc: Global, change: &mut Mutation, item: &str) -> Result<bool, AllocError> {
    let Some((place, ts)) = item.split_once('@') else {
        return Ok(false);
    };
    let Ok(ts) = ts.parse::<i64>() else {
        return Ok(false);
    };
    let tomb = Tomb { ts, dt: DELETED };
    if place == "all" {
        change.pt = Some(tomb);
        return Ok(true);
    }
    join_place(alloc, change, place, tomb)
}

/// Joins the items between commas; whether each is one.
pub(crate) fn join_items(
    alloc: Global,
    change: &mut Mutation,
    items: &str,
) -> Result<bool, AllocError> {
    for item in items.split(',') {
        if !join_item(alloc, change, item)? {
            return Ok(false);
        }
    }
    Ok(true)
}

// Appends the partition of a key in which nothing is written; whether the word is a key.
fn push_key(alloc: Global, parts: &mut Vec<Partition>, word: &str) -> Result<bool, AllocError> {
    match key_of(alloc, word)? {
        Some(key) => {
            let change = Mutation::empty(alloc);
            parts.push(Partition { key, change })?;
            Ok(true)
        }
        None => Ok(false),
    }
}

// Joins the items between commas to the last partition; whether each is one.
fn join_last(alloc: Global, parts: &mut [Partition], items: &str) -> Result<bool, AllocError> {
    match parts.last_mut() {
        Some(part) => join_items(alloc, &mut part.change, items),
        None => Ok(false),
    }
}

// Appends the partition of a word; whether it is one.
fn push_partition(
    alloc: Global,
    parts: &mut Vec<Partition>,
    word: &str,
) -> Result<bool, AllocError> {
    let (key, items) = word.split_once(':').unwrap_or((word, ""));
    if push_key(alloc, parts, key)? {
        return join_last(alloc, parts.as_mut_slice(), items);
    }
    Ok(false)
}

/// Appends the partitions of the words of a text; whether each is one.
pub(crate) fn push_partitions(
    alloc: Global,
    parts: &mut Vec<Partition>,
    text: &str,
) -> Result<bool, AllocError> {
    for word in text.split(' ') {
        if !push_partition(alloc, parts, word)? {
            return Ok(false);
        }
    }
    Ok(true)
}

/// A partition, and from which row on up to which it is read.
#[derive(Drop)]
pub(crate) struct Reading {
    /// The partition's key.
    pub(crate) key: PartKey,
    /// The first position.
    pub(crate) from: Pos,
    /// The last position.
    pub(crate) upto: Pos,
}

// The reading of a partition from before the one row on, up to behind the other.
fn reading_with(alloc: Global, key: PartKey, first: i64, last: i64) -> Result<Reading, AllocError> {
    let from = position(alloc, first, Weight::Before)?;
    let upto = position(alloc, last, Weight::After)?;
    Ok(Reading { key, from, upto })
}

/// The reading of the partition of a word from before the one row on, up to behind the other; none where the words do not say which.
pub(crate) fn reading_of(
    alloc: Global,
    key: &str,
    rows: (&str, &str),
) -> Result<Option<Reading>, AllocError> {
    let Some((first, last)) = numbers_of(rows) else {
        return Ok(None);
    };
    match key_of(alloc, key)? {
        Some(key) => Ok(Some(reading_with(alloc, key, first, last)?)),
        None => Ok(None),
    }
}
