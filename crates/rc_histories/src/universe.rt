//! The positions of a small partition: those at which a history does something, and some between them, where it never does.

use rc_position::{Comp, Key, Pos, Weight};
use std::alloc::{AllocError, Global};

/// The keys of the rows.
pub(crate) const KEYS: &[i64] = &[1, 3, 4];

// Positions, each by the components of its prefix and by its weight.
type Places<'a> = &'a [(&'a [i64], Weight)];

// Where the definitions are tried: at the keys, at rows that nobody writes, one of them longer than a key, and at the bounds of all of them.
const ALL: Places<'static> = &[
    (&[], Weight::Before),
    (&[0], Weight::At),
    (&[1], Weight::Before),
    (&[1], Weight::At),
    (&[1], Weight::After),
    (&[2], Weight::At),
    (&[3], Weight::Before),
    (&[3], Weight::At),
    (&[3, 0], Weight::At),
    (&[3], Weight::After),
    (&[4], Weight::Before),
    (&[4], Weight::At),
    (&[4], Weight::After),
    (&[5], Weight::At),
    (&[], Weight::After),
];

// The bounds of the keys and of the partition.
const BOUNDS: Places<'static> = &[
    (&[], Weight::Before),
    (&[1], Weight::Before),
    (&[1], Weight::After),
    (&[3], Weight::Before),
    (&[3], Weight::After),
    (&[4], Weight::Before),
    (&[4], Weight::After),
    (&[], Weight::After),
];

// The same, and the rows of the keys.
const STOPS: Places<'static> = &[
    (&[], Weight::Before),
    (&[1], Weight::Before),
    (&[1], Weight::At),
    (&[1], Weight::After),
    (&[3], Weight::Before),
    (&[3], Weight::At),
    (&[3], Weight::After),
    (&[4], Weight::Before),
    (&[4], Weight::At),
    (&[4], Weight::After),
    (&[], Weight::After),
];

/// The positions of a partition.
#[derive(Drop)]
pub(crate) struct Universe {
    /// Where the definitions are tried, in order.
    pub(crate) all: Vec<Pos>,
    /// Where a range may begin or end, in order.
    pub(crate) bounds: Vec<Pos>,
    /// Where a gap that is filled may begin or end, in order: the bounds, and the rows.
    pub(crate) stops: Vec<Pos>,
}

/// The position of a number.
pub(crate) fn position(alloc: Global, number: i64, weight: Weight) -> Result<Pos, AllocError> {
    Ok(Pos {
        prefix: Key::from_slice(alloc, &[Comp::Int(number)])?,
        weight,
    })
}

/// Before every row.
pub(crate) fn start_position(alloc: Global) -> Pos {
    Pos {
        prefix: Key::empty(alloc),
        weight: Weight::Before,
    }
}

/// Behind every row.
pub(crate) fn end_position(alloc: Global) -> Pos {
    Pos {
        prefix: Key::empty(alloc),
        weight: Weight::After,
    }
}

/// Whether a position is that of the row of a number.
pub(crate) fn is_row_of(x: &Pos, number: i64) -> bool {
    match (x.prefix.as_slice(), x.weight) {
        ([Comp::Int(key)], Weight::At) => *key == number,
        _ => false,
    }
}

/// Right behind the rows of a key.
pub(crate) fn behind_key(alloc: Global, key: &Key) -> Result<Pos, AllocError> {
    Ok(Pos {
        prefix: key.copy(alloc)?,
        weight: Weight::After,
    })
}

impl Universe {
    /// Whether a position stands from one stop on and before another.
    pub(crate) fn is_between(&self, from: usize, to: usize, x: &Pos) -> bool {
        match (self.stops.get(from), self.stops.get(to)) {
            (Some(from), Some(to)) => *from <= *x && *x < *to,
            _ => false,
        }
    }

    /// The positions of each of its lists.
    pub(crate) fn new(alloc: Global) -> Result<Self, AllocError> {
        let mut universe = Universe {
            all: Vec::new(alloc),
            bounds: Vec::new(alloc),
            stops: Vec::new(alloc),
        };
        universe.fill(alloc)?;
        Ok(universe)
    }

    fn fill(&mut self, alloc: Global) -> Result<(), AllocError> {
        push_places(alloc, &mut self.all, ALL)?;
        push_places(alloc, &mut self.bounds, BOUNDS)?;
        push_places(alloc, &mut self.stops, STOPS)
    }
}

fn push_places(
    alloc: Global,
    made: &mut Vec<Pos>,
    places: Places<'static>,
) -> Result<(), AllocError> {
    for (numbers, weight) in places {
        push_place(made, key_of(alloc, numbers), *weight)?;
    }
    Ok(())
}

// One position more, at this key.
fn push_place(
    made: &mut Vec<Pos>,
    prefix: Result<Key, AllocError>,
    weight: Weight,
) -> Result<(), AllocError> {
    made.push(Pos {
        prefix: prefix?,
        weight,
    })?;
    Ok(())
}

// The key of some numbers.
fn key_of(alloc: Global, numbers: &[i64]) -> Result<Key, AllocError> {
    let mut comps = Vec::new(alloc);
    for number in numbers {
        comps.push(Comp::Int(*number))?;
    }
    Ok(Key::from_vec(comps))
}
