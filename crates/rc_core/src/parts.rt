//! The parts of a snapshot, one after another from a place on.

use rc_cell::{Row, Tomb};
use rc_position::{Key, Pos};

/// The first part of what is seen from a place on, up to a bound.
#[derive(Drop)]
pub enum Part {
    /// The place is known, and a row is there.
    Row {
        /// Its key.
        key: Key,
        /// The row.
        row: Row,
        /// The range tombstone in force there.
        tomb: Option<Tomb>,
    },
    /// From the place on and before `to` it is known that there is no row.
    Gap {
        /// Where the gap ends: at the next entry, or at the bound.
        to: Pos,
        /// The range tombstone in force over the gap.
        tomb: Option<Tomb>,
    },
    /// The place is not known.
    Missing {
        /// Where the next entry stands, or the bound.
        to: Pos,
    },
    /// The place is the bound.
    End,
}
