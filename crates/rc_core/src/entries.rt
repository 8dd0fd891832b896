//! The entries of a version, and the flags of continuity.

use rc_cell::{Row, Tomb};
use rc_position::Pos;

/// What a version says of a place beside the writes that it holds there.
#[derive(Clone, Copy)]
pub enum Flag {
    /// With what the version holds there the place is complete.
    Known,
    /// Something may be missing there.
    Unknown,
    /// The next older version's answer holds, joined with what this version holds there.
    Inherit,
}

/// What stands below the oldest version of a chain.
#[derive(Clone, Copy)]
pub enum ChainKind {
    /// Nothing was written: everything is known and empty.
    Memtable,
    /// Everything may be missing.
    Cache,
}

/// A flag of continuity and a range tombstone: at the position of an entry, or over the open gap before it.
#[derive(Clone, Copy)]
pub struct Mark {
    /// The flag.
    pub flag: Flag,
    /// The range tombstone.
    pub tomb: Option<Tomb>,
}

/// An entry of a version: a row, or a dummy, which holds none and marks a position.
#[derive(Drop)]
pub struct Entry {
    /// Where it stands.
    pub position: Pos,
    /// The row; none of a dummy.
    pub row: Option<Row>,
    /// The flag and the range tombstone at its own position.
    pub at: Mark,
    /// The flag and the range tombstone over the open gap before it.
    pub gap: Mark,
}
