//! What a line says before a schema is known.

ghost use Rattle.std.specs.Prelude.{◌≡◌, [], map};

use crate::commands::Command;
use rc_cell::{Cell, Tomb};
use rc_position::Text;
use std::alloc::Global;
use std::marker::Model;

/// The components of a key, or of a prefix of one, each as the bytes that were spelled. A contract sees the list of them.
#[derive(Drop)]
pub(crate) struct Pieces {
    items: Vec<Vec<u8>>,
}

impl Model for Pieces {
    ghost use Rattle.std.specs.Prelude.{ℕ, List, map};

    ghost Value = { List (List ℕ) };

    ghost view = { λ p. map (λ bytes. bytes.items) p.items.items };
}

impl Pieces {
    /// No components.
    pub(crate) fn empty(alloc: Global) -> Self
        ensures { result ≡ [] }
    {
        Pieces {
            items: Vec::new(alloc),
        }
    }

    /// These components.
    pub(crate) fn of(items: Vec<Vec<u8>>) -> Self
        ensures { result ≡ map (λ bytes. bytes.items) items.items }
    {
        Pieces { items }
    }

    /// The bytes of each component, in order.
    pub(crate) fn as_slice(&self) -> &[Vec<u8>]
        ensures { map (λ bytes. bytes.items) result.now ≡ self.now }
    {
        self.items.as_slice()
    }
}

/// Names of columns, each with the cell that is written there. A contract sees the list of the pairs.
#[derive(Drop)]
pub(crate) struct Named {
    items: Vec<(Text, Cell)>,
}

impl Model for Named {
    ghost use Rattle.std.specs.Prelude.{ℕ, List};
    ghost use Rattle.rc_cell.specs.declared.writes.Cell.{Cell};

    ghost Value = { List (List ℕ × Cell) };

    ghost view = { λ n. n.items.items };
}

impl Named {
    /// No names.
    pub(crate) fn empty(alloc: Global) -> Self
        ensures { result ≡ [] }
    {
        Named {
            items: Vec::new(alloc),
        }
    }

    /// These names with their cells.
    pub(crate) fn of(items: Vec<(Text, Cell)>) -> Self
        ensures { result ≡ items.items }
    {
        Named { items }
    }

    /// The names with their cells, in order.
    pub(crate) fn as_slice(&self) -> &[(Text, Cell)]
        ensures { result.now ≡ self.now }
    {
        self.items.as_slice()
    }
}

/// Where a range begins or ends: at a prefix, inclusive or not. No bound is the empty prefix, inclusive.
#[derive(Drop)]
pub(crate) struct Bound {
    /// The components of the prefix.
    pub(crate) pieces: Pieces,
    /// Whether the rows with the prefix are in the range.
    pub(crate) inclusive: bool,
}

/// What the words of a line that name columns say of these.
#[derive(Clone, Copy)]
pub(crate) enum Stamp {
    /// A live cell with this timestamp.
    Alive(i64),
    /// A dead cell with this timestamp and deletion time.
    Gone(Tomb),
}

/// What a line writes to its partition.
#[derive(Drop)]
pub(crate) enum Change {
    /// Of one row.
    OfRow {
        /// The components of its key.
        ck: Pieces,
        /// The timestamp of its marker.
        marker: Option<i64>,
        /// Its tombstone.
        tomb: Option<Tomb>,
        /// Its cells.
        cells: Named,
    },
    /// The cells of the static row.
    OfStatic(Named),
    /// The tombstone of a range.
    OfRange {
        /// Where it begins.
        from: Bound,
        /// Where it ends.
        to: Bound,
        /// The tombstone.
        tomb: Tomb,
    },
    /// The tombstone of the whole partition.
    OfPartition(Tomb),
}

/// What a line says before a schema is known.
#[derive(Drop)]
pub(crate) enum Shape {
    /// A command that is the same under each schema.
    Plain(Command),
    /// Opens a reader of a range under an id.
    Open {
        /// The reader's id.
        id: u32,
        /// The partition's key.
        key: Text,
        /// Where the range begins.
        from: Bound,
        /// Where it ends.
        to: Bound,
    },
    /// A write to one partition.
    Written {
        /// The partition's key.
        key: Text,
        /// What is written.
        change: Change,
    },
}
