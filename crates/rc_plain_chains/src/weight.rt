//! How much the plain chains take: a head of 64 bytes for each version; 80 bytes, a position and a row for each entry; 32 bytes and a row for a static row.

use crate::chains::PlainChain;
use rc_cell::{Cell, Row};
use rc_core::PlainVersion;
use rc_position::{Comp, Pos};

/// The objects.
pub fn objects_of(plain: &[PlainChain]) -> u64 {
    let mut objects: u64 = 0;
    for chain in plain {
        for version in &chain.versions {
            objects = objects.saturating_add(objects_of_version(version));
        }
    }
    objects
}

// The head of a version, its entries and its static row.
fn objects_of_version(version: &PlainVersion) -> u64 {
    let objects = (version.entries.len() as u64).saturating_add(1);
    if version.statics.is_some() {
        objects.saturating_add(1)
    } else {
        objects
    }
}

/// Their bytes.
pub fn bytes_of(plain: &[PlainChain]) -> usize {
    let mut bytes: usize = 0;
    for chain in plain {
        for version in &chain.versions {
            bytes = bytes.saturating_add(bytes_of_version(version));
        }
    }
    bytes
}

// Those of a version.
fn bytes_of_version(version: &PlainVersion) -> usize {
    let mut bytes: usize = 64;
    for entry in &version.entries {
        let size = size_of_position(&entry.position);
        bytes = bytes.saturating_add(rounded(80, size.saturating_add(size_of_row(&entry.row))));
    }
    if version.statics.is_some() {
        bytes = bytes.saturating_add(rounded(32, size_of_row(&version.statics)));
    }
    bytes
}

// A number of bytes of a fixed part and of codes, rounded up to a multiple of 8.
fn rounded(fixed: usize, codes: usize) -> usize {
    fixed.saturating_add(codes).saturating_add(7) / 8 * 8
}

// The code of a position: a byte that counts, the components, and the weight.
fn size_of_position(x: &Pos) -> usize {
    let mut size: usize = 2;
    for comp in x.prefix.as_slice() {
        size = size.saturating_add(match comp {
            Comp::Int(_) => 9,
            Comp::Text(text) => text.as_slice().len().saturating_add(3),
        });
    }
    size
}

// The code of a row, if there is one.
fn size_of_row(row: &Option<Row>) -> usize {
    let Some(row) = row else {
        return 0;
    };
    let mut size: usize = 3;
    if row.marker.is_some() {
        size += 8;
    }
    if row.tomb.is_some() {
        size += 12;
    }
    for (_column, cell) in row.cells.as_slice() {
        size = size.saturating_add(size_of_cell(cell));
    }
    size
}

// The code of a cell, with its column.
fn size_of_cell(cell: &Cell) -> usize {
    match cell {
        Cell::Live { ts: _, value } => value.as_slice().len().saturating_add(12),
        Cell::Dead { ts: _, dt: _ } => 14,
    }
}
