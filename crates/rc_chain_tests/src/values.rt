//! Keys, rows and positions of the tests.
ghost use Rattle.std.specs.Prelude.{◌≡◌, ◌≢◌, [], IfOk};
ghost use Rattle.rc_cell.specs.Winner.{empty_row};
ghost use Rattle.rc_rowcode.specs.Spelling.{KeyFits, RowFits};

use rc_cell::Row;
use rc_position::{Comp, Key, Pos, Weight};
use std::alloc::{AllocError, Global};

/// A position of no components.
pub fn bare(alloc: Global, weight: Weight) -> Pos
    ensures { result ≡ record { prefix = []; weight = weight } }
{
    Pos {
        prefix: Key::empty(alloc),
        weight,
    }
}

/// A key of one number.
pub fn key_at(alloc: Global, number: i64) -> Result<Key, AllocError>
    ensures { IfOk result (λ key. KeyFits key) }
{
    Key::from_slice(alloc, &[Comp::Int(number)])
}

/// A row with the marker 1, and nothing else.
pub fn inserted(alloc: Global) -> Row
    ensures fits { RowFits result }
    ensures written { result ≢ empty_row }
{
    let mut row = Row::empty(alloc);
    row.marker = Some(1);
    row
}
