//! How many bytes must be spare for a fill.
ghost use Rattle.std.specs.Prelude.{◌≡◌, ◌≤◌};
ghost use Rattle.rc_rowcode.specs.Objects.{entry_size as size_of_entry};
ghost use Rattle.rc_rowcode.specs.Spelling.{KeyFits, RowFits};
ghost use Rattle.rc_version.specs.Versions.{statics_bytes};
ghost use Rattle.rc_populate.specs.Filling as filling;

use rc_cell::Row;
use rc_position::{Key, Pos};
use rc_rowcode::{dummy_size, entry_size, static_size};

/// How many bytes must be spare to fill a gap from one position on and before another: for a dummy at both, 704 at most.
pub fn gap_need(from: &Pos, to: &Pos) -> usize
    requires from { KeyFits from.now.prefix }
    requires to { KeyFits to.now.prefix }
    ensures value { result ≡ filling.gap_need from.now to.now }
    ensures small { result ≤ 704 }
{
    dummy_size(from) + dummy_size(to)
}

/// How many bytes must be spare to fill a row: for its entry, 8,952 at most.
pub fn row_need(key: &Key, row: &Row) -> usize
    requires key { KeyFits key.now }
    requires row { RowFits row.now }
    ensures value { result ≡ size_of_entry key.now row.now }
    ensures small { result ≤ 8952 }
{
    entry_size(key, row)
}

/// How many bytes must be spare to fill a static row: for its object, 8,632 at most; none for a row in which nothing is written, which has no object.
pub fn static_need(row: &Row) -> usize
    requires { RowFits row.now }
    ensures value { result ≡ statics_bytes (filling.filled_statics row.now) }
    ensures small { result ≤ 8632 }
{
    if row.is_empty() { 0 } else { static_size(row) }
}
