//! How many bytes the objects of the engine take that hold codes.

ghost use Rattle.std.specs.Prelude.{◌≡◌, ◌≤◌};
ghost use Rattle.rc_rowcode.specs.Spelling.{KeyFits, RowFits};
ghost use Rattle.rc_rowcode.specs.Objects as objects;

use crate::keys::{key_size, pos_size};
use crate::rows::row_size;
use lsa_kinds::round_up;
use rc_cell::Row;
use rc_position::{Key, Pos};

/// The bytes of a version.
pub const VERSION_SIZE: usize = 64;

/// The bytes of a dummy at a position.
pub fn dummy_size(x: &Pos) -> usize
    requires { KeyFits x.now.prefix }
    ensures value { result ≡ objects.dummy_size x.now }
    ensures small { result ≤ 352 }
{
    round_up(80 + pos_size(x))
}

/// The bytes of the entry of a row at a key.
pub fn entry_size(key: &Key, row: &Row) -> usize
    requires key { KeyFits key.now }
    requires row { RowFits row.now }
    ensures value { result ≡ objects.entry_size key.now row.now }
    ensures small { result ≤ 8952 }
{
    round_up(80 + (1 + key_size(key) + row_size(row)))
}

/// The bytes of a static row.
pub fn static_size(row: &Row) -> usize
    requires { RowFits row.now }
    ensures value { result ≡ objects.static_size row.now }
    ensures small { result ≤ 8632 }
{
    round_up(32 + row_size(row))
}
