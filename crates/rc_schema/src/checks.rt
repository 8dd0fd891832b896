//! What is checked of keys and rows under a schema.

ghost use Rattle.std.specs.Prelude.{◌≡◌, ◌<◌, nat_lt};
ghost use Rattle.std.specs.List.{list_all};
ghost use Rattle.rc_schema.specs.Checks.{is_of_kind, are_of_kinds, fits_kinds, is_short, has_short_value};

use crate::kinds::CkKind;
use rc_cell::Cell;
use rc_position::{Comp, LONGEST_TEXT};
use thiserror::Error;

/// Why a key or a row does not fit a schema, in the order in which it is tried.
#[derive(Clone, Copy, Debug, PartialEq, Eq, Error)]
pub enum SchemaErr {
    /// A count or a kind of components differs.
    #[error("wrong key")]
    WrongKey,
    /// A column is not in the schema.
    #[error("unknown column")]
    UnknownColumn,
    /// A text component has more than 64 bytes, or a value more than 256.
    #[error("too long")]
    TooLong,
}

/// Whether a component is of a kind.
fn is_of_kind(component: &Comp, kind: CkKind) -> bool
    ensures { result ≡ is_of_kind component.now kind }
{
    match (component, kind) {
        (Comp::Int(_), CkKind::Int) => true,
        (Comp::Int(_), CkKind::Text) => false,
        (Comp::Text(_), CkKind::Int) => false,
        (Comp::Text(_), CkKind::Text) => true,
    }
}

/// Whether each component is of its kind, and there are no more components than kinds.
fn are_of_kinds(key: &[Comp], kinds: &[CkKind]) -> bool
    ensures { result ≡ are_of_kinds key.now kinds.now }
{
    let mut components = key;
    let mut left = kinds;
    loop {
        match (components, left) {
            ([], _) => return true,
            ([_component, _rest @ ..], []) => return false,
            ([component, rest @ ..], [kind, more @ ..]) => {
                if !is_of_kind(component, *kind) {
                    return false;
                }
                components = rest;
                left = more;
            }
        }
    }
}

/// Whether a key, or a prefix of one, has its counts and kinds of components.
pub(crate) fn fits_kinds(full: bool, kinds: &[CkKind], key: &[Comp]) -> bool
    ensures { result ≡ fits_kinds full kinds.now key.now }
{
    are_of_kinds(key, kinds) && (!full || key.len() == kinds.len())
}

/// Whether a component is within the limits.
fn is_short(component: &Comp) -> bool
    ensures { result ≡ is_short component.now }
{
    match component {
        Comp::Int(_) => true,
        Comp::Text(bytes) => bytes.as_slice().len() <= LONGEST_TEXT,
    }
}

/// Whether each component is within the limits.
pub(crate) fn are_short(key: &[Comp]) -> bool
    ensures { result ≡ list_all is_short key.now }
{
    key.iter().all(|component| is_short(component))
}

/// Whether each column is one of so many.
pub(crate) fn are_known(cells: &[(u8, Cell)], columns: usize) -> bool
    ensures { result ≡ list_all (λ e. nat_lt e.0 columns) cells.now }
{
    cells.iter().all(|cell| usize::from(cell.0) < columns)
}

/// Whether a cell's value is within the limits.
fn has_short_value(cell: &Cell) -> bool
    ensures { result ≡ has_short_value cell.now }
{
    match cell {
        Cell::Live { ts: _, value } => value.as_slice().len() <= 256,
        Cell::Dead { ts: _, dt: _ } => true,
    }
}

/// Whether each cell's value is within the limits.
pub(crate) fn have_short_values(cells: &[(u8, Cell)]) -> bool
    ensures { result ≡ list_all (λ e. has_short_value e.1) cells.now }
{
    cells.iter().all(|cell| has_short_value(&cell.1))
}
