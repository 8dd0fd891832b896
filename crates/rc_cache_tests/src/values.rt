//! Keys, rows, positions and writes of the tests.
ghost use Rattle.std.specs.Prelude.{◌≡◌, ◌≢◌, ◌∷◌, [], IfOk, None};
ghost use Rattle.rc_cell.specs.Winner.{empty_row};
ghost use Rattle.rc_position.specs.declared.comps.Comp.TheVariants.{Int};

use rc_cell::Row;
use rc_mutation::{Head, Mutation, Rows, Write};
use rc_position::{Comp, Key, PartKey, Pos, Weight};
use std::alloc::{AllocError, Global};

/// A position of no components.
pub fn bare(alloc: Global, weight: Weight) -> Pos
    ensures { result ≡ record { prefix = []; weight = weight } }
{
    Pos {
        prefix: Key::empty(alloc),
        weight,
    }
}

/// A key of one number.
pub fn key_at(alloc: Global, number: i64) -> Result<Key, AllocError>
    ensures { IfOk result (λ key. key ≡ Int number ∷ []) }
{
    Key::from_slice(alloc, &[Comp::Int(number)])
}

/// A row with the marker 1, and nothing else.
pub fn inserted(alloc: Global) -> Row
    ensures cells { result.cells ≡ [] }
    ensures written { result ≢ empty_row }
{
    let mut row = Row::empty(alloc);
    row.marker = Some(1);
    row
}

/// The head of a partition at which nothing stands.
pub fn nothing(alloc: Global) -> Head
    ensures pt { result.pt ≡ None }
    ensures statics { result.statics ≡ empty_row }
{
    Head {
        pt: None,
        statics: Row::empty(alloc),
    }
}

/// A row that was inserted at a key, and nothing else.
pub fn change_at(alloc: Global, number: i64) -> Result<Mutation, AllocError>
    ensures pt { IfOk result (λ change. change.pt ≡ None) }
    ensures statics { IfOk result (λ change. change.statics ≡ empty_row) }
{
    let key = key_at(alloc, number)?;
    let rows = Rows::of_one(alloc, key, inserted(alloc))?;
    let mut change = Mutation::empty(alloc);
    change.rows = rows;
    Ok(change)
}

/// The same of the partition p.
pub fn written_at(alloc: Global, number: i64) -> Result<Write, AllocError> {
    let key = PartKey::from_slice(alloc, b"p")?;
    let change = change_at(alloc, number)?;
    Ok(Write { key, change })
}
